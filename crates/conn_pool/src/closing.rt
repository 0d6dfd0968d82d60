//! The end of a pool: all passes become one, and each connection comes back.
ghost use Rattle.std.specs.Prelude.{◌≡◌, ◌+◌, ◌<◌, ℕ, sum_by, IfOk, OnOk};
ghost use Rattle.std.specs.List.{AllByRecursion};
ghost use Rattle.crossbeam_queue.specs.Passes.{view, IsPassOf};
ghost use Rattle.conn_pool.specs.Hands.{known, weigh, by_mark};
ghost use Rattle.conn_pool.specs.declared.hand.Numbered.{Numbered};

use crate::hand::{Line, LinePass, Numbered, Takes};
use crate::pool::{Pool, PoolPass};
use cv_outside::Turnable;
use cv_values::Memory;
use std::alloc::Global;
use std::sync::Wait;

impl<C: Turnable> Pool<C> {
    // One pass of all.
    fn merge_all(&self, passes: Vec<PoolPass<C>>) -> PoolPass<C>
        requires all { AllByRecursion (λ p. IsPassOf self.now.waiting p.waiting × IsPassOf self.now.aside p.aside) passes.items }
        requires parts { 0 < sum_by (λ p. (known {C = C} p.waiting).parts) passes.items }
        ensures pass { IsPassOf self.now.waiting result.waiting × IsPassOf self.now.aside result.aside }
        ensures parts { (view result.waiting).parts ≡ sum_by (λ p. (known {C = C} p.waiting).parts) passes.items }
        ensures put { (h : Numbered C → ℕ) → weigh h (view result.waiting).put ≡ sum_by (λ p. weigh h (known {C = C} p.waiting).put) passes.items }
    {
        let mut passes = passes;
        let Some(mut all) = passes.pop() else {
            unreachable!()
        };
        while let Some(next) = passes.pop() {
            self.join(&mut all, next);
        }
        all
    }
}

// Takes all that the queue holds, by the pass with every part.
fn drain<C: Turnable, R: Wait>(
    rt: &R,
    line: &Line<C>,
    pass: &mut LinePass<C>,
    out: &mut Vec<Numbered<C>>,
) -> Result<(), Memory>
    requires pass { IsPassOf line.now pass.old }
    requires parts { (view pass.old).parts ≡ 1024 }
    ensures { (h : Numbered C → ℕ) → OnOk result (weigh h out.new.items + weigh h (view pass.old).taken ≡ weigh h out.old.items + weigh h (view pass.old).put + weigh h (view pass.old).back) }
{
    for _ in rt.forever() {
        if out.reserve(1).is_err() {
            return Err(Memory);
        }
        match line.pop_as::<Takes, R>(rt, pass) {
            Some(entry) => out.push_reserved(entry),
            None => return Ok(()),
        }
    }
    unreachable!()
}

impl<C: Turnable + Drop> Pool<C> {
    /// Each connection that was put, once, with the number and the mark that it was put with: those that still
    /// wait, then those set aside. For want of memory all are gone.
    pub fn close<R: Wait>(
        self,
        rt: &R,
        alloc: Global,
        passes: Vec<PoolPass<C>>,
    ) -> Result<Vec<Numbered<C>>, Memory>
        requires all { AllByRecursion (λ p. IsPassOf self.waiting p.waiting × IsPassOf self.aside p.aside) passes.items }
        requires parts { sum_by (λ p. (known {C = C} p.waiting).parts) passes.items ≡ 1024 }
        ensures { (h : ℕ → C.Mark → ℕ) → IfOk result (λ v. weigh (by_mark C.mark h) v.items ≡ sum_by (λ p. weigh (by_mark C.mark h) (known {C = C} p.waiting).put) passes.items) }
    {
        let PoolPass {
            mut waiting,
            mut aside,
        } = self.merge_all(passes);
        let mut out = Vec::new(alloc);
        drain(rt, &self.waiting, &mut waiting, &mut out)?;
        drain(rt, &self.aside, &mut aside, &mut out)?;
        Ok(out)
    }
}
