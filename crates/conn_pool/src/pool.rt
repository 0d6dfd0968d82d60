//! A pool, and the passes by which connections are put into it.
ghost use Rattle.std.specs.Prelude.{◌≡◌, ◌+◌, ◌-◌, ◌<◌, [], ◌∷◌, ◌++◌, MatchResult, IfOk, ⊤};
ghost use Rattle.crossbeam_queue.specs.Fifo.{Held};
ghost use Rattle.crossbeam_queue.specs.Passes.{view, IsPassOf, IsSamePass, ruled_capacity};
ghost use Rattle.conn_pool.specs.Hands.{hand, both, IsEven, numbered};
ghost use Rattle.conn_pool.specs.declared.hand.Numbered.{Numbered};

use crate::hand::{Cut, Line, LinePass, Numbered, Puts};
use cv_outside::Turnable;
use cv_values::Memory;
use std::alloc::Global;
use std::sync::Wait;
use std::sync::atomic::{AtomicU64, Ordering};

/// Connections, each waiting, in one worker's hands or set aside. Threads share it by reference.
#[derive(Drop)]
pub struct Pool<C: Turnable> {
    pub(crate) waiting: Line<C>,
    pub(crate) aside: Line<C>,
    pub(crate) wanted: AtomicU64,
}

/// The right to put connections into a pool and to work there. It takes no bytes.
///
/// It has some of the pool's 1,024 parts, and knows which connections were put by it. One that is dropped takes
/// its parts with it, and then nobody can close the pool.
#[derive(Drop)]
pub struct PoolPass<C: Turnable> {
    pub(crate) waiting: LinePass<C>,
    pub(crate) aside: LinePass<C>,
    pub ghost home: { (waiting.me.1 ≡ []) × (aside.me.1 ≡ []) },
    pub ghost some: { 0 < (view waiting).parts },
    pub ghost level: { (view aside).parts ≡ (view waiting).parts },
    pub ghost unused: { ((view aside).back ≡ []) × ((view aside).taken ≡ []) },
    pub ghost even: { IsEven C.mark (view waiting) (view aside) },
}

impl<C: Turnable + Drop> Pool<C> {
    /// A pool in which so many connections may wait, and a pass with all parts. As many are wanted set aside at
    /// first as may wait. Each queue takes its memory here, for as many.
    pub fn new(alloc: Global, room: usize) -> Result<(Pool<C>, PoolPass<C>), Memory>
        requires { 0 < room }
        ensures pass { IfOk result (λ p. IsPassOf p.0.waiting p.1.waiting × IsPassOf p.0.aside p.1.aside) }
        ensures parts { IfOk result (λ p. (view p.1.waiting).parts ≡ 1024) }
        ensures put { IfOk result (λ p. (view p.1.waiting).put ≡ []) }
        ensures room { IfOk result (λ p. ruled_capacity p.0.waiting ≡ room) }
    {
        let Ok((waiting, first)) = Line::ruled(alloc, room) else {
            return Err(Memory);
        };
        let Ok((aside, second)) = Line::ruled(alloc, room) else {
            return Err(Memory);
        };
        let pool = Pool {
            waiting,
            aside,
            wanted: AtomicU64::new(room as u64),
        };
        let pass = PoolPass {
            waiting: first,
            aside: second,
        };
        Ok((pool, pass))
    }
}

impl<C: Turnable> Pool<C> {
    /// Sets how many connections are wanted set aside: once so many are, workers end. It may be called at any time.
    pub fn seal(&self, wanted: usize) {
        self.wanted.store(wanted as u64, Ordering::SeqCst);
    }

    /// A second pass, with one part. The first keeps the rest.
    pub fn split(&self, pass: &mut PoolPass<C>) -> PoolPass<C>
        requires pass { IsPassOf self.now.waiting pass.old.waiting × IsPassOf self.now.aside pass.old.aside }
        requires parts { 1 < (view pass.old.waiting).parts }
        ensures pass { IsSamePass pass.old.waiting pass.new.waiting × IsSamePass pass.old.aside pass.new.aside }
        ensures second { IsPassOf self.now.waiting result.waiting × IsPassOf self.now.aside result.aside }
        ensures parts { ((view pass.new.waiting).parts + 1 ≡ (view pass.old.waiting).parts) × ((view result.waiting).parts ≡ 1) }
        ensures put { ((view pass.new.waiting).put ≡ (view pass.old.waiting).put) × ((view result.waiting).put ≡ []) }
    {
        let waiting = self.waiting.another::<Cut>(&mut pass.waiting);
        let aside = self.aside.another::<Cut>(&mut pass.aside);
        PoolPass { waiting, aside }
    }

    /// One pass of two.
    pub fn join(&self, pass: &mut PoolPass<C>, other: PoolPass<C>)
        requires pass { IsPassOf self.now.waiting pass.old.waiting × IsPassOf self.now.aside pass.old.aside }
        requires other { IsPassOf self.now.waiting other.waiting × IsPassOf self.now.aside other.aside }
        ensures pass { IsSamePass pass.old.waiting pass.new.waiting × IsSamePass pass.old.aside pass.new.aside }
        ensures waiting { view pass.new.waiting ≡ both (view pass.old.waiting) (view other.waiting) }
    {
        let PoolPass { waiting, aside } = other;
        self.waiting.absorb::<Cut>(&mut pass.waiting, waiting);
        self.aside.absorb::<Cut>(&mut pass.aside, aside);
    }

    /// Puts a connection behind those that wait. It comes back only where as many were waiting as there is room
    /// for. It may spin for as long as another thread is between two steps of a put of its own.
    pub fn put<R: Wait>(&self, rt: &R, pass: &mut PoolPass<C>, number: u32, c: C) -> Result<(), C>
        requires pass { IsPassOf self.now.waiting pass.old.waiting × IsPassOf self.now.aside pass.old.aside }
        ensures pass { IsSamePass pass.old.waiting pass.new.waiting × IsSamePass pass.old.aside pass.new.aside }
        ensures parts { (view pass.new.waiting).parts ≡ (view pass.old.waiting).parts }
        ensures put { MatchResult result (λ _. (view pass.new.waiting).put ≡ (view pass.old.waiting).put ++ numbered number c ∷ []) (λ x. (x ≡ c) × ((view pass.new.waiting).put ≡ (view pass.old.waiting).put) × Held {T = Numbered C} (ruled_capacity self.now.waiting) (λ _. ⊤)) }
    {
        let entry = Numbered { number, conn: c };
        match self
            .waiting
            .push_as::<Puts, R>(rt, &mut pass.waiting, entry)
        {
            Ok(()) => Ok(()),
            Err(Numbered { number: _, conn }) => Err(conn),
        }
    }
}
