ghost use Rattle.std.specs.Prelude.{◌≡◌, ◌<◌};
ghost use Rattle.crossbeam_queue.specs.Passes.{IsPassOf, view};

use super::*;
use cv_outside::{Again, Gate, Turnable};
use std::alloc::Global;
use std::sync::Wait;
use std::sync::atomic::{AtomicU64, Ordering};
use std::test::Fail;
use std::thread;
use std::thread::{Threads, join};

/// Has so many turns left. Its name is its mark.
#[derive(Drop)]
struct Countdown {
    name: u64,
    left: u64,
}

impl Turnable for Countdown {
    ghost use Rattle.std.specs.Prelude.{ℕ, ◌==◌};

    ghost Mark = { ℕ };

    ghost mark = { λ c. c.name };

    ghost is_over = { λ c. c.left == 0 };

    fn turn(&mut self) -> Again {
        self.left = self.left.saturating_sub(1);
        if self.left == 0 {
            Again::Done
        } else {
            Again::Again
        }
    }
}

/// Holds the turns of number 0 until number 1 had one, at most so many rounds, and counts how often that came.
#[derive(Drop)]
struct Hold<'a> {
    turns: &'a AtomicU64,
    held: &'a AtomicU64,
}

impl Gate for Hold<'_> {
    fn pass(&mut self, number: u32) {
        if number == 1 {
            self.turns.fetch_add(1, Ordering::SeqCst);
            return;
        }
        for _ in 0..1_000_000u32 {
            if self.turns.load(Ordering::SeqCst) > 1 {
                self.held.fetch_add(1, Ordering::SeqCst);
                return;
            }
            thread::yield_now();
        }
    }
}

/// A worker in one value.
#[derive(Drop)]
struct Worker<'p, C: Turnable, G: Gate + Drop, R: Wait> {
    rt: &'p R,
    pool: &'p Pool<C>,
    pass: PoolPass<C>,
    gate: G,
    ghost home: { IsPassOf pool.now.waiting pass.waiting × IsPassOf pool.now.aside pass.aside },
}

impl<'p, C: Turnable, G: Gate + Drop, R: Wait> Worker<'p, C, G, R> {
    fn run(self) -> PoolPass<C>
        ensures pass { IsPassOf self.entry.pool.now.waiting result.waiting × IsPassOf self.entry.pool.now.aside result.aside }
        ensures parts { (view result.waiting).parts ≡ (view self.entry.pass.waiting).parts }
    {
        let Worker {
            rt,
            pool,
            mut pass,
            mut gate,
        } = self;
        pool.work(rt, &mut pass, &mut gate);
        pass
    }
}

// Two workers, each in a thread of its own, until all is set aside.
fn work_in_two<'p, C: Turnable + Send, G: Gate + Send + Drop, R: Threads + Wait + Sync>(
    rt: &'p R,
    pool: &'p Pool<C>,
    mut pass: PoolPass<C>,
    gate: G,
    other_gate: G,
) -> PoolPass<C>
    requires pass { IsPassOf pool.now.waiting pass.waiting × IsPassOf pool.now.aside pass.aside }
    requires parts { 1 < (view pass.waiting).parts }
    ensures pass { IsPassOf pool.now.waiting result.waiting × IsPassOf pool.now.aside result.aside }
    ensures parts { (view result.waiting).parts ≡ (view pass.waiting).parts }
{
    let other = pool.split(&mut pass);
    let worker = Worker {
        rt,
        pool,
        pass,
        gate,
    };
    let rest = Worker {
        rt,
        pool,
        pass: other,
        gate: other_gate,
    };
    let (mut pass, other) = join(
        rt,
        || -> PoolPass<C>
            ensures pass { IsPassOf worker.entry.pool.now.waiting result.waiting × IsPassOf worker.entry.pool.now.aside result.aside }
            ensures parts { (view result.waiting).parts ≡ (view worker.entry.pass.waiting).parts }
        { worker.run() },
        || -> PoolPass<C>
            ensures pass { IsPassOf rest.entry.pool.now.waiting result.waiting × IsPassOf rest.entry.pool.now.aside result.aside }
            ensures parts { (view result.waiting).parts ≡ (view rest.entry.pass.waiting).parts }
        { rest.run() },
    );
    pool.join(&mut pass, other);
    pass
}

// The names and numbers of all that the pool gives back at the end, added up.
fn names_of<R: Wait>(
    rt: &R,
    alloc: Global,
    pool: Pool<Countdown>,
    pass: PoolPass<Countdown>,
) -> Result<u64, Fail>
    requires pass { IsPassOf pool.waiting pass.waiting × IsPassOf pool.aside pass.aside }
    requires parts { (view pass.waiting).parts ≡ 1024 }
{
    let mut passes = Vec::new(alloc);
    passes.push(pass)?;
    let mut names = 0u64;
    for Numbered { number, conn } in pool.close(rt, alloc, passes)? {
        names = names
            .saturating_add(conn.name)
            .saturating_add(number as u64);
    }
    Ok(names)
}

// The gate holds the turns of number 0 until number 1 had one in the other worker.
#[test]
fn two_threads_take_turns(rt: HostRuntime) -> Result<(), Fail> {
    let alloc = rt.alloc();
    let (pool, mut pass) = Pool::new(alloc, 2)?;
    let first = Countdown { name: 10, left: 1 };
    let second = Countdown { name: 20, left: 3 };
    assert!(rt; pool.put(&rt, &mut pass, 0, first).is_ok());
    assert!(rt; pool.put(&rt, &mut pass, 1, second).is_ok());
    let turns = AtomicU64::new(0);
    let held = AtomicU64::new(0);
    let gate = Hold {
        turns: &turns,
        held: &held,
    };
    let other = Hold {
        turns: &turns,
        held: &held,
    };
    let pass = work_in_two(&rt, &pool, pass, gate, other);
    assert_eq!(rt; held.load(Ordering::SeqCst), 1);
    assert_eq!(rt; names_of(&rt, alloc, pool, pass)?, 31);
    Ok(())
}

// A full queue gives the connection back, and one that is set aside is enough to end.
#[test]
fn a_full_pool_refuses(rt: HostRuntime) -> Result<(), Fail> {
    let alloc = rt.alloc();
    let (pool, mut pass) = Pool::new(alloc, 1)?;
    let first = Countdown { name: 10, left: 2 };
    let second = Countdown { name: 20, left: 2 };
    assert!(rt; pool.put(&rt, &mut pass, 1, first).is_ok());
    let Err(refused) = pool.put(&rt, &mut pass, 2, second) else {
        return Err(Fail::from("no room"));
    };
    assert_eq!(rt; refused.name, 20);
    pool.seal(1);
    let turns = AtomicU64::new(0);
    let held = AtomicU64::new(0);
    let mut gate = Hold {
        turns: &turns,
        held: &held,
    };
    pool.work(&rt, &mut pass, &mut gate);
    assert_eq!(rt; turns.load(Ordering::SeqCst), 2);
    assert_eq!(rt; names_of(&rt, alloc, pool, pass)?, 11);
    Ok(())
}
