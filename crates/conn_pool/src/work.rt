//! What a worker does: it takes a connection, gives it a turn, and puts it back or sets it aside.
ghost use Rattle.std.specs.Prelude.{◌≡◌, ◌<◌};
ghost use Rattle.crossbeam_queue.specs.Passes.{view, IsPassOf, IsSamePass};
ghost use Rattle.conn_pool.specs.Hands.{IsEven, after_put, after_back};

use crate::hand::{LinePass, Numbered, Puts, PutsBack, Takes};
use crate::pool::{Pool, PoolPass};
use cv_outside::{Again, Gate, Turnable};
use std::sync::Wait;
use std::sync::atomic::Ordering;
use std::thread;
use std::thread::Parker;
use std::time::Duration;

// How many milliseconds a worker sleeps after a round in which nothing was to do.
const NAP: u64 = 1;

impl<C: Turnable> Pool<C> {
    /// Takes the connection that has waited longest, tells the gate its number and gives it one turn, again and
    /// again, until as many connections are set aside as are wanted. One whose turn answered `Done` is set aside.
    ///
    /// It returns only if each turn does, and never while fewer are put than are wanted. After as many turns in a
    /// row without work as connections may wait it sleeps for a millisecond: so much later it may see what comes
    /// then.
    pub fn work<G: Gate, R: Wait>(&self, rt: &R, pass: &mut PoolPass<C>, gate: &mut G)
        requires pass { IsPassOf self.now.waiting pass.old.waiting × IsPassOf self.now.aside pass.old.aside }
        ensures pass { IsSamePass pass.old.waiting pass.new.waiting × IsSamePass pass.old.aside pass.new.aside }
        ensures parts { (view pass.new.waiting).parts ≡ (view pass.old.waiting).parts }
        ensures put { (view pass.new.waiting).put ≡ (view pass.old.waiting).put }
    {
        self.turn_all(rt, &mut pass.waiting, &mut pass.aside, gate);
    }

    // Gives turns by the passes of the two queues.
    fn turn_all<G: Gate, R: Wait>(
        &self,
        rt: &R,
        waiting: &mut LinePass<C>,
        aside: &mut LinePass<C>,
        gate: &mut G,
    )
        requires pass { IsPassOf self.now.waiting waiting.old × IsPassOf self.now.aside aside.old }
        requires parts { (0 < (view waiting.old).parts) × (0 < (view aside.old).parts) }
        requires even { IsEven C.mark (view waiting.old) (view aside.old) }
        ensures pass { IsSamePass waiting.old waiting.new × IsSamePass aside.old aside.new }
        ensures parts { ((view waiting.new).parts ≡ (view waiting.old).parts) × ((view aside.new).parts ≡ (view aside.old).parts) }
        ensures put { (view waiting.new).put ≡ (view waiting.old).put }
        ensures aside { ((view aside.new).back ≡ (view aside.old).back) × ((view aside.new).taken ≡ (view aside.old).taken) }
        ensures even { IsEven C.mark (view waiting.new) (view aside.new) }
    {
        let mut idle = 0usize;
        for _ in rt.forever() {
            if self.is_done(rt, aside) {
                return;
            }
            let went = self.turn_one(rt, waiting, aside, gate);
            idle = self.pause(rt, went, idle);
        }
        unreachable!()
    }

    // Lets others run, or sleeps after a round of quiet turns. It gives how many of these came since.
    fn pause<R: Wait>(&self, rt: &R, went: Again, idle: usize) -> usize {
        if !matches!(went, Again::Quiet) {
            thread::yield_now();
            return 0;
        }
        if idle < self.waiting.capacity() {
            thread::yield_now();
            return idle + 1;
        }
        Parker::new().park_timeout(rt, Duration::from_millis(NAP));
        0
    }

    // Whether as many connections are set aside as are wanted.
    fn is_done<R: Wait>(&self, rt: &R, aside: &mut LinePass<C>) -> bool
        requires { IsPassOf self.now.aside aside.old }
        ensures { IsSamePass aside.old aside.new × (view aside.new ≡ view aside.old) }
    {
        let count = self.aside.len_as::<Puts, R>(rt, aside);
        count as u64 >= self.wanted.load(Ordering::SeqCst)
    }

    // Gives a connection that waits one turn. Where none waits, this counts as a quiet one.
    fn turn_one<G: Gate, R: Wait>(
        &self,
        rt: &R,
        waiting: &mut LinePass<C>,
        aside: &mut LinePass<C>,
        gate: &mut G,
    ) -> Again
        requires pass { IsPassOf self.now.waiting waiting.old × IsPassOf self.now.aside aside.old }
        requires parts { (0 < (view waiting.old).parts) × (0 < (view aside.old).parts) }
        requires even { IsEven C.mark (view waiting.old) (view aside.old) }
        ensures pass { IsSamePass waiting.old waiting.new × IsSamePass aside.old aside.new }
        ensures parts { ((view waiting.new).parts ≡ (view waiting.old).parts) × ((view aside.new).parts ≡ (view aside.old).parts) }
        ensures put { (view waiting.new).put ≡ (view waiting.old).put }
        ensures aside { ((view aside.new).back ≡ (view aside.old).back) × ((view aside.new).taken ≡ (view aside.old).taken) }
        ensures even { IsEven C.mark (view waiting.new) (view aside.new) }
    {
        let Some(Numbered { number, mut conn }) = self.waiting.try_pop_as::<Takes>(waiting) else {
            return Again::Quiet;
        };
        gate.pass(number);
        let went = conn.turn();
        if matches!(went, Again::Done) {
            self.set_aside(rt, aside, Numbered { number, conn });
        } else {
            self.put_back(rt, waiting, Numbered { number, conn });
        }
        went
    }

    // Puts a connection back to those that wait. Where the queue is full it tries again.
    fn put_back<R: Wait>(&self, rt: &R, waiting: &mut LinePass<C>, entry: Numbered<C>)
        requires pass { IsPassOf self.now.waiting waiting.old }
        requires parts { 0 < (view waiting.old).parts }
        ensures pass { IsSamePass waiting.old waiting.new }
        ensures back { view waiting.new ≡ after_back (view waiting.old) entry }
    {
        let mut entry = entry;
        for _ in rt.forever() {
            match self.waiting.push_as::<PutsBack, R>(rt, waiting, entry) {
                Ok(()) => return,
                Err(refused) => entry = refused,
            }
            thread::yield_now();
        }
        unreachable!()
    }

    // Sets a connection aside. Where the queue is full it tries again.
    fn set_aside<R: Wait>(&self, rt: &R, aside: &mut LinePass<C>, entry: Numbered<C>)
        requires pass { IsPassOf self.now.aside aside.old }
        requires parts { 0 < (view aside.old).parts }
        ensures pass { IsSamePass aside.old aside.new }
        ensures put { view aside.new ≡ after_put (view aside.old) entry }
    {
        let mut entry = entry;
        for _ in rt.forever() {
            match self.aside.push_as::<Puts, R>(rt, aside, entry) {
                Ok(()) => return,
                Err(refused) => entry = refused,
            }
            thread::yield_now();
        }
        unreachable!()
    }
}
