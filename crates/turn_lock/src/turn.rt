//! The lock, its seats, and what has the turn.
ghost use Rattle.std.specs.Prelude.{◌≡◌, ◌<◌, ◌+◌, ◌^◌, [], ◌∷◌, length, IfOk, IfErr, IfSome, MatchBool, Some, None};
ghost use mathlib.Core.List.{IsPrefix};
ghost use Rattle.turn_lock.specs.Rule.{beginner, holding, resting, counted, newcomer, both, Grows, Got, InOrder};
ghost use Rattle.turn_lock.specs.declared.view.Stage.TheVariants.{Rest, Holding};

use crate::pause::pause;
use crate::plays::{Brings, Counts, Cut, Frees, Programmed, Recalls, Takes, TurnRule};
use crate::view::SeatView;
use atomic_table::{Refused, Seat, Table};
use cv_store::HasHistory;
use std::alloc::{AllocFailed, Global};
use std::marker::Brand;
use std::snapshot::Snapshot;
use std::sync::Wait;

/// A state behind a turn. Threads share it by reference.
#[derive(Drop)]
pub struct Turn<T: HasHistory> {
    table: Table<Option<T>, SeatView, Snapshot<T>, TurnRule, Global>,
    pub ghost sized: { (table.shared.table_id.words ≡ 2) × (table.shared.table_id.slots ≡ 1) },
}

/// A right to take turns, and what was seen in them. It takes no bytes but its place at the table.
pub struct TurnSeat<T> {
    seat: Seat<Option<T>, SeatView>,
    pub ghost rests: { (seat.me.1 ≡ []) × (seat.me.0.stage ≡ Rest) },
}

/// A turn that was taken, with the state. One that is dropped and not given back keeps all others waiting,
/// and takes the state with it.
#[derive(Drop)]
pub struct Held<T> {
    seat: Seat<Option<T>, SeatView>,
    pub state: T,
    len: u64,
    pub ghost holds: { (seat.me.1 ≡ (0, None) ∷ []) × (seat.me.0.stage ≡ Holding) × (length seat.me.0.base ≡ len) },
}

unsafe impl<T: HasHistory + Send> Send for Turn<T> {}

unsafe impl<T: HasHistory + Send> Sync for Turn<T> {}

impl<T> Drop for TurnSeat<T> {
    fn drop(self) {
        let TurnSeat { seat: _ } = self;
    }
}

impl<T: HasHistory> Turn<T> {
    /// A turn over a state, and its first seat. For want of memory the state comes back.
    pub fn new(alloc: Global, state: T) -> Result<(Turn<T>, TurnSeat<T>), T>
        ensures ok { IfOk result (λ t. (t.1.seat.table_id ≡ t.0.table.shared.table_id) × (t.1.seat.me.0 ≡ beginner (T.history state)) × (T.program t.0.table.shared.key.value ≡ T.program state)) }
        ensures err { IfErr result (λ s. s ≡ state) }
    {
        let about = Snapshot::of(&state);
        let len = state.history_len();
        let mut slots = Vec::new(alloc);
        if let Err(failed) = slots.push(Some(state)) {
            let AllocFailed { value } = failed;
            slots.destroy_empty();
            let Some(state) = value else { unreachable!() };
            return Err(state);
        }
        match Table::new(alloc, &[0, len], slots, &about) {
            Ok((table, seat)) => Ok((Turn { table }, TurnSeat { seat })),
            Err(Refused { mut slots }) => {
                let Some(Some(state)) = slots.pop() else {
                    unreachable!()
                };
                slots.destroy_empty();
                Err(state)
            }
        }
    }
}

impl<T: HasHistory> Turn<T> {
    // Takes the turn where nobody has it.
    fn try_take<M: Programmed>(&self, seat: &mut Seat<Option<T>, SeatView>) -> bool
        requires program { T.program self.now.table.shared.key.value ≡ M.program }
        requires turn { seat.old.table_id ≡ self.now.table.shared.table_id }
        requires rests { (seat.old.me.1 ≡ []) × (seat.old.me.0.stage ≡ Rest) }
        ensures same { seat.new.table_id ≡ seat.old.table_id }
        ensures taken { MatchBool result (Got T.history T.program M.program seat.old.me.0 seat.new.me) (seat.new.me ≡ seat.old.me) }
    {
        self.table
            .shared
            .compare_exchange::<Takes<M>>(seat, 0, 0, 1)
            == 0
    }

    // Takes the turn. Between two tries it lets others run, and after many it sleeps for a while.
    fn wait_for<M: Programmed, R: Wait>(&self, rt: &R, seat: &mut Seat<Option<T>, SeatView>)
        requires program { T.program self.now.table.shared.key.value ≡ M.program }
        requires turn { seat.old.table_id ≡ self.now.table.shared.table_id }
        requires rests { (seat.old.me.1 ≡ []) × (seat.old.me.0.stage ≡ Rest) }
        ensures same { seat.new.table_id ≡ seat.old.table_id }
        ensures taken { Got T.history T.program M.program seat.old.me.0 seat.new.me }
    {
        let mut tries = 0u32;
        for _ in rt.forever() {
            if self.try_take::<M>(seat) {
                return;
            }
            pause(rt, tries);
            tries = tries.saturating_add(1);
        }
        unreachable!()
    }

    // Takes the state out of the slot.
    fn pull(&self, seat: &mut Seat<Option<T>, SeatView>) -> T
        requires turn { seat.old.table_id ≡ self.now.table.shared.table_id }
        requires has { (x : T) × (seat.old.me.1 ≡ (0, Some x) ∷ []) }
        ensures same { seat.new.table_id ≡ seat.old.table_id }
        ensures was { seat.old.me.1 ≡ (0, Some result) ∷ [] }
        ensures left { seat.new.me ≡ (seat.old.me.0, (0, None) ∷ []) }
    {
        let Some(state) = self.table.shared.exchange(seat, 0, None) else {
            unreachable!()
        };
        state
    }

    // Counts the state's new entries, and lets others have the turn.
    fn put_back(&self, seat: &mut Seat<Option<T>, SeatView>, state: T, more: u64)
        requires turn { seat.old.table_id ≡ self.now.table.shared.table_id }
        requires has { seat.old.me.1 ≡ (0, None) ∷ [] }
        requires held { seat.old.me.0.stage ≡ Holding }
        requires grows { Grows seat.old.me.0.base (T.history state) }
        requires long { length (T.history state) ≡ length seat.old.me.0.base + more }
        requires fits { length (T.history state) < 2 ^ 64 }
        requires program { T.program state ≡ T.program self.now.table.shared.key.value }
        ensures same { seat.new.table_id ≡ seat.old.table_id }
        ensures begins { IsPrefix seat.old.me.0.seen (T.history state) }
        ensures own { InOrder (T.history state) (counted seat.old.me.0 (T.history state)).own }
        ensures given { seat.new.me ≡ (resting (counted seat.old.me.0 (T.history state)), []) }
    {
        let none = self.table.shared.exchange(seat, 0, Some(state));
        let None = none else { unreachable!() };
        self.table.shared.fetch_add::<Counts>(seat, 1, more);
        self.table.shared.store::<Frees>(seat, 0, 0);
    }
}

impl<T> TurnSeat<T> {
    fn into_place(self) -> Seat<Option<T>, SeatView>
        ensures { result ≡ self.seat }
    {
        let TurnSeat { seat } = self;
        seat
    }
}

impl<T: HasHistory> TurnSeat<T> {
    /// Waits for the turn, as long as another has it. It takes no memory.
    pub fn take<R: Wait>(self, rt: &R, turn: &Turn<T>) -> Held<T>
        requires turn { self.seat.table_id ≡ turn.now.table.shared.table_id }
        ensures turn { result.seat.table_id ≡ self.seat.table_id }
        ensures view { result.seat.me.0 ≡ holding self.seat.me.0 (T.history result.state) }
        ensures begins { IsPrefix self.seat.me.0.seen (T.history result.state) }
        ensures program { T.program result.state ≡ T.program turn.now.table.shared.key.value }
    {
        let TurnSeat { mut seat } = self;
        turn.wait_for::<Brand, R>(rt, &mut seat);
        let state = turn.pull(&mut seat);
        let len = state.history_len();
        Held { seat, state, len }
    }
}

impl<T: HasHistory> TurnSeat<T> {
    /// A second seat that has seen as much, and has no entries of its own. It takes no memory.
    pub fn split(self, turn: &Turn<T>) -> (TurnSeat<T>, TurnSeat<T>)
        requires turn { self.seat.table_id ≡ turn.now.table.shared.table_id }
        ensures turns { (result.0.seat.table_id ≡ self.seat.table_id) × (result.1.seat.table_id ≡ self.seat.table_id) }
        ensures views { (result.0.seat.me.0 ≡ self.seat.me.0) × (result.1.seat.me.0 ≡ newcomer self.seat.me.0) }
    {
        let TurnSeat { mut seat } = self;
        let other = turn.table.shared.split_seat::<Cut>(&mut seat);
        (TurnSeat { seat }, TurnSeat { seat: other })
    }

    /// One seat, with what both have seen and appended. It takes no memory.
    pub fn join(a: TurnSeat<T>, b: TurnSeat<T>, turn: &Turn<T>) -> TurnSeat<T>
        requires turns { (a.seat.table_id ≡ turn.now.table.shared.table_id) × (b.seat.table_id ≡ turn.now.table.shared.table_id) }
        ensures turn { result.seat.table_id ≡ a.seat.table_id }
        ensures view { result.seat.me.0 ≡ both a.seat.me.0 b.seat.me.0 }
        ensures begins { IsPrefix a.seat.me.0.seen result.seat.me.0.seen × IsPrefix b.seat.me.0.seen result.seat.me.0.seen }
    {
        let TurnSeat { mut seat } = a;
        let TurnSeat { seat: other } = b;
        turn.table.shared.join_seat::<Brings>(&mut seat, other);
        turn.table.shared.load::<Recalls>(&mut seat, 0);
        TurnSeat { seat }
    }
}

impl<T: HasHistory + Drop> Turn<T> {
    /// The state, unless a turn was taken and never given back. Seats that were not joined before are lost, and
    /// only what this one has seen is told of the state.
    pub fn close(self, seat: TurnSeat<T>) -> Option<T>
        requires turn { seat.seat.table_id ≡ self.table.shared.table_id }
        ensures begins { IfSome result (λ s. IsPrefix seat.seat.me.0.seen (T.history s)) }
        ensures program { IfSome result (λ s. T.program s ≡ T.program self.table.shared.key.value) }
        ensures own { IfSome result (λ s. InOrder (T.history s) seat.seat.me.0.own) }
    {
        let seat = seat.into_place();
        let Turn { table } = self;
        let mut closed = table.close_with(seat);
        let word = closed.word(0);
        let slot = closed.take(0);
        closed.free();
        if word == 0 { slot } else { None }
    }
}

impl<T: HasHistory> Held<T> {
    /// Gives the turn back, with at most one entry more. The count of turns rises by one.
    pub fn give(self, turn: &Turn<T>) -> TurnSeat<T>
        requires turn { self.seat.table_id ≡ turn.now.table.shared.table_id }
        requires program { T.program self.state ≡ T.program turn.now.table.shared.key.value }
        requires grows { Grows self.seat.me.0.base (T.history self.state) }
        ensures turn { result.seat.table_id ≡ self.seat.table_id }
        ensures view { result.seat.me.0 ≡ resting (counted self.seat.me.0 (T.history self.state)) }
        ensures own { InOrder (T.history self.state) result.seat.me.0.own }
        ensures begins { IsPrefix self.seat.me.0.seen (T.history self.state) }
    {
        let Held {
            mut seat,
            state,
            len,
        } = self;
        let more = state.history_len() - len;
        turn.put_back(&mut seat, state, more);
        TurnSeat { seat }
    }
}
