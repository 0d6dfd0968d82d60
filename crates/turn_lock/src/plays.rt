//! The rule of the table, and what each step tells.
//!
//! Word 0 is 1 while a seat has the turn. Word 1 is the length of the history. The slot has the state.
use crate::view::SeatView;
use atomic_table::{Join, Play, Split, TableRule};
use cv_store::HasHistory;
use std::marker::{Brand, PhantomData};
use std::snapshot::Snapshot;

/// What holds between any two steps.
pub(crate) struct TurnRule;

impl<T: HasHistory> TableRule<Option<T>, SeatView, Snapshot<T>> for TurnRule {
    ghost use Rattle.turn_lock.specs.Rule.{Kept, beginner};

    ghost holds = { λ key. Kept T.history T.program (T.program key.value) };

    ghost first = { λ key. beginner (T.history key.value) };
}

/// Which program the states of a turn have. Each call picks it.
pub(crate) trait Programmed {
    ghost use Rattle.fn_tree.specs.SyntaxTree.{ModuleTree};

    ghost program: { ModuleTree };
}

impl Programmed for Brand {
    ghost use Rattle.std.specs.Prelude.{[]};

    ghost program = { record { tables = []; functions = [] } };
}

/// Word 0 goes from 0 to 1: the turn is taken, and the state comes along.
pub(crate) struct Takes<M: Programmed> {
    of: PhantomData<M>,
}

impl<T: HasHistory, M: Programmed> Play<Option<T>, SeatView> for Takes<M> {
    ghost use Rattle.turn_lock.specs.Rule.{taken};

    ghost then = { taken T.history T.program M.program };
}

/// Word 1 goes up by the new entries, which become the seat's own.
pub(crate) struct Counts;

impl<T: HasHistory> Play<Option<T>, SeatView> for Counts {
    ghost use Rattle.turn_lock.specs.Rule.{counts};

    ghost then = { counts T.history };
}

/// Word 0 goes from 1 to 0: the turn is free.
pub(crate) struct Frees;

impl<T> Play<Option<T>, SeatView> for Frees {
    ghost use Rattle.turn_lock.specs.Rule.{frees};

    ghost then = { frees };
}

/// Word 0 is read: the seat learns that it has seen all that was brought together in it.
pub(crate) struct Recalls;

impl<T> Play<Option<T>, SeatView> for Recalls {
    ghost use Rattle.turn_lock.specs.Rule.{recalls};

    ghost then = { recalls };
}

/// A second seat that has seen as much.
pub(crate) struct Cut;

impl Split<SeatView> for Cut {
    ghost use Rattle.turn_lock.specs.Rule.{newcomer};

    ghost left = { λ v. v };

    ghost right = { newcomer };
}

/// Two seats become one.
pub(crate) struct Brings;

impl Join<SeatView> for Brings {
    ghost use Rattle.turn_lock.specs.Rule.{both};
    ghost use Rattle.turn_lock.specs.Views.{spent};

    ghost both = { both };

    ghost spent = { spent };
}
