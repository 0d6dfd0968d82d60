//! What a seat at the turn's table knows. No value of these types is made.
use std::marker::Model;

/// Where a seat is in its turn.
pub(crate) enum Stage {
    /// It has no turn.
    Rest,
    /// It has the turn.
    Holding,
    /// It has the turn, and its new entries are counted.
    Counted,
    /// It was joined into another.
    Spent,
}

/// Contracts see it as plain data, the record `View`.
pub(crate) struct SeatView {
    stage: Stage,
}

impl Model for SeatView {
    ghost use Rattle.turn_lock.specs.Views.{View, view_code};

    ghost Value = { View };

    ghost coded = { view_code };

    ghost use Rattle.turn_lock.specs.Views.{spent};

    ghost view = { λ _. spent };
}
