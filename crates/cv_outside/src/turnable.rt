//! What is given one turn after the other, and what is told before each.
ghost use Rattle.std.specs.Prelude.{◌≡◌};
ghost use Rattle.cv_outside.specs.Turns.{is_done};

/// How a turn ended: there may be more to do at once, there was nothing to do, or it is over.
#[derive(Clone, Copy, Debug, PartialEq, Eq)]
pub enum Again {
    Again,
    Quiet,
    Done,
}

/// What is given one turn after the other until it is over.
pub trait Turnable {
    ghost use Rattle.std.specs.Prelude.{Bool};

    /// Plain data by which one is told from another.
    ghost Mark: { Type 0 };

    /// What each turn leaves as it is.
    ghost mark: { Self → Mark };

    ghost is_over: { Self → Bool };

    /// One turn. It answers `Done` exactly where it is over afterwards.
    fn turn(&mut self) -> Again
        ensures mark { mark self.new ≡ mark self.old }
        ensures over { is_done result ≡ is_over self.new };
}

/// What is called before each turn, with the number of who has it.
pub trait Gate {
    fn pass(&mut self, number: u32);
}
