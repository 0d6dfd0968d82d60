//! What tells the time.
ghost use Rattle.std.specs.Prelude.{◌≡◌, true};

use std::marker::Model;

/// Tells a moment, in milliseconds since 1970.
pub trait Clock {
    ghost use Rattle.std.specs.Prelude.{ℤ, Bool};

    /// Whether it may give a moment.
    ghost may_give: { Self → ℤ → Bool };

    /// A moment.
    fn now(&self) -> i64
        ensures { may_give self.now result ≡ true };
}

/// A clock that stands still. Contracts see its moment.
#[derive(Drop)]
pub struct MemClock {
    moment: i64,
}

impl Model for MemClock {
    ghost use Rattle.std.specs.Prelude.{ℤ};

    ghost Value = { ℤ };

    ghost view = { λ c. c.moment };
}

impl MemClock {
    /// It tells this moment.
    pub fn new(now: i64) -> MemClock
        ensures { result ≡ now }
    {
        MemClock { moment: now }
    }

    /// It tells another moment from now on.
    pub fn set(&mut self, now: i64)
        ensures { self.new ≡ now }
    {
        self.moment = now;
    }
}

impl Clock for MemClock {
    ghost use Rattle.cv_outside.specs.Moments.{is_same};

    ghost may_give = { is_same };

    fn now(&self) -> i64
        ensures moment { is_same self.now result ≡ true }
        ensures same { result ≡ self.now }
    {
        self.moment
    }
}
