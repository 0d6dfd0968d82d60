//! The system's clock.
ghost use Rattle.std.specs.Prelude.{◌≡◌};
ghost use Rattle.std.specs.Duration.{as_nanos};
ghost use Rattle.cv_net.specs.Moments.{moment_of};

use cv_outside::Clock;
use std::time;
use std::time::{Duration, SystemTime};

/// Tells the system's time. It may go back, as that does where it is set.
#[derive(Drop)]
pub struct SystemClock<R> {
    rt: R,
}

impl<R: time::Clock> SystemClock<R> {
    /// The clock of this runtime.
    pub fn new(rt: R) -> SystemClock<R> {
        SystemClock { rt }
    }
}

impl<R: time::Clock> Clock for SystemClock<R> {
    ghost use Rattle.std.specs.Prelude.{true};

    ghost may_give = { λ _ _. true };

    /// 0 where the clock can't be read, or reads a time that doesn't fit.
    fn now(&self) -> i64 {
        let Ok(now) = SystemTime::now(&self.rt) else {
            return 0;
        };
        match now.duration_since(SystemTime::UNIX_EPOCH) {
            Ok(since) => moment(since),
            Err(_) => 0,
        }
    }
}

// In whole milliseconds.
fn moment(since: Duration) -> i64
    ensures { result ≡ moment_of (as_nanos since) }
{
    i64::try_from(since.as_millis()).unwrap_or(0)
}
