ghost use Rattle.std.specs.Prelude.{◌<◌, ◌≤◌, List, ℕ, length, Option, IfOk};
ghost use Rattle.std.specs.Io.KnownBytes.{WriteAppends};
ghost use Rattle.cv_outside.specs.Causes.{HasCause};

use crate::Failed;

/// Where bytes go.
pub trait Sink {
    /// The bytes held, where they are told.
    ghost held: { Self → Option (List ℕ) };

    /// How often a write failed. It never falls, and stands still at the greatest u64.
    ghost faults: { Self → ℕ };

    /// Adds the first bytes of the piece, at least one, and gives how many.
    fn write(&mut self, piece: &[u8]) -> Result<usize, Failed>
        requires { 0 < length piece.now }
        ensures bound { IfOk result (λ n. (0 < n) × (n ≤ length piece.now)) }
        ensures bytes { WriteAppends (held self.old) (held self.new) result piece.now }
        ensures cause { HasCause (faults self.old) (faults self.new) result };
}
