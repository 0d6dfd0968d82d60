ghost use Rattle.std.specs.Prelude.{◌<◌, List, ℕ, length, Option};
ghost use Rattle.std.specs.Io.{ReadsAtMost};
ghost use Rattle.std.specs.Io.KnownBytes.{ReadConsumes};
ghost use Rattle.cv_outside.specs.Causes.{HasCause};

/// A read or a write that the outside refused. Nothing was taken.
#[derive(Clone, Copy, Debug, PartialEq, Eq)]
pub struct Failed;

/// Where bytes come from.
pub trait Source {
    /// The bytes left, where they are told.
    ghost left: { Self → Option (List ℕ) };

    /// How often a read failed. It never falls, and stands still at the greatest u64.
    ghost faults: { Self → ℕ };

    /// Takes the first of the bytes left into the front of the piece, and gives how many: at most the
    /// piece's length, and none only at the end.
    fn read(&mut self, piece: &mut [u8]) -> Result<usize, Failed>
        requires { 0 < length piece.old }
        ensures bound { ReadsAtMost result piece.new }
        ensures bytes { ReadConsumes (left self.old) (left self.new) result piece.new }
        ensures cause { HasCause (faults self.old) (faults self.new) result };
}
