//! Why a run gives no value.
ghost use Rattle.std.specs.Prelude.{◌≡◌};
ghost use Rattle.fn_plain.specs.Texts.{Says};

use cv_values::{Memory, Text};
use std::alloc::{AllocError, AllocFailed, Global};

/// What ends a run before it has a reply.
#[derive(Drop)]
pub(crate) enum Fault {
    /// An error of the function, with its text.
    Failed(Text),
    /// An allocation was refused.
    Memory,
}

impl From<Memory> for Fault {
    ghost use Rattle.fn_plain.specs.declared.fault.Fault.TheVariants.{Memory as NoMemory};

    ghost from_gives = { λ m f. f ≡ NoMemory };

    fn from(_memory: Memory) -> Fault {
        Fault::Memory
    }
}

impl From<AllocError> for Fault {
    ghost use Rattle.fn_plain.specs.declared.fault.Fault.TheVariants.{Memory as NoMemory};

    ghost from_gives = { λ e f. f ≡ NoMemory };

    fn from(_error: AllocError) -> Fault {
        Fault::Memory
    }
}

impl<T: Drop> From<AllocFailed<T>> for Fault {
    ghost use Rattle.fn_plain.specs.declared.fault.Fault.TheVariants.{Memory as NoMemory};

    ghost from_gives = { λ e f. f ≡ NoMemory };

    fn from(_failed: AllocFailed<T>) -> Fault {
        Fault::Memory
    }
}

/// An error of this text.
pub(crate) fn failure(alloc: Global, why: &str) -> Fault
    ensures { Says result why.now }
{
    match Text::of(alloc, why) {
        Ok(text) => Fault::Failed(text),
        Err(Memory) => Fault::Memory,
    }
}
