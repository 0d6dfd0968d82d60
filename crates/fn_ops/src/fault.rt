ghost use Rattle.std.specs.Prelude.{◌≡◌};

use cv_values::Memory;
use thiserror::Error;

/// Why an operation gives no value. Where several hold, the first counts: `Type_`, then the faults of
/// the operation itself, then `TooDeep`, `TooMany` and `TooLarge`.
///
/// A fault is displayed by its name, and `Type_` as `TypeError`.
#[derive(Clone, Copy, Debug, PartialEq, Eq, Error)]
pub enum OpFault {
    /// An operand is of another kind than the operation takes.
    #[error("TypeError")]
    Type_,
    /// The result is no integer of 64 bits.
    #[error("Overflow")]
    Overflow,
    /// The divisor is 0.
    #[error("DivisionByZero")]
    DivisionByZero,
    /// The object has no field of this name.
    #[error("NoField")]
    NoField,
    /// The array has no such item, or no such part.
    #[error("OutOfRange")]
    OutOfRange,
    /// A name is empty or begins with `$`.
    #[error("BadName")]
    BadName,
    /// The value that was made nests deeper than 96.
    #[error("TooDeep")]
    TooDeep,
    /// In the value that was made an array has more than 8,192 items, or an object more than 1,024
    /// names.
    #[error("TooMany")]
    TooMany,
    /// The value that was made has more than 8,388,608 size units.
    #[error("TooLarge")]
    TooLarge,
    /// An allocation was refused.
    #[error("Memory")]
    Memory,
}

impl From<Memory> for OpFault {
    ghost use Rattle.fn_ops.specs.declared.fault.OpFault.TheVariants.{Memory as NoMemory};

    ghost from_gives = { λ m f. f ≡ NoMemory };

    fn from(_memory: Memory) -> OpFault {
        OpFault::Memory
    }
}
