use cv_values::Memory;
use thiserror::Error;

/// Why a JSON tree is read as no value, or that memory was refused.
#[derive(Clone, Copy, Debug, PartialEq, Eq, Error)]
pub enum JsonFault {
    /// A number that isn't whole or is out of the range of `i64`, or an object whose only name is
    /// `$float`.
    #[error("a number is no 64-bit integer")]
    FloatUnsupported,
    /// An object whose only name is `$integer`, before anything but the base64 text of eight bytes.
    #[error("`$integer` stands before no text of eight bytes")]
    BadInteger,
    /// An object whose only name is `$bytes`, before anything but a base64 text.
    #[error("`$bytes` stands before no base64 text")]
    BadBytes,
    /// A name is empty or begins with `$`.
    #[error("a name is empty or begins with `$`")]
    BadName,
    /// An array or an object inside 64 others.
    #[error("arrays and objects nest deeper than 64")]
    TooDeep,
    /// An array of more than 8,192 items, or an object of more than 1,024 names.
    #[error("an array has over 8192 items, or an object over 1024 names")]
    TooMany,
    /// The whole value has more than 1,048,576 size units.
    #[error("the value has over 1048576 size units")]
    TooLarge,
    /// An allocation was refused. The tree may be that of a value, or of none.
    #[error("out of memory")]
    Memory,
}

impl From<Memory> for JsonFault {
    ghost use Rattle.std.specs.Prelude.{◌≡◌};
    ghost use Rattle.cv_json.specs.declared.fault.JsonFault.TheVariants.{Memory as NoMemory};

    ghost from_gives = { λ m f. f ≡ NoMemory };

    fn from(_memory: Memory) -> JsonFault {
        JsonFault::Memory
    }
}
