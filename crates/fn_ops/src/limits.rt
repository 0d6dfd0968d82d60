//! The limits on a value that an operation makes.
ghost use Rattle.std.specs.Prelude.{◌≡◌, IfOk, IfErr, Ok, Err};
ghost use Rattle.cv_values.specs.Trees.{tree};
ghost use Rattle.fn_ops.specs.Operations.{made};

use crate::fault::OpFault;
use cv_values::{Val, depth_of, has_many, size_of};

const MAX_DEPTH: u32 = 96;

const MAX_SIZE: u64 = 8_388_608;

/// The value, or the first limit that it passes: nesting of 96, 8,192 items of an array or 1,024 names of
/// an object, 8,388,608 size units. Constant time.
pub fn made(v: Val) -> Result<Val, OpFault>
    ensures ok { IfOk result (λ w. made (tree v) ≡ Ok (tree w)) }
    ensures err { IfErr result (λ e. made (tree v) ≡ Err e) }
{
    if depth_of(&v) > MAX_DEPTH {
        return Err(OpFault::TooDeep);
    }
    if has_many(&v) {
        return Err(OpFault::TooMany);
    }
    if size_of(&v) > MAX_SIZE {
        return Err(OpFault::TooLarge);
    }
    Ok(v)
}
