//! The operations of the function language on values: one call for each.
//!
//! A call gives a new value, or the first of its faults: `Type_` where an operand is of another kind
//! than the operation takes, then the faults of the operation itself, then `TooDeep`, `TooMany` and
//! `TooLarge` where the value that was made passes a limit. `Memory` may come in place of any answer,
//! but not from a call that doesn't use its allocator (`_alloc`): it takes no memory. Those have one so
//! that a caller treats all alike.
//!
//! Operands stay as they are, and what goes into the result is copied. [`push_onto`], [`set_in`],
//! [`array_of`] and [`object_of`] take their parts by value and copy nothing. A value that is made is
//! gone over whole to see that it is within the limits, so an array that grows item by item costs the
//! square of its length, by any of these calls.
//!
//! Contracts name plain trees and the definitions of these operations on them. The clause `ok` says
//! that the value is the one that the definition gives, `err` that the definition gives the fault.
//! The definitions, the limits and the order of faults are this project's own.
#![tactic(auto)]

mod arithmetic;
mod arrays;
mod fault;
mod laws;
mod limits;
mod objects;
mod reads;
#[cfg(test)]
mod tests;

pub use arithmetic::{add, divide, multiply, negate, not, remainder, show, subtract};
pub use arrays::{array_of, push, push_onto, range, slice};
pub use fault::OpFault;
pub use laws::{changes_are_read_back, division_is_exact, worked_operations};
pub use limits::made;
pub use objects::{keys, object_of, set, set_in, without};
pub use reads::{field, has, item, length};
