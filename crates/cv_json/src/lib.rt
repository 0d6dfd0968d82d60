//! Values as JSON trees, both ways, and timestamps as texts.
//!
//! | value | JSON |
//! |---|---|
//! | null, booleans, strings | the same |
//! | integer | `{"$integer": b}`, where b is the base64 text of its eight bytes, the lowest first |
//! | bytes | `{"$bytes": b}`, where b is their base64 text |
//! | array, object | array, object |
//!
//! A base64 text has the standard alphabet and its padding, and no bits left over at its end. Trees
//! are `serde_json`'s, whose objects have their names in byte order; `Value::to_string` gives the
//! compact text. These forms are this project's own, after the encoding of values in the sync
//! protocol of Convex.
//!
//! Reading also takes a whole JSON number in the range of `i64`, as that integer. A number is whole
//! where `serde_json` reads it as an `i64` or a `u64`, so `1.0` and `-0` are not.
//!
//! Contracts see a tree as `serde_json`'s plain data and a value as its plain tree.
#![tactic(auto)]

mod base64_text;
mod fault;
mod laws;
mod read;
#[cfg(test)]
mod tests;
mod timestamp;
mod write;

pub use fault::JsonFault;
pub use laws::{timestamps_are_read, what_is_read_is_checked, what_is_written_is_read};
pub use read::from_json;
pub use timestamp::{read_ts, ts_text};
pub use write::to_json;
