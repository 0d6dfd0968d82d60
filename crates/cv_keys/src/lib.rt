//! Tables and their indexes, the keys of documents in them, and intervals of keys.
//!
//! The place of a document in an index is the list of its items at the index's fields, where an
//! item is a value or missing. Its key is a string of bytes, and the byte order of keys is the
//! order of places ([`keys_keep_order`]). So a comparison of two places is one comparison of bytes.
//!
//! The key of an item begins with a byte for its kind:
//!
//! | item | bytes |
//! |---|---|
//! | missing | 02 |
//! | null | 03 |
//! | integer | 04 and its eight bytes, the highest first, with the sign bit flipped |
//! | false, true | 05 00, 05 01 |
//! | string | 06, its bytes, where FF stands behind each 00, and the end 00 01 |
//! | bytes | 07 and the same |
//! | array | 08, the keys of its items, and the end 00 |
//! | object | 09, the keys of its members, and the end 00; a member's are those of its name, as of a string, and of its value |
//!
//! The key of a list of items joins theirs. Contracts see a key as the list of its bytes.
#![tactic(auto)]

mod encode;
mod ends;
mod ids;
mod interval;
mod item;
mod key;
mod kinds;
mod laws;
mod length;
mod make;
mod meet;
mod range;
mod schema;
#[cfg(test)]
mod tests;
mod write;

pub use ends::interval_of;
pub use ids::id_of;
pub use interval::{Interval, contains};
pub use key::Key;
pub use laws::{keys_keep_order, writes_cross};
pub use make::{index_key, key_of};
pub use range::{Bound, Range, RangeFault};
pub use schema::{Index, Schema, Table};
pub use write::{Write, touches};
