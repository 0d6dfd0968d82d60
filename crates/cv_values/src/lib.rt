//! Values, documents and their ids: the plain data that functions read, write and answer.
//!
//! A contract sees each type as plain data: a text as the list of its bytes, an array as the list
//! of its values, an object as the list of its names and values, and a [`Val`] as a tree. It never
//! sees where a value lies in memory, so `≡` of two values says that they stand for the same tree.
//!
//! The kinds of values are those of the [Convex documentation](https://docs.convex.dev/database/types)
//! without floats. Sizes, limits and the text of ids are this project's own.
#![tactic(auto)]

mod check;
mod copy;
mod doc;
mod equal;
mod ids;
mod laws;
mod measure;
mod memory;
mod order;
mod seq;
mod sizes;
#[cfg(test)]
mod tests;
mod text;
mod threads;
mod val;

pub use check::{
    MAX_DEPTH, MAX_ITEMS, MAX_NAMES, MAX_SIZE, ValueFault, check_fields, check_value, has_many,
    is_bad_name,
};
pub use doc::{Doc, doc_value};
pub use ids::{DocId, id_text, read_id};
pub use laws::{equal_where_same, ids_and_their_texts, order_is_total, values_cross};
pub use memory::Memory;
pub use order::{compare, compare_fields};
pub use seq::{Copied, Seq, copy_slice};
pub use sizes::{depth_of, size_of, size_of_fields};
pub use text::{Bytes, Text};
pub use threads::{crosses, shared};
pub use val::{Fields, Val, Vals};
