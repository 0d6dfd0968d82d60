//! The rows of an index in one sorted list.
#![tactic(auto)]

mod flat_rows;
mod gather;
mod places;
#[cfg(test)]
mod tests;

pub use flat_rows::FlatRows;
