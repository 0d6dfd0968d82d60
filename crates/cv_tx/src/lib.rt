//! A transaction: the writes of a run so far, laid over what its store reads, and what it has read.
//!
//! A run sees the documents of its snapshot with its own writes. For each read the transaction asks the
//! store for as many rows of the snapshot as it can need ([`Tx::plan`]), lays the writes over them and
//! records the interval that was consumed ([`Tx::answer`]). In the end it is the proposal of the run
//! ([`Tx::propose`]).
#![tactic(auto)]

mod answer;
mod consume;
mod laws;
mod overlay;
mod plan;
mod size;
#[cfg(test)]
mod tests;
mod tx;

pub use laws::{pending_writes_are_the_puts, transactions_cross};
pub use tx::Tx;
