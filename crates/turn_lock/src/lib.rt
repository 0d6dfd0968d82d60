//! A state behind a turn, whose seats know one history.
//!
//! One thread at a time has the turn, and with it the state ([`Turn`]). Whoever may take turns has a seat. It
//! stands for what its owner has seen of the state's history, the entries that it appended itself, and how many
//! turns it took ([`TurnSeat`]). All that seats have seen are beginnings of one history, and no entry is the
//! own one of two seats.
//!
//! The idea is the lock of one atomic word that is tried again after a while (test and set with back-off, as in
//! Herlihy and Shavit, *The Art of Multiprocessor Programming*). The words and the state lie in a table of the
//! crate `atomic_table`, whose rule is what seats know.
#![tactic(auto)]

mod lends;
mod pause;
mod plays;
#[cfg(test)]
mod tests;
mod turn;
mod view;

pub use turn::{Held, Turn, TurnSeat};
