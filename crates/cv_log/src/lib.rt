//! The log of a program: its entries in order, the marks of each, and where the entry of a session's
//! request stands.
//!
//! The first touch of a read set after a timestamp is found by the marks alone, which are made once, when
//! an entry is appended ([`WriteLog::first_touch_since`]).
#![tactic(auto)]

mod laws;
#[cfg(test)]
mod tests;
mod touch;
mod write_log;

pub use laws::logs_cross;
pub use write_log::WriteLog;
