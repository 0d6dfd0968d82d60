//! The stand: plays the events of a script over a store of its own, one at a time.
//!
//! The lines `clock`, `call` and `log` are read ([`read_script`]) and played ([`Stand::play`]): a call's job
//! is stepped to its end over the store, and what an event writes is told by the log that it leaves.
#![tactic(auto)]

mod call;
mod laws;
mod lines;
mod output;
mod script;
mod script_player;
mod script_reader;
mod stand;

pub use laws::{scripts_make_one_log, worked_plays};
pub use lines::{line_text, split_line};
pub use output::PlayFault;
pub use script::{Event, Script};
pub use script_player::play_script;
pub use script_reader::read_script;
pub use stand::{Counts, Stand};
