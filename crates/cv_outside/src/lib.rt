//! What the programs meet outside: sources and sinks of bytes, links to clients and the doors at which
//! they come, clocks, and what takes turns.
//!
//! Each is a trait with a written meaning: the bytes that are left or held, the texts to come and
//! those that passed, where these are told, and counts that never fall, one of them of faults. A call
//! answers [`Failed`] or [`LinkFail::Failed`] only where the count of faults rose in the call, so no
//! code that is generic over the trait can blame the outside for a fault that did not come. The same
//! holds of a link that is quiet or closed. A count of 64 bits stands at its last value.
//!
//! The forms whose names begin with `Mem` stand over memory and fail at chosen calls. `StdSource` and
//! `StdSink` stand over std's readers and writers, and tell of their bytes what these tell.
#![tactic(auto)]

mod clock;
mod door;
mod link;
mod mem_door;
mod mem_link;
mod memory;
mod plan;
mod sink;
mod source;
mod streams;
#[cfg(test)]
mod tests;
mod trace;
mod turnable;
mod whole;

pub use clock::{Clock, MemClock};
pub use door::Door;
pub use link::{Got, Link, LinkFail};
pub use mem_door::MemDoor;
pub use mem_link::MemLink;
pub use memory::{MemSink, MemSource};
pub use sink::Sink;
pub use source::{Failed, Source};
pub use streams::{StdSink, StdSource};
pub use turnable::{Again, Gate, Turnable};
pub use whole::{INPUT_LIMIT, ReadFault, read_whole, write_whole};
