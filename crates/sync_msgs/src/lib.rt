//! What clients and a server tell each other, as types and as JSON texts, and what a client shows.
//!
//! A client sends `Connect`, `ModifyQuerySet`, `Mutation` and `Event`, which [`decode`] reads. A server
//! sends `Transition`, `MutationResponse` and `FatalError`, which [`encode`] writes. The forms are this
//! project's own, after the sync protocol of Convex.
//!
//! Contracts see a message as plain data (`specs/Messages.antt`), and a text as the compact text of the
//! message's JSON tree. A *client view* is what a client shows: a version, and a reply under each query's
//! id. Folding the messages of a server into it is a definition, which the sessions above rest on.
#![tactic(auto)]

mod arguments;
mod cause;
mod changes;
mod decoder;
mod encoder;
mod entry_json;
mod fields;
mod laws;
mod messages;
#[cfg(test)]
mod tests;
mod trees;
mod version;

pub use cause::{Cause, FieldName, MsgFault};
pub use decoder::{MAX_MESSAGE, decode};
pub use encoder::encode;
pub use entry_json::entry_text;
pub use laws::{worked_clients, worked_texts};
pub use messages::{Change, ClientMsg, MutationResult, ServerMsg, Shown};
pub use version::Version;
