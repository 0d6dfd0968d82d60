//! The programs' links and doors over the network, and their clock.
//!
//! [`TcpDoor`] listens on a loopback address and makes the opening handshake of a WebSocket (RFC 6455) with
//! each client that comes. [`WsLink`] is the connection behind it. [`SystemClock`] reads the system's clock.
//! Each stands under its trait of the crate `cv_outside`: it counts what it answers, and tells no content.
//! What the system's sockets and clock do is not proved.
#![tactic(auto)]

mod address;
mod clock;
mod door;
mod handshake;
mod heard;
mod limits;
mod link;

pub use clock::SystemClock;
pub use door::TcpDoor;
pub use limits::MESSAGE_LIMIT;
pub use link::WsLink;
