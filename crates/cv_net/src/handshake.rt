//! The opening handshake with a client that may take its time.
ghost use Rattle.std.specs.Prelude.{◌≡◌, IfOk, IfSome};
ghost use Rattle.cv_net.specs.Counts.{no_counts};

use crate::WsLink;
use crate::limits::config;
use cv_values::Memory;
use std::alloc::Global;
use std::io;
use std::io::{Read, Write};
use std::net::OpenStream;
use std::time::Duration;
use tungstenite::handshake::server::start;
use tungstenite::{Error, HandshakeError, NoCallback};

// How long one wait for a client's bytes lasts, in milliseconds, and how many waits may end with none: 5 seconds
// together.
const WAIT: u64 = 100;

const EMPTY_WAITS: usize = 50;

/// The link over a stream, once its client has asked for a WebSocket. None where the client asks for something
/// else, goes away, or is silent for 5 seconds in all. A client that goes on sending is held to 64 reads, or to
/// 64 KiB in pieces of 128 bytes and more, each within a tenth of a second: less than a minute more. The stream
/// is closed then.
pub(crate) fn open<S: Read + Write + OpenStream + Drop>(
    alloc: Global,
    stream: S,
) -> Result<Option<WsLink<S>>, Memory>
    ensures { IfOk result (λ found. IfSome found (λ link. link ≡ no_counts)) }
{
    if prepare(&stream).is_err() {
        return Ok(None);
    }
    let mut shaking = start(alloc, stream, NoCallback, Some(config(true)));
    for _ in 0..EMPTY_WAITS {
        match shaking.handshake() {
            Ok(socket) => return Ok(Some(WsLink::new(socket))),
            Err(HandshakeError::Interrupted(rest)) => shaking = rest,
            Err(HandshakeError::Failure(Error::OutOfMemory)) => return Err(Memory),
            Err(HandshakeError::Failure(_)) => return Ok(None),
        }
    }
    Ok(None)
}

// A read ends after one wait, and a small text isn't held back.
fn prepare<S: OpenStream>(stream: &S) -> io::Result<()> {
    stream.set_nodelay(true)?;
    stream.set_read_timeout(Some(Duration::from_millis(WAIT)))
}
