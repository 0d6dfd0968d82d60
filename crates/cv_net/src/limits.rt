//! How much a connection may ask for.
ghost use Rattle.std.specs.Prelude.{◌≡◌, Some, false};

use tungstenite::WebSocketConfig;

/// The greatest message, in bytes: 64 KiB above what the decoder of messages takes, so that a text that is too
/// long reaches it and is refused there. A greater one, whole or in fragments, is a fault of the link.
pub const MESSAGE_LIMIT: usize = (4 << 20) + (64 << 10);

// How many bytes one read of the stream asks for.
const READ_SIZE: usize = 64 << 10;

// How many bytes of replies to pings may wait for a client that doesn't read. Its next pings wait too then.
const REPLY_LIMIT: usize = 64 << 10;

/// The limits of a socket in the mode in which calls wait, or don't. What is sent has no limit.
pub(crate) fn config(waits: bool) -> WebSocketConfig
    ensures message { result.max_message_size ≡ Some MESSAGE_LIMIT }
    ensures frame { result.max_frame_size ≡ Some MESSAGE_LIMIT }
    ensures masked { result.accept_unmasked_frames ≡ false }
{
    let output = if waits { usize::MAX } else { REPLY_LIMIT };
    WebSocketConfig::default()
        .read_buffer_size(READ_SIZE)
        .max_write_buffer_size(output)
        .max_message_size(Some(MESSAGE_LIMIT))
        .max_frame_size(Some(MESSAGE_LIMIT))
}
