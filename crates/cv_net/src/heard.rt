//! What a read of a socket comes to, and what a send.
ghost use Rattle.std.specs.Prelude.{◌≡◌, ◌↔◌, IsTrue};
ghost use Rattle.cv_net.specs.Heard.{IsBlocked, IsErrorHeard, IsHeard, IsSent, error_sent, message_heard};

use cv_outside::LinkFail;
use std::io;
use std::io::ErrorKind;
use tungstenite::{Error, Message, Utf8Bytes};

/// What a read of a socket comes to: a text, nothing yet, the end, a fault of the connection, or want of memory.
#[derive(Debug, Drop)]
pub(crate) enum Heard {
    Text(Utf8Bytes),
    Quiet,
    Closed,
    Fault,
    Memory,
}

/// What this read comes to.
pub(crate) fn of_read(read: Result<Message, Error>) -> Heard
    ensures { IsHeard read result }
{
    match read {
        Ok(message) => of_message(message),
        Err(error) => of_error(error),
    }
}

fn of_message(message: Message) -> Heard
    ensures { result ≡ message_heard message }
{
    match message {
        Message::Text(text) => Heard::Text(text),
        Message::Binary(_) => Heard::Fault,
        Message::Ping(_) | Message::Pong(_) => Heard::Quiet,
        Message::Close(_) => Heard::Closed,
    }
}

fn of_error(error: Error) -> Heard
    ensures { IsErrorHeard error result }
{
    match error {
        Error::ConnectionClosed => Heard::Closed,
        Error::OutOfMemory => Heard::Memory,
        Error::Io(cause) => {
            if is_blocked(&cause) {
                Heard::Quiet
            } else {
                Heard::Fault
            }
        }
        _ => Heard::Fault,
    }
}

fn is_blocked(cause: &io::Error) -> bool
    ensures { IsTrue result ↔ IsBlocked cause.now }
{
    cause.kind() == ErrorKind::WouldBlock
}

/// What this send comes to.
pub(crate) fn of_send(sent: Result<(), Error>) -> Result<(), LinkFail>
    ensures { IsSent sent result }
{
    match sent {
        Ok(()) => Ok(()),
        Err(error) => Err(of_send_error(error)),
    }
}

fn of_send_error(error: Error) -> LinkFail
    ensures { result ≡ error_sent error }
{
    match error {
        Error::OutOfMemory => LinkFail::Memory,
        _ => LinkFail::Failed,
    }
}
