//! A link over a WebSocket.
ghost use Rattle.std.specs.Prelude.{◌≡◌, ◌≤◌, IfErr, IfOk, OnOk};
ghost use Rattle.cv_outside.specs.Links.{Fails, IsLater, Receives, Sends};
ghost use Rattle.cv_outside.specs.declared.link.LinkFail.TheVariants as fail;
ghost use Rattle.cv_net.specs.Counts.{AnswersHeard, AnswersRecv, AnswersSend, counts_wire, no_counts, with_fault};

use crate::heard::{Heard, of_read, of_send};
use crate::limits::config;
use cv_outside::{Got, Link, LinkFail};
use cv_values::Text;
use std::alloc::Global;
use std::io;
use std::io::{Read, Write};
use std::marker::Model;
use std::net::OpenStream;
use tungstenite::{Message, NoMask, Utf8Bytes, WebSocket};

/// A connection to a client, over a stream that may wait for it or not. Contracts see the counts.
#[derive(Drop)]
pub struct WsLink<S> {
    socket: WebSocket<S, NoMask>,
    // Whether the stream's calls wait.
    waits: bool,
    // A text that came and found no memory.
    kept: Option<Utf8Bytes>,
    quiets: u64,
    closings: u64,
    faults: u64,
}

impl<S> Model for WsLink<S> {
    ghost use Rattle.cv_net.specs.Counts.{LinkCounts};

    ghost Value = { LinkCounts };

    ghost view = { λ l. record { quiets = l.quiets; closings = l.closings; faults = l.faults } };
}

impl<S: Read + Write + OpenStream + Drop> WsLink<S> {
    /// A link over a socket whose stream is in the mode in which calls wait.
    pub(crate) fn new(socket: WebSocket<S, NoMask>) -> WsLink<S>
        ensures { result ≡ no_counts }
    {
        WsLink {
            socket,
            waits: true,
            kept: None,
            quiets: 0,
            closings: 0,
            faults: 0,
        }
    }

    // Puts the stream in the mode in which calls wait, or don't.
    fn set_waiting(&mut self, waits: bool) -> io::Result<()>
        ensures { self.new ≡ self.old }
    {
        if self.waits != waits {
            self.socket.get_ref().set_nonblocking(!waits)?;
            self.socket.set_config(config(waits));
            self.waits = waits;
        }
        Ok(())
    }

    // Reads without waiting. A reply that the protocol asks for goes out with it, as far as the stream takes
    // it, and the rest with the next call.
    fn hear(&mut self) -> Heard
        ensures { self.new ≡ self.old }
    {
        if let Some(text) = self.kept.take() {
            return Heard::Text(text);
        }
        if self.set_waiting(false).is_err() {
            return Heard::Fault;
        }
        let heard = of_read(self.socket.read());
        let _ = self.socket.flush();
        heard
    }

    // Counts what was heard, and tells it.
    fn answer(&mut self, alloc: Global, heard: Heard) -> Result<Got, LinkFail>
        ensures told { AnswersHeard heard self.old self.new result }
        ensures later { IsLater (counts_wire self.old) (counts_wire self.new) }
    {
        match heard {
            Heard::Text(text) => match Text::of(alloc, text.as_str()) {
                Ok(copy) => Ok(Got::Text(copy)),
                Err(_) => {
                    self.kept = Some(text);
                    Err(LinkFail::Memory)
                }
            },
            Heard::Quiet => {
                self.quiets = self.quiets.saturating_add(1);
                Ok(Got::Quiet)
            }
            Heard::Closed => {
                self.closings = self.closings.saturating_add(1);
                Ok(Got::Closed)
            }
            Heard::Fault => Err(self.fault()),
            Heard::Memory => Err(LinkFail::Memory),
        }
    }

    // Sends, and waits until the text is gone.
    fn speak(&mut self, alloc: Global, text: &Text) -> Result<(), LinkFail>
        ensures { self.new ≡ self.old }
    {
        if self.set_waiting(true).is_err() {
            return Err(LinkFail::Failed);
        }
        let Ok(message) = Message::text(alloc, text.as_str()) else {
            return Err(LinkFail::Memory);
        };
        of_send(self.socket.send(message))
    }

    fn fault(&mut self) -> LinkFail
        ensures counted { self.new ≡ with_fault self.old }
        ensures failed { result ≡ fail.Failed }
        ensures later { self.old.faults ≤ self.new.faults }
    {
        self.faults = self.faults.saturating_add(1);
        LinkFail::Failed
    }
}

impl<S: Read + Write + OpenStream + Drop> Link for WsLink<S> {
    ghost use Rattle.cv_net.specs.Counts.{counts_wire};

    ghost wire = { counts_wire };

    /// A text that met want of memory is given by a later call. A ping is answered, a text above
    /// [`MESSAGE_LIMIT`](crate::MESSAGE_LIMIT) bytes is a fault, and so is a connection that ends without a close.
    fn recv(&mut self, alloc: Global) -> Result<Got, LinkFail>
        ensures later { IsLater (counts_wire self.old) (counts_wire self.new) }
        ensures ok { IfOk result (λ got. Receives (counts_wire self.old) (counts_wire self.new) got) }
        ensures err { IfErr result (λ why. Fails (counts_wire self.old) (counts_wire self.new) why) }
        ensures counted { AnswersRecv self.old self.new result }
    {
        let heard = self.hear();
        self.answer(alloc, heard)
    }

    /// Waits until the stream has taken the whole text. What waits for a slow client is its own thread.
    fn send(&mut self, alloc: Global, text: &Text) -> Result<(), LinkFail>
        ensures later { IsLater (counts_wire self.old) (counts_wire self.new) }
        ensures ok { OnOk result (Sends (counts_wire self.old) (counts_wire self.new) text.now) }
        ensures err { IfErr result (λ why. Fails (counts_wire self.old) (counts_wire self.new) why) }
        ensures counted { AnswersSend self.old self.new result }
    {
        match self.speak(alloc, text) {
            Ok(()) => Ok(()),
            Err(LinkFail::Memory) => Err(LinkFail::Memory),
            Err(LinkFail::Failed) => Err(self.fault()),
        }
    }
}
