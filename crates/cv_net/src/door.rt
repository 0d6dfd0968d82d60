//! A door at a port of this machine.
ghost use Rattle.std.specs.Prelude.{◌≡◌, ◌+◌, ◌<◌, IfErr, IfOk};
ghost use Rattle.cv_outside.specs.Doors.{GivesNone, after_next};
ghost use Rattle.cv_outside.specs.Links.{IsUnused};
ghost use Rattle.cv_outside.specs.declared.link.LinkFail.TheVariants as fail;
ghost use Rattle.cv_net.specs.Counts.{AnswersPort, counts_way, counts_wire, no_links, with_door_fault};

use crate::WsLink;
use crate::address::loopback;
use crate::handshake::open;
use cv_outside::{Door, LinkFail};
use cv_values::Text;
use std::alloc::Global;
use std::io;
use std::io::ErrorKind;
use std::marker::Model;
use std::net::{Net, OpenListener, TcpListener};
use std::sync::Wait;

/// Gives a link for each WebSocket that a client opens at a loopback address. Contracts see the counts.
#[derive(Drop)]
pub struct TcpDoor<R: Net> {
    rt: R,
    address: Text,
    listener: Option<R::Listener>,
    given: u64,
    back: u64,
    faults: u64,
}

impl<R: Net> Model for TcpDoor<R> {
    ghost use Rattle.cv_net.specs.Counts.{DoorCounts};

    ghost Value = { DoorCounts };

    ghost view = { λ d. record { given = d.given; back = d.back; faults = d.faults } };
}

impl<R: Net + Drop> TcpDoor<R> {
    /// A door at this address, as `127.0.0.1:8080` or `[::1]:8080`, where port 0 is any that is free. Nothing
    /// is bound yet.
    pub fn new(rt: R, address: Text) -> TcpDoor<R>
        ensures { result ≡ no_links }
    {
        TcpDoor {
            rt,
            address,
            listener: None,
            given: 0,
            back: 0,
            faults: 0,
        }
    }

    /// The port at which it listens. The first call that finds it free binds the address. It is a fault if the
    /// address is none of this machine's own, or is taken.
    pub fn port(&mut self) -> Result<u16, LinkFail>
        ensures { AnswersPort self.old self.new result }
    {
        match self.bound() {
            Ok(port) => Ok(port),
            Err(_) => Err(self.fault()),
        }
    }

    fn bound(&mut self) -> io::Result<u16>
        ensures { self.new ≡ self.old }
    {
        if let Some(listener) = &self.listener {
            return Ok(listener.local_addr()?.port());
        }
        let Some(address) = loopback(self.address.as_str()) else {
            return Err(io::Error::from(ErrorKind::InvalidInput));
        };
        let listener = TcpListener::bind(&self.rt, address)?;
        let port = listener.local_addr()?.port();
        self.listener = Some(listener);
        Ok(port)
    }

    fn fault(&mut self) -> LinkFail
        ensures counted { self.new ≡ with_door_fault self.old }
        ensures failed { result ≡ fail.Failed }
    {
        self.faults = self.faults.saturating_add(1);
        LinkFail::Failed
    }
}

impl<R: Net + Wait + Drop> Door for TcpDoor<R> {
    type Link = WsLink<R::Stream>;

    ghost use Rattle.cv_net.specs.Counts.{counts_way};

    ghost doorway = { counts_way };

    /// It waits until some client has made the handshake; those that don't make it are let go, one after the
    /// other. It is a fault if no port was bound.
    fn next(&mut self, alloc: Global) -> Result<WsLink<R::Stream>, LinkFail>
        ensures given { IfOk result (λ _. counts_way self.new ≡ after_next (counts_way self.old)) }
        ensures unused { IfOk result (λ link. IsUnused (counts_wire link)) }
        ensures err { IfErr result (λ why. GivesNone (counts_way self.old) (counts_way self.new) why) }
    {
        let Some(listener) = &self.listener else {
            return Err(self.fault());
        };
        if self.given == u64::MAX {
            return Err(self.fault());
        }
        for _ in self.rt.forever() {
            let Ok((stream, _)) = listener.accept() else {
                self.faults = self.faults.saturating_add(1);
                return Err(LinkFail::Failed);
            };
            let Some(link) = open(alloc, stream)? else {
                continue;
            };
            self.given += 1;
            return Ok(link);
        }
        unreachable!()
    }

    /// Closes the link's stream. Which links came back isn't told.
    fn back(&mut self, _link: WsLink<R::Stream>)
        requires { self.old.back < self.old.given }
        ensures { self.new ≡ record self.old { back = self.old.back + 1 } }
    {
        prove!(self.back < self.given);
        self.back += 1;
    }
}
