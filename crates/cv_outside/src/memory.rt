//! A source and a sink in memory, whose calls can be made to fail.
ghost use Rattle.std.specs.Prelude.{◌≡◌, ◌↔◌, ◌⊎◌, ◌<◌, ◌≤◌, ◌-◌, [], IfOk, IsErr, OnErr, Contains, length, min};
ghost use Rattle.std.specs.Io.{ReadsAtMost};
ghost use Rattle.std.specs.Io.KnownBytes.{ReadConsumes, WriteAppends};
ghost use Rattle.cv_outside.specs.Causes.{HasCause};
ghost use Rattle.cv_outside.specs.Plan.{next};

use crate::plan::Plan;
use crate::{Failed, Sink, Source};
use cv_values::Memory;
use std::alloc::Global;
use std::marker::Model;

/// A source that has its bytes in memory. Contracts see the bytes left and the calls so far.
#[derive(Drop)]
pub struct MemSource {
    bytes: Vec<u8>,
    at: usize,
    plan: Plan,
}

impl Model for MemSource {
    ghost use Rattle.std.specs.Prelude.{drop, length, ◌≤◌};
    ghost use Rattle.cv_outside.specs.Memory.{SourceState};

    ghost Value = { SourceState };

    ghost view = { λ s. record { bytes = drop s.at s.bytes.items; calls = s.plan } };

    ghost invariant = { λ s. s.at ≤ length s.bytes.items };
}

impl MemSource {
    /// These bytes are left. The reads with these numbers, counted from 0, are to fail.
    pub fn new(bytes: Vec<u8>, fails: Vec<u64>) -> Self
        ensures bytes { result.bytes ≡ bytes.items }
        ensures calls { result.calls ≡ record { fails = fails.items; made = 0; failed = 0 } }
    {
        MemSource {
            bytes,
            at: 0,
            plan: Plan::new(fails),
        }
    }
}

impl Source for MemSource {
    ghost use Rattle.std.specs.Prelude.{Some};

    ghost left = { λ s. Some s.bytes };

    ghost faults = { λ s. s.calls.failed };

    /// Fails exactly at the calls listed. It gives all that fits the piece.
    fn read(&mut self, piece: &mut [u8]) -> Result<usize, Failed>
        ensures bound { ReadsAtMost result piece.new }
        ensures bytes { ReadConsumes (Some self.old.bytes) (Some self.new.bytes) result piece.new }
        ensures cause { HasCause self.old.calls.failed self.new.calls.failed result }
        ensures listed { IsErr result ↔ Contains self.old.calls.fails self.old.calls.made }
        ensures fits { IfOk result (λ n. n ≡ min (length piece.new) (length self.old.bytes)) }
        ensures made { self.new.calls.made ≡ next self.old.calls.made }
        ensures fails { self.new.calls.fails ≡ self.old.calls.fails }
    {
        self.plan.call()?;
        let left = &self.bytes[self.at..];
        let count = left.len().min(piece.len());
        piece[..count].copy_from_slice(&left[..count]);
        self.at += count;
        Ok(count)
    }
}

/// A sink that keeps its bytes in memory, in room that it takes first. Contracts see the bytes held,
/// the room and the calls so far.
#[derive(Drop)]
pub struct MemSink {
    bytes: Vec<u8>,
    room: usize,
    plan: Plan,
}

impl Model for MemSink {
    ghost use Rattle.std.specs.Prelude.{length, ◌-◌, vec_capacity, ◌≤◌};
    ghost use Rattle.cv_outside.specs.Memory.{SinkState};

    ghost Value = { SinkState };

    ghost view = { λ s. record { bytes = s.bytes.items; room = s.room; calls = s.plan } };

    ghost invariant = { λ s. length s.bytes.items ≤ s.room × s.room ≤ vec_capacity s.bytes };
}

impl MemSink {
    /// An empty sink with room for so many bytes. The writes with these numbers, counted from 0, are to
    /// fail.
    pub fn new(alloc: Global, room: usize, fails: Vec<u64>) -> Result<Self, Memory>
        ensures bytes { IfOk result (λ s. s.bytes ≡ []) }
        ensures room { IfOk result (λ s. s.room ≡ room) }
        ensures calls { IfOk result (λ s. s.calls ≡ record { fails = fails.items; made = 0; failed = 0 }) }
    {
        Ok(MemSink {
            bytes: Vec::with_capacity(alloc, room)?,
            room,
            plan: Plan::new(fails),
        })
    }

    /// The bytes held.
    pub fn bytes(&self) -> &[u8]
        ensures { result.now ≡ self.now.bytes }
    {
        &self.bytes
    }
}

impl Sink for MemSink {
    ghost use Rattle.std.specs.Prelude.{Some};

    ghost held = { λ s. Some s.bytes };

    ghost faults = { λ s. s.calls.failed };

    /// Fails exactly at the calls listed, and where nothing fits. It takes all that fits.
    fn write(&mut self, piece: &[u8]) -> Result<usize, Failed>
        ensures bound { IfOk result (λ n. (0 < n) × (n ≤ length piece.now)) }
        ensures bytes { WriteAppends (Some self.old.bytes) (Some self.new.bytes) result piece.now }
        ensures cause { HasCause self.old.calls.failed self.new.calls.failed result }
        ensures fits { IfOk result (λ n. n ≡ min (length piece.now) (self.old.room - length self.old.bytes)) }
        ensures listed { Contains self.old.calls.fails self.old.calls.made → IsErr result }
        ensures only { OnErr result (Contains self.old.calls.fails self.old.calls.made ⊎ (min (length piece.now) (self.old.room - length self.old.bytes) ≡ 0)) }
        ensures made { self.new.calls.made ≡ next self.old.calls.made }
        ensures fails { self.new.calls.fails ≡ self.old.calls.fails }
        ensures room { self.new.room ≡ self.old.room }
    {
        self.plan.call()?;
        let count = piece.len().min(self.room - self.bytes.len());
        if count == 0 {
            self.plan.fault();
            return Err(Failed);
        }
        self.bytes.extend_from_slice(&piece[..count]).unwrap();
        Ok(count)
    }
}
