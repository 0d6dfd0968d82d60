//! Reading a source to its end, and writing a whole text.
ghost use Rattle.std.specs.Prelude.{◌≡◌, ◌<◌, ◌≤◌, length, List, ℕ, Err, IfOk, OnOk, OnErr, IfSome, IsErrOf};
ghost use Rattle.std.specs.Io.KnownBytes.{Appends, Consumes, IsAtEnd};
ghost use Rattle.cv_outside.specs.Causes.{HasCause, Rose, AppendsPart};

use crate::{Failed, Sink, Source};
use std::alloc::Global;

/// The most bytes that an input may have: 64 MiB.
pub const INPUT_LIMIT: usize = 67_108_864;

/// Why a source was not read to its end.
#[derive(Clone, Copy, Debug, PartialEq, Eq)]
pub enum ReadFault {
    /// A read failed.
    Read,
    /// The source has more than [`INPUT_LIMIT`] bytes.
    TooLarge,
    /// There was no memory for its bytes.
    Memory,
}

/// Reads a source to its end. It reads pieces of 8 KiB, and never asks again after a fault.
pub fn read_whole<S: Source>(alloc: Global, source: &mut S) -> Result<Vec<u8>, ReadFault>
    ensures whole { IfOk result (λ bytes. IfSome (S.left source.old) (λ all. bytes.items ≡ all)) }
    ensures end { OnOk result (IsAtEnd (S.left source.new)) }
    ensures limit { IfOk result (λ bytes. length bytes.items ≤ INPUT_LIMIT) }
    ensures too_large { IsErrOf result ReadFault.TooLarge → IfSome (S.left source.old) (λ all. INPUT_LIMIT < length all) }
    ensures read { IsErrOf result ReadFault.Read → Rose (S.faults source.old) (S.faults source.new) }
    ensures later { S.faults source.old ≤ S.faults source.new }
    ensures kept { (result ≡ Err ReadFault.Read → ⊥) → S.faults source.new ≡ S.faults source.old }
    ensures taken { IsErrOf result ReadFault.TooLarge → (taken : List ℕ) × Consumes (S.left source.old) (S.left source.new) taken × (INPUT_LIMIT < length taken) }
{
    let mut bytes = Vec::new(alloc);
    let mut piece = [0u8; 8192];
    loop {
        let Ok(count) = source.read(&mut piece) else {
            return Err(ReadFault::Read);
        };
        if count == 0 {
            return Ok(bytes);
        }
        if INPUT_LIMIT - bytes.len() < count {
            return Err(ReadFault::TooLarge);
        }
        if bytes.extend_from_slice(&piece[..count]).is_err() {
            return Err(ReadFault::Memory);
        }
    }
}

/// Writes a whole text, piece by piece as the sink takes it. It never asks again after a fault.
pub fn write_whole<K: Sink>(sink: &mut K, text: &[u8]) -> Result<(), Failed>
    ensures written { OnOk result (Appends (K.held sink.old) (K.held sink.new) text.now) }
    ensures part { OnErr result (AppendsPart (K.held sink.old) (K.held sink.new) text.now) }
    ensures cause { HasCause (K.faults sink.old) (K.faults sink.new) result }
{
    let mut at = 0;
    while at < text.len() {
        at += sink.write(&text[at..])?;
    }
    Ok(())
}
