//! The digits of ids, without memory for their text.
ghost use Rattle.std.specs.Prelude.{◌≡◌, ◌≢◌, ◌++◌, ◌^◌, ◌<◌, ◌≤◌, OnOk, IfSome, IfNone, option_map};
ghost use Rattle.cv_keys.specs.KeyIds.{IsId, read_digits, id_from, id_in};
ghost use Rattle.cv_values.specs.declared.ids.DocId.{DocId as Id};
ghost use Rattle.cv_keys.specs.Meets.{IsMet, id_end};
ghost use Rattle.cv_keys.specs.KeyBytes.{text_key};
ghost use Rattle.cv_values.specs.Ids.{digit, digit_value, hex_of, id_text};

use crate::encode::put;
use crate::key::Key;
use crate::kinds::{STRING, STRING_END};
use crate::meet::meet;
use cv_values::{DocId, Memory};
use std::cmp::Ordering;

/// A lower-case hexadecimal digit.
pub(crate) fn digit(d: u8) -> u8
    requires { d < 16 }
    ensures { result ≡ digit d }
{
    if d < 10 { b'0' + d } else { b'a' + (d - 10) }
}

// Writes so many hexadecimal digits of a number.
fn put_hex(out: &mut Vec<u8>, number: u128, width: u32) -> Result<(), Memory>
    requires { width ≤ 32 }
    ensures { OnOk result (out.new.items ≡ out.old.items ++ hex_of width number) }
{
    for i in 0..width {
        let low = (number >> (4 * (width - 1 - i))) % 16;
        put(out, &[digit(low as u8)])?;
    }
    Ok(())
}

/// The length of the key of an id's text.
pub(crate) const ID_KEY_LEN: usize = 51;

/// Writes the key of an id's text, whose digits need no escape.
pub(crate) fn put_id(out: &mut Vec<u8>, id: &DocId) -> Result<(), Memory>
    ensures { OnOk result (out.new.items ≡ out.old.items ++ text_key (id_text id.now)) }
{
    put(out, &[STRING])?;
    put_hex(out, u128::from(id.table), 4)?;
    put_hex(out, id.session, 32)?;
    put_hex(out, u128::from(id.request), 8)?;
    put_hex(out, u128::from(id.ordinal), 4)?;
    put(out, &[0, STRING_END])?;
    Ok(())
}

// The next so many hexadecimal digits of a number.
fn meet_hex<'a>(number: u128, width: u32, target: &'a [u8]) -> Result<&'a [u8], Ordering>
    requires { width ≤ 32 }
    ensures { IsMet (hex_of width number) target.now result }
{
    let mut rest = target;
    for i in 0..width {
        let low = (number >> (4 * (width - 1 - i))) % 16;
        rest = meet(&[digit(low as u8)], rest)?;
    }
    Ok(rest)
}

#[tactic(auto, using(crate::proofs::Meeting::met_both))]
fn meet_digits<'a>(id: &DocId, target: &'a [u8]) -> Result<&'a [u8], Ordering>
    ensures { IsMet (id_end id.now) target.now result }
{
    let rest = meet_hex(u128::from(id.table), 4, target)?;
    let rest = meet_hex(id.session, 32, rest)?;
    let rest = meet_hex(u128::from(id.request), 8, rest)?;
    let rest = meet_hex(u128::from(id.ordinal), 4, rest)?;
    meet(&[0, STRING_END], rest)
}

/// The key of an id's text, as `meet` compares it.
#[tactic(auto, using(crate::proofs::Hex::id_key))]
pub(crate) fn meet_id<'a>(id: &DocId, target: &'a [u8]) -> Result<&'a [u8], Ordering>
    ensures { IsMet (text_key (id_text id.now)) target.now result }
{
    let rest = meet(&[STRING], target)?;
    meet_digits(id, rest)
}

fn digit_value(c: u8) -> Option<u8>
    ensures value { result ≡ digit_value c }
    ensures below { IfSome result (λ d. d < 16) }
{
    match c {
        b'0'..=b'9' => Some(c - b'0'),
        b'a'..=b'f' => Some(c - b'a' + 10),
        _ => None,
    }
}

// The number that the first so many digits are, and the bytes behind them.
fn take_hex(bytes: &[u8], width: u32) -> Option<(u128, &[u8])>
    requires { width ≤ 32 }
    ensures value { option_map (λ r. (r.0, r.1.now)) result ≡ read_digits width 0 bytes.now }
    ensures below { IfSome result (λ r. r.0 < 16 ^ width) }
{
    let mut number = 0u128;
    let mut rest = bytes;
    for _i in 0..width {
        let (c, more) = rest.split_first()?;
        let d = digit_value(*c)?;
        number = number * 16 + u128::from(d);
        rest = more;
    }
    Some((number, rest))
}

fn id_from(bytes: &[u8]) -> Option<DocId>
    ensures { result ≡ id_from bytes.now }
{
    let (table, rest) = take_hex(bytes, 4)?;
    let (session, rest) = take_hex(rest, 32)?;
    let (request, rest) = take_hex(rest, 8)?;
    let (ordinal, rest) = take_hex(rest, 4)?;
    if rest != [0, STRING_END].as_slice() {
        return None;
    }
    Some(DocId {
        table: table as u16,
        session,
        request: request as u32,
        ordinal: ordinal as u16,
    })
}

fn id_in(bytes: &[u8]) -> Option<DocId>
    ensures { result ≡ id_in bytes.now }
{
    match bytes.split_first() {
        Some((&STRING, rest)) => id_from(rest),
        _ => None,
    }
}

/// Reads a key as that of the text of an id: the one id that it is the key of, or none exactly where
/// it isn't the key of any. It takes no memory.
pub fn id_of(key: &Key) -> Option<DocId>
    ensures some { IfSome result (λ id. key.now ≡ text_key (id_text id)) }
    ensures one { IfSome result (λ id. (other : Id) → IsId other → key.now ≡ text_key (id_text other) → other ≡ id) }
    ensures none { IfNone result ((id : Id) → key.now ≢ text_key (id_text id)) }
{
    id_in(key.as_slice())
}
