ghost use Rattle.std.specs.Prelude.{◌≡◌, ◌<◌, ◌≤◌, ◌+◌, ◌++◌, ◌^◌, IfOk, OnOk, IfSome, string_bytes, length, slice_range};
ghost use Rattle.cv_values.specs.Ids.{digit, digit_value, hex_of, read_from, part, id_text, read_id};

use crate::memory::Memory;
use crate::text::Text;
use std::alloc::Global;

/// A document's id: the number of its table, the session and the request of the call that made it,
/// and its place among the documents that this call made, from 0.
#[derive(Clone, Copy, Debug, PartialEq, Eq, PartialOrd, Ord, Hash)]
pub struct DocId {
    pub table: u16,
    pub session: u128,
    pub request: u32,
    pub ordinal: u16,
}

const ID_LEN: usize = 48;

fn digit(d: u8) -> char
    requires { d < 16 }
    ensures value { result ≡ digit d }
    ensures ascii { result < 128 }
{
    if d < 10 {
        char::from(b'0' + d)
    } else {
        char::from(b'a' + (d - 10))
    }
}

fn digit_value(c: u8) -> Option<u8>
    ensures value { result ≡ digit_value c }
    ensures below { IfSome result (λ d. d < 16) }
{
    match c {
        b'0'..=b'9' => Some(c - b'0'),
        b'a'..=b'f' => Some(c - b'a' + 10),
        _ => None,
    }
}

// Puts so many hexadecimal digits of a number at the end of a text.
fn push_hex(text: &mut String, number: u128, width: u32) -> Result<(), Memory>
    requires { width ≤ 32 }
    ensures { OnOk result (string_bytes text.new ≡ string_bytes text.old ++ hex_of width number) }
{
    for i in 0..width {
        let shift = 4 * (width - 1 - i);
        let low = (number >> shift) % 16;
        text.push(digit(low as u8))?;
    }
    Ok(())
}

fn read_hex(digits: &[u8]) -> Option<u128>
    requires { length digits.now ≤ 32 }
    ensures value { result ≡ read_from 0 digits.now }
    ensures below { IfSome result (λ n. n < 16 ^ length digits.now) }
{
    let mut number = 0u128;
    for c in digits {
        let d = digit_value(*c)?;
        number = number * 16 + u128::from(d);
    }
    Some(number)
}

fn read_part(digits: &[u8], from: usize, len: usize) -> Option<u128>
    requires within { from + len ≤ length digits.now }
    requires short { len ≤ 32 }
    ensures value { result ≡ part digits.now from len }
    ensures below { IfSome result (λ n. n < 16 ^ len) }
{
    read_hex(&digits[from..from + len])
}

/// The text of an id: 48 lower-case hexadecimal digits, of which the table has 4, the session 32,
/// the request 8 and the ordinal 4.
pub fn id_text(alloc: Global, id: &DocId) -> Result<Text, Memory>
    ensures { IfOk result (λ t. t ≡ id_text id.now) }
{
    let mut text = String::with_capacity(alloc, ID_LEN)?;
    push_hex(&mut text, u128::from(id.table), 4)?;
    push_hex(&mut text, id.session, 32)?;
    push_hex(&mut text, u128::from(id.request), 8)?;
    push_hex(&mut text, u128::from(id.ordinal), 4)?;
    Ok(Text::from_string(text))
}

/// The id that a text is the text of, or none exactly where it isn't 48 such digits.
pub fn read_id(text: &Text) -> Option<DocId>
    ensures { result ≡ read_id text.now }
{
    let digits = text.as_str().as_bytes();
    if digits.len() != ID_LEN {
        return None;
    }
    let table = read_part(digits, 0, 4)?;
    let session = read_part(digits, 4, 32)?;
    let request = read_part(digits, 36, 8)?;
    let ordinal = read_part(digits, 44, 4)?;
    Some(DocId {
        table: table as u16,
        session,
        request: request as u32,
        ordinal: ordinal as u16,
    })
}
