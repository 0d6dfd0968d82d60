//! What tokens say.
ghost use Rattle.std.specs.Prelude.{◌≡◌, IfOk, pos, drop, false};
ghost use Rattle.fn_tree.specs.LexemeValues.{slice_of, text_of, number_of, string_value, contents, unescaped};

use crate::number::value_of;
use crate::utf8::utf8_text;
use cv_values::{Memory, Text};
use fn_tree::Lexeme;
use std::alloc::Global;

// The bytes of a text from a place on, and at most so many: none where they begin past its end.
fn slice(bytes: &[u8], lexeme: Lexeme) -> &[u8]
    ensures { result.now ≡ slice_of bytes.now lexeme }
{
    let rest = match bytes.get(lexeme.at as usize..) {
        Some(rest) => rest,
        None => &[],
    };
    match rest.get(..lexeme.len as usize) {
        Some(front) => front,
        None => rest,
    }
}

fn text_of(alloc: Global, bytes: &[u8]) -> Result<Text, Memory>
    ensures { IfOk result (λ t. t ≡ text_of bytes.now) }
{
    match utf8_text(bytes) {
        Ok(text) => Text::of(alloc, text),
        Err(_) => Text::of(alloc, ""),
    }
}

/// The bytes of a token as text. Those of a name are copied.
pub(crate) fn name_of(alloc: Global, text: &str, lexeme: Lexeme) -> Result<Text, Memory>
    ensures { IfOk result (λ t. t ≡ text_of (slice_of text.now lexeme)) }
{
    text_of(alloc, slice(text.as_bytes(), lexeme))
}

/// The number that a token of digits says.
pub(crate) fn integer_of(text: &str, lexeme: Lexeme) -> i64
    ensures { result ≡ pos (number_of (slice_of text.now lexeme)) }
{
    let value = value_of(slice(text.as_bytes(), lexeme));
    i64::try_from(value).unwrap_or(i64::MAX)
}

fn unescaped(byte: u8) -> u8
    ensures { result ≡ unescaped byte }
{
    match byte {
        b'n' => b'\n',
        b't' => b'\t',
        _ => byte,
    }
}

fn after_quote(string: &[u8]) -> &[u8]
    ensures { result.now ≡ drop 1 string.now }
{
    match string {
        [_, after @ ..] => after,
        [] => string,
    }
}

// What the bytes after an opening quote say.
fn contents(alloc: Global, bytes: &[u8]) -> Result<Vec<u8>, Memory>
    ensures { IfOk result (λ v. v.items ≡ contents false bytes.now) }
{
    let mut said = Vec::new(alloc);
    let mut escaped = false;
    for byte in bytes {
        if escaped {
            said.push(unescaped(*byte))?;
            escaped = false;
        } else if *byte == b'"' {
            return Ok(said);
        } else if *byte == b'\\' {
            escaped = true;
        } else {
            said.push(*byte)?;
        }
    }
    Ok(said)
}

/// What a string token says.
pub(crate) fn string_of(alloc: Global, text: &str, lexeme: Lexeme) -> Result<Text, Memory>
    ensures { IfOk result (λ t. t ≡ text_of (string_value (slice_of text.now lexeme))) }
{
    let string = slice(text.as_bytes(), lexeme);
    let said = contents(alloc, after_quote(string))?;
    text_of(alloc, said.as_slice())
}
