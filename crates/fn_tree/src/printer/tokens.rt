ghost use Rattle.std.specs.Prelude.{◌≡◌, ◌++◌, IfOk, string_bytes, encode_utf8, codes};
ghost use Rattle.fn_tree.specs.Canonical as canonical;
ghost use Rattle.fn_tree.specs.Canonical.{token, escaped, quoted, name_text, path_text, apart};
ghost use Rattle.std.specs.Fmt.{signed_decimal};
ghost use Rattle.std.specs.List.{flat_map};

use crate::lexeme::{Mark, Word};
use crate::syntax::Named;
use cv_values::Memory;
use std::alloc::Global;

/// Appends a token, with a blank before it.
pub fn put_token(out: &mut String, text: &str) -> Result<(), Memory>
    ensures { IfOk result (λ done. string_bytes out.new ≡ string_bytes out.old ++ token text.now) }
{
    out.push(' ')?;
    out.push_str(text)?;
    Ok(())
}

pub fn put_word(out: &mut String, word: Word) -> Result<(), Memory>
    ensures { IfOk result (λ done. string_bytes out.new ≡ string_bytes out.old ++ canonical.word word) }
{
    put_token(out, word.spelling())
}

pub fn put_mark(out: &mut String, mark: Mark) -> Result<(), Memory>
    ensures { IfOk result (λ done. string_bytes out.new ≡ string_bytes out.old ++ canonical.mark mark) }
{
    put_token(out, mark.spelling())
}

/// Appends a comma, but for the first of some parts.
pub fn put_comma(out: &mut String, first: bool) -> Result<(), Memory>
    ensures { IfOk result (λ done. string_bytes out.new ≡ string_bytes out.old ++ canonical.comma first) }
{
    if first {
        return Ok(());
    }
    put_mark(out, Mark::Comma)
}

/// Appends the line feed behind a table or a function.
pub fn put_end(out: &mut String) -> Result<(), Memory>
    ensures { IfOk result (λ done. string_bytes out.new ≡ string_bytes out.old ++ codes "\n") }
{
    out.push('\n')?;
    Ok(())
}

pub fn put_integer(alloc: Global, out: &mut String, n: i64) -> Result<(), Memory>
    ensures { IfOk result
        (λ done. string_bytes out.new ≡ string_bytes out.old ++ token (signed_decimal n)) }
{
    let digits = n.to_string(alloc)?;
    put_token(out, digits.as_str())
}

pub fn put_string(out: &mut String, text: &str) -> Result<(), Memory>
    ensures { IfOk result
        (λ done. string_bytes out.new ≡ string_bytes out.old ++ token (quoted text.now)) }
{
    out.push_str(" \"")?;
    put_escaped(out, text)?;
    out.push('"')?;
    Ok(())
}

fn put_escaped(out: &mut String, text: &str) -> Result<(), Memory>
    ensures { IfOk result
        (λ done. string_bytes out.new ≡ string_bytes out.old ++ flat_map escaped text.now) }
{
    for c in text.chars() {
        put_escaped_char(out, c)?;
    }
    Ok(())
}

// Appends a character as it is written in a string.
#[tactic(auto, using(crate::proofs::Characters::plain_in_string))]
fn put_escaped_char(out: &mut String, c: char) -> Result<(), Memory>
    ensures { IfOk result
        (λ done. string_bytes out.new ≡ string_bytes out.old ++ flat_map escaped (encode_utf8 c)) }
{
    match c {
        '"' => out.push_str("\\\"")?,
        '\\' => out.push_str("\\\\")?,
        '\n' => out.push_str("\\n")?,
        '\t' => out.push_str("\\t")?,
        c => out.push(c)?,
    }
    Ok(())
}

#[tactic(auto, unfolding(crate::specs::Canonical::name_text))]
pub fn put_name(out: &mut String, name: &Named) -> Result<(), Memory>
    ensures { IfOk result
        (λ done. string_bytes out.new ≡ string_bytes out.old ++ name_text name.now) }
{
    if name.quoted {
        put_string(out, name.text.as_str())
    } else {
        put_token(out, name.text.as_str())
    }
}

pub fn put_path(out: &mut String, udf: &str) -> Result<(), Memory>
    ensures { IfOk result
        (λ done. string_bytes out.new ≡ string_bytes out.old ++ path_text udf.now) }
{
    out.push(' ')?;
    put_parts(out, udf)
}

fn put_parts(out: &mut String, udf: &str) -> Result<(), Memory>
    ensures { IfOk result
        (λ done. string_bytes out.new ≡ string_bytes out.old ++ flat_map apart udf.now) }
{
    for c in udf.chars() {
        put_part_char(out, c)?;
    }
    Ok(())
}

// Appends a character of a path, with a blank on each side of a slash or a colon.
#[tactic(auto, using(crate::proofs::Characters::plain_in_path))]
fn put_part_char(out: &mut String, c: char) -> Result<(), Memory>
    ensures { IfOk result
        (λ done. string_bytes out.new ≡ string_bytes out.old ++ flat_map apart (encode_utf8 c)) }
{
    match c {
        '/' => out.push_str(" / ")?,
        ':' => out.push_str(" : ")?,
        c => out.push(c)?,
    }
    Ok(())
}
