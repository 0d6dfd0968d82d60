ghost use Rattle.std.specs.Prelude.{◌≡◌, ◌<◌, length, IfOk};
ghost use Rattle.fn_tree.specs.Grammar.Prod.{token};
ghost use Rattle.fn_tree.specs.Language.{name, string};
ghost use Rattle.fn_tree.specs.ParseTrees.{named_of, said, token_of};
ghost use Rattle.fn_syntax.specs.Classes.{has};
ghost use Rattle.fn_syntax.specs.Descents.{IsDescent};

use crate::parser::class::Class;
use crate::parser::cursor::{Parsed, expect};
use crate::value::{name_of, string_of};
use cv_values::{Memory, Text};
use fn_tree::{Lexeme, Named, Terminal};
use std::alloc::Global;

/// What a name says, or a string.
pub(crate) fn said(alloc: Global, text: &str, lexeme: Lexeme) -> Result<Text, Memory>
    ensures { IfOk result (λ t. t ≡ said text.now lexeme) }
{
    match lexeme.terminal {
        Terminal::Str => string_of(alloc, text, lexeme),
        _ => name_of(alloc, text, lexeme),
    }
}

/// A name or a string as a name with its place.
pub(crate) fn named_of(alloc: Global, text: &str, lexeme: Lexeme) -> Result<Named, Memory>
    ensures { IfOk result (λ n. n ≡ named_of text.now lexeme) }
{
    Ok(Named {
        at: lexeme.at,
        text: said(alloc, text, lexeme)?,
        quoted: matches!(lexeme.terminal, Terminal::Str),
    })
}

/// A token of the class as a name.
pub(crate) fn expect_named<'t>(
    alloc: Global,
    text: &str,
    tokens: &'t [Lexeme],
    class: Class,
) -> Parsed<'t, Named>
    ensures is { IsDescent (token (has class)) (λ n a. n ≡ named_of text.now (token_of a)) tokens.now result }
    ensures shorter { IfOk result (λ x. length x.1.now < length tokens.now) }
{
    let (lexeme, rest) = expect(tokens, class)?;
    Ok((named_of(alloc, text, lexeme)?, rest))
}

/// A name.
pub(crate) fn expect_name<'t>(alloc: Global, text: &str, tokens: &'t [Lexeme]) -> Parsed<'t, Named>
    ensures is { IsDescent name (λ n a. n ≡ named_of text.now (token_of a)) tokens.now result }
    ensures shorter { IfOk result (λ x. length x.1.now < length tokens.now) }
{
    expect_named(alloc, text, tokens, Class::Only(Terminal::Name))
}

/// A string that stands for a name.
pub(crate) fn expect_string<'t>(
    alloc: Global,
    text: &str,
    tokens: &'t [Lexeme],
) -> Parsed<'t, Named>
    ensures is { IsDescent string (λ n a. n ≡ named_of text.now (token_of a)) tokens.now result }
    ensures shorter { IfOk result (λ x. length x.1.now < length tokens.now) }
{
    expect_named(alloc, text, tokens, Class::Only(Terminal::Str))
}
