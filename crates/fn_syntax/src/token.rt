ghost use Rattle.std.specs.Prelude.{◌≡◌, IfOk, IfErr, Some, None, map, length};
ghost use Rattle.fn_tree.specs.Lexemes.{lexemes_of};
ghost use Rattle.fn_syntax.specs.Tokens.{kind_of, token_of, tokens_of, StandApart};

use crate::lexer::lex;
use cv_values::Memory;
use fn_tree::{Lexeme, SyntaxFault, Terminal, Why};
use std::alloc::Global;

/// What a token is.
#[derive(Clone, Copy, Debug, PartialEq, Eq)]
pub enum TokenKind {
    Name,
    Reserved,
    Integer,
    Str,
    Mark,
}

/// A token of a text: its kind, and its place and length in bytes.
#[derive(Clone, Copy, Debug, PartialEq, Eq)]
pub struct Token {
    pub kind: TokenKind,
    pub at: u64,
    pub len: u64,
}

fn kind_of(terminal: Terminal) -> TokenKind
    ensures { result ≡ kind_of terminal }
{
    match terminal {
        Terminal::Name => TokenKind::Name,
        Terminal::Integer => TokenKind::Integer,
        Terminal::Str => TokenKind::Str,
        Terminal::Word(_) => TokenKind::Reserved,
        Terminal::Mark(_) => TokenKind::Mark,
    }
}

fn token_of(lexeme: Lexeme) -> Token
    ensures { result ≡ token_of lexeme }
{
    Token {
        kind: kind_of(lexeme.terminal),
        at: lexeme.at,
        len: lexeme.len,
    }
}

fn tokens_from(alloc: Global, lexemes: &[Lexeme]) -> Result<Vec<Token>, Memory>
    ensures { IfOk result (λ ts. ts.items ≡ map token_of lexemes.now) }
{
    Ok(
        lexemes
            .iter()
            .map(|lexeme| token_of(*lexeme))
            .collect(alloc)?,
    )
}

/// The tokens of a text of any length, in order, without what parts them. A fault is always `BadToken`.
pub fn tokens(alloc: Global, text: &str) -> Result<Result<Vec<Token>, SyntaxFault>, Memory>
    ensures good { IfOk result (λ r. IfOk r (λ ts. (ts.items ≡ tokens_of text.now) × ((lexemes_of text.now).bad ≡ None))) }
    ensures places { IfOk result (λ r. IfOk r (λ ts. StandApart 0 (length text.now) ts.items)) }
    ensures bad { IfOk result (λ r. IfErr r (λ fault. (lexemes_of text.now).bad ≡ Some fault.at)) }
    ensures why { IfOk result (λ r. IfErr r (λ fault. fault.why ≡ Why.BadToken)) }
{
    let lexed = lex(alloc, text)?;
    match lexed.bad {
        Some(at) => Ok(Err(SyntaxFault {
            at,
            why: Why::BadToken,
        })),
        None => Ok(Ok(tokens_from(alloc, lexed.lexemes.as_slice())?)),
    }
}
