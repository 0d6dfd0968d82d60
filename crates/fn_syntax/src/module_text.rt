//! The module of a text, or its first fault.
ghost use Rattle.std.specs.Prelude.{◌≡◌, ◌≤◌, IfOk, IfErr, length};
ghost use Rattle.std.specs.Str.Lossy.{utf8_valid_len};
ghost use Rattle.fn_tree.specs.ModuleTexts.{IsModuleText, IsFirstFault, IsFaultOf, longest};
ghost use Rattle.fn_tree.specs.SyntaxViews.{module_view};
ghost use Rattle.fn_syntax.specs.FirstFaults.{IsCut, fault_after, fault_at};

use crate::lexer::lex;
use crate::nesting::first_too_deep;
use crate::parser::{Stop, module};
use crate::utf8::utf8_text;
use cv_values::Memory;
use fn_tree::{Lexeme, Module, SyntaxFault, Why};
use std::alloc::Global;

const LONGEST: usize = 1_048_576;

// The tokens before the first one that is too deep, and that one.
fn cut(tokens: &[Lexeme]) -> (&[Lexeme], Option<Lexeme>)
    ensures { IsCut tokens.now result.0.now result.1 }
{
    match first_too_deep(tokens) {
        Some(index) => (&tokens[..index], Some(tokens[index])),
        None => (tokens, None),
    }
}

// The fault after tokens that begin a module.
fn fault_after(deep: Option<Lexeme>, bad: Option<u64>) -> Option<SyntaxFault>
    ensures { result ≡ fault_after deep bad }
{
    match (deep, bad) {
        (Some(lexeme), _) => Some(SyntaxFault {
            at: lexeme.at,
            why: Why::TooDeep,
        }),
        (None, Some(at)) => Some(SyntaxFault {
            at,
            why: Why::BadToken,
        }),
        (None, None) => None,
    }
}

// The fault where the tokens stop being a module before the rest.
fn fault_at(text: &str, rest: &[Lexeme], after: Option<SyntaxFault>) -> SyntaxFault
    ensures { result ≡ fault_at text.now rest.now after }
{
    match rest.first() {
        Some(wrong) => SyntaxFault {
            at: wrong.at,
            why: Why::WrongToken,
        },
        None => after.unwrap_or(SyntaxFault {
            at: text.len() as u64,
            why: Why::EarlyEnd,
        }),
    }
}

fn parse_text(alloc: Global, text: &str) -> Result<Result<Module, SyntaxFault>, Memory>
    ensures good { IfOk result (λ r. IfOk r (λ m. length text.now ≤ longest → utf8_valid_len text.now ≡ length text.now → IsModuleText text.now (module_view m))) }
    ensures bad { IfOk result (λ r. IfErr r (λ fault. IsFirstFault text.now fault.why fault.at)) }
{
    let lexed = lex(alloc, text)?;
    let (tokens, deep) = cut(lexed.lexemes.as_slice());
    let after = fault_after(deep, lexed.bad);
    match module(alloc, text, tokens) {
        Ok(module) => match after {
            Some(fault) => Ok(Err(fault)),
            None => Ok(Ok(module)),
        },
        Err(Stop::Wrong(rest)) => Ok(Err(fault_at(text, rest, after))),
        Err(Stop::Memory) => Err(Memory),
    }
}

/// The module that the bytes are a text of, or their first fault: more than 1,048,576 bytes, else bytes
/// that aren't UTF-8, else the fault of the tokens with the least place. A bracket is too deep inside 32
/// open ones; at one token this is told before a wrong token. The tokens are held at once, 24 bytes each,
/// and each is looked at a bounded number of times; names and strings are copied.
pub fn parse(alloc: Global, bytes: &[u8]) -> Result<Result<Module, SyntaxFault>, Memory>
    ensures good { IfOk result (λ r. IfOk r (λ m. IsModuleText bytes.now (module_view m))) }
    ensures bad { IfOk result (λ r. IfErr r (λ fault. IsFaultOf bytes.now fault)) }
{
    if bytes.len() > LONGEST {
        return Ok(Err(SyntaxFault {
            at: LONGEST as u64,
            why: Why::TooLong,
        }));
    }
    match utf8_text(bytes) {
        Ok(text) => parse_text(alloc, text),
        Err(at) => Ok(Err(SyntaxFault {
            at,
            why: Why::NotUtf8,
        })),
    }
}
