//! Primary expressions: literals, names and calls, arrays, objects, groups, and what reads and writes.
ghost use Rattle.std.specs.Prelude.{◌≡◌, ◌<◌, ◌≤◌, length, map, IfOk};
ghost use Rattle.fn_tree.specs.Grammar.Prod.{rule, token, turns, seq};
ghost use Rattle.fn_tree.specs.Language.{closed_expression, expressions, commas};
ghost use Rattle.fn_tree.specs.ParseTrees as tree;
ghost use Rattle.fn_tree.specs.Rules as rules;
ghost use Rattle.fn_tree.specs.SyntaxViews.{expr_view, form_view};
ghost use Rattle.fn_syntax.specs.Descents.{IsDescent};
ghost use Rattle.fn_tree.specs.LexemeValues.{slice_of};
ghost use Rattle.fn_tree.specs.Terminals.{is_literal};
ghost use Rattle.fn_syntax.specs.Primaries.{primary_of, marked, worded, next_primary};

use crate::parser::class::{Class, builtin_of};
use crate::parser::cursor::{Parsed, Stop, accept_mark, expect, expect_mark};
use crate::parser::expression::closed_expression;
use crate::parser::list::{entries, expression_list, expressions};
use crate::parser::name::said;
use crate::parser::read::{change, count, insertion, lookup, moment, scan};
use crate::value::{integer_of, string_of};
use cv_values::Memory;
use fn_tree::{Expr, ExprForm, Lexeme, Mark, Terminal, Word};
use std::alloc::Global;

/// What an alternative of a primary expression is.
#[derive(Clone, Copy, Debug)]
pub(crate) enum PrimaryKind {
    Literal,
    Named,
    Builtin,
    Array,
    Object,
    Group,
    Scan,
    Count,
    Lookup,
    Moment,
    Insertion,
    Change,
}

// What a token begins.
fn primary_of(terminal: Terminal) -> Option<PrimaryKind>
    ensures { result ≡ primary_of terminal }
{
    match terminal {
        Terminal::Integer | Terminal::Str => Some(PrimaryKind::Literal),
        Terminal::Name => Some(PrimaryKind::Named),
        Terminal::Mark(mark) => marked(mark),
        Terminal::Word(word) => worded(word),
    }
}

fn marked(mark: Mark) -> Option<PrimaryKind>
    ensures { result ≡ marked mark }
{
    match mark {
        Mark::OpenBracket => Some(PrimaryKind::Array),
        Mark::OpenBrace => Some(PrimaryKind::Object),
        Mark::OpenParen => Some(PrimaryKind::Group),
        _ => None,
    }
}

fn worded(word: Word) -> Option<PrimaryKind>
    ensures { result ≡ worded word }
{
    match word {
        Word::True | Word::False | Word::Null => Some(PrimaryKind::Literal),
        Word::Scan => Some(PrimaryKind::Scan),
        Word::Count => Some(PrimaryKind::Count),
        Word::Get | Word::Delete => Some(PrimaryKind::Lookup),
        Word::Now => Some(PrimaryKind::Moment),
        Word::Insert => Some(PrimaryKind::Insertion),
        Word::Patch | Word::Replace => Some(PrimaryKind::Change),
        Word::Len
        | Word::Has
        | Word::Push
        | Word::Set
        | Word::Without
        | Word::Slice
        | Word::Range
        | Word::Show
        | Word::Keys => Some(PrimaryKind::Builtin),
        _ => None,
    }
}

/// A primary expression.
#[cycle(expressions)]
pub(crate) fn primary<'t>(alloc: Global, text: &str, tokens: &'t [Lexeme]) -> Parsed<'t, Expr>
    ensures is { IsDescent (rule rules.primary) (λ e a. expr_view e ≡ tree.primary_of text.now a) tokens.now result }
    ensures shorter { IfOk result (λ x. length x.1.now < length tokens.now) }
{
    match next_primary(tokens) {
        None => Err(Stop::Wrong(tokens)),
        Some(PrimaryKind::Literal) => literal(alloc, text, tokens),
        Some(PrimaryKind::Named) => named(alloc, text, tokens),
        Some(PrimaryKind::Builtin) => builtin_call(alloc, text, tokens),
        Some(PrimaryKind::Array) => array(alloc, text, tokens),
        Some(PrimaryKind::Object) => object(alloc, text, tokens),
        Some(PrimaryKind::Group) => group(alloc, text, tokens),
        Some(PrimaryKind::Scan) => scan(alloc, text, tokens),
        Some(PrimaryKind::Count) => count(alloc, text, tokens),
        Some(PrimaryKind::Lookup) => lookup(alloc, text, tokens),
        Some(PrimaryKind::Moment) => moment(alloc, tokens),
        Some(PrimaryKind::Insertion) => insertion(alloc, text, tokens),
        Some(PrimaryKind::Change) => change(alloc, text, tokens),
    }
}

// What the next token begins.
fn next_primary(tokens: &[Lexeme]) -> Option<PrimaryKind>
    ensures { result ≡ next_primary tokens.now }
{
    primary_of(tokens.first()?.terminal)
}

// An integer, a string, true, false or null.
fn literal<'t>(alloc: Global, text: &str, tokens: &'t [Lexeme]) -> Parsed<'t, Expr>
    ensures is { IsDescent (token is_literal) (λ e a. expr_view e ≡ tree.literal_of text.now (tree.token_of a)) tokens.now result }
    ensures shorter { IfOk result (λ x. length x.1.now < length tokens.now) }
{
    let (lexeme, rest) = expect(tokens, Class::Literal)?;
    let form = literal_form(alloc, text, lexeme)?;
    Ok((Expr::new(alloc, lexeme.at, form)?, rest))
}

fn literal_form(alloc: Global, text: &str, lexeme: Lexeme) -> Result<ExprForm, Memory>
    ensures { IfOk result (λ f. form_view f ≡ tree.literal_as lexeme.terminal (slice_of text.now lexeme)) }
{
    Ok(match lexeme.terminal {
        Terminal::Integer => ExprForm::Int(integer_of(text, lexeme)),
        Terminal::Str => ExprForm::Str(string_of(alloc, text, lexeme)?),
        Terminal::Word(Word::True) => ExprForm::True,
        Terminal::Word(Word::False) => ExprForm::False,
        _ => ExprForm::Null,
    })
}

// A variable, or a call where arguments follow.
#[cycle(expressions)]
fn named<'t>(alloc: Global, text: &str, tokens: &'t [Lexeme]) -> Parsed<'t, Expr>
    ensures is { IsDescent (rule rules.named) (λ e a. expr_view e ≡ tree.name_or_call_of text.now a) tokens.now result }
    ensures shorter { IfOk result (λ x. length x.1.now < length tokens.now) }
{
    let (lexeme, rest) = expect(tokens, Class::Only(Terminal::Name))?;
    let name = said(alloc, text, lexeme)?;
    let Some((_, after)) = accept_mark(rest, Mark::OpenParen) else {
        return Ok((Expr::new(alloc, lexeme.at, ExprForm::Var(name))?, rest));
    };
    let (arguments, rest) = expressions(alloc, text, after, Mark::CloseParen)?;
    let form = ExprForm::Call(name, arguments);
    Ok((Expr::new(alloc, lexeme.at, form)?, rest))
}

// A call of a builtin operation.
#[cycle(expressions)]
fn builtin_call<'t>(alloc: Global, text: &str, tokens: &'t [Lexeme]) -> Parsed<'t, Expr>
    ensures is { IsDescent (rule rules.builtin_call) (λ e a. expr_view e ≡ tree.builtin_call_of text.now a) tokens.now result }
    ensures shorter { IfOk result (λ x. length x.1.now < length tokens.now) }
{
    let (word, rest) = expect(tokens, Class::Builtin)?;
    let (_, rest) = expect_mark(rest, Mark::OpenParen)?;
    let (arguments, rest) = expression_list(alloc, text, rest)?;
    let (_, rest) = expect_mark(rest, Mark::CloseParen)?;
    let form = ExprForm::Builtin(builtin_of(word.terminal), arguments);
    Ok((Expr::new(alloc, word.at, form)?, rest))
}

#[cycle(expressions)]
fn array<'t>(alloc: Global, text: &str, tokens: &'t [Lexeme]) -> Parsed<'t, Expr>
    ensures is { IsDescent (rule rules.array) (λ e a. expr_view e ≡ tree.array_of text.now a) tokens.now result }
    ensures shorter { IfOk result (λ x. length x.1.now < length tokens.now) }
{
    let (open, rest) = expect_mark(tokens, Mark::OpenBracket)?;
    let (items, rest) = expressions(alloc, text, rest, Mark::CloseBracket)?;
    Ok((Expr::new(alloc, open.at, ExprForm::Array(items))?, rest))
}

#[cycle(expressions)]
fn object<'t>(alloc: Global, text: &str, tokens: &'t [Lexeme]) -> Parsed<'t, Expr>
    ensures is { IsDescent (rule rules.object) (λ e a. expr_view e ≡ tree.object_of text.now a) tokens.now result }
    ensures shorter { IfOk result (λ x. length x.1.now < length tokens.now) }
{
    let (open, rest) = expect_mark(tokens, Mark::OpenBrace)?;
    let (entries, rest) = entries(alloc, text, rest)?;
    Ok((Expr::new(alloc, open.at, ExprForm::Object(entries))?, rest))
}

// An expression in round brackets.
#[cycle(expressions)]
fn group<'t>(alloc: Global, text: &str, tokens: &'t [Lexeme]) -> Parsed<'t, Expr>
    ensures is { IsDescent (rule rules.group) (λ e a. expr_view e ≡ tree.group_of text.now a) tokens.now result }
    ensures shorter { IfOk result (λ x. length x.1.now < length tokens.now) }
{
    let (open, rest) = expect_mark(tokens, Mark::OpenParen)?;
    let (value, rest) = closed_expression(alloc, text, rest, Mark::CloseParen)?;
    Ok((Expr::new(alloc, open.at, ExprForm::Group(value))?, rest))
}
