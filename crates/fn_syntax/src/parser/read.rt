//! Expressions that read and write documents, and the moment of the call.
ghost use Rattle.std.specs.Prelude.{◌≡◌, ◌<◌, ◌≤◌, length, map, IfOk};
ghost use Rattle.fn_tree.specs.Grammar.Prod.{rule, token, turns, seq};
ghost use Rattle.fn_tree.specs.Grammar.{opt};
ghost use Rattle.fn_tree.specs.ParseTrees as tree;
ghost use Rattle.fn_tree.specs.Rules as rules;
ghost use Rattle.fn_tree.specs.SyntaxViews.{expr_view, form_view, bound_view};
ghost use Rattle.fn_syntax.specs.Descents.{IsDescent};
ghost use Rattle.fn_syntax.specs.Means as means;

use crate::parser::class::{Class, compare_of};
use crate::parser::cursor::{Parsed, accept, accept_mark, expect, expect_mark, expect_word};
use crate::parser::expression::{closed_expression, expression};
use crate::parser::name::{expect_named, expect_string};
use cv_values::Seq;
use fn_tree::{BoundExpr, Expr, ExprForm, Lexeme, Mark, Terminal, Word};
use std::alloc::Global;

/// A scan: table and index, bounds, the direction and the most rows.
#[cycle(expressions)]
pub(crate) fn scan<'t>(alloc: Global, text: &str, tokens: &'t [Lexeme]) -> Parsed<'t, Expr>
    ensures is { IsDescent (rule rules.scan) (λ e a. expr_view e ≡ tree.scan_of text.now a) tokens.now result }
    ensures shorter { IfOk result (λ x. length x.1.now < length tokens.now) }
{
    let (word, rest) = expect_word(tokens, Word::Scan)?;
    let (_, rest) = expect_mark(rest, Mark::OpenParen)?;
    let (table, rest) = expect_string(alloc, text, rest)?;
    let (_, rest) = expect_mark(rest, Mark::Comma)?;
    let (index, rest) = expect_string(alloc, text, rest)?;
    let (bounds, rest) = bounds(alloc, text, rest)?;
    let (_, rest) = expect_mark(rest, Mark::CloseParen)?;
    let (desc, rest) = descending(rest);
    let (take, rest) = limit(alloc, text, rest)?;
    let form = ExprForm::Scan {
        table,
        index,
        bounds,
        desc,
        take,
    };
    Ok((Expr::new(alloc, word.at, form)?, rest))
}

// Bounds, each behind a comma.
#[cycle(expressions)]
fn bounds<'t>(alloc: Global, text: &str, tokens: &'t [Lexeme]) -> Parsed<'t, Vec<BoundExpr>>
    ensures is { IsDescent means.bounds (λ bs a. means.bounds_view bs ≡ tree.bounds_of text.now a) tokens.now result }
    ensures shorter { IfOk result (λ x. length x.1.now ≤ length tokens.now) }
{
    let mut bounds = Seq::new(alloc);
    let mut rest = tokens;
    while let Some((_, after)) = accept_mark(rest, Mark::Comma) {
        let (bound, after) = bound(alloc, text, after)?;
        bounds.push(bound)?;
        rest = after;
    }
    Ok((bounds.into_vec(), rest))
}

// A field compared with a value.
#[cycle(expressions)]
fn bound<'t>(alloc: Global, text: &str, tokens: &'t [Lexeme]) -> Parsed<'t, BoundExpr>
    ensures is { IsDescent (rule rules.bound) (λ b a. means.IsBoundOf text.now (bound_view b) a) tokens.now result }
    ensures shorter { IfOk result (λ x. length x.1.now < length tokens.now) }
{
    let (field, rest) = expect_named(alloc, text, tokens, Class::FieldName)?;
    let (operator, rest) = expect(rest, Class::BoundOperator)?;
    let (value, rest) = expression(alloc, text, rest)?;
    let op = compare_of(operator.terminal);
    Ok((BoundExpr::new(field, op, value), rest))
}

// Whether the rows are wanted from the last.
fn descending(tokens: &[Lexeme]) -> (bool, &[Lexeme])
    ensures is { means.FindsDescending tokens.now result.0 result.1.now }
    ensures shorter { length result.1.now ≤ length tokens.now }
{
    match accept(tokens, Class::Only(Terminal::Word(Word::Desc))) {
        Some((_, rest)) => (true, rest),
        None => (false, tokens),
    }
}

// The most rows that are wanted.
#[cycle(expressions)]
fn limit<'t>(alloc: Global, text: &str, tokens: &'t [Lexeme]) -> Parsed<'t, Option<Expr>>
    ensures is { IsDescent means.limit (λ l a. means.limit_view l ≡ tree.limit_of text.now a) tokens.now result }
    ensures shorter { IfOk result (λ x. length x.1.now ≤ length tokens.now) }
{
    let Some((_, rest)) = accept(tokens, Class::Only(Terminal::Word(Word::Take))) else {
        return Ok((None, tokens));
    };
    let (_, rest) = expect_mark(rest, Mark::OpenParen)?;
    let (most, rest) = closed_expression(alloc, text, rest, Mark::CloseParen)?;
    Ok((Some(most), rest))
}

/// The number of documents of a table.
pub(crate) fn count<'t>(alloc: Global, text: &str, tokens: &'t [Lexeme]) -> Parsed<'t, Expr>
    ensures is { IsDescent (rule rules.count) (λ e a. expr_view e ≡ tree.count_of text.now a) tokens.now result }
    ensures shorter { IfOk result (λ x. length x.1.now < length tokens.now) }
{
    let (word, rest) = expect_word(tokens, Word::Count)?;
    let (_, rest) = expect_mark(rest, Mark::OpenParen)?;
    let (table, rest) = expect_string(alloc, text, rest)?;
    let (_, rest) = expect_mark(rest, Mark::CloseParen)?;
    Ok((Expr::new(alloc, word.at, ExprForm::Count(table))?, rest))
}

/// A document by its id, to be read or deleted.
#[cycle(expressions)]
pub(crate) fn lookup<'t>(alloc: Global, text: &str, tokens: &'t [Lexeme]) -> Parsed<'t, Expr>
    ensures is { IsDescent (rule rules.lookup) (λ e a. expr_view e ≡ tree.lookup_of text.now a) tokens.now result }
    ensures shorter { IfOk result (λ x. length x.1.now < length tokens.now) }
{
    let (word, rest) = expect(tokens, Class::Lookup)?;
    let (_, rest) = expect_mark(rest, Mark::OpenParen)?;
    let (id, rest) = closed_expression(alloc, text, rest, Mark::CloseParen)?;
    let form = lookup_as(word.terminal, id);
    Ok((Expr::new(alloc, word.at, form)?, rest))
}

fn lookup_as(terminal: Terminal, id: Expr) -> ExprForm
    ensures { form_view result ≡ tree.lookup_as terminal (expr_view id) }
{
    match terminal {
        Terminal::Word(Word::Get) => ExprForm::Get(id),
        _ => ExprForm::Delete(id),
    }
}

/// The moment of the call.
pub(crate) fn moment(alloc: Global, tokens: &[Lexeme]) -> Parsed<'_, Expr>
    ensures is { IsDescent (rule rules.moment) (λ e a. expr_view e ≡ tree.moment_of a) tokens.now result }
    ensures shorter { IfOk result (λ x. length x.1.now < length tokens.now) }
{
    let (word, rest) = expect_word(tokens, Word::Now)?;
    let (_, rest) = expect_mark(rest, Mark::OpenParen)?;
    let (_, rest) = expect_mark(rest, Mark::CloseParen)?;
    Ok((Expr::new(alloc, word.at, ExprForm::Now)?, rest))
}

/// A new document.
#[cycle(expressions)]
pub(crate) fn insertion<'t>(alloc: Global, text: &str, tokens: &'t [Lexeme]) -> Parsed<'t, Expr>
    ensures is { IsDescent (rule rules.insertion) (λ e a. expr_view e ≡ tree.insertion_of text.now a) tokens.now result }
    ensures shorter { IfOk result (λ x. length x.1.now < length tokens.now) }
{
    let (word, rest) = expect_word(tokens, Word::Insert)?;
    let (_, rest) = expect_mark(rest, Mark::OpenParen)?;
    let (table, rest) = expect_string(alloc, text, rest)?;
    let (_, rest) = expect_mark(rest, Mark::Comma)?;
    let (fields, rest) = closed_expression(alloc, text, rest, Mark::CloseParen)?;
    let form = ExprForm::Insert(table, fields);
    Ok((Expr::new(alloc, word.at, form)?, rest))
}

/// A change of a document: of some fields, or of all.
#[cycle(expressions)]
pub(crate) fn change<'t>(alloc: Global, text: &str, tokens: &'t [Lexeme]) -> Parsed<'t, Expr>
    ensures is { IsDescent (rule rules.change) (λ e a. expr_view e ≡ tree.change_of text.now a) tokens.now result }
    ensures shorter { IfOk result (λ x. length x.1.now < length tokens.now) }
{
    let (word, rest) = expect(tokens, Class::Change)?;
    let (_, rest) = expect_mark(rest, Mark::OpenParen)?;
    let (id, rest) = closed_expression(alloc, text, rest, Mark::Comma)?;
    let (fields, rest) = closed_expression(alloc, text, rest, Mark::CloseParen)?;
    let form = change_as(word.terminal, id, fields);
    Ok((Expr::new(alloc, word.at, form)?, rest))
}

fn change_as(terminal: Terminal, id: Expr, fields: Expr) -> ExprForm
    ensures { form_view result ≡ tree.change_as terminal (expr_view id) (expr_view fields) }
{
    match terminal {
        Terminal::Word(Word::Patch) => ExprForm::Patch(id, fields),
        _ => ExprForm::Replace(id, fields),
    }
}
