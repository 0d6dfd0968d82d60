//! Lists with commas between their items.
ghost use Rattle.std.specs.Prelude.{◌≡◌, ◌<◌, ◌≤◌, length, map, IfOk};
ghost use Rattle.fn_tree.specs.Grammar.Prod.{rule, token, turns, seq};
ghost use Rattle.fn_tree.specs.Grammar.{opt};
ghost use Rattle.fn_tree.specs.Language.{closed_expression, expressions, commas, closed};
ghost use Rattle.fn_tree.specs.ParseTrees as tree;
ghost use Rattle.fn_tree.specs.Rules as rules;
ghost use Rattle.fn_tree.specs.SyntaxViews.{expr_view, form_view};
ghost use Rattle.fn_syntax.specs.Classes.{has};
ghost use Rattle.fn_syntax.specs.Descents.{IsDescent};
ghost use Rattle.fn_syntax.specs.Means as means;

use crate::parser::class::Class;
use crate::parser::cursor::{Parsed, accept_mark, expect_mark};
use crate::parser::expression::expression;
use crate::parser::name::expect_named;
use cv_values::Seq;
use fn_tree::{Expr, Lexeme, Mark, Named};
use std::alloc::Global;

/// One or more names, of tokens of the class.
pub(crate) fn names<'t>(
    alloc: Global,
    text: &str,
    tokens: &'t [Lexeme],
    class: Class,
) -> Parsed<'t, Vec<Named>>
    ensures is { IsDescent (commas (token (has class))) (λ ns a. ns.items ≡ means.names_of text.now a) tokens.now result }
    ensures shorter { IfOk result (λ x. length x.1.now < length tokens.now) }
{
    let (first, mut rest) = expect_named(alloc, text, tokens, class)?;
    let mut names = Seq::new(alloc);
    names.push(first)?;
    while let Some((_, after)) = accept_mark(rest, Mark::Comma) {
        let (name, after) = expect_named(alloc, text, after, class)?;
        names.push(name)?;
        rest = after;
    }
    Ok((names.into_vec(), rest))
}

/// Expressions, or none, and the mark that closes them.
#[cycle(expressions)]
pub(crate) fn expressions<'t>(
    alloc: Global,
    text: &str,
    tokens: &'t [Lexeme],
    close: Mark,
) -> Parsed<'t, Vec<Expr>>
    requires { means.IsListClosing close }
    ensures is { IsDescent (expressions close) (λ es a. means.exprs_view es ≡ tree.closed_exprs_of text.now a) tokens.now result }
    ensures shorter { IfOk result (λ x. length x.1.now < length tokens.now) }
{
    if let Some((_, rest)) = accept_mark(tokens, close) {
        return Ok((Vec::new(alloc), rest));
    }
    let (values, rest) = expression_list(alloc, text, tokens)?;
    let (_, rest) = expect_mark(rest, close)?;
    Ok((values, rest))
}

/// One or more expressions.
#[cycle(expressions)]
pub(crate) fn expression_list<'t>(
    alloc: Global,
    text: &str,
    tokens: &'t [Lexeme],
) -> Parsed<'t, Vec<Expr>>
    ensures is { IsDescent (commas (rule rules.expression)) (λ es a. means.exprs_view es ≡ tree.exprs_of text.now a) tokens.now result }
    ensures shorter { IfOk result (λ x. length x.1.now < length tokens.now) }
{
    let (first, mut rest) = expression(alloc, text, tokens)?;
    let mut values = Seq::new(alloc);
    values.push(first)?;
    while let Some((_, after)) = accept_mark(rest, Mark::Comma) {
        let (value, after) = expression(alloc, text, after)?;
        values.push(value)?;
        rest = after;
    }
    Ok((values.into_vec(), rest))
}

/// The entries of an object, or none, and the bracket that closes them.
#[cycle(expressions)]
pub(crate) fn entries<'t>(
    alloc: Global,
    text: &str,
    tokens: &'t [Lexeme],
) -> Parsed<'t, Vec<(Named, Expr)>>
    ensures is { IsDescent (closed Mark.CloseBrace (opt (commas (rule rules.entry)))) (λ es a. means.entries_view es ≡ tree.closed_entries_of text.now a) tokens.now result }
    ensures shorter { IfOk result (λ x. length x.1.now < length tokens.now) }
{
    if let Some((_, rest)) = accept_mark(tokens, Mark::CloseBrace) {
        return Ok((Vec::new(alloc), rest));
    }
    let (entries, rest) = entry_list(alloc, text, tokens)?;
    let (_, rest) = expect_mark(rest, Mark::CloseBrace)?;
    Ok((entries, rest))
}

#[cycle(expressions)]
fn entry_list<'t>(alloc: Global, text: &str, tokens: &'t [Lexeme]) -> Parsed<'t, Vec<(Named, Expr)>>
    ensures is { IsDescent (commas (rule rules.entry)) (λ es a. means.entries_view es ≡ tree.entries_of text.now a) tokens.now result }
    ensures shorter { IfOk result (λ x. length x.1.now < length tokens.now) }
{
    let (first, mut rest) = entry(alloc, text, tokens)?;
    let mut entries = Seq::new(alloc);
    entries.push(first)?;
    while let Some((_, after)) = accept_mark(rest, Mark::Comma) {
        let (entry, after) = entry(alloc, text, after)?;
        entries.push(entry)?;
        rest = after;
    }
    Ok((entries.into_vec(), rest))
}

// A field and its value.
#[cycle(expressions)]
fn entry<'t>(alloc: Global, text: &str, tokens: &'t [Lexeme]) -> Parsed<'t, (Named, Expr)>
    ensures is { IsDescent (rule rules.entry) (λ e a. means.IsEntryOf text.now (e.0, expr_view e.1) a) tokens.now result }
    ensures shorter { IfOk result (λ x. length x.1.now < length tokens.now) }
{
    let (name, rest) = expect_named(alloc, text, tokens, Class::FieldName)?;
    let (_, rest) = expect_mark(rest, Mark::Colon)?;
    let (value, rest) = expression(alloc, text, rest)?;
    Ok(((name, value), rest))
}
