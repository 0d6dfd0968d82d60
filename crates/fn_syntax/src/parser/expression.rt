//! Expressions: operators by their levels, signs, and what stands behind a primary expression.
ghost use Rattle.std.specs.Prelude.{◌≡◌, ◌<◌, ◌≤◌, length, IfOk, IfSome};
ghost use Rattle.fn_tree.specs.Grammar.Prod.{rule, token, turns, seq};
ghost use Rattle.fn_tree.specs.Grammar.Bound.{up_to};
ghost use Rattle.fn_tree.specs.Language.{closed_expression};
ghost use Rattle.fn_tree.specs.ParseTrees as tree;
ghost use Rattle.fn_tree.specs.Rules as rules;
ghost use Rattle.fn_tree.specs.SyntaxViews.{expr_view, form_view};
ghost use Rattle.fn_tree.specs.Terminals.{is_sign};
ghost use Rattle.fn_syntax.specs.Descents.{IsDescent};
ghost use Rattle.fn_syntax.specs.Levels.{rule_of, operand_of, operators_of, tree_of, operand_tree_of};
ghost use Rattle.fn_syntax.specs.Means.{IsClosed, IsClosing, IsSigned};

use crate::parser::class::{Class, operator_of, sign_of};
use crate::parser::cursor::{Parsed, accept, accept_mark, expect_mark, next_is};
use crate::parser::name::expect_name;
use crate::parser::primary::primary;
use cv_values::Memory;
use fn_tree::{Expr, ExprForm, Lexeme, Mark, Terminal};
use std::alloc::Global;

// How many operators one chain has at most.
const MOST_TURNS: u8 = 16;

/// A level of operators that stand between operands, loosest first.
#[derive(Clone, Copy, Debug)]
pub(crate) enum Level {
    Or,
    And,
    Sum,
    Term,
}

impl Level {
    fn operators(self) -> Class
        ensures { result ≡ operators_of self }
    {
        match self {
            Level::Or => Class::Only(Terminal::Mark(Mark::OrOr)),
            Level::And => Class::Only(Terminal::Mark(Mark::AndAnd)),
            Level::Sum => Class::Additive,
            Level::Term => Class::Multiplicative,
        }
    }
}

/// An expression.
#[cycle(expressions)]
pub(crate) fn expression<'t>(alloc: Global, text: &str, tokens: &'t [Lexeme]) -> Parsed<'t, Expr>
    ensures is { IsDescent (rule rules.expression) (λ e a. expr_view e ≡ tree.expression_of text.now a) tokens.now result }
    ensures shorter { IfOk result (λ x. length x.1.now < length tokens.now) }
{
    chain(alloc, text, tokens, Level::Or)
}

// Two operands with the operator between them.
fn joined(alloc: Global, left: Expr, operator: Lexeme, right: Expr) -> Result<Expr, Memory>
    ensures { IfOk result (λ e. expr_view e ≡ tree.joined (expr_view left) operator (expr_view right)) }
{
    Expr::new(
        alloc,
        left.at,
        ExprForm::Binary(operator_of(operator.terminal), left, right),
    )
}

// Operands with operators of the level between them.
#[cycle(expressions)]
fn chain<'t>(alloc: Global, text: &str, tokens: &'t [Lexeme], level: Level) -> Parsed<'t, Expr>
    ensures is { IsDescent (rule (rule_of level)) (λ e a. expr_view e ≡ tree_of level text.now a) tokens.now result }
    ensures shorter { IfOk result (λ x. length x.1.now < length tokens.now) }
{
    let (mut left, mut rest) = operand(alloc, text, tokens, level)?;
    for _turn in 0..MOST_TURNS {
        let Some((operator, after)) = accept(rest, level.operators()) else {
            return Ok((left, rest));
        };
        let (right, after) = operand(alloc, text, after, level)?;
        left = joined(alloc, left, operator, right)?;
        rest = after;
    }
    Ok((left, rest))
}

#[cycle(expressions)]
fn operand<'t>(alloc: Global, text: &str, tokens: &'t [Lexeme], level: Level) -> Parsed<'t, Expr>
    ensures is { IsDescent (rule (operand_of level)) (λ e a. expr_view e ≡ operand_tree_of level text.now a) tokens.now result }
    ensures shorter { IfOk result (λ x. length x.1.now < length tokens.now) }
{
    match level {
        Level::Or => chain(alloc, text, tokens, Level::And),
        Level::And => comparison(alloc, text, tokens),
        Level::Sum => chain(alloc, text, tokens, Level::Term),
        Level::Term => unary(alloc, text, tokens, MOST_TURNS),
    }
}

// Two sums with a comparison between them, or one sum.
#[cycle(expressions)]
fn comparison<'t>(alloc: Global, text: &str, tokens: &'t [Lexeme]) -> Parsed<'t, Expr>
    ensures is { IsDescent (rule rules.comparison) (λ e a. expr_view e ≡ tree.comparison_of text.now a) tokens.now result }
    ensures shorter { IfOk result (λ x. length x.1.now < length tokens.now) }
{
    let (left, rest) = chain(alloc, text, tokens, Level::Sum)?;
    let Some((operator, after)) = accept(rest, Class::Comparison) else {
        return Ok((left, rest));
    };
    let (right, rest) = chain(alloc, text, after, Level::Sum)?;
    Ok((joined(alloc, left, operator, right)?, rest))
}

// A sign, where one is next and one more may stand.
fn next_sign(tokens: &[Lexeme], most: u8) -> Option<(Lexeme, &[Lexeme])>
    ensures is { IsSigned most tokens.now result }
    ensures shorter { IfSome result (λ x. length x.1.now < length tokens.now) }
{
    if most == 0 {
        return None;
    }
    accept(tokens, Class::Sign)
}

// Signs, at most so many, before an operand.
#[cycle(expressions)]
fn unary<'t>(alloc: Global, text: &str, tokens: &'t [Lexeme], most: u8) -> Parsed<'t, Expr>
    ensures is { IsDescent (seq (turns (up_to most) (token is_sign)) (rule rules.postfix)) (λ e a. expr_view e ≡ tree.unary_of text.now a) tokens.now result }
    ensures shorter { IfOk result (λ x. length x.1.now < length tokens.now) }
{
    let Some((sign, after)) = next_sign(tokens, most) else {
        return postfix(alloc, text, tokens);
    };
    let (value, rest) = unary(alloc, text, after, most - 1)?;
    let form = ExprForm::Unary(sign_of(sign.terminal), value);
    Ok((Expr::new(alloc, sign.at, form)?, rest))
}

// A primary expression with fields and items behind it.
#[cycle(expressions)]
fn postfix<'t>(alloc: Global, text: &str, tokens: &'t [Lexeme]) -> Parsed<'t, Expr>
    ensures is { IsDescent (rule rules.postfix) (λ e a. expr_view e ≡ tree.postfix_of text.now a) tokens.now result }
    ensures shorter { IfOk result (λ x. length x.1.now < length tokens.now) }
{
    let (mut value, mut rest) = primary(alloc, text, tokens)?;
    for _turn in 0..MOST_TURNS {
        if !next_is(rest, Class::Suffix) {
            return Ok((value, rest));
        }
        (value, rest) = suffix(alloc, text, rest, value)?;
    }
    Ok((value, rest))
}

// A field of an expression by its name, or an item.
#[cycle(expressions)]
fn suffix<'t>(alloc: Global, text: &str, tokens: &'t [Lexeme], value: Expr) -> Parsed<'t, Expr>
    ensures is { IsDescent (rule rules.suffix) (λ e a. expr_view e ≡ tree.suffix_of text.now (expr_view value) a) tokens.now result }
    ensures shorter { IfOk result (λ x. length x.1.now < length tokens.now) }
{
    if let Some((_, after)) = accept_mark(tokens, Mark::Dot) {
        let (name, rest) = expect_name(alloc, text, after)?;
        return Ok((
            Expr::new(alloc, value.at, ExprForm::Field(value, name))?,
            rest,
        ));
    }
    let (_, after) = expect_mark(tokens, Mark::OpenBracket)?;
    let (index, rest) = closed_expression(alloc, text, after, Mark::CloseBracket)?;
    Ok((
        Expr::new(alloc, value.at, ExprForm::Item(value, index))?,
        rest,
    ))
}

/// An expression and the mark that closes it.
#[cycle(expressions)]
pub(crate) fn closed_expression<'t>(
    alloc: Global,
    text: &str,
    tokens: &'t [Lexeme],
    close: Mark,
) -> Parsed<'t, Expr>
    requires { IsClosing close }
    ensures is { IsDescent (closed_expression close) (IsClosed text.now) tokens.now result }
    ensures shorter { IfOk result (λ x. length x.1.now < length tokens.now) }
{
    let (value, rest) = expression(alloc, text, tokens)?;
    let (_, rest) = expect_mark(rest, close)?;
    Ok((value, rest))
}
