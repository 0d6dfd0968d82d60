//! Statements and blocks of them.
ghost use Rattle.std.specs.Prelude.{◌≡◌, ◌<◌, ◌≤◌, length, map, IfOk};
ghost use Rattle.fn_tree.specs.Grammar.Prod.{rule, turns, seq};
ghost use Rattle.fn_tree.specs.ParseTrees as tree;
ghost use Rattle.fn_tree.specs.Rules as rules;
ghost use Rattle.fn_tree.specs.SyntaxViews.{stmt_view, stmts_of, else_view};
ghost use Rattle.fn_syntax.specs.Descents.{IsDescent};
ghost use Rattle.fn_syntax.specs.Statements as statements;

use crate::parser::class::Class;
use crate::parser::cursor::{Parsed, Stop, accept, accept_mark, expect_mark, expect_word, next_is};
use crate::parser::expression::closed_expression;
use crate::parser::name::expect_name;
use cv_values::Seq;
use fn_tree::{Lexeme, Mark, Stmt, StmtForm, Terminal, Word};
use std::alloc::Global;

/// What a statement is, told by its first tokens.
#[derive(Clone, Copy, Debug)]
pub(crate) enum StatementKind {
    Let,
    If,
    For,
    Return,
    Throw,
    Assignment,
    Evaluation,
}

/// Statements in braces.
#[cycle(statements)]
pub(crate) fn block<'t>(alloc: Global, text: &str, tokens: &'t [Lexeme]) -> Parsed<'t, Vec<Stmt>>
    ensures is { IsDescent (rule rules.block) (λ b a. stmts_of (map stmt_view b.items) ≡ tree.block_of text.now a) tokens.now result }
    ensures shorter { IfOk result (λ x. length x.1.now < length tokens.now) }
{
    let (_, rest) = expect_mark(tokens, Mark::OpenBrace)?;
    block_rest(alloc, text, rest)
}

// The statements of a block and the brace that closes it.
#[cycle(statements)]
fn block_rest<'t>(alloc: Global, text: &str, tokens: &'t [Lexeme]) -> Parsed<'t, Vec<Stmt>>
    ensures is { IsDescent statements.block_rest (λ b a. stmts_of (map stmt_view b.items) ≡ tree.closed_statements_of text.now a) tokens.now result }
    ensures shorter { IfOk result (λ x. length x.1.now < length tokens.now) }
{
    let mut body = Seq::new(alloc);
    let mut rest = tokens;
    while !next_is(rest, Class::Only(Terminal::Mark(Mark::CloseBrace))) {
        let (statement, after) = statement(alloc, text, rest)?;
        body.push(statement)?;
        rest = after;
    }
    let (_, rest) = expect_mark(rest, Mark::CloseBrace)?;
    Ok((body.into_vec(), rest))
}

/// A statement.
#[cycle(statements)]
fn statement<'t>(alloc: Global, text: &str, tokens: &'t [Lexeme]) -> Parsed<'t, Stmt>
    ensures is { IsDescent (rule rules.statement) (λ st a. stmt_view st ≡ tree.statement_of text.now a) tokens.now result }
    ensures shorter { IfOk result (λ x. length x.1.now < length tokens.now) }
{
    match next_statement(tokens) {
        None => Err(Stop::Wrong(tokens)),
        Some(StatementKind::Let) => let_statement(alloc, text, tokens),
        Some(StatementKind::If) => if_statement(alloc, text, tokens),
        Some(StatementKind::For) => for_statement(alloc, text, tokens),
        Some(StatementKind::Return) => return_statement(alloc, text, tokens),
        Some(StatementKind::Throw) => throw_statement(alloc, text, tokens),
        Some(StatementKind::Assignment) => assignment(alloc, text, tokens),
        Some(StatementKind::Evaluation) => evaluation(alloc, text, tokens),
    }
}

// What the next tokens begin.
fn next_statement(tokens: &[Lexeme]) -> Option<StatementKind>
    ensures { result ≡ statements.next_statement tokens.now }
{
    let (first, rest) = tokens.split_first()?;
    Some(match first.terminal {
        Terminal::Word(word) => worded(word),
        Terminal::Name => named(rest),
        _ => StatementKind::Evaluation,
    })
}

// What a reserved word begins.
fn worded(word: Word) -> StatementKind
    ensures { result ≡ statements.worded word }
{
    match word {
        Word::Let => StatementKind::Let,
        Word::If => StatementKind::If,
        Word::For => StatementKind::For,
        Word::Return => StatementKind::Return,
        Word::Throw => StatementKind::Throw,
        _ => StatementKind::Evaluation,
    }
}

// What a name begins, by the tokens behind it.
fn named(rest: &[Lexeme]) -> StatementKind
    ensures { result ≡ statements.named rest.now }
{
    if next_is(rest, Class::Only(Terminal::Mark(Mark::Assign))) {
        StatementKind::Assignment
    } else {
        StatementKind::Evaluation
    }
}

// A new variable.
fn let_statement<'t>(alloc: Global, text: &str, tokens: &'t [Lexeme]) -> Parsed<'t, Stmt>
    ensures is { IsDescent (rule rules.let_statement) (λ st a. stmt_view st ≡ tree.let_of text.now a) tokens.now result }
    ensures shorter { IfOk result (λ x. length x.1.now < length tokens.now) }
{
    let (word, rest) = expect_word(tokens, Word::Let)?;
    let (name, rest) = expect_name(alloc, text, rest)?;
    let (_, rest) = expect_mark(rest, Mark::Assign)?;
    let (value, rest) = closed_expression(alloc, text, rest, Mark::Semicolon)?;
    Ok((Stmt::new(word.at, StmtForm::Let(name, value)), rest))
}

// A choice by a condition.
#[cycle(statements)]
fn if_statement<'t>(alloc: Global, text: &str, tokens: &'t [Lexeme]) -> Parsed<'t, Stmt>
    ensures is { IsDescent (rule rules.if_statement) (λ st a. stmt_view st ≡ tree.if_of text.now a) tokens.now result }
    ensures shorter { IfOk result (λ x. length x.1.now < length tokens.now) }
{
    let (word, rest) = expect_word(tokens, Word::If)?;
    let (_, rest) = expect_mark(rest, Mark::OpenParen)?;
    let (condition, rest) = closed_expression(alloc, text, rest, Mark::CloseParen)?;
    let (body, rest) = block(alloc, text, rest)?;
    let (other, rest) = other_branch(alloc, text, rest)?;
    let form = StmtForm::If(condition, body, other);
    Ok((Stmt::new(word.at, form), rest))
}

// The other branch of a choice, or none.
#[cycle(statements)]
fn other_branch<'t>(
    alloc: Global,
    text: &str,
    tokens: &'t [Lexeme],
) -> Parsed<'t, Option<Vec<Stmt>>>
    ensures is { IsDescent statements.other_branch (λ b a. else_view b ≡ tree.else_of text.now a) tokens.now result }
    ensures shorter { IfOk result (λ x. length x.1.now ≤ length tokens.now) }
{
    let Some((_, rest)) = accept(tokens, Class::Only(Terminal::Word(Word::Else))) else {
        return Ok((None, tokens));
    };
    let (body, rest) = block(alloc, text, rest)?;
    Ok((Some(body), rest))
}

// A block for each item.
#[cycle(statements)]
fn for_statement<'t>(alloc: Global, text: &str, tokens: &'t [Lexeme]) -> Parsed<'t, Stmt>
    ensures is { IsDescent (rule rules.for_statement) (λ st a. stmt_view st ≡ tree.for_of text.now a) tokens.now result }
    ensures shorter { IfOk result (λ x. length x.1.now < length tokens.now) }
{
    let (word, rest) = expect_word(tokens, Word::For)?;
    let (_, rest) = expect_mark(rest, Mark::OpenParen)?;
    let (name, rest) = expect_name(alloc, text, rest)?;
    let (_, rest) = expect_word(rest, Word::In)?;
    let (items, rest) = closed_expression(alloc, text, rest, Mark::CloseParen)?;
    let (body, rest) = block(alloc, text, rest)?;
    Ok((Stmt::new(word.at, StmtForm::For(name, items, body)), rest))
}

fn return_statement<'t>(alloc: Global, text: &str, tokens: &'t [Lexeme]) -> Parsed<'t, Stmt>
    ensures is { IsDescent (rule rules.return_statement) (λ st a. stmt_view st ≡ tree.return_of text.now a) tokens.now result }
    ensures shorter { IfOk result (λ x. length x.1.now < length tokens.now) }
{
    let (word, rest) = expect_word(tokens, Word::Return)?;
    let (value, rest) = closed_expression(alloc, text, rest, Mark::Semicolon)?;
    Ok((Stmt::new(word.at, StmtForm::Return(value)), rest))
}

fn throw_statement<'t>(alloc: Global, text: &str, tokens: &'t [Lexeme]) -> Parsed<'t, Stmt>
    ensures is { IsDescent (rule rules.throw_statement) (λ st a. stmt_view st ≡ tree.throw_of text.now a) tokens.now result }
    ensures shorter { IfOk result (λ x. length x.1.now < length tokens.now) }
{
    let (word, rest) = expect_word(tokens, Word::Throw)?;
    let (value, rest) = closed_expression(alloc, text, rest, Mark::Semicolon)?;
    Ok((Stmt::new(word.at, StmtForm::Throw(value)), rest))
}

// A new value of a variable.
fn assignment<'t>(alloc: Global, text: &str, tokens: &'t [Lexeme]) -> Parsed<'t, Stmt>
    ensures is { IsDescent (rule rules.assignment) (λ st a. stmt_view st ≡ tree.assignment_of text.now a) tokens.now result }
    ensures shorter { IfOk result (λ x. length x.1.now < length tokens.now) }
{
    let (name, rest) = expect_name(alloc, text, tokens)?;
    let (_, rest) = expect_mark(rest, Mark::Assign)?;
    let (value, rest) = closed_expression(alloc, text, rest, Mark::Semicolon)?;
    Ok((Stmt::new(name.at, StmtForm::Assign(name, value)), rest))
}

// An expression alone.
fn evaluation<'t>(alloc: Global, text: &str, tokens: &'t [Lexeme]) -> Parsed<'t, Stmt>
    ensures is { IsDescent (rule rules.evaluation) (λ st a. stmt_view st ≡ tree.evaluation_of text.now a) tokens.now result }
    ensures shorter { IfOk result (λ x. length x.1.now < length tokens.now) }
{
    let (value, rest) = closed_expression(alloc, text, tokens, Mark::Semicolon)?;
    Ok((Stmt::new(value.at, StmtForm::Eval(value)), rest))
}
