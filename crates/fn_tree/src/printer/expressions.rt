ghost use Rattle.std.specs.Prelude.{◌≡◌, true, ◌++◌, IfOk, string_bytes, map};
ghost use Rattle.std.specs.Option.{option_map};
ghost use Rattle.fn_tree.specs.Canonical as canonical;
ghost use Rattle.fn_tree.specs.Canonical.{mark, name_text, expr_text, form_text, exprs_text, entries_text, bounds_text, limit_text, order_text, comparison_mark, operator_mark, sign_mark, builtin_word};
ghost use Rattle.fn_tree.specs.SyntaxViews.{expr_view, form_view, bound_view, exprs_of, entries_of, bounds_of, limit_of};
ghost use Rattle.fn_tree.specs.declared.lexeme.Mark.TheVariants.{OpenParen, CloseParen, OpenBrace, CloseBrace, Comma};
ghost use Rattle.fn_tree.specs.declared.lexeme.Word.TheVariants.{Scan, Count, Now, Insert};

use crate::lexeme::{Mark, Word};
use crate::printer::tokens::{
    put_comma, put_integer, put_mark, put_name, put_string, put_token, put_word,
};
use crate::syntax::{BinaryOp, BoundExpr, Builtin, CompareOp, Expr, ExprForm, Named, UnaryOp};
use cv_values::Memory;
use std::alloc::Global;

fn comparison_mark(op: CompareOp) -> Mark
    ensures { result ≡ comparison_mark op }
{
    match op {
        CompareOp::Equal => Mark::Equal,
        CompareOp::NotEqual => Mark::NotEqual,
        CompareOp::Less => Mark::Less,
        CompareOp::LessEqual => Mark::LessEqual,
        CompareOp::Greater => Mark::Greater,
        CompareOp::GreaterEqual => Mark::GreaterEqual,
    }
}

fn operator_mark(op: BinaryOp) -> Mark
    ensures { result ≡ operator_mark op }
{
    match op {
        BinaryOp::Or => Mark::OrOr,
        BinaryOp::And => Mark::AndAnd,
        BinaryOp::Compare(op) => comparison_mark(op),
        BinaryOp::Add => Mark::Plus,
        BinaryOp::Subtract => Mark::Minus,
        BinaryOp::Multiply => Mark::Star,
        BinaryOp::Divide => Mark::Slash,
        BinaryOp::Remainder => Mark::Percent,
    }
}

fn sign_mark(op: UnaryOp) -> Mark
    ensures { result ≡ sign_mark op }
{
    match op {
        UnaryOp::Negate => Mark::Minus,
        UnaryOp::Not => Mark::Not,
    }
}

fn builtin_word(builtin: Builtin) -> Word
    ensures { result ≡ builtin_word builtin }
{
    match builtin {
        Builtin::Len => Word::Len,
        Builtin::Has => Word::Has,
        Builtin::Push => Word::Push,
        Builtin::Set => Word::Set,
        Builtin::Without => Word::Without,
        Builtin::Slice => Word::Slice,
        Builtin::Range => Word::Range,
        Builtin::Show => Word::Show,
        Builtin::Keys => Word::Keys,
    }
}

#[cycle(print)]
pub fn print_expr(alloc: Global, out: &mut String, e: &Expr) -> Result<(), Memory>
    ensures { IfOk result
        (λ done. string_bytes out.new ≡ string_bytes out.old ++ expr_text (expr_view e.now)) }
{
    print_form(alloc, out, &e.form)
}

#[cycle(print)]
fn print_form(alloc: Global, out: &mut String, form: &ExprForm) -> Result<(), Memory>
    ensures { IfOk result
        (λ done. string_bytes out.new ≡ string_bytes out.old ++ form_text (form_view form.now)) }
{
    match form {
        ExprForm::Int(n) => put_integer(alloc, out, *n),
        ExprForm::Str(s) => put_string(out, s.as_str()),
        ExprForm::True => put_word(out, Word::True),
        ExprForm::False => put_word(out, Word::False),
        ExprForm::Null => put_word(out, Word::Null),
        ExprForm::Var(x) => put_token(out, x.as_str()),
        ExprForm::Call(f, es) => {
            put_token(out, f.as_str())?;
            print_exprs(alloc, out, Mark::OpenParen, es, Mark::CloseParen)
        }
        ExprForm::Builtin(builtin, es) => {
            put_word(out, builtin_word(*builtin))?;
            print_exprs(alloc, out, Mark::OpenParen, es, Mark::CloseParen)
        }
        ExprForm::Array(es) => {
            print_exprs(alloc, out, Mark::OpenBracket, es, Mark::CloseBracket)
        }
        ExprForm::Object(es) => print_entries(alloc, out, es),
        ExprForm::Group(e) => {
            put_mark(out, Mark::OpenParen)?;
            print_expr(alloc, out, e)?;
            put_mark(out, Mark::CloseParen)
        }
        ExprForm::Scan {
            table,
            index,
            bounds,
            desc,
            take,
        } => {
            put_scan(out, table, index)?;
            print_bounds(alloc, out, bounds)?;
            put_order(out, *desc)?;
            print_limit(alloc, out, take)
        }
        ExprForm::Count(table) => put_count(out, table),
        ExprForm::Get(e) => {
            put_open(out, Word::Get)?;
            print_expr(alloc, out, e)?;
            put_mark(out, Mark::CloseParen)
        }
        ExprForm::Now => put_now(out),
        ExprForm::Insert(table, e) => {
            put_insert(out, table)?;
            print_expr(alloc, out, e)?;
            put_mark(out, Mark::CloseParen)
        }
        ExprForm::Delete(e) => {
            put_open(out, Word::Delete)?;
            print_expr(alloc, out, e)?;
            put_mark(out, Mark::CloseParen)
        }
        ExprForm::Patch(e, o) => {
            put_open(out, Word::Patch)?;
            print_expr(alloc, out, e)?;
            put_mark(out, Mark::Comma)?;
            print_expr(alloc, out, o)?;
            put_mark(out, Mark::CloseParen)
        }
        ExprForm::Replace(e, o) => {
            put_open(out, Word::Replace)?;
            print_expr(alloc, out, e)?;
            put_mark(out, Mark::Comma)?;
            print_expr(alloc, out, o)?;
            put_mark(out, Mark::CloseParen)
        }
        ExprForm::Field(e, name) => {
            print_expr(alloc, out, e)?;
            put_mark(out, Mark::Dot)?;
            put_name(out, name)
        }
        ExprForm::Item(e, i) => {
            print_expr(alloc, out, e)?;
            put_mark(out, Mark::OpenBracket)?;
            print_expr(alloc, out, i)?;
            put_mark(out, Mark::CloseBracket)
        }
        ExprForm::Unary(op, e) => {
            put_mark(out, sign_mark(*op))?;
            print_expr(alloc, out, e)
        }
        ExprForm::Binary(op, a, b) => {
            print_expr(alloc, out, a)?;
            put_mark(out, operator_mark(*op))?;
            print_expr(alloc, out, b)
        }
    }
}

/// Appends a word and the bracket that opens behind it.
pub fn put_open(out: &mut String, word: Word) -> Result<(), Memory>
    ensures { IfOk result
        (λ done. string_bytes out.new ≡ string_bytes out.old ++ canonical.word word ++ mark OpenParen) }
{
    put_word(out, word)?;
    put_mark(out, Mark::OpenParen)
}

fn put_scan(out: &mut String, table: &Named, index: &Named) -> Result<(), Memory>
    ensures { IfOk result
        (λ done. string_bytes out.new ≡ string_bytes out.old
        ++ canonical.word Scan ++ mark OpenParen ++ name_text table.now ++ mark Comma ++ name_text index.now) }
{
    put_open(out, Word::Scan)?;
    put_name(out, table)?;
    put_mark(out, Mark::Comma)?;
    put_name(out, index)
}

fn put_count(out: &mut String, table: &Named) -> Result<(), Memory>
    ensures { IfOk result
        (λ done. string_bytes out.new ≡ string_bytes out.old
        ++ canonical.word Count ++ mark OpenParen ++ name_text table.now ++ mark CloseParen) }
{
    put_open(out, Word::Count)?;
    put_name(out, table)?;
    put_mark(out, Mark::CloseParen)
}

fn put_now(out: &mut String) -> Result<(), Memory>
    ensures { IfOk result
        (λ done. string_bytes out.new ≡ string_bytes out.old
        ++ canonical.word Now ++ mark OpenParen ++ mark CloseParen) }
{
    put_open(out, Word::Now)?;
    put_mark(out, Mark::CloseParen)
}

fn put_insert(out: &mut String, table: &Named) -> Result<(), Memory>
    ensures { IfOk result
        (λ done. string_bytes out.new ≡ string_bytes out.old
        ++ canonical.word Insert ++ mark OpenParen ++ name_text table.now ++ mark Comma) }
{
    put_open(out, Word::Insert)?;
    put_name(out, table)?;
    put_mark(out, Mark::Comma)
}

// Appends expressions with commas between them, inside two marks.
#[cycle(print)]
fn print_exprs(
    alloc: Global,
    out: &mut String,
    opening: Mark,
    es: &[Expr],
    closing: Mark,
) -> Result<(), Memory>
    ensures { IfOk result
        (λ done. string_bytes out.new ≡ string_bytes out.old
        ++ mark opening ++ exprs_text true (exprs_of (map expr_view es.now)) ++ mark closing) }
{
    put_mark(out, opening)?;
    let mut first = true;
    for e in es {
        put_comma(out, first)?;
        print_expr(alloc, out, e)?;
        first = false;
    }
    put_mark(out, closing)
}

#[cycle(print)]
fn print_entries(alloc: Global, out: &mut String, es: &[(Named, Expr)]) -> Result<(), Memory>
    ensures { IfOk result
        (λ done. string_bytes out.new ≡ string_bytes out.old ++ mark OpenBrace
        ++ entries_text true (entries_of (map (λ p. (p.0, expr_view p.1)) es.now)) ++ mark CloseBrace) }
{
    put_mark(out, Mark::OpenBrace)?;
    let mut first = true;
    for (name, e) in es {
        put_comma(out, first)?;
        put_name(out, name)?;
        put_mark(out, Mark::Colon)?;
        print_expr(alloc, out, e)?;
        first = false;
    }
    put_mark(out, Mark::CloseBrace)
}

#[cycle(print)]
fn print_bounds(alloc: Global, out: &mut String, bounds: &[BoundExpr]) -> Result<(), Memory>
    ensures { IfOk result
        (λ done. string_bytes out.new
        ≡ string_bytes out.old ++ bounds_text (bounds_of (map bound_view bounds.now))) }
{
    for bound in bounds {
        put_mark(out, Mark::Comma)?;
        put_name(out, &bound.field)?;
        put_mark(out, comparison_mark(bound.op))?;
        print_expr(alloc, out, &bound.value)?;
    }
    Ok(())
}

// Appends the bracket that closes a scan's bounds, and the scan's order.
fn put_order(out: &mut String, desc: bool) -> Result<(), Memory>
    ensures { IfOk result
        (λ done. string_bytes out.new ≡ string_bytes out.old ++ mark CloseParen ++ order_text desc) }
{
    put_mark(out, Mark::CloseParen)?;
    if desc {
        return put_word(out, Word::Desc);
    }
    Ok(())
}

#[cycle(print)]
fn print_limit(alloc: Global, out: &mut String, take: &Option<Expr>) -> Result<(), Memory>
    ensures { IfOk result
        (λ done. string_bytes out.new
        ≡ string_bytes out.old ++ limit_text (limit_of (option_map expr_view take.now))) }
{
    match take {
        None => Ok(()),
        Some(e) => {
            put_open(out, Word::Take)?;
            print_expr(alloc, out, e)?;
            put_mark(out, Mark::CloseParen)
        }
    }
}
