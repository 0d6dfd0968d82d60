ghost use Rattle.std.specs.Prelude.{◌≡◌, ◌++◌, IfOk, string_bytes, map};
ghost use Rattle.fn_tree.specs.Canonical as canonical;
ghost use Rattle.fn_tree.specs.Canonical.{mark, name_text, act_text, stmt_text, block_text};
ghost use Rattle.fn_tree.specs.SyntaxViews.{stmt_view, act_view, stmts_of};
ghost use Rattle.fn_tree.specs.declared.lexeme.Mark.TheVariants.{OpenParen, Assign};
ghost use Rattle.fn_tree.specs.declared.lexeme.Word.TheVariants.{For, In};

use crate::lexeme::{Mark, Word};
use crate::printer::expressions::{print_expr, put_open};
use crate::printer::tokens::{put_mark, put_name, put_word};
use crate::syntax::{Named, Stmt, StmtForm};
use cv_values::Memory;
use std::alloc::Global;

#[cycle(print)]
pub fn print_stmt(alloc: Global, out: &mut String, stmt: &Stmt) -> Result<(), Memory>
    ensures { IfOk result
        (λ done. string_bytes out.new ≡ string_bytes out.old ++ stmt_text (stmt_view stmt.now)) }
{
    print_act(alloc, out, &stmt.form)
}

#[cycle(print)]
fn print_act(alloc: Global, out: &mut String, act: &StmtForm) -> Result<(), Memory>
    ensures { IfOk result
        (λ done. string_bytes out.new ≡ string_bytes out.old ++ act_text (act_view act.now)) }
{
    match act {
        StmtForm::Let(name, e) => {
            put_word(out, Word::Let)?;
            put_assigned(out, name)?;
            print_expr(alloc, out, e)?;
            put_mark(out, Mark::Semicolon)
        }
        StmtForm::Assign(name, e) => {
            put_assigned(out, name)?;
            print_expr(alloc, out, e)?;
            put_mark(out, Mark::Semicolon)
        }
        StmtForm::Eval(e) => {
            print_expr(alloc, out, e)?;
            put_mark(out, Mark::Semicolon)
        }
        StmtForm::If(e, then, otherwise) => {
            put_open(out, Word::If)?;
            print_expr(alloc, out, e)?;
            put_mark(out, Mark::CloseParen)?;
            print_block(alloc, out, then)?;
            match otherwise {
                None => Ok(()),
                Some(stmts) => {
                    put_word(out, Word::Else)?;
                    print_block(alloc, out, stmts)
                }
            }
        }
        StmtForm::For(name, e, body) => {
            put_each(out, name)?;
            print_expr(alloc, out, e)?;
            put_mark(out, Mark::CloseParen)?;
            print_block(alloc, out, body)
        }
        StmtForm::Return(e) => {
            put_word(out, Word::Return)?;
            print_expr(alloc, out, e)?;
            put_mark(out, Mark::Semicolon)
        }
        StmtForm::Throw(e) => {
            put_word(out, Word::Throw)?;
            print_expr(alloc, out, e)?;
            put_mark(out, Mark::Semicolon)
        }
    }
}

// Appends a name and the mark behind it that assigns.
fn put_assigned(out: &mut String, name: &Named) -> Result<(), Memory>
    ensures { IfOk result
        (λ done. string_bytes out.new ≡ string_bytes out.old ++ name_text name.now ++ mark Assign) }
{
    put_name(out, name)?;
    put_mark(out, Mark::Assign)
}

// Appends the head of a loop, up to its expression.
fn put_each(out: &mut String, name: &Named) -> Result<(), Memory>
    ensures { IfOk result
        (λ done. string_bytes out.new ≡ string_bytes out.old
        ++ canonical.word For ++ mark OpenParen ++ name_text name.now ++ canonical.word In) }
{
    put_open(out, Word::For)?;
    put_name(out, name)?;
    put_word(out, Word::In)
}

/// Appends statements in braces.
#[cycle(print)]
pub fn print_block(alloc: Global, out: &mut String, stmts: &[Stmt]) -> Result<(), Memory>
    ensures { IfOk result
        (λ done. string_bytes out.new ≡ string_bytes out.old ++ block_text (stmts_of (map stmt_view stmts.now))) }
{
    put_mark(out, Mark::OpenBrace)?;
    for stmt in stmts {
        print_stmt(alloc, out, stmt)?;
    }
    put_mark(out, Mark::CloseBrace)
}
