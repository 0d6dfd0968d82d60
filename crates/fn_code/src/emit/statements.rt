//! The code of statements.
ghost use Rattle.std.specs.Prelude.{◌≡◌, [], ◌∷◌, ◌++◌, map, take, OnOk};
ghost use Rattle.fn_tree.specs.SyntaxViews.{act_view, stmt_view, stmts_of};
ghost use Rattle.fn_code.specs.Coding.{loop_code, act_code, stmt_code, stmts_code, block_code, turn_code, known_behind_act, known_after, known_after_all};
ghost use Rattle.fn_code.specs.declared.code.Instr.TheVariants as instr;

use crate::code::Instr;
use crate::emit::expressions::emit_expr;
use crate::emit::instructions::{put, store_of};
use crate::emit::jumps::{begin_choice, begin_loop, end_choice, end_loop, middle_of_choice};
use crate::known::Known;
use cv_values::Memory;
use fn_tree::{Named, Stmt, StmtForm};
use std::alloc::Global;

/// The code of one statement. A name that it declares is known behind it.
#[cycle(statements)]
fn emit_stmt(
    alloc: Global,
    known: &mut Known,
    out: &mut Vec<Instr>,
    stmt: &Stmt,
) -> Result<(), Memory>
    ensures code { OnOk result (out.new.items ≡ out.old.items ++ stmt_code known.old (stmt_view stmt.now)) }
    ensures known { OnOk result (known.new ≡ known_after known.old (stmt_view stmt.now)) }
{
    put(out, Instr::Spend)?;
    emit_act(alloc, known, out, &stmt.form)
}

#[cycle(statements)]
fn emit_act(
    alloc: Global,
    known: &mut Known,
    out: &mut Vec<Instr>,
    form: &StmtForm,
) -> Result<(), Memory>
    ensures code { OnOk result (out.new.items ≡ out.old.items ++ act_code known.old (act_view form.now)) }
    ensures known { OnOk result (known.new ≡ known_behind_act known.old (act_view form.now)) }
{
    match form {
        StmtForm::Let(name, e) => {
            emit_expr(alloc, known, out, e)?;
            put(out, Instr::Declare)?;
            known.declare(alloc, &name.text)
        }
        StmtForm::Assign(name, e) => {
            emit_expr(alloc, known, out, e)?;
            put(out, store_of(known.slot(&name.text)))
        }
        StmtForm::Eval(e) => {
            emit_expr(alloc, known, out, e)?;
            put(out, Instr::Discard)
        }
        StmtForm::If(test, chosen, other) => {
            emit_expr(alloc, known, out, test)?;
            let branch = begin_choice(out)?;
            emit_block(alloc, known, out, chosen)?;
            let jump = middle_of_choice(out, branch)?;
            match other {
                None => {}
                Some(other) => emit_block(alloc, known, out, other)?,
            }
            end_choice(out, jump);
            Ok(())
        }
        StmtForm::For(name, items, body) => {
            emit_expr(alloc, known, out, items)?;
            emit_loop(alloc, known, out, name, body)
        }
        StmtForm::Return(e) => {
            emit_expr(alloc, known, out, e)?;
            put(out, Instr::Return)
        }
        StmtForm::Throw(e) => {
            emit_expr(alloc, known, out, e)?;
            put(out, Instr::Throw)
        }
    }
}

/// A loop over the items of an array: each turn takes an item, runs the body and goes back.
#[cycle(statements)]
fn emit_loop(
    alloc: Global,
    known: &mut Known,
    out: &mut Vec<Instr>,
    name: &Named,
    body: &[Stmt],
) -> Result<(), Memory>
    ensures code { OnOk result (out.new.items ≡ loop_code out.old.items (turn_code known.old name.now (stmts_of (map stmt_view body.now)))) }
    ensures known { OnOk result (known.new ≡ known.old) }
{
    let turn = begin_loop(out)?;
    emit_turn(alloc, known, out, name, body)?;
    end_loop(out, turn)
}

/// Only the variables of a block's outside are kept.
fn end_block(known: &mut Known, out: &mut Vec<Instr>, outside: usize) -> Result<(), Memory>
    ensures code { OnOk result (out.new.items ≡ out.old.items ++ instr.Forget outside ∷ []) }
    ensures known { known.new ≡ record known.old { names = take outside known.old.names } }
{
    known.forget(outside);
    put(out, Instr::Forget(outside as u64))
}

/// The block of a turn, in which the item is known.
#[cycle(statements)]
fn emit_turn(
    alloc: Global,
    known: &mut Known,
    out: &mut Vec<Instr>,
    name: &Named,
    body: &[Stmt],
) -> Result<(), Memory>
    ensures code { OnOk result (out.new.items ≡ out.old.items ++ turn_code known.old name.now (stmts_of (map stmt_view body.now))) }
    ensures known { OnOk result (known.new ≡ known.old) }
{
    let outside = known.count();
    known.declare(alloc, &name.text)?;
    emit_stmts(alloc, known, out, body)?;
    end_block(known, out, outside)
}

/// Statements in order.
#[cycle(statements)]
pub fn emit_stmts(
    alloc: Global,
    known: &mut Known,
    out: &mut Vec<Instr>,
    stmts: &[Stmt],
) -> Result<(), Memory>
    ensures code { OnOk result (out.new.items ≡ out.old.items ++ stmts_code known.old (stmts_of (map stmt_view stmts.now))) }
    ensures known { OnOk result (known.new ≡ known_after_all known.old (stmts_of (map stmt_view stmts.now))) }
{
    for stmt in stmts {
        emit_stmt(alloc, known, out, stmt)?;
    }
    Ok(())
}

/// A block, whose names are known in it alone.
#[cycle(statements)]
fn emit_block(
    alloc: Global,
    known: &mut Known,
    out: &mut Vec<Instr>,
    stmts: &[Stmt],
) -> Result<(), Memory>
    ensures code { OnOk result (out.new.items ≡ out.old.items ++ block_code known.old (stmts_of (map stmt_view stmts.now))) }
    ensures known { OnOk result (known.new ≡ known.old) }
{
    let outside = known.count();
    emit_stmts(alloc, known, out, stmts)?;
    end_block(known, out, outside)
}
