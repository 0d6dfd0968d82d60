//! The code of expressions.
ghost use Rattle.std.specs.Prelude.{◌≡◌, ◌++◌, map, option_map, IfOk, OnOk};
ghost use Rattle.fn_tree.specs.SyntaxTree as plain;
ghost use Rattle.fn_tree.specs.SyntaxViews.{expr_view, form_view, bound_view, exprs_of, entries_of, bounds_of, limit_of};
ghost use Rattle.fn_code.specs.Coding.{slot_at, unless_slot, source_of, expr_code, form_code, exprs_code, operands_code, entries_code, bounds_code, limit_code};

use crate::code::{Instr, Source};
use crate::emit::instructions::{emit_call, insert_of, load_of, put, scan_of};
use crate::emit::jumps::{begin_either, end_either};
use crate::emit::operands::{
    count_of, decided_by, is_limited, names_of, ops_of, slot_at, source_of, sources_of,
};
use crate::known::Known;
use cv_values::{Memory, Seq, Text};
use fn_tree::{BoundExpr, Builtin, Expr, ExprForm, Named};
use std::alloc::Global;

/// The code of an expression.
#[cycle(expressions)]
pub fn emit_expr(alloc: Global, known: &Known, out: &mut Vec<Instr>, e: &Expr) -> Result<(), Memory>
    ensures { OnOk result (out.new.items ≡ out.old.items ++ expr_code known.now (expr_view e.now)) }
{
    emit_form(alloc, known, out, &e.form)
}

#[cycle(expressions)]
fn emit_form(
    alloc: Global,
    known: &Known,
    out: &mut Vec<Instr>,
    form: &ExprForm,
) -> Result<(), Memory>
    ensures { OnOk result (out.new.items ≡ out.old.items ++ form_code known.now (form_view form.now)) }
{
    match form {
        ExprForm::Int(n) => put(out, Instr::Int(*n)),
        ExprForm::Str(s) => put(out, Instr::Str(s.copy(alloc)?)),
        ExprForm::True => put(out, Instr::Truth(true)),
        ExprForm::False => put(out, Instr::Truth(false)),
        ExprForm::Null => put(out, Instr::Null),
        ExprForm::Var(name) => put(out, load_of(known.slot(name))),
        ExprForm::Call(name, es) => {
            emit_exprs(alloc, known, out, es)?;
            emit_call(out, known.helper(name), count_of(es))
        }
        ExprForm::Builtin(builtin, es) => {
            emit_operands(alloc, known, out, es)?;
            put(out, Instr::Builtin(*builtin, sources_of(alloc, known, es)?))
        }
        ExprForm::Array(es) => {
            emit_exprs(alloc, known, out, es)?;
            put(out, Instr::Array(count_of(es)))
        }
        ExprForm::Object(entries) => {
            emit_entries(alloc, known, out, entries)?;
            put(out, Instr::Object(names_of(alloc, entries)?))
        }
        ExprForm::Group(e) => emit_expr(alloc, known, out, e),
        ExprForm::Scan {
            table,
            index,
            bounds,
            desc,
            take,
        } => {
            emit_bounds(alloc, known, out, bounds)?;
            emit_limit(alloc, known, out, take)?;
            let ops = ops_of(alloc, bounds)?;
            let numbers = known.index(&table.text, &index.text, ops.as_slice());
            put(out, scan_of(numbers, ops, *desc, is_limited(take)))
        }
        ExprForm::Count(table) => emit_count(alloc, known, out, table),
        ExprForm::Get(e) => {
            emit_expr(alloc, known, out, e)?;
            put(out, Instr::Get)
        }
        ExprForm::Now => put(out, Instr::Now),
        ExprForm::Insert(table, e) => {
            emit_expr(alloc, known, out, e)?;
            put(out, insert_of(known.table(&table.text)))
        }
        ExprForm::Delete(e) => {
            emit_expr(alloc, known, out, e)?;
            put(out, Instr::Delete)
        }
        ExprForm::Patch(e, o) => {
            emit_expr(alloc, known, out, e)?;
            emit_expr(alloc, known, out, o)?;
            put(out, Instr::Patch)
        }
        ExprForm::Replace(e, o) => {
            emit_expr(alloc, known, out, e)?;
            emit_expr(alloc, known, out, o)?;
            put(out, Instr::Replace)
        }
        ExprForm::Field(e, name) => {
            let source = emit_operand(alloc, known, out, e)?;
            put(out, Instr::Field(source, name.text.copy(alloc)?))
        }
        ExprForm::Item(e, i) => {
            let source = emit_operand(alloc, known, out, e)?;
            let place = emit_operand(alloc, known, out, i)?;
            put(out, Instr::Item(source, place))
        }
        ExprForm::Unary(op, e) => {
            let source = emit_operand(alloc, known, out, e)?;
            put(out, Instr::Unary(*op, source))
        }
        ExprForm::Binary(op, a, b) => match decided_by(*op) {
            Some(decides) => {
                emit_expr(alloc, known, out, a)?;
                let at = begin_either(out, decides)?;
                emit_expr(alloc, known, out, b)?;
                end_either(out, at, decides)
            }
            None => {
                let left = emit_operand(alloc, known, out, a)?;
                let right = emit_operand(alloc, known, out, b)?;
                put(out, Instr::Binary(*op, left, right))
            }
        },
    }
}

/// The number of a table's documents: how many its index in their order gives.
fn emit_count(
    alloc: Global,
    known: &Known,
    out: &mut Vec<Instr>,
    table: &Named,
) -> Result<(), Memory>
    ensures { OnOk result (out.new.items ≡ out.old.items ++ form_code known.now (plain.count table.now)) }
{
    let none = Seq::new(alloc);
    let index = Text::of(alloc, "by_creation_time")?;
    let numbers = known.index(&table.text, &index, none.as_slice());
    put(out, scan_of(numbers, none, false, false))?;
    let mut top = Seq::new(alloc);
    top.push(Source::Top)?;
    put(out, Instr::Builtin(Builtin::Len, top))
}

/// An operand, which needs no code where it is in a slot.
#[cycle(expressions)]
fn emit_operand(
    alloc: Global,
    known: &Known,
    out: &mut Vec<Instr>,
    e: &Expr,
) -> Result<Source, Memory>
    ensures code { OnOk result (out.new.items ≡ out.old.items ++ unless_slot (slot_at known.now (expr_view e.now)) (expr_code known.now (expr_view e.now))) }
    ensures source { IfOk result (λ source. source ≡ source_of (slot_at known.now (expr_view e.now))) }
{
    let slot = slot_at(known, e);
    if slot.is_none() {
        emit_expr(alloc, known, out, e)?;
    }
    Ok(source_of(slot))
}

/// Expressions in order, which leave their values on the stack.
#[cycle(expressions)]
fn emit_exprs(alloc: Global, known: &Known, out: &mut Vec<Instr>, es: &[Expr]) -> Result<(), Memory>
    ensures { OnOk result (out.new.items ≡ out.old.items ++ exprs_code known.now (exprs_of (map expr_view es.now))) }
{
    for e in es {
        emit_expr(alloc, known, out, e)?;
    }
    Ok(())
}

/// Those operands that aren't in slots.
#[cycle(expressions)]
fn emit_operands(
    alloc: Global,
    known: &Known,
    out: &mut Vec<Instr>,
    es: &[Expr],
) -> Result<(), Memory>
    ensures { OnOk result (out.new.items ≡ out.old.items ++ operands_code known.now (exprs_of (map expr_view es.now))) }
{
    for e in es {
        emit_operand(alloc, known, out, e)?;
    }
    Ok(())
}

#[cycle(expressions)]
fn emit_entries(
    alloc: Global,
    known: &Known,
    out: &mut Vec<Instr>,
    entries: &[(Named, Expr)],
) -> Result<(), Memory>
    ensures { OnOk result (out.new.items ≡ out.old.items ++ entries_code known.now (entries_of (map (λ p. (p.0, expr_view p.1)) entries.now))) }
{
    for (_, e) in entries {
        emit_expr(alloc, known, out, e)?;
    }
    Ok(())
}

#[cycle(expressions)]
fn emit_bounds(
    alloc: Global,
    known: &Known,
    out: &mut Vec<Instr>,
    bounds: &[BoundExpr],
) -> Result<(), Memory>
    ensures { OnOk result (out.new.items ≡ out.old.items ++ bounds_code known.now (bounds_of (map bound_view bounds.now))) }
{
    for bound in bounds {
        emit_expr(alloc, known, out, &bound.value)?;
    }
    Ok(())
}

#[cycle(expressions)]
fn emit_limit(
    alloc: Global,
    known: &Known,
    out: &mut Vec<Instr>,
    take: &Option<Expr>,
) -> Result<(), Memory>
    ensures { OnOk result (out.new.items ≡ out.old.items ++ limit_code known.now (limit_of (option_map expr_view take.now))) }
{
    match take {
        None => Ok(()),
        Some(e) => {
            emit_expr(alloc, known, out, e)?;
            put(out, Instr::AsLimit)
        }
    }
}
