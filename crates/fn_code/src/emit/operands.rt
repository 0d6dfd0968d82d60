//! Operands, and lists that instructions have.
ghost use Rattle.std.specs.Prelude.{◌≡◌, ◌++◌, map, option_map, IfOk};
ghost use Rattle.fn_tree.specs.SyntaxViews.{expr_view, bound_view, exprs_of, entries_of, bounds_of, limit_of};
ghost use Rattle.fn_code.specs.Coding.{slot_at, source_of, decided_by, sources_of, count_of, names_of, ops_of, is_limited};

use crate::code::Source;
use crate::known::Known;
use cv_values::{Memory, Seq, Text};
use fn_tree::{BinaryOp, BoundExpr, CompareOp, Expr, ExprForm, Named};
use std::alloc::Global;

/// The slot of an operand that is a variable.
#[cycle(slot)]
pub fn slot_at(known: &Known, e: &Expr) -> Option<u64>
    ensures { result ≡ slot_at known.now (expr_view e.now) }
{
    match e.form.as_ref() {
        ExprForm::Var(name) => known.slot(name),
        ExprForm::Group(e) => slot_at(known, e),
        _ => None,
    }
}

pub fn source_of(slot: Option<u64>) -> Source
    ensures { result ≡ source_of slot }
{
    match slot {
        None => Source::Top,
        Some(slot) => Source::Slot(slot),
    }
}

/// The truth value of a left side that decides.
pub fn decided_by(op: BinaryOp) -> Option<bool>
    ensures { result ≡ decided_by op }
{
    match op {
        BinaryOp::Or => Some(true),
        BinaryOp::And => Some(false),
        BinaryOp::Compare(_)
        | BinaryOp::Add
        | BinaryOp::Subtract
        | BinaryOp::Multiply
        | BinaryOp::Divide
        | BinaryOp::Remainder => None,
    }
}

/// Where the operands are.
pub fn sources_of(alloc: Global, known: &Known, es: &[Expr]) -> Result<Seq<Source>, Memory>
    ensures { IfOk result (λ sources. sources ≡ sources_of known.now (exprs_of (map expr_view es.now))) }
{
    let mut sources = Seq::new(alloc);
    for e in es {
        sources.push(source_of(slot_at(known, e)))?;
    }
    Ok(sources)
}

pub fn count_of(es: &[Expr]) -> u64
    ensures { result ≡ count_of (exprs_of (map expr_view es.now)) }
{
    es.len() as u64
}

/// The names of an object's entries.
pub fn names_of(alloc: Global, entries: &[(Named, Expr)]) -> Result<Seq<Text>, Memory>
    ensures { IfOk result (λ names. names ≡ names_of (entries_of (map (λ p. (p.0, expr_view p.1)) entries.now))) }
{
    let mut names = Seq::new(alloc);
    for (name, _) in entries {
        names.push(name.text.copy(alloc)?)?;
    }
    Ok(names)
}

/// The operators of a scan's bounds.
pub fn ops_of(alloc: Global, bounds: &[BoundExpr]) -> Result<Seq<CompareOp>, Memory>
    ensures { IfOk result (λ ops. ops ≡ ops_of (bounds_of (map bound_view bounds.now))) }
{
    let mut ops = Seq::new(alloc);
    for bound in bounds {
        ops.push(bound.op)?;
    }
    Ok(ops)
}

pub fn is_limited(take: &Option<Expr>) -> bool
    ensures { result ≡ is_limited (limit_of (option_map expr_view take.now)) }
{
    take.is_some()
}
