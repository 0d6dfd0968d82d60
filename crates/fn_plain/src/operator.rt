//! Operators and built-in functions.
ghost use Rattle.std.specs.Prelude.{◌≡◌, Err, map};
ghost use Rattle.cv_values.specs.Trees.{tree};
ghost use Rattle.fn_tree.specs.Actions.{op_text};
ghost use Rattle.fn_tree.specs.Operators.{holds, unary_value, eager_value, builtin_value};
ghost use Rattle.fn_plain.specs.Operations.{Tells, OperationGives};

use crate::fault::{Fault, failure};
use cv_values::{Val, compare};
use fn_ops::{
    OpFault, add, array_of, divide, field, has, item, keys, length, multiply, negate, not,
    object_of, push, range, remainder, set, show, slice, subtract, without,
};
use fn_tree::{BinaryOp, Builtin, CompareOp, UnaryOp};
use std::alloc::Global;
use std::cmp::Ordering;

fn op_text(fault: OpFault) -> &'static str
    ensures { result.now ≡ op_text fault }
{
    match fault {
        OpFault::Type_ => "TypeError",
        OpFault::Overflow => "Overflow",
        OpFault::DivisionByZero => "DivisionByZero",
        OpFault::NoField => "NoField",
        OpFault::OutOfRange => "OutOfRange",
        OpFault::BadName => "BadName",
        OpFault::TooDeep => "TooDeep",
        OpFault::TooMany => "TooMany",
        OpFault::TooLarge => "TooLarge",
        OpFault::Memory => "Memory",
    }
}

/// What the fault of an operation ends a run with.
fn fault_of(alloc: Global, fault: OpFault) -> Fault
    ensures { Tells (Err fault) (Err result) }
{
    match fault {
        OpFault::Memory => Fault::Memory,
        _ => failure(alloc, op_text(fault)),
    }
}

/// What an operation gave; its fault ends the run.
pub(crate) fn given(alloc: Global, value: Result<Val, OpFault>) -> Result<Val, Fault>
    ensures { Tells value result }
{
    match value {
        Ok(v) => Ok(v),
        Err(fault) => Err(fault_of(alloc, fault)),
    }
}

fn holds(op: CompareOp, order: Ordering) -> bool
    ensures { result ≡ holds op order }
{
    match op {
        CompareOp::Equal => order.is_eq(),
        CompareOp::NotEqual => order.is_ne(),
        CompareOp::Less => order.is_lt(),
        CompareOp::LessEqual => order.is_le(),
        CompareOp::Greater => order.is_gt(),
        CompareOp::GreaterEqual => order.is_ge(),
    }
}

pub(crate) fn unary_value(alloc: Global, op: UnaryOp, v: &Val) -> Result<Val, OpFault>
    ensures { OperationGives result (unary_value op (tree v.now)) }
{
    match op {
        UnaryOp::Negate => negate(alloc, v),
        UnaryOp::Not => not(alloc, v),
    }
}

/// An operator that evaluates both sides. Of the two that don't, there is no value here.
pub(crate) fn eager_value(alloc: Global, op: BinaryOp, v: &Val, w: &Val) -> Result<Val, OpFault>
    ensures { OperationGives result (eager_value op (tree v.now) (tree w.now)) }
{
    match op {
        BinaryOp::Compare(op) => Ok(Val::Bool(holds(op, compare(v, w)))),
        BinaryOp::Add => add(alloc, v, w),
        BinaryOp::Subtract => subtract(alloc, v, w),
        BinaryOp::Multiply => multiply(alloc, v, w),
        BinaryOp::Divide => divide(alloc, v, w),
        BinaryOp::Remainder => remainder(alloc, v, w),
        BinaryOp::Or | BinaryOp::And => Err(OpFault::Type_),
    }
}

pub(crate) fn builtin_value(alloc: Global, builtin: Builtin, vs: &[Val]) -> Result<Val, OpFault>
    ensures { OperationGives result (builtin_value builtin (map tree vs.now)) }
{
    match (builtin, vs) {
        (Builtin::Len, [a]) => length(alloc, a),
        (Builtin::Has, [a, s]) => has(alloc, a, s),
        (Builtin::Push, [a, v]) => push(alloc, a, v),
        (Builtin::Set, [a, s, v]) => set(alloc, a, s, v),
        (Builtin::Without, [a, s]) => without(alloc, a, s),
        (Builtin::Slice, [a, i, j]) => slice(alloc, a, i, j),
        (Builtin::Range, [i, j]) => range(alloc, i, j),
        (Builtin::Show, [i]) => show(alloc, i),
        (Builtin::Keys, [a]) => keys(alloc, a),
        _ => Err(OpFault::Type_),
    }
}
