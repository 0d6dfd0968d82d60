//! Operations on integers and truth values, and the sum of strings.
ghost use Rattle.std.specs.Prelude.{◌≡◌, ◌≢◌, ◌++◌, IfOk, IfErr, Ok, Err};
ghost use Rattle.cv_values.specs.Trees.{tree};
ghost use Rattle.fn_ops.specs.Operations.{add, subtract, multiply, divide, remainder, negate, opposite, show};
ghost use Rattle.std.specs.Fmt.{signed_decimal};

use crate::fault::OpFault;
use crate::limits::made;
use cv_values::{Memory, Text, Val};
use std::alloc::Global;

/// `a + b`: the sum of two integers, or two strings joined. Both strings are copied.
///
/// Errors: `Type_` for other kinds, `Overflow`, `TooLarge`.
#[tactic(auto, using(crate::proofs::Fits::fitting))]
pub fn add(alloc: Global, a: &Val, b: &Val) -> Result<Val, OpFault>
    ensures ok { IfOk result (λ v. add (tree a.now) (tree b.now) ≡ Ok (tree v)) }
    ensures err { IfErr result
        (λ e. e ≢ OpFault.Memory → add (tree a.now) (tree b.now) ≡ Err e) }
{
    match (a, b) {
        (Val::Int(m), Val::Int(n)) => m.checked_add(*n).map(Val::Int).ok_or(OpFault::Overflow),
        (Val::Str(s), Val::Str(t)) => made(Val::Str(joined(alloc, s, t)?)),
        _ => Err(OpFault::Type_),
    }
}

fn joined(alloc: Global, s: &Text, t: &Text) -> Result<Text, Memory>
    ensures { IfOk result (λ u. u ≡ s.now ++ t.now) }
{
    let len = s.as_str().len().saturating_add(t.as_str().len());
    let mut text = String::with_capacity(alloc, len)?;
    text.push_str(s.as_str())?;
    text.push_str(t.as_str())?;
    Ok(Text::from_string(text))
}

/// `a - b` of two integers. It takes no memory.
///
/// Errors: `Type_` for other kinds, `Overflow`.
#[tactic(auto, using(crate::proofs::Fits::fitting))]
pub fn subtract(_alloc: Global, a: &Val, b: &Val) -> Result<Val, OpFault>
    ensures ok { IfOk result (λ v. subtract (tree a.now) (tree b.now) ≡ Ok (tree v)) }
    ensures err { IfErr result (λ e. subtract (tree a.now) (tree b.now) ≡ Err e) }
{
    match (a, b) {
        (Val::Int(m), Val::Int(n)) => m.checked_sub(*n).map(Val::Int).ok_or(OpFault::Overflow),
        _ => Err(OpFault::Type_),
    }
}

/// `a * b` of two integers. It takes no memory.
///
/// Errors: `Type_` for other kinds, `Overflow`.
#[tactic(auto, using(crate::proofs::Fits::fitting))]
pub fn multiply(_alloc: Global, a: &Val, b: &Val) -> Result<Val, OpFault>
    ensures ok { IfOk result (λ v. multiply (tree a.now) (tree b.now) ≡ Ok (tree v)) }
    ensures err { IfErr result (λ e. multiply (tree a.now) (tree b.now) ≡ Err e) }
{
    match (a, b) {
        (Val::Int(m), Val::Int(n)) => m.checked_mul(*n).map(Val::Int).ok_or(OpFault::Overflow),
        _ => Err(OpFault::Type_),
    }
}

/// `a / b` of two integers, rounded towards zero. It takes no memory.
///
/// Errors: `Type_` for other kinds, `DivisionByZero`, and `Overflow` for the least integer and -1.
#[tactic(auto, using(crate::proofs::Fits::fitting))]
pub fn divide(_alloc: Global, a: &Val, b: &Val) -> Result<Val, OpFault>
    ensures ok { IfOk result (λ v. divide (tree a.now) (tree b.now) ≡ Ok (tree v)) }
    ensures err { IfErr result (λ e. divide (tree a.now) (tree b.now) ≡ Err e) }
{
    match (a, b) {
        (Val::Int(_), Val::Int(0)) => Err(OpFault::DivisionByZero),
        (Val::Int(m), Val::Int(n)) => m.checked_div(*n).map(Val::Int).ok_or(OpFault::Overflow),
        _ => Err(OpFault::Type_),
    }
}

/// `a % b` of two integers: what the quotient leaves, with the sign of `a`. It takes no memory.
///
/// Errors: `Type_` for other kinds, `DivisionByZero`, and `Overflow` for the least integer and -1.
#[tactic(auto, using(crate::proofs::Fits::fitting))]
pub fn remainder(_alloc: Global, a: &Val, b: &Val) -> Result<Val, OpFault>
    ensures ok { IfOk result (λ v. remainder (tree a.now) (tree b.now) ≡ Ok (tree v)) }
    ensures err { IfErr result (λ e. remainder (tree a.now) (tree b.now) ≡ Err e) }
{
    match (a, b) {
        (Val::Int(_), Val::Int(0)) => Err(OpFault::DivisionByZero),
        (Val::Int(m), Val::Int(n)) => m.checked_rem(*n).map(Val::Int).ok_or(OpFault::Overflow),
        _ => Err(OpFault::Type_),
    }
}

/// `-a` of an integer. It takes no memory.
///
/// Errors: `Type_` for another kind, `Overflow` for the least integer.
#[tactic(auto, using(crate::proofs::Fits::fitting))]
pub fn negate(_alloc: Global, a: &Val) -> Result<Val, OpFault>
    ensures ok { IfOk result (λ v. negate (tree a.now) ≡ Ok (tree v)) }
    ensures err { IfErr result (λ e. negate (tree a.now) ≡ Err e) }
{
    match a {
        Val::Int(n) => n.checked_neg().map(Val::Int).ok_or(OpFault::Overflow),
        _ => Err(OpFault::Type_),
    }
}

/// `!a` of a boolean. It takes no memory.
///
/// Errors: `Type_` for another kind.
pub fn not(_alloc: Global, a: &Val) -> Result<Val, OpFault>
    ensures ok { IfOk result (λ v. opposite (tree a.now) ≡ Ok (tree v)) }
    ensures err { IfErr result (λ e. opposite (tree a.now) ≡ Err e) }
{
    match a {
        Val::Bool(b) => Ok(Val::Bool(!*b)),
        _ => Err(OpFault::Type_),
    }
}

/// The decimal text of an integer.
///
/// Errors: `Type_` for another kind.
pub fn show(alloc: Global, a: &Val) -> Result<Val, OpFault>
    ensures ok { IfOk result (λ v. show (tree a.now) ≡ Ok (tree v)) }
    ensures err { IfErr result (λ e. e ≢ OpFault.Memory → show (tree a.now) ≡ Err e) }
{
    match a {
        Val::Int(n) => made(Val::Str(decimal(alloc, *n)?)),
        _ => Err(OpFault::Type_),
    }
}

fn decimal(alloc: Global, n: i64) -> Result<Text, Memory>
    ensures { IfOk result (λ t. t ≡ signed_decimal n) }
{
    Ok(Text::from_string(n.to_string(alloc)?))
}
