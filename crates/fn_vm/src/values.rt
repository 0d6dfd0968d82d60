//! Instructions on values.
ghost use Rattle.std.specs.Prelude.{◌≡◌, ◌≢◌, ◌<◌, ◌^◌, ◌∷◌, [], IfOk, length, map, option_map, zip};
ghost use Rattle.cv_values.specs.Trees.{tree};
ghost use Rattle.cv_values.specs.Value.{values_of};
ghost use Rattle.fn_code.specs.Operands.{operand, operands, popped};
ghost use Rattle.fn_code.specs.Steps.{pushes_given, on_one, on_many, on_pair};
ghost use Rattle.fn_ops.specs.Operations as ops;
ghost use Rattle.fn_tree.specs.Actions.{op_text};
ghost use Rattle.fn_tree.specs.Operators.{unary_value, eager_value, builtin_value, holds};
ghost use Rattle.fn_tree.specs.Writing.{with_members};
ghost use Rattle.fn_vm.specs.Held.{IsGiven, value_of, given_one, given_many, all_there};
ghost use Rattle.fn_vm.specs.Views.{state_view, went};

use crate::frame::Slots;
use crate::operands::Operand;
use crate::run::Run;
use cv_values::{Fields, Memory, Text, Val, Vals, compare};
use fn_code::Source;
use fn_ops::OpFault;
use fn_tree::{BinaryOp, Builtin, CompareOp, Outcome, UnaryOp};
use std::alloc::Global;
use std::cmp::Ordering;

pub fn name_of(fault: OpFault) -> &'static str
    ensures { result.now ≡ op_text fault }
{
    match fault {
        OpFault::Type_ => "TypeError",
        OpFault::Overflow => "Overflow",
        OpFault::DivisionByZero => "DivisionByZero",
        OpFault::NoField => "NoField",
        OpFault::OutOfRange => "OutOfRange",
        OpFault::BadName => "BadName",
        OpFault::TooDeep => "TooDeep",
        OpFault::TooMany => "TooMany",
        OpFault::TooLarge => "TooLarge",
        OpFault::Memory => "Memory",
    }
}

impl Run {
    /// The value that an operation gave goes onto the stack; its fault ends the run.
    pub fn settle(&mut self, given: Result<Val, OpFault>) -> Result<Option<Outcome>, Memory>
        requires { self.old.frame.at < 2 ^ 64 }
        ensures { IfOk result (λ o. (g : ops.Given) → IsGiven given g → pushes_given (state_view self.old) g self.old.frame.stack ≡ went o (state_view self.new)) }
    {
        match given {
            Ok(v) => self.push(v),
            Err(OpFault::Memory) => Err(Memory),
            Err(fault) => self.fail(name_of(fault)),
        }
    }

    /// An operation of one operand.
    pub fn unary(&mut self, op: UnaryOp, source: Source) -> Result<Option<Outcome>, Memory>
        requires { self.old.frame.at < 2 ^ 64 }
        ensures { IfOk result (λ o. on_one (state_view self.old) (unary_value op) (operand source self.old.frame.vars self.old.frame.stack) ≡ went o (state_view self.new)) }
    {
        let operand = Operand::of(&mut self.frame.stack, source);
        let given = unary_given(self.alloc, op, operand.value(&self.frame.vars));
        self.settle(given)
    }
}

fn unary_given(alloc: Global, op: UnaryOp, v: Option<&Val>) -> Result<Val, OpFault>
    ensures { IsGiven result (given_one (unary_value op) (option_map (λ v. tree v.now) v.entry)) }
{
    match (op, v) {
        (_, None) => Err(OpFault::Type_),
        (UnaryOp::Negate, Some(v)) => fn_ops::negate(alloc, v),
        (UnaryOp::Not, Some(v)) => fn_ops::not(alloc, v),
    }
}

impl Run {
    /// An operation of two operands.
    pub fn binary(&mut self, op: BinaryOp, a: Source, b: Source) -> Result<Option<Outcome>, Memory>
        requires { self.old.frame.at < 2 ^ 64 }
        ensures { IfOk result (λ o. on_many (state_view self.old) (on_pair (eager_value op)) (operands (a ∷ b ∷ []) self.old.frame.vars self.old.frame.stack) ≡ went o (state_view self.new)) }
    {
        let right = Operand::of(&mut self.frame.stack, b);
        let left = Operand::of(&mut self.frame.stack, a);
        let vars = &self.frame.vars;
        let given = binary_given(self.alloc, op, left.value(vars), right.value(vars));
        self.settle(given)
    }

    /// An item of an array or an object.
    pub fn item(&mut self, a: Source, i: Source) -> Result<Option<Outcome>, Memory>
        requires { self.old.frame.at < 2 ^ 64 }
        ensures { IfOk result (λ o. on_many (state_view self.old) (on_pair ops.item) (operands (a ∷ i ∷ []) self.old.frame.vars self.old.frame.stack) ≡ went o (state_view self.new)) }
    {
        let right = Operand::of(&mut self.frame.stack, i);
        let left = Operand::of(&mut self.frame.stack, a);
        let vars = &self.frame.vars;
        let given = item_given(self.alloc, left.value(vars), right.value(vars));
        self.settle(given)
    }

    /// A field of an object.
    pub fn field(&mut self, source: Source, name: &Text) -> Result<Option<Outcome>, Memory>
        requires { self.old.frame.at < 2 ^ 64 }
        ensures { IfOk result (λ o. on_one (state_view self.old) (λ v. ops.field v name.now) (operand source self.old.frame.vars self.old.frame.stack) ≡ went o (state_view self.new)) }
    {
        let operand = Operand::of(&mut self.frame.stack, source);
        let given = field_given(self.alloc, operand.value(&self.frame.vars), name);
        self.settle(given)
    }

    /// An array of so many values.
    pub fn array(&mut self, n: u64) -> Result<Option<Outcome>, Memory>
        requires { self.old.frame.at < 2 ^ 64 }
        ensures { IfOk result (λ o. on_many (state_view self.old) ops.array_of (popped n [] self.old.frame.stack) ≡ went o (state_view self.new)) }
    {
        let Some(values) = self.frame.stack.pop_many(n)? else {
            return self.stick();
        };
        let given = fn_ops::array_of(self.alloc, Vals::from_vec(values));
        self.settle(given)
    }

    /// An object of values under these names.
    pub fn object(&mut self, names: &[Text]) -> Result<Option<Outcome>, Memory>
        requires { self.old.frame.at < 2 ^ 64 }
        ensures { IfOk result (λ o. on_many (state_view self.old) (λ vs. ops.object_of (with_members (zip names.now vs) [])) (popped (length names.now) [] self.old.frame.stack) ≡ went o (state_view self.new)) }
    {
        let Some(values) = self.frame.stack.pop_many(names.len() as u64)? else {
            return self.stick();
        };
        let fields = fields_of(self.alloc, names, values)?;
        let given = fn_ops::object_of(self.alloc, fields);
        self.settle(given)
    }
}

fn binary_given(
    alloc: Global,
    op: BinaryOp,
    a: Option<&Val>,
    b: Option<&Val>,
) -> Result<Val, OpFault>
    ensures { IsGiven result (given_many (on_pair (eager_value op)) (all_there (option_map (λ v. tree v.now) a.entry ∷ option_map (λ v. tree v.now) b.entry ∷ []))) }
{
    let (Some(a), Some(b)) = (a, b) else {
        return Err(OpFault::Type_);
    };
    eager_given(alloc, op, a, b)
}

fn eager_given(alloc: Global, op: BinaryOp, a: &Val, b: &Val) -> Result<Val, OpFault>
    ensures { IsGiven result (eager_value op (tree a.now) (tree b.now)) }
{
    match op {
        BinaryOp::Or | BinaryOp::And => Err(OpFault::Type_),
        BinaryOp::Compare(op) => Ok(Val::Bool(is_so(op, compare(a, b)))),
        BinaryOp::Add => fn_ops::add(alloc, a, b),
        BinaryOp::Subtract => fn_ops::subtract(alloc, a, b),
        BinaryOp::Multiply => fn_ops::multiply(alloc, a, b),
        BinaryOp::Divide => fn_ops::divide(alloc, a, b),
        BinaryOp::Remainder => fn_ops::remainder(alloc, a, b),
    }
}

fn is_so(op: CompareOp, order: Ordering) -> bool
    ensures { result ≡ holds op order }
{
    match op {
        CompareOp::Equal => order.is_eq(),
        CompareOp::NotEqual => order.is_ne(),
        CompareOp::Less => order.is_lt(),
        CompareOp::LessEqual => order.is_le(),
        CompareOp::Greater => order.is_gt(),
        CompareOp::GreaterEqual => order.is_ge(),
    }
}

fn item_given(alloc: Global, a: Option<&Val>, i: Option<&Val>) -> Result<Val, OpFault>
    ensures { IsGiven result (given_many (on_pair ops.item) (all_there (option_map (λ v. tree v.now) a.entry ∷ option_map (λ v. tree v.now) i.entry ∷ []))) }
{
    let (Some(a), Some(i)) = (a, i) else {
        return Err(OpFault::Type_);
    };
    fn_ops::item(alloc, a, i)
}

fn field_given(alloc: Global, v: Option<&Val>, name: &Text) -> Result<Val, OpFault>
    ensures { IsGiven result (given_one (λ v. ops.field v name.now) (option_map (λ v. tree v.now) v.entry)) }
{
    match v {
        None => Err(OpFault::Type_),
        Some(v) => fn_ops::field(alloc, v, name),
    }
}

fn fields_of(alloc: Global, names: &[Text], values: Vec<Val>) -> Result<Fields, Memory>
    ensures { IfOk result (λ fs. fs ≡ with_members (zip names.now (map tree values.items)) []) }
{
    let mut fields = Fields::new(alloc);
    let mut rest = values.into_iter();
    for name in names {
        let Some(v) = rest.next() else {
            return Ok(fields);
        };
        drop(fields.insert(name.copy(alloc)?, v)?);
    }
    Ok(fields)
}

impl Run {
    /// A built-in function.
    #[tactic(auto, using(crate::proofs::OperandsTaken::few_operands))]
    pub fn builtin(&mut self, b: Builtin, sources: &[Source]) -> Result<Option<Outcome>, Memory>
        requires { self.old.frame.at < 2 ^ 64 }
        ensures { IfOk result (λ o. on_many (state_view self.old) (builtin_value b) (operands sources.now self.old.frame.vars self.old.frame.stack) ≡ went o (state_view self.new)) }
    {
        match sources {
            [] => self.stick(),
            [x] => self.builtin_one(b, *x),
            [x, y] => self.builtin_two(b, *x, *y),
            [x, y, z] => self.builtin_three(b, *x, *y, *z),
            [_, _, _, _, ..] => self.stick(),
        }
    }

    fn builtin_one(&mut self, b: Builtin, x: Source) -> Result<Option<Outcome>, Memory>
        requires { self.old.frame.at < 2 ^ 64 }
        ensures { IfOk result (λ o. on_many (state_view self.old) (builtin_value b) (operands (x ∷ []) self.old.frame.vars self.old.frame.stack) ≡ went o (state_view self.new)) }
    {
        let first = Operand::of(&mut self.frame.stack, x);
        let given = one_given(self.alloc, b, first.value(&self.frame.vars));
        self.settle(given)
    }

    fn builtin_two(&mut self, b: Builtin, x: Source, y: Source) -> Result<Option<Outcome>, Memory>
        requires { self.old.frame.at < 2 ^ 64 }
        ensures { IfOk result (λ o. on_many (state_view self.old) (builtin_value b) (operands (x ∷ y ∷ []) self.old.frame.vars self.old.frame.stack) ≡ went o (state_view self.new)) }
    {
        let second = Operand::of(&mut self.frame.stack, y);
        let first = Operand::of(&mut self.frame.stack, x);
        let given = two_given(self.alloc, b, &self.frame.vars, first, second);
        self.settle(given)
    }

    fn builtin_three(
        &mut self,
        b: Builtin,
        x: Source,
        y: Source,
        z: Source,
    ) -> Result<Option<Outcome>, Memory>
        requires { self.old.frame.at < 2 ^ 64 }
        ensures { IfOk result (λ o. on_many (state_view self.old) (builtin_value b) (operands (x ∷ y ∷ z ∷ []) self.old.frame.vars self.old.frame.stack) ≡ went o (state_view self.new)) }
    {
        let third = Operand::of(&mut self.frame.stack, z);
        let second = Operand::of(&mut self.frame.stack, y);
        let first = Operand::of(&mut self.frame.stack, x);
        let given = three_given(self.alloc, b, &self.frame.vars, first, second, third);
        self.settle(given)
    }
}

fn one_given(alloc: Global, b: Builtin, x: Option<&Val>) -> Result<Val, OpFault>
    ensures { IsGiven result (given_many (builtin_value b) (all_there (option_map (λ v. tree v.now) x.entry ∷ []))) }
{
    match (b, x) {
        (Builtin::Len, Some(x)) => fn_ops::length(alloc, x),
        (Builtin::Show, Some(x)) => fn_ops::show(alloc, x),
        (Builtin::Keys, Some(x)) => fn_ops::keys(alloc, x),
        _ => Err(OpFault::Type_),
    }
}

fn two_given(
    alloc: Global,
    b: Builtin,
    vars: &Slots,
    x: Operand,
    y: Operand,
) -> Result<Val, OpFault>
    ensures { IsGiven result (given_many (builtin_value b) (all_there (value_of x vars.now ∷ value_of y vars.now ∷ []))) }
{
    match b {
        Builtin::Push => push_given(alloc, vars, x, y),
        _ => seen_two(alloc, b, x.value(vars), y.value(vars)),
    }
}

// Built-in functions that look at two values where they are.
fn seen_two(alloc: Global, b: Builtin, x: Option<&Val>, y: Option<&Val>) -> Result<Val, OpFault>
    ensures { b ≢ Builtin.Push → IsGiven result (given_many (builtin_value b) (all_there (option_map (λ v. tree v.now) x.entry ∷ option_map (λ v. tree v.now) y.entry ∷ []))) }
{
    let (Some(x), Some(y)) = (x, y) else {
        return Err(OpFault::Type_);
    };
    match b {
        Builtin::Has => fn_ops::has(alloc, x, y),
        Builtin::Without => fn_ops::without(alloc, x, y),
        Builtin::Range => fn_ops::range(alloc, x, y),
        _ => Err(OpFault::Type_),
    }
}

fn push_given(alloc: Global, vars: &Slots, x: Operand, y: Operand) -> Result<Val, OpFault>
    ensures { IsGiven result (given_many (builtin_value Builtin.Push) (all_there (value_of x vars.now ∷ value_of y vars.now ∷ []))) }
{
    let Some(items) = x.into_value(alloc, vars)? else {
        return Err(OpFault::Type_);
    };
    let Some(v) = y.into_value(alloc, vars)? else {
        return Err(OpFault::Type_);
    };
    pushed(items, v)
}

/// An array with a value at its end. Nothing is copied.
pub fn pushed(items: Val, v: Val) -> Result<Val, OpFault>
    ensures { IsGiven result (ops.push (tree items) (tree v)) }
{
    match items {
        Val::Arr(items) => fn_ops::push_onto(items, v),
        _ => Err(OpFault::Type_),
    }
}

fn three_given(
    alloc: Global,
    b: Builtin,
    vars: &Slots,
    x: Operand,
    y: Operand,
    z: Operand,
) -> Result<Val, OpFault>
    ensures { IsGiven result (given_many (builtin_value b) (all_there (value_of x vars.now ∷ value_of y vars.now ∷ value_of z vars.now ∷ []))) }
{
    match b {
        Builtin::Set => set_given(alloc, vars, x, y, z),
        _ => seen_three(alloc, b, x.value(vars), y.value(vars), z.value(vars)),
    }
}

// Built-in functions that look at three values where they are.
fn seen_three(
    alloc: Global,
    b: Builtin,
    x: Option<&Val>,
    y: Option<&Val>,
    z: Option<&Val>,
) -> Result<Val, OpFault>
    ensures { b ≢ Builtin.Set → IsGiven result (given_many (builtin_value b) (all_there (option_map (λ v. tree v.now) x.entry ∷ option_map (λ v. tree v.now) y.entry ∷ option_map (λ v. tree v.now) z.entry ∷ []))) }
{
    let (Some(x), Some(y), Some(z)) = (x, y, z) else {
        return Err(OpFault::Type_);
    };
    match b {
        Builtin::Slice => fn_ops::slice(alloc, x, y, z),
        _ => Err(OpFault::Type_),
    }
}

fn set_given(
    alloc: Global,
    vars: &Slots,
    x: Operand,
    y: Operand,
    z: Operand,
) -> Result<Val, OpFault>
    ensures { IsGiven result (given_many (builtin_value Builtin.Set) (all_there (value_of x vars.now ∷ value_of y vars.now ∷ value_of z vars.now ∷ []))) }
{
    let Some(fields) = x.into_value(alloc, vars)? else {
        return Err(OpFault::Type_);
    };
    let Some(name) = y.into_value(alloc, vars)? else {
        return Err(OpFault::Type_);
    };
    let Some(v) = z.into_value(alloc, vars)? else {
        return Err(OpFault::Type_);
    };
    with_field(fields, name, v)
}

/// An object with a value at a name. Nothing is copied.
pub fn with_field(fields: Val, name: Val, v: Val) -> Result<Val, OpFault>
    ensures { IsGiven result (ops.set (tree fields) (tree name) (tree v)) }
{
    match (fields, name) {
        (Val::Obj(fields), Val::Str(name)) => fn_ops::set_in(fields, name, v),
        _ => Err(OpFault::Type_),
    }
}
