//! Operands: on top of the stack, from where they are taken, or in a variable, where they stay.
ghost use Rattle.std.specs.Prelude.{◌≡◌, IfOk, List, option_map};
ghost use Rattle.cv_values.specs.Trees.{tree};
ghost use Rattle.cv_values.specs.Value.{Value};
ghost use Rattle.fn_code.specs.Operands.{operand};
ghost use Rattle.fn_vm.specs.Held.{value_of};

use crate::frame::{Slots, Stack};
use cv_values::{Memory, Val};
use fn_code::Source;
use std::alloc::Global;

/// An operand: a value, the number of its variable, or none where the stack is empty.
#[derive(Drop)]
pub enum Operand {
    Taken(Val),
    Slot(u64),
    Missing,
}

impl Operand {
    /// The operand at a source.
    pub fn of(stack: &mut Stack, source: Source) -> Operand
        ensures { (vars : List Value) → operand source vars stack.old ≡ option_map (λ v. (v, stack.new)) (value_of result vars) }
    {
        match source {
            Source::Slot(n) => Operand::Slot(n),
            Source::Top => match stack.pop() {
                Some(v) => Operand::Taken(v),
                None => Operand::Missing,
            },
        }
    }

    /// The value, among these variables.
    pub fn value<'a>(&'a self, vars: &'a Slots) -> Option<&'a Val>
        ensures { option_map (λ v. tree v.now) result ≡ value_of self.now vars.now }
    {
        match self {
            Operand::Taken(v) => Some(v),
            Operand::Slot(n) => vars.get(*n),
            Operand::Missing => None,
        }
    }

    /// The value itself where it was taken, and a copy where it stays in a variable.
    pub fn into_value(self, alloc: Global, vars: &Slots) -> Result<Option<Val>, Memory>
        ensures { IfOk result (λ v. option_map tree v ≡ value_of self vars.now) }
    {
        match self {
            Operand::Taken(v) => Ok(Some(v)),
            Operand::Slot(n) => vars.copy(alloc, n),
            Operand::Missing => Ok(None),
        }
    }
}
