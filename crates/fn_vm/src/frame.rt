//! A function under way: its variables, the values that aren't used yet, and its loops.
ghost use Rattle.std.specs.Prelude.{◌≡◌, ◌++◌, ◌∷◌, [], IfOk, IfSome, IfNone, OnOk, Some, map, option_map, slice_get, take, drop as cut};
ghost use Rattle.cv_values.specs.Trees.{tree};
ghost use Rattle.cv_values.specs.Value.{null};
ghost use Rattle.fn_code.specs.Operands.{popped, stored};

use cv_values::{Memory, Val, Vals};
use std::alloc::Global;
use std::marker::Model;
use std::mem;

/// The values that aren't used yet, the last one at the end. Contracts see it from the top.
#[derive(Drop)]
pub struct Stack {
    items: Vec<Val>,
}

impl Model for Stack {
    ghost use Rattle.std.specs.Prelude.{List, map, reverse};
    ghost use Rattle.std.specs.Coded.{coded_list};
    ghost use Rattle.cv_values.specs.Codes.{coded_value};
    ghost use Rattle.cv_values.specs.Trees.{tree};
    ghost use Rattle.cv_values.specs.Value.{Value as Plain};

    ghost Value = { List Plain };

    ghost coded = { coded_list coded_value };

    ghost view = { λ s. reverse (map tree s.items.items) };
}

/// The variables in the order in which they were declared.
#[derive(Drop)]
pub struct Slots {
    items: Vec<Val>,
}

impl Model for Slots {
    ghost use Rattle.std.specs.Prelude.{List, map};
    ghost use Rattle.std.specs.Coded.{coded_list};
    ghost use Rattle.cv_values.specs.Codes.{coded_value};
    ghost use Rattle.cv_values.specs.Trees.{tree};
    ghost use Rattle.cv_values.specs.Value.{Value as Plain};

    ghost Value = { List Plain };

    ghost coded = { coded_list coded_value };

    ghost view = { λ s. map tree s.items.items };
}

/// The items of a loop that are to come, the next one at the end. Contracts see it first.
#[derive(Drop)]
pub struct Items {
    left: Vec<Val>,
}

impl Model for Items {
    ghost use Rattle.std.specs.Prelude.{List, map, reverse};
    ghost use Rattle.std.specs.Coded.{coded_list};
    ghost use Rattle.cv_values.specs.Codes.{coded_value};
    ghost use Rattle.cv_values.specs.Trees.{tree};
    ghost use Rattle.cv_values.specs.Value.{Value as Plain};

    ghost Value = { List Plain };

    ghost coded = { coded_list coded_value };

    ghost view = { λ s. reverse (map tree s.left.items) };
}

/// The loops under way, the innermost one at the end. Contracts see it first.
#[derive(Drop)]
pub struct Loops {
    under_way: Vec<Items>,
}

impl Model for Loops {
    ghost use Rattle.std.specs.Prelude.{List, reverse};
    ghost use Rattle.std.specs.Coded.{coded_list};
    ghost use Rattle.cv_values.specs.Codes.{coded_value};
    ghost use Rattle.cv_values.specs.Value.{Value as Plain};

    ghost Value = { List (List Plain) };

    ghost coded = { coded_list (coded_list coded_value) };

    ghost view = { λ s. reverse s.under_way.items };
}

/// What a loop does at the end of a turn.
#[derive(Drop)]
pub enum Turn {
    /// There is no loop.
    Nowhere,
    /// The innermost loop is over.
    Over,
    /// The next item of the innermost loop.
    Item(Val),
}

/// A function under way. The place is wide enough for any jump.
#[derive(Drop)]
pub struct Frame {
    pub at: u128,
    pub vars: Slots,
    pub stack: Stack,
    pub loops: Loops,
}

impl Stack {
    /// Nothing. It takes no memory.
    pub fn new(alloc: Global) -> Stack
        ensures { result ≡ [] }
    {
        Stack {
            items: Vec::new(alloc),
        }
    }

    /// A value goes onto the stack.
    pub fn push(&mut self, v: Val) -> Result<(), Memory>
        ensures { OnOk result (self.new ≡ tree v ∷ self.old) }
    {
        self.items.push(v)?;
        Ok(())
    }

    /// The top, which leaves the stack.
    pub fn pop(&mut self) -> Option<Val>
        ensures some { IfSome result (λ v. self.old ≡ tree v ∷ self.new) }
        ensures none { IfNone result (self.old ≡ []) }
    {
        self.items.pop()
    }

    /// The value so far under the top.
    #[tactic(auto, using(crate::proofs::Lists::depths))]
    pub fn peek(&self, depth: usize) -> Option<&Val>
        ensures { option_map (λ v. tree v.now) result ≡ slice_get self.now depth }
    {
        let len = self.items.len();
        if depth >= len {
            return None;
        }
        self.items.get(len - 1 - depth)
    }

    /// So many values under those on top, the last one put at the end; or none where there are fewer.
    pub fn under(&self, top: usize, n: usize) -> Option<&[Val]>
        ensures { option_map (λ vs. vs.0) (popped n [] (cut top self.now)) ≡ option_map (λ vs. map tree vs.now) result }
    {
        let end = self.items.len().saturating_sub(top);
        if n > end {
            return None;
        }
        let below = &self.items.as_slice()[..end];
        Some(&below[end - n..])
    }

    /// So many values, the last one put at the end, which leave the stack; or none where there are fewer.
    pub fn pop_many(&mut self, n: u64) -> Result<Option<Vec<Val>>, Memory>
        ensures { IfOk result (λ vs. popped n [] self.old ≡ option_map (λ vs. (map tree vs.items, self.new)) vs) }
    {
        let len = self.items.len();
        if n > len as u64 {
            return Ok(None);
        }
        Ok(Some(self.items.split_off(len - n as usize)?))
    }
}

impl Slots {
    /// These values.
    pub fn of(items: Vec<Val>) -> Slots
        ensures { result ≡ map tree items.items }
    {
        Slots { items }
    }

    /// The value of a variable.
    pub fn get(&self, n: u64) -> Option<&Val>
        ensures { option_map (λ v. tree v.now) result ≡ slice_get self.now n }
    {
        self.items.get(n as usize)
    }

    /// A copy of the value of a variable.
    pub fn copy(&self, alloc: Global, n: u64) -> Result<Option<Val>, Memory>
        ensures { IfOk result (λ v. option_map tree v ≡ slice_get self.now n) }
    {
        match self.get(n) {
            Some(v) => Ok(Some(v.copy(alloc)?)),
            None => Ok(None),
        }
    }

    /// The value of a variable, which is null behind this.
    pub fn take(&mut self, n: u64) -> Option<Val>
        ensures value { option_map tree result ≡ slice_get self.old n }
        ensures behind { self.new ≡ stored n null self.old }
    {
        let place = n as usize;
        if place < self.items.len() {
            return Some(mem::replace(&mut self.items[place], Val::Null));
        }
        None
    }

    /// One variable more.
    pub fn declare(&mut self, v: Val) -> Result<(), Memory>
        ensures { OnOk result (self.new ≡ self.old ++ tree v ∷ []) }
    {
        self.items.push(v)?;
        Ok(())
    }

    /// Sets the value of a variable, where there is one.
    pub fn store(&mut self, n: u64, v: Val)
        ensures { self.new ≡ stored n (tree v) self.old }
    {
        let place = n as usize;
        if place < self.items.len() {
            drop(mem::replace(&mut self.items[place], v));
        }
    }

    /// Keeps so many variables.
    pub fn forget(&mut self, n: u64)
        ensures { self.new ≡ take n self.old }
    {
        self.items.truncate(n as usize);
    }
}

impl Items {
    /// The items of an array, none of which is copied.
    fn of(items: Vals) -> Items
        ensures { result ≡ items }
    {
        let mut left = items.into_vec();
        left.reverse();
        Items { left }
    }

    /// The next item, which leaves them.
    fn next(&mut self) -> Option<Val>
        ensures some { IfSome result (λ v. self.old ≡ tree v ∷ self.new) }
        ensures none { IfNone result (self.old ≡ []) }
    {
        self.left.pop()
    }
}

impl Loops {
    ghost use Rattle.fn_vm.specs.Turns.{Turns};

    /// No loops. It takes no memory.
    pub fn new(alloc: Global) -> Loops
        ensures { result ≡ [] }
    {
        Loops {
            under_way: Vec::new(alloc),
        }
    }

    /// A loop over these items begins.
    pub fn begin(&mut self, items: Vals) -> Result<(), Memory>
        ensures { OnOk result (self.new ≡ items ∷ self.old) }
    {
        self.under_way.push(Items::of(items))?;
        Ok(())
    }

    /// The next item of the innermost loop, or its end.
    pub fn turn(&mut self) -> Result<Turn, Memory>
        ensures { IfOk result (λ t. Turns t self.old self.new) }
    {
        let Some(mut items) = self.under_way.pop() else {
            return Ok(Turn::Nowhere);
        };
        let Some(item) = items.next() else {
            return Ok(Turn::Over);
        };
        self.under_way.push(items)?;
        Ok(Turn::Item(item))
    }
}
