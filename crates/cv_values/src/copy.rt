ghost use Rattle.std.specs.Prelude.{◌≡◌, IfOk};

use crate::memory::Memory;
use crate::seq::Copied;
use crate::text::{Bytes, Text};
use crate::val::{Fields, Val, Vals};
use std::alloc::Global;

impl Val {
    /// An equal value, in memory of its own.
    #[cycle(copy)]
    pub fn copy(&self, alloc: Global) -> Result<Val, Memory>
        ensures { IfOk result (λ c. c ≡ self.now) }
    {
        match self {
            Val::Null => Ok(Val::Null),
            Val::Int(n) => Ok(Val::Int(*n)),
            Val::Bool(b) => Ok(Val::Bool(*b)),
            Val::Str(s) => Ok(Val::Str(s.copy(alloc)?)),
            Val::Bin(b) => Ok(Val::Bin(b.copy(alloc)?)),
            Val::Arr(items) => Ok(Val::Arr(items.copy(alloc)?)),
            Val::Obj(fields) => Ok(Val::Obj(fields.copy(alloc)?)),
        }
    }
}

impl Copied for Text {
    fn copy(&self, alloc: Global) -> Result<Text, Memory> {
        Text::copy(self, alloc)
    }
}

impl Copied for Bytes {
    fn copy(&self, alloc: Global) -> Result<Bytes, Memory> {
        Bytes::copy(self, alloc)
    }
}

impl Copied for Vals {
    fn copy(&self, alloc: Global) -> Result<Vals, Memory> {
        Vals::copy(self, alloc)
    }
}

impl Copied for Val {
    fn copy(&self, alloc: Global) -> Result<Val, Memory> {
        Val::copy(self, alloc)
    }
}

impl Copied for Fields {
    fn copy(&self, alloc: Global) -> Result<Fields, Memory> {
        Fields::copy(self, alloc)
    }
}
