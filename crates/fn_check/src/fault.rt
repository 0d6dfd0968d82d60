ghost use Rattle.std.specs.Prelude.{◌≡◌, Some};
ghost use Rattle.fn_check.specs.Faults.{fault_if, Tells};

use cv_values::Memory;
use std::alloc::AllocError;

/// Which check a module doesn't meet.
#[derive(Clone, Copy, Debug, PartialEq, Eq)]
pub enum CheckKind {
    /// A table, an index or a field of an index whose name is empty or begins with `_` or `$`, or an
    /// index named `by_id` or `by_creation_time`.
    BadName,
    /// A table that is declared already.
    DuplicateTable,
    /// An index that its table has already.
    DuplicateIndex,
    /// A function that is declared already; queries and mutations share their names, helpers have others.
    DuplicateFunction,
    /// A field that is named twice in an index or an object.
    DuplicateField,
    /// The 65th table.
    TooManyTables,
    /// The 33rd index of a table.
    TooManyIndexes,
    /// The 17th field of an index.
    TooManyFields,
    /// The 1,025th function.
    TooManyFunctions,
    /// A parameter, `let` or loop name that is visible already.
    DuplicateName,
    /// A variable that isn't visible.
    UnknownName,
    /// A call of a name that is no helper declared before this function.
    UnknownHelper,
    /// A call with another number of arguments than are wanted.
    WrongArity,
    /// A table that isn't declared.
    UnknownTable,
    /// An index that the table hasn't.
    UnknownIndex,
    /// A bound on a field where the index doesn't allow it.
    BadBound,
    /// A write in a query, by itself or by helpers.
    WriteInQuery,
    /// A use of `now` in a query, by itself or by helpers.
    NowInQuery,
}

/// The first check that a module doesn't meet, and the byte at which the named token begins.
#[derive(Clone, Copy, Debug, PartialEq, Eq)]
pub struct CheckFault {
    pub at: u64,
    pub kind: CheckKind,
}

/// Why a walk stopped.
#[derive(Clone, Copy, Debug)]
pub(crate) enum Stop {
    /// The first fault.
    Fault(CheckFault),
    /// There was no memory.
    Memory,
}

impl From<Memory> for Stop {
    ghost use Rattle.fn_check.specs.declared.fault.Stop.{Stop};

    ghost from_gives = { λ m r. r ≡ Stop.Memory };

    fn from(_: Memory) -> Self {
        Stop::Memory
    }
}

/// Stops with a fault at a place.
pub(crate) fn refuse(at: u64, kind: CheckKind) -> Result<(), Stop>
    ensures { Tells result (Some (record { at = at; kind = kind })) }
{
    Err(Stop::Fault(CheckFault { at, kind }))
}

/// Stops with a fault at a place where the test holds.
pub(crate) fn refuse_if(test: bool, at: u64, kind: CheckKind) -> Result<(), Stop>
    ensures { Tells result (fault_if test at kind) }
{
    if test {
        return Err(Stop::Fault(CheckFault { at, kind }));
    }
    Ok(())
}
