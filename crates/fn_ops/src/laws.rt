//! Laws of the operations, each a function with nothing to do.
ghost use Rattle.fn_ops.specs.Examples.{OnIntegers, OnLists, OnObjects};
ghost use Rattle.fn_ops.specs.OperationLaws.{DivisionIsExact, SetIsRead, WithoutIsRead, PushIsRead};

/// The operations on some values.
pub fn worked_operations()
    ensures integers { OnIntegers }
    ensures lists { OnLists }
    ensures objects { OnObjects }
{}

/// Quotient and remainder make up the dividend, and the remainder has its sign.
pub fn division_is_exact()
    ensures { DivisionIsExact }
{}

/// What `set`, `without` and `push` change is read back, and what they leave alone is as before.
pub fn changes_are_read_back()
    ensures set { SetIsRead }
    ensures without { WithoutIsRead }
    ensures push { PushIsRead }
{}
