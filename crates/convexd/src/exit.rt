use fn_check::CheckFault;
use fn_syntax::SyntaxFault;

/// Why a module text is refused.
#[derive(Clone, Copy, Debug, PartialEq, Eq)]
pub enum ModuleFault {
    /// It is no text of a module.
    Syntax(SyntaxFault),
    /// It doesn't meet a check.
    Check(CheckFault),
}

/// How a command ended. `report` gives each its status, from 0 in this order.
#[derive(Clone, Copy, Debug, PartialEq, Eq)]
pub enum Exit {
    /// The input was read to its end, and all was written.
    Done,
    /// The words aren't those of a command.
    Usage,
    /// The module text is refused.
    Module(ModuleFault),
    /// The script is bad at this line, counted from 1 over the whole input. What the lines before it
    /// write was written.
    Script { line: u64 },
    /// A read of the input failed. Nothing was written.
    Read,
    /// A write failed. A first part of the text was written.
    Write,
    /// There was no memory. A first part of the text was written, or nothing.
    Memory,
    /// The input has more than 67,108,864 bytes. Nothing was written.
    TooLarge,
}
