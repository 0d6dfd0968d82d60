ghost use Rattle.std.specs.Prelude.{◌≡◌};
ghost use Rattle.fn_load.specs.declared.fault.LoadFault.TheVariants.{Memory as MemoryFault};

use cv_values::Memory;
use fn_check::CheckFault;
use fn_syntax::SyntaxFault;

/// Why no program was loaded.
#[derive(Clone, Copy, Debug, PartialEq, Eq)]
pub enum LoadFault {
    /// The bytes are no text of a module.
    Syntax(SyntaxFault),
    /// The module doesn't meet a check.
    Check(CheckFault),
    /// There was no memory.
    Memory,
}

impl From<Memory> for LoadFault {
    ghost from_gives = { λ _ e. e ≡ MemoryFault };

    fn from(_: Memory) -> Self {
        LoadFault::Memory
    }
}
