ghost use Rattle.std.specs.Prelude.{◌≡◌};
ghost use Rattle.fn_code.specs.CodeMeans.{Means};
ghost use Rattle.fn_code.specs.Coding.{code_of};
ghost use Rattle.fn_tree.specs.SyntaxViews.{module_view};

use fn_check::Checked;
use fn_code::Code;

/// A module that meets every check, with its flat code, which means it.
#[derive(Drop)]
pub struct Program {
    pub checked: Checked,
    pub code: Code,
    pub ghost means: { ∥ Means code (module_view checked.tree) ∥₁ },
    pub ghost compiled: { code ≡ code_of (module_view checked.tree) },
}
