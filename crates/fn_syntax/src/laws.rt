//! Laws of the parser's answers, each a function with nothing to do.
ghost use Rattle.fn_tree.specs.ModuleLaws.{ModulesHaveNoFault, AtMostOneFault};

/// The text of a module has no fault, and other bytes have at most one: so each answer of `parse` comes
/// exactly where its cause stands.
pub fn one_fault()
    ensures modules { ModulesHaveNoFault }
    ensures faults { AtMostOneFault }
{}
