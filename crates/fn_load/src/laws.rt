//! Laws of what is loaded, each a function with nothing to do.
ghost use Rattle.fn_load.specs.Loading.{AtMostOneAccepted, AcceptedHaveNoCause, AtMostOneCause};

use crate::program::Program;
use cv_values::shared;
use fn_syntax::one_fault;
use fn_tree::at_most_one_module;

/// Bytes have at most one answer but want of memory: one module that is accepted, or one fault. So each
/// answer of `load` comes exactly where its cause stands.
pub fn one_answer()
    ensures accepted { AtMostOneAccepted }
    ensures apart { AcceptedHaveNoCause }
    ensures causes { AtMostOneCause }
{
    at_most_one_module();
    one_fault();
}

/// Programs may be sent to another thread and be shared between threads.
pub fn programs_are_shared(program: &Program) {
    shared(program);
}
