//! What passed over a link, in proofs alone.
ghost use Rattle.std.specs.Prelude.{◌≡◌, List, [], ◌∷◌, ◌++◌};
ghost use Rattle.std.specs.Borrow.{ftrue};
ghost use Rattle.cv_outside.specs.Traces.{Said, taken, sent, trace_code};

use cv_values::Text;
use std::marker::Model;

/// The texts that were taken and sent. It takes no bytes: clauses alone read it.
#[derive(Drop)]
pub struct Trace {
    pub ghost said: { List Said } by { trace_code },
}

impl Model for Trace {
    ghost also_owns = { λ _. ftrue };
}

// It owns nothing.
unsafe impl Send for Trace {}

impl Trace {
    pub(crate) fn new() -> Trace
        ensures { result.said ≡ [] }
    {
        Trace {}
    }

    /// The trace with a text that was taken.
    pub(crate) fn with_taken(_before: &Trace, _text: &Text) -> Trace
        ensures { result.said ≡ _before.now.said ++ taken _text.now ∷ [] }
    {
        Trace {}
    }

    /// The trace with a text that was sent.
    pub(crate) fn with_sent(_before: &Trace, _text: &Text) -> Trace
        ensures { result.said ≡ _before.now.said ++ sent _text.now ∷ [] }
    {
        Trace {}
    }
}
