//! What holds of the queries of a connection, whatever is called.
ghost use Rattle.cv_subs.specs.Laws.{AtWith, AtWithout, AtChanged, AtAdvanced};

/// What stands under a number after each change of the queries.
pub fn subs_tell()
    ensures with { AtWith }
    ensures without { AtWithout }
    ensures changed { AtChanged }
    ensures advanced { AtAdvanced }
{}
