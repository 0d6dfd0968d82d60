//! Laws of the definitions, each a function with nothing to do.
ghost use Rattle.std.specs.Prelude.{List, ℕ};
ghost use Rattle.fn_tree.specs.SyntaxTree.{ModuleTree};
ghost use Rattle.cv_stand.specs.Events.{Event};
ghost use Rattle.cv_stand.specs.PlayExamples.{AreWorkedLines, AreWorkedMoments, IsWorkedPlay};
ghost use Rattle.cv_stand.specs.Plays.{IsOneLog};

/// What events play is one log: a legal history, told reply by reply.
pub fn scripts_make_one_log()
    ensures { (m : ModuleTree) (events : List (ℕ × Event)) → IsOneLog m events }
{}

/// The definitions of a script, computed on some lines and on calls of a mutation and of a query.
pub fn worked_plays()
    ensures moments { AreWorkedMoments }
    ensures lines { AreWorkedLines }
    ensures play { IsWorkedPlay }
{}
