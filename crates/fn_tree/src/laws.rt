//! Laws of the definitions, each a function with nothing to do.
ghost use Rattle.std.specs.Prelude.{◌≡◌, ◌↔◌, true};
ghost use Rattle.fn_tree.specs.AsksThere.{RunsAskThere};
ghost use Rattle.fn_tree.specs.CanonicalLaws.{CanonicalReadsBack};
ghost use Rattle.fn_tree.specs.CommitLaws.{CommitsAreLegal, AnswersStay};
ghost use Rattle.fn_tree.specs.ExpressionExamples.{IsWorkedExpressions};
ghost use Rattle.fn_tree.specs.HistoryExamples.{IsWorkedHistories};
ghost use Rattle.fn_tree.specs.HistoryLaws.{FrontsAreLegal, GoOnByRuns, IdsHavePairs};
ghost use Rattle.fn_tree.specs.LexemeExamples.{IsWorkedTokens, IsWorkedNesting};
ghost use Rattle.fn_tree.specs.LexemeLaws.{TokensStandApart, BadComesAfter, TokensAreRead, IntegersFit, TokensAreTexts};
ghost use Rattle.fn_tree.specs.ModuleLaws.{AtMostOneModule};
ghost use Rattle.fn_tree.specs.PutLaws.{RunsPutTruly};
ghost use Rattle.fn_tree.specs.ReadExamples.{IsWorkedReads};
ghost use Rattle.fn_tree.specs.ReadLaws.{ReadsDecide, RunsAgree};
ghost use Rattle.fn_tree.specs.StatementExamples.{IsWorkedStatements};
ghost use Rattle.fn_tree.specs.WriteExamples.{IsWorkedWrites};
ghost use Rattle.fn_tree.specs.declared.stop.Query.{Query as Queries};

use crate::entry::Entry;
use crate::stop::Query;
use crate::syntax::Module;
use cv_values::{crosses, equal_where_same, shared};

/// The tokens of a text stand apart in it, in order and none empty, and before the place at which no
/// token begins; each is what the text begins with at its place; and no integer among them is greater
/// than the greatest of 64 bits. Where the text is UTF-8, so are the bytes of each token and what its
/// strings say.
pub fn tokens_of_texts()
    ensures places { TokensStandApart }
    ensures bad { BadComesAfter }
    ensures read { TokensAreRead }
    ensures integers { IntegersFit }
    ensures texts { TokensAreTexts }
{}

/// The tokens, the trees with their places, the canonical text and the faults of some texts, worked out.
pub fn worked_tokens()
    ensures tokens { IsWorkedTokens }
    ensures nesting { IsWorkedNesting }
{}

/// Bytes are the text of at most one module.
pub fn at_most_one_module()
    ensures { AtMostOneModule }
{}

/// The canonical text of the module of a text, where it isn't too long, is a text of the same module up
/// to places.
pub fn canonical_texts()
    ensures { CanonicalReadsBack }
{}

/// A front of a legal history is legal; a legal history goes on by the run of a call whose session
/// and request it doesn't hold; and each document's id has the session and the request of an entry up
/// to its timestamp.
pub fn legal_histories()
    ensures fronts { FrontsAreLegal }
    ensures runs { GoOnByRuns }
    ensures ids { IdsHavePairs }
{}

/// On documents that hold no id of the run's own, each write of a run tells the document that is there,
/// and each id that has none is one of the run's own.
pub fn runs_put_truly()
    ensures { RunsPutTruly }
{}

/// Two calls of queries are equal exactly where path and arguments stand for the same.
pub fn same_queries()
    ensures { (q : Queries) (r : Queries) → (⟦<Query as PartialEq>⟧.eq q r ≡ true) ↔ (q ≡ r) }
{
    equal_where_same();
}

/// Each scan that a run asks for is one of an index that its program has, whatever the answers are.
pub fn runs_ask_there()
    ensures { RunsAskThere }
{}

/// What a run read decides it: on documents that have the same rows in each interval that it read, a
/// course goes the same way; and the run of a call is the same in reply, writes, reads and cost, where
/// neither has an id of the call.
pub fn reads_decide()
    ensures courses { ReadsDecide }
    ensures runs { RunsAgree }
{}

/// A run on an older snapshot whose intervals no later entry touches may be appended: the history stays
/// legal. A query's answer stays as long as nothing touches what it read.
pub fn commits_are_legal()
    ensures commits { CommitsAreLegal }
    ensures answers { AnswersStay }
{}

/// The meaning of each form, computed on small cases.
pub fn worked_runs()
    ensures expressions { IsWorkedExpressions }
    ensures statements { IsWorkedStatements }
    ensures reads { IsWorkedReads }
    ensures writes { IsWorkedWrites }
    ensures histories { IsWorkedHistories }
{}

/// Entries may go to another thread.
pub fn entries_cross(entry: &Entry) {
    crosses(entry);
}

/// Modules may be sent to another thread and be shared between threads.
pub fn modules_are_shared(module: &Module) {
    shared(module);
}
