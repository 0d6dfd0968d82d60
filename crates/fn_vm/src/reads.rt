//! Instructions that read by an id, up to the question.
ghost use Rattle.std.specs.Prelude.{◌≡◌, ◌<◌, ◌^◌, IfOk, IfSome, slice_get};
ghost use Rattle.cv_values.specs.Trees.{tree};
ghost use Rattle.fn_code.specs.Steps.{reads, reads_id, on_top, begins_delete, begins_change, gives_now};
ghost use Rattle.fn_tree.specs.Course.{Ask as PlainAsk};
ghost use Rattle.fn_vm.specs.Moves.{Moves, asked, reads_target};
ghost use Rattle.fn_vm.specs.Targets.{target_in, target_at, object_on};
ghost use Rattle.fn_vm.specs.Views.{state_view, terms_view, went};

use crate::rows::left_of;
use crate::run::{Run, Terms};
use crate::stop::Stop;
use cv_values::{DocId, Memory, Val, read_id};
use fn_code::Code;
use fn_tree::{Ask, Left, Outcome};

/// What an instruction reads: an id that is in the module, no such id, or no text at all.
#[derive(Clone, Copy)]
pub enum Target {
    Missing,
    Bad,
    Found(DocId),
}

// The id that a value is the text of.
fn target_of(code: &Code, v: &Val) -> Target
    ensures { result ≡ target_in code.now (tree v.now) }
{
    let Val::Str(text) = v else {
        return Target::Missing;
    };
    match read_id(text) {
        Some(id) if (id.table as usize) < code.schema.tables.as_slice().len() => Target::Found(id),
        _ => Target::Bad,
    }
}

impl Run {
    /// What may still be used up, where one read more is within the limit. It is counted.
    pub fn question(&mut self, terms: &Terms) -> Option<Left>
        ensures asked { (q : Left → PlainAsk) → reads (terms_view terms.now) (state_view self.old) q ≡ asked result q (state_view self.new) }
        ensures size { IfSome result (λ left. left.size < 2 ^ 32) }
    {
        if self.counts.ranges >= terms.limits.ranges {
            return None;
        }
        let left = left_of(terms, &self.counts);
        self.counts.ranges += 1;
        Some(left)
    }

    // The id whose text is so far under the top.
    fn target_at(&self, code: &Code, depth: usize) -> Target
        ensures { result ≡ target_at code.now (slice_get self.now.frame.stack depth) }
    {
        match self.frame.stack.peek(depth) {
            None => Target::Missing,
            Some(v) => target_of(code, v),
        }
    }

    // Asks for the document of an id that was looked for.
    fn ask_for(&mut self, terms: &Terms, target: Target) -> Result<Option<Stop>, Memory>
        ensures { IfOk result (λ stop. Moves (reads_target (terms_view terms.now) (state_view self.old) target) stop (state_view self.new)) }
    {
        match target {
            Target::Missing => self.stop("TypeError"),
            Target::Bad => self.stop("BadId"),
            Target::Found(id) => match self.question(terms) {
                None => self.stop("RangeLimit"),
                Some(left) => Ok(Some(Stop::Ask(Ask::Get { id, left }))),
            },
        }
    }

    /// Asks for the document of the id on top.
    #[tactic(auto, using(crate::proofs::Reading::get_reads))]
    pub fn get(&mut self, terms: &Terms, code: &Code) -> Result<Option<Stop>, Memory>
        ensures { IfOk result (λ stop. Moves (on_top (state_view self.old) (λ v stack. reads_id (terms_view terms.now) code.now (state_view self.old) v) self.old.frame.stack) stop (state_view self.new)) }
    {
        let target = self.target_at(code, 0);
        self.ask_for(terms, target)
    }

    /// Asks for the document that is to be deleted.
    #[tactic(auto, using(crate::proofs::Reading::delete_reads))]
    pub fn begin_delete(&mut self, terms: &Terms, code: &Code) -> Result<Option<Stop>, Memory>
        ensures { IfOk result (λ stop. Moves (begins_delete (terms_view terms.now) code.now (state_view self.old) terms.now.origin self.old.frame.stack) stop (state_view self.new)) }
    {
        let Some(_origin) = terms.origin else {
            return self.stop("TypeError");
        };
        let target = self.target_at(code, 0);
        self.ask_for(terms, target)
    }

    /// Asks for the document that is to be changed.
    #[tactic(auto, using(crate::proofs::Reading::change_reads, crate::proofs::Reading::change_faults))]
    pub fn begin_change(&mut self, terms: &Terms, code: &Code) -> Result<Option<Stop>, Memory>
        ensures { IfOk result (λ stop. Moves (begins_change (terms_view terms.now) code.now (state_view self.old) terms.now.origin self.old.frame.stack) stop (state_view self.new)) }
    {
        let Some(_origin) = terms.origin else {
            return self.stop("TypeError");
        };
        let target = self.target_at(code, 1);
        if self.has_object() {
            return self.ask_for(terms, target);
        }
        match target {
            Target::Bad => self.stop("BadId"),
            _ => self.stop("TypeError"),
        }
    }

    // Whether an object is on top.
    fn has_object(&self) -> bool
        ensures { result ≡ object_on self.now.frame.stack }
    {
        match self.frame.stack.peek(0) {
            Some(Val::Obj(_)) => true,
            _ => false,
        }
    }

    /// The moment that a mutation sees.
    pub fn now(&mut self, terms: &Terms) -> Result<Option<Outcome>, Memory>
        requires { self.old.frame.at < 2 ^ 64 }
        ensures { IfOk result (λ o. gives_now (state_view self.old) terms.now.origin ≡ went o (state_view self.new)) }
    {
        match terms.origin {
            None => self.stick(),
            Some(origin) => self.push(Val::Int(origin.now)),
        }
    }
}
