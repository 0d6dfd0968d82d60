//! One instruction, and the instructions up to the next stop.
ghost use Rattle.std.specs.Prelude.{◌≡◌, ◌<◌, ◌^◌, ◌+◌, IfOk, IfSome, Some, option_map, slice_get};
ghost use Rattle.fn_code.specs.CodeMeans.{Follows};
ghost use Rattle.fn_code.specs.States.{on};
ghost use Rattle.fn_code.specs.Steps.{step_by, step, goes_on, answered};
ghost use Rattle.fn_tree.specs.Course.{Course};
ghost use Rattle.fn_vm.specs.LastUses.{first_in, second_in, Leads};
ghost use Rattle.fn_vm.specs.Machines.{Reaches};
ghost use Rattle.fn_vm.specs.Moves.{Moves};
ghost use Rattle.fn_vm.specs.Views.{state_view, terms_view};

use crate::last_use::LastUse;
use crate::run::{Run, Terms, as_stop};
use crate::stop::Stop;
use cv_values::{Doc, Memory, Val};
use fn_code::{Code, Instr, steps_end};

// The instruction at a place.
fn instr_at(code: &Code, at: u128) -> Option<&Instr>
    ensures there { option_map (λ i. i.now) result ≡ slice_get code.now.instrs at }
    ensures place { IfSome result (λ i. at < 2 ^ 64) }
{
    code.instrs.as_slice().get(usize::try_from(at).ok()?)
}

// The last use of a variable at a place, with the next instruction.
fn last_use(code: &Code, at: u128, instr: &Instr) -> Option<LastUse>
    requires { at < 2 ^ 64 }
    ensures first { IfSome result (λ last. instr.now ≡ first_in last) }
    ensures second { IfSome result (λ last. slice_get code.now.instrs (at + 1) ≡ Some (second_in last)) }
{
    match instr {
        Instr::Load(_) | Instr::Builtin(_, _) => LastUse::of(instr, instr_at(code, at + 1)?),
        _ => None,
    }
}

impl Run {
    // One instruction. Each costs no more than what it does with values: a constant, a jump, a variable's
    // declaration and a store take constant time; a load copies the value; an operation looks at its
    // operands where they are, and moves what goes into its result; and a read or a write copies what it
    // asks for or puts.
    fn step_by(&mut self, terms: &Terms, code: &Code, instr: &Instr) -> Result<Option<Stop>, Memory>
        requires { self.old.frame.at < 2 ^ 64 }
        ensures { IfOk result (λ stop. Moves (step_by (terms_view terms.now) code.now (state_view self.old) instr.now) stop (state_view self.new)) }
    {
        match instr {
            Instr::Spend => Ok(as_stop(self.pay(terms)?)),
            Instr::Int(n) => Ok(as_stop(self.push(Val::Int(*n))?)),
            Instr::Str(text) => Ok(as_stop(self.string(text)?)),
            Instr::Truth(b) => Ok(as_stop(self.push(Val::Bool(*b))?)),
            Instr::Null => Ok(as_stop(self.push(Val::Null)?)),
            Instr::Load(n) => Ok(as_stop(self.load(*n)?)),
            Instr::Declare => Ok(as_stop(self.declare()?)),
            Instr::Store(n) => Ok(as_stop(self.store(*n)?)),
            Instr::Discard => Ok(as_stop(self.discard()?)),
            Instr::Forget(n) => Ok(as_stop(self.forget(*n)?)),
            Instr::Jump(n) => Ok(as_stop(self.jump(*n)?)),
            Instr::Branch(n) => Ok(as_stop(self.branch(*n)?)),
            Instr::Decide(wanted, n) => Ok(as_stop(self.decide(*wanted, *n)?)),
            Instr::AsTruth => Ok(as_stop(self.as_truth()?)),
            Instr::Items => Ok(as_stop(self.items()?)),
            Instr::Turn(n) => Ok(as_stop(self.turn(terms, *n)?)),
            Instr::Call(n, arguments) => Ok(as_stop(self.call(terms, code, *n, *arguments)?)),
            Instr::Return => Ok(as_stop(self.give_back(terms)?)),
            Instr::Throw => Ok(as_stop(self.throw()?)),
            Instr::Fail => self.stop("TypeError"),
            Instr::Array(n) => Ok(as_stop(self.array(*n)?)),
            Instr::Object(names) => Ok(as_stop(self.object(names.as_slice())?)),
            Instr::Builtin(b, sources) => Ok(as_stop(self.builtin(*b, sources.as_slice())?)),
            Instr::Field(source, name) => Ok(as_stop(self.field(*source, name)?)),
            Instr::Item(a, i) => Ok(as_stop(self.item(*a, *i)?)),
            Instr::Unary(op, source) => Ok(as_stop(self.unary(*op, *source)?)),
            Instr::Binary(op, a, b) => Ok(as_stop(self.binary(*op, *a, *b)?)),
            Instr::AsLimit => Ok(as_stop(self.as_limit()?)),
            Instr::Now => Ok(as_stop(self.now(terms)?)),
            Instr::Scan {
                table,
                index,
                bounds,
                desc,
                limited,
            } => self.scan(terms, *table, *index, bounds.as_slice(), *desc, *limited),
            Instr::Get => self.get(terms, code),
            Instr::Insert(table) => self.insert(terms, *table),
            Instr::Delete => self.begin_delete(terms, code),
            Instr::Patch | Instr::Replace => self.begin_change(terms, code),
        }
    }

    // Goes on by one instruction, or by two where the first is the last use of a variable.
    fn step(&mut self, terms: &Terms, code: &Code) -> Result<Option<Stop>, Memory>
        ensures { IfOk result (λ stop. Leads (terms_view terms.now) code.now (state_view self.old) stop (state_view self.new)) }
    {
        let Some(instr) = instr_at(code, self.frame.at) else {
            return self.stop("TypeError");
        };
        match last_use(code, self.frame.at, instr) {
            Some(last) => Ok(as_stop(self.use_up(terms, last)?)),
            None => self.step_by(terms, code, instr),
        }
    }

    /// Goes on up to the next stop.
    pub fn run_on(&mut self, terms: &Terms, code: &Code) -> Result<Stop, Memory>
        ensures { (k : Course) → Follows (terms_view terms.now) code.now k (on (state_view self.old)) → IfOk result (λ stop. Reaches (terms_view terms.now) code.now k stop (state_view self.new)) }
    {
        steps_end();
        loop {
            match self.step(terms, code)? {
                Some(stop) => return Ok(stop),
                None => continue,
            }
        }
    }

    // An instruction goes on with the rows of its read.
    fn go_on(
        &mut self,
        terms: &Terms,
        instr: &Instr,
        docs: Vec<Doc>,
    ) -> Result<Option<Stop>, Memory>
        requires { self.old.frame.at < 2 ^ 64 }
        ensures { IfOk result (λ stop. Moves (goes_on (terms_view terms.now) (state_view self.old) docs.items instr.now) stop (state_view self.new)) }
    {
        match instr {
            Instr::Get => self.get_rows(docs),
            Instr::Scan {
                bounds,
                limited,
                ..
            } => self.scan_rows(bounds.as_slice(), *limited, docs),
            Instr::Delete => self.delete_row(terms, docs),
            Instr::Patch => self.patch_row(terms, docs),
            Instr::Replace => self.replace_row(terms, docs),
            _ => self.stop("TypeError"),
        }
    }

    /// Goes on with the rows of a read, which are counted first.
    pub fn resume(
        &mut self,
        terms: &Terms,
        code: &Code,
        docs: Vec<Doc>,
    ) -> Result<Option<Stop>, Memory>
        ensures { IfOk result (λ stop. Moves (answered (terms_view terms.now) code.now (state_view self.old) docs.items) stop (state_view self.new)) }
    {
        if let Some(over) = self.count_rows(terms, docs.as_slice())? {
            return Ok(Some(Stop::Done(over)));
        }
        match instr_at(code, self.frame.at) {
            None => self.stop("TypeError"),
            Some(instr) => self.go_on(terms, instr, docs),
        }
    }

    /// Goes on with the rows of a read, up to the next stop.
    pub fn resume_on(&mut self, terms: &Terms, code: &Code, docs: Vec<Doc>) -> Result<Stop, Memory>
        ensures { (k : Course) → Follows (terms_view terms.now) code.now k (answered (terms_view terms.now) code.now (state_view self.old) docs.items) → IfOk result (λ stop. Reaches (terms_view terms.now) code.now k stop (state_view self.new)) }
    {
        if let Some(stop) = self.resume(terms, code, docs)? {
            return Ok(stop);
        }
        self.run_on(terms, code)
    }
}
