//! Jumps, which are filled in when the code that they leave out is there.
ghost use Rattle.std.specs.Prelude.{◌≡◌, ◌<◌, ◌≤◌, ◌+◌, ◌-◌, [], ◌∷◌, ◌++◌, List, length, IfOk, OnOk};
ghost use Rattle.fn_code.specs.declared.code.Instr.{Instr};
ghost use Rattle.fn_code.specs.declared.code.Instr.TheVariants as instr;

use crate::code::Instr;
use crate::emit::instructions::put;
use cv_values::Memory;

/// How many instructions there are from a place on.
fn count_from(out: &[Instr], at: usize) -> u64
    requires { at ≤ length out.now }
    ensures count { result ≡ length out.now - at }
    ensures behind { (front rest : List Instr) → out.now ≡ front ++ rest → length front ≡ at → result ≡ length rest }
{
    (out.len() - at) as u64
}

/// The instruction at a place becomes another one.
fn fill(out: &mut Vec<Instr>, at: usize, instr: Instr)
    requires { at < length out.old.items }
    ensures filled { (front rest : List Instr) (old : Instr) → out.old.items ≡ front ++ old ∷ rest → length front ≡ at → out.new.items ≡ front ++ instr ∷ rest }
    ensures len { length out.new.items ≡ length out.old.items }
{
    out[at] = instr;
}

/// The jump behind a left side, which is filled in behind the right one.
pub fn begin_either(out: &mut Vec<Instr>, decides: bool) -> Result<usize, Memory>
    ensures code { OnOk result (out.new.items ≡ out.old.items ++ instr.Decide decides 0 ∷ []) }
    ensures place { IfOk result (λ at. at ≡ length out.old.items) }
{
    let at = out.len();
    put(out, Instr::Decide(decides, 0))?;
    Ok(at)
}

/// The check of a right side. The jump before it leads behind both.
pub fn end_either(out: &mut Vec<Instr>, at: usize, decides: bool) -> Result<(), Memory>
    requires { at < length out.old.items }
    ensures { OnOk result ((front rest : List Instr) (old : Instr) → out.old.items ≡ front ++ old ∷ rest → length front ≡ at → out.new.items ≡ front ++ instr.Decide decides (length rest + 1) ∷ (rest ++ instr.AsTruth ∷ [])) }
{
    let skipped = count_from(out.as_slice(), at);
    put(out, Instr::AsTruth)?;
    fill(out, at, Instr::Decide(decides, skipped));
    Ok(())
}

/// The jump behind a test, which is filled in behind the first branch.
pub fn begin_choice(out: &mut Vec<Instr>) -> Result<usize, Memory>
    ensures code { OnOk result (out.new.items ≡ out.old.items ++ instr.Branch 0 ∷ []) }
    ensures place { IfOk result (λ at. at ≡ length out.old.items) }
{
    let at = out.len();
    put(out, Instr::Branch(0))?;
    Ok(at)
}

/// The jump behind a first branch, which is filled in behind the other one. The jump before the branch
/// leads behind it.
pub fn middle_of_choice(out: &mut Vec<Instr>, at: usize) -> Result<usize, Memory>
    requires { at < length out.old.items }
    ensures code { OnOk result ((front rest : List Instr) (old : Instr) → out.old.items ≡ front ++ old ∷ rest → length front ≡ at → out.new.items ≡ front ++ instr.Branch (length rest + 1) ∷ (rest ++ instr.Jump 0 ∷ [])) }
    ensures place { IfOk result (λ jump. jump ≡ length out.old.items) }
    ensures longer { OnOk result (length out.new.items ≡ length out.old.items + 1) }
{
    let skipped = count_from(out.as_slice(), at);
    let jump = out.len();
    put(out, Instr::Jump(0))?;
    fill(out, at, Instr::Branch(skipped));
    Ok(jump)
}

/// The jump behind the first branch leads behind the other one.
pub fn end_choice(out: &mut Vec<Instr>, jump: usize)
    requires { jump < length out.old.items }
    ensures { (front rest : List Instr) (old : Instr) → out.old.items ≡ front ++ old ∷ rest → length front ≡ jump → out.new.items ≡ front ++ instr.Jump (length rest) ∷ rest }
{
    let skipped = count_from(out.as_slice(), jump) - 1;
    fill(out, jump, Instr::Jump(skipped));
}

/// What stands before the body of a loop: the jump to the turns, which is filled in behind the body.
pub fn begin_loop(out: &mut Vec<Instr>) -> Result<usize, Memory>
    ensures code { OnOk result (out.new.items ≡ out.old.items ++ instr.Items ∷ instr.Jump 0 ∷ []) }
    ensures place { IfOk result (λ jump. jump ≡ length out.old.items + 1) }
{
    put(out, Instr::Items)?;
    let jump = out.len();
    put(out, Instr::Jump(0))?;
    Ok(jump)
}

/// The turns of a loop, behind its body, to which the jump before the body leads.
pub fn end_loop(out: &mut Vec<Instr>, jump: usize) -> Result<(), Memory>
    requires { jump < length out.old.items }
    ensures { OnOk result ((front rest : List Instr) (old : Instr) → out.old.items ≡ front ++ old ∷ rest → length front ≡ jump → out.new.items ≡ front ++ instr.Jump (length rest) ∷ (rest ++ instr.Turn (length rest) ∷ [])) }
{
    let body = count_from(out.as_slice(), jump) - 1;
    put(out, Instr::Turn(body))?;
    fill(out, jump, Instr::Jump(body));
    Ok(())
}
