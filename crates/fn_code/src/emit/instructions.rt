//! Single instructions.
ghost use Rattle.std.specs.Prelude.{◌≡◌, [], ◌∷◌, ◌++◌, OnOk};
ghost use Rattle.fn_code.specs.Coding.{load_code, store_code, call_code, insert_code, scan_code};

use crate::code::Instr;
use crate::known::Callee;
use cv_values::{Memory, Seq};
use fn_tree::CompareOp;

/// An instruction is put to the end of the code.
pub fn put(out: &mut Vec<Instr>, instr: Instr) -> Result<(), Memory>
    ensures { OnOk result (out.new.items ≡ out.old.items ++ instr ∷ []) }
{
    out.push(instr)?;
    Ok(())
}

pub fn load_of(slot: Option<u64>) -> Instr
    ensures { result ∷ [] ≡ load_code slot }
{
    match slot {
        None => Instr::Fail,
        Some(slot) => Instr::Load(slot),
    }
}

pub fn store_of(slot: Option<u64>) -> Instr
    ensures { result ∷ [] ≡ store_code slot }
{
    match slot {
        None => Instr::Fail,
        Some(slot) => Instr::Store(slot),
    }
}

/// A call of a helper that has as many parameters; of another one there is no call.
pub fn emit_call(out: &mut Vec<Instr>, callee: Option<Callee>, arguments: u64) -> Result<(), Memory>
    ensures { OnOk result (out.new.items ≡ out.old.items ++ call_code callee arguments) }
{
    match callee {
        Some(callee) if callee.params == arguments => {
            put(out, Instr::Call(callee.number, arguments))
        }
        _ => {
            put(out, Instr::Spend)?;
            put(out, Instr::Fail)
        }
    }
}

pub fn insert_of(table: Option<u16>) -> Instr
    ensures { result ∷ [] ≡ insert_code table }
{
    match table {
        None => Instr::Fail,
        Some(table) => Instr::Insert(table),
    }
}

/// A read of the index of these numbers.
pub fn scan_of(
    numbers: Option<(u16, u16)>,
    bounds: Seq<CompareOp>,
    desc: bool,
    limited: bool,
) -> Instr
    ensures { result ∷ [] ≡ scan_code numbers bounds desc limited }
{
    match numbers {
        None => Instr::Fail,
        Some((table, index)) => Instr::Scan {
            table,
            index,
            bounds,
            desc,
            limited,
        },
    }
}
