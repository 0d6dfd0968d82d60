//! The code of functions.
ghost use Rattle.std.specs.Prelude.{◌≡◌, ◌++◌, map, length, IfOk, OnOk};
ghost use Rattle.fn_tree.specs.Schemas.{text_of};
ghost use Rattle.fn_tree.specs.SyntaxViews.{function_view};
ghost use Rattle.fn_code.specs.Coding.{function_code, functions_code, entries_at};

use crate::code::{Entry, Instr};
use crate::emit::instructions::put;
use crate::emit::statements::emit_stmts;
use crate::known::Known;
use cv_values::{Memory, Seq, Text};
use fn_tree::{Function, Named};
use std::alloc::Global;

fn texts_of(alloc: Global, names: &[Named]) -> Result<Seq<Text>, Memory>
    ensures { IfOk result (λ texts. texts ≡ map text_of names.now) }
{
    let mut texts = Seq::new(alloc);
    for name in names {
        texts.push(name.text.copy(alloc)?)?;
    }
    Ok(texts)
}

/// A function that begins at a place.
fn entry_at(alloc: Global, function: &Function, at: u64) -> Result<Entry, Memory>
    ensures { IfOk result (λ entry. entry ≡ record { kind = function.now.kind; udf = function.now.udf; params = map text_of function.now.params.items; at = at }) }
{
    Ok(Entry {
        kind: function.kind,
        udf: function.udf.copy(alloc)?,
        params: texts_of(alloc, &function.params)?,
        at,
    })
}

/// A function, whose parameters are its first variables. A body that ends gives null.
fn emit_function(
    alloc: Global,
    known: &mut Known,
    out: &mut Vec<Instr>,
    function: &Function,
) -> Result<(), Memory>
    ensures code { OnOk result (out.new.items ≡ out.old.items ++ function_code known.old (function_view function.now)) }
    ensures known { OnOk result (known.new ≡ known.old) }
{
    let outside = known.count();
    known.declare_all(alloc, &function.params)?;
    emit_stmts(alloc, known, out, &function.body)?;
    put(out, Instr::Null)?;
    put(out, Instr::Return)?;
    known.forget(outside);
    Ok(())
}

/// Functions one behind the other, with where each begins. A helper is known behind its own end.
pub fn emit_functions(
    alloc: Global,
    known: &mut Known,
    out: &mut Vec<Instr>,
    entries: &mut Vec<Entry>,
    functions: &[Function],
) -> Result<(), Memory>
    ensures code { OnOk result (out.new.items ≡ out.old.items ++ functions_code known.old 0 (map function_view functions.now)) }
    ensures entries { OnOk result (entries.new.items ≡ entries.old.items ++ entries_at known.old 0 (length out.old.items) (map function_view functions.now)) }
    ensures schema { OnOk result (known.new.schema ≡ known.old.schema) }
{
    for (number, function) in functions.iter().enumerate() {
        entries.push(entry_at(alloc, function, out.len() as u64)?)?;
        emit_function(alloc, known, out, function)?;
        known.complete(alloc, number as u64, function)?;
    }
    Ok(())
}
