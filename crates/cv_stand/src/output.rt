//! The lines that tell replies and entries.
ghost use Rattle.std.specs.Prelude.{◌≡◌, ◌∷◌, [], IfOk, string_bytes};
ghost use Rattle.cv_values.specs.Trees.{tree};
ghost use Rattle.fn_tree.specs.Course.{gives, failed};
ghost use Rattle.fn_tree.specs.EntryViews.{entry_view, reply_view};
ghost use Rattle.cv_stand.specs.EntryLines.{entry_line, entry_lines, reply_json, reply_line};
ghost use Rattle.cv_stand.specs.Texts.{with_feeds};
ghost use Rattle.cv_stand.specs.Writes.{Writes};
ghost use Rattle.cv_stand.specs.declared.output.PlayFault.TheVariants.{Memory as MemoryFault};

use cv_core::Core;
use cv_json::to_json;
use cv_outside::{Sink, write_whole};
use cv_values::{Memory, Text, Val};
use fn_tree::{Entry, Reply};
use serde_json::Value;
use std::alloc::Global;
use sync_msgs::entry_text;

/// Why an event wasn't played.
#[derive(Clone, Copy, Debug, PartialEq, Eq)]
pub enum PlayFault {
    /// The event's line isn't allowed now.
    Script,
    /// A write failed.
    Write,
    /// There was no memory.
    Memory,
}

impl From<Memory> for PlayFault {
    ghost from_gives = { λ _ e. e ≡ MemoryFault };

    fn from(_: Memory) -> Self {
        PlayFault::Memory
    }
}

fn value_json(alloc: Global, value: &Val) -> Result<String, Memory>
    ensures { IfOk result (λ s. string_bytes s ≡ reply_json (gives (tree value.now))) }
{
    let json = to_json(alloc, value)?;
    let Ok(json) = json.to_string(alloc) else {
        return Err(Memory);
    };
    Ok(format!(in alloc; "ok {json}")?)
}

fn error_json(alloc: Global, why: &Text) -> Result<String, Memory>
    ensures { IfOk result (λ s. string_bytes s ≡ reply_json (failed why.now)) }
{
    let why = Value::String(String::from_str(alloc, why.as_str())?);
    let Ok(json) = why.to_string(alloc) else {
        return Err(Memory);
    };
    Ok(format!(in alloc; "error {json}")?)
}

/// The line that tells the reply of an entry with this timestamp, without its line feed.
pub(crate) fn reply_text(alloc: Global, ts: u64, reply: &Reply) -> Result<String, Memory>
    ensures { IfOk result (λ s. string_bytes s ≡ reply_line ts (reply_view reply.now)) }
{
    let json = match reply {
        Reply::Value(value) => value_json(alloc, value)?,
        Reply::Failed(why) => error_json(alloc, why)?,
    };
    Ok(format!(in alloc; "reply {ts} {json}")?)
}

// The line that tells an entry with this timestamp, without its line feed. It copies all that it tells.
fn log_line(alloc: Global, ts: u64, entry: &Entry) -> Result<String, Memory>
    ensures { IfOk result (λ s. string_bytes s ≡ entry_line ts (entry_view entry.now)) }
{
    let text = entry_text(alloc, ts, entry)?;
    let json = text.as_str();
    Ok(format!(in alloc; "entry {json}")?)
}

/// Writes a line with its line feed.
pub(crate) fn write_line<K: Sink>(out: &mut K, line: String) -> Result<(), PlayFault>
    ensures { Writes (with_feeds (string_bytes line ∷ []))
        (K.held out.old) (K.held out.new) (K.faults out.old) (K.faults out.new) result }
{
    let mut text = line;
    if text.push('\n').is_err() {
        return Err(PlayFault::Memory);
    }
    match write_whole(out, text.as_bytes()) {
        Ok(()) => Ok(()),
        Err(_) => Err(PlayFault::Write),
    }
}

/// Tells the entries of a log, one at a time.
pub(crate) fn write_entries<K: Sink>(
    alloc: Global,
    core: &Core,
    out: &mut K,
) -> Result<(), PlayFault>
    ensures { Writes (with_feeds (entry_lines 0 core.now.log))
        (K.held out.old) (K.held out.new) (K.faults out.old) (K.faults out.new) result }
{
    for i in 0..core.len() {
        // Each number from 1 to the length has an entry.
        let Some(entry) = core.entry(i + 1) else {
            unreachable!()
        };
        let line = log_line(alloc, i + 1, entry)?;
        write_line(out, line)?;
    }
    Ok(())
}
