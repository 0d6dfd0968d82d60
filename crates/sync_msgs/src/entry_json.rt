//! The JSON of the log's entries.
ghost use Rattle.std.specs.Prelude.{◌≡◌, IfOk, map};
ghost use Rattle.cv_json.specs.Json.{json_of};
ghost use Rattle.cv_values.specs.Value.{object, members_of};
ghost use Rattle.fn_tree.specs.EntryViews.{entry_view, reply_view};
ghost use Rattle.serde_json.specs.Data.{member, no_members};
ghost use Rattle.serde_json.specs.Data as json;
ghost use Rattle.serde_json.specs.View.{view, items_view, members_view};
ghost use Rattle.sync_msgs.specs.EntryTexts.{doc_tree, write_tree, write_trees, session_tree, reply_tree, call_members, entry_members, entry_tree, entry_text};

use crate::trees::{named, text_json};
use cv_json::to_json;
use cv_keys::Write;
use cv_values::{Doc, Fields, Memory, Text, Val, doc_value, id_text};
use fn_tree::{Call, Entry, Reply};
use serde_json::{Map, Value, put};
use std::alloc::Global;
use uuid::Uuid;

// An object with one member.
fn object_of(alloc: Global, name: &str, value: Value) -> Result<Value, Memory>
    ensures { IfOk result (λ j. view j ≡ json.object (member name.now (view value) no_members)) }
{
    Ok(Value::Object(named(alloc, name, value)?))
}

fn reply_json(alloc: Global, reply: &Reply) -> Result<Value, Memory>
    ensures { IfOk result (λ j. view j ≡ reply_tree (reply_view reply.now)) }
{
    match reply {
        Reply::Value(value) => object_of(alloc, "value", to_json(alloc, value)?),
        Reply::Failed(why) => object_of(alloc, "error", text_json(alloc, why.as_str())?),
    }
}

fn doc_json(alloc: Global, doc: &Option<Doc>) -> Result<Value, Memory>
    ensures { IfOk result (λ j. view j ≡ doc_tree doc.now) }
{
    match doc {
        None => Ok(Value::Null),
        Some(doc) => to_json(alloc, &doc_value(alloc, doc)?),
    }
}

fn write_json(alloc: Global, write: &Write) -> Result<Value, Memory>
    ensures { IfOk result (λ j. view j ≡ write_tree write.now) }
{
    let mut parts = Vec::new(alloc);
    parts.push(text_json(alloc, id_text(alloc, &write.id)?.as_str())?)?;
    parts.push(doc_json(alloc, &write.new)?)?;
    Ok(Value::Array(parts))
}

fn write_items(alloc: Global, writes: &[Write]) -> Result<Vec<Value>, Memory>
    ensures { IfOk result (λ js. items_view js.items ≡ write_trees writes.now) }
{
    let mut trees = Vec::with_capacity(alloc, writes.len())?;
    for write in writes {
        trees.push(write_json(alloc, write)?)?;
    }
    Ok(trees)
}

fn writes_json(alloc: Global, writes: &[Write]) -> Result<Value, Memory>
    ensures { IfOk result (λ j. view j ≡ json.array (write_trees writes.now)) }
{
    Ok(Value::Array(write_items(alloc, writes)?))
}

fn session_json(alloc: Global, session: u128) -> Result<Value, Memory>
    ensures { IfOk result (λ j. view j ≡ session_tree session) }
{
    let mut buffer = Uuid::encode_buffer();
    let text = Uuid::from_u128(session)
        .hyphenated()
        .encode_lower(&mut buffer);
    text_json(alloc, text)
}

fn args_json(alloc: Global, args: &Fields) -> Result<Value, Memory>
    ensures { IfOk result (λ j. view j ≡ json_of (object (members_of args.now))) }
{
    let args = Val::Obj(args.copy(alloc)?);
    to_json(alloc, &args)
}

// The members that tell a call.
fn call_json(alloc: Global, call: &Call) -> Result<Map<String, Value>, Memory>
    ensures { IfOk result (λ m. members_view m.entries ≡ call_members call.entry.now) }
{
    let mut members = named(alloc, "args", args_json(alloc, &call.args)?)?;
    let now = to_json(alloc, &Val::Int(call.now))?;
    put(&mut members, alloc, "now", now)?;
    put(&mut members, alloc, "request", Value::from(call.request))?;
    let session = session_json(alloc, call.session)?;
    put(&mut members, alloc, "session", session)?;
    let udf = text_json(alloc, call.udf.as_str())?;
    put(&mut members, alloc, "udf", udf)?;
    Ok(members)
}

// The members that tell an entry with this timestamp: the call, its reply, and for each write the id
// and the document after it, or null.
fn entry_parts(alloc: Global, ts: u64, entry: &Entry) -> Result<Map<String, Value>, Memory>
    ensures { IfOk result (λ m. members_view m.entries ≡ entry_members ts (entry_view entry.now)) }
{
    let mut members = call_json(alloc, &entry.call)?;
    put(
        &mut members,
        alloc,
        "reply",
        reply_json(alloc, &entry.reply)?,
    )?;
    put(&mut members, alloc, "ts", Value::from(ts))?;
    let writes = writes_json(alloc, entry.writes.as_slice())?;
    put(&mut members, alloc, "writes", writes)?;
    Ok(members)
}

fn entry_json(alloc: Global, ts: u64, entry: &Entry) -> Result<Value, Memory>
    ensures { IfOk result (λ j. view j ≡ entry_tree ts (entry_view entry.now)) }
{
    Ok(Value::Object(entry_parts(alloc, ts, entry)?))
}

/// The JSON of an entry with this timestamp: `args`, `now` (as a value), `reply` (`{"value": v}` or
/// `{"error": text}`), `request`, `session` (hyphenated, in lower case), `ts` (a number), `udf` and
/// `writes`, a list of `[id, document or null]`.
///
/// It copies all that it tells, the arguments twice, and takes time linear in the entry but for finding
/// the place of each name.
#[tactic(auto, using(crate::proofs::NoFloats::entry_no_float))]
pub fn entry_text(alloc: Global, ts: u64, entry: &Entry) -> Result<Text, Memory>
    ensures { IfOk result (λ t. t ≡ entry_text ts (entry_view entry.now)) }
{
    let json = entry_json(alloc, ts, entry)?;
    Ok(Text::from_string(json.to_string(alloc)?))
}
