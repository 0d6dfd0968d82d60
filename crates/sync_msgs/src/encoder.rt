//! The JSON of a server's messages.
ghost use Rattle.std.specs.Prelude.{◌≡◌, IfOk, map, codes};
ghost use Rattle.cv_values.specs.Trees.{tree};
ghost use Rattle.fn_tree.specs.Course.{gives, failed};
ghost use Rattle.serde_json.specs.Data.{array, no_members, member, string};
ghost use Rattle.serde_json.specs.View.{view, items_of, items_view, members_view};
ghost use Rattle.serde_json.specs.Written.{compact_text};
ghost use Rattle.sync_msgs.specs.MessageViews.{shown_view, server_tree};
ghost use Rattle.sync_msgs.specs.Messages.{shows, hides};
ghost use Rattle.sync_msgs.specs.ServerTexts.{no_lines, version_tree, shown_tree, transition_tree, success_tree, failure_tree, refusal_tree};

use crate::messages::{MutationResult, ServerMsg, Shown};
use crate::trees::{named, text_json, ts_json};
use crate::version::Version;
use cv_json::to_json;
use cv_values::{Memory, Text, Val};
use serde_json::{Map, Value, put};
use std::alloc::Global;

// The member that tells a message's type.
fn typed(alloc: Global, name: &str) -> Result<Map<String, Value>, Memory>
    ensures { IfOk result (λ m. members_view m.entries ≡ member (codes "type") (string name.now) no_members) }
{
    named(alloc, "type", text_json(alloc, name)?)
}

fn version_json(alloc: Global, version: Version) -> Result<Value, Memory>
    ensures { IfOk result (λ j. view j ≡ version_tree version) }
{
    let mut members = named(alloc, "ts", ts_json(alloc, version.ts)?)?;
    put(
        &mut members,
        alloc,
        "identity",
        Value::from(version.identity),
    )?;
    put(
        &mut members,
        alloc,
        "querySet",
        Value::from(version.query_set),
    )?;
    Ok(Value::Object(members))
}

fn no_lines(alloc: Global) -> Value
    ensures { view result ≡ no_lines }
{
    Value::Array(Vec::new(alloc))
}

fn updated_json(alloc: Global, id: u32, value: &Val) -> Result<Value, Memory>
    ensures { IfOk result (λ j. view j ≡ shown_tree (shows id (gives (tree value.now)))) }
{
    let mut members = typed(alloc, "QueryUpdated")?;
    put(&mut members, alloc, "journal", Value::Null)?;
    put(&mut members, alloc, "logLines", no_lines(alloc))?;
    put(&mut members, alloc, "queryId", Value::from(id))?;
    put(&mut members, alloc, "value", to_json(alloc, value)?)?;
    Ok(Value::Object(members))
}

fn failed_json(alloc: Global, id: u32, error: &Text) -> Result<Value, Memory>
    ensures { IfOk result (λ j. view j ≡ shown_tree (shows id (failed error.now))) }
{
    let mut members = typed(alloc, "QueryFailed")?;
    let error = text_json(alloc, error.as_str())?;
    put(&mut members, alloc, "errorMessage", error)?;
    put(&mut members, alloc, "journal", Value::Null)?;
    put(&mut members, alloc, "logLines", no_lines(alloc))?;
    put(&mut members, alloc, "queryId", Value::from(id))?;
    Ok(Value::Object(members))
}

fn removed_json(alloc: Global, id: u32) -> Result<Value, Memory>
    ensures { IfOk result (λ j. view j ≡ shown_tree (hides id)) }
{
    let mut members = typed(alloc, "QueryRemoved")?;
    put(&mut members, alloc, "queryId", Value::from(id))?;
    Ok(Value::Object(members))
}

fn shown_json(alloc: Global, shown: &Shown) -> Result<Value, Memory>
    ensures { IfOk result (λ j. view j ≡ shown_tree (shown_view shown.now)) }
{
    match shown {
        Shown::QueryUpdated { id, value } => updated_json(alloc, *id, value),
        Shown::QueryFailed { id, error } => failed_json(alloc, *id, error),
        Shown::QueryRemoved { id } => removed_json(alloc, *id),
    }
}

fn shown_items(alloc: Global, changes: &[Shown]) -> Result<Vec<Value>, Memory>
    ensures { IfOk result (λ js. items_view js.items ≡ items_of (map shown_tree (map shown_view changes.now))) }
{
    let mut trees = Vec::with_capacity(alloc, changes.len())?;
    for shown in changes {
        trees.push(shown_json(alloc, shown)?)?;
    }
    Ok(trees)
}

fn transition_json(
    alloc: Global,
    start: Version,
    end: Version,
    changes: &[Shown],
) -> Result<Value, Memory>
    ensures { IfOk result (λ j. view j ≡ transition_tree start end (map shown_view changes.now)) }
{
    let changes = Value::Array(shown_items(alloc, changes)?);
    let mut members = typed(alloc, "Transition")?;
    put(&mut members, alloc, "endVersion", version_json(alloc, end)?)?;
    put(&mut members, alloc, "modifications", changes)?;
    put(
        &mut members,
        alloc,
        "startVersion",
        version_json(alloc, start)?,
    )?;
    Ok(Value::Object(members))
}

fn success_json(alloc: Global, request: u32, ts: u64, value: &Val) -> Result<Value, Memory>
    ensures { IfOk result (λ j. view j ≡ success_tree request ts (tree value.now)) }
{
    let mut members = typed(alloc, "MutationResponse")?;
    put(&mut members, alloc, "logLines", no_lines(alloc))?;
    put(&mut members, alloc, "requestId", Value::from(request))?;
    put(&mut members, alloc, "result", to_json(alloc, value)?)?;
    put(&mut members, alloc, "success", Value::Bool(true))?;
    put(&mut members, alloc, "ts", ts_json(alloc, ts)?)?;
    Ok(Value::Object(members))
}

fn failure_json(alloc: Global, request: u32, error: &Text) -> Result<Value, Memory>
    ensures { IfOk result (λ j. view j ≡ failure_tree request error.now) }
{
    let mut members = typed(alloc, "MutationResponse")?;
    put(&mut members, alloc, "logLines", no_lines(alloc))?;
    put(&mut members, alloc, "requestId", Value::from(request))?;
    let error = text_json(alloc, error.as_str())?;
    put(&mut members, alloc, "result", error)?;
    put(&mut members, alloc, "success", Value::Bool(false))?;
    Ok(Value::Object(members))
}

fn refusal_json(alloc: Global, error: &Text) -> Result<Value, Memory>
    ensures { IfOk result (λ j. view j ≡ refusal_tree error.now) }
{
    let mut members = typed(alloc, "FatalError")?;
    put(
        &mut members,
        alloc,
        "error",
        text_json(alloc, error.as_str())?,
    )?;
    Ok(Value::Object(members))
}

fn message_json(alloc: Global, m: &ServerMsg) -> Result<Value, Memory>
    ensures { IfOk result (λ j. view j ≡ server_tree m.now) }
{
    match m {
        ServerMsg::Transition {
            start,
            end,
            changes,
        } => { transition_json(alloc, *start, *end, changes) }
        ServerMsg::MutationResponse {
            request,
            result: ended,
        } => match ended {
            MutationResult::Value { value, ts } => success_json(alloc, *request, *ts, value),
            MutationResult::Failed { error } => failure_json(alloc, *request, error),
        },
        ServerMsg::FatalError { error } => refusal_json(alloc, error),
    }
}

/// The compact JSON text of a message, with names in byte order.
///
/// | type | fields |
/// |---|---|
/// | `Transition` | `startVersion`, `endVersion`, `modifications` |
/// | `MutationResponse` | `requestId`, `success`, `result`, `logLines`, and `ts` for a value |
/// | `FatalError` | `error` |
///
/// A version is `{"querySet": number, "identity": number, "ts": text}`. A modification is `QueryUpdated`
/// (`queryId`, `value`, `logLines`, `journal`), `QueryFailed` (`queryId`, `errorMessage`, `logLines`,
/// `journal`) or `QueryRemoved` (`queryId`). The list `logLines` is empty, and `journal` is null.
///
/// It builds the message's tree, which copies each text, and writes it. It takes time linear in the
/// message but for finding the place of each name.
#[tactic(auto, using(crate::proofs::NoFloats::server_no_float))]
pub fn encode(alloc: Global, m: &ServerMsg) -> Result<Text, Memory>
    ensures { IfOk result (λ t. t ≡ compact_text (server_tree m.now)) }
{
    let json = message_json(alloc, m)?;
    Ok(Text::from_string(json.to_string(alloc)?))
}
