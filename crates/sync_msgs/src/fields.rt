//! The fields of a client's message.
ghost use Rattle.std.specs.Prelude.{◌≡◌, Ok, IfOk, IfErr, option_map};
ghost use Rattle.serde_json.specs.Find.{as_str, as_array};
ghost use Rattle.serde_json.specs.View.{view, items_view};
ghost use Rattle.sync_msgs.specs.Causes.{IsFaultOf};
ghost use Rattle.sync_msgs.specs.ClientTexts.{field, as_count, as_session, as_observed, observed, type_of};

use crate::cause::{FieldName, MsgFault};
use cv_json::read_ts;
use cv_values::{Memory, Text};
use serde_json::Value;
use std::alloc::Global;
use uuid::Uuid;

/// The name of a message's type, or of a modification's.
pub(crate) fn type_of(message: &Value) -> Option<&str>
    ensures { option_map (λ s. s.now) result ≡ type_of (view message.now) }
{
    message.get("type").and_then(Value::as_str)
}

fn as_count(value: &Value) -> Option<u32>
    ensures { result ≡ as_count (view value.now) }
{
    u32::try_from(value.as_u64()?).ok()
}

/// A whole number from 0 to 4,294,967,295.
pub(crate) fn count_field(message: &Value, name: FieldName) -> Result<u32, MsgFault>
    ensures ok { IfOk result (λ n. field name as_count (view message.now) ≡ Ok n) }
    ensures err { IfErr result (λ e. IsFaultOf (field name as_count (view message.now)) e) }
{
    match message.get(name.as_str()).and_then(as_count) {
        Some(n) => Ok(n),
        None => Err(MsgFault::BadField { name }),
    }
}

/// A string, which is copied.
pub(crate) fn text_field(alloc: Global, message: &Value, name: FieldName) -> Result<Text, MsgFault>
    ensures ok { IfOk result (λ t. field name as_str (view message.now) ≡ Ok t) }
    ensures err { IfErr result (λ e. IsFaultOf (field name as_str (view message.now)) e) }
{
    match message.get(name.as_str()).and_then(Value::as_str) {
        Some(text) => Ok(Text::of(alloc, text)?),
        None => Err(MsgFault::BadField { name }),
    }
}

/// An array.
pub(crate) fn array_field(message: &Value, name: FieldName) -> Result<&[Value], MsgFault>
    ensures ok { IfOk result (λ vs. field name as_array (view message.now) ≡ Ok (items_view vs.now)) }
    ensures err { IfErr result (λ e. IsFaultOf (field name as_array (view message.now)) e) }
{
    match message.get(name.as_str()).and_then(Value::as_array) {
        Some(items) => Ok(items.as_slice()),
        None => Err(MsgFault::BadField { name }),
    }
}

fn as_session(value: &Value) -> Option<u128>
    ensures { result ≡ as_session (view value.now) }
{
    match Uuid::parse_str(value.as_str()?) {
        Ok(session) => Some(session.as_u128()),
        Err(_) => None,
    }
}

/// The session of a `Connect`.
pub(crate) fn session_field(message: &Value) -> Result<u128, MsgFault>
    ensures ok { IfOk result (λ n. field FieldName.SessionId as_session (view message.now) ≡ Ok n) }
    ensures err { IfErr result (λ e. IsFaultOf (field FieldName.SessionId as_session (view message.now)) e) }
{
    match message.get("sessionId").and_then(as_session) {
        Some(session) => Ok(session),
        None => Err(MsgFault::BadField {
            name: FieldName::SessionId,
        }),
    }
}

fn as_observed(alloc: Global, value: &Value) -> Result<Option<Option<u64>>, Memory>
    ensures { IfOk result (λ o. o ≡ as_observed (view value.now)) }
{
    if value.is_null() {
        return Ok(Some(None));
    }
    let Some(text) = value.as_str() else {
        return Ok(None);
    };
    match read_ts(&Text::of(alloc, text)?) {
        Some(ts) => Ok(Some(Some(ts))),
        None => Ok(None),
    }
}

/// The timestamp that a `Connect` has observed. It may be absent, and null is none.
pub(crate) fn observed_field(alloc: Global, message: &Value) -> Result<Option<u64>, MsgFault>
    ensures ok { IfOk result (λ ts. observed (view message.now) ≡ Ok ts) }
    ensures err { IfErr result (λ e. IsFaultOf (observed (view message.now)) e) }
{
    let Some(value) = message.get("maxObservedTimestamp") else {
        return Ok(None);
    };
    match as_observed(alloc, value)? {
        Some(observed) => Ok(observed),
        None => Err(MsgFault::BadField {
            name: FieldName::MaxObservedTimestamp,
        }),
    }
}
