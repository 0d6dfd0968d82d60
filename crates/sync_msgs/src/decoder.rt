//! Reads the texts of clients.
ghost use Rattle.std.specs.Prelude.{◌≡◌, Ok, Some, IfOk, IfErr};
ghost use Rattle.serde_json.specs.Read.{read as json_read};
ghost use Rattle.serde_json.specs.View.{view};
ghost use Rattle.sync_msgs.specs.Causes.{IsFaultOf};
ghost use Rattle.sync_msgs.specs.ClientTexts.{connect_of, modify_of, mutation_of, message_of_type, message_of, message_in, read_message};
ghost use Rattle.sync_msgs.specs.MessageViews.{client_view};

use crate::arguments::args_field;
use crate::cause::{FieldName, MsgFault};
use crate::changes::read_changes;
use crate::fields::{array_field, count_field, observed_field, session_field, text_field, type_of};
use crate::messages::ClientMsg;
use cv_values::Text;
use serde_json::{Category, Value};
use std::alloc::Global;

/// The most bytes of a client's text.
pub const MAX_MESSAGE: usize = 4_194_304;

fn read_connect(alloc: Global, message: &Value) -> Result<ClientMsg, MsgFault>
    ensures ok { IfOk result (λ m. connect_of (view message.now) ≡ Ok (client_view m)) }
    ensures err { IfErr result (λ e. IsFaultOf (connect_of (view message.now)) e) }
{
    let session = session_field(message)?;
    let max_observed = observed_field(alloc, message)?;
    Ok(ClientMsg::Connect {
        session,
        max_observed,
    })
}

fn read_modify(alloc: Global, message: &Value) -> Result<ClientMsg, MsgFault>
    ensures ok { IfOk result (λ m. modify_of (view message.now) ≡ Ok (client_view m)) }
    ensures err { IfErr result (λ e. IsFaultOf (modify_of (view message.now)) e) }
{
    let base = count_field(message, FieldName::BaseVersion)?;
    let next = count_field(message, FieldName::NewVersion)?;
    let items = array_field(message, FieldName::Modifications)?;
    let changes = read_changes(alloc, items)?;
    Ok(ClientMsg::ModifyQuerySet {
        base,
        next,
        changes,
    })
}

fn read_mutation(alloc: Global, message: &Value) -> Result<ClientMsg, MsgFault>
    ensures ok { IfOk result (λ m. mutation_of (view message.now) ≡ Ok (client_view m)) }
    ensures err { IfErr result (λ e. IsFaultOf (mutation_of (view message.now)) e) }
{
    let request = count_field(message, FieldName::RequestId)?;
    let udf = text_field(alloc, message, FieldName::UdfPath)?;
    let args = args_field(alloc, message)?;
    Ok(ClientMsg::Mutation { request, udf, args })
}

// The message of this type that a tree is.
fn read_typed(alloc: Global, name: &str, message: &Value) -> Result<ClientMsg, MsgFault>
    ensures ok { IfOk result (λ m. message_of_type name.now (view message.now) ≡ Ok (client_view m)) }
    ensures err { IfErr result (λ e. IsFaultOf (message_of_type name.now (view message.now)) e) }
{
    if name == "Connect" {
        return read_connect(alloc, message);
    }
    if name == "ModifyQuerySet" {
        return read_modify(alloc, message);
    }
    if name == "Mutation" {
        return read_mutation(alloc, message);
    }
    if name == "Event" {
        return Ok(ClientMsg::Event);
    }
    Err(MsgFault::UnknownType)
}

fn read_tree(alloc: Global, message: &Value) -> Result<ClientMsg, MsgFault>
    ensures ok { IfOk result (λ m. message_of (view message.now) ≡ Ok (client_view m)) }
    ensures err { IfErr result (λ e. IsFaultOf (message_of (view message.now)) e) }
{
    match type_of(message) {
        Some(name) => read_typed(alloc, name, message),
        None => Err(MsgFault::BadField {
            name: FieldName::Type_,
        }),
    }
}

fn parse(alloc: Global, text: &str) -> Result<Value, MsgFault>
    ensures ok { IfOk result (λ v. json_read text.now ≡ Some (view v)) }
    ensures err { IfErr result (λ e. IsFaultOf (message_in (json_read text.now)) e) }
{
    match Value::from_str(alloc, text) {
        Ok(message) => Ok(message),
        Err(error) => match error.classify() {
            Category::Memory => Err(MsgFault::Memory),
            _ => Err(MsgFault::BadJson),
        },
    }
}

/// The message that a client's text is, or its first fault.
///
/// | type | fields, in the order in which they are checked |
/// |---|---|
/// | `Connect` | `sessionId`, a text that `uuid` parses; `maxObservedTimestamp`, absent, null or a timestamp's text |
/// | `ModifyQuerySet` | `baseVersion`, `newVersion`; `modifications`, a list |
/// | `Mutation` | `requestId`; `udfPath`, a string; `args`, a list of one object, which `from_json` reads as an object |
/// | `Event` | none |
///
/// A modification is an object of the type `Add` (`queryId`, `udfPath`, `args`) or `Remove` (`queryId`).
/// Numbers are whole, from 0 to 4,294,967,295. Other fields are ignored. Where a name stands twice, the
/// last one counts.
///
/// `TooLong` comes above 4,194,304 bytes, then `BadJson` where `serde_json` reads no JSON, which nests at
/// most 127 deep. `BadField` of `Type_` comes where the whole is no object with a text `type`, then
/// `UnknownType`, then `BadField` of the first field that is absent or wrong. Modifications are looked at
/// one after another, each whole: one that is no object or has another type is `BadField` of
/// `Modifications`, and a wrong field in one is named itself.
///
/// It parses the text into a tree and copies paths and arguments out of it. It takes time linear in the
/// text but for finding the place of each name.
pub fn decode(alloc: Global, text: &Text) -> Result<ClientMsg, MsgFault>
    ensures ok { IfOk result (λ m. read_message text.now ≡ Ok (client_view m)) }
    ensures err { IfErr result (λ e. IsFaultOf (read_message text.now) e) }
{
    let text = text.as_str();
    if text.len() > MAX_MESSAGE {
        return Err(MsgFault::TooLong);
    }
    let message = parse(alloc, text)?;
    read_tree(alloc, &message)
}
