//! The arguments of a call.
ghost use Rattle.std.specs.Prelude.{◌≡◌, Ok, Some, IfOk, IfErr, option_map};
ghost use Rattle.cv_values.specs.Trees.{tree};
ghost use Rattle.serde_json.specs.Find.{as_array};
ghost use Rattle.serde_json.specs.View.{view, items_view};
ghost use Rattle.std.specs.Prelude.{option_and_then};
ghost use Rattle.sync_msgs.specs.Causes.{IsFaultOf};
ghost use Rattle.sync_msgs.specs.ClientTexts.{field, fields_of, as_fields, only_item, as_arguments};

use crate::cause::{FieldName, MsgFault};
use cv_json::{JsonFault, from_json};
use cv_values::{Fields, Memory, Val};
use serde_json::Value;
use std::alloc::Global;

fn fields_of(value: Val) -> Option<Fields>
    ensures { result ≡ fields_of (tree value) }
{
    match value {
        Val::Obj(fields) => Some(fields),
        _ => None,
    }
}

fn as_fields(alloc: Global, object: &Value) -> Result<Option<Fields>, Memory>
    ensures { IfOk result (λ o. o ≡ as_fields (view object.now)) }
{
    match from_json(alloc, object) {
        Ok(value) => Ok(fields_of(value)),
        Err(JsonFault::Memory) => Err(Memory),
        Err(_) => Ok(None),
    }
}

fn only_item(items: &[Value]) -> Option<&Value>
    ensures { option_map (λ v. view v.now) result ≡ only_item (items_view items.now) }
{
    if items.len() != 1 {
        return None;
    }
    items.first()
}

fn as_arguments(alloc: Global, value: &Value) -> Result<Option<Fields>, Memory>
    ensures { IfOk result (λ o. o ≡ as_arguments (view value.now)) }
{
    let Some(items) = value.as_array() else {
        return Ok(None);
    };
    match only_item(items.as_slice()) {
        Some(object) => as_fields(alloc, object),
        None => Ok(None),
    }
}

/// The fields of the one object in the array `args`. What they hold is copied from the tree.
pub(crate) fn args_field(alloc: Global, message: &Value) -> Result<Fields, MsgFault>
    ensures ok { IfOk result (λ fs. field FieldName.Args as_arguments (view message.now) ≡ Ok fs) }
    ensures err { IfErr result (λ e. IsFaultOf (field FieldName.Args as_arguments (view message.now)) e) }
{
    let bad = Err(MsgFault::BadField {
        name: FieldName::Args,
    });
    let Some(value) = message.get("args") else {
        return bad;
    };
    match as_arguments(alloc, value)? {
        Some(args) => Ok(args),
        None => bad,
    }
}
