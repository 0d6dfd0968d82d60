//! The modifications of a query set.
ghost use Rattle.std.specs.Prelude.{◌≡◌, Ok, IfOk, IfErr, map};
ghost use Rattle.serde_json.specs.View.{view, items_view};
ghost use Rattle.sync_msgs.specs.Causes.{IsFaultOf};
ghost use Rattle.sync_msgs.specs.ClientTexts.{add_of, remove_of, change_of, change_of_type, changes_of};
ghost use Rattle.sync_msgs.specs.MessageViews.{change_view};

use crate::arguments::args_field;
use crate::cause::{FieldName, MsgFault};
use crate::fields::{count_field, text_field, type_of};
use crate::messages::Change;
use serde_json::Value;
use std::alloc::Global;

fn read_add(alloc: Global, change: &Value) -> Result<Change, MsgFault>
    ensures ok { IfOk result (λ c. add_of (view change.now) ≡ Ok (change_view c)) }
    ensures err { IfErr result (λ e. IsFaultOf (add_of (view change.now)) e) }
{
    let id = count_field(change, FieldName::QueryId)?;
    let udf = text_field(alloc, change, FieldName::UdfPath)?;
    let args = args_field(alloc, change)?;
    Ok(Change::Add { id, udf, args })
}

fn read_remove(change: &Value) -> Result<Change, MsgFault>
    ensures ok { IfOk result (λ c. remove_of (view change.now) ≡ Ok (change_view c)) }
    ensures err { IfErr result (λ e. IsFaultOf (remove_of (view change.now)) e) }
{
    let id = count_field(change, FieldName::QueryId)?;
    Ok(Change::Remove { id })
}

fn read_change(alloc: Global, change: &Value) -> Result<Change, MsgFault>
    ensures ok { IfOk result (λ c. change_of (view change.now) ≡ Ok (change_view c)) }
    ensures err { IfErr result (λ e. IsFaultOf (change_of (view change.now)) e) }
{
    let bad = MsgFault::BadField {
        name: FieldName::Modifications,
    };
    let Some(name) = type_of(change) else {
        return Err(bad);
    };
    if name == "Add" {
        return read_add(alloc, change);
    }
    if name == "Remove" {
        return read_remove(change);
    }
    Err(bad)
}

/// The modifications in order, or the first fault of the first that has one.
pub(crate) fn read_changes(alloc: Global, items: &[Value]) -> Result<Vec<Change>, MsgFault>
    ensures ok { IfOk result (λ cs. changes_of (items_view items.now) ≡ Ok (map change_view cs.items)) }
    ensures err { IfErr result (λ e. IsFaultOf (changes_of (items_view items.now)) e) }
{
    let mut changes = Vec::new(alloc);
    for item in items {
        changes.push(read_change(alloc, item)?)?;
    }
    Ok(changes)
}
