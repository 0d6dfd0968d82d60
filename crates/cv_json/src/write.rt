ghost use Rattle.std.specs.Prelude.{◌≡◌, IfOk, Ok, map, false};
ghost use Rattle.base64.specs.GeneralPurpose.{IsBytes};
ghost use Rattle.cv_json.specs.Base64.{base64_text};
ghost use Rattle.cv_json.specs.Json.{json_of, values_json, members_json, tagged};
ghost use Rattle.cv_json.specs.Ranges.{IsInRange, ValuesInRange, MembersInRange};
ghost use Rattle.cv_json.specs.Reads.{read};
ghost use Rattle.cv_values.specs.Sizes.{checked};
ghost use Rattle.cv_values.specs.Trees.{tree};
ghost use Rattle.cv_values.specs.Value.{values_of, members_of};
ghost use Rattle.serde_json.specs.View.{view, items_view, members_view};
ghost use Rattle.serde_json.specs.Written.{has_float};

use base64::engine::general_purpose::STANDARD;
use cv_values::{Fields, Memory, Val};
use serde_json::{Map, Value};
use std::alloc::Global;

/// The JSON tree of a value, in the forms that the crate's page lists. It copies each text, name
/// and string of bytes, and takes time linear in the value but for finding the place of each name.
///
/// Each value is written, also one that [`from_json`](crate::from_json) refuses, as too deep or
/// with a bad name. Of a value that `check_value` accepts, the tree is read as that value.
#[tactic(auto, using(crate::proofs::NoFloats::no_float))]
pub fn to_json(alloc: Global, v: &Val) -> Result<Value, Memory>
    ensures value { IfOk result (λ j. view j ≡ json_of (tree v.now)) }
    ensures reads_back { IfOk result
        (λ j. checked false (tree v.now) ≡ Ok tt → read (view j) ≡ Ok (tree v.now)) }
    ensures no_float { IfOk result (λ j. has_float (view j) ≡ false) }
{
    write_value(alloc, v)
}

#[cycle(write)]
fn write_value(alloc: Global, v: &Val) -> Result<Value, Memory>
    ensures value { IfOk result (λ j. view j ≡ json_of (tree v.now)) }
    ensures in_range { IfOk result (λ j. IsInRange (tree v.now)) }
{
    match v {
        Val::Null => Ok(Value::Null),
        Val::Int(n) => write_tagged(alloc, "$integer", &n.to_le_bytes()),
        Val::Bool(b) => Ok(Value::Bool(*b)),
        Val::Str(s) => Ok(Value::String(String::from_str(alloc, s.as_str())?)),
        Val::Bin(b) => write_tagged(alloc, "$bytes", b.as_slice()),
        Val::Arr(items) => Ok(Value::Array(write_values(alloc, items.as_slice())?)),
        Val::Obj(fields) => Ok(Value::Object(write_fields(alloc, fields)?)),
    }
}

#[cycle(write)]
fn write_values(alloc: Global, items: &[Val]) -> Result<Vec<Value>, Memory>
    ensures value { IfOk result
        (λ trees. items_view trees.items ≡ values_json (values_of (map tree items.now))) }
    ensures in_range { IfOk result (λ trees. ValuesInRange (values_of (map tree items.now))) }
{
    let mut trees = Vec::with_capacity(alloc, items.len())?;
    for item in items {
        trees.push(write_value(alloc, item)?)?;
    }
    Ok(trees)
}

#[cycle(write)]
fn write_fields(alloc: Global, fields: &Fields) -> Result<Map<String, Value>, Memory>
    ensures value { IfOk result
        (λ trees. members_view trees.entries ≡ members_json (members_of fields.now)) }
    ensures in_range { IfOk result (λ trees. MembersInRange (members_of fields.now)) }
{
    let mut trees = Map::new(alloc);
    for (name, v) in fields.as_map() {
        serde_json::put(&mut trees, alloc, name.as_str(), write_value(alloc, v)?)?;
    }
    Ok(trees)
}

// An object with one name, before the base64 text of some bytes.
fn write_tagged(alloc: Global, name: &str, bytes: &[u8]) -> Result<Value, Memory>
    ensures value { IfOk result (λ j. view j ≡ tagged name.now (base64_text bytes.now)) }
    ensures in_range { IfOk result (λ j. IsBytes bytes.now) }
{
    let text = STANDARD.encode(alloc, bytes)?;
    let mut members = Map::new(alloc);
    serde_json::put(&mut members, alloc, name, Value::String(text))?;
    Ok(Value::Object(members))
}
