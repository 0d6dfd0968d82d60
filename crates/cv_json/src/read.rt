ghost use Rattle.std.specs.Prelude.{◌≡◌, ◌+◌, ◌≢◌, ◌<◌, ◌≤◌, MatchResult, MatchOption, Some, None, IfOk, IfErr, Ok, Err, map, false};
ghost use Rattle.cv_json.specs.Reads.{read, read_at, read_object, read_items, read_members, special, tagged_value, any_bad_name};
ghost use Rattle.serde_json.specs.Data.{array};
ghost use Rattle.cv_values.specs.Trees.{tree as plain};
ghost use Rattle.cv_values.specs.Value.{values_of, members_of};
ghost use Rattle.serde_json.specs.View.{view, items_view, members_view};

use crate::base64_text::{bytes_of, eight_bytes_of};
use crate::fault::JsonFault;
use cv_values::{
    Bytes, Fields, MAX_DEPTH, MAX_ITEMS, MAX_NAMES, MAX_SIZE, Text, Val, Vals, is_bad_name, size_of,
};
use serde_json::{Map, Value};
use std::alloc::Global;

/// The value that a JSON tree is the form of, or its first fault.
///
/// Faults are looked for node by node: a parent before what it holds, items in order, members in
/// byte order of their names. A number or an object whose only name is a tag has the one fault of
/// its form. At an array or another object `TooDeep` comes first, then `TooMany`, then `BadName`.
/// `TooLarge` comes at the end, for the size of the whole.
///
/// Names that begin with `_` are read. The tree is left as it is: texts, names and bytes are
/// copied. It takes time linear in the tree but for finding the place of each name, and holds the
/// whole value before it knows that it is too large.
pub fn from_json(alloc: Global, tree: &Value) -> Result<Val, JsonFault>
    ensures ok { IfOk result (λ v. read (view tree.now) ≡ Ok (plain v)) }
    ensures err { IfErr result (λ e. e ≢ JsonFault.Memory → read (view tree.now) ≡ Err e) }
{
    let v = read_at(alloc, tree, 0)?;
    if size_of(&v) > MAX_SIZE {
        return Err(JsonFault::TooLarge);
    }
    Ok(v)
}

// The value of a tree that stands inside so many arrays and objects, whatever its size.
#[cycle(read)]
fn read_at(alloc: Global, tree: &Value, depth: u32) -> Result<Val, JsonFault>
    requires { depth ≤ 64 }
    ensures ok { IfOk result (λ v. read_at depth (view tree.now) ≡ Ok (plain v)) }
    ensures err { IfErr result (λ e. e ≢ JsonFault.Memory → read_at depth (view tree.now) ≡ Err e) }
{
    match tree {
        Value::Null => Ok(Val::Null),
        Value::Bool(b) => Ok(Val::Bool(*b)),
        Value::Number(n) => match n.as_i64() {
            Some(n) => Ok(Val::Int(n)),
            None => Err(JsonFault::FloatUnsupported),
        },
        Value::String(s) => Ok(Val::Str(Text::of(alloc, s.as_str())?)),
        Value::Array(items) => read_array(alloc, items, depth),
        Value::Object(members) => match special(alloc, members)? {
            Some(v) => Ok(v),
            None => read_object(alloc, members, depth),
        },
    }
}

#[cycle(read)]
#[tactic(auto, using(crate::proofs::Lens::lens, crate::proofs::Steps::steps))]
fn read_array(alloc: Global, items: &[Value], depth: u32) -> Result<Val, JsonFault>
    requires { depth ≤ 64 }
    ensures ok { IfOk result
        (λ v. read_at depth (array (items_view items.now)) ≡ Ok (plain v)) }
    ensures err { IfErr result
        (λ e. e ≢ JsonFault.Memory → read_at depth (array (items_view items.now)) ≡ Err e) }
{
    if depth >= MAX_DEPTH {
        return Err(JsonFault::TooDeep);
    }
    if items.len() > MAX_ITEMS {
        return Err(JsonFault::TooMany);
    }
    let values = read_items(alloc, items, depth + 1)?;
    Ok(Val::Arr(values))
}

// Of an object where no tag is its only name.
#[cycle(read)]
#[tactic(auto, using(crate::proofs::Lens::lens, crate::proofs::Steps::steps))]
fn read_object(alloc: Global, members: &Map<String, Value>, depth: u32) -> Result<Val, JsonFault>
    requires { depth ≤ 64 }
    ensures ok { IfOk result
        (λ v. read_object depth (members_view members.now.entries) ≡ Ok (plain v)) }
    ensures err { IfErr result
        (λ e. e ≢ JsonFault.Memory → read_object depth (members_view members.now.entries) ≡ Err e) }
{
    if depth >= MAX_DEPTH {
        return Err(JsonFault::TooDeep);
    }
    if members.len() > MAX_NAMES {
        return Err(JsonFault::TooMany);
    }
    if any_bad_name(members) {
        return Err(JsonFault::BadName);
    }
    let fields = read_members(alloc, members, depth + 1)?;
    Ok(Val::Obj(fields))
}

#[cycle(read)]
fn read_items(alloc: Global, items: &[Value], depth: u32) -> Result<Vals, JsonFault>
    requires { depth ≤ 64 }
    ensures ok { IfOk result
        (λ vs. read_items depth (items_view items.now) ≡ Ok (values_of vs)) }
    ensures err { IfErr result
        (λ e. e ≢ JsonFault.Memory → read_items depth (items_view items.now) ≡ Err e) }
{
    let mut values = Vals::new(alloc);
    for item in items {
        values.push(read_at(alloc, item, depth)?)?;
    }
    Ok(values)
}

#[cycle(read)]
fn read_members(
    alloc: Global,
    members: &Map<String, Value>,
    depth: u32,
) -> Result<Fields, JsonFault>
    requires { depth ≤ 64 }
    ensures ok { IfOk result
        (λ fs. read_members depth (members_view members.now.entries) ≡ Ok (members_of fs)) }
    ensures err { IfErr result
        (λ e. e ≢ JsonFault.Memory
        → read_members depth (members_view members.now.entries) ≡ Err e) }
{
    let mut fields = Fields::new(alloc);
    for (name, member) in members.iter() {
        let v = read_at(alloc, member, depth)?;
        drop(fields.insert(Text::of(alloc, name.as_str())?, v)?);
    }
    Ok(fields)
}

// The value of an object whose only name is a tag, or none for other members.
fn special(alloc: Global, members: &Map<String, Value>) -> Result<Option<Val>, JsonFault>
    ensures ok { IfOk result
        (λ o. MatchOption o (special (members_view members.now.entries) ≡ None)
        (λ v. special (members_view members.now.entries) ≡ Some (Ok (plain v)))) }
    ensures err { IfErr result
        (λ e. e ≢ JsonFault.Memory → special (members_view members.now.entries) ≡ Some (Err e)) }
{
    let mut entries = members.iter();
    let Some((name, member)) = entries.next() else {
        return Ok(None);
    };
    if entries.next().is_some() {
        return Ok(None);
    }
    tagged_value(alloc, name.as_str(), member)
}

// The value of an object with this one name, or none where the name is no tag.
fn tagged_value(alloc: Global, name: &str, member: &Value) -> Result<Option<Val>, JsonFault>
    ensures ok { IfOk result
        (λ o. MatchOption o (tagged_value name.now (view member.now) ≡ None)
        (λ v. tagged_value name.now (view member.now) ≡ Some (Ok (plain v)))) }
    ensures err { IfErr result
        (λ e. e ≢ JsonFault.Memory → tagged_value name.now (view member.now) ≡ Some (Err e)) }
{
    if name == "$float" {
        return Err(JsonFault::FloatUnsupported);
    }
    if name == "$integer" {
        return match member.as_str().and_then(eight_bytes_of) {
            Some(bytes) => Ok(Some(Val::Int(i64::from_le_bytes(bytes)))),
            None => Err(JsonFault::BadInteger),
        };
    }
    if name == "$bytes" {
        let Some(text) = member.as_str() else {
            return Err(JsonFault::BadBytes);
        };
        return match bytes_of(alloc, text)? {
            Some(bytes) => Ok(Some(Val::Bin(Bytes::of(alloc, &bytes)?))),
            None => Err(JsonFault::BadBytes),
        };
    }
    Ok(None)
}

fn any_bad_name(members: &Map<String, Value>) -> bool
    ensures { result ≡ any_bad_name (members_view members.now.entries) }
{
    for (name, _member) in members.iter() {
        if is_bad_name(false, name.as_str()) {
            return true;
        }
    }
    false
}
