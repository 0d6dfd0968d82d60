//! Parts of JSON trees.
ghost use Rattle.std.specs.Prelude.{◌≡◌, IfOk};
ghost use Rattle.cv_json.specs.Timestamps.{ts_text};
ghost use Rattle.serde_json.specs.Data.{no_members, member, string};
ghost use Rattle.serde_json.specs.View.{view, members_view};

use cv_json::ts_text;
use cv_values::Memory;
use serde_json::{Map, Value, put};
use std::alloc::Global;

pub(crate) fn text_json(alloc: Global, text: &str) -> Result<Value, Memory>
    ensures { IfOk result (λ j. view j ≡ string text.now) }
{
    Ok(Value::String(String::from_str(alloc, text)?))
}

pub(crate) fn ts_json(alloc: Global, ts: u64) -> Result<Value, Memory>
    ensures { IfOk result (λ j. view j ≡ string (ts_text ts)) }
{
    text_json(alloc, ts_text(alloc, ts)?.as_str())
}

/// One member.
pub(crate) fn named(alloc: Global, name: &str, value: Value) -> Result<Map<String, Value>, Memory>
    ensures { IfOk result (λ m. members_view m.entries ≡ member name.now (view value) no_members) }
{
    let mut members = Map::new(alloc);
    put(&mut members, alloc, name, value)?;
    Ok(members)
}
