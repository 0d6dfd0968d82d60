//! How long keys are, so that a key is written into room that is taken once.
ghost use Rattle.std.specs.Prelude.{◌≡◌, ◌+◌, ◌-◌, ◌^◌, min, map, length};
ghost use Rattle.cv_keys.specs.KeyBytes.{key, values_key, members_key, escaped};
ghost use Rattle.cv_values.specs.Trees.{tree};
ghost use Rattle.cv_values.specs.Value.{values_of, members_of};

use cv_values::{Fields, Val};

pub(crate) fn escaped_len(bytes: &[u8]) -> usize
    ensures { result ≡ min (length (escaped bytes.now)) (2 ^ 64 - 1) }
{
    let mut total = 0usize;
    for b in bytes {
        total = total.saturating_add(if *b == 0 { 2 } else { 1 });
    }
    total.saturating_add(2)
}

/// The length of a value's key, or the greatest number where it is more.
#[cycle(key_len)]
pub(crate) fn key_len(v: &Val) -> usize
    ensures { result ≡ min (length (key (tree v.now))) (2 ^ 64 - 1) }
{
    match v {
        Val::Null => 1,
        Val::Int(_) => 9,
        Val::Bool(_) => 2,
        Val::Str(s) => escaped_len(s.as_str().as_bytes()).saturating_add(1),
        Val::Bin(b) => escaped_len(b.as_slice()).saturating_add(1),
        Val::Arr(items) => values_len(items.as_slice()).saturating_add(1),
        Val::Obj(fields) => fields_len(fields).saturating_add(1),
    }
}

#[cycle(key_len)]
fn values_len(items: &[Val]) -> usize
    ensures { result ≡ min (length (values_key (values_of (map tree items.now)))) (2 ^ 64 - 1) }
{
    let mut total = 0usize;
    for item in items {
        total = total.saturating_add(key_len(item));
    }
    total.saturating_add(1)
}

#[cycle(key_len)]
fn fields_len(fields: &Fields) -> usize
    ensures { result ≡ min (length (members_key (members_of fields.now))) (2 ^ 64 - 1) }
{
    let mut total = 0usize;
    for (name, v) in fields.as_map() {
        total = total
            .saturating_add(1)
            .saturating_add(escaped_len(name.as_str().as_bytes()))
            .saturating_add(key_len(v));
    }
    total.saturating_add(1)
}
