//! Writing keys behind what a buffer holds.
ghost use Rattle.std.specs.Prelude.{◌≡◌, ◌∷◌, ◌++◌, OnOk, map};
ghost use Rattle.cv_keys.specs.KeyBytes.{key, values_key, members_key, text_key, escaped, int_bytes};
ghost use Rattle.cv_keys.specs.KeyOrder.{IsInRange, AreInRange, MembersInRange};
ghost use Rattle.cv_values.specs.Trees.{tree};
ghost use Rattle.cv_values.specs.Value.{values_of, members_of};

use crate::kinds::{
    ARRAY, ARRAY_END, BOOLEAN, BYTES, ESCAPE, INTEGER, NULL, OBJECT, OBJECT_END, STRING, STRING_END,
};
use cv_values::{Fields, Memory, Val};

const SIGN_BIT: u64 = 0x8000_0000_0000_0000;

/// An integer's eight bytes, the highest first, with its highest bit flipped.
pub(crate) fn int_bytes(n: i64) -> [u8; 8]
    ensures { result ≡ int_bytes n }
{
    n.cast_unsigned().wrapping_add(SIGN_BIT).to_be_bytes()
}

pub(crate) fn put(out: &mut Vec<u8>, bytes: &[u8]) -> Result<(), Memory>
    ensures { OnOk result (out.new.items ≡ out.old.items ++ bytes.now) }
{
    out.extend_from_slice(bytes)?;
    Ok(())
}

fn put_escaped(out: &mut Vec<u8>, bytes: &[u8]) -> Result<(), Memory>
    ensures { OnOk result (out.new.items ≡ out.old.items ++ escaped bytes.now) }
{
    for b in bytes {
        if *b == 0 {
            put(out, &[0, ESCAPE])?;
        } else {
            put(out, &[*b])?;
        }
    }
    put(out, &[0, STRING_END])
}

/// Writes the key of a string of these bytes.
pub(crate) fn put_text(out: &mut Vec<u8>, text: &[u8]) -> Result<(), Memory>
    ensures { OnOk result (out.new.items ≡ out.old.items ++ text_key text.now) }
{
    put(out, &[STRING])?;
    put_escaped(out, text)
}

/// Writes the key of an integer.
pub(crate) fn put_int(out: &mut Vec<u8>, n: i64) -> Result<(), Memory>
    ensures { OnOk result (out.new.items ≡ out.old.items ++ 4 ∷ int_bytes n) }
{
    put(out, &[INTEGER])?;
    put(out, &int_bytes(n))
}

/// Writes a value's key.
#[cycle(put_key)]
pub(crate) fn put_key(out: &mut Vec<u8>, v: &Val) -> Result<(), Memory>
    ensures bytes { OnOk result (out.new.items ≡ out.old.items ++ key (tree v.now)) }
    ensures in_range { OnOk result (IsInRange (tree v.now)) }
{
    match v {
        Val::Null => put(out, &[NULL]),
        Val::Int(n) => put_int(out, *n),
        Val::Bool(false) => put(out, &[BOOLEAN, 0]),
        Val::Bool(true) => put(out, &[BOOLEAN, 1]),
        Val::Str(s) => put_text(out, s.as_str().as_bytes()),
        Val::Bin(b) => {
            put(out, &[BYTES])?;
            put_escaped(out, b.as_slice())
        }
        Val::Arr(items) => {
            put(out, &[ARRAY])?;
            put_values(out, items.as_slice())
        }
        Val::Obj(fields) => {
            put(out, &[OBJECT])?;
            put_fields(out, fields)
        }
    }
}

#[cycle(put_key)]
fn put_values(out: &mut Vec<u8>, items: &[Val]) -> Result<(), Memory>
    ensures bytes { OnOk result (out.new.items ≡ out.old.items ++ values_key (values_of (map tree items.now))) }
    ensures in_range { OnOk result (AreInRange (values_of (map tree items.now))) }
{
    for item in items {
        put_key(out, item)?;
    }
    put(out, &[ARRAY_END])
}

#[cycle(put_key)]
fn put_fields(out: &mut Vec<u8>, fields: &Fields) -> Result<(), Memory>
    ensures bytes { OnOk result (out.new.items ≡ out.old.items ++ members_key (members_of fields.now)) }
    ensures in_range { OnOk result (MembersInRange (members_of fields.now)) }
{
    for (name, v) in fields.as_map() {
        put_text(out, name.as_str().as_bytes())?;
        put_key(out, v)?;
    }
    put(out, &[OBJECT_END])
}
