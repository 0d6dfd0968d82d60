//! Comparing keys with a target as they go, so that no key is made.
//!
//! Each call answers what is left of a target that begins with the key's bytes, or how the key
//! compares with the target where they part.
ghost use Rattle.std.specs.Prelude.{◌≡◌, [], ◌∷◌, map};
ghost use Rattle.cv_keys.specs.KeyBytes.{key, values_key, members_key, text_key, escaped, int_bytes};
ghost use Rattle.cv_keys.specs.Meets.{IsMet};
ghost use Rattle.cv_values.specs.Trees.{tree};
ghost use Rattle.cv_values.specs.Value.{values_of, members_of};

use crate::encode::int_bytes;
use crate::kinds::{
    ARRAY, ARRAY_END, BOOLEAN, BYTES, ESCAPE, INTEGER, NULL, OBJECT, OBJECT_END, STRING, STRING_END,
};
use cv_values::{Fields, Val};
use std::cmp::Ordering;

fn meet_byte(byte: u8, target: &[u8]) -> Result<&[u8], Ordering>
    ensures { IsMet (byte ∷ []) target.now result }
{
    match target.split_first() {
        None => Err(Ordering::Greater),
        Some((first, rest)) => match byte.cmp(first) {
            Ordering::Less => Err(Ordering::Less),
            Ordering::Equal => Ok(rest),
            Ordering::Greater => Err(Ordering::Greater),
        },
    }
}

pub(crate) fn meet<'a>(bytes: &[u8], target: &'a [u8]) -> Result<&'a [u8], Ordering>
    ensures { IsMet bytes.now target.now result }
{
    let mut rest = target;
    for b in bytes {
        rest = meet_byte(*b, rest)?;
    }
    Ok(rest)
}

fn meet_escaped<'a>(bytes: &[u8], target: &'a [u8]) -> Result<&'a [u8], Ordering>
    ensures { IsMet (escaped bytes.now) target.now result }
{
    let mut rest = target;
    for b in bytes {
        if *b == 0 {
            rest = meet(&[0, ESCAPE], rest)?;
        } else {
            rest = meet(&[*b], rest)?;
        }
    }
    meet(&[0, STRING_END], rest)
}

/// The key of a string of these bytes.
pub(crate) fn meet_text<'a>(text: &[u8], target: &'a [u8]) -> Result<&'a [u8], Ordering>
    ensures { IsMet (text_key text.now) target.now result }
{
    let rest = meet(&[STRING], target)?;
    meet_escaped(text, rest)
}

/// The key of an integer.
pub(crate) fn meet_int(n: i64, target: &[u8]) -> Result<&[u8], Ordering>
    ensures { IsMet (4 ∷ int_bytes n) target.now result }
{
    let rest = meet(&[INTEGER], target)?;
    meet(&int_bytes(n), rest)
}

/// A value's key.
#[cycle(meet_key)]
pub(crate) fn meet_key<'a>(v: &Val, target: &'a [u8]) -> Result<&'a [u8], Ordering>
    ensures { IsMet (key (tree v.now)) target.now result }
{
    match v {
        Val::Null => meet(&[NULL], target),
        Val::Int(n) => meet_int(*n, target),
        Val::Bool(false) => meet(&[BOOLEAN, 0], target),
        Val::Bool(true) => meet(&[BOOLEAN, 1], target),
        Val::Str(s) => meet_text(s.as_str().as_bytes(), target),
        Val::Bin(b) => {
            let rest = meet(&[BYTES], target)?;
            meet_escaped(b.as_slice(), rest)
        }
        Val::Arr(items) => {
            let rest = meet(&[ARRAY], target)?;
            meet_values(items.as_slice(), rest)
        }
        Val::Obj(fields) => {
            let rest = meet(&[OBJECT], target)?;
            meet_fields(fields, rest)
        }
    }
}

#[tactic(auto, using(crate::proofs::Meeting::met_both, std::proofs::lemmas::Grind::common_steps))]
#[cycle(meet_key)]
fn meet_values<'a>(items: &[Val], target: &'a [u8]) -> Result<&'a [u8], Ordering>
    ensures { IsMet (values_key (values_of (map tree items.now))) target.now result }
{
    let mut rest = target;
    for item in items {
        rest = meet_key(item, rest)?;
    }
    meet(&[ARRAY_END], rest)
}

#[tactic(auto, using(crate::proofs::Meeting::met_both))]
#[cycle(meet_key)]
fn meet_fields<'a>(fields: &Fields, target: &'a [u8]) -> Result<&'a [u8], Ordering>
    ensures { IsMet (members_key (members_of fields.now)) target.now result }
{
    let mut rest = target;
    for (name, v) in fields.as_map() {
        rest = meet_text(name.as_str().as_bytes(), rest)?;
        rest = meet_key(v, rest)?;
    }
    meet(&[OBJECT_END], rest)
}
