//! Keys of values and documents.
ghost use Rattle.std.specs.Prelude.{◌≡◌, IfOk, OnOk};
ghost use Rattle.cv_keys.specs.Documents.{place};
ghost use Rattle.cv_keys.specs.KeyBytes.{key, place_key};
ghost use Rattle.cv_keys.specs.KeyOrder.{IsInRange, PlaceInRange};
ghost use Rattle.cv_values.specs.Trees.{tree};

use crate::encode::put_key;
use crate::item::{place_len, put_place};
use crate::key::Key;
use crate::length::key_len;
use crate::schema::Index;
use cv_values::{Doc, Memory, Val};
use std::alloc::Global;

/// The key of a value. Where it is made, the value is one that the key order law speaks of.
pub fn key_of(alloc: Global, v: &Val) -> Result<Key, Memory>
    ensures key { IfOk result (λ k. k ≡ key (tree v.now)) }
    ensures in_range { OnOk result (IsInRange (tree v.now)) }
{
    let mut out = Vec::with_capacity(alloc, key_len(v))?;
    put_key(&mut out, v)?;
    Ok(Key::from_vec(out))
}

/// The key of a document's place in an index. It is written into room that is taken once. Where it
/// is made, the place is one that the key order law speaks of.
pub fn index_key(alloc: Global, doc: &Doc, index: &Index) -> Result<Key, Memory>
    ensures key { IfOk result (λ k. k ≡ place_key (place doc.now index.now)) }
    ensures in_range { OnOk result (PlaceInRange (place doc.now index.now)) }
{
    let mut out = Vec::with_capacity(alloc, place_len(doc, index))?;
    put_place(&mut out, doc, index)?;
    Ok(Key::from_vec(out))
}
