//! What a document has at the fields of an index.
ghost use Rattle.std.specs.Prelude.{◌≡◌, ◌++◌, ◌+◌, ◌-◌, ◌^◌, OnOk, min, length};
ghost use Rattle.cv_values.specs.Order.{text_cmp};
ghost use Rattle.cv_keys.specs.Meets.{IsMet};
ghost use Rattle.cv_keys.specs.Documents.{item_at, place};
ghost use Rattle.cv_keys.specs.Items.{shown};
ghost use Rattle.cv_keys.specs.KeyBytes.{item_key, place_key};
ghost use Rattle.cv_keys.specs.KeyOrder.{ItemInRange, PlaceInRange};

use crate::encode::{put, put_int, put_key};
use crate::ids::{ID_KEY_LEN, meet_id, put_id};
use crate::kinds::MISSING;
use crate::length::key_len;
use crate::meet::{meet, meet_int, meet_key};
use crate::schema::Index;
use cv_values::{Doc, DocId, Memory, Text, Val};
use std::cmp::Ordering;

/// What a document has at a field of an index, without a copy.
#[derive(Drop)]
pub(crate) enum Item<'a> {
    Missing,
    Id(DocId),
    Creation(i64),
    Field(&'a Val),
}

/// The item at a field: `_id` is the document's id, `_creationTime` its time of creation.
pub(crate) fn item_at<'a>(doc: &'a Doc, field: &Text) -> Item<'a>
    ensures { shown result ≡ item_at doc.now field.now }
{
    if field.as_str() == "_id" {
        return Item::Id(doc.id);
    }
    if field.as_str() == "_creationTime" {
        return Item::Creation(doc.creation);
    }
    match doc.fields.get(field) {
        None => Item::Missing,
        Some(v) => Item::Field(v),
    }
}

fn item_len(item: &Item) -> usize
    ensures { result ≡ min (length (item_key (shown item.now))) (2 ^ 64 - 1) }
{
    match item {
        Item::Missing => 1,
        Item::Id(_) => ID_KEY_LEN,
        Item::Creation(_) => 9,
        Item::Field(v) => key_len(v),
    }
}

fn put_item(out: &mut Vec<u8>, item: &Item) -> Result<(), Memory>
    ensures bytes { OnOk result (out.new.items ≡ out.old.items ++ item_key (shown item.now)) }
    ensures in_range { OnOk result (ItemInRange (shown item.now)) }
{
    match item {
        Item::Missing => put(out, &[MISSING]),
        Item::Id(id) => put_id(out, id),
        Item::Creation(n) => put_int(out, *n),
        Item::Field(v) => put_key(out, v),
    }
}

/// The length of the key of a document's place, or the greatest number where it is more.
pub(crate) fn place_len(doc: &Doc, index: &Index) -> usize
    ensures { result ≡ min (length (place_key (place doc.now index.now))) (2 ^ 64 - 1) }
{
    let mut total = 0usize;
    for field in index.fields.as_slice() {
        total = total.saturating_add(item_len(&item_at(doc, field)));
    }
    total
}

/// Writes the key of a document's place in an index.
pub(crate) fn put_place(out: &mut Vec<u8>, doc: &Doc, index: &Index) -> Result<(), Memory>
    ensures bytes { OnOk result (out.new.items ≡ out.old.items ++ place_key (place doc.now index.now)) }
    ensures in_range { OnOk result (PlaceInRange (place doc.now index.now)) }
{
    for field in index.fields.as_slice() {
        put_item(out, &item_at(doc, field))?;
    }
    Ok(())
}

fn meet_item<'a>(item: &Item, target: &'a [u8]) -> Result<&'a [u8], Ordering>
    ensures { IsMet (item_key (shown item.now)) target.now result }
{
    match item {
        Item::Missing => meet(&[MISSING], target),
        Item::Id(id) => meet_id(id, target),
        Item::Creation(n) => meet_int(*n, target),
        Item::Field(v) => meet_key(v, target),
    }
}

/// How the key of a document's place compares with a target. It makes no key.
#[tactic(auto, using(crate::proofs::Meeting::apart_cmp, crate::proofs::Meeting::equal_cmp, crate::proofs::Meeting::less_cmp))]
pub(crate) fn place_order(doc: &Doc, index: &Index, target: &[u8]) -> Ordering
    ensures { result ≡ text_cmp (place_key (place doc.now index.now)) target.now }
{
    match meet_place(doc, index, target) {
        Err(order) => order,
        Ok(rest) if rest.is_empty() => Ordering::Equal,
        Ok(_) => Ordering::Less,
    }
}

#[tactic(auto, using(crate::proofs::Meeting::met_both, std::proofs::lemmas::Grind::common_steps))]
fn meet_place<'a>(doc: &Doc, index: &Index, target: &'a [u8]) -> Result<&'a [u8], Ordering>
    ensures { IsMet (place_key (place doc.now index.now)) target.now result }
{
    let mut rest = target;
    for field in index.fields.as_slice() {
        rest = meet_item(&item_at(doc, field), rest)?;
    }
    Ok(rest)
}
