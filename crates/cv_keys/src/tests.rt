use crate::{
    Bound, Index, Interval, Range, RangeFault, Schema, Table, Write, contains, id_of, index_key,
    interval_of, key_of, touches,
};
use cv_values::{Bytes, Doc, DocId, Fields, Memory, Seq, Text, Val, Vals, id_text};
use std::alloc::Global;
use std::test::Fail;

fn text(alloc: Global, s: &str) -> Result<Val, Memory> {
    Ok(Val::Str(Text::of(alloc, s)?))
}

fn array_of(alloc: Global, v: Val) -> Result<Val, Memory> {
    let mut items = Vals::new(alloc);
    items.push(v)?;
    Ok(Val::Arr(items))
}

fn object_of(alloc: Global, name: &str, v: Val) -> Result<Val, Memory> {
    let mut fields = Fields::new(alloc);
    drop(fields.insert(Text::of(alloc, name)?, v)?);
    Ok(Val::Obj(fields))
}

fn has_key(alloc: Global, v: Val, bytes: &[u8]) -> Result<bool, Memory> {
    Ok(key_of(alloc, &v)?.as_slice() == bytes)
}

#[test]
fn keys_have_the_bytes_of_the_table(rt: HostRuntime) -> Result<(), Fail> {
    let alloc = rt.alloc();
    assert!(rt;
        has_key(
            alloc,
            Val::Int(-1),
            &[4, 0x7f, 255, 255, 255, 255, 255, 255, 255]
        )?
    );
    assert!(rt; has_key(alloc, Val::Int(2), &[4, 0x80, 0, 0, 0, 0, 0, 0, 2])?);
    assert!(rt; has_key(alloc, Val::Int(i64::MIN), &[4, 0, 0, 0, 0, 0, 0, 0, 0])?);
    assert!(rt; has_key(alloc, text(alloc, "a")?, &[6, 0x61, 0, 1])?);
    assert!(rt; has_key(alloc, text(alloc, "a\0")?, &[6, 0x61, 0, 255, 0, 1])?);
    assert!(rt; has_key(alloc, array_of(alloc, Val::Null)?, &[8, 3, 0])?);
    let object = object_of(alloc, "a", Val::Bool(true))?;
    assert!(rt; has_key(alloc, object, &[9, 6, 0x61, 0, 1, 5, 1, 0])?);
    Ok(())
}

// The key of v and the key right behind it are below the key of w.
fn is_below(alloc: Global, v: Val, w: Val) -> Result<bool, Memory> {
    let key = key_of(alloc, &v)?.copy(alloc)?;
    let past = key.past(alloc)?;
    let other = key_of(alloc, &w)?;
    Ok(key < past && past < other && past.as_slice().last() == Some(&255))
}

fn bytes(alloc: Global, b: &[u8]) -> Result<Val, Memory> {
    Ok(Val::Bin(Bytes::of(alloc, b)?))
}

#[test]
fn keys_of_scalars_rise(rt: HostRuntime) -> Result<(), Fail> {
    let alloc = rt.alloc();
    assert!(rt; is_below(alloc, Val::Null, Val::Int(-1))?);
    assert!(rt; is_below(alloc, Val::Int(-1), Val::Int(0))?);
    assert!(rt; is_below(alloc, Val::Int(0), Val::Bool(false))?);
    assert!(rt; is_below(alloc, Val::Bool(false), Val::Bool(true))?);
    assert!(rt; is_below(alloc, Val::Bool(true), text(alloc, "")?)?);
    Ok(())
}

#[test]
fn keys_of_texts_and_lists_rise(rt: HostRuntime) -> Result<(), Fail> {
    let alloc = rt.alloc();
    assert!(rt; is_below(alloc, text(alloc, "")?, text(alloc, "a")?)?);
    assert!(rt; is_below(alloc, text(alloc, "a")?, text(alloc, "a\0")?)?);
    assert!(rt; is_below(alloc, text(alloc, "a\0")?, text(alloc, "ab")?)?);
    assert!(rt; is_below(alloc, text(alloc, "ab")?, bytes(alloc, &[])?)?);
    assert!(rt; is_below(alloc, bytes(alloc, &[])?, bytes(alloc, &[0])?)?);
    assert!(rt; is_below(alloc, bytes(alloc, &[0])?, Val::Arr(Vals::new(alloc)))?);
    assert!(rt;
        is_below(
            alloc,
            Val::Arr(Vals::new(alloc)),
            array_of(alloc, Val::Null)?
        )?
    );
    assert!(rt;
        is_below(
            alloc,
            array_of(alloc, Val::Null)?,
            Val::Obj(Fields::new(alloc))
        )?
    );
    let object = object_of(alloc, "a", Val::Null)?;
    assert!(rt; is_below(alloc, Val::Obj(Fields::new(alloc)), object)?);
    Ok(())
}

fn index(alloc: Global, names: &[&str]) -> Result<Index, Memory> {
    let mut fields = Seq::new(alloc);
    for name in names {
        fields.push(Text::of(alloc, name)?)?;
    }
    Ok(Index {
        name: Text::of(alloc, "by")?,
        fields,
    })
}

// Table 0 with `by_id`, `by_creation_time` and the index of `n`.
fn schema(alloc: Global) -> Result<Schema, Memory> {
    let mut indexes = Seq::new(alloc);
    indexes.push(index(alloc, &["_id"])?)?;
    indexes.push(index(alloc, &["_creationTime", "_id"])?)?;
    indexes.push(index(alloc, &["n", "_creationTime", "_id"])?)?;
    let name = Text::of(alloc, "t")?;
    let mut tables = Seq::new(alloc);
    tables.push(Table { name, indexes })?;
    Ok(Schema { tables })
}

const ID: DocId = DocId {
    table: 0,
    session: 9,
    request: 1,
    ordinal: 0,
};

fn doc(alloc: Global, n: Option<i64>) -> Result<Doc, Memory> {
    let mut fields = Fields::new(alloc);
    if let Some(n) = n {
        drop(fields.insert(Text::of(alloc, "n")?, Val::Int(n))?);
    }
    Ok(Doc {
        id: ID,
        creation: 5,
        fields,
    })
}

fn range(alloc: Global, index: u32, lower: Bound, upper: Bound) -> Range {
    Range {
        table: 0,
        index,
        equal: Vals::new(alloc),
        lower,
        upper,
    }
}

#[test]
fn a_document_has_its_items_in_its_key(rt: HostRuntime) -> Result<(), Fail> {
    let alloc = rt.alloc();
    let schema = schema(alloc)?.copy(alloc)?;
    let index = schema.index_at(0, 2).expect(&rt, "an index");
    let key = index_key(alloc, &doc(alloc, None)?, index)?;
    // The field is missing; the creation is 5; then the id's text.
    let front = key.as_slice().get(..10);
    assert!(rt; front == Some([2, 4, 0x80, 0, 0, 0, 0, 0, 0, 5].as_slice()));
    let id = key_of(alloc, &Val::Str(id_text(alloc, &ID)?))?;
    assert!(rt; key.as_slice().get(10..) == Some(id.as_slice()));
    assert!(rt; schema.index_at(0, 3).is_none() && schema.index_at(1, 0).is_none());
    Ok(())
}

#[test]
fn ids_are_read_back_from_keys(rt: HostRuntime) -> Result<(), Fail> {
    let alloc = rt.alloc();
    let key = key_of(alloc, &Val::Str(id_text(alloc, &ID)?))?;
    assert!(rt; id_of(&key) == Some(ID));
    assert!(rt; id_of(&key.past(alloc)?) == None);
    assert!(rt; id_of(&key_of(alloc, &Val::Null)?) == None);
    // 48 bytes that are no text of an id, since digits are lower case.
    let upper = text(alloc, "0000000000000000000000000000000000090000000100FF")?;
    assert!(rt; id_of(&key_of(alloc, &upper)?) == None);
    Ok(())
}

fn fault_of(alloc: Global, range: &Range) -> Result<Option<RangeFault>, Memory> {
    Ok(interval_of(alloc, &schema(alloc)?, range).err())
}

#[test]
fn ranges_without_an_interval_are_refused(rt: HostRuntime) -> Result<(), Fail> {
    let alloc = rt.alloc();
    let mut r = range(alloc, 9, Bound::None, Bound::Including(Val::Null)).copy(alloc)?;
    assert!(rt; fault_of(alloc, &r)? == Some(RangeFault::NoIndex));
    r.index = 0;
    assert!(rt; fault_of(alloc, &r)? == None);
    r.equal.push(Val::Null)?;
    assert!(rt; fault_of(alloc, &r)? == Some(RangeFault::NoField));
    r.table = 1;
    assert!(rt; fault_of(alloc, &r)? == Some(RangeFault::NoIndex));
    Ok(())
}

// Whether the interval between the bounds of the index of `n` holds a document with this `n`, by
// `contains` and by `touches`.
fn holds(alloc: Global, lower: Bound, upper: Bound, n: Option<i64>) -> Result<bool, Fail> {
    let schema = schema(alloc)?;
    let i = interval_of(alloc, &schema, &range(alloc, 2, lower, upper))?.copy(alloc)?;
    let w = Write {
        id: ID,
        old: None,
        new: Some(doc(alloc, n)?),
    };
    Ok(touches(&schema, &w.copy(alloc)?, &i) && is_in(alloc, &schema, &i, n)?)
}

fn is_in(alloc: Global, schema: &Schema, i: &Interval, n: Option<i64>) -> Result<bool, Fail> {
    match schema.index_at(i.table, i.index) {
        None => Ok(false),
        Some(index) => {
            let key = index_key(alloc, &doc(alloc, n)?, index)?;
            Ok(contains(i, 0, 2, &key) && !contains(i, 0, 1, &key) && !contains(i, 1, 2, &key))
        }
    }
}

fn including(n: i64) -> Bound {
    Bound::Including(Val::Int(n))
}

fn excluding(n: i64) -> Bound {
    Bound::Excluding(Val::Int(n))
}

#[test]
fn bounds_hold_the_documents_between_them(rt: HostRuntime) -> Result<(), Fail> {
    let alloc = rt.alloc();
    assert!(rt; holds(alloc, Bound::None, Bound::None, None)?);
    assert!(rt; holds(alloc, including(2), Bound::None, Some(2))?);
    assert!(rt; !holds(alloc, including(2), Bound::None, None)?);
    assert!(rt; !holds(alloc, excluding(2), Bound::None, Some(2))?);
    assert!(rt; holds(alloc, excluding(2), Bound::None, Some(3))?);
    assert!(rt; holds(alloc, Bound::None, including(2), Some(2))?);
    assert!(rt; !holds(alloc, Bound::None, excluding(2), Some(2))?);
    // The lower end isn't below the upper one: the interval is made, and holds nothing.
    assert!(rt; !holds(alloc, including(3), including(1), Some(2))?);
    Ok(())
}

fn moves(alloc: Global, table: u16, old: i64, new: i64) -> Result<bool, Fail> {
    let schema = schema(alloc)?;
    let i = interval_of(alloc, &schema, &range(alloc, 2, Bound::None, excluding(3)))?;
    let w = Write {
        id: DocId { table, ..ID },
        old: Some(doc(alloc, Some(old))?),
        new: Some(doc(alloc, Some(new))?),
    };
    Ok(touches(&schema, &w, &i))
}

#[test]
fn a_write_touches_where_it_was_and_where_it_is(rt: HostRuntime) -> Result<(), Fail> {
    let alloc = rt.alloc();
    assert!(rt; moves(alloc, 0, 2, 8)?);
    assert!(rt; moves(alloc, 0, 8, 2)?);
    assert!(rt; !moves(alloc, 0, 3, 8)?);
    assert!(rt; !moves(alloc, 1, 2, 2)?);
    Ok(())
}
