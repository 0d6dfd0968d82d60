use crate::{
    OpFault, add, array_of, divide, field, has, item, keys, length, multiply, negate, not,
    object_of, push, push_onto, range, remainder, set, set_in, show, slice, subtract, without,
};
use cv_values::{Bytes, Fields, Memory, Text, Val, Vals};
use std::alloc::Global;
use std::process::Abort;
use std::test::Fail;

// What a call gave, and what it is to give.
type Row = (Result<Val, OpFault>, Result<Val, OpFault>);

fn agree(rt: &impl Abort, rows: &[Row]) {
    for (i, (made, wanted)) in rows.iter().enumerate() {
        assert_eq!(rt; made, wanted, "in row {i}");
    }
}

fn text(alloc: Global, s: &str) -> Result<Val, Memory> {
    Ok(Val::Str(Text::of(alloc, s)?))
}

fn ints(alloc: Global, ns: &[i64]) -> Result<Vals, Memory> {
    let mut items = Vals::new(alloc);
    for n in ns {
        items.push(Val::Int(*n))?;
    }
    Ok(items)
}

fn fields(alloc: Global, members: &[(&str, i64)]) -> Result<Fields, Memory> {
    let mut fields = Fields::new(alloc);
    for (name, n) in members {
        drop(fields.insert(Text::of(alloc, name)?, Val::Int(*n))?);
    }
    Ok(fields)
}

// Null inside this many arrays.
fn nested(alloc: Global, depth: u32) -> Result<Val, Memory> {
    let mut v = Val::Null;
    for _ in 0..depth {
        let mut items = Vals::new(alloc);
        items.push(v)?;
        v = Val::Arr(items);
    }
    Ok(v)
}

fn nulls(alloc: Global, len: u32) -> Result<Vals, Memory> {
    let mut items = Vals::new(alloc);
    for _ in 0..len {
        items.push(Val::Null)?;
    }
    Ok(items)
}

fn letters(alloc: Global, len: u32) -> Result<Val, Memory> {
    let mut text = String::new(alloc);
    for _ in 0..len {
        text.push('a')?;
    }
    Ok(Val::Str(Text::from_string(text)))
}

#[test]
fn arithmetic_is_exact_or_refused(rt: HostRuntime) -> Result<(), Fail> {
    let alloc = rt.alloc();
    let over = Err(OpFault::Overflow);
    let by_zero = Err(OpFault::DivisionByZero);
    let (least, most) = (i64::MIN, i64::MAX);
    // a, b, and their sum, difference, product, quotient and remainder
    let rows = [
        (7, -2, Ok(5), Ok(9), Ok(-14), Ok(-3), Ok(1)),
        (-7, 2, Ok(-5), Ok(-9), Ok(-14), Ok(-3), Ok(-1)),
        (5, 0, Ok(5), Ok(5), Ok(0), by_zero, by_zero),
        (least, 0, Ok(least), Ok(least), Ok(0), by_zero, by_zero),
        (least, -1, over, Ok(-most), over, over, over),
        (least, 1, Ok(-most), over, Ok(least), Ok(least), Ok(0)),
        (most, 1, over, Ok(most - 1), Ok(most), Ok(most), Ok(0)),
        (most, -1, Ok(most - 1), over, Ok(-most), Ok(-most), Ok(0)),
    ];
    for (a, b, sum, difference, product, quotient, left) in rows {
        let (a, b) = (Val::Int(a), Val::Int(b));
        let wanted = [sum, difference, product, quotient, left];
        let made = [
            add(alloc, &a, &b),
            subtract(alloc, &a, &b),
            multiply(alloc, &a, &b),
            divide(alloc, &a, &b),
            remainder(alloc, &a, &b),
        ];
        for (made, wanted) in made.iter().zip(wanted) {
            assert_eq!(rt; *made, wanted.map(Val::Int));
        }
    }
    Ok(())
}

#[test]
fn one_operand_is_enough_for_some(rt: HostRuntime) -> Result<(), Fail> {
    let alloc = rt.alloc();
    let string = text(alloc, "aé")?;
    let bytes = Val::Bin(Bytes::of(alloc, &[0, 255])?);
    let list = Val::Arr(ints(alloc, &[1, 2])?);
    let object = Val::Obj(fields(alloc, &[("a", 1)])?);
    agree(
        &rt,
        &[
            (negate(alloc, &Val::Int(5)), Ok(Val::Int(-5))),
            (negate(alloc, &Val::Int(i64::MIN)), Err(OpFault::Overflow)),
            (not(alloc, &Val::Bool(true)), Ok(Val::Bool(false))),
            (not(alloc, &Val::Bool(false)), Ok(Val::Bool(true))),
            (length(alloc, &string), Ok(Val::Int(3))),
            (length(alloc, &bytes), Ok(Val::Int(2))),
            (length(alloc, &list), Ok(Val::Int(2))),
            (length(alloc, &object), Ok(Val::Int(1))),
        ],
    );
    Ok(())
}

#[test]
fn integers_and_names_are_shown(rt: HostRuntime) -> Result<(), Fail> {
    let alloc = rt.alloc();
    for (n, decimal) in [(-42, "-42"), (i64::MIN, "-9223372036854775808")] {
        let wanted = text(alloc, decimal)?;
        assert_eq!(rt; show(alloc, &Val::Int(n)), Ok(wanted));
    }
    let object = Val::Obj(fields(alloc, &[("b", 2), ("B", 3)])?);
    let mut names = Vals::new(alloc);
    for name in ["B", "b"] {
        names.push(text(alloc, name)?)?;
    }
    assert_eq!(rt; keys(alloc, &object), Ok(Val::Arr(names)));
    assert_eq!(rt; OpFault::Type_.to_string(alloc)?.as_str(), "TypeError");
    Ok(())
}

#[test]
fn other_kinds_are_refused_first(rt: HostRuntime) -> Result<(), Fail> {
    let alloc = rt.alloc();
    let (one, zero) = (Val::Int(1), Val::Int(0));
    let none = Text::of(alloc, "")?;
    let empty = text(alloc, "")?;
    let list = Val::Arr(nulls(alloc, 1)?);
    for a in [&Val::Null, &empty] {
        let refused = [
            negate(alloc, a),
            not(alloc, a),
            show(alloc, a),
            keys(alloc, a),
            length(alloc, &one),
            add(alloc, a, &one),
            subtract(alloc, &one, a),
            multiply(alloc, a, &one),
            divide(alloc, a, &zero),
            remainder(alloc, a, &zero),
            range(alloc, a, &one),
            push(alloc, a, &one),
            has(alloc, a, &empty),
            set(alloc, a, &empty, &one),
            without(alloc, a, &empty),
            field(alloc, a, &none),
            item(alloc, &list, a),
            slice(alloc, &list, &one, a),
        ];
        for made in refused {
            assert_eq!(rt; made, Err(OpFault::Type_));
        }
    }
    Ok(())
}

#[test]
fn arrays_are_read_by_place(rt: HostRuntime) -> Result<(), Fail> {
    let alloc = rt.alloc();
    let list = array_of(alloc, ints(alloc, &[10, 11, 12])?)?;
    let outside = Err(OpFault::OutOfRange);
    for (i, found) in [(0, Ok(10)), (2, Ok(12)), (3, outside), (-1, outside)] {
        assert_eq!(rt; item(alloc, &list, &Val::Int(i)), found.map(Val::Int));
    }
    let refused = [(-1, 1), (2, 1), (0, 4), (4, 4), (i64::MIN, i64::MAX)];
    for (i, j) in refused {
        let made = slice(alloc, &list, &Val::Int(i), &Val::Int(j));
        assert_eq!(rt; made, Err(OpFault::OutOfRange));
    }
    for (i, j, part) in [
        (0, 3, [10, 11, 12].as_slice()),
        (1, 2, [11].as_slice()),
        (3, 3, [].as_slice()),
    ] {
        let wanted = Val::Arr(ints(alloc, part)?);
        assert_eq!(rt; slice(alloc, &list, &Val::Int(i), &Val::Int(j)), Ok(wanted));
    }
    Ok(())
}

#[test]
fn ranges_end_before_their_end(rt: HostRuntime) -> Result<(), Fail> {
    let alloc = rt.alloc();
    for (i, j, numbers) in [
        (-1, 2, [-1, 0, 1].as_slice()),
        (3, 3, [].as_slice()),
        (i64::MAX, i64::MIN, [].as_slice()),
        (i64::MAX - 1, i64::MAX, [i64::MAX - 1].as_slice()),
    ] {
        let wanted = Val::Arr(ints(alloc, numbers)?);
        assert_eq!(rt; range(alloc, &Val::Int(i), &Val::Int(j)), Ok(wanted));
    }
    for (i, j) in [(-2, 8191), (i64::MIN, i64::MAX)] {
        let made = range(alloc, &Val::Int(i), &Val::Int(j));
        assert_eq!(rt; made, Err(OpFault::TooMany));
    }
    let most = range(alloc, &Val::Int(-2), &Val::Int(8190))?;
    assert_eq!(rt; length(alloc, &most), Ok(Val::Int(8192)));
    Ok(())
}

#[test]
fn strings_and_arrays_grow(rt: HostRuntime) -> Result<(), Fail> {
    let alloc = rt.alloc();
    let joined = text(alloc, "aé")?;
    let made = add(alloc, &text(alloc, "a")?, &text(alloc, "é")?);
    assert_eq!(rt; made, Ok(joined));
    let longer = Val::Arr(ints(alloc, &[1, 5])?);
    let list = Val::Arr(ints(alloc, &[1])?);
    assert_eq!(rt; push(alloc, &list, &Val::Int(5))?, longer);
    assert_eq!(rt; push_onto(ints(alloc, &[1])?, Val::Int(5))?, longer);
    Ok(())
}

#[test]
fn objects_are_read_by_name(rt: HostRuntime) -> Result<(), Fail> {
    let alloc = rt.alloc();
    let object = object_of(alloc, fields(alloc, &[("b", 2), ("a", 1)])?)?;
    let absent = Err(OpFault::NoField);
    for (name, found) in [("a", Ok(1)), ("b", Ok(2)), ("B", absent), ("", absent)] {
        let name = Text::of(alloc, name)?;
        assert_eq!(rt; field(alloc, &object, &name), found.map(Val::Int));
        let name = Val::Str(name);
        assert_eq!(rt; item(alloc, &object, &name), found.map(Val::Int));
        assert_eq!(rt; has(alloc, &object, &name), Ok(Val::Bool(found.is_ok())));
    }
    Ok(())
}

#[test]
fn a_field_is_set_new_or_not(rt: HostRuntime) -> Result<(), Fail> {
    let alloc = rt.alloc();
    for (name, members) in [
        ("b", [("a", 1), ("b", 9)].as_slice()),
        ("_c", [("a", 1), ("b", 2), ("_c", 9)].as_slice()),
    ] {
        let wanted = Val::Obj(fields(alloc, members)?);
        let object = Val::Obj(fields(alloc, &[("a", 1), ("b", 2)])?);
        let name = text(alloc, name)?;
        assert_eq!(rt; set(alloc, &object, &name, &Val::Int(9)), Ok(wanted));
    }
    let made = set_in(
        fields(alloc, &[("a", 1)])?,
        Text::of(alloc, "a")?,
        Val::Int(9),
    );
    assert_eq!(rt; made, Ok(Val::Obj(fields(alloc, &[("a", 9)])?)));
    Ok(())
}

#[test]
fn a_field_is_left_out_if_it_was_there(rt: HostRuntime) -> Result<(), Fail> {
    let alloc = rt.alloc();
    for (name, members) in [
        ("b", [("a", 1)].as_slice()),
        ("$", [("a", 1), ("b", 2)].as_slice()),
    ] {
        let wanted = Val::Obj(fields(alloc, members)?);
        let object = Val::Obj(fields(alloc, &[("a", 1), ("b", 2)])?);
        let name = text(alloc, name)?;
        assert_eq!(rt; without(alloc, &object, &name), Ok(wanted));
    }
    Ok(())
}

#[test]
fn bad_names_are_refused(rt: HostRuntime) -> Result<(), Fail> {
    let alloc = rt.alloc();
    for bad in ["", "$", "$a"] {
        let members = fields(alloc, &[("a", 1), (bad, 2)])?;
        assert_eq!(rt; object_of(alloc, members), Err(OpFault::BadName));
        let name = text(alloc, bad)?;
        let made = set(alloc, &Val::Obj(Fields::new(alloc)), &name, &Val::Null);
        assert_eq!(rt; made, Err(OpFault::BadName));
    }
    Ok(())
}

#[test]
fn deep_comes_before_many(rt: HostRuntime) -> Result<(), Fail> {
    let alloc = rt.alloc();
    let long = array_of(alloc, nulls(alloc, 8192)?)?;
    let deepest = push(alloc, &Val::Arr(Vals::new(alloc)), &nested(alloc, 95)?)?;
    agree(
        &rt,
        &[
            (length(alloc, &long), Ok(Val::Int(8192))),
            (push(alloc, &long, &Val::Null), Err(OpFault::TooMany)),
            (push(alloc, &long, &deepest), Err(OpFault::TooDeep)),
        ],
    );
    Ok(())
}

#[test]
fn many_comes_before_large(rt: HostRuntime) -> Result<(), Fail> {
    let alloc = rt.alloc();
    let half = letters(alloc, 4_194_303)?;
    let large = add(alloc, &half, &half)?;
    let long = Val::Arr(nulls(alloc, 8192)?);
    agree(
        &rt,
        &[
            (length(alloc, &large), Ok(Val::Int(8_388_606))),
            (add(alloc, &large, &half), Err(OpFault::TooLarge)),
            (push(alloc, &long, &large), Err(OpFault::TooMany)),
        ],
    );
    Ok(())
}

#[test]
fn objects_have_at_most_1024_names(rt: HostRuntime) -> Result<(), Fail> {
    let alloc = rt.alloc();
    let mut names = Fields::new(alloc);
    for i in 0..1024u32 {
        drop(names.insert(Text::from_string(i.to_string(alloc)?), Val::Null)?);
    }
    let object = object_of(alloc, names)?;
    for (name, fault) in [("a", OpFault::TooMany), ("$", OpFault::BadName)] {
        let made = set(alloc, &object, &text(alloc, name)?, &Val::Null);
        assert_eq!(rt; made, Err(fault));
    }
    assert_eq!(rt;
        set(alloc, &object, &text(alloc, "0")?, &Val::Null)?,
        object
    );
    Ok(())
}
