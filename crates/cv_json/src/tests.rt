use crate::{JsonFault, from_json, read_ts, to_json, ts_text};
use cv_values::{Text, Val};
use serde_json::Value;
use std::alloc::Global;
use std::test::Fail;

fn fault(alloc: Global, text: &str) -> Result<Option<JsonFault>, Fail> {
    let tree = Value::from_str(alloc, text)?;
    Ok(from_json(alloc, &tree).err())
}

// An array with one item, which is such an array, and so on, round a tree.
fn nested(alloc: Global, inner: Value, times: u32) -> Result<Value, Fail> {
    let mut tree = inner;
    for _ in 0..times {
        tree = Value::Array(vec![in alloc; tree]?);
    }
    Ok(tree)
}

fn nulls(alloc: Global, len: u32) -> Result<Value, Fail> {
    let mut items = Vec::new(alloc);
    for _ in 0..len {
        items.push(Value::Null)?;
    }
    Ok(Value::Array(items))
}

fn letters(alloc: Global, len: u32) -> Result<Value, Fail> {
    let mut text = String::new(alloc);
    for _ in 0..len {
        text.push('a')?;
    }
    Ok(Value::String(text))
}

fn names(alloc: Global, len: u32) -> Result<Value, Fail> {
    let mut members = serde_json::Map::new(alloc);
    for i in 0..len {
        let name = format!(in alloc; "{i}")?;
        serde_json::put(&mut members, alloc, name.as_str(), Value::Null)?;
    }
    Ok(Value::Object(members))
}

#[test]
fn values_are_written_and_read(rt: HostRuntime) -> Result<(), Fail> {
    let alloc = rt.alloc();
    let text = "{\"b\":[1,-2,\"x\",null,true],\"a\":{\"$bytes\":\"AP8=\"},\"_c\":{}}";
    let v = from_json(alloc, &Value::from_str(alloc, text)?)?;
    let back = to_json(alloc, &v)?;
    let written = back.to_string(alloc)?;
    assert_eq!(rt;
        written.as_str(),
        "{\"_c\":{},\"a\":{\"$bytes\":\"AP8=\"},\"b\":[{\"$integer\":\"AQAAAAAAAAA=\"},{\"$integer\":\"/v////////8=\"},\"x\",null,true]}"
    );
    assert!(rt; from_json(alloc, &back)? == v);
    Ok(())
}

#[test]
fn integers_in_json(rt: HostRuntime) -> Result<(), Fail> {
    let alloc = rt.alloc();
    let rows = [
        (1, "{\"$integer\":\"AQAAAAAAAAA=\"}"),
        (-1, "{\"$integer\":\"//////////8=\"}"),
        (i64::MIN, "{\"$integer\":\"AAAAAAAAAIA=\"}"),
    ];
    for (n, text) in rows {
        let written = to_json(alloc, &Val::Int(n))?.to_string(alloc)?;
        assert_eq!(rt; written.as_str(), text);
        assert!(rt; from_json(alloc, &Value::from_str(alloc, text)?)? == Val::Int(n));
    }
    let whole = [
        ("1", 1),
        ("9223372036854775807", i64::MAX),
        ("-9223372036854775808", i64::MIN),
    ];
    for (text, n) in whole {
        assert!(rt; from_json(alloc, &Value::from_str(alloc, text)?)? == Val::Int(n));
    }
    Ok(())
}

#[test]
fn each_fault_alone(rt: HostRuntime) -> Result<(), Fail> {
    let alloc = rt.alloc();
    let rows = [
        ("1.0", JsonFault::FloatUnsupported),
        ("-0", JsonFault::FloatUnsupported),
        ("9223372036854775808", JsonFault::FloatUnsupported),
        ("{\"$float\":1}", JsonFault::FloatUnsupported),
        ("{\"$integer\":\"AQ==\"}", JsonFault::BadInteger),
        ("{\"$integer\":\"AQAAAAAAAAA\"}", JsonFault::BadInteger),
        ("{\"$integer\":1}", JsonFault::BadInteger),
        ("{\"$bytes\":\"AQ\"}", JsonFault::BadBytes),
        ("{\"$bytes\":\"AR==\"}", JsonFault::BadBytes),
        ("{\"$bytes\":[]}", JsonFault::BadBytes),
        ("{\"$x\":1}", JsonFault::BadName),
        ("{\"\":1}", JsonFault::BadName),
        ("{\"$bytes\":\"AP8=\",\"a\":1}", JsonFault::BadName),
    ];
    for (text, wanted) in rows {
        assert_eq!(rt; fault(alloc, text)?, Some(wanted), "at {text}");
    }
    Ok(())
}

#[test]
fn limits_are_reached_and_passed(rt: HostRuntime) -> Result<(), Fail> {
    let alloc = rt.alloc();
    let one = || Value::from_str(alloc, "{\"$integer\":\"AQAAAAAAAAA=\"}");
    assert!(rt;
        from_json(alloc, &nested(alloc, one()?, 64)?).is_ok(),
        "an integer inside 64"
    );
    assert!(rt; from_json(alloc, &nested(alloc, one()?, 65)?).err() == Some(JsonFault::TooDeep));
    assert!(rt;
        from_json(alloc, &nulls(alloc, 8192)?).is_ok(),
        "8,192 items"
    );
    assert!(rt; from_json(alloc, &nulls(alloc, 8193)?).err() == Some(JsonFault::TooMany));
    assert!(rt;
        from_json(alloc, &names(alloc, 1024)?).is_ok(),
        "1,024 names"
    );
    assert!(rt; from_json(alloc, &names(alloc, 1025)?).err() == Some(JsonFault::TooMany));
    assert!(rt;
        from_json(alloc, &letters(alloc, 1_048_574)?).is_ok(),
        "1,048,576 size units"
    );
    assert!(rt; from_json(alloc, &letters(alloc, 1_048_575)?).err() == Some(JsonFault::TooLarge));
    let both = nested(alloc, nulls(alloc, 8193)?, 64)?;
    assert!(rt; from_json(alloc, &both).err() == Some(JsonFault::TooDeep));
    Ok(())
}

#[test]
fn the_first_fault_counts(rt: HostRuntime) -> Result<(), Fail> {
    let alloc = rt.alloc();
    let rows = [
        ("[1.5,{\"\":1}]", JsonFault::FloatUnsupported),
        ("[{\"\":1},1.5]", JsonFault::BadName),
        (
            "[{\"$integer\":\"\"},{\"$bytes\":\"A\"}]",
            JsonFault::BadInteger,
        ),
        (
            "[{\"$bytes\":\"A\"},{\"$integer\":\"\"}]",
            JsonFault::BadBytes,
        ),
        (
            "{\"b\":{\"$bytes\":\"A\"},\"a\":1.5}",
            JsonFault::FloatUnsupported,
        ),
        ("{\"a\":{\"$bytes\":\"A\"},\"b\":1.5}", JsonFault::BadBytes),
        ("{\"a\":1.5,\"$b\":1}", JsonFault::BadName),
        ("[[1.5],{\"$b\":1}]", JsonFault::FloatUnsupported),
    ];
    for (text, wanted) in rows {
        assert_eq!(rt; fault(alloc, text)?, Some(wanted), "at {text}");
    }
    Ok(())
}

#[test]
fn timestamps_are_texts(rt: HostRuntime) -> Result<(), Fail> {
    let alloc = rt.alloc();
    let rows = [
        (0, "AAAAAAAAAAA="),
        (1, "AQAAAAAAAAA="),
        (300, "LAEAAAAAAAA="),
        (u64::MAX, "//////////8="),
    ];
    for (ts, text) in rows {
        assert_eq!(rt; ts_text(alloc, ts)?.as_str(), text);
        assert_eq!(rt; read_ts(&Text::of(alloc, text)?), Some(ts));
    }
    let refused = [
        "",
        "AQAAAAAAAA==",
        "AQAAAAAAAAAA",
        "AQAAAAAAAAAAAA==",
        "AQAAAAAAAAB=",
        "AQAAAAAAAAA",
        "AQAAAAAAAAA==",
        "_________8=",
    ];
    for text in refused {
        assert_eq!(rt; read_ts(&Text::of(alloc, text)?), None, "at {text}");
    }
    Ok(())
}
