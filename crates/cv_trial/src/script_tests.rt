use cv_json::to_json;
use cv_stand::{Event, read_script};
use cv_values::Val;
use std::alloc::Global;
use std::test::Fail;

fn event_text(alloc: Global, event: &Event) -> Result<String, Fail> {
    match event {
        Event::Clock(now) => Ok(format!(in alloc; "clock {now}")?),
        Event::Call {
            session,
            request,
            udf,
            args,
        } => {
            let tree = to_json(alloc, &Val::Obj(args.copy(alloc)?))?;
            let json = tree.to_string(alloc)?;
            let udf = udf.as_str();
            Ok(format!(in alloc; "call {session} {request} {udf} {json}")?)
        }
        Event::Log => Ok(String::from_str(alloc, "log")?),
    }
}

// What some lines say, the first of which is line 7.
fn told(alloc: Global, lines: &[u8]) -> Result<String, Fail> {
    let script = read_script(alloc, lines, 7)?;
    let mut text = String::new(alloc);
    for (number, event) in script.events.iter() {
        let event = event_text(alloc, event)?;
        text.push_str(format!(in alloc; "{number} {event};")?.as_str())?;
    }
    if let Some(number) = script.bad {
        text.push_str(format!(in alloc; "{number} bad;")?.as_str())?;
    }
    Ok(text)
}

#[test]
fn lines_that_say_something(rt: HostRuntime) -> Result<(), Fail> {
    let alloc = rt.alloc();
    let rows: [(&[u8], &str); 17] = [
        (b"", ""),
        (b"\n", ""),
        (b"\r\n", ""),
        (b"log", "7 log;"),
        (b"log\n", "7 log;"),
        (b"log\r\n", "7 log;"),
        (b"clock 0\n", "7 clock 0;"),
        (b"clock -1\n", "7 clock -1;"),
        (b"clock 10\r", "7 clock 10;"),
        (b"clock 9223372036854775807", "7 clock 9223372036854775807;"),
        (
            b"clock -9223372036854775808",
            "7 clock -9223372036854775808;",
        ),
        (
            b"call 00000000-0000-0000-0000-000000000001 0 m:f {}\n",
            "7 call 1 0 m:f {};",
        ),
        (
            b"call {00000000-0000-0000-0000-00000000000a} 4294967295 f { } \r\r\n",
            "7 call 10 4294967295 f {};",
        ),
        (
            b"call 00000000000000000000000000000010 20 m:f  {\"_x\":-1}",
            "7 call 16 20 m:f {\"_x\":{\"$integer\":\"//////////8=\"}};",
        ),
        (
            b"call 00000000-0000-0000-0000-000000000001 2 m:f {\"b\":[null,true,\"x y\",{}],\"a\":{\"$bytes\":\"AP8=\"}}",
            "7 call 1 2 m:f {\"a\":{\"$bytes\":\"AP8=\"},\"b\":[null,true,\"x y\",{}]};",
        ),
        (b"\nclock 5\n\r\nlog\n", "8 clock 5;10 log;"),
        (b"log\nclock 5\nlog x\nlog\n", "7 log;8 clock 5;9 bad;"),
    ];
    for (lines, text) in rows {
        let said = told(alloc, lines)?;
        assert_eq!(rt; said.as_str(), text, "at {lines:?}");
    }
    Ok(())
}

#[test]
fn lines_that_no_script_may_say(rt: HostRuntime) -> Result<(), Fail> {
    let alloc = rt.alloc();
    let rows: [&[u8]; 36] = [
        b" ",
        b"log ",
        b" log",
        b"log\r\r\n",
        b"Log",
        b"%%",
        b"\xff",
        b"log\xff",
        b"clock",
        b"clock ",
        b"clock -",
        b"clock -0",
        b"clock 01",
        b"clock -01",
        b"clock +1",
        b"clock  1",
        b"clock 1 ",
        b"clock 1.0",
        b"clock 9223372036854775808",
        b"clock -9223372036854775809",
        b"clock 100000000000000000000",
        b"call",
        b"call 00000000-0000-0000-0000-000000000001 2 m:f",
        b"call 00000000-0000-0000-0000-000000000001 2 m:f ",
        b"call 0000000-0000-0000-0000-000000000001 2 m:f {}",
        b"call 00000000-0000-0000-0000-000000000001  2 m:f {}",
        b"call 00000000-0000-0000-0000-000000000001 2  {}",
        b"call 00000000-0000-0000-0000-000000000001 02 m:f {}",
        b"call 00000000-0000-0000-0000-000000000001 +2 m:f {}",
        b"call 00000000-0000-0000-0000-000000000001 4294967296 m:f {}",
        b"call 00000000-0000-0000-0000-000000000001 2 m:f {",
        b"call 00000000-0000-0000-0000-000000000001 2 m:f []",
        b"call 00000000-0000-0000-0000-000000000001 2 m:f {\"$integer\":\"AQAAAAAAAAA=\"}",
        b"call 00000000-0000-0000-0000-000000000001 2 m:f {\"$x\":1,\"y\":2}",
        b"call 00000000-0000-0000-0000-000000000001 2 m:f {\"x\":1.5}",
        b"call 00000000-0000-0000-0000-000000000001 2 m:f {}\xff",
    ];
    for line in rows {
        let said = told(alloc, line)?;
        assert_eq!(rt; said.as_str(), "7 bad;", "at {line:?}");
    }
    Ok(())
}
