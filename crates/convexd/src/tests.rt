use crate::{Exit, ModuleFault, replay_main};
use cv_outside::{INPUT_LIMIT, MemSink, MemSource};
use cv_values::{Fields, Text, Val};
use fn_check::{CheckFault, CheckKind};
use fn_syntax::{SyntaxFault, Why};
use lru::LruCache;
use std::alloc::Global;
use std::num::NonZeroUsize;
use std::process::Abort;
use std::test::Fail;

const MODULE: &str =
    "table t { }\nmutation m:add(x) { insert(\"t\", {v: x}); return x; }\nmutation m:size() { return count(\"t\"); }\n%%\n";

const CALLS: &str =
    "call 00000000-0000-0000-0000-000000000001 1 m:add {\"x\":1}\ncall 00000000-0000-0000-0000-000000000001 2 m:add {\"x\":2}\ncall 00000000-0000-0000-0000-000000000001 3 m:size {}\n";

const REPLIES: &str =
    "reply 1 ok {\"$integer\":\"AQAAAAAAAAA=\"}\nreply 2 ok {\"$integer\":\"AgAAAAAAAAA=\"}\nreply 3 ok {\"$integer\":\"AgAAAAAAAAA=\"}\nts 3\n";

// Plays an input over a source and a sink whose calls of these numbers fail.
pub(crate) fn replayed(
    alloc: Global,
    words: &[&str],
    input: Vec<u8>,
    reads: &[u64],
    writes: &[u64],
) -> Result<(Exit, Vec<u8>), Fail> {
    let mut all = Vec::new(alloc);
    for word in words {
        all.push(String::from_str(alloc, word)?)?;
    }
    let mut source = MemSource::new(input, reads.to_vec(alloc)?);
    let mut sink = MemSink::new(alloc, 1_000_000, writes.to_vec(alloc)?)?;
    let exit = replay_main(alloc, &all, &mut source, &mut sink);
    Ok((exit, sink.bytes().to_vec(alloc)?))
}

fn first_run(alloc: Global) -> Result<Vec<u8>, Fail> {
    let mut input = MODULE.as_bytes().to_vec(alloc)?;
    input.extend_from_slice(CALLS.as_bytes())?;
    Ok(input)
}

#[test]
fn whole_inputs(rt: HostRuntime) -> Result<(), Fail> {
    let alloc = rt.alloc();
    let rows = [
        ("", Exit::Script { line: 1 }, ""),
        ("%%\n", Exit::Done, "ts 0\n"),
        ("%%", Exit::Done, "ts 0\n"),
        ("%%\r", Exit::Done, "ts 0\n"),
        ("%%\n\n\r\n", Exit::Done, "ts 0\n"),
        ("%% \n", Exit::Script { line: 2 }, ""),
        ("\n%%\r\n\n\r\n", Exit::Done, "ts 0\n"),
        ("table t { }\n%%\n%%\n", Exit::Script { line: 3 }, ""),
        (
            "table 1\n%%\nno line\n",
            Exit::Module(ModuleFault::Syntax(SyntaxFault {
                at: 6,
                why: Why::WrongToken,
            })),
            "",
        ),
        (
            "query q:a() { return f(); }\n%%\nno line\n",
            Exit::Module(ModuleFault::Check(CheckFault {
                at: 21,
                kind: CheckKind::UnknownHelper,
            })),
            "",
        ),
    ];
    for (input, exit, text) in rows {
        let (ended, written) = replayed(
            alloc,
            &["replay"],
            input.as_bytes().to_vec(alloc)?,
            &[],
            &[],
        )?;
        assert_eq!(rt; ended, exit, "at {input:?}");
        assert_eq!(rt; written.as_slice(), text.as_bytes(), "at {input:?}");
    }
    Ok(())
}

#[test]
fn other_words_are_usage(rt: HostRuntime) -> Result<(), Fail> {
    let alloc = rt.alloc();
    let rows: [&[&str]; 4] = [&[], &["play"], &["--help"], &["replay", "replay"]];
    for words in rows {
        let (ended, written) = replayed(alloc, words, first_run(alloc)?, &[], &[])?;
        assert_eq!(rt; ended, Exit::Usage);
        assert!(rt; written.is_empty());
    }
    Ok(())
}

// Each stands as line 6, after one good line.
#[test]
fn bad_lines(rt: HostRuntime) -> Result<(), Fail> {
    let alloc = rt.alloc();
    let rows: [&[u8]; 22] = [
        b" ",
        b"log ",
        b"open 0",
        b"clock",
        b"clock 01",
        b"call",
        b"call 00000000-0000-0000-0000-000000000001 2 m:size",
        b"call 0000000-0000-0000-0000-000000000001 2 m:size {}",
        b"call 00000000-0000-0000-0000-000000000001  m:size {}",
        b"call 00000000-0000-0000-0000-000000000001 2  {}",
        b"call 00000000-0000-0000-0000-000000000001 02 m:size {}",
        b"call 00000000-0000-0000-0000-000000000001 +2 m:size {}",
        b"call 00000000-0000-0000-0000-000000000001 4294967296 m:size {}",
        b"call 00000000-0000-0000-0000-000000000001 2 m:size {",
        b"call 00000000-0000-0000-0000-000000000001 2 m:size []",
        b"call 00000000-0000-0000-0000-000000000001 2 m:size {\"$integer\":\"AQAAAAAAAAA=\"}",
        b"call 00000000-0000-0000-0000-000000000001 2 m:add {\"x\":1.0}",
        b"call 00000000-0000-0000-0000-000000000001 2 m:add {\"x\":-0}",
        b"call 00000000-0000-0000-0000-000000000001 2 m:add {\"x\":9223372036854775808}",
        b"call 00000000-0000-0000-0000-000000000001 2 m:add {\"$x\":1}",
        b"call 00000000-0000-0000-0000-000000000001 2 m:size {}\xff",
        b"%%",
    ];
    for line in rows {
        let mut input = MODULE.as_bytes().to_vec(alloc)?;
        input.extend_from_slice(
            b"call 00000000-0000-0000-0000-000000000001 1 m:add { \"x\" : -1 }\n",
        )?;
        input.extend_from_slice(line)?;
        input.extend_from_slice(b"\nopen 1\n")?;
        let (ended, written) = replayed(alloc, &["replay"], input, &[], &[])?;
        assert_eq!(rt; ended, Exit::Script { line: 6 }, "at {line:?}");
        assert_eq!(rt;
            written.as_slice(),
            b"reply 1 ok {\"$integer\":\"//////////8=\"}\n".as_slice(),
            "at {line:?}"
        );
    }
    Ok(())
}

// What some lines write behind the module, with the last line.
fn script_writes(rt: &impl Abort, alloc: Global, lines: &str, text: &str) -> Result<(), Fail> {
    let mut input = MODULE.as_bytes().to_vec(alloc)?;
    input.extend_from_slice(lines.as_bytes())?;
    let (ended, written) = replayed(alloc, &["replay"], input, &[], &[])?;
    assert_eq!(rt; ended, Exit::Done);
    assert_eq!(rt; written.as_slice(), text.as_bytes());
    Ok(())
}

#[test]
fn errors_are_replies(rt: HostRuntime) -> Result<(), Fail> {
    script_writes(
        &rt,
        rt.alloc(),
        "call 00000000-0000-0000-0000-000000000001 1 m:none {}\ncall 00000000-0000-0000-0000-000000000001 2 m:add {}\ncall 00000000-0000-0000-0000-000000000001 3 m:add {\"y\":1}\ncall 00000000-0000-0000-0000-000000000001 4 m:add {\"x\":1,\"y\":1}\ncall 00000000-0000-0000-0000-000000000001 5 m:size {\"x\":1}\ncall {00000000-0000-0000-0000-000000000001} 1 m:size {}\ncall 00000000-0000-0000-0000-000000000001 6 m:size {}\n",
        "reply 1 error \"UnknownFunction\"\nreply 2 error \"BadArguments\"\nreply 3 error \"BadArguments\"\nreply 4 error \"BadArguments\"\nreply 5 error \"BadArguments\"\nreply 1 error \"UnknownFunction\"\nreply 6 ok {\"$integer\":\"AAAAAAAAAAA=\"}\nts 6\n",
    )
}

#[test]
fn a_repeated_request_and_the_log(rt: HostRuntime) -> Result<(), Fail> {
    script_writes(
        &rt,
        rt.alloc(),
        "call 00000000-0000-0000-0000-000000000001 1 m:add {\"x\":1}\ncall 00000000-0000-0000-0000-000000000001 1 m:add {\"x\":2}\nlog\n",
        "reply 1 ok {\"$integer\":\"AQAAAAAAAAA=\"}\nreply 1 ok {\"$integer\":\"AQAAAAAAAAA=\"}\nentry {\"args\":{\"x\":{\"$integer\":\"AQAAAAAAAAA=\"}},\"now\":{\"$integer\":\"AAAAAAAAAAA=\"},\"reply\":{\"value\":{\"$integer\":\"AQAAAAAAAAA=\"}},\"request\":1,\"session\":\"00000000-0000-0000-0000-000000000001\",\"ts\":1,\"udf\":\"m:add\",\"writes\":[[\"000000000000000000000000000000000001000000010000\",{\"_creationTime\":{\"$integer\":\"AAAAAAAAAAA=\"},\"_id\":\"000000000000000000000000000000000001000000010000\",\"v\":{\"$integer\":\"AQAAAAAAAAA=\"}}]]}\nts 1\n",
    )
}

#[test]
fn failing_reads_and_writes(rt: HostRuntime) -> Result<(), Fail> {
    let alloc = rt.alloc();
    let (ended, written) = replayed(alloc, &["replay"], first_run(alloc)?, &[], &[])?;
    assert_eq!(rt; ended, Exit::Done);
    assert_eq!(rt; written.as_slice(), REPLIES.as_bytes());
    for k in 0..2u64 {
        let (ended, written) = replayed(alloc, &["replay"], first_run(alloc)?, &[k], &[])?;
        assert_eq!(rt; ended, Exit::Read, "at read {k}");
        assert!(rt; written.is_empty(), "at read {k}");
    }
    for k in 0..4u64 {
        let (ended, written) = replayed(alloc, &["replay"], first_run(alloc)?, &[], &[k])?;
        assert_eq!(rt; ended, Exit::Write, "at write {k}");
        assert!(rt; REPLIES.as_bytes().starts_with(&written), "at write {k}");
    }
    Ok(())
}

#[test]
fn an_input_over_the_limit_is_too_large(rt: HostRuntime) -> Result<(), Fail> {
    let alloc = rt.alloc();
    let mut input = vec![in alloc; b'\n'; INPUT_LIMIT]?;
    input.push(b'\n')?;
    let (ended, written) = replayed(alloc, &["replay"], input, &[], &[])?;
    assert_eq!(rt; ended, Exit::TooLarge);
    assert!(rt; written.is_empty());
    Ok(())
}

// What a module and a script behind it write.
fn module_writes(rt: &impl Abort, alloc: Global, input: &str, text: &str) -> Result<(), Fail> {
    let input = input.as_bytes().to_vec(alloc)?;
    let (ended, written) = replayed(alloc, &["replay"], input, &[], &[])?;
    assert_eq!(rt; ended, Exit::Done);
    assert_eq!(rt; written.as_slice(), text.as_bytes());
    Ok(())
}

#[test]
fn each_call_sees_its_moment(rt: HostRuntime) -> Result<(), Fail> {
    module_writes(
        &rt,
        rt.alloc(),
        "mutation m:at() { return now(); }\n%%\ncall 00000000-0000-0000-0000-000000000001 1 m:at {}\nclock 7\ncall 00000000-0000-0000-0000-000000000001 2 m:at {}\ncall 00000000-0000-0000-0000-000000000001 1 m:at {}\nclock 8\nclock -1\ncall 00000000-0000-0000-0000-000000000001 3 m:at {}\n",
        "reply 1 ok {\"$integer\":\"AAAAAAAAAAA=\"}\nreply 2 ok {\"$integer\":\"BwAAAAAAAAA=\"}\nreply 1 ok {\"$integer\":\"AAAAAAAAAAA=\"}\nreply 3 ok {\"$integer\":\"//////////8=\"}\nts 3\n",
    )
}

#[test]
fn a_query_is_no_mutation(rt: HostRuntime) -> Result<(), Fail> {
    module_writes(
        &rt,
        rt.alloc(),
        "query q:a() { return 1; }\n%%\ncall 00000000-0000-0000-0000-000000000001 1 q:a {}\n",
        "reply 1 error \"UnknownFunction\"\nts 1\n",
    )
}

// A write that an error ends is dropped, and the next call sees the documents before it.
#[test]
fn an_error_drops_its_writes(rt: HostRuntime) -> Result<(), Fail> {
    module_writes(
        &rt,
        rt.alloc(),
        "table t { }\nmutation m:fail() { insert(\"t\", {}); throw \"no\"; }\nmutation m:size() { return count(\"t\"); }\n%%\ncall 00000000-0000-0000-0000-000000000001 1 m:fail {}\ncall 00000000-0000-0000-0000-000000000001 2 m:size {}\nlog\n",
        "reply 1 error \"Thrown: no\"\nreply 2 ok {\"$integer\":\"AAAAAAAAAAA=\"}\nentry {\"args\":{},\"now\":{\"$integer\":\"AAAAAAAAAAA=\"},\"reply\":{\"error\":\"Thrown: no\"},\"request\":1,\"session\":\"00000000-0000-0000-0000-000000000001\",\"ts\":1,\"udf\":\"m:fail\",\"writes\":[]}\nentry {\"args\":{},\"now\":{\"$integer\":\"AAAAAAAAAAA=\"},\"reply\":{\"value\":{\"$integer\":\"AAAAAAAAAAA=\"}},\"request\":2,\"session\":\"00000000-0000-0000-0000-000000000001\",\"ts\":2,\"udf\":\"m:size\",\"writes\":[]}\nts 2\n",
    )
}

#[test]
fn values_are_keys_of_a_cache(rt: HostRuntime) -> Result<(), Fail> {
    let alloc = rt.alloc();
    let one = NonZeroUsize::new(1).ok_or("no size")?;
    let name = Text::of(alloc, "x")?;
    let mut fields = Fields::new(alloc);
    drop(fields.insert(name.copy(alloc)?, Val::Int(1))?);
    let mut by_text = LruCache::new(alloc, one)?;
    drop(by_text.put(name.copy(alloc)?, 1u8)?);
    assert_eq!(rt; by_text.get(&name), Some(&1));
    let mut by_fields = LruCache::new(alloc, one)?;
    drop(by_fields.put(fields.copy(alloc)?, 2u8)?);
    assert_eq!(rt; by_fields.get(&fields), Some(&2));
    let value = Val::Obj(fields);
    let mut by_value = LruCache::new(alloc, one)?;
    drop(by_value.put(value.copy(alloc)?, 3u8)?);
    assert_eq!(rt; by_value.get(&value), Some(&3));
    assert_eq!(rt; by_value.get(&Val::Null), None);
    Ok(())
}
