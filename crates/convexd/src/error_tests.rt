//! Each error that ends a run, told as the reply of a line of a script.
use crate::Exit;
use crate::tests::replayed;
use std::alloc::Global;
use std::test::Fail;

// A body of `e:f`, the path and the arguments of the call, and the text of the error.
const ROWS: [(&str, &str, &str); 20] = [
    ("return 1;", "e:g {}", "UnknownFunction"),
    ("return 1;", "e:f {\"x\":1}", "BadArguments"),
    ("throw \"no\";", "e:f {}", "Thrown: no"),
    ("return 1 + \"1\";", "e:f {}", "TypeError"),
    ("return 9223372036854775807 + 1;", "e:f {}", "Overflow"),
    ("return 1 / 0;", "e:f {}", "DivisionByZero"),
    ("return {}.n;", "e:f {}", "NoField"),
    ("return [][0];", "e:f {}", "OutOfRange"),
    ("return get(\"x\");", "e:f {}", "BadId"),
    (
        "delete(\"000000000000000000000000000000000001000000010000\");",
        "e:f {}",
        "NoDocument",
    ),
    ("insert(\"t\", {_n: 1});", "e:f {}", "BadName"),
    (
        "let a = []; for (i in range(0, 96)) { a = [a]; }",
        "e:f {}",
        "TooDeep",
    ),
    ("return range(0, 8193);", "e:f {}", "TooMany"),
    (
        "let s = \"0123456789abcdef\"; for (i in range(0, 19)) { s = s + s; }",
        "e:f {}",
        "TooLarge",
    ),
    (
        "for (i in range(0, 13)) { for (j in range(0, 8190)) { } }",
        "e:f {}",
        "CostLimit",
    ),
    (
        "for (i in range(0, 10)) { insert(\"t\", {}); } for (i in range(0, 1639)) { count(\"t\"); }",
        "e:f {}",
        "RowLimit",
    ),
    (
        "let s = \"0123456789abcdef\"; for (i in range(0, 15)) { s = s + s; } let id = insert(\"t\", {s: s}); for (i in range(0, 16)) { get(id); }",
        "e:f {}",
        "ReadLimit",
    ),
    (
        "for (i in range(0, 4097)) { count(\"t\"); }",
        "e:f {}",
        "RangeLimit",
    ),
    (
        "for (i in range(0, 8192)) { insert(\"t\", {}); } insert(\"t\", {});",
        "e:f {}",
        "WriteLimit",
    ),
    (
        "let s = \"0123456789abcdef\"; for (i in range(0, 15)) { s = s + s; } for (i in range(0, 16)) { insert(\"t\", {s: s}); }",
        "e:f {}",
        "WriteSizeLimit",
    ),
];

fn input_of(alloc: Global, body: &str, call: &str) -> Result<Vec<u8>, Fail> {
    let mut input = b"table t { }\nmutation e:f() { ".to_vec(alloc)?;
    input.extend_from_slice(body.as_bytes())?;
    input.extend_from_slice(b" }\n%%\ncall 00000000-0000-0000-0000-000000000001 1 ")?;
    input.extend_from_slice(call.as_bytes())?;
    input.extend_from_slice(b"\n")?;
    Ok(input)
}

#[test]
fn each_error_is_a_reply(rt: HostRuntime) -> Result<(), Fail> {
    let alloc = rt.alloc();
    for (body, call, why) in ROWS {
        let input = input_of(alloc, body, call)?;
        let (ended, written) = replayed(alloc, &["replay"], input, &[], &[])?;
        let told = format!(in alloc; "reply 1 error \"{why}\"\nts 1\n")?;
        assert_eq!(rt; ended, Exit::Done, "at {why}");
        assert_eq!(rt; written.as_slice(), told.as_bytes(), "at {why}");
    }
    Ok(())
}

// The third call costs 100,000 units, the fourth one unit more.
#[test]
fn function_errors_are_replies(rt: HostRuntime) -> Result<(), Fail> {
    let input =
        "mutation e:sum(a, b) { return a + b; }\nmutation e:no() { throw \"no\"; }\nmutation e:spin(a, b, c) { for (i in range(0, a)) { for (j in range(0, b)) { } } for (k in range(0, c)) { } return 1; }\n%%\ncall 00000000-0000-0000-0000-000000000001 1 e:sum {\"a\":{\"$integer\":\"/////////38=\"},\"b\":1}\ncall 00000000-0000-0000-0000-000000000001 2 e:no {}\ncall 00000000-0000-0000-0000-000000000001 3 e:spin {\"a\":12,\"b\":8190,\"c\":1693}\ncall 00000000-0000-0000-0000-000000000001 4 e:spin {\"a\":12,\"b\":8190,\"c\":1694}\n";
    let replies =
        "reply 1 error \"Overflow\"\nreply 2 error \"Thrown: no\"\nreply 3 ok {\"$integer\":\"AQAAAAAAAAA=\"}\nreply 4 error \"CostLimit\"\nts 4\n";
    let alloc = rt.alloc();
    let input = input.as_bytes().to_vec(alloc)?;
    let (ended, written) = replayed(alloc, &["replay"], input, &[], &[])?;
    assert_eq!(rt; ended, Exit::Done);
    assert_eq!(rt; written.as_slice(), replies.as_bytes());
    Ok(())
}
