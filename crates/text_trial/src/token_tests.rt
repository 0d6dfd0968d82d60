use cv_values::Memory;
use fn_syntax::{SyntaxFault, Token, TokenKind, Why, tokens};
use fn_tree::Word;
use std::alloc::Global;
use std::test::Fail;

fn token(kind: TokenKind, at: u64, len: u64) -> Token {
    Token { kind, at, len }
}

fn has_tokens(alloc: Global, text: &str, wanted: &[Token]) -> Result<bool, Memory> {
    match tokens(alloc, text)? {
        Ok(read) => Ok(read.as_slice() == wanted),
        Err(_) => Ok(false),
    }
}

#[test]
fn tokens_are_read_longest_first(rt: HostRuntime) -> Result<(), Fail> {
    let alloc = rt.alloc();
    let name = TokenKind::Name;
    let mark = TokenKind::Mark;
    let integer = TokenKind::Integer;
    assert!(rt; has_tokens(alloc, "", &[])?);
    assert!(rt; has_tokens(alloc, " \t\r\n// no tokens: \" # é\n//", &[])?);
    assert!(rt; has_tokens(alloc, "0a", &[token(integer, 0, 1), token(name, 1, 1)])?);
    assert!(rt; has_tokens(alloc, "9223372036854775807", &[token(integer, 0, 19)])?);
    assert!(rt; has_tokens(alloc, "_A9//x\nZ", &[token(name, 0, 3), token(name, 7, 1)])?);
    assert!(rt;
        has_tokens(
            alloc,
            "<==!=!",
            &[
                token(mark, 0, 2),
                token(mark, 2, 1),
                token(mark, 3, 2),
                token(mark, 5, 1)
            ]
        )?
    );
    assert!(rt;
        has_tokens(
            alloc,
            "a/b&&-c",
            &[
                token(name, 0, 1),
                token(mark, 1, 1),
                token(name, 2, 1),
                token(mark, 3, 2),
                token(mark, 5, 1),
                token(name, 6, 1)
            ]
        )?
    );
    assert!(rt;
        has_tokens(
            alloc,
            " \"é \\\\\\\"\\n\\t\" \"\"",
            &[token(TokenKind::Str, 1, 13), token(TokenKind::Str, 15, 2)]
        )?
    );
    Ok(())
}

#[test]
fn reserved_words_are_no_names(rt: HostRuntime) -> Result<(), Fail> {
    let alloc = rt.alloc();
    let words =
        "table index query mutation helper let if else for in return throw true false null scan desc take count get insert patch replace delete now len has push set without slice range show keys";
    let mut count = 0u64;
    for word in words.split(' ') {
        let len = word.len() as u64;
        assert!(rt;
            has_tokens(alloc, word, &[token(TokenKind::Reserved, 0, len)])?,
            "{word}"
        );
        count = count.saturating_add(1);
    }
    assert_eq!(rt; count, 34);
    assert!(rt; has_tokens(alloc, "Let", &[token(TokenKind::Name, 0, 3)])?);
    assert!(rt; has_tokens(alloc, "let_", &[token(TokenKind::Name, 0, 4)])?);
    assert_eq!(rt; Word::Desc.spelling(), "desc");
    Ok(())
}

#[test]
fn bad_tokens_are_faults_at_their_start(rt: HostRuntime) -> Result<(), Fail> {
    let alloc = rt.alloc();
    let rows = [
        ("01", 0u64),
        ("a 00", 2),
        ("9223372036854775808", 0),
        (" 99999999999999999999999", 1),
        ("\"a", 0),
        ("x\"a\nb\"", 1),
        ("x\"\\r\"", 1),
        ("\"\\\"", 0),
        ("a # b", 2),
        ("a & b", 2),
        ("a || | b", 5),
        ("é", 0),
    ];
    for (text, at) in rows {
        let fault = SyntaxFault {
            at,
            why: Why::BadToken,
        };
        match tokens(alloc, text)? {
            Ok(_) => assert!(rt; false, "{text}"),
            Err(found) => assert_eq!(rt; found, fault, "{text}"),
        }
    }
    Ok(())
}
