//! The tokens of a text, read in one pass.
ghost use Rattle.std.specs.Prelude.{◌≡◌, ◌≤◌, IfOk, IfSome, false, find, nat_eq, length};
ghost use Rattle.std.specs.List.{starts_with, prefix_len};
ghost use Rattle.std.specs.Str.{bytes_eq};
ghost use Rattle.std.specs.Char.{is_ascii_digit};
ghost use Rattle.fn_tree.specs.Spellings.{word_text, mark_text};
ghost use Rattle.fn_tree.specs.Lexemes.{lexemes_of, goes_on_name, begins_name, word_of, name_begin, integer_begin, is_escape, string_len, string_begin, mark_of, mark_begin, is_blank, comment_begin, begins};

use crate::number::says_integer;
use cv_values::Memory;
use fn_tree::{Begin, Lexeme, Mark, Terminal, Word};
use std::alloc::Global;

const WORDS: [Word; 34] = [
    Word::Table,
    Word::Index,
    Word::Query,
    Word::Mutation,
    Word::Helper,
    Word::Let,
    Word::If,
    Word::Else,
    Word::For,
    Word::In,
    Word::Return,
    Word::Throw,
    Word::True,
    Word::False,
    Word::Null,
    Word::Scan,
    Word::Desc,
    Word::Take,
    Word::Count,
    Word::Get,
    Word::Insert,
    Word::Patch,
    Word::Replace,
    Word::Delete,
    Word::Now,
    Word::Len,
    Word::Has,
    Word::Push,
    Word::Set,
    Word::Without,
    Word::Slice,
    Word::Range,
    Word::Show,
    Word::Keys,
];

// The marks of two bytes come first.
const MARKS: [Mark; 25] = [
    Mark::Equal,
    Mark::NotEqual,
    Mark::LessEqual,
    Mark::GreaterEqual,
    Mark::AndAnd,
    Mark::OrOr,
    Mark::OpenBrace,
    Mark::CloseBrace,
    Mark::OpenParen,
    Mark::CloseParen,
    Mark::OpenBracket,
    Mark::CloseBracket,
    Mark::Comma,
    Mark::Colon,
    Mark::Semicolon,
    Mark::Dot,
    Mark::Slash,
    Mark::Assign,
    Mark::Less,
    Mark::Greater,
    Mark::Plus,
    Mark::Minus,
    Mark::Star,
    Mark::Percent,
    Mark::Not,
];

/// The tokens of a text before the first place at which no token begins, and that place.
#[derive(Drop)]
pub(crate) struct Lexed {
    pub(crate) lexemes: Vec<Lexeme>,
    pub(crate) bad: Option<u64>,
}

fn begins_name(byte: u8) -> bool
    ensures { result ≡ begins_name byte }
{
    byte.is_ascii_alphabetic() || byte == b'_'
}

fn goes_on_name(byte: u8) -> bool
    ensures { result ≡ goes_on_name byte }
{
    byte.is_ascii_alphanumeric() || byte == b'_'
}

fn find_word(words: &[Word], name: &[u8]) -> Option<Word>
    ensures { result ≡ find (λ w. bytes_eq (word_text w) name.now) words.now }
{
    words
        .iter()
        .copied()
        .find(|word| word.spelling().as_bytes() == name)
}

fn word_of(name: &[u8]) -> Option<Word>
    ensures { result ≡ word_of name.now }
{
    find_word(&WORDS, name)
}

// How many bytes from the front on are letters, digits or `_`.
fn name_len(bytes: &[u8]) -> usize
    ensures len { result ≡ prefix_len goes_on_name bytes.now }
    ensures within { result ≤ length bytes.now }
{
    bytes.iter().take_while(|b| goes_on_name(**b)).count()
}

fn name(bytes: &[u8]) -> Begin
    ensures { result ≡ name_begin bytes.now }
{
    let len = name_len(bytes);
    match word_of(&bytes[..len]) {
        Some(word) => Begin::Token(Terminal::Word(word), len),
        None => Begin::Token(Terminal::Name, len),
    }
}

fn digits_len(bytes: &[u8]) -> usize
    ensures len { result ≡ prefix_len is_ascii_digit bytes.now }
    ensures within { result ≤ length bytes.now }
{
    bytes.iter().take_while(|b| b.is_ascii_digit()).count()
}

fn integer(bytes: &[u8]) -> Begin
    ensures { result ≡ integer_begin bytes.now }
{
    let len = digits_len(bytes);
    if says_integer(&bytes[..len]) {
        Begin::Token(Terminal::Integer, len)
    } else {
        Begin::Bad
    }
}

fn is_escape(byte: u8) -> bool
    ensures { result ≡ is_escape byte }
{
    byte == b'"' || byte == b'\\' || byte == b'n' || byte == b't'
}

// The bytes up to the closing quote and with it.
fn string_len(bytes: &[u8]) -> Option<usize>
    ensures len { result ≡ string_len false bytes.now }
    ensures within { IfSome result (λ n. n ≤ length bytes.now) }
{
    let mut escaped = false;
    for (i, byte) in bytes.iter().enumerate() {
        if escaped {
            if !is_escape(*byte) {
                return None;
            }
            escaped = false;
        } else if *byte == b'"' {
            return Some(i + 1);
        } else if *byte < b' ' {
            return None;
        } else {
            escaped = *byte == b'\\';
        }
    }
    None
}

fn string(contents: &[u8]) -> Begin
    ensures { result ≡ string_begin contents.now }
{
    match string_len(contents) {
        Some(len) => Begin::Token(Terminal::Str, len + 1),
        None => Begin::Bad,
    }
}

fn find_mark(marks: &[Mark], bytes: &[u8]) -> Option<Mark>
    ensures { result ≡ find (λ m. starts_with nat_eq bytes.now (mark_text m)) marks.now }
{
    marks
        .iter()
        .copied()
        .find(|mark| bytes.starts_with(mark.spelling().as_bytes()))
}

fn mark_of(bytes: &[u8]) -> Option<Mark>
    ensures { result ≡ mark_of bytes.now }
{
    find_mark(&MARKS, bytes)
}

fn mark(bytes: &[u8]) -> Begin
    ensures { result ≡ mark_begin bytes.now }
{
    match mark_of(bytes) {
        Some(mark) => Begin::Token(Terminal::Mark(mark), mark.spelling().len()),
        None => Begin::Bad,
    }
}

fn is_blank(byte: u8) -> bool
    ensures { result ≡ is_blank byte }
{
    byte == b' ' || byte == b'\t' || byte == b'\n' || byte == b'\r'
}

fn comment(bytes: &[u8]) -> Begin
    ensures { result ≡ comment_begin bytes.now }
{
    Begin::Gap(bytes.iter().take_while(|b| **b != b'\n').count())
}

fn begin_of(bytes: &[u8]) -> Begin
    ensures { result ≡ begins bytes.now }
{
    let Some((first, rest)) = bytes.split_first() else {
        return Begin::Bad;
    };
    if begins_name(*first) {
        name(bytes)
    } else if first.is_ascii_digit() {
        integer(bytes)
    } else if *first == b'"' {
        string(rest)
    } else if is_blank(*first) {
        Begin::Gap(1)
    } else if bytes.starts_with(b"//") {
        comment(bytes)
    } else {
        mark(bytes)
    }
}

/// The tokens of a text, in one pass over it. Each name is compared with the reserved words, and each
/// mark with the marks.
pub(crate) fn lex(alloc: Global, text: &str) -> Result<Lexed, Memory>
    ensures lexemes { IfOk result (λ l. l.lexemes.items ≡ (lexemes_of text.now).lexemes) }
    ensures bad { IfOk result (λ l. l.bad ≡ (lexemes_of text.now).bad) }
{
    let bytes = text.as_bytes();
    let mut lexemes = Vec::new(alloc);
    let mut at = 0;
    while at < bytes.len() {
        match begin_of(&bytes[at..]) {
            Begin::Gap(len) => at += len,
            Begin::Token(terminal, len) => {
                lexemes.push(Lexeme {
                    terminal,
                    at: at as u64,
                    len: len as u64,
                })?;
                at += len;
            }
            Begin::Bad => {
                return Ok(Lexed {
                    lexemes,
                    bad: Some(at as u64),
                });
            }
        }
    }
    Ok(Lexed { lexemes, bad: None })
}
