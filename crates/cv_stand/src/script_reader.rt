//! Reads a script line by line.
ghost use Rattle.std.specs.Prelude.{◌≡◌, ◌&&◌, ◌||◌, ◌==◌, ◌+◌, ◌<◌, ◌^◌, nat_lt, not, drop, length, slice_index, is_some, option_and_then, IfOk};
ghost use Rattle.std.specs.Option.{option_map};
ghost use Rattle.std.specs.Result.{result_ok};
ghost use Rattle.std.specs.List.{list_all};
ghost use Rattle.std.specs.Char.{is_ascii_digit};
ghost use Rattle.cv_json.specs.Reads.{read};
ghost use Rattle.cv_values.specs.Trees.{tree};
ghost use Rattle.serde_json.specs.View.{view};
ghost use Rattle.cv_stand.specs.Events.{at_least_zero, below_zero, moment_of, clock_of, fields_of, arguments_of, calls, request_from, event_in, said, script_of};
ghost use Rattle.cv_stand.specs.Lines.{lines_of};
ghost use Rattle.cv_stand.specs.ScriptLine.{cut_word, number_of, request_number, words_of};
ghost use Rattle.cv_stand.specs.ScriptViews.{event_view, said_view, script_view, words_view};

use crate::lines::{line_text, split_line};
use crate::script::{Event, Script};
use cv_json::{JsonFault, from_json};
use cv_values::{Fields, Memory, Text, Val};
use serde_json::{Category, Value};
use std::alloc::Global;
use uuid::Uuid;

// The words of a line that calls a function. The last is the rest of the line.
#[derive(Clone, Copy)]
struct LineWords<'a> {
    session: &'a str,
    request: &'a str,
    udf: &'a str,
    json: &'a str,
}

// What a line says: nothing, an event, or what no script may say.
#[derive(Drop)]
enum Said {
    Nothing,
    Says(Event),
    Refused,
}

fn next_word(s: &str) -> Option<(&str, &str)>
    ensures { option_map (λ p. (p.0.now, p.1.now)) result ≡ cut_word s.now }
{
    s.split_once(' ')
}

fn words(line: &str) -> Option<LineWords<'_>>
    ensures { option_map words_view result ≡ words_of line.now }
{
    let (first, rest) = next_word(line)?;
    if first != "call" {
        return None;
    }
    let (session, rest) = next_word(rest)?;
    let (request, rest) = next_word(rest)?;
    let (udf, json) = next_word(rest)?;
    Some(LineWords {
        session,
        request,
        udf,
        json,
    })
}

fn is_digits(bytes: &[u8]) -> bool
    ensures { result ≡ list_all is_ascii_digit bytes.now }
{
    bytes.iter().all(|b| b.is_ascii_digit())
}

// A number of two digits or more doesn't begin with 0.
fn is_plain(bytes: &[u8]) -> bool
    ensures { result ≡ (nat_lt (length bytes.now) 2 || not (slice_index bytes.now 0 == 48)) }
{
    bytes.len() < 2 || bytes[0] != b'0'
}

fn is_number(bytes: &[u8]) -> bool
    ensures { result ≡ is_some (number_of bytes.now) }
{
    is_digits(bytes) && !bytes.is_empty() && is_plain(bytes)
}

fn has_minus(bytes: &[u8]) -> bool
    ensures { result ≡ (nat_lt 0 (length bytes.now) && (slice_index bytes.now 0 == 45)) }
{
    !bytes.is_empty() && bytes[0] == b'-'
}

fn read_at_least_zero(word: &str) -> Option<i64>
    ensures { result ≡ option_and_then at_least_zero (number_of word.now) }
{
    if !is_number(word.as_bytes()) {
        return None;
    }
    word.parse::<i64>().ok()
}

// Of a word that begins with `-`.
fn read_below_zero(word: &str) -> Option<i64>
    requires some { 0 < length word.now }
    requires minus { slice_index word.now 0 ≡ 45 }
    ensures { result ≡ option_and_then below_zero (number_of (drop 1 word.now)) }
{
    if !is_number(&word.as_bytes()[1..]) {
        return None;
    }
    match word.parse::<i64>() {
        Ok(moment) => { if moment == 0 { None } else { Some(moment) } }
        Err(_) => None,
    }
}

fn read_moment(word: &str) -> Option<i64>
    ensures { result ≡ moment_of word.now }
{
    if has_minus(word.as_bytes()) {
        read_below_zero(word)
    } else {
        read_at_least_zero(word)
    }
}

fn read_clock(line: &str) -> Option<i64>
    ensures { result ≡ clock_of line.now }
{
    let (first, moment) = next_word(line)?;
    if first != "clock" {
        return None;
    }
    read_moment(moment)
}

fn read_request(word: &str) -> Option<u32>
    ensures { result ≡ request_number word.now }
{
    if !is_number(word.as_bytes()) {
        return None;
    }
    word.parse::<u32>().ok()
}

fn fields_of(value: Val) -> Option<Fields>
    ensures { result ≡ fields_of (tree value) }
{
    match value {
        Val::Obj(fields) => Some(fields),
        _ => None,
    }
}

fn read_fields(alloc: Global, json: &Value) -> Result<Option<Fields>, Memory>
    ensures { IfOk result (λ r. r ≡ option_and_then fields_of (result_ok (read (view json.now)))) }
{
    match from_json(alloc, json) {
        Ok(value) => Ok(fields_of(value)),
        Err(JsonFault::Memory) => Err(Memory),
        Err(_) => Ok(None),
    }
}

fn read_arguments(alloc: Global, text: &str) -> Result<Option<Fields>, Memory>
    ensures { IfOk result (λ r. r ≡ arguments_of text.now) }
{
    match Value::from_str(alloc, text) {
        Ok(json) => read_fields(alloc, &json),
        Err(error) => match error.classify() {
            Category::Memory => Err(Memory),
            _ => Ok(None),
        },
    }
}

fn read_call(alloc: Global, words: &LineWords<'_>) -> Result<Option<Event>, Memory>
    ensures { IfOk result (λ r. option_map event_view r ≡ option_map calls (request_from (words_view words.now))) }
{
    let Ok(session) = Uuid::parse_str(words.session) else {
        return Ok(None);
    };
    let Some(request) = read_request(words.request) else {
        return Ok(None);
    };
    let Some(args) = read_arguments(alloc, words.json)? else {
        return Ok(None);
    };
    if words.udf.is_empty() {
        return Ok(None);
    }
    Ok(Some(Event::Call {
        session: session.as_u128(),
        request,
        udf: Text::of(alloc, words.udf)?,
        args,
    }))
}

fn read_event(alloc: Global, line: &str) -> Result<Option<Event>, Memory>
    ensures { IfOk result (λ r. option_map event_view r ≡ event_in line.now) }
{
    if line == "log" {
        return Ok(Some(Event::Log));
    }
    if let Some(now) = read_clock(line) {
        return Ok(Some(Event::Clock(now)));
    }
    match words(line) {
        Some(words) => read_call(alloc, &words),
        None => Ok(None),
    }
}

fn read_line(alloc: Global, line: &[u8]) -> Result<Said, Memory>
    ensures { IfOk result (λ s. said_view s ≡ said line.now) }
{
    if line.is_empty() {
        return Ok(Said::Nothing);
    }
    let Ok(line) = str::from_utf8(line) else {
        return Ok(Said::Refused);
    };
    match read_event(alloc, line)? {
        Some(event) => Ok(Said::Says(event)),
        None => Ok(Said::Refused),
    }
}

/// Reads the lines of a script, the first of them with this number, up to the first that says
/// neither nothing nor `clock <moment>`, `call <uuid> <request> <udf> <json>` or `log`. The JSON is
/// read as an object of any values.
pub fn read_script(alloc: Global, bytes: &[u8], first: u64) -> Result<Script, Memory>
    requires { first + length bytes.now < 2 ^ 64 }
    ensures { IfOk result (λ s. script_view s ≡ script_of first (lines_of bytes.now)) }
{
    let mut events = Vec::new(alloc);
    let mut rest = bytes;
    let mut number = first;
    while let Some((line, after)) = split_line(rest) {
        match read_line(alloc, line_text(line))? {
            Said::Nothing => {}
            Said::Says(event) => events.push((number, event))?,
            Said::Refused => {
                return Ok(Script {
                    events,
                    bad: Some(number),
                });
            }
        }
        number += 1;
        rest = after;
    }
    Ok(Script { events, bad: None })
}
