//! The lines of a script.
ghost use Rattle.std.specs.Prelude.{◌≡◌, ◌<◌, ◌≤◌, ◌∷◌, ◌++◌, [], length, take, drop, IfSome, IfNone};
ghost use Rattle.cv_stand.specs.Lines.{lines_of, text_of, without_end};

const LINE_FEED: u8 = b'\n';

const CARRIAGE_RETURN: u8 = b'\r';

/// The bytes of the first line, with its line feed, and the rest. There is none exactly where the
/// input is empty.
pub fn split_line(input: &[u8]) -> Option<(&[u8], &[u8])>
    ensures none { IfNone result (input.now ≡ []) }
    ensures some { IfSome result (λ p. (lines_of input.now ≡ p.0.now ∷ lines_of p.1.now)
        × (input.now ≡ p.0.now ++ p.1.now) × (length p.1.now < length input.now)) }
{
    if input.is_empty() {
        return None;
    }
    let end = first_line_len(input);
    Some((&input[..end], &input[end..]))
}

fn first_line_len(input: &[u8]) -> usize
    requires { 0 < length input.now }
    ensures line { lines_of input.now ≡ take result input.now ∷ lines_of (drop result input.now) }
    ensures some { 0 < result }
    ensures within { result ≤ length input.now }
{
    for (i, b) in input.iter().enumerate() {
        if *b == LINE_FEED {
            return i + 1;
        }
    }
    input.len()
}

fn strip_end(line: &[u8], end: u8) -> &[u8]
    ensures { result.now ≡ without_end end line.now }
{
    match line {
        [front @ .., last] if *last == end => front,
        _ => line,
    }
}

/// What a line says: its line feed is left out, and then one carriage return.
pub fn line_text(line: &[u8]) -> &[u8]
    ensures { result.now ≡ text_of line.now }
{
    strip_end(strip_end(line, LINE_FEED), CARRIAGE_RETURN)
}
