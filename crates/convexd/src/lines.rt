//! The line `%%` that ends the module text.
ghost use Rattle.std.specs.Prelude.{◌≡◌, ◌+◌, ◌<◌, ◌≤◌, ◌^◌, List, ℕ, length, IfOk, IfErr, Some, None};
ghost use Rattle.cv_stand.specs.Lines.{lines_of};
ghost use Rattle.convexd.specs.Lines.{is_mark, halves, concat};

use cv_stand::{line_text, split_line};

fn says_mark(line: &[u8]) -> bool
    ensures { result ≡ is_mark line.now }
{
    let text = line_text(line);
    text.len() == 2 && text[0] == b'%' && text[1] == b'%'
}

/// An input in two: the module text, and the script with the number of its first line, counted from 1
/// over the whole input.
#[derive(Drop)]
pub struct Parts<'a> {
    pub module: &'a [u8],
    pub script: &'a [u8],
    pub line: u64,
}

/// Cuts an input at its first line that says `%%`. Where there is none, it gives the number of the
/// line after the last.
pub fn cut(input: &[u8]) -> Result<Parts<'_>, u64>
    requires { length input.now < 2 ^ 32 }
    ensures found { IfOk result (λ cut. (front : List (List ℕ)) × (halves (lines_of input.now) ≡ Some (front, lines_of cut.script.now))
        × (cut.module.now ≡ concat front) × (cut.line ≡ length front + 2)) }
    ensures bound { IfOk result (λ cut. cut.line + length cut.script.now ≤ length input.now + 1) }
    ensures absent { IfErr result (λ line. (halves (lines_of input.now) ≡ None) × (line ≡ length (lines_of input.now) + 1)) }
{
    let mut rest = input;
    let mut line = 1u64;
    while let Some((first, after)) = split_line(rest) {
        line += 1;
        if says_mark(first) {
            return Ok(Parts {
                module: &input[..input.len() - rest.len()],
                script: after,
                line,
            });
        }
        rest = after;
    }
    Err(line)
}
