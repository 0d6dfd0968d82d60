//! How deep brackets stand in one another.
ghost use Rattle.std.specs.Prelude.{◌≡◌};
ghost use Rattle.fn_tree.specs.Nesting.{opens, closes, first_too_deep};

use fn_tree::{Lexeme, Mark, Terminal};

const LIMIT: usize = 32;

fn opens(terminal: Terminal) -> bool
    ensures { result ≡ opens terminal }
{
    match terminal {
        Terminal::Mark(Mark::OpenBrace | Mark::OpenParen | Mark::OpenBracket) => true,
        _ => false,
    }
}

fn closes(terminal: Terminal) -> bool
    ensures { result ≡ closes terminal }
{
    match terminal {
        Terminal::Mark(Mark::CloseBrace | Mark::CloseParen | Mark::CloseBracket) => true,
        _ => false,
    }
}

/// The index of the first token that opens a bracket inside 32 open ones.
pub(crate) fn first_too_deep(lexemes: &[Lexeme]) -> Option<usize>
    ensures { result ≡ first_too_deep lexemes.now }
{
    let mut open: usize = 0;
    for (i, lexeme) in lexemes.iter().enumerate() {
        if opens(lexeme.terminal) {
            if open >= LIMIT {
                return Some(i);
            }
            open += 1;
        } else if closes(lexeme.terminal) {
            open = open.saturating_sub(1);
        }
    }
    None
}
