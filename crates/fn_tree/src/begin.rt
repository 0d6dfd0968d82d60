use crate::lexeme::Terminal;

/// What the rest of a module text begins with, and its length in bytes: blanks or a comment, or a
/// token. `Bad` where it begins with neither.
#[derive(Clone, Copy)]
pub enum Begin {
    Gap(usize),
    Token(Terminal, usize),
    Bad,
}
