ghost use Rattle.std.specs.Prelude.{◌≡◌, ◌<◌, length, IfOk, IfSome, Bool};
ghost use Rattle.fn_tree.specs.Grammar.Prod.{token};
ghost use Rattle.fn_tree.specs.Grammar.Parse.{leaf};
ghost use Rattle.fn_tree.specs.Language as language;
ghost use Rattle.fn_tree.specs.Terminals.{is};
ghost use Rattle.fn_syntax.specs.Classes.{has, next_is};
ghost use Rattle.fn_syntax.specs.Descents.{IsDescent, Accepts};

use crate::parser::class::Class;
use cv_values::Memory;
use fn_tree::{Lexeme, Mark, Terminal, Word};

/// Why a descent stopped.
#[derive(Clone, Copy, Debug, Drop)]
pub(crate) enum Stop<'t> {
    /// There was no memory.
    Memory,
    /// The tokens left, from the first wrong one on; none where the tokens ended too early.
    Wrong(&'t [Lexeme]),
}

impl From<Memory> for Stop<'_> {
    ghost use Rattle.fn_syntax.specs.declared.parser.cursor.Stop.{Stop};

    ghost from_gives = { λ m r. r ≡ Stop.Memory };

    fn from(_: Memory) -> Self {
        Stop::Memory
    }
}

/// What a descent found, and the tokens left.
pub(crate) type Parsed<'t, T> = Result<(T, &'t [Lexeme]), Stop<'t>>;

/// Whether a token of the class is next.
pub(crate) fn next_is(tokens: &[Lexeme], class: Class) -> bool
    ensures { result ≡ next_is class tokens.now }
{
    match tokens.first() {
        Some(first) => class.has(first.terminal),
        None => false,
    }
}

/// A token of the class and the tokens after it, where one is next.
pub(crate) fn accept(tokens: &[Lexeme], class: Class) -> Option<(Lexeme, &[Lexeme])>
    ensures is { Accepts (has class) tokens.now result }
    ensures shorter { IfSome result (λ x. length x.1.now < length tokens.now) }
{
    match tokens.split_first() {
        Some((first, rest)) if class.has(first.terminal) => Some((*first, rest)),
        _ => None,
    }
}

/// A mark and the tokens after it, where it is next.
pub(crate) fn accept_mark(tokens: &[Lexeme], mark: Mark) -> Option<(Lexeme, &[Lexeme])>
    ensures is { Accepts (is (Terminal.Mark mark)) tokens.now result }
    ensures shorter { IfSome result (λ x. length x.1.now < length tokens.now) }
{
    accept(tokens, Class::Only(Terminal::Mark(mark)))
}

/// A token of the class, which has to be next.
pub(crate) fn expect(tokens: &[Lexeme], class: Class) -> Parsed<'_, Lexeme>
    ensures is { IsDescent (token (has class)) (λ c a. leaf c ≡ a) tokens.now result }
    ensures shorter { IfOk result (λ x. length x.1.now < length tokens.now) }
{
    accept(tokens, class).ok_or(Stop::Wrong(tokens))
}

/// A reserved word, which has to be next.
pub(crate) fn expect_word(tokens: &[Lexeme], word: Word) -> Parsed<'_, Lexeme>
    ensures is { IsDescent (language.word word) (λ c a. leaf c ≡ a) tokens.now result }
    ensures shorter { IfOk result (λ x. length x.1.now < length tokens.now) }
{
    expect(tokens, Class::Only(Terminal::Word(word)))
}

/// A mark, which has to be next.
pub(crate) fn expect_mark(tokens: &[Lexeme], mark: Mark) -> Parsed<'_, Lexeme>
    ensures is { IsDescent (language.mark mark) (λ c a. leaf c ≡ a) tokens.now result }
    ensures shorter { IfOk result (λ x. length x.1.now < length tokens.now) }
{
    expect(tokens, Class::Only(Terminal::Mark(mark)))
}
