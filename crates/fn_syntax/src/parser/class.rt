ghost use Rattle.std.specs.Prelude.{◌≡◌};
ghost use Rattle.fn_syntax.specs.Classes.{has};
ghost use Rattle.fn_tree.specs.Terminals as terminals;
ghost use Rattle.fn_tree.specs.ParseTrees.{compare_of, operator_of, sign_of, builtin_of};

use fn_tree::{BinaryOp, Builtin, CompareOp, Mark, Terminal, UnaryOp, Word};

/// A class of tokens.
#[derive(Clone, Copy, Debug)]
pub(crate) enum Class {
    Only(Terminal),
    Literal,
    FieldName,
    Part,
    Entry,
    Comparison,
    BoundOperator,
    Additive,
    Multiplicative,
    Sign,
    Suffix,
    Builtin,
    Lookup,
    Change,
}

impl Class {
    /// Whether a token is of the class.
    pub(crate) fn has(self, terminal: Terminal) -> bool
        ensures { result ≡ has self terminal }
    {
        match self {
            Class::Only(only) => terminal == only,
            Class::Literal => is_literal(terminal),
            Class::FieldName => matches!(terminal, Terminal::Name | Terminal::Str),
            Class::Part => matches!(terminal, Terminal::Name | Terminal::Word(_)),
            Class::Entry => matches!(terminal, Terminal::Word(Word::Query | Word::Mutation)),
            Class::Comparison => is_comparison(terminal),
            Class::BoundOperator => is_bound_operator(terminal),
            Class::Additive => matches!(terminal, Terminal::Mark(Mark::Plus | Mark::Minus)),
            Class::Multiplicative => is_multiplicative(terminal),
            Class::Sign => matches!(terminal, Terminal::Mark(Mark::Minus | Mark::Not)),
            Class::Suffix => matches!(terminal, Terminal::Mark(Mark::Dot | Mark::OpenBracket)),
            Class::Builtin => is_builtin(terminal),
            Class::Lookup => matches!(terminal, Terminal::Word(Word::Get | Word::Delete)),
            Class::Change => matches!(terminal, Terminal::Word(Word::Patch | Word::Replace)),
        }
    }
}

fn is_literal(terminal: Terminal) -> bool
    ensures { result ≡ terminals.is_literal terminal }
{
    matches!(
        terminal,
        Terminal::Integer | Terminal::Str | Terminal::Word(Word::True | Word::False | Word::Null)
    )
}

fn is_comparison(terminal: Terminal) -> bool
    ensures { result ≡ terminals.is_comparison terminal }
{
    matches!(
        terminal,
        Terminal::Mark(
            Mark::Equal
                | Mark::NotEqual
                | Mark::Less
                | Mark::LessEqual
                | Mark::Greater
                | Mark::GreaterEqual
        )
    )
}

fn is_bound_operator(terminal: Terminal) -> bool
    ensures { result ≡ terminals.is_bound_operator terminal }
{
    matches!(
        terminal,
        Terminal::Mark(
            Mark::Equal | Mark::Less | Mark::LessEqual | Mark::Greater | Mark::GreaterEqual
        )
    )
}

fn is_multiplicative(terminal: Terminal) -> bool
    ensures { result ≡ terminals.is_multiplicative terminal }
{
    matches!(
        terminal,
        Terminal::Mark(Mark::Star | Mark::Slash | Mark::Percent)
    )
}

fn is_builtin(terminal: Terminal) -> bool
    ensures { result ≡ terminals.is_builtin terminal }
{
    matches!(
        terminal,
        Terminal::Word(
            Word::Len
                | Word::Has
                | Word::Push
                | Word::Set
                | Word::Without
                | Word::Slice
                | Word::Range
                | Word::Show
                | Word::Keys
        )
    )
}

/// The comparison that a token stands for.
pub(crate) fn compare_of(terminal: Terminal) -> CompareOp
    ensures { result ≡ compare_of terminal }
{
    match terminal {
        Terminal::Mark(Mark::Equal) => CompareOp::Equal,
        Terminal::Mark(Mark::NotEqual) => CompareOp::NotEqual,
        Terminal::Mark(Mark::Less) => CompareOp::Less,
        Terminal::Mark(Mark::LessEqual) => CompareOp::LessEqual,
        Terminal::Mark(Mark::Greater) => CompareOp::Greater,
        _ => CompareOp::GreaterEqual,
    }
}

/// The operator that a token stands for.
pub(crate) fn operator_of(terminal: Terminal) -> BinaryOp
    ensures { result ≡ operator_of terminal }
{
    match terminal {
        Terminal::Mark(Mark::OrOr) => BinaryOp::Or,
        Terminal::Mark(Mark::AndAnd) => BinaryOp::And,
        Terminal::Mark(Mark::Plus) => BinaryOp::Add,
        Terminal::Mark(Mark::Minus) => BinaryOp::Subtract,
        Terminal::Mark(Mark::Star) => BinaryOp::Multiply,
        Terminal::Mark(Mark::Slash) => BinaryOp::Divide,
        Terminal::Mark(Mark::Percent) => BinaryOp::Remainder,
        _ => BinaryOp::Compare(compare_of(terminal)),
    }
}

/// The sign that a token stands for.
pub(crate) fn sign_of(terminal: Terminal) -> UnaryOp
    ensures { result ≡ sign_of terminal }
{
    match terminal {
        Terminal::Mark(Mark::Minus) => UnaryOp::Negate,
        _ => UnaryOp::Not,
    }
}

/// The operation that a word calls.
pub(crate) fn builtin_of(terminal: Terminal) -> Builtin
    ensures { result ≡ builtin_of terminal }
{
    match terminal {
        Terminal::Word(Word::Len) => Builtin::Len,
        Terminal::Word(Word::Has) => Builtin::Has,
        Terminal::Word(Word::Push) => Builtin::Push,
        Terminal::Word(Word::Set) => Builtin::Set,
        Terminal::Word(Word::Without) => Builtin::Without,
        Terminal::Word(Word::Slice) => Builtin::Slice,
        Terminal::Word(Word::Range) => Builtin::Range,
        Terminal::Word(Word::Show) => Builtin::Show,
        _ => Builtin::Keys,
    }
}
