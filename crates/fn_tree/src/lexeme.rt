ghost use Rattle.std.specs.Prelude.{◌≡◌};
ghost use Rattle.fn_tree.specs.Spellings.{word_text, mark_text};

/// The reserved words of a module text.
#[derive(Clone, Copy, Debug, PartialEq, Eq)]
pub enum Word {
    Table,
    Index,
    Query,
    Mutation,
    Helper,
    Let,
    If,
    Else,
    For,
    In,
    Return,
    Throw,
    True,
    False,
    Null,
    Scan,
    Desc,
    Take,
    Count,
    Get,
    Insert,
    Patch,
    Replace,
    Delete,
    Now,
    Len,
    Has,
    Push,
    Set,
    Without,
    Slice,
    Range,
    Show,
    Keys,
}

impl Word {
    /// The word as it stands in a text.
    pub fn spelling(self) -> &'static str
        ensures { result.now ≡ word_text self }
    {
        match self {
            Word::Table => "table",
            Word::Index => "index",
            Word::Query => "query",
            Word::Mutation => "mutation",
            Word::Helper => "helper",
            Word::Let => "let",
            Word::If => "if",
            Word::Else => "else",
            Word::For => "for",
            Word::In => "in",
            Word::Return => "return",
            Word::Throw => "throw",
            Word::True => "true",
            Word::False => "false",
            Word::Null => "null",
            Word::Scan => "scan",
            Word::Desc => "desc",
            Word::Take => "take",
            Word::Count => "count",
            Word::Get => "get",
            Word::Insert => "insert",
            Word::Patch => "patch",
            Word::Replace => "replace",
            Word::Delete => "delete",
            Word::Now => "now",
            Word::Len => "len",
            Word::Has => "has",
            Word::Push => "push",
            Word::Set => "set",
            Word::Without => "without",
            Word::Slice => "slice",
            Word::Range => "range",
            Word::Show => "show",
            Word::Keys => "keys",
        }
    }
}

/// The marks of a module text. `Slash` divides, and parts the names of a function's path.
#[derive(Clone, Copy, Debug, PartialEq, Eq)]
pub enum Mark {
    OpenBrace,
    CloseBrace,
    OpenParen,
    CloseParen,
    OpenBracket,
    CloseBracket,
    Comma,
    Colon,
    Semicolon,
    Dot,
    Slash,
    Assign,
    Equal,
    NotEqual,
    Less,
    LessEqual,
    Greater,
    GreaterEqual,
    Plus,
    Minus,
    Star,
    Percent,
    AndAnd,
    OrOr,
    Not,
}

impl Mark {
    /// The mark as it stands in a text.
    pub fn spelling(self) -> &'static str
        ensures { result.now ≡ mark_text self }
    {
        match self {
            Mark::OpenBrace => "{",
            Mark::CloseBrace => "}",
            Mark::OpenParen => "(",
            Mark::CloseParen => ")",
            Mark::OpenBracket => "[",
            Mark::CloseBracket => "]",
            Mark::Comma => ",",
            Mark::Colon => ":",
            Mark::Semicolon => ";",
            Mark::Dot => ".",
            Mark::Slash => "/",
            Mark::Assign => "=",
            Mark::Equal => "==",
            Mark::NotEqual => "!=",
            Mark::Less => "<",
            Mark::LessEqual => "<=",
            Mark::Greater => ">",
            Mark::GreaterEqual => ">=",
            Mark::Plus => "+",
            Mark::Minus => "-",
            Mark::Star => "*",
            Mark::Percent => "%",
            Mark::AndAnd => "&&",
            Mark::OrOr => "||",
            Mark::Not => "!",
        }
    }
}

/// What a token is to the grammar.
#[derive(Clone, Copy, Debug, PartialEq, Eq)]
pub enum Terminal {
    Name,
    Integer,
    Str,
    Word(Word),
    Mark(Mark),
}

/// A token of a text: what it is, and its place and length in bytes.
#[derive(Clone, Copy, Debug, PartialEq, Eq)]
pub struct Lexeme {
    pub terminal: Terminal,
    pub at: u64,
    pub len: u64,
}
