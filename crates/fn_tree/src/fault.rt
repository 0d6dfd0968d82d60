/// Why bytes are no text of a module.
#[derive(Clone, Copy, Debug, PartialEq, Eq)]
pub enum Why {
    /// More than 1,048,576 bytes.
    TooLong,
    /// Bytes that aren't UTF-8.
    NotUtf8,
    /// No token begins here: digits after a leading zero or above the greatest integer, a string
    /// without an end or with a wrong escape, or another character.
    BadToken,
    /// A bracket opens inside 32 open ones.
    TooDeep,
    /// The tokens up to this one begin no module.
    WrongToken,
    /// The tokens begin a module that goes on.
    EarlyEnd,
}

/// The first fault of a text, and the byte at which it is.
#[derive(Clone, Copy, Debug, PartialEq, Eq)]
pub struct SyntaxFault {
    pub at: u64,
    pub why: Why,
}
