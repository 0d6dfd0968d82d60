//! The text of a module: its tokens, and the parser, which reads exactly the grammar and tells the
//! first fault of bytes that are no such text.
#![tactic(auto)]

mod laws;
mod lexer;
mod module_text;
mod nesting;
mod number;
mod parser;
mod token;
mod utf8;
mod value;

pub use fn_tree::{SyntaxFault, Why};
pub use laws::one_fault;
pub use module_text::parse;
pub use token::{Token, TokenKind, tokens};
