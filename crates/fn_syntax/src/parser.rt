//! The parser: a descent over the tokens, one small function for each production. Each looks at most
//! two tokens ahead and takes time in proportion to the tokens that it reads.
mod class;
mod cursor;
mod declaration;
mod expression;
mod list;
mod name;
mod primary;
mod read;
mod statement;
mod whole;

pub(crate) use cursor::Stop;
pub(crate) use whole::module;
