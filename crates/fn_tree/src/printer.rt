//! The canonical text of a module.
mod declarations;
mod expressions;
mod statements;
mod tokens;

pub use declarations::print;
