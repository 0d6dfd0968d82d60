//! The checks of a module: names and their scopes, numbers of arguments, tables and indexes, bounds, and
//! what a query may not do.
//!
//! Each construct has its checks at its own tokens, before and after those of its parts as they stand in
//! the text; the first that fails is told. A helper is known behind its own end, so it can't call itself.
#![tactic(auto)]

mod bounds;
mod checked;
mod checks;
mod copy;
mod effects;
mod expression;
mod fault;
mod function;
mod laws;
mod schema;
mod scope;
mod statement;
mod table;

pub use checked::Checked;
pub use checks::check;
pub use fault::{CheckFault, CheckKind};
pub use laws::checked_modules_are_shared;
