//! The function language: its tokens, grammar and syntax trees, and what a program means.
//!
//! A function means a *course*: what it asks for and puts, in order, whatever the answers are. Followed
//! on documents a course is a run, with reply, writes, reads and cost. A history is the list of a log's
//! entries in order. It is legal where each entry is the run of its call on the documents that the
//! entries before it left, and no two entries have one session's request: a run of one thread. The idea
//! is that of the [article How Convex Works](https://stack.convex.dev/how-convex-works); the definitions
//! in `specs/` are this project's own.
#![tactic(auto)]

mod begin;
mod entry;
mod fault;
mod laws;
mod lexeme;
mod printer;
mod start;
mod stop;
mod syntax;
#[cfg(test)]
mod tests;

pub use begin::Begin;
pub use entry::{Call, Entry, Reply};
pub use fault::{SyntaxFault, Why};
pub use laws::{
    at_most_one_module, canonical_texts, commits_are_legal, entries_cross, legal_histories,
    modules_are_shared, reads_decide, runs_ask_there, runs_put_truly, same_queries,
    tokens_of_texts, worked_runs, worked_tokens,
};
pub use lexeme::{Lexeme, Mark, Terminal, Word};
pub use printer::print;
pub use start::Origin;
pub use stop::{Answer, Ask, Left, Outcome, Put, Query, READ_ROWS};
pub use syntax::{
    BinaryOp, BoundExpr, Builtin, CompareOp, Expr, ExprForm, Function, IndexDecl, Kind, Module,
    Named, Stmt, StmtForm, TableDecl, UnaryOp,
};
