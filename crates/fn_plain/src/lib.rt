//! The run of a call, played plainly over a list of documents: the definition of a run as a program.
//!
//! It walks the syntax tree, and for each read applies all puts anew and sorts the rows anew. It is
//! slow, and there to be compared with: what runs faster has to give the same.
#![tactic(auto)]

mod answer;
mod change;
mod context;
mod documents;
mod fault;
mod form;
mod operator;
mod play;
mod read;
mod runs;
mod scan;
mod scope;

pub use answer::answer_of;
pub use context::Limits;
pub use documents::with_puts;
pub use runs::{PlainRun, Start, run, run_within, writes_of};
