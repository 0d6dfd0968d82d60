//! Flat code for the functions of a module, and what it means.
//!
//! A code is a list of instructions with one entry for each function. Its meaning is one case for each
//! instruction, from a state to the next one or to a stop. The code of a module means the module: over
//! any answers, its stops are the asks and puts of the run in order, and its outcome is that of the run.
#![tactic(auto)]

mod code;
mod compiler;
mod emit;
mod known;
mod laws;

pub use code::{Code, Entry, Instr, Source};
pub use compiler::compile;
pub use laws::{codes_mean, steps_end};
