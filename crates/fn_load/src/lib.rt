//! From the bytes of a module's text to a program: the text is read, checked and compiled in turn.
#![tactic(auto)]

mod fault;
mod laws;
mod loader;
mod program;
#[cfg(test)]
mod tests;

pub use fault::LoadFault;
pub use laws::{one_answer, programs_are_shared};
pub use loader::load;
pub use program::Program;
