//! Code is put to the end of the code so far.
pub(crate) mod expressions;
pub(crate) mod functions;
mod instructions;
mod jumps;
mod operands;
mod statements;
