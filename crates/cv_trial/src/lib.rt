//! Tests of a script's lines, and of jobs that are stepped by turns over one store.
#![tactic(auto)]

#[cfg(test)]
mod script_tests;
#[cfg(test)]
mod turn_tests;
