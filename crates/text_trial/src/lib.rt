//! Tests of what a module's text is: its tokens, the parser and the checks.
#![tactic(auto)]

#[cfg(test)]
mod check_tests;
#[cfg(test)]
mod first_fault_tests;
#[cfg(test)]
mod grammar_tests;
#[cfg(test)]
mod parse_tests;
#[cfg(test)]
mod token_tests;
