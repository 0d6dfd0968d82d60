//! The machine over a list of documents, compared with the plain program. No other crate stands on this one.
#![tactic(auto)]

mod machine_run;
#[cfg(test)]
mod machine_tests;
#[cfg(test)]
mod plain_tests;

pub use machine_run::run_call;
