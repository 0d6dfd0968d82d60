//! The job of a mutation and the answers of queries: a function's run over a store, one atomic step at a
//! time.
#![tactic(auto)]

mod answer;
mod attempt;
mod job_steps;
mod laws;
mod pause;
mod run_job;
mod run_on;
mod starts;
mod steps;

pub use laws::{jobs_cross, snapshots_hold};
pub use run_job::RunJob;
