//! The machine that runs the code of a module.
//!
//! A machine stands for a state of the plain machine of the code. It goes on from one stop to the next:
//! a read that it asks for, a write that it puts, or its outcome. So where the code means a module, the
//! stops of a run are those of the call's course, in order, whatever the answers are.
#![tactic(auto)]

mod control;
mod counts;
mod frame;
mod last_use;
mod laws;
mod machine;
mod operands;
mod reads;
mod rows;
mod run;
mod scans;
mod start;
mod step;
mod stop;
mod values;
mod writes;

pub use cv_store::Runs;
pub use fn_tree::Origin;
pub use laws::machines_cross;
pub use machine::Machine;
pub use start::Start;
pub use stop::Stop;
