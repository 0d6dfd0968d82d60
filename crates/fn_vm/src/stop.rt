use fn_tree::{Ask, Outcome, Put};

/// Where a machine stops: a read that it asks for, a write that it puts, or its outcome.
#[derive(Debug, Drop)]
pub enum Stop {
    Ask(Ask),
    Put(Put),
    Done(Outcome),
}
