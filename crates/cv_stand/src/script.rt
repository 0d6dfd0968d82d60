//! What a script says.
use cv_values::{Fields, Text};

/// What a line of a script asks for.
#[derive(Drop)]
pub enum Event {
    /// The clock reads this moment from then on.
    Clock(i64),
    /// The mutation is run, or the reply that was kept is told.
    Call {
        session: u128,
        request: u32,
        udf: Text,
        args: Fields,
    },
    /// All entries are told.
    Log,
}

/// The events of the lines before the first bad one, each with its line's number, and the number of
/// that line.
#[derive(Drop)]
pub struct Script {
    pub events: Vec<(u64, Event)>,
    pub bad: Option<u64>,
}
