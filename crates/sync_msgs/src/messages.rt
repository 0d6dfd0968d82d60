use crate::version::Version;
use cv_values::{Fields, Text, Val};

/// A message of a client.
#[derive(Debug, Drop)]
pub enum ClientMsg {
    /// A session begins. Its client has observed the log up to this timestamp.
    Connect {
        session: u128,
        max_observed: Option<u64>,
    },
    /// The query set with the number `base` becomes the one with the number `next`.
    ModifyQuerySet {
        base: u32,
        next: u32,
        changes: Vec<Change>,
    },
    /// A mutation is to be run.
    Mutation {
        request: u32,
        udf: Text,
        args: Fields,
    },
    /// An event, which is ignored.
    Event,
}

/// A change of a query set.
#[derive(Debug, Drop)]
pub enum Change {
    /// A query is subscribed under an id.
    Add { id: u32, udf: Text, args: Fields },
    /// The query under an id is no longer subscribed.
    Remove { id: u32 },
}

/// A message of a server.
#[derive(Debug, Drop)]
pub enum ServerMsg {
    /// The client goes on from one version to another.
    Transition {
        start: Version,
        end: Version,
        changes: Vec<Shown>,
    },
    /// How a request's mutation ended.
    MutationResponse {
        request: u32,
        result: MutationResult,
    },
    /// A text was refused, and nothing follows.
    FatalError {
        error: Text,
    },
}

/// How a mutation ended: with a value and the timestamp of its entry, or with the text of an error.
#[derive(Debug, Drop)]
pub enum MutationResult {
    Value { value: Val, ts: u64 },
    Failed { error: Text },
}

/// What a transition tells of a query's id.
#[derive(Debug, Drop)]
pub enum Shown {
    /// The query's value.
    QueryUpdated { id: u32, value: Val },
    /// The text of the query's error.
    QueryFailed { id: u32, error: Text },
    /// The query is no longer subscribed.
    QueryRemoved { id: u32 },
}
