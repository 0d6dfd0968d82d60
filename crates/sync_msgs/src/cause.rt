//! Why a client's text is refused.
ghost use Rattle.std.specs.Prelude.{◌≡◌, ◌++◌, IfOk, codes};
ghost use Rattle.sync_msgs.specs.Causes.{field_name, cause_text, cause_of};

use cv_values::{Memory, Text};
use std::alloc::{AllocFailed, Global};

/// A field of a client's message.
#[derive(Clone, Copy, Debug, PartialEq, Eq)]
pub enum FieldName {
    Type_,
    SessionId,
    MaxObservedTimestamp,
    BaseVersion,
    NewVersion,
    Modifications,
    QueryId,
    UdfPath,
    Args,
    RequestId,
}

impl FieldName {
    /// The name of the field in a message's JSON object.
    pub fn as_str(self) -> &'static str
        ensures { result.now ≡ field_name self }
    {
        match self {
            FieldName::Type_ => "type",
            FieldName::SessionId => "sessionId",
            FieldName::MaxObservedTimestamp => "maxObservedTimestamp",
            FieldName::BaseVersion => "baseVersion",
            FieldName::NewVersion => "newVersion",
            FieldName::Modifications => "modifications",
            FieldName::QueryId => "queryId",
            FieldName::UdfPath => "udfPath",
            FieldName::Args => "args",
            FieldName::RequestId => "requestId",
        }
    }
}

/// Why a session refuses a text. The first four are faults of the text itself, which
/// [`decode`](crate::decode) tells; the others depend on the session.
#[derive(Clone, Copy, Debug, PartialEq, Eq)]
pub enum Cause {
    /// The text has more than 4,194,304 bytes.
    TooLong,
    /// The text is no JSON that `serde_json` reads.
    BadJson,
    /// The message's type is none of a client's.
    UnknownType,
    /// The first field that is absent or wrong.
    BadField { name: FieldName },
    /// No session has begun.
    NotConnected,
    /// A session has begun already.
    ConnectedTwice,
    /// The client has observed a timestamp that the log doesn't have yet.
    TimestampAhead,
    /// The base is another query set than the client's, or the new one isn't above it.
    VersionMismatch,
    /// A query is subscribed under this id.
    QueryIdInUse,
    /// 256 queries are subscribed.
    TooManyQueries,
    /// No query is subscribed under this id.
    UnknownQuery,
}

impl Cause {
    /// The text that a `FatalError` gives: the name of the cause, and for `BadField` a space and the field
    /// behind it.
    pub fn text(self, alloc: Global) -> Result<Text, Memory>
        ensures { IfOk result (λ t. t ≡ cause_text self) }
    {
        match self {
            Cause::TooLong => Text::of(alloc, "TooLong"),
            Cause::BadJson => Text::of(alloc, "BadJson"),
            Cause::UnknownType => Text::of(alloc, "UnknownType"),
            Cause::BadField { name } => bad_field_text(alloc, name),
            Cause::NotConnected => Text::of(alloc, "NotConnected"),
            Cause::ConnectedTwice => Text::of(alloc, "ConnectedTwice"),
            Cause::TimestampAhead => Text::of(alloc, "TimestampAhead"),
            Cause::VersionMismatch => Text::of(alloc, "VersionMismatch"),
            Cause::QueryIdInUse => Text::of(alloc, "QueryIdInUse"),
            Cause::TooManyQueries => Text::of(alloc, "TooManyQueries"),
            Cause::UnknownQuery => Text::of(alloc, "UnknownQuery"),
        }
    }
}

fn bad_field_text(alloc: Global, name: FieldName) -> Result<Text, Memory>
    ensures { IfOk result (λ t. t ≡ codes "BadField " ++ field_name name) }
{
    let field = name.as_str();
    let text = format!(in alloc; "BadField {field}")?;
    Ok(Text::from_string(text))
}

/// Why a text is read as no message, or that memory was refused.
#[derive(Clone, Copy, Debug, PartialEq, Eq)]
pub enum MsgFault {
    /// As [`Cause::TooLong`].
    TooLong,
    /// As [`Cause::BadJson`].
    BadJson,
    /// As [`Cause::UnknownType`].
    UnknownType,
    /// As [`Cause::BadField`].
    BadField { name: FieldName },
    /// An allocation was refused. The text may be that of a message, or of none.
    Memory,
}

impl MsgFault {
    /// The cause that a text with this fault is refused for, or none for want of memory.
    pub fn cause(self) -> Option<Cause>
        ensures { result ≡ cause_of self }
    {
        match self {
            MsgFault::TooLong => Some(Cause::TooLong),
            MsgFault::BadJson => Some(Cause::BadJson),
            MsgFault::UnknownType => Some(Cause::UnknownType),
            MsgFault::BadField { name } => Some(Cause::BadField { name }),
            MsgFault::Memory => None,
        }
    }
}

impl From<Memory> for MsgFault {
    ghost use Rattle.std.specs.Prelude.{◌≡◌};
    ghost use Rattle.sync_msgs.specs.declared.cause.MsgFault.TheVariants.{Memory as NoMemory};

    ghost from_gives = { λ m f. f ≡ NoMemory };

    fn from(_memory: Memory) -> MsgFault {
        MsgFault::Memory
    }
}

impl<T: Drop> From<AllocFailed<T>> for MsgFault {
    ghost use Rattle.std.specs.Prelude.{◌≡◌};
    ghost use Rattle.sync_msgs.specs.declared.cause.MsgFault.TheVariants.{Memory as NoMemory};

    ghost from_gives = { λ m f. f ≡ NoMemory };

    fn from(_failed: AllocFailed<T>) -> MsgFault {
        MsgFault::Memory
    }
}
