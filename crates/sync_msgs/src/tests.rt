use crate::{
    Cause, Change, ClientMsg, FieldName, MsgFault, MutationResult, ServerMsg, Shown, Version,
    decode, encode, entry_text,
};
use cv_json::{from_json, to_json};
use cv_keys::Write;
use cv_values::{Doc, DocId, Fields, Memory, Seq, Text, Val};
use fn_tree::{Call, Entry, Reply};
use serde_json::Value;
use std::alloc::Global;
use std::test::Fail;

// ---- what is made for a test

fn parse_value(alloc: Global, json: &str) -> Result<Val, Fail> {
    let tree = Value::from_str(alloc, json)?;
    Ok(from_json(alloc, &tree)?)
}

fn parse_fields(alloc: Global, json: &str) -> Result<Fields, Fail> {
    match parse_value(alloc, json)? {
        Val::Obj(fields) => Ok(fields),
        _ => Err(Fail::from("no object")),
    }
}

fn version_at(query_set: u32, ts: u64) -> Version {
    Version {
        query_set,
        identity: 0,
        ts,
    }
}

// A mutation whose argument is an object nested so deep.
fn nested(alloc: Global, depth: u32) -> Result<String, Fail> {
    let mut text = String::from_str(
        alloc,
        "{\"type\":\"Mutation\",\"requestId\":1,\"udfPath\":\"f\",\"args\":[{\"a\":",
    )?;
    for _ in 1..depth {
        text.push('[')?;
    }
    for _ in 1..depth {
        text.push(']')?;
    }
    text.push_str("}]}")?;
    Ok(text)
}

// ---- what is told of a message

fn fields_text(alloc: Global, fields: &Fields) -> Result<String, Fail> {
    let tree = to_json(alloc, &Val::Obj(fields.copy(alloc)?))?;
    Ok(tree.to_string(alloc)?)
}

fn change_text(alloc: Global, change: &Change) -> Result<String, Fail> {
    match change {
        Change::Add { id, udf, args } => {
            let udf = udf.as_str();
            let args = fields_text(alloc, args)?;
            Ok(format!(in alloc; "+{id} {udf} {args};")?)
        }
        Change::Remove { id } => Ok(format!(in alloc; "-{id};")?),
    }
}

fn changes_text(alloc: Global, changes: &[Change]) -> Result<String, Fail> {
    let mut text = String::new(alloc);
    for change in changes {
        text.push_str(change_text(alloc, change)?.as_str())?;
    }
    Ok(text)
}

fn message_text(alloc: Global, m: &ClientMsg) -> Result<String, Fail> {
    match m {
        ClientMsg::Connect {
            session,
            max_observed,
        } => {
            let session = *session;
            match max_observed {
                Some(ts) => Ok(format!(in alloc; "connect {session} {ts}")?),
                None => Ok(format!(in alloc; "connect {session}")?),
            }
        }
        ClientMsg::ModifyQuerySet {
            base,
            next,
            changes,
        } => {
            let changes = changes_text(alloc, changes)?;
            Ok(format!(in alloc; "modify {base} {next} {changes}")?)
        }
        ClientMsg::Mutation { request, udf, args } => {
            let udf = udf.as_str();
            let args = fields_text(alloc, args)?;
            Ok(format!(in alloc; "mutation {request} {udf} {args}")?)
        }
        ClientMsg::Event => Ok(String::from_str(alloc, "event")?),
    }
}

fn field_fault(alloc: Global, text: &str) -> Result<Option<FieldName>, Fail> {
    match decode(alloc, &Text::of(alloc, text)?) {
        Err(MsgFault::BadField { name }) => Ok(Some(name)),
        _ => Ok(None),
    }
}

fn fault(alloc: Global, text: &str) -> Result<Option<MsgFault>, Fail> {
    Ok(decode(alloc, &Text::of(alloc, text)?).err())
}

// ---- texts of clients

#[test]
fn messages_are_read(rt: HostRuntime) -> Result<(), Fail> {
    let alloc = rt.alloc();
    let rows = [
        ("{\"type\":\"Event\",\"eventType\":\"x\"}", "event"),
        (
            "{\"type\":\"Connect\",\"sessionId\":\"00000000-0000-0000-0000-000000000001\"}",
            "connect 1",
        ),
        (
            "{\"type\":\"Connect\",\"sessionId\":\"00000000000000000000000000000001\",\"maxObservedTimestamp\":null}",
            "connect 1",
        ),
        (
            "{\"maxObservedTimestamp\":\"LAEAAAAAAAA=\",\"sessionId\":\"{00000000-0000-0000-0000-00000000000A}\",\"type\":\"Connect\"}",
            "connect 10 300",
        ),
        (
            "{\"type\":\"ModifyQuerySet\",\"baseVersion\":0,\"newVersion\":4294967295,\"modifications\":[]}",
            "modify 0 4294967295 ",
        ),
        (
            "{\"type\":\"ModifyQuerySet\",\"baseVersion\":1,\"newVersion\":2,\"modifications\":[{\"type\":\"Remove\",\"queryId\":0},{\"type\":\"Add\",\"queryId\":3,\"udfPath\":\"q:some\",\"args\":[{\"c\":\"x\"}]}]}",
            "modify 1 2 -0;+3 q:some {\"c\":\"x\"};",
        ),
        (
            "{\"type\":\"Mutation\",\"requestId\":7,\"udfPath\":\"\",\"args\":[{\"b\":1,\"_a\":{\"$bytes\":\"AP8=\"}}]}",
            "mutation 7  {\"_a\":{\"$bytes\":\"AP8=\"},\"b\":{\"$integer\":\"AQAAAAAAAAA=\"}}",
        ),
    ];
    for (text, wanted) in rows {
        let m = decode(alloc, &Text::of(alloc, text)?)?;
        assert_eq!(rt; message_text(alloc, &m)?.as_str(), wanted);
    }
    Ok(())
}

#[test]
fn faults_of_the_whole(rt: HostRuntime) -> Result<(), Fail> {
    let alloc = rt.alloc();
    let field = MsgFault::BadField {
        name: FieldName::Type_,
    };
    let rows = [
        ("", MsgFault::BadJson),
        ("{", MsgFault::BadJson),
        ("{\"type\":\"Event\"} x", MsgFault::BadJson),
        ("{\"type\":\"Event\",\"x\":1e400}", MsgFault::BadJson),
        ("{\"type\":\"Event\",\"x\":\"\\ud800\"}", MsgFault::BadJson),
        ("\"Event\"", field),
        ("[{\"type\":\"Event\"}]", field),
        ("{}", field),
        ("{\"type\":null}", field),
        ("{\"type\":\"Ping\"}", MsgFault::UnknownType),
        ("{\"type\":\"event\"}", MsgFault::UnknownType),
        (
            "{\"type\":\"Event\",\"type\":\"Ping\"}",
            MsgFault::UnknownType,
        ),
    ];
    for (text, wanted) in rows {
        assert_eq!(rt; fault(alloc, text)?, Some(wanted), "at {text}");
    }
    assert_eq!(rt;
        fault(alloc, "{\"type\":\"Ping\",\"type\":\"Event\"}")?,
        None
    );
    Ok(())
}

#[test]
fn wrong_fields_of_connect(rt: HostRuntime) -> Result<(), Fail> {
    let alloc = rt.alloc();
    let rows = [
        ("", FieldName::SessionId),
        (",\"sessionId\":1", FieldName::SessionId),
        (",\"sessionId\":\"0000\"", FieldName::SessionId),
        (",\"maxObservedTimestamp\":1", FieldName::SessionId),
        (
            ",\"sessionId\":\"00000000-0000-0000-0000-000000000001\",\"maxObservedTimestamp\":1",
            FieldName::MaxObservedTimestamp,
        ),
        (
            ",\"sessionId\":\"00000000-0000-0000-0000-000000000001\",\"maxObservedTimestamp\":\"AQAAAAAAAAA\"",
            FieldName::MaxObservedTimestamp,
        ),
        (
            ",\"sessionId\":\"00000000-0000-0000-0000-000000000001\",\"maxObservedTimestamp\":null,\"maxObservedTimestamp\":\"\"",
            FieldName::MaxObservedTimestamp,
        ),
    ];
    for (more, wanted) in rows {
        let text = format!(in alloc; "{{\"type\":\"Connect\"{more}}}")?;
        assert_eq!(rt;
            field_fault(alloc, text.as_str())?,
            Some(wanted),
            "at {more}"
        );
    }
    Ok(())
}

#[test]
fn wrong_fields_of_mutation(rt: HostRuntime) -> Result<(), Fail> {
    let alloc = rt.alloc();
    let rows = [
        ("\"args\":[]", FieldName::RequestId),
        ("\"requestId\":-1", FieldName::RequestId),
        ("\"requestId\":-0", FieldName::RequestId),
        ("\"requestId\":1.0", FieldName::RequestId),
        ("\"requestId\":4294967296", FieldName::RequestId),
        ("\"requestId\":\"1\"", FieldName::RequestId),
        ("\"requestId\":1", FieldName::UdfPath),
        ("\"requestId\":1,\"udfPath\":null", FieldName::UdfPath),
        ("\"requestId\":1,\"udfPath\":\"f\"", FieldName::Args),
        (
            "\"requestId\":1,\"udfPath\":\"f\",\"args\":{}",
            FieldName::Args,
        ),
        (
            "\"requestId\":1,\"udfPath\":\"f\",\"args\":[]",
            FieldName::Args,
        ),
        (
            "\"requestId\":1,\"udfPath\":\"f\",\"args\":[{},{}]",
            FieldName::Args,
        ),
        (
            "\"requestId\":1,\"udfPath\":\"f\",\"args\":[[]]",
            FieldName::Args,
        ),
        (
            "\"requestId\":1,\"udfPath\":\"f\",\"args\":[{\"$x\":1}]",
            FieldName::Args,
        ),
        (
            "\"requestId\":1,\"udfPath\":\"f\",\"args\":[{\"$integer\":\"AQAAAAAAAAA=\"}]",
            FieldName::Args,
        ),
    ];
    for (inner, wanted) in rows {
        let text = format!(in alloc; "{{\"type\":\"Mutation\",{inner}}}")?;
        assert_eq!(rt;
            field_fault(alloc, text.as_str())?,
            Some(wanted),
            "at {inner}"
        );
    }
    Ok(())
}

#[test]
fn wrong_fields_of_query_sets(rt: HostRuntime) -> Result<(), Fail> {
    let alloc = rt.alloc();
    let rows = [
        ("\"newVersion\":1", FieldName::BaseVersion),
        ("\"baseVersion\":4294967296", FieldName::BaseVersion),
        ("\"baseVersion\":0", FieldName::NewVersion),
        (
            "\"baseVersion\":0,\"newVersion\":null",
            FieldName::NewVersion,
        ),
        (
            "\"baseVersion\":0,\"newVersion\":1",
            FieldName::Modifications,
        ),
        (
            "\"baseVersion\":0,\"newVersion\":1,\"modifications\":{}",
            FieldName::Modifications,
        ),
    ];
    for (inner, wanted) in rows {
        let text = format!(in alloc; "{{\"type\":\"ModifyQuerySet\",{inner}}}")?;
        assert_eq!(rt;
            field_fault(alloc, text.as_str())?,
            Some(wanted),
            "at {inner}"
        );
    }
    Ok(())
}

#[test]
fn wrong_modifications(rt: HostRuntime) -> Result<(), Fail> {
    let alloc = rt.alloc();
    let rows = [
        ("1", FieldName::Modifications),
        ("{\"queryId\":0}", FieldName::Modifications),
        ("{\"type\":\"Set\",\"queryId\":0}", FieldName::Modifications),
        ("{\"type\":\"Remove\"}", FieldName::QueryId),
        ("{\"type\":\"Remove\",\"queryId\":-1}", FieldName::QueryId),
        ("{\"type\":\"Add\",\"args\":[]}", FieldName::QueryId),
        (
            "{\"type\":\"Add\",\"queryId\":0,\"udfPath\":1}",
            FieldName::UdfPath,
        ),
        (
            "{\"type\":\"Add\",\"queryId\":0,\"udfPath\":\"q\"}",
            FieldName::Args,
        ),
        (
            "{\"type\":\"Remove\",\"queryId\":0},{\"type\":\"Remove\"}",
            FieldName::QueryId,
        ),
        (
            "{\"type\":\"Add\",\"queryId\":0,\"udfPath\":\"q\"},{\"type\":\"Remove\"}",
            FieldName::Args,
        ),
    ];
    for (changes, wanted) in rows {
        let text = format!(in alloc;
            "{{\"type\":\"ModifyQuerySet\",\"baseVersion\":0,\"newVersion\":1,\"modifications\":[{changes}]}}"
        )?;
        assert_eq!(rt;
            field_fault(alloc, text.as_str())?,
            Some(wanted),
            "at {changes}"
        );
    }
    Ok(())
}

#[test]
fn depths_of_arguments(rt: HostRuntime) -> Result<(), Fail> {
    let alloc = rt.alloc();
    let args = MsgFault::BadField {
        name: FieldName::Args,
    };
    let rows = [
        (64, None),
        (65, Some(args)),
        (125, Some(args)),
        (126, Some(MsgFault::BadJson)),
        (128, Some(MsgFault::BadJson)),
    ];
    for (depth, wanted) in rows {
        let text = nested(alloc, depth)?;
        assert_eq!(rt; fault(alloc, text.as_str())?, wanted, "at {depth}");
    }
    Ok(())
}

#[test]
fn lengths_of_texts(rt: HostRuntime) -> Result<(), Fail> {
    let alloc = rt.alloc();
    let longest = Text::from_string("x".repeat(alloc, 4_194_304)?);
    assert!(rt; decode(alloc, &longest).err() == Some(MsgFault::BadJson));
    let longer = Text::from_string("x".repeat(alloc, 4_194_305)?);
    assert!(rt; decode(alloc, &longer).err() == Some(MsgFault::TooLong));
    Ok(())
}

// ---- texts of servers

fn transition(
    alloc: Global,
    start: Version,
    end: Version,
    changes: Vec<Shown>,
) -> Result<Text, Memory> {
    encode(
        alloc,
        &ServerMsg::Transition {
            start,
            end,
            changes,
        },
    )
}

#[test]
fn row_11_subscription(rt: HostRuntime) -> Result<(), Fail> {
    let alloc = rt.alloc();
    let none = Shown::QueryUpdated {
        id: 0,
        value: parse_value(alloc, "[]")?,
    };
    let text = transition(
        alloc,
        version_at(0, 0),
        version_at(1, 0),
        vec![in alloc; none]?,
    )?;
    assert_eq!(rt;
        text.as_str(),
        "{\"endVersion\":{\"identity\":0,\"querySet\":1,\"ts\":\"AAAAAAAAAAA=\"},\"modifications\":[{\"journal\":null,\"logLines\":[],\"queryId\":0,\"type\":\"QueryUpdated\",\"value\":[]}],\"startVersion\":{\"identity\":0,\"querySet\":0,\"ts\":\"AAAAAAAAAAA=\"},\"type\":\"Transition\"}"
    );
    let one = Shown::QueryUpdated {
        id: 0,
        value: parse_value(
            alloc,
            "[{\"_creationTime\":5,\"_id\":\"000000000000000000000000000000000002000000010000\",\"body\":\"hi\",\"channel\":\"x\"}]",
        )?,
    };
    let text = transition(
        alloc,
        version_at(1, 0),
        version_at(1, 1),
        vec![in alloc; one]?,
    )?;
    assert_eq!(rt;
        text.as_str(),
        "{\"endVersion\":{\"identity\":0,\"querySet\":1,\"ts\":\"AQAAAAAAAAA=\"},\"modifications\":[{\"journal\":null,\"logLines\":[],\"queryId\":0,\"type\":\"QueryUpdated\",\"value\":[{\"_creationTime\":{\"$integer\":\"BQAAAAAAAAA=\"},\"_id\":\"000000000000000000000000000000000002000000010000\",\"body\":\"hi\",\"channel\":\"x\"}]}],\"startVersion\":{\"identity\":0,\"querySet\":1,\"ts\":\"AAAAAAAAAAA=\"},\"type\":\"Transition\"}"
    );
    Ok(())
}

#[test]
fn row_12_owed_timestamp(rt: HostRuntime) -> Result<(), Fail> {
    let alloc = rt.alloc();
    let text = transition(alloc, version_at(1, 1), version_at(1, 3), Vec::new(alloc))?;
    assert_eq!(rt;
        text.as_str(),
        "{\"endVersion\":{\"identity\":0,\"querySet\":1,\"ts\":\"AwAAAAAAAAA=\"},\"modifications\":[],\"startVersion\":{\"identity\":0,\"querySet\":1,\"ts\":\"AQAAAAAAAAA=\"},\"type\":\"Transition\"}"
    );
    Ok(())
}

#[test]
fn row_13_query_sets(rt: HostRuntime) -> Result<(), Fail> {
    let alloc = rt.alloc();
    let removed = Shown::QueryRemoved { id: 2 };
    let failed = Shown::QueryFailed {
        id: 3,
        error: Text::of(alloc, "UnknownFunction")?,
    };
    let text = transition(
        alloc,
        version_at(1, 0),
        version_at(2, 0),
        vec![in alloc; removed, failed]?,
    )?;
    assert_eq!(rt;
        text.as_str(),
        "{\"endVersion\":{\"identity\":0,\"querySet\":2,\"ts\":\"AAAAAAAAAAA=\"},\"modifications\":[{\"queryId\":2,\"type\":\"QueryRemoved\"},{\"errorMessage\":\"UnknownFunction\",\"journal\":null,\"logLines\":[],\"queryId\":3,\"type\":\"QueryFailed\"}],\"startVersion\":{\"identity\":0,\"querySet\":1,\"ts\":\"AAAAAAAAAAA=\"},\"type\":\"Transition\"}"
    );
    Ok(())
}

fn response(alloc: Global, request: u32, ended: MutationResult) -> Result<Text, Memory> {
    encode(
        alloc,
        &ServerMsg::MutationResponse {
            request,
            result: ended,
        },
    )
}

#[test]
fn responses(rt: HostRuntime) -> Result<(), Fail> {
    let alloc = rt.alloc();
    let ended = MutationResult::Value {
        value: Val::Null,
        ts: 3,
    };
    let text = response(alloc, 1, ended)?;
    assert_eq!(rt;
        text.as_str(),
        "{\"logLines\":[],\"requestId\":1,\"result\":null,\"success\":true,\"ts\":\"AwAAAAAAAAA=\",\"type\":\"MutationResponse\"}"
    );
    let ended = MutationResult::Failed {
        error: Text::of(alloc, "Thrown: \"no\"\n")?,
    };
    let text = response(alloc, 4_294_967_295, ended)?;
    assert_eq!(rt;
        text.as_str(),
        "{\"logLines\":[],\"requestId\":4294967295,\"result\":\"Thrown: \\\"no\\\"\\n\",\"success\":false,\"type\":\"MutationResponse\"}"
    );
    Ok(())
}

#[test]
fn row_19_refusals(rt: HostRuntime) -> Result<(), Fail> {
    let alloc = rt.alloc();
    let rows = [
        (Cause::TooLong, "TooLong"),
        (Cause::BadJson, "BadJson"),
        (Cause::UnknownType, "UnknownType"),
        (
            Cause::BadField {
                name: FieldName::Args,
            },
            "BadField args",
        ),
        (Cause::NotConnected, "NotConnected"),
        (Cause::ConnectedTwice, "ConnectedTwice"),
        (Cause::TimestampAhead, "TimestampAhead"),
        (Cause::VersionMismatch, "VersionMismatch"),
        (Cause::QueryIdInUse, "QueryIdInUse"),
        (Cause::TooManyQueries, "TooManyQueries"),
        (Cause::UnknownQuery, "UnknownQuery"),
    ];
    for (cause, name) in rows {
        let error = cause.text(alloc)?;
        let text = encode(alloc, &ServerMsg::FatalError { error })?;
        let wanted = format!(in alloc; "{{\"error\":\"{name}\",\"type\":\"FatalError\"}}")?;
        assert_eq!(rt; text.as_str(), wanted.as_str());
    }
    Ok(())
}

// ---- entries

fn inserted(alloc: Global) -> Result<Write, Fail> {
    let id = DocId {
        table: 0,
        session: 1,
        request: 1,
        ordinal: 0,
    };
    Ok(Write {
        id,
        old: None,
        new: Some(Doc {
            id,
            creation: 0,
            fields: parse_fields(alloc, "{\"v\":1}")?,
        }),
    })
}

#[test]
fn row_3_entry(rt: HostRuntime) -> Result<(), Fail> {
    let alloc = rt.alloc();
    let mut writes = Seq::new(alloc);
    writes.push(inserted(alloc)?)?;
    let entry = Entry {
        call: Call {
            session: 1,
            request: 1,
            udf: Text::of(alloc, "m:add")?,
            args: parse_fields(alloc, "{\"x\":1}")?,
            now: 0,
        },
        reply: Reply::Value(Val::Int(1)),
        writes,
    };
    let text = entry_text(alloc, 1, &entry)?;
    assert_eq!(rt;
        text.as_str(),
        "{\"args\":{\"x\":{\"$integer\":\"AQAAAAAAAAA=\"}},\"now\":{\"$integer\":\"AAAAAAAAAAA=\"},\"reply\":{\"value\":{\"$integer\":\"AQAAAAAAAAA=\"}},\"request\":1,\"session\":\"00000000-0000-0000-0000-000000000001\",\"ts\":1,\"udf\":\"m:add\",\"writes\":[[\"000000000000000000000000000000000001000000010000\",{\"_creationTime\":{\"$integer\":\"AAAAAAAAAAA=\"},\"_id\":\"000000000000000000000000000000000001000000010000\",\"v\":{\"$integer\":\"AQAAAAAAAAA=\"}}]]}"
    );
    Ok(())
}
