//! Each request and each reply once, with ample memory.

use action_types::Name;
use conflict_rules::Rule;
use log_names::LogName;
use reconcile::State;
use session_lines::{LineWhy, Reply, Request, read_request, reply_text};
use std::alloc::Global;
use std::str;
use std::test::Fail;
use table_model::{Snapshot, Spot};
use table_rules::Broken;

/// What a line is read as.
fn outcome(alloc: Global, line: &str) -> Result<String, Fail> {
    match read_request(alloc, line.as_bytes()) {
        Ok(Request::Create(create)) => Ok(format!(in alloc; "create {:?}", create.id)?),
        Ok(Request::Write(write)) => Ok(format!(in alloc;
            "write {:?} {}",
            write.app, write.number
        )?),
        Ok(Request::Load) => Ok(String::from_str(alloc, "load")?),
        Err(why) => Ok(format!(in alloc; "{why:?}")?),
    }
}

/// A line, and what it is read as.
const LINES: [(&str, &str); 15] = [
    (
        "{\"op\":\"create\",\"id\":\"t1\",\"schema\":\"{}\"}",
        "create \"t1\"",
    ),
    (
        "{\"op\":\"write\",\"app\":\"A\",\"number\":1,\"adds\":[{\"path\":\"a\",\"partitionValues\":{},\"size\":10,\"modificationTime\":5,\"dataChange\":true}]}",
        "write \"A\" 1",
    ),
    ("{\"op\":\"load\",\"x\":null}", "load"),
    ("nope", "NotJson"),
    ("[]", "NotObject"),
    ("{\"op\":\"fly\"}", "Op"),
    (
        "{\"op\":\"load\",\"version\":1}",
        "Field { field: \"version\" }",
    ),
    (
        "{\"op\":\"create\",\"id\":\"\",\"schema\":1}",
        "Field { field: \"id\" }",
    ),
    (
        "{\"op\":\"create\",\"id\":\"t1\",\"schema\":\"delta.invariants\"}",
        "Field { field: \"schema\" }",
    ),
    (
        "{\"op\":\"write\",\"app\":\"A\",\"number\":-1}",
        "Field { field: \"number\" }",
    ),
    (
        "{\"op\":\"write\",\"app\":\"A\",\"number\":-0}",
        "Field { field: \"number\" }",
    ),
    ("{\"op\":\"load\",\"x\":1e999}", "NotJson"),
    (
        "{\"op\":\"write\",\"app\":\"A\",\"number\":1,\"adds\":[{\"path\":\"a\",\"partitionValues\":{},\"size\":10,\"modificationTime\":5,\"dataChange\":true},{\"path\":\"a\",\"partitionValues\":{},\"size\":10,\"modificationTime\":5,\"dataChange\":true,\"deletionVector\":{\"storageType\":\"u\",\"pathOrInlineDv\":\"x1\",\"sizeInBytes\":40,\"cardinality\":6}}]}",
        "write \"A\" 1",
    ),
    (
        "{\"op\":\"write\",\"app\":\"A\",\"number\":1,\"adds\":[{\"path\":\"a\",\"partitionValues\":{},\"size\":10,\"modificationTime\":5,\"dataChange\":true,\"deletionVector\":{\"storageType\":\"u\",\"pathOrInlineDv\":\"x1\",\"sizeInBytes\":40,\"cardinality\":6}},{\"path\":\"a\",\"partitionValues\":{},\"size\":10,\"modificationTime\":5,\"dataChange\":true,\"deletionVector\":{\"storageType\":\"ux\",\"pathOrInlineDv\":\"1\",\"sizeInBytes\":40,\"cardinality\":7}}]}",
        "Field { field: \"adds\" }",
    ),
    (
        "{\"op\":\"write\",\"app\":\"A\",\"number\":1,\"adds\":[{\"path\":\"a\",\"partitionValues\":{},\"size\":10,\"modificationTime\":5,\"dataChange\":true,\"deletionVector\":{\"storageType\":\"u\",\"pathOrInlineDv\":\"x1\",\"sizeInBytes\":40}}]}",
        "Field { field: \"adds\" }",
    ),
];

#[test]
fn requests(rt: HostRuntime) -> Result<(), Fail> {
    let alloc = rt.alloc();
    for (line, wanted) in LINES {
        assert_eq!(rt; outcome(alloc, line)?.as_str(), wanted);
    }
    Ok(())
}

/// A reply without a text of its own.
fn plain(number: u8) -> Reply {
    match number {
        0 => Reply::Committed {
            base: None,
            time: 1000,
            version: 0,
        },
        1 => Reply::Already {
            latest: 1,
            recorded: 2,
        },
        2 => Reply::NoTable,
        3 => Reply::Exists { latest: 1 },
        4 => Reply::Contended {
            attempts: 64,
            latest: 65,
        },
        5 => Reply::Full { latest: 1 },
        6 => Reply::TimeEnd {
            base: 1,
            last: i64::MAX,
        },
        7 => Reply::TooLarge {
            base: Some(1),
            bytes: 500,
        },
        8 => Reply::Taken {
            base: Some(0),
            id: 2,
            version: 1,
        },
        9 => Reply::Fault {
            spot: Spot::File(LogName::Published(7)),
        },
        10 => Reply::Memory,
        _ => Reply::BadLine {
            at: 4,
            why: LineWhy::TooLong,
        },
    }
}

/// A reply with texts of its own, or with a state.
fn named(alloc: Global, number: u8) -> Result<Reply, Fail> {
    let name = Name::from_str(alloc, "a")?;
    let vector = Some(Name::from_str(alloc, "ux1@4")?);
    match number {
        0 => Ok(broken(Broken::NotLive {
            path: name,
            vector: None,
        })),
        1 => Ok(conflict(Rule::DeleteDelete, name, None)),
        2 => Ok(Reply::BadLine {
            at: 4,
            why: LineWhy::Field { field: name },
        }),
        3 => Ok(Reply::Loaded(Snapshot {
            version: 1,
            latest: 1,
            time: 1000,
            state: State::empty(alloc),
        })),
        4 => Ok(broken(Broken::NotLive { path: name, vector })),
        5 => Ok(broken(Broken::AppendOnly { path: name, vector })),
        6 => Ok(broken(Broken::Partition { path: name, vector })),
        7 => Ok(broken(Broken::Vector { path: name, vector })),
        8 => Ok(broken(Broken::Domain { domain: name })),
        9 => Ok(conflict(Rule::Append, name, vector)),
        _ => Ok(conflict(Rule::Domain, name, None)),
    }
}

/// A broken rule at version 0.
fn broken(why: Broken) -> Reply {
    Reply::Broken { base: Some(0), why }
}

/// A conflict of version 1 with version 2.
fn conflict(rule: Rule, key: Name, vector: Option<Name>) -> Reply {
    Reply::Conflict {
        base: 1,
        key,
        latest: 2,
        rule,
        vector,
        winner: 2,
    }
}

/// The text of a reply.
fn text(alloc: Global, reply: &Reply) -> Result<String, Fail> {
    let bytes = reply_text(alloc, reply)?;
    match str::from_utf8(bytes.as_slice()) {
        Ok(text) => Ok(String::from_str(alloc, text)?),
        Err(_) => Ok(String::new(alloc)),
    }
}

const PLAIN: [(u8, &str); 12] = [
    (
        0,
        "{\"base\":null,\"reply\":\"committed\",\"time\":1000,\"version\":0}\n",
    ),
    (1, "{\"latest\":1,\"recorded\":2,\"reply\":\"already\"}\n"),
    (2, "{\"reply\":\"noTable\"}\n"),
    (3, "{\"latest\":1,\"reply\":\"exists\"}\n"),
    (
        4,
        "{\"attempts\":64,\"latest\":65,\"reply\":\"contended\"}\n",
    ),
    (5, "{\"latest\":1,\"reply\":\"full\"}\n"),
    (
        6,
        "{\"base\":1,\"last\":9223372036854775807,\"reply\":\"timeEnd\"}\n",
    ),
    (7, "{\"base\":1,\"bytes\":500,\"reply\":\"tooLarge\"}\n"),
    (
        8,
        "{\"base\":0,\"id\":\"00000000-0000-0000-0000-000000000002\",\"reply\":\"taken\",\"version\":1}\n",
    ),
    (
        9,
        "{\"name\":\"00000000000000000007.json\",\"reply\":\"fault\"}\n",
    ),
    (10, "{\"reply\":\"memory\"}\n"),
    (11, "{\"at\":4,\"reply\":\"badLine\",\"why\":\"tooLong\"}\n"),
];

#[test]
fn plain_replies(rt: HostRuntime) -> Result<(), Fail> {
    let alloc = rt.alloc();
    for (number, wanted) in PLAIN {
        assert_eq!(rt; text(alloc, &plain(number))?.as_str(), wanted);
    }
    Ok(())
}

const NAMED: [(u8, &str); 11] = [
    (
        0,
        "{\"base\":0,\"key\":\"a\",\"reply\":\"broken\",\"rule\":\"notLive\"}\n",
    ),
    (
        1,
        "{\"base\":1,\"key\":\"a\",\"latest\":2,\"reply\":\"conflict\",\"rule\":\"deleteDelete\",\"winner\":2}\n",
    ),
    (
        2,
        "{\"at\":4,\"field\":\"a\",\"reply\":\"badLine\",\"why\":\"field\"}\n",
    ),
    (
        3,
        "{\"files\":[],\"latest\":1,\"removed\":[],\"reply\":\"loaded\",\"time\":1000,\"txns\":[],\"version\":1}\n",
    ),
    (
        4,
        "{\"base\":0,\"key\":\"a\",\"reply\":\"broken\",\"rule\":\"notLive\",\"vector\":\"ux1@4\"}\n",
    ),
    (
        5,
        "{\"base\":0,\"key\":\"a\",\"reply\":\"broken\",\"rule\":\"appendOnly\",\"vector\":\"ux1@4\"}\n",
    ),
    (
        6,
        "{\"base\":0,\"key\":\"a\",\"reply\":\"broken\",\"rule\":\"partition\",\"vector\":\"ux1@4\"}\n",
    ),
    (
        7,
        "{\"base\":0,\"key\":\"a\",\"reply\":\"broken\",\"rule\":\"vector\",\"vector\":\"ux1@4\"}\n",
    ),
    (
        8,
        "{\"base\":0,\"key\":\"a\",\"reply\":\"broken\",\"rule\":\"domain\"}\n",
    ),
    (
        9,
        "{\"base\":1,\"key\":\"a\",\"latest\":2,\"reply\":\"conflict\",\"rule\":\"append\",\"vector\":\"ux1@4\",\"winner\":2}\n",
    ),
    (
        10,
        "{\"base\":1,\"key\":\"a\",\"latest\":2,\"reply\":\"conflict\",\"rule\":\"domain\",\"winner\":2}\n",
    ),
];

#[test]
fn named_replies(rt: HostRuntime) -> Result<(), Fail> {
    let alloc = rt.alloc();
    for (number, wanted) in NAMED {
        assert_eq!(rt; text(alloc, &named(alloc, number)?)?.as_str(), wanted);
    }
    Ok(())
}
