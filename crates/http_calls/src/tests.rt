//! Each call, each refusal and each answer, once.

use crate::{Answer, BadCall, Call, Content, Entries, Entry, Refusal, answer_body, call_of};
use action_json::{Kind, Why};
use action_types::Name;
use http_wire::Request;
use log_names::LogName;
use std::alloc::{AllocError, Global};
use std::fmt::Write as _;
use std::test::Fail;

const ID: u128 = 0x2222_2222_2222_4222_8222_2222_2222_2222;

/// The method, the target and the body of a request to the table `t 1`, and what it asks for.
const REQUESTS: [(&str, &str, &str, &str); 26] = [
    ("GET", "/tables/t%201/commits", "", "commits"),
    (
        "POST",
        "/tables/t%201/commits",
        "{\"commit\":{\"id\":\"22222222-2222-4222-8222-222222222222\",\"time\":2000,\"version\":1}}",
        "ratify 1 at 2000",
    ),
    (
        "POST",
        "/tables/t%201/commits",
        " {\"latestPublished\": 18446744073709551615}",
        "report 18446744073709551615",
    ),
    (
        "PUT",
        "/tables/t%201/log/_staged_commits/00000000000000000001.22222222-2222-4222-8222-222222222222.json",
        "abc",
        "stage 1 of 3 bytes",
    ),
    (
        "PUT",
        "/tables/t%201/log/00000000000000000001.json",
        "abc",
        "publish 1 of 3 bytes",
    ),
    (
        "GET",
        "/tables/t%201/log/00000000000000000007.json",
        "",
        "get",
    ),
    (
        "GET",
        "/tables/t%201/log/00000000000000000007.checkpoint.22222222-2222-4222-8222-222222222222.json",
        "",
        "get",
    ),
    // Of several reasons the first is told.
    ("DELETE", "/tables/t2/commit", "{", "no target"),
    ("GET", "/tables//commits", "", "no target"),
    ("GET", "/tables/t%201/commits?from=1", "", "no target"),
    ("GET", "/tables/t%201/log/7.json", "", "no target"),
    (
        "GET",
        "/tables/t%201/log/0000000000000000000%37.json",
        "",
        "no target",
    ),
    ("PUT", "/tables/t2/commits", "{", "no method"),
    (
        "PUT",
        "/tables/t%201/log/00000000000000000007.checkpoint.22222222-2222-4222-8222-222222222222.json",
        "",
        "no method",
    ),
    ("get", "/tables/t%201/commits", "", "no method"),
    ("POST", "/tables/t2/commits", "{", "no table"),
    ("GET", "/tables/t%2f1/commits", "", "no table"),
    ("POST", "/tables/t%201/commits", "", "no body"),
    ("POST", "/tables/t%201/commits", "{}", "no body"),
    (
        "POST",
        "/tables/t%201/commits",
        "{\"latestPublished\":-1}",
        "no body",
    ),
    (
        "POST",
        "/tables/t%201/commits",
        "{\"latestPublished\":1.0}",
        "no body",
    ),
    (
        "POST",
        "/tables/t%201/commits",
        "{\"latestPublished\":1,\"x\":null}",
        "no body",
    ),
    (
        "POST",
        "/tables/t%201/commits",
        "{\"commit\":{\"id\":\"22222222-2222-4222-8222-222222222222\",\"time\":2000,\"version\":1,\"x\":2}}",
        "no body",
    ),
    (
        "POST",
        "/tables/t%201/commits",
        "{\"commit\":{\"id\":\"22222222-2222-4222-8222-222222222222\",\"time\":-1,\"version\":1}}",
        "no body",
    ),
    (
        "POST",
        "/tables/t%201/commits",
        "{\"commit\":{\"id\":\"22222222222242228222222222222222\",\"time\":2000,\"version\":1}}",
        "no body",
    ),
    (
        "POST",
        "/tables/t%201/commits",
        "{\"commit\":{\"id\":\"22222222-2222-4222-8222-222222222222\",\"version\":1}}",
        "no body",
    ),
];

fn refused(why: Refusal) -> &'static str {
    match why {
        Refusal::Target => "no target",
        Refusal::Method => "no method",
        Refusal::Table => "no table",
        Refusal::Body => "no body",
    }
}

fn add_call(text: &mut String, call: &Call) -> Result<(), AllocError> {
    match call {
        Call::Commits => text.push_str("commits"),
        Call::Ratify { version, time, .. } => write!(text, "ratify {version} at {time}"),
        Call::Report { version } => write!(text, "report {version}"),
        Call::Stage { version, bytes, .. } => {
            let size = bytes.as_slice().len();
            write!(text, "stage {version} of {size} bytes")
        }
        Call::Publish { version, bytes } => {
            let size = bytes.as_slice().len();
            write!(text, "publish {version} of {size} bytes")
        }
        Call::Get(_) => text.push_str("get"),
    }
}

/// What a request asks for, in words.
fn asked(alloc: Global, method: &str, target: &str, body: &str) -> Result<String, AllocError> {
    let request = Request {
        method: Name::from_str(alloc, method)?,
        target: Name::from_str(alloc, target)?,
        body: Vec::from_slice(alloc, body.as_bytes())?,
    };
    let mut text = String::new(alloc);
    match call_of(alloc, "t 1", request) {
        Ok(call) => add_call(&mut text, &call)?,
        Err(BadCall::Refused(why)) => text.push_str(refused(why))?,
        Err(BadCall::Memory) => text.push_str("memory")?,
    }
    Ok(text)
}

#[test]
fn requests_ask_for_calls(rt: HostRuntime) -> Result<(), Fail> {
    for (method, target, body, want) in REQUESTS {
        let text = asked(rt.alloc(), method, target, body)?;
        assert!(rt; text.as_str() == want, "{method} {target} {body}");
    }
    Ok(())
}

/// The status and the body of each answer of `sample`.
const ANSWERS: [(u16, &str); 27] = [
    (
        200,
        "{\"commits\":[{\"id\":\"22222222-2222-4222-8222-222222222222\",\"time\":2000,\"version\":1},{\"id\":\"22222222-2222-4222-8222-222222222222\",\"time\":2001,\"version\":2}],\"count\":3,\"reported\":1}",
    ),
    (200, "{\"latest\":1,\"version\":1}"),
    (409, "{\"error\":\"lost\",\"latest\":1}"),
    (409, "{\"error\":\"ahead\",\"latest\":null}"),
    (404, "{\"error\":\"staged\"}"),
    (
        422,
        "{\"error\":\"badCommit\",\"line\":2,\"why\":\"field\"}",
    ),
    (422, "{\"error\":\"time\"}"),
    (
        422,
        "{\"error\":\"broken\",\"key\":\"a\",\"rule\":\"notLive\",\"vector\":\"u1\"}",
    ),
    (409, "{\"error\":\"full\",\"latest\":9}"),
    (429, "{\"error\":\"backlog\",\"latest\":9,\"reported\":4}"),
    (200, "{\"reported\":2}"),
    (409, "{\"error\":\"gap\",\"version\":0}"),
    (
        201,
        "{\"id\":\"22222222-2222-4222-8222-222222222222\",\"version\":1}",
    ),
    (
        200,
        "{\"id\":\"22222222-2222-4222-8222-222222222222\",\"version\":1}",
    ),
    (409, "{\"error\":\"taken\"}"),
    (201, "{\"version\":1}"),
    (200, "{\"version\":1}"),
    (409, "{\"error\":\"differs\"}"),
    (200, "bytes"),
    (404, "{\"error\":\"absent\"}"),
    (404, "{\"error\":\"target\"}"),
    (405, "{\"error\":\"method\"}"),
    (404, "{\"error\":\"table\"}"),
    (400, "{\"error\":\"body\"}"),
    (
        500,
        "{\"error\":\"fault\",\"name\":\"00000000000000000001.json\"}",
    ),
    (500, "{\"error\":\"fault\",\"name\":\"\"}"),
    (503, "{\"error\":\"memory\"}"),
];

fn entries(alloc: Global) -> Result<Entries, AllocError> {
    let mut items = Vec::new(alloc);
    for (time, version) in [(2000, 1), (2001, 2)] {
        items.push(Entry {
            id: ID,
            time,
            version,
        })?;
    }
    Ok(Entries::from_vec(items))
}

/// The answer of a row.
fn sample(alloc: Global, row: usize) -> Result<Answer, AllocError> {
    Ok(match row {
        0 => Answer::Commits {
            entries: entries(alloc)?,
            count: 3,
            reported: 1,
        },
        1 => Answer::Ratified {
            latest: 1,
            version: 1,
        },
        2 => Answer::Lost { latest: 1 },
        3 => Answer::Ahead { latest: None },
        4 => Answer::NotStaged,
        5 => Answer::BadCommit {
            line: 2,
            why: Why::Field {
                kind: Kind::Add,
                field: Name::from_str(alloc, "size")?,
            },
        },
        6 => Answer::WrongTime,
        7 => Answer::Broken {
            key: Name::from_str(alloc, "a")?,
            rule: Name::from_str(alloc, "notLive")?,
            vector: Some(Name::from_str(alloc, "u1")?),
        },
        8 => Answer::Full { latest: 9 },
        9 => Answer::Backlog {
            latest: 9,
            reported: 4,
        },
        10 => Answer::Reported { reported: 2 },
        11 => Answer::Gap { version: 0 },
        12 => Answer::Staged { id: ID, version: 1 },
        13 => Answer::StagedBefore { id: ID, version: 1 },
        14 => Answer::Taken,
        15 => Answer::Published { version: 1 },
        16 => Answer::PublishedBefore { version: 1 },
        17 => Answer::Differs,
        18 => Answer::File {
            bytes: Content::from_vec(Vec::from_slice(alloc, b"bytes")?),
        },
        19 => Answer::Absent,
        20 => Answer::Refused(Refusal::Target),
        21 => Answer::Refused(Refusal::Method),
        22 => Answer::Refused(Refusal::Table),
        23 => Answer::Refused(Refusal::Body),
        24 => Answer::Fault {
            file: Some(LogName::Published(1)),
        },
        25 => Answer::Fault { file: None },
        _ => Answer::Memory,
    })
}

/// Whether the answer of a row has this status and this body.
fn is_answered(alloc: Global, row: usize, status: u16, body: &str) -> Result<bool, AllocError> {
    let answer = sample(alloc, row)?;
    let same = answer.status() == status;
    let text = answer_body(alloc, answer)?;
    Ok(same && text.as_slice() == body.as_bytes())
}

#[test]
fn answers_have_statuses_and_bodies(rt: HostRuntime) -> Result<(), Fail> {
    for (row, (status, body)) in ANSWERS.iter().enumerate() {
        assert!(rt; is_answered(rt.alloc(), row, *status, body)?, "row {row}");
    }
    Ok(())
}
