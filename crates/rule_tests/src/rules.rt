//! What a commit breaks first of the rules of a next commit.

use action_types::{Action, Info};
use commit_shorts::{commit, meta, protocol, state};
use std::alloc::Global;
use std::test::Fail;
use table_rules::{Broken, check_create, check_next};

const BASE: &str = "info 1000; protocol; meta; add a; add b; txn A 2; txn B 7";

/// What a check says, in a line.
fn said(alloc: Global, checked: &Result<(), Broken>) -> Result<String, Fail> {
    match checked {
        Ok(()) => Ok(String::new(alloc)),
        Err(broken) => Ok(format!(in alloc; "{broken:?}")?),
    }
}

/// What a first commit breaks.
fn first_broken(alloc: Global, text: &str) -> Result<String, Fail> {
    let commit = commit(alloc, text)?;
    said(alloc, &check_create(alloc, commit.as_slice()))
}

/// What a next commit breaks.
fn next_broken(alloc: Global, log: &str, text: &str) -> Result<String, Fail> {
    let state = state(alloc, log)?;
    let commit = commit(alloc, text)?;
    said(alloc, &check_next(alloc, &state, commit.as_slice()))
}

/// A first commit and what is said of it.
const FIRST_COMMITS: [(&str, &str); 13] = [
    ("info 5; protocol; meta", ""),
    ("info 5; protocol; meta columns p; add a p", ""),
    ("", "NoInfo"),
    ("protocol; info 5; meta", "NoInfo"),
    ("info 5; meta", "NoMeta"),
    ("info 5; protocol", "NoMeta"),
    (
        "info 5; protocol columnMapping; meta",
        "Feature { name: \"columnMapping\" }",
    ),
    (
        "info 5; protocol rowTracking; meta off",
        "Feature { name: \"rowTracking\" }",
    ),
    ("info 5; protocol; meta invariants", "Invariants"),
    (
        "info 5; protocol; meta; remove a",
        "NotLive { path: \"a\", vector: None }",
    ),
    ("info 5; protocol deletionVectors; meta; add a#x1@4", ""),
    (
        "info 5; protocol; meta; add a#x1@4",
        "Vector { path: \"a\", vector: Some(\"ux1@4\") }",
    ),
    ("info 5; protocol domainMetadata; meta; domain d", ""),
];

#[test]
fn first_commits(rt: HostRuntime) -> Result<(), Fail> {
    for (text, wanted) in FIRST_COMMITS {
        assert_eq!(rt; first_broken(rt.alloc(), text)?.as_str(), wanted, "{text}");
    }
    Ok(())
}

const APPEND_ONLY: &str = "info 1000; protocol appendOnly; meta appendOnly; add a; add b";

const COLUMNS: &str = "info 1000; protocol; meta columns p";

/// Commits, a next one, and what is said of it.
const NEXT_COMMITS: [(&str, &str, &str); 20] = [
    (BASE, "info 1001; txn A 3; remove a; add c", ""),
    (BASE, "info 1000; txn A 3", "TimeNotAfter { last: 1000 }"),
    (
        BASE,
        "info 999; txn A 1; remove c",
        "TimeNotAfter { last: 1000 }",
    ),
    (
        BASE,
        "info 1001; protocol rowTracking",
        "Feature { name: \"rowTracking\" }",
    ),
    (
        BASE,
        "info 1001; meta off",
        "Property { name: \"delta.enableInCommitTimestamps\" }",
    ),
    (BASE, "info 1001; meta invariants", "Invariants"),
    (BASE, "info 1001; meta columns p", "Columns"),
    (
        BASE,
        "info 1001; txn A 2",
        "TxnNotAfter { app: \"A\", recorded: 2 }",
    ),
    (
        BASE,
        "info 1001; txn B 7; txn A 1; remove c",
        "TxnNotAfter { app: \"A\", recorded: 2 }",
    ),
    (
        BASE,
        "info 1001; remove d; remove c",
        "NotLive { path: \"c\", vector: None }",
    ),
    (
        "info 1; protocol; meta; add a/info 2; remove a",
        "info 3; remove a",
        "NotLive { path: \"a\", vector: None }",
    ),
    (
        APPEND_ONLY,
        "info 1001; remove b; remove a",
        "AppendOnly { path: \"a\", vector: None }",
    ),
    (APPEND_ONLY, "info 1001; keep a", ""),
    (
        "info 1; protocol appendOnly; meta; add a",
        "info 2; remove a",
        "",
    ),
    (
        "info 1; protocol; meta appendOnly; add a",
        "info 2; remove a",
        "",
    ),
    (
        "info 1; protocol; meta appendOnly; add a",
        "info 2; protocol appendOnly; remove a",
        "AppendOnly { path: \"a\", vector: None }",
    ),
    (COLUMNS, "info 1001; add a p", ""),
    (
        COLUMNS,
        "info 1001; add b; add a q",
        "Partition { path: \"a\", vector: None }",
    ),
    (
        BASE,
        "info 1001; add c p",
        "Partition { path: \"c\", vector: None }",
    ),
    (
        COLUMNS,
        "info 1001; add b#x1@4",
        "Partition { path: \"b\", vector: Some(\"ux1@4\") }",
    ),
];

#[test]
fn next_commits(rt: HostRuntime) -> Result<(), Fail> {
    for (log, text, wanted) in NEXT_COMMITS {
        let broken = next_broken(rt.alloc(), log, text)?;
        assert_eq!(rt; broken.as_str(), wanted, "{log} then {text}");
    }
    Ok(())
}

const VECTORS: &str = "info 1000; protocol deletionVectors; meta; add a; add b#x1@4";

/// Commits, a next one with files that have deletion vectors, and what is said of it.
const NEXT_VECTORS: [(&str, &str, &str); 14] = [
    (VECTORS, "info 1001; remove a; add a#x1@4", ""),
    (VECTORS, "info 1001; remove b#x1@4; add b#x1@5; add b", ""),
    (
        VECTORS,
        "info 1001; remove a#x1@4",
        "NotLive { path: \"a\", vector: Some(\"ux1@4\") }",
    ),
    (
        VECTORS,
        "info 1001; remove b",
        "NotLive { path: \"b\", vector: None }",
    ),
    (
        VECTORS,
        "info 1001; remove b#x1@5; remove b#x1; remove b",
        "NotLive { path: \"b\", vector: None }",
    ),
    (
        VECTORS,
        "info 1001; remove b#x1@5; remove b#x1",
        "NotLive { path: \"b\", vector: Some(\"ux1\") }",
    ),
    (
        VECTORS,
        "info 1001; remove b#x1@5; remove b#x1@10",
        "NotLive { path: \"b\", vector: Some(\"ux1@10\") }",
    ),
    (
        VECTORS,
        "info 1001; remove b; remove a#x1@9",
        "NotLive { path: \"a\", vector: Some(\"ux1@9\") }",
    ),
    (
        "info 1; protocol; meta; add a#x1@4/info 2; remove a#x1@4",
        "info 3; remove a#x1@4",
        "NotLive { path: \"a\", vector: Some(\"ux1@4\") }",
    ),
    (
        "info 1; protocol appendOnly; meta appendOnly; add a#x1@4",
        "info 2; remove a#x1@4",
        "AppendOnly { path: \"a\", vector: Some(\"ux1@4\") }",
    ),
    (
        BASE,
        "info 1001; add d; add c#x1@5; add c#x1",
        "Vector { path: \"c\", vector: Some(\"ux1\") }",
    ),
    (BASE, "info 1001; protocol deletionVectors; add c#x1@4", ""),
    (
        VECTORS,
        "info 1001; protocol; add c#x1@4",
        "Vector { path: \"c\", vector: Some(\"ux1@4\") }",
    ),
    (
        BASE,
        "info 1001; domain d; add c#x1@4",
        "Vector { path: \"c\", vector: Some(\"ux1@4\") }",
    ),
];

#[test]
fn next_commits_with_vectors(rt: HostRuntime) -> Result<(), Fail> {
    for (log, text, wanted) in NEXT_VECTORS {
        let broken = next_broken(rt.alloc(), log, text)?;
        assert_eq!(rt; broken.as_str(), wanted, "{log} then {text}");
    }
    Ok(())
}

const DOMAINS: &str = "info 1000; protocol domainMetadata; meta; domain d";

/// Commits, a next one with metadata of domains, and what is said of it.
const NEXT_DOMAINS: [(&str, &str, &str); 6] = [
    (DOMAINS, "info 1001; undomain d; domain e", ""),
    (BASE, "info 1001; protocol domainMetadata; domain d", ""),
    (BASE, "info 1001; domain d", "Domain { domain: \"d\" }"),
    (
        BASE,
        "info 1001; domain e; undomain d",
        "Domain { domain: \"d\" }",
    ),
    (
        DOMAINS,
        "info 1001; protocol; domain d",
        "Domain { domain: \"d\" }",
    ),
    (
        BASE,
        "info 1001; add c p; domain d",
        "Partition { path: \"c\", vector: None }",
    ),
];

#[test]
fn next_commits_with_domains(rt: HostRuntime) -> Result<(), Fail> {
    for (log, text, wanted) in NEXT_DOMAINS {
        let broken = next_broken(rt.alloc(), log, text)?;
        assert_eq!(rt; broken.as_str(), wanted, "{log} then {text}");
    }
    Ok(())
}

const BOTH: &str = "catalogManaged deletionVectors v2Checkpoint vacuumProtocolCheck";

const ALL: &str = concat!(
    "catalogManaged deletionVectors v2Checkpoint vacuumProtocolCheck ",
    "inCommitTimestamp appendOnly invariants domainMetadata"
);

const ONE: &str = "catalogManaged";

const TWO: &str = "catalogManaged inCommitTimestamp";

const MAPPED: &str = "columnMapping";

const TIMESTAMP: &str = "inCommitTimestamp";

const DOMAIN: &str = "domainMetadata";

/// The versions of a protocol, its features, and the faulty one.
const PROTOCOLS: [(i64, i64, &str, &str, &str); 16] = [
    (3, 7, BOTH, ALL, ""),
    (3, 7, ONE, TWO, ""),
    (2, 7, ONE, TWO, "minReaderVersion"),
    (3, 8, ONE, TWO, "minWriterVersion"),
    (3, 7, MAPPED, MAPPED, "columnMapping"),
    (3, 7, TWO, TWO, "inCommitTimestamp"),
    (3, 7, DOMAIN, DOMAIN, "domainMetadata"),
    (3, 7, BOTH, TWO, "deletionVectors"),
    (3, 7, "v2Checkpoint catalogManaged", TWO, "v2Checkpoint"),
    (
        3,
        7,
        "vacuumProtocolCheck catalogManaged",
        TWO,
        "vacuumProtocolCheck",
    ),
    (3, 7, ONE, BOTH, "deletionVectors"),
    (3, 7, ONE, "catalogManaged v2Checkpoint", "v2Checkpoint"),
    (3, 7, ONE, "catalogManaged rowTracking", "rowTracking"),
    (3, 7, ONE, TIMESTAMP, "catalogManaged"),
    (3, 7, "", TIMESTAMP, "catalogManaged"),
    (3, 7, ONE, ONE, "inCommitTimestamp"),
];

/// What a first commit with a protocol of these versions and features breaks.
fn protocol_broken(
    alloc: Global,
    versions: (i64, i64),
    readers: &str,
    writers: &str,
) -> Result<String, Fail> {
    let protocol = protocol(alloc, versions, readers, writers)?;
    let meta = meta(alloc, "", "")?;
    let info = Info {
        time: 5,
        txn_id: None,
    };
    let commit = vec![in alloc;
        Action::Info(info),
        Action::Protocol(protocol),
        Action::Meta(meta),
    ]?;
    match check_create(alloc, commit.as_slice()) {
        Err(Broken::Feature { name }) => Ok(String::from_str(alloc, name.as_str())?),
        checked => said(alloc, &checked),
    }
}

#[test]
fn features(rt: HostRuntime) -> Result<(), Fail> {
    for (reader, writer, readers, writers, wanted) in PROTOCOLS {
        let faulty = protocol_broken(rt.alloc(), (reader, writer), readers, writers)?;
        assert_eq!(rt; faulty.as_str(), wanted);
    }
    Ok(())
}
