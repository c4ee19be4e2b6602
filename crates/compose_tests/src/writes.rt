//! What any write and any create compose, to the byte, and why not.

use action_types::{Action, Add, Domain, Name, Names, Pairs, Remove};
use commit_shorts::{add, commit, names, state};
use staged_commit::{
    Adds, Change, ComposeError, Composed, Create, Domains, Intent, Level, Reads, Removes, compose,
    compose_create,
};
use std::alloc::Global;
use std::str;
use std::test::Fail;

/// A change of the metadata and of the protocol, of which nothing is named yet.
fn nothing() -> Change {
    Change {
        name: None,
        description: None,
        schema: None,
        configuration: None,
        features: None,
    }
}

/// The properties of a text: each is a name and a value, with a `,` between two.
fn properties(alloc: Global, text: &str) -> Result<Pairs, Fail> {
    let mut pairs = Pairs::new(alloc);
    for part in text.split(',') {
        if let Some((name, value)) = part.split_once('=') {
            let value = Name::from_str(alloc, value)?;
            pairs.push(Name::from_str(alloc, name)?, Some(value))?;
        }
    }
    Ok(pairs)
}

/// A change with one more member.
fn with_member(alloc: Global, change: Change, part: &str) -> Result<Change, Fail> {
    let mut change = change;
    match part.split_once(' ') {
        Some(("name", text)) => change.name = Some(Name::from_str(alloc, text)?),
        Some(("description", text)) => change.description = Some(Name::from_str(alloc, text)?),
        Some(("schema", text)) => change.schema = Some(Name::from_str(alloc, text)?),
        Some(("set", text)) => change.configuration = Some(properties(alloc, text)?),
        Some((_, text)) => change.features = Some(names(alloc, text)?),
        None => {}
    }
    Ok(change)
}

/// The change that a text names, if it names one: its members have a `;` between two.
fn change(alloc: Global, text: &str) -> Result<Option<Change>, Fail> {
    if text.is_empty() {
        return Ok(None);
    }
    let mut change = nothing();
    for part in text.split(';') {
        change = with_member(alloc, change, part)?;
    }
    Ok(Some(change))
}

/// A write of these actions and of this change, with the number 1 of the application A.
fn write(alloc: Global, contents: &str, changes: &str) -> Result<Intent, Fail> {
    let app = Name::from_str(alloc, "A")?;
    let change = change(alloc, changes)?;
    let mut intent = Intent {
        app,
        number: 1,
        level: Level::WriteSerializable,
        reads: Reads::None,
        adds: Adds::new(alloc),
        removes: Removes::new(alloc),
        domains: Domains::new(alloc),
        change,
    };
    let actions = commit(alloc, contents)?;
    for action in actions.as_slice() {
        put(&mut intent, action)?;
    }
    Ok(intent)
}

fn put(intent: &mut Intent, action: &Action) -> Result<(), Fail> {
    match action {
        Action::Add(add) => put_add(intent, add),
        Action::Remove(remove) => put_remove(intent, remove),
        Action::Domain(domain) => put_domain(intent, domain),
        _ => Ok(()),
    }
}

fn put_add(intent: &mut Intent, add: &Add) -> Result<(), Fail> {
    intent.adds.push(add.copy()?)?;
    Ok(())
}

fn put_remove(intent: &mut Intent, remove: &Remove) -> Result<(), Fail> {
    intent.removes.push(remove.copy()?)?;
    Ok(())
}

fn put_domain(intent: &mut Intent, domain: &Domain) -> Result<(), Fail> {
    intent.domains.push(domain.copy()?)?;
    Ok(())
}

/// The text that was composed, or the error.
fn said(alloc: Global, composed: &Result<Composed, ComposeError>) -> Result<String, Fail> {
    match composed {
        Ok(made) => match str::from_utf8(made.bytes.as_slice()) {
            Ok(text) => Ok(String::from_str(alloc, text)?),
            Err(_) => Ok(String::new(alloc)),
        },
        Err(error) => Ok(format!(in alloc; "{error:?}")?),
    }
}

/// What a write to a table of this log composes under id 2 where the clock says 1000.
fn composed(
    alloc: Global,
    (log, contents, changes, limit): (&str, &str, &str, u64),
) -> Result<String, Fail> {
    let state = state(alloc, log)?;
    let intent = write(alloc, contents, changes)?;
    said(alloc, &compose(alloc, &state, &intent, 2, 1000, limit))
}

const NAMED: &str = concat!(
    "{\"commitInfo\":{\"inCommitTimestamp\":1001,\"txnId\":\"00000000-0000-0000-0000-000000000002\"}}\n",
    "{\"metaData\":{\"configuration\":{\"delta.enableInCommitTimestamps\":\"true\"},\"format\":{\"options\":{},\"provider\":\"parquet\"},\"id\":\"t1\",\"name\":\"n\",\"partitionColumns\":[],\"schemaString\":\"{\\\"type\\\":\\\"struct\\\",\\\"fields\\\":[]}\"}}\n",
    "{\"txn\":{\"appId\":\"A\",\"version\":1}}\n"
);

const UNCHANGED: &str = concat!(
    "{\"commitInfo\":{\"inCommitTimestamp\":1001,\"txnId\":\"00000000-0000-0000-0000-000000000002\"}}\n",
    "{\"metaData\":{\"configuration\":{\"delta.enableInCommitTimestamps\":\"true\"},\"format\":{\"options\":{},\"provider\":\"parquet\"},\"id\":\"t1\",\"partitionColumns\":[],\"schemaString\":\"{\\\"type\\\":\\\"struct\\\",\\\"fields\\\":[]}\"}}\n",
    "{\"txn\":{\"appId\":\"A\",\"version\":1}}\n"
);

const REPLACED: &str = concat!(
    "{\"commitInfo\":{\"inCommitTimestamp\":1001,\"txnId\":\"00000000-0000-0000-0000-000000000002\"}}\n",
    "{\"metaData\":{\"configuration\":{\"delta.appendOnly\":\"false\",\"delta.enableInCommitTimestamps\":\"true\",\"zone\":\"x\"},\"format\":{\"options\":{},\"provider\":\"parquet\"},\"id\":\"t1\",\"partitionColumns\":[],\"schemaString\":\"{\\\"type\\\":\\\"struct\\\",\\\"fields\\\":[]}\"}}\n",
    "{\"txn\":{\"appId\":\"A\",\"version\":1}}\n"
);

const OTHER_FEATURES: &str = concat!(
    "{\"commitInfo\":{\"inCommitTimestamp\":1001,\"txnId\":\"00000000-0000-0000-0000-000000000002\"}}\n",
    "{\"protocol\":{\"minReaderVersion\":3,\"minWriterVersion\":7,\"readerFeatures\":[\"catalogManaged\",\"deletionVectors\"],\"writerFeatures\":[\"appendOnly\",\"catalogManaged\",\"deletionVectors\",\"inCommitTimestamp\"]}}\n",
    "{\"txn\":{\"appId\":\"A\",\"version\":1}}\n"
);

const CONTENTS: &str = concat!(
    "{\"commitInfo\":{\"inCommitTimestamp\":1001,\"txnId\":\"00000000-0000-0000-0000-000000000002\"}}\n",
    "{\"txn\":{\"appId\":\"A\",\"version\":1}}\n",
    "{\"domainMetadata\":{\"configuration\":\"c\",\"domain\":\"x\",\"removed\":true}}\n",
    "{\"domainMetadata\":{\"configuration\":\"c\",\"domain\":\"y\",\"removed\":false}}\n",
    "{\"remove\":{\"dataChange\":true,\"deletionTimestamp\":1001,\"path\":\"a\"}}\n",
    "{\"remove\":{\"dataChange\":true,\"deletionTimestamp\":7,\"path\":\"b\"}}\n",
    "{\"add\":{\"dataChange\":true,\"modificationTime\":5,\"partitionValues\":{},\"path\":\"d\",\"size\":10}}\n",
    "{\"add\":{\"dataChange\":true,\"modificationTime\":5,\"partitionValues\":{},\"path\":\"e\",\"size\":10}}\n"
);

const VECTORS: &str = concat!(
    "{\"commitInfo\":{\"inCommitTimestamp\":1001,\"txnId\":\"00000000-0000-0000-0000-000000000002\"}}\n",
    "{\"txn\":{\"appId\":\"A\",\"version\":1}}\n",
    "{\"add\":{\"dataChange\":true,\"modificationTime\":5,\"partitionValues\":{},\"path\":\"a\",\"size\":10}}\n",
    "{\"add\":{\"dataChange\":true,\"modificationTime\":5,\"partitionValues\":{},\"path\":\"b\",\"size\":10}}\n",
    "{\"add\":{\"dataChange\":true,\"deletionVector\":{\"cardinality\":6,\"offset\":4,\"pathOrInlineDv\":\"x1\",\"sizeInBytes\":40,\"storageType\":\"u\"},\"modificationTime\":5,\"partitionValues\":{},\"path\":\"b\",\"size\":10}}\n"
);

const LATE: &str = concat!(
    "{\"commitInfo\":{\"inCommitTimestamp\":1001,\"txnId\":\"00000000-0000-0000-0000-000000000002\"}}\n",
    "{\"txn\":{\"appId\":\"A\",\"version\":1}}\n"
);

const PROPERTY: &str = "Broken(Property { name: \"delta.enableInCommitTimestamps\" })";

const FILES: &str = "info 1000; protocol domainMetadata; meta; add a; add b; add c";

/// The log of the table, the contents and the change of the write, the limit of bytes, and what is composed.
const WRITES: [((&str, &str, &str, u64), &str); 18] = [
    (("info 1000; protocol; meta", "", "name n", 337), NAMED),
    (
        ("info 1000; protocol; meta", "", "name n", 336),
        "TooLarge { bytes: 337 }",
    ),
    (("info 1000; protocol; meta", "", "set ", 1_000), UNCHANGED),
    (
        (
            "info 1000; protocol; meta appendOnly",
            "",
            "set delta.appendOnly=false,zone=x",
            1_000,
        ),
        REPLACED,
    ),
    (
        (
            "info 1000; protocol; meta",
            "",
            "set delta.enableInCommitTimestamps=false",
            0,
        ),
        PROPERTY,
    ),
    (
        (
            "info 1000; protocol; meta",
            "",
            "schema delta.invariants",
            0,
        ),
        "Broken(Invariants)",
    ),
    (
        (
            "info 1000; protocol domainMetadata; meta",
            "",
            "features deletionVectors appendOnly deletionVectors",
            1_000,
        ),
        OTHER_FEATURES,
    ),
    (
        ("info 1000; protocol; meta", "", "features columnMapping", 0),
        "Broken(Feature { name: \"columnMapping\" })",
    ),
    (
        (
            FILES,
            "add e; remove b 7; add d; remove a; domain y c; undomain x c",
            "",
            575,
        ),
        CONTENTS,
    ),
    (
        (FILES, "domain d c", "features appendOnly", 0),
        "Broken(Domain { domain: \"d\" })",
    ),
    (
        (FILES, "remove z; remove y", "", 0),
        "Broken(NotLive { path: \"y\", vector: None })",
    ),
    (
        (
            "info 1000; protocol appendOnly; meta appendOnly; add a",
            "remove a",
            "",
            0,
        ),
        "Broken(AppendOnly { path: \"a\", vector: None })",
    ),
    (
        ("info 1000; protocol; meta columns p", "add a", "", 0),
        "Broken(Partition { path: \"a\", vector: None })",
    ),
    (
        (FILES, "add d#x1@4", "", 0),
        "Broken(Vector { path: \"d\", vector: Some(\"ux1@4\") })",
    ),
    (
        (
            "info 1000; protocol deletionVectors; meta",
            "add b#x1@4; add b; add a",
            "",
            1_000,
        ),
        VECTORS,
    ),
    (("info 1000; protocol; meta; txn A 5", "", "", 1_000), LATE),
    (
        ("info 9223372036854775807; protocol; meta", "", "name n", 0),
        "TimeEnd { last: 9223372036854775807 }",
    ),
    (
        (
            "info 9223372036854775807; protocol; meta",
            "remove z",
            "name n",
            0,
        ),
        "Broken(NotLive { path: \"z\", vector: None })",
    ),
];

#[test]
fn writes(rt: HostRuntime) -> Result<(), Fail> {
    for (row, wanted) in WRITES {
        assert_eq!(rt; composed(rt.alloc(), row)?.as_str(), wanted);
    }
    Ok(())
}

/// What the add of a file with so many letters of stats composes, where a text may have 1,024 bytes.
fn add_of(alloc: Global, letters: usize) -> Result<String, Fail> {
    let mut stats = String::new(alloc);
    for _ in 0..letters {
        stats.push('x')?;
    }
    let mut file = add(alloc, "a", 10)?;
    file.stats = Some(Name::from_string(stats));
    let state = state(alloc, "info 1000; protocol; meta")?;
    let mut intent = write(alloc, "", "")?;
    intent.adds.push(file)?;
    said(alloc, &compose(alloc, &state, &intent, 2, 1000, 1024))
}

#[test]
fn commit_too_large(rt: HostRuntime) -> Result<(), Fail> {
    let alloc = rt.alloc();
    assert_eq!(rt; add_of(alloc, 800)?.as_str(), "TooLarge { bytes: 1025 }");
    assert_eq!(rt; add_of(alloc, 799)?.len(), 1024);
    Ok(())
}

const WHOLE_CREATE: &str = concat!(
    "{\"commitInfo\":{\"inCommitTimestamp\":1000,\"txnId\":\"00000000-0000-0000-0000-000000000001\"}}\n",
    "{\"protocol\":{\"minReaderVersion\":3,\"minWriterVersion\":7,\"readerFeatures\":[\"catalogManaged\",\"v2Checkpoint\"],\"writerFeatures\":[\"appendOnly\",\"catalogManaged\",\"inCommitTimestamp\",\"v2Checkpoint\"]}}\n",
    "{\"metaData\":{\"configuration\":{\"a\":\"x\",\"delta.enableInCommitTimestamps\":\"true\",\"delta.z\":\"y\"},\"createdTime\":1000,\"description\":\"d\",\"format\":{\"options\":{},\"provider\":\"parquet\"},\"id\":\"t1\",\"name\":\"n\",\"partitionColumns\":[\"p\",\"o\"],\"schemaString\":\"{}\"}}\n"
);

/// A create of the table `t1` with these properties and features.
fn create(alloc: Global, set: &str, features: &str) -> Result<Create, Fail> {
    let id = Name::from_str(alloc, "t1")?;
    let name = Name::from_str(alloc, "n")?;
    let description = Name::from_str(alloc, "d")?;
    let schema = Name::from_str(alloc, "{}")?;
    let partition: Names = names(alloc, "p o")?;
    let configuration = properties(alloc, set)?;
    let features = names(alloc, features)?;
    Ok(Create {
        id,
        name: Some(name),
        description: Some(description),
        schema,
        partition,
        configuration,
        features: Some(features),
    })
}

/// What a create composes under id 1 where the clock says 1000.
fn created(alloc: Global, (set, features, limit): (&str, &str, u64)) -> Result<String, Fail> {
    let create = create(alloc, set, features)?;
    said(alloc, &compose_create(alloc, &create, 1, 1000, limit))
}

/// The properties and the features of a create, the limit of bytes, and what is composed.
const CREATES: [((&str, &str, u64), &str); 4] = [
    (
        ("a=x,delta.z=y", "v2Checkpoint appendOnly v2Checkpoint", 528),
        WHOLE_CREATE,
    ),
    (
        ("a=x,delta.z=y", "v2Checkpoint appendOnly", 527),
        "TooLarge { bytes: 528 }",
    ),
    (("delta.enableInCommitTimestamps=false", "", 0), PROPERTY),
    (
        ("", "columnMapping", 0),
        "Broken(Feature { name: \"columnMapping\" })",
    ),
];

#[test]
fn creates(rt: HostRuntime) -> Result<(), Fail> {
    for (row, wanted) in CREATES {
        assert_eq!(rt; created(rt.alloc(), row)?.as_str(), wanted);
    }
    Ok(())
}
