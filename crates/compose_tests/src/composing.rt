//! What a write or a create composes, and why not.

ghost use Rattle.std.specs.Prelude.{◌≡◌, pos, [], ◌∷◌, IfOk, None, codes, true};
ghost use Rattle.staged_commit.specs.Composed.{IsAppend, IsCreate};

use action_types::{Add, Name, Names, Pairs, Vector};
use commit_shorts::state;
use staged_commit::{
    Adds, ComposeError, Composed, Create, Domains, Intent, Level, Reads, Removes, compose_append,
    compose_first,
};
use std::alloc::Global;
use std::str;
use std::test::Fail;

/// A deletion vector without an offset, whose unique id is `ux1`.
fn vector(alloc: Global) -> Result<Vector, Fail>
    ensures { IfOk result (λ v. v ≡ record { storage = codes "u"; locator = codes "x1"; offset = None; size = pos 40; cardinality = pos 6 }) }
{
    let storage = Name::from_str(alloc, "u")?;
    let locator = Name::from_str(alloc, "x1")?;
    Ok(Vector {
        storage,
        locator,
        offset: None,
        size: 40,
        cardinality: 6,
    })
}

/// A file of this path, with a vector or without one.
fn add(alloc: Global, path: &str, vector: Option<Vector>) -> Result<Add, Fail>
    ensures { IfOk result (λ a. a ≡ record { change = true; modified = pos 5; values = []; path = path.now; size = pos 10; stats = None; tags = None; vector = vector }) }
{
    let path = Name::from_str(alloc, path)?;
    Ok(Add {
        change: true,
        modified: 5,
        values: Pairs::new(alloc),
        path,
        size: 10,
        stats: None,
        tags: None,
        vector,
    })
}

/// An append of two files, the later one first.
#[tactic(auto, unfolding(action_fields::specs::Valid::has_valid_fields, action_types::specs::Files::file_cmp, staged_commit::specs::Adds::have_own_files))]
fn append(alloc: Global, number: i64) -> Result<Intent, Fail>
    ensures { IfOk result IsAppend }
{
    let app = Name::from_str(alloc, "A")?;
    let mut adds = Adds::new(alloc);
    adds.push(add(alloc, "b", None)?)?;
    adds.push(add(alloc, "a", None)?)?;
    Ok(Intent {
        app,
        number,
        level: Level::WriteSerializable,
        reads: Reads::None,
        adds,
        removes: Removes::new(alloc),
        domains: Domains::new(alloc),
        change: None,
    })
}

/// An append of two files of one path, the one with a vector first.
#[tactic(auto, unfolding(action_fields::specs::Valid::has_valid_fields, action_types::specs::Files::file_cmp, staged_commit::specs::Adds::have_own_files))]
fn marked_append(alloc: Global) -> Result<Intent, Fail>
    ensures { IfOk result IsAppend }
{
    let app = Name::from_str(alloc, "A")?;
    let mut adds = Adds::new(alloc);
    let vector = vector(alloc)?;
    adds.push(add(alloc, "a", Some(vector))?)?;
    adds.push(add(alloc, "a", None)?)?;
    Ok(Intent {
        app,
        number: 1,
        level: Level::WriteSerializable,
        reads: Reads::None,
        adds,
        removes: Removes::new(alloc),
        domains: Domains::new(alloc),
        change: None,
    })
}

/// A create of the table `t1`.
fn create(alloc: Global) -> Result<Create, Fail>
    ensures { IfOk result IsCreate }
{
    let id = Name::from_str(alloc, "t1")?;
    let schema = Name::from_str(alloc, "{}")?;
    Ok(Create {
        id,
        name: None,
        description: None,
        schema,
        partition: Names::new(alloc),
        configuration: Pairs::new(alloc),
        features: None,
    })
}

/// The text that was composed, or the error.
fn said(alloc: Global, composed: &Result<Composed, ComposeError>) -> Result<String, Fail> {
    match composed {
        Ok(made) => match str::from_utf8(made.bytes.as_slice()) {
            Ok(text) => Ok(String::from_str(alloc, text)?),
            Err(_) => Ok(String::new(alloc)),
        },
        Err(error) => Ok(format!(in alloc; "{error:?}")?),
    }
}

/// What an append composes under id 2 where the clock says 1000 and the table is of this form. The table's last
/// commit has this time, and the number 0 of the application A is recorded.
fn appended(
    alloc: Global,
    (time, form, number, limit): (i64, &str, i64, u64),
) -> Result<String, Fail> {
    let log = format!(in alloc; "info {time}; protocol; meta {form}; txn A 0")?;
    let state = state(alloc, log.as_str())?;
    let intent = append(alloc, number)?;
    said(
        alloc,
        &compose_append(alloc, &state, &intent, 2, 1000, limit),
    )
}

/// What the append of two files of one path composes, where the table has this feature more than it needs.
fn marked(alloc: Global, feature: &str) -> Result<String, Fail> {
    let log = format!(in alloc; "info 1000; protocol {feature}; meta; txn A 0")?;
    let state = state(alloc, log.as_str())?;
    let intent = marked_append(alloc)?;
    said(
        alloc,
        &compose_append(alloc, &state, &intent, 2, 1000, 1_000_000),
    )
}

/// What a create composes under id 1 where the clock says 1000.
fn created(alloc: Global, limit: u64) -> Result<String, Fail> {
    let create = create(alloc)?;
    said(alloc, &compose_first(alloc, &create, 1, 1000, limit))
}

const APPENDED: &str = concat!(
    "{\"commitInfo\":{\"inCommitTimestamp\":1001,\"txnId\":\"00000000-0000-0000-0000-000000000002\"}}\n",
    "{\"txn\":{\"appId\":\"A\",\"version\":1}}\n",
    "{\"add\":{\"dataChange\":true,\"modificationTime\":5,\"partitionValues\":{},\"path\":\"a\",\"size\":10}}\n",
    "{\"add\":{\"dataChange\":true,\"modificationTime\":5,\"partitionValues\":{},\"path\":\"b\",\"size\":10}}\n"
);

const NOT_AFTER: &str = "Broken(TxnNotAfter { app: \"A\", recorded: 0 })";

const PARTITION: &str = "Broken(Partition { path: \"a\", vector: None })";

const TIME_END: &str = "TimeEnd { last: 9223372036854775807 }";

/// The last time, the form of the table, the number of the write, the limit of bytes, and what is composed.
const APPENDS: [((i64, &str, i64, u64), &str); 6] = [
    ((1000, "", 1, 305), APPENDED),
    ((1000, "", 1, 304), "TooLarge { bytes: 305 }"),
    ((1000, "", 0, 0), NOT_AFTER),
    ((1000, "columns p", 1, 0), PARTITION),
    ((i64::MAX, "", 1, 0), TIME_END),
    ((i64::MAX, "columns p", 1, 0), PARTITION),
];

#[test]
fn appends(rt: HostRuntime) -> Result<(), Fail> {
    for (row, wanted) in APPENDS {
        assert_eq!(rt; appended(rt.alloc(), row)?.as_str(), wanted);
    }
    Ok(())
}

const MARKED: &str = concat!(
    "{\"commitInfo\":{\"inCommitTimestamp\":1001,\"txnId\":\"00000000-0000-0000-0000-000000000002\"}}\n",
    "{\"txn\":{\"appId\":\"A\",\"version\":1}}\n",
    "{\"add\":{\"dataChange\":true,\"modificationTime\":5,\"partitionValues\":{},\"path\":\"a\",\"size\":10}}\n",
    "{\"add\":{\"dataChange\":true,",
    "\"deletionVector\":{\"cardinality\":6,\"pathOrInlineDv\":\"x1\",\"sizeInBytes\":40,\"storageType\":\"u\"},",
    "\"modificationTime\":5,\"partitionValues\":{},\"path\":\"a\",\"size\":10}}\n"
);

const UNTOLD_VECTOR: &str = "Broken(Vector { path: \"a\", vector: Some(\"ux1\") })";

#[test]
fn appends_of_files_with_vectors(rt: HostRuntime) -> Result<(), Fail> {
    for (feature, wanted) in [("deletionVectors", MARKED), ("", UNTOLD_VECTOR)] {
        assert_eq!(rt; marked(rt.alloc(), feature)?.as_str(), wanted);
    }
    Ok(())
}

const CREATED: &str = concat!(
    "{\"commitInfo\":{\"inCommitTimestamp\":1000,\"txnId\":\"00000000-0000-0000-0000-000000000001\"}}\n",
    "{\"protocol\":{\"minReaderVersion\":3,\"minWriterVersion\":7,",
    "\"readerFeatures\":[\"catalogManaged\",\"v2Checkpoint\",\"vacuumProtocolCheck\"],",
    "\"writerFeatures\":[\"catalogManaged\",\"inCommitTimestamp\",\"v2Checkpoint\",\"vacuumProtocolCheck\"]}}\n",
    "{\"metaData\":{\"configuration\":{\"delta.enableInCommitTimestamps\":\"true\"},\"createdTime\":1000,",
    "\"format\":{\"options\":{},\"provider\":\"parquet\"},\"id\":\"t1\",\"partitionColumns\":[],\"schemaString\":\"{}\"}}\n"
);

#[test]
fn creates(rt: HostRuntime) -> Result<(), Fail> {
    for (limit, wanted) in [(501, CREATED), (500, "TooLarge { bytes: 501 }")] {
        assert_eq!(rt; created(rt.alloc(), limit)?.as_str(), wanted);
    }
    Ok(())
}
