//! Files with deletion vectors and domains of metadata: writes of such files, and loads after other callers' commits. The turns of a session are
//! from 1 to 3 those of its create; the other callers' commits stand before the turn 4.

use crate::others::{Commit, committed};
use crate::replies::{ABOVE, CREATE, CREATED, LOAD};
use crate::sessions::{LIMITS, session_beside, text};
use lake_io::End;
use std::alloc::Global;
use std::test::Fail as Stop;

/// The turn of the session after its create.
const NEXT_TURN: u64 = 4;

/// Number 1 of the application `A` adds the file `a` with a vector.
const MARKED: &str = concat!(
    "{\"op\":\"write\",\"app\":\"A\",\"number\":1,\"adds\":[{\"path\":\"a\",\"partitionValues\":{},\"size\":10,\"modificationTime\":5,\"dataChange\":true,",
    "\"deletionVector\":{\"storageType\":\"u\",\"pathOrInlineDv\":\"x1\",\"offset\":4,\"sizeInBytes\":40,\"cardinality\":6}}]}\n"
);

/// Number 1 of the application `A` adds two files of the path `a`, of which the later one stands first.
const MARKED_TWICE: &str = concat!(
    "{\"op\":\"write\",\"app\":\"A\",\"number\":1,\"adds\":[{\"path\":\"a\",\"partitionValues\":{},\"size\":10,\"modificationTime\":5,\"dataChange\":true,",
    "\"deletionVector\":{\"storageType\":\"u\",\"pathOrInlineDv\":\"x1\",\"offset\":4,\"sizeInBytes\":40,\"cardinality\":6}},",
    "{\"path\":\"a\",\"partitionValues\":{},\"size\":10,\"modificationTime\":5,\"dataChange\":true,",
    "\"deletionVector\":{\"storageType\":\"u\",\"pathOrInlineDv\":\"x1\",\"offset\":10,\"sizeInBytes\":40,\"cardinality\":6}}]}\n"
);

/// Number 1 of the application `A` adds one file twice.
const TWICE: &str = concat!(
    "{\"op\":\"write\",\"app\":\"A\",\"number\":1,\"adds\":[{\"path\":\"a\",\"partitionValues\":{},\"size\":10,\"modificationTime\":5,\"dataChange\":true,",
    "\"deletionVector\":{\"storageType\":\"u\",\"pathOrInlineDv\":\"x1\",\"offset\":4,\"sizeInBytes\":40,\"cardinality\":6}},",
    "{\"path\":\"a\",\"partitionValues\":{},\"size\":11,\"modificationTime\":6,\"dataChange\":true,",
    "\"deletionVector\":{\"storageType\":\"u\",\"pathOrInlineDv\":\"x1\",\"offset\":4,\"sizeInBytes\":41,\"cardinality\":7}}]}\n"
);

/// Version 1 tells of vectors and of domains, and adds the file `a`.
const TELLS: Commit = Commit {
    version: 1,
    time: 1001,
    text: concat!(
        "{\"commitInfo\":{\"inCommitTimestamp\":1001,\"txnId\":\"00000000-0000-0000-0000-000000000100\"}}\n",
        "{\"protocol\":{\"minReaderVersion\":3,\"minWriterVersion\":7,",
        "\"readerFeatures\":[\"catalogManaged\",\"deletionVectors\"],",
        "\"writerFeatures\":[\"catalogManaged\",\"deletionVectors\",\"domainMetadata\",\"inCommitTimestamp\"]}}\n",
        "{\"add\":{\"dataChange\":true,\"modificationTime\":5,\"partitionValues\":{},\"path\":\"a\",\"size\":10}}\n"
    ),
};

/// Version 2 removes the file `a`, and adds it with a vector.
const MARKS: Commit = Commit {
    version: 2,
    time: 1002,
    text: concat!(
        "{\"commitInfo\":{\"inCommitTimestamp\":1002,\"txnId\":\"00000000-0000-0000-0000-000000000100\"}}\n",
        "{\"remove\":{\"dataChange\":true,\"deletionTimestamp\":1002,\"path\":\"a\"}}\n",
        "{\"add\":{\"dataChange\":true,\"deletionVector\":{\"cardinality\":6,\"offset\":4,\"pathOrInlineDv\":\"x1\",\"sizeInBytes\":40,\"storageType\":\"u\"},",
        "\"modificationTime\":5,\"partitionValues\":{},\"path\":\"a\",\"size\":10,\"stats\":\"{\\\"numRecords\\\":10}\"}}\n"
    ),
};

/// Version 2 sets the domain `d`.
const SETS: Commit = Commit {
    version: 2,
    time: 1002,
    text: concat!(
        "{\"commitInfo\":{\"inCommitTimestamp\":1002,\"txnId\":\"00000000-0000-0000-0000-000000000100\"}}\n",
        "{\"domainMetadata\":{\"configuration\":\"c\",\"domain\":\"d\",\"removed\":false}}\n"
    ),
};

/// Version 3 removes the domain `d`.
const DROPS: Commit = Commit {
    version: 3,
    time: 1003,
    text: concat!(
        "{\"commitInfo\":{\"inCommitTimestamp\":1003,\"txnId\":\"00000000-0000-0000-0000-000000000100\"}}\n",
        "{\"domainMetadata\":{\"configuration\":\"c\",\"domain\":\"d\",\"removed\":true}}\n"
    ),
};

/// What stands in a Loaded reply between its latest version and the tombstones.
const TABLE: &str = concat!(
    ",\"metaData\":{\"configuration\":{\"delta.enableInCommitTimestamps\":\"true\"},\"createdTime\":1000,",
    "\"format\":{\"options\":{},\"provider\":\"parquet\"},\"id\":\"t1\",\"partitionColumns\":[],",
    "\"schemaString\":\"{\\\"type\\\":\\\"struct\\\",\\\"fields\\\":[]}\"},",
    "\"protocol\":{\"minReaderVersion\":3,\"minWriterVersion\":7,",
    "\"readerFeatures\":[\"catalogManaged\",\"deletionVectors\"],",
    "\"writerFeatures\":[\"catalogManaged\",\"deletionVectors\",\"domainMetadata\",\"inCommitTimestamp\"]}"
);

const A_MARKED: &str = concat!(
    "{\"files\":[{\"deletionVector\":{\"cardinality\":6,\"offset\":4,\"pathOrInlineDv\":\"x1\",\"sizeInBytes\":40,\"storageType\":\"u\"},",
    "\"modificationTime\":5,\"partitionValues\":{},\"path\":\"a\",\"size\":10,\"stats\":\"{\\\"numRecords\\\":10}\"}],\"latest\":2"
);

const A_REMOVED: &str =
    ",\"removed\":[{\"deletionTimestamp\":1002,\"path\":\"a\"}],\"reply\":\"loaded\",\"time\":1002,\"txns\":[],\"version\":2}\n";

/// The files of the path `a`: the one without a vector, then those with vectors by the bytes of their unique ids.
const THREE_OF_A: &str = concat!(
    "{\"files\":[{\"modificationTime\":5,\"partitionValues\":{},\"path\":\"a\",\"size\":10},",
    "{\"deletionVector\":{\"cardinality\":6,\"offset\":10,\"pathOrInlineDv\":\"x1\",\"sizeInBytes\":40,\"storageType\":\"u\"},",
    "\"modificationTime\":5,\"partitionValues\":{},\"path\":\"a\",\"size\":10},",
    "{\"deletionVector\":{\"cardinality\":6,\"offset\":4,\"pathOrInlineDv\":\"x1\",\"sizeInBytes\":40,\"storageType\":\"u\"},",
    "\"modificationTime\":5,\"partitionValues\":{},\"path\":\"a\",\"size\":10}],\"latest\":2"
);

const AFTER_THE_WRITE: &str =
    ",\"removed\":[],\"reply\":\"loaded\",\"time\":1002,\"txns\":[{\"appId\":\"A\",\"version\":1}],\"version\":2}\n";

const WITH_A_DOMAIN: &str = concat!(
    "{\"domains\":[{\"configuration\":\"c\",\"domain\":\"d\",\"removed\":false}],",
    "\"files\":[{\"modificationTime\":5,\"partitionValues\":{},\"path\":\"a\",\"size\":10}],\"latest\":2"
);

const AT_VERSION_2: &str =
    ",\"removed\":[],\"reply\":\"loaded\",\"time\":1002,\"txns\":[],\"version\":2}\n";

const WITHOUT_DOMAINS: &str =
    "{\"files\":[{\"modificationTime\":5,\"partitionValues\":{},\"path\":\"a\",\"size\":10}],\"latest\":3";

const AT_VERSION_3: &str =
    ",\"removed\":[],\"reply\":\"loaded\",\"time\":1003,\"txns\":[],\"version\":3}\n";

/// Whether a session beside these commits, which stand after its create, reads these lines and writes this.
fn tells(
    alloc: Global,
    commits: &[&Commit],
    input: &[&str],
    output: &[&str],
) -> Result<bool, Stop> {
    let mut others = Vec::new(alloc);
    for commit in commits {
        others.append(&mut committed(alloc, NEXT_TURN, commit)?)?;
    }
    let outcome = session_beside(alloc, LIMITS, others, input)?;
    let expected = text(alloc, output)?;
    Ok(outcome.end == End::Done && outcome.written.as_slice() == expected.as_slice())
}

#[test]
fn a_vector_needs_its_feature(rt: HostRuntime) -> Result<(), Stop> {
    let alloc = rt.alloc();
    let output = [
        CREATED,
        "{\"base\":0,\"key\":\"a\",\"reply\":\"broken\",\"rule\":\"vector\",\"vector\":\"ux1@4\"}\n",
        "{\"base\":0,\"key\":\"a\",\"reply\":\"broken\",\"rule\":\"vector\",\"vector\":\"ux1@10\"}\n",
        "{\"at\":4,\"field\":\"adds\",\"reply\":\"badLine\",\"why\":\"field\"}\n",
    ];
    assert!(rt;
        tells(
            alloc,
            &[],
            &[CREATE, MARKED, MARKED_TWICE, TWICE],
            output.as_slice()
        )?
    );
    Ok(())
}

#[test]
fn files_of_one_path_stand_in_order(rt: HostRuntime) -> Result<(), Stop> {
    let alloc = rt.alloc();
    let input = [CREATE, MARKED_TWICE, LOAD];
    let output = [CREATED, ABOVE, THREE_OF_A, TABLE, AFTER_THE_WRITE];
    assert!(rt; tells(alloc, &[&TELLS], input.as_slice(), output.as_slice())?);
    Ok(())
}

#[test]
fn a_file_is_removed_and_added_with_a_vector(rt: HostRuntime) -> Result<(), Stop> {
    let alloc = rt.alloc();
    let output = [CREATED, A_MARKED, TABLE, A_REMOVED];
    assert!(rt; tells(alloc, &[&TELLS, &MARKS], &[CREATE, LOAD], output.as_slice())?);
    Ok(())
}

#[test]
fn a_domain_is_set_and_removed(rt: HostRuntime) -> Result<(), Stop> {
    let alloc = rt.alloc();
    let output = [CREATED, WITH_A_DOMAIN, TABLE, AT_VERSION_2];
    assert!(rt; tells(alloc, &[&TELLS, &SETS], &[CREATE, LOAD], output.as_slice())?);
    let output = [CREATED, WITHOUT_DOMAINS, TABLE, AT_VERSION_3];
    let commits = [&TELLS, &SETS, &DROPS];
    assert!(rt;
        tells(
            alloc,
            commits.as_slice(),
            &[CREATE, LOAD],
            output.as_slice()
        )?
    );
    Ok(())
}
