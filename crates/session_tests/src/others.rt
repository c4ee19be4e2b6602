//! The turns of other callers.

use std::alloc::{AllocError, Global};
use table_meddler::{Foreign, Turn};

/// The id under which another caller stages its commit. The ids of the session are 1 and those that follow it.
const ID: u128 = 0x100;

/// A commit of another caller.
#[derive(Clone, Copy)]
pub struct Commit {
    pub version: u64,
    pub time: i64,
    pub text: &'static str,
}

/// Version 1 adds the file `m`.
pub const ADDS: Commit = Commit {
    version: 1,
    time: 1001,
    text: concat!(
        "{\"commitInfo\":{\"inCommitTimestamp\":1001,\"txnId\":\"00000000-0000-0000-0000-000000000100\"}}\n",
        "{\"add\":{\"dataChange\":true,\"modificationTime\":6,\"partitionValues\":{},\"path\":\"m\",\"size\":20}}\n"
    ),
};

/// Version 2 adds the file `m`.
pub const ADDS_LATER: Commit = Commit {
    version: 2,
    time: 1002,
    text: concat!(
        "{\"commitInfo\":{\"inCommitTimestamp\":1002,\"txnId\":\"00000000-0000-0000-0000-000000000100\"}}\n",
        "{\"add\":{\"dataChange\":true,\"modificationTime\":6,\"partitionValues\":{},\"path\":\"m\",\"size\":20}}\n"
    ),
};

/// Version 1 records number 0 of the application `A` and adds the file `m`.
pub const RECORDS_BELOW: Commit = Commit {
    version: 1,
    time: 1001,
    text: concat!(
        "{\"commitInfo\":{\"inCommitTimestamp\":1001,\"txnId\":\"00000000-0000-0000-0000-000000000100\"}}\n",
        "{\"txn\":{\"appId\":\"A\",\"version\":0}}\n",
        "{\"add\":{\"dataChange\":true,\"modificationTime\":6,\"partitionValues\":{},\"path\":\"m\",\"size\":20}}\n"
    ),
};

/// Version 1 records number 1 of the application `A` and adds the file `m`.
pub const RECORDS_SAME: Commit = Commit {
    version: 1,
    time: 1001,
    text: concat!(
        "{\"commitInfo\":{\"inCommitTimestamp\":1001,\"txnId\":\"00000000-0000-0000-0000-000000000100\"}}\n",
        "{\"txn\":{\"appId\":\"A\",\"version\":1}}\n",
        "{\"add\":{\"dataChange\":true,\"modificationTime\":6,\"partitionValues\":{},\"path\":\"m\",\"size\":20}}\n"
    ),
};

/// Version 1 records number 2 of the application `A` and changes the metadata.
pub const RECORDS_ABOVE: Commit = Commit {
    version: 1,
    time: 1001,
    text: concat!(
        "{\"commitInfo\":{\"inCommitTimestamp\":1001,\"txnId\":\"00000000-0000-0000-0000-000000000100\"}}\n",
        "{\"metaData\":{\"configuration\":{\"delta.enableInCommitTimestamps\":\"true\"},\"createdTime\":1000,",
        "\"format\":{\"options\":{},\"provider\":\"parquet\"},\"id\":\"t1\",\"name\":\"n\",\"partitionColumns\":[],",
        "\"schemaString\":\"{\\\"type\\\":\\\"struct\\\",\\\"fields\\\":[]}\"}}\n",
        "{\"txn\":{\"appId\":\"A\",\"version\":2}}\n"
    ),
};

/// Version 1 changes the metadata.
pub const ALTERS: Commit = Commit {
    version: 1,
    time: 1001,
    text: concat!(
        "{\"commitInfo\":{\"inCommitTimestamp\":1001,\"txnId\":\"00000000-0000-0000-0000-000000000100\"}}\n",
        "{\"metaData\":{\"configuration\":{\"delta.enableInCommitTimestamps\":\"true\"},\"createdTime\":1000,",
        "\"format\":{\"options\":{},\"provider\":\"parquet\"},\"id\":\"t1\",\"name\":\"n\",\"partitionColumns\":[],",
        "\"schemaString\":\"{\\\"type\\\":\\\"struct\\\",\\\"fields\\\":[]}\"}}\n"
    ),
};

/// Version 2 changes the metadata.
pub const ALTERS_LATER: Commit = Commit {
    version: 2,
    time: 1002,
    text: concat!(
        "{\"commitInfo\":{\"inCommitTimestamp\":1002,\"txnId\":\"00000000-0000-0000-0000-000000000100\"}}\n",
        "{\"metaData\":{\"configuration\":{\"delta.enableInCommitTimestamps\":\"true\"},\"createdTime\":1000,",
        "\"format\":{\"options\":{},\"provider\":\"parquet\"},\"id\":\"t1\",\"partitionColumns\":[],",
        "\"schemaString\":\"{\\\"type\\\":\\\"struct\\\",\\\"fields\\\":[]}\"}}\n"
    ),
};

/// Version 3 records number 0 of the application `A`.
pub const RECORDS_LATER: Commit = Commit {
    version: 3,
    time: 1003,
    text: concat!(
        "{\"commitInfo\":{\"inCommitTimestamp\":1003,\"txnId\":\"00000000-0000-0000-0000-000000000100\"}}\n",
        "{\"txn\":{\"appId\":\"A\",\"version\":0}}\n"
    ),
};

/// The commit of version 0 that the session makes, under the id 1.
pub const FIRST: &str = concat!(
    "{\"commitInfo\":{\"inCommitTimestamp\":1000,\"txnId\":\"00000000-0000-0000-0000-000000000001\"}}\n",
    "{\"protocol\":{\"minReaderVersion\":3,\"minWriterVersion\":7,",
    "\"readerFeatures\":[\"catalogManaged\",\"v2Checkpoint\",\"vacuumProtocolCheck\"],",
    "\"writerFeatures\":[\"catalogManaged\",\"inCommitTimestamp\",\"v2Checkpoint\",\"vacuumProtocolCheck\"]}}\n",
    "{\"metaData\":{\"configuration\":{\"delta.enableInCommitTimestamps\":\"true\"},\"createdTime\":1000,",
    "\"format\":{\"options\":{},\"provider\":\"parquet\"},\"id\":\"t1\",\"partitionColumns\":[],",
    "\"schemaString\":\"{\\\"type\\\":\\\"struct\\\",\\\"fields\\\":[]}\"}}\n"
);

/// The commit of version 1 that the session makes, under the id 2.
pub const SECOND: &str = concat!(
    "{\"commitInfo\":{\"inCommitTimestamp\":1001,\"txnId\":\"00000000-0000-0000-0000-000000000002\"}}\n",
    "{\"txn\":{\"appId\":\"A\",\"version\":1}}\n",
    "{\"add\":{\"dataChange\":true,\"modificationTime\":5,\"partitionValues\":{},\"path\":\"a\",\"size\":10}}\n"
);

/// Another caller stages and ratifies its commit before this turn of the session.
pub fn committed(alloc: Global, before: u64, commit: &Commit) -> Result<Vec<Foreign>, AllocError> {
    let stage = Turn::Stage {
        version: commit.version,
        id: ID,
        bytes: Vec::from_slice(alloc, commit.text.as_bytes())?,
    };
    let ratify = Turn::Ratify {
        version: commit.version,
        id: ID,
        time: commit.time,
    };
    let mut turns = Vec::new(alloc);
    turns.push(Foreign {
        before,
        turn: stage,
    })?;
    turns.push(Foreign {
        before,
        turn: ratify,
    })?;
    Ok(turns)
}

/// Another caller publishes these commits before this turn of the session, reports them, and clears their staged files,
/// which stand under the ids after their versions.
pub fn published(alloc: Global, before: u64, texts: &[&str]) -> Result<Vec<Foreign>, AllocError> {
    let count = texts.len() as u64;
    let mut turns = Vec::new(alloc);
    for (version, text) in texts.iter().enumerate() {
        turns.push(Foreign {
            before,
            turn: publish(alloc, version as u64, text)?,
        })?;
    }
    turns.push(Foreign {
        before,
        turn: Turn::Report { count },
    })?;
    for version in 0..count {
        turns.push(Foreign {
            before,
            turn: clear(version),
        })?;
    }
    Ok(turns)
}

fn publish(alloc: Global, version: u64, text: &str) -> Result<Turn, AllocError> {
    let bytes = Vec::from_slice(alloc, text.as_bytes())?;
    Ok(Turn::Publish { version, bytes })
}

fn clear(version: u64) -> Turn {
    Turn::Clear {
        version,
        id: version as u128 + 1,
    }
}
