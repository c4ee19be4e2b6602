//! The lines of the sessions and the replies that are expected.

pub const CREATE: &str =
    "{\"op\":\"create\",\"id\":\"t1\",\"schema\":\"{\\\"type\\\":\\\"struct\\\",\\\"fields\\\":[]}\"}\n";

/// Number 1 of the application `A` adds the file `a`.
pub const WRITE: &str =
    "{\"op\":\"write\",\"app\":\"A\",\"number\":1,\"adds\":[{\"path\":\"a\",\"partitionValues\":{},\"size\":10,\"modificationTime\":5,\"dataChange\":true}]}\n";

pub const LOAD: &str = "{\"op\":\"load\"}\n";

pub const CREATED: &str = "{\"base\":null,\"reply\":\"committed\",\"time\":1000,\"version\":0}\n";

/// The write is version 1.
pub const NEXT: &str = "{\"base\":0,\"reply\":\"committed\",\"time\":1001,\"version\":1}\n";

/// The write is version 2, judged against version 1.
pub const ABOVE: &str = "{\"base\":1,\"reply\":\"committed\",\"time\":1002,\"version\":2}\n";

/// The write lost the race for version 1, and is version 2.
pub const BEHIND: &str = "{\"base\":0,\"reply\":\"committed\",\"time\":1002,\"version\":2}\n";

pub const OF_ITS_APPLICATION: &str =
    "{\"base\":0,\"key\":\"A\",\"latest\":1,\"reply\":\"conflict\",\"rule\":\"transaction\",\"winner\":1}\n";

pub const OF_THE_METADATA: &str =
    "{\"base\":0,\"key\":\"\",\"latest\":1,\"reply\":\"conflict\",\"rule\":\"metadata\",\"winner\":1}\n";

/// Of versions 1 to 3 the second is the first that conflicts.
pub const OF_THE_SECOND: &str =
    "{\"base\":0,\"key\":\"\",\"latest\":3,\"reply\":\"conflict\",\"rule\":\"metadata\",\"winner\":2}\n";

/// Number 1 is recorded at version 1.
pub const SAME_NUMBER: &str = "{\"latest\":1,\"recorded\":1,\"reply\":\"already\"}\n";

/// Number 2 is recorded at version 1.
pub const NUMBER_ABOVE: &str = "{\"latest\":1,\"recorded\":2,\"reply\":\"already\"}\n";

pub const CONTENDED: &str = "{\"attempts\":1,\"latest\":1,\"reply\":\"contended\"}\n";

pub const FULL: &str = "{\"latest\":1,\"reply\":\"full\"}\n";

/// What stands in a Loaded reply between its front and its end.
pub const BODY: &str = concat!(
    ",\"metaData\":{\"configuration\":{\"delta.enableInCommitTimestamps\":\"true\"},\"createdTime\":1000,",
    "\"format\":{\"options\":{},\"provider\":\"parquet\"},\"id\":\"t1\",\"partitionColumns\":[],",
    "\"schemaString\":\"{\\\"type\\\":\\\"struct\\\",\\\"fields\\\":[]}\"},",
    "\"protocol\":{\"minReaderVersion\":3,\"minWriterVersion\":7,",
    "\"readerFeatures\":[\"catalogManaged\",\"v2Checkpoint\",\"vacuumProtocolCheck\"],",
    "\"writerFeatures\":[\"catalogManaged\",\"inCommitTimestamp\",\"v2Checkpoint\",\"vacuumProtocolCheck\"]},",
    "\"removed\":[],\"reply\":\"loaded\""
);

/// The front and the end of a Loaded reply to a table of which nothing but files and numbers was changed.
#[derive(Clone, Copy)]
pub struct Loaded {
    pub front: &'static str,
    pub end: &'static str,
}

/// Version 1 is the write.
pub const WRITTEN: Loaded = Loaded {
    front: "{\"files\":[{\"modificationTime\":5,\"partitionValues\":{},\"path\":\"a\",\"size\":10}],\"latest\":1",
    end: ",\"time\":1001,\"txns\":[{\"appId\":\"A\",\"version\":1}],\"version\":1}\n",
};

/// Versions 1 and 2 are the write and another caller's commit.
pub const BOTH: Loaded = Loaded {
    front: concat!(
        "{\"files\":[{\"modificationTime\":5,\"partitionValues\":{},\"path\":\"a\",\"size\":10},",
        "{\"modificationTime\":6,\"partitionValues\":{},\"path\":\"m\",\"size\":20}],\"latest\":2"
    ),
    end: ",\"time\":1002,\"txns\":[{\"appId\":\"A\",\"version\":1}],\"version\":2}\n",
};

/// Version 1 is another caller's, with number 0 of the application `A`.
pub const NUMBER_0: Loaded = Loaded {
    front: "{\"files\":[{\"modificationTime\":6,\"partitionValues\":{},\"path\":\"m\",\"size\":20}],\"latest\":1",
    end: ",\"time\":1001,\"txns\":[{\"appId\":\"A\",\"version\":0}],\"version\":1}\n",
};

/// Version 1 is another caller's, with number 1 of the application `A`.
pub const NUMBER_1: Loaded = Loaded {
    front: "{\"files\":[{\"modificationTime\":6,\"partitionValues\":{},\"path\":\"m\",\"size\":20}],\"latest\":1",
    end: ",\"time\":1001,\"txns\":[{\"appId\":\"A\",\"version\":1}],\"version\":1}\n",
};
