//! Runs over a store in memory: replies, files, statuses.

use delta_cli::{Ended, Status, run};
use lake_io::{FixedClock, ListIds, MemSink, MemSource};
use object_store::{Bytes, Fail, MemStore, Store, StoreError};
use std::alloc::{AllocError, Global};
use std::test::Fail as Stop;

const CREATE: &str =
    "{\"op\":\"create\",\"id\":\"t1\",\"schema\":\"{\\\"type\\\":\\\"struct\\\",\\\"fields\\\":[]}\"}\n";

const ADD_A: &str =
    "{\"op\":\"write\",\"app\":\"A\",\"number\":1,\"adds\":[{\"path\":\"a\",\"partitionValues\":{},\"size\":10,\"modificationTime\":5,\"dataChange\":true}]}\n";

const ADD_B: &str =
    "{\"op\":\"write\",\"app\":\"A\",\"number\":2,\"adds\":[{\"path\":\"b\",\"partitionValues\":{},\"size\":10,\"modificationTime\":5,\"dataChange\":true}]}\n";

const ADD_MARKED: &str =
    "{\"op\":\"write\",\"app\":\"A\",\"number\":1,\"adds\":[{\"path\":\"a\",\"partitionValues\":{},\"size\":10,\"modificationTime\":5,\"dataChange\":true,\"deletionVector\":{\"storageType\":\"u\",\"pathOrInlineDv\":\"x1\",\"offset\":4,\"sizeInBytes\":40,\"cardinality\":6}}]}\n";

const LOAD: &str = "{\"op\":\"load\"}\n";

const PROTOCOL: &str =
    "{\"minReaderVersion\":3,\"minWriterVersion\":7,\"readerFeatures\":[\"catalogManaged\",\"v2Checkpoint\",\"vacuumProtocolCheck\"],\"writerFeatures\":[\"catalogManaged\",\"inCommitTimestamp\",\"v2Checkpoint\",\"vacuumProtocolCheck\"]}";

const METADATA: &str =
    "{\"configuration\":{\"delta.enableInCommitTimestamps\":\"true\"},\"createdTime\":1000,\"format\":{\"options\":{},\"provider\":\"parquet\"},\"id\":\"t1\",\"partitionColumns\":[],\"schemaString\":\"{\\\"type\\\":\\\"struct\\\",\\\"fields\\\":[]}\"}";

const CREATED: &str = "{\"base\":null,\"reply\":\"committed\",\"time\":1000,\"version\":0}\n";

const FIRST_ADD: &str = "{\"base\":0,\"reply\":\"committed\",\"time\":1001,\"version\":1}\n";

const SECOND_ADD: &str = "{\"base\":1,\"reply\":\"committed\",\"time\":1002,\"version\":2}\n";

const ALREADY: &str = "{\"latest\":1,\"recorded\":1,\"reply\":\"already\"}\n";

const UNTOLD_VECTOR: &str =
    "{\"base\":0,\"key\":\"a\",\"reply\":\"broken\",\"rule\":\"vector\",\"vector\":\"ux1@4\"}\n";

const NO_TABLE: &str = "{\"reply\":\"noTable\"}\n";

const EXISTS: &str = "{\"latest\":0,\"reply\":\"exists\"}\n";

const TIME_END: &str = "{\"base\":0,\"last\":9223372036854775807,\"reply\":\"timeEnd\"}\n";

const AT_TIME_END: &str =
    "{\"base\":null,\"reply\":\"committed\",\"time\":9223372036854775807,\"version\":0}\n";

/// 64 bytes, so that 16,384 of them are as long as a line may be.
const SPACES: &str = "                                                                ";

const FIRST_FILE: &str = "00000000000000000000.json";

const SECOND_FILE: &str = "00000000000000000001.json";

/// What a run is made of: its store, the numbers of the reads and of the writes that fail, its clock and its ids.
#[derive(Drop)]
struct Plan {
    store: MemStore,
    reads: Vec<u64>,
    writes: Vec<u64>,
    clock: FixedClock,
    ids: ListIds,
}

/// What a run answered: its status, what it wrote, and the store that it left.
#[derive(Drop)]
struct Answer {
    status: Status,
    written: Vec<u8>,
    store: MemStore,
}

/// A run over an empty store at 1000, with ids from 1, of which nothing fails.
fn plain(alloc: Global) -> Plan {
    Plan {
        store: MemStore::new(alloc, Vec::new(alloc)),
        reads: Vec::new(alloc),
        writes: Vec::new(alloc),
        clock: FixedClock::new(1000),
        ids: ListIds::from(alloc, 1),
    }
}

/// The parts, one after another.
fn text(alloc: Global, parts: &[&str]) -> Result<Vec<u8>, AllocError> {
    let mut all = Vec::new(alloc);
    for part in parts {
        all.extend_from_slice(part.as_bytes())?;
    }
    Ok(all)
}

/// Runs a word over an input that comes in pieces of 7 bytes.
fn ran(alloc: Global, word: &str, input: &[&str], plan: Plan) -> Result<Answer, AllocError> {
    let Plan {
        store,
        reads,
        writes,
        mut clock,
        mut ids,
    } = plan;
    let words = vec![in alloc; String::from_str(alloc, word)?]?;
    let mut source = MemSource::new(text(alloc, input)?, 7, reads);
    let mut sink = MemSink::new(alloc, writes);
    let ended = run(
        alloc,
        words.as_slice(),
        store,
        &mut source,
        &mut sink,
        &mut clock,
        &mut ids,
    );
    let (status, store) = parts(ended);
    Ok(Answer {
        status,
        written: sink.written().to_vec(alloc)?,
        store,
    })
}

/// The status and the store of a run.
fn parts(ended: Ended<MemStore>) -> (Status, MemStore) {
    match ended {
        Ended::NotRun { status, store } => (status, store),
        Ended::Ran { status, world } => {
            let (_catalog, store) = world.close();
            (status, store)
        }
    }
}

/// Whether a run over this input is done and writes these replies.
fn replies(alloc: Global, input: &[&str], output: &[&str]) -> Result<bool, AllocError> {
    let answer = ran(alloc, "run", input, plain(alloc))?;
    Ok(
        answer.status == Status::Done
            && answer.written.as_slice() == text(alloc, output)?.as_slice(),
    )
}

/// Whether this file stands with these lines.
fn stands(
    alloc: Global,
    store: &mut MemStore,
    name: &str,
    lines: &[&str],
) -> Result<bool, StoreError> {
    match store.get(alloc, name)? {
        Bytes::Whole(bytes) => Ok(bytes.as_slice() == text(alloc, lines)?.as_slice()),
        Bytes::Absent => Ok(false),
    }
}

#[test]
fn a_table_is_made_and_loaded(rt: HostRuntime) -> Result<(), Stop> {
    let alloc = rt.alloc();
    assert!(rt; replies(alloc, &[], &[])?);
    assert!(rt; replies(alloc, &[LOAD, ADD_A], &[NO_TABLE, NO_TABLE])?);
    assert!(rt; replies(alloc, &[CREATE, CREATE], &[CREATED, EXISTS])?);
    let loaded = [
        CREATED,
        "{\"files\":[],\"latest\":0,\"metaData\":",
        METADATA,
        ",\"protocol\":",
        PROTOCOL,
        ",\"removed\":[],\"reply\":\"loaded\",\"time\":1000,\"txns\":[],\"version\":0}\n",
    ];
    assert!(rt; replies(alloc, &[CREATE, LOAD], loaded.as_slice())?);
    Ok(())
}

#[test]
fn appends_are_committed_once(rt: HostRuntime) -> Result<(), Stop> {
    let alloc = rt.alloc();
    let input = [CREATE, ADD_A, ADD_B];
    assert!(rt; replies(alloc, input.as_slice(), &[CREATED, FIRST_ADD, SECOND_ADD])?);
    let input = [CREATE, ADD_A, ADD_A, ADD_A];
    let output = [CREATED, FIRST_ADD, ALREADY, ALREADY];
    assert!(rt; replies(alloc, input.as_slice(), output.as_slice())?);
    let input = [CREATE, ADD_MARKED, ADD_A];
    let output = [CREATED, UNTOLD_VECTOR, FIRST_ADD];
    assert!(rt; replies(alloc, input.as_slice(), output.as_slice())?);
    Ok(())
}

#[test]
fn commits_are_published(rt: HostRuntime) -> Result<(), Stop> {
    let alloc = rt.alloc();
    let mut store = ran(alloc, "run", &[CREATE, ADD_A, ADD_A], plain(alloc))?.store;
    assert_eq!(rt; store.list(alloc)?.len(), 2);
    let created = [
        "{\"commitInfo\":{\"inCommitTimestamp\":1000,\"txnId\":\"00000000-0000-0000-0000-000000000001\"}}\n",
        "{\"protocol\":",
        PROTOCOL,
        "}\n{\"metaData\":",
        METADATA,
        "}\n",
    ];
    assert!(rt; stands(alloc, &mut store, FIRST_FILE, created.as_slice())?);
    let added = [
        "{\"commitInfo\":{\"inCommitTimestamp\":1001,\"txnId\":\"00000000-0000-0000-0000-000000000002\"}}\n",
        "{\"txn\":{\"appId\":\"A\",\"version\":1}}\n",
        "{\"add\":{\"dataChange\":true,\"modificationTime\":5,\"partitionValues\":{},\"path\":\"a\",\"size\":10}}\n",
    ];
    assert!(rt; stands(alloc, &mut store, SECOND_FILE, added.as_slice())?);
    Ok(())
}

#[test]
fn time_has_an_end(rt: HostRuntime) -> Result<(), Stop> {
    let alloc = rt.alloc();
    let mut plan = plain(alloc);
    plan.clock = FixedClock::new(i64::MAX);
    let answer = ran(alloc, "run", &[CREATE, ADD_A], plan)?;
    assert!(rt; answer.written.as_slice() == text(alloc, &[AT_TIME_END, TIME_END])?.as_slice());
    Ok(())
}

#[test]
fn a_read_or_a_write_fails(rt: HostRuntime) -> Result<(), Stop> {
    let alloc = rt.alloc();
    let mut plan = plain(alloc);
    plan.reads.push(1)?;
    let answer = ran(alloc, "run", &[CREATE], plan)?;
    assert_eq!(rt;
        (answer.status, answer.written.len()),
        (Status::ReadFault, 0)
    );
    let mut plan = plain(alloc);
    plan.writes.push(1)?;
    let mut answer = ran(alloc, "run", &[CREATE], plan)?;
    assert_eq!(rt;
        (answer.status, answer.written.len()),
        (Status::WriteFault, 0)
    );
    let names = answer.store.list(alloc)?;
    assert_eq!(rt; names.len(), 1);
    assert_eq!(rt; names[0].as_str(), FIRST_FILE);
    Ok(())
}

#[test]
fn the_store_fails(rt: HostRuntime) -> Result<(), Stop> {
    let alloc = rt.alloc();
    for (call, status) in [
        (1, Status::StoreFault),
        (4, Status::StoreFault),
        (9, Status::Done),
    ] {
        let mut plan = plain(alloc);
        plan.store = MemStore::new(alloc, vec![in alloc; Fail { call, took: false }]?);
        assert_eq!(rt;
            ran(alloc, "run", &[CREATE], plan)?.status,
            status,
            "call {call}"
        );
    }
    Ok(())
}

#[test]
fn a_name_that_a_failed_put_has_left_is_taken(rt: HostRuntime) -> Result<(), Stop> {
    let alloc = rt.alloc();
    let mut plan = plain(alloc);
    // The calls are the listing at the start, the staging of the create, the listing and the reading of the first write, and its staging.
    plan.store = MemStore::new(
        alloc,
        vec![in alloc;
            Fail {
                call: 5,
                took: true
            },
        ]?,
    );
    plan.ids = ListIds::of(vec![in alloc; 1, 2, 2]?);
    let answer = ran(alloc, "run", &[CREATE, ADD_A, ADD_A], plan)?;
    let output = [
        CREATED,
        "{\"name\":\"_staged_commits/00000000000000000001.00000000-0000-0000-0000-000000000002.json\",\"reply\":\"fault\"}\n",
        "{\"base\":0,\"id\":\"00000000-0000-0000-0000-000000000002\",\"reply\":\"taken\",\"version\":1}\n",
    ];
    assert!(rt; answer.written.as_slice() == text(alloc, output.as_slice())?.as_slice());
    assert_eq!(rt; answer.status, Status::Done);
    Ok(())
}

/// The part, 16,384 times.
fn repeat(alloc: Global, part: &'static str) -> Result<Vec<&'static str>, AllocError> {
    vec![in alloc; part; 16_384]
}

#[test]
fn lines_that_ask_for_nothing(rt: HostRuntime) -> Result<(), Stop> {
    let alloc = rt.alloc();
    // A line of white space alone that is as long as a line may be, and a line of one byte more.
    let mut input = repeat(alloc, SPACES)?;
    input.push("\nnope\n[]\n{\"op\":\"fly\"}\n{\"op\":\"load\",\"version\":-1}\n")?;
    input.append(&mut repeat(alloc, SPACES)?)?;
    input.push(" \n")?;
    let output = [
        "{\"at\":2,\"reply\":\"badLine\",\"why\":\"notJson\"}\n",
        "{\"at\":3,\"reply\":\"badLine\",\"why\":\"notObject\"}\n",
        "{\"at\":4,\"reply\":\"badLine\",\"why\":\"op\"}\n",
        "{\"at\":5,\"field\":\"version\",\"reply\":\"badLine\",\"why\":\"field\"}\n",
        "{\"at\":6,\"reply\":\"badLine\",\"why\":\"tooLong\"}\n",
    ];
    assert!(rt; replies(alloc, input.as_slice(), output.as_slice())?);
    Ok(())
}

#[test]
fn nothing_is_run(rt: HostRuntime) -> Result<(), Stop> {
    let alloc = rt.alloc();
    let answer = ran(alloc, "walk", &[CREATE], plain(alloc))?;
    assert_eq!(rt; (answer.status, answer.written.len()), (Status::Usage, 0));
    let mut plan = plain(alloc);
    plan.store.put_new(alloc, FIRST_FILE, b"")?;
    let answer = ran(alloc, "run", &[CREATE], plan)?;
    assert_eq!(rt;
        (answer.status, answer.written.len()),
        (Status::NotEmpty, 0)
    );
    Ok(())
}

#[test]
fn statuses_have_their_numbers(rt: HostRuntime) {
    for (status, code) in [(Status::Done, 0), (Status::Memory, 2), (Status::TooMuch, 8)] {
        assert_eq!(rt; status.code(), code);
    }
    assert_eq!(rt; Status::TooMuch.meaning(), "too much input");
}
