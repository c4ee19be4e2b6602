//! One caller among others, whose turns come between its own.

use action_types::Key;
use object_store::{Fail, MemStore};
use publisher::drain;
use snapshot_load::load;
use std::alloc::{AllocError, Global};
use std::test::Fail as Stop;
use table_meddler::{Foreign, Meddler, Turn};
use table_world::{Bytes, Limits, LogName, Staged, StepFault, Steps, World};

const LIMITS: Limits = Limits {
    versions: 200,
    unpublished: 200,
    attempts: 1,
    bytes: 1024,
};

pub const CREATE: &[u8] =
    b"{\"commitInfo\":{\"inCommitTimestamp\":1000,\"txnId\":\"00000000-0000-0000-0000-000000000001\"}}\n{\"protocol\":{\"minReaderVersion\":3,\"minWriterVersion\":7,\"readerFeatures\":[\"catalogManaged\",\"v2Checkpoint\",\"vacuumProtocolCheck\"],\"writerFeatures\":[\"catalogManaged\",\"inCommitTimestamp\",\"v2Checkpoint\",\"vacuumProtocolCheck\"]}}\n{\"metaData\":{\"configuration\":{\"delta.enableInCommitTimestamps\":\"true\"},\"createdTime\":1000,\"format\":{\"options\":{},\"provider\":\"parquet\"},\"id\":\"t1\",\"partitionColumns\":[],\"schemaString\":\"{\\\"type\\\":\\\"struct\\\",\\\"fields\\\":[]}\"}}\n";

pub const ADD: &[u8] =
    b"{\"commitInfo\":{\"inCommitTimestamp\":1001,\"txnId\":\"00000000-0000-0000-0000-000000000002\"}}\n{\"add\":{\"dataChange\":true,\"modificationTime\":5,\"partitionValues\":{},\"path\":\"a\",\"size\":10}}\n";

const REMOVE: &[u8] =
    b"{\"commitInfo\":{\"inCommitTimestamp\":1001,\"txnId\":\"00000000-0000-0000-0000-000000000002\"}}\n{\"remove\":{\"dataChange\":true,\"deletionTimestamp\":5,\"path\":\"a\"}}\n";

/// What another caller does, with the text of a commit in place of its bytes.
#[derive(Clone, Copy)]
pub enum Act {
    Commits,
    Lookup(u64),
    List,
    Get(LogName),
    Stage(u64, u128, &'static [u8]),
    Ratify(u64, u128, i64),
    Publish(u64, &'static [u8]),
    Report(u64),
    Clear(u64, u128),
}

/// The first version is ratified before the second turn.
const ONE_VERSION: [(u64, Act); 2] = [(2, Act::Stage(0, 1, CREATE)), (2, Act::Ratify(0, 1, 1000))];

/// Ratifications without their condition: the file is not there, the time is another, the id is another, the version
/// is not the next, the text creates no table, the text is no commit. Then one with its condition, and one of a text
/// that removes a file which is not there.
const UNFIT: [(u64, Act); 12] = [
    (1, Act::Ratify(0, 1, 1000)),
    (1, Act::Stage(0, 1, CREATE)),
    (1, Act::Ratify(0, 1, 1001)),
    (1, Act::Ratify(0, 2, 1000)),
    (1, Act::Ratify(1, 1, 1000)),
    (1, Act::Stage(0, 3, ADD)),
    (1, Act::Ratify(0, 3, 1001)),
    (1, Act::Stage(0, 4, b"no commit")),
    (1, Act::Ratify(0, 4, 0)),
    (2, Act::Ratify(0, 1, 1000)),
    (2, Act::Stage(1, 2, REMOVE)),
    (2, Act::Ratify(1, 2, 1001)),
];

/// Two versions before the first turn. What is not reported is not cleared, what is not published is not reported.
/// Then the first is published, after a gap and other bytes were passed over; the first alone is reported and cleared.
const PUBLISHED: [(u64, Act); 13] = [
    (1, Act::Stage(0, 1, CREATE)),
    (1, Act::Ratify(0, 1, 1000)),
    (1, Act::Stage(1, 2, ADD)),
    (1, Act::Ratify(1, 2, 1001)),
    (1, Act::Clear(0, 1)),
    (1, Act::Report(1)),
    (2, Act::Publish(1, ADD)),
    (2, Act::Publish(0, ADD)),
    (2, Act::Publish(0, CREATE)),
    (2, Act::Report(2)),
    (2, Act::Report(1)),
    (2, Act::Clear(1, 2)),
    (2, Act::Clear(0, 1)),
];

/// Turns that read.
const READS: [(u64, Act); 5] = [
    (1, Act::List),
    (1, Act::Commits),
    (1, Act::Lookup(0)),
    (1, Act::Get(LogName::Other)),
    (1, Act::Get(LogName::Published(0))),
];

/// Two versions before the first turn, which are published, reported and cleared before the third.
const MEANWHILE: [(u64, Act); 9] = [
    (1, Act::Stage(0, 1, CREATE)),
    (1, Act::Ratify(0, 1, 1000)),
    (1, Act::Stage(1, 2, ADD)),
    (1, Act::Ratify(1, 2, 1001)),
    (3, Act::Publish(0, CREATE)),
    (3, Act::Publish(1, ADD)),
    (3, Act::Report(2)),
    (3, Act::Clear(0, 1)),
    (3, Act::Clear(1, 2)),
];

/// Two versions before the first turn, of which the first is published before the fourth.
const BESIDE: [(u64, Act); 5] = [
    (1, Act::Stage(0, 1, CREATE)),
    (1, Act::Ratify(0, 1, 1000)),
    (1, Act::Stage(1, 2, ADD)),
    (1, Act::Ratify(1, 2, 1001)),
    (4, Act::Publish(0, CREATE)),
];

fn turn_of(alloc: Global, act: Act) -> Result<Turn, AllocError> {
    match act {
        Act::Commits => Ok(Turn::Commits),
        Act::Lookup(version) => Ok(Turn::Lookup { version }),
        Act::List => Ok(Turn::List),
        Act::Get(name) => Ok(Turn::Get { name }),
        Act::Stage(version, id, text) => Ok(Turn::Stage {
            version,
            id,
            bytes: Vec::from_slice(alloc, text)?,
        }),
        Act::Ratify(version, id, time) => Ok(Turn::Ratify { version, id, time }),
        Act::Publish(version, text) => Ok(Turn::Publish {
            version,
            bytes: Vec::from_slice(alloc, text)?,
        }),
        Act::Report(count) => Ok(Turn::Report { count }),
        Act::Clear(version, id) => Ok(Turn::Clear { version, id }),
    }
}

fn turns_of(alloc: Global, rows: &[(u64, Act)]) -> Result<Vec<Foreign>, AllocError> {
    let mut turns = Vec::new(alloc);
    for row in rows {
        turns.push(Foreign {
            before: row.0,
            turn: turn_of(alloc, row.1)?,
        })?;
    }
    Ok(turns)
}

/// The caller of a new table among those who make these turns, unless the world does not start.
pub fn among(alloc: Global, turns: Vec<Foreign>, fails: Vec<Fail>) -> Option<Meddler<MemStore>> {
    match World::start(alloc, MemStore::new(alloc, fails), LIMITS) {
        Ok(world) => Some(Meddler::new(world, turns)),
        Err(_) => None,
    }
}

/// The caller of a new table among those who make these turns.
pub fn caller_among(
    alloc: Global,
    rows: &[(u64, Act)],
    fails: Vec<Fail>,
) -> Result<Meddler<MemStore>, Stop> {
    let turns = turns_of(alloc, rows)?;
    Ok(among(alloc, turns, fails).ok_or("the world starts")?)
}

/// The numbers of commits and of reported versions at the end.
pub fn end(caller: Meddler<MemStore>) -> (u64, u64) {
    let (catalog, _store) = caller.into_world().close();
    (catalog.count(), catalog.reported())
}

/// The number of commits that a turn is told.
pub fn count<T: Steps>(caller: &mut T, alloc: Global) -> Result<u64, StepFault> {
    let commits = caller.commits(alloc)?;
    Ok(commits.count)
}

/// The numbers of commits that two turns are told, and those at the end.
fn two_turns(
    alloc: Global,
    rows: &[(u64, Act)],
    fails: Vec<Fail>,
) -> Result<(u64, u64, (u64, u64)), Stop> {
    let mut caller = caller_among(alloc, rows, fails)?;
    let first = count(&mut caller, alloc);
    let second = count(&mut caller, alloc);
    let end = end(caller);
    Ok((first?, second?, end))
}

/// The version, the id and the time that the caller finds of version 0, and the number of commits.
fn first_version<T: Steps>(
    caller: &mut T,
    alloc: Global,
) -> Result<(Option<(u64, u128, i64)>, u64), StepFault> {
    let looked = caller.lookup(alloc, 0)?;
    let found = looked
        .found
        .map(|found| (found.version, found.id, found.time));
    Ok((found, looked.count))
}

#[test]
fn a_commit_of_another_is_found_by_its_version(rt: HostRuntime) -> Result<(), Stop> {
    let alloc = rt.alloc();
    let mut caller = caller_among(alloc, &ONE_VERSION, Vec::new(alloc))?;
    let before = first_version(&mut caller, alloc);
    let after = first_version(&mut caller, alloc);
    assert_eq!(rt; end(caller), (1, 0));
    assert_eq!(rt; before?, (None, 0));
    assert_eq!(rt; after?, (Some((0, 1, 1000)), 1));
    Ok(())
}

#[test]
fn a_commit_of_another_comes_between_two_turns(rt: HostRuntime) -> Result<(), Stop> {
    let alloc = rt.alloc();
    assert_eq!(rt;
        two_turns(alloc, &ONE_VERSION, Vec::new(alloc))?,
        (0, 1, (1, 0))
    );
    Ok(())
}

#[test]
fn a_ratification_without_its_condition_is_passed_over(rt: HostRuntime) -> Result<(), Stop> {
    let alloc = rt.alloc();
    assert_eq!(rt; two_turns(alloc, &UNFIT, Vec::new(alloc))?, (0, 1, (1, 0)));
    Ok(())
}

#[test]
fn versions_are_published_reported_and_cleared(rt: HostRuntime) -> Result<(), Stop> {
    let alloc = rt.alloc();
    assert_eq!(rt;
        two_turns(alloc, &PUBLISHED, Vec::new(alloc))?,
        (2, 2, (2, 1))
    );
    Ok(())
}

// Another caller's read fails, call 3 of the store after its listing and the other's; the caller meets no fault.
#[test]
fn a_fault_of_another_is_not_the_callers(rt: HostRuntime) -> Result<(), Stop> {
    let alloc = rt.alloc();
    let fails = vec![in alloc;
        Fail {
            call: 3,
            took: false
        },
    ]?;
    assert_eq!(rt; two_turns(alloc, &READS, fails)?, (0, 0, (0, 0)));
    Ok(())
}

// The staged file can't be read when a ratification by another is due, call 3 of the store; so the turn is left out.
#[test]
fn a_ratification_that_cannot_be_judged_is_left_out(rt: HostRuntime) -> Result<(), Stop> {
    let alloc = rt.alloc();
    let fails = vec![in alloc;
        Fail {
            call: 3,
            took: false
        },
    ]?;
    assert_eq!(rt; two_turns(alloc, &ONE_VERSION, fails)?, (0, 0, (0, 0)));
    Ok(())
}

// Between the listing of a load and its first read both versions are published, reported and cleared.
#[test]
fn a_load_finds_versions_that_were_published_meanwhile(rt: HostRuntime) -> Result<(), Stop> {
    let alloc = rt.alloc();
    let mut caller = caller_among(alloc, &MEANWHILE, Vec::new(alloc))?;
    let loaded = load(&mut caller, alloc);
    assert_eq!(rt; end(caller), (2, 2));
    let snapshot = loaded?;
    assert_eq!(rt;
        (snapshot.version, snapshot.latest, snapshot.time),
        (1, 1, 1001)
    );
    let file = Key {
        path: "a",
        vector: None,
    };
    assert!(rt; snapshot.state.live(file).is_some());
    Ok(())
}

// The caller's own turns, through the bound.
fn own_turns<T: Steps>(
    caller: &mut T,
    alloc: Global,
) -> Result<(Staged, Staged, usize, bool), StepFault> {
    let first = caller.stage(alloc, 0, 1, CREATE)?;
    let second = caller.stage(alloc, 0, 1, ADD)?;
    let names = caller.list(alloc)?;
    let found = caller.get(alloc, LogName::Staged(0, 1))?;
    let limits = caller.limits();
    Ok((
        first,
        second,
        names.len(),
        matches!(found, Bytes::Whole(_)) && limits == LIMITS,
    ))
}

#[test]
fn the_caller_makes_its_own_turns(rt: HostRuntime) -> Result<(), Stop> {
    let alloc = rt.alloc();
    let mut caller = caller_among(alloc, &[], Vec::new(alloc))?;
    let answer = own_turns(&mut caller, alloc);
    assert_eq!(rt; end(caller), (0, 0));
    assert_eq!(rt; answer?, (Staged::Done, Staged::Taken, 1, true));
    Ok(())
}

// The caller publishes, reports and clears both versions, while another publishes the first before the fourth turn.
#[test]
fn a_drain_goes_on_beside_another_publisher(rt: HostRuntime) -> Result<(), Stop> {
    let alloc = rt.alloc();
    let mut caller = caller_among(alloc, &BESIDE, Vec::new(alloc))?;
    let drained = drain(&mut caller, alloc);
    assert_eq!(rt; end(caller), (2, 2));
    assert!(rt; drained.is_ok());
    Ok(())
}
