//! A snapshot that is kept between loads, and loads of the past, beside others who act between the turns.

use crate::among_others::{ADD, Act, CREATE, caller_among, end};
use action_types::Key;
use snapshot_load::{LoadError, Snapshot, load, load_at, load_version, refresh, times};
use std::alloc::Global;
use std::test::Fail as Stop;
use table_world::Steps;

pub const REMOVE: &[u8] =
    b"{\"commitInfo\":{\"inCommitTimestamp\":1002,\"txnId\":\"00000000-0000-0000-0000-000000000003\"}}\n{\"remove\":{\"dataChange\":true,\"deletionTimestamp\":1002,\"path\":\"a\"}}\n";

pub const AGAIN: &[u8] =
    b"{\"commitInfo\":{\"inCommitTimestamp\":1003,\"txnId\":\"00000000-0000-0000-0000-000000000004\"}}\n{\"add\":{\"dataChange\":true,\"modificationTime\":5,\"partitionValues\":{},\"path\":\"a\",\"size\":30}}\n";

/// Two versions before the first turn: a load makes four turns, and no version is new to the fifth.
pub const NONE_NEW: [(u64, Act); 4] = [
    (1, Act::Stage(0, 1, CREATE)),
    (1, Act::Ratify(0, 1, 1000)),
    (1, Act::Stage(1, 2, ADD)),
    (1, Act::Ratify(1, 2, 1001)),
];

/// Two versions before the first turn, a third one between two turns of the load.
const ONE_NEW: [(u64, Act); 6] = [
    (1, Act::Stage(0, 1, CREATE)),
    (1, Act::Ratify(0, 1, 1000)),
    (1, Act::Stage(1, 2, ADD)),
    (1, Act::Ratify(1, 2, 1001)),
    (3, Act::Stage(2, 3, REMOVE)),
    (3, Act::Ratify(2, 3, 1002)),
];

/// Two versions before the first turn, two more before the fifth; all four are published, reported and cleared before
/// the sixth, the first that reads a file of them.
const TWO_NEW: [(u64, Act); 17] = [
    (1, Act::Stage(0, 1, CREATE)),
    (1, Act::Ratify(0, 1, 1000)),
    (1, Act::Stage(1, 2, ADD)),
    (1, Act::Ratify(1, 2, 1001)),
    (5, Act::Stage(2, 3, REMOVE)),
    (5, Act::Ratify(2, 3, 1002)),
    (5, Act::Stage(3, 4, AGAIN)),
    (5, Act::Ratify(3, 4, 1003)),
    (6, Act::Publish(0, CREATE)),
    (6, Act::Publish(1, ADD)),
    (6, Act::Publish(2, REMOVE)),
    (6, Act::Publish(3, AGAIN)),
    (6, Act::Report(4)),
    (6, Act::Clear(0, 1)),
    (6, Act::Clear(1, 2)),
    (6, Act::Clear(2, 3)),
    (6, Act::Clear(3, 4)),
];

/// Four versions before the first turn.
const FOUR: [(u64, Act); 8] = [
    (1, Act::Stage(0, 1, CREATE)),
    (1, Act::Ratify(0, 1, 1000)),
    (1, Act::Stage(1, 2, ADD)),
    (1, Act::Ratify(1, 2, 1001)),
    (1, Act::Stage(2, 3, REMOVE)),
    (1, Act::Ratify(2, 3, 1002)),
    (1, Act::Stage(3, 4, AGAIN)),
    (1, Act::Ratify(3, 4, 1003)),
];

/// The version, the last one, the time, and the size of the file `a`, 0 where there is none.
pub fn shown(snapshot: &Snapshot) -> (u64, u64, i64, i64) {
    let file = Key {
        path: "a",
        vector: None,
    };
    let size = snapshot.state.live(file).map_or(0, |add| add.size);
    (snapshot.version, snapshot.latest, snapshot.time, size)
}

/// What a snapshot that a load left shows once it was brought up to the last version, or to an asked one.
pub fn refreshed<T: Steps>(
    caller: &mut T,
    alloc: Global,
    last: Option<u64>,
) -> Result<(u64, u64, i64, i64), LoadError> {
    let kept = load(caller, alloc)?;
    let fresh = refresh(caller, alloc, kept, last)?;
    Ok(shown(&fresh))
}

#[test]
fn a_kept_snapshot_stays_where_no_version_is_new(rt: HostRuntime) -> Result<(), Stop> {
    let alloc = rt.alloc();
    let mut caller = caller_among(alloc, &NONE_NEW, Vec::new(alloc))?;
    let answer = refreshed(&mut caller, alloc, None);
    let _ = end(caller);
    assert_eq!(rt; answer?, (1, 1, 1001, 10));
    Ok(())
}

#[test]
fn a_kept_snapshot_is_brought_up_to_one_new_version(rt: HostRuntime) -> Result<(), Stop> {
    let alloc = rt.alloc();
    let mut caller = caller_among(alloc, &ONE_NEW, Vec::new(alloc))?;
    let answer = refreshed(&mut caller, alloc, None);
    let _ = end(caller);
    assert_eq!(rt; answer?, (2, 2, 1002, 0));
    Ok(())
}

#[test]
fn staged_files_move_under_a_refresh(rt: HostRuntime) -> Result<(), Stop> {
    let alloc = rt.alloc();
    let mut caller = caller_among(alloc, &TWO_NEW, Vec::new(alloc))?;
    let answer = refreshed(&mut caller, alloc, None);
    let _ = end(caller);
    assert_eq!(rt; answer?, (3, 3, 1003, 30));
    Ok(())
}

#[test]
fn a_refresh_reads_no_further_than_asked(rt: HostRuntime) -> Result<(), Stop> {
    let alloc = rt.alloc();
    let mut caller = caller_among(alloc, &TWO_NEW, Vec::new(alloc))?;
    let answer = refreshed(&mut caller, alloc, Some(2));
    let _ = end(caller);
    assert_eq!(rt; answer?, (2, 3, 1002, 0));
    Ok(())
}

#[test]
fn an_asked_version_is_loaded(rt: HostRuntime) -> Result<(), Stop> {
    let alloc = rt.alloc();
    let mut caller = caller_among(alloc, &FOUR, Vec::new(alloc))?;
    let answer = load_version(&mut caller, alloc, 2);
    let _ = end(caller);
    let second = answer?;
    assert_eq!(rt; shown(&second), (2, 3, 1002, 0));
    Ok(())
}

#[test]
fn a_version_above_the_last_one_is_after_the_latest(rt: HostRuntime) -> Result<(), Stop> {
    let alloc = rt.alloc();
    let mut caller = caller_among(alloc, &NONE_NEW, Vec::new(alloc))?;
    let answer = load_version(&mut caller, alloc, 2);
    let _ = end(caller);
    assert!(rt;
        matches!(
            answer,
            Err(LoadError::AfterLatest {
                version: 2,
                latest: 1
            })
        )
    );
    Ok(())
}

#[test]
fn a_time_before_the_first_has_no_version(rt: HostRuntime) -> Result<(), Stop> {
    let alloc = rt.alloc();
    let mut caller = caller_among(alloc, &NONE_NEW, Vec::new(alloc))?;
    let answer = load_at(&mut caller, alloc, 999);
    let _ = end(caller);
    assert!(rt;
        matches!(
            answer,
            Err(LoadError::BeforeFirst {
                first: 1000,
                latest: 1
            })
        )
    );
    Ok(())
}

#[test]
fn the_version_at_a_time_is_loaded(rt: HostRuntime) -> Result<(), Stop> {
    let alloc = rt.alloc();
    let mut caller = caller_among(alloc, &NONE_NEW, Vec::new(alloc))?;
    let answer = load_at(&mut caller, alloc, 1000);
    let _ = end(caller);
    let first = answer?;
    assert_eq!(rt; shown(&first), (0, 1, 1000, 0));
    Ok(())
}

#[test]
fn times_are_told_from_a_version_on(rt: HostRuntime) -> Result<(), Stop> {
    let alloc = rt.alloc();
    let mut caller = caller_among(alloc, &FOUR, Vec::new(alloc))?;
    let answer = times(&mut caller, alloc, 1);
    let _ = end(caller);
    let told = answer?;
    assert_eq!(rt; (told.latest, told.from, told.times.len()), (3, 1, 3));
    assert_eq!(rt; told.times.first(), Some(&1001));
    Ok(())
}
