//! Loads of the past, of a version and at a time, and the times of a log: over two versions, over three, over four
//! whose times leave gaps, and over more than a hundred.

use crate::among_others::{ADD, Act, CREATE, among, caller_among, count, end};
use crate::kept_and_past::{NONE_NEW, REMOVE, shown};
use object_store::MemStore;
use snapshot_load::{LoadError, Snapshot, Times, load_at, load_version, times};
use std::alloc::{AllocError, Global};
use std::test::Fail as Stop;
use table_meddler::{Foreign, Meddler, Turn};
use table_world::Steps;

const REMOVE_LATER: &[u8] =
    b"{\"commitInfo\":{\"inCommitTimestamp\":2000,\"txnId\":\"00000000-0000-0000-0000-000000000003\"}}\n{\"remove\":{\"dataChange\":true,\"deletionTimestamp\":2000,\"path\":\"a\"}}\n";

const AGAIN_LATER: &[u8] =
    b"{\"commitInfo\":{\"inCommitTimestamp\":3000,\"txnId\":\"00000000-0000-0000-0000-000000000004\"}}\n{\"add\":{\"dataChange\":true,\"modificationTime\":5,\"partitionValues\":{},\"path\":\"a\",\"size\":30}}\n";

const LAST: &[u8] =
    b"{\"commitInfo\":{\"inCommitTimestamp\":4000,\"txnId\":\"00000000-0000-0000-0000-000000000005\"}}\n";

/// Four versions before the first turn, at the times 1000, 1001, 2000 and 3000. The first two are published, reported
/// and cleared.
const GAPS: [(u64, Act); 13] = [
    (1, Act::Stage(0, 1, CREATE)),
    (1, Act::Ratify(0, 1, 1000)),
    (1, Act::Stage(1, 2, ADD)),
    (1, Act::Ratify(1, 2, 1001)),
    (1, Act::Stage(2, 3, REMOVE_LATER)),
    (1, Act::Ratify(2, 3, 2000)),
    (1, Act::Stage(3, 4, AGAIN_LATER)),
    (1, Act::Ratify(3, 4, 3000)),
    (1, Act::Publish(0, CREATE)),
    (1, Act::Publish(1, ADD)),
    (1, Act::Report(2)),
    (1, Act::Clear(0, 1)),
    (1, Act::Clear(1, 2)),
];

/// Three versions before the first turn, at the times 1000, 1001 and 1002; a fourth one before the eighth.
const THREE: [(u64, Act); 8] = [
    (1, Act::Stage(0, 1, CREATE)),
    (1, Act::Ratify(0, 1, 1000)),
    (1, Act::Stage(1, 2, ADD)),
    (1, Act::Ratify(1, 2, 1001)),
    (1, Act::Stage(2, 3, REMOVE)),
    (1, Act::Ratify(2, 3, 1002)),
    (8, Act::Stage(3, 4, LAST)),
    (8, Act::Ratify(3, 4, 4000)),
];

/// What a load answers.
#[derive(Clone, Copy, Debug, PartialEq, Eq)]
enum Answer {
    /// The version, the last one, the time, and the size of the file `a`, 0 where there is none.
    Loaded(u64, u64, i64, i64),
    /// The time of version 0, and the last version.
    BeforeFirst(i64, u64),
    /// The version that was asked for, and the last one.
    AfterLatest(u64, u64),
    Other,
}

/// Times of a table of two versions, and what a load at each answers.
const AT_OF_TWO: [(i64, Answer); 3] = [
    (999, Answer::BeforeFirst(1000, 1)),
    (1000, Answer::Loaded(0, 1, 1000, 0)),
    (5000, Answer::Loaded(1, 1, 1001, 10)),
];

/// Times of the table with gaps, and what a load at each answers.
const AT_OF_GAPS: [(i64, Answer); 11] = [
    (i64::MIN, Answer::BeforeFirst(1000, 3)),
    (999, Answer::BeforeFirst(1000, 3)),
    (1000, Answer::Loaded(0, 3, 1000, 0)),
    (1001, Answer::Loaded(1, 3, 1001, 10)),
    (1002, Answer::Loaded(1, 3, 1001, 10)),
    (1999, Answer::Loaded(1, 3, 1001, 10)),
    (2000, Answer::Loaded(2, 3, 2000, 0)),
    (2999, Answer::Loaded(2, 3, 2000, 0)),
    (3000, Answer::Loaded(3, 3, 3000, 30)),
    (3001, Answer::Loaded(3, 3, 3000, 30)),
    (i64::MAX, Answer::Loaded(3, 3, 3000, 30)),
];

/// Versions of the table with gaps, and what a load of each answers.
const OF_GAPS: [(u64, Answer); 6] = [
    (0, Answer::Loaded(0, 3, 1000, 0)),
    (1, Answer::Loaded(1, 3, 1001, 10)),
    (2, Answer::Loaded(2, 3, 2000, 0)),
    (3, Answer::Loaded(3, 3, 3000, 30)),
    (4, Answer::AfterLatest(4, 3)),
    (u64::MAX, Answer::AfterLatest(u64::MAX, 3)),
];

fn answer_of(loaded: Result<Snapshot, LoadError>) -> Answer {
    match loaded {
        Ok(snapshot) => {
            let (version, latest, time, size) = shown(&snapshot);
            Answer::Loaded(version, latest, time, size)
        }
        Err(LoadError::BeforeFirst { first, latest }) => Answer::BeforeFirst(first, latest),
        Err(LoadError::AfterLatest { version, latest }) => Answer::AfterLatest(version, latest),
        Err(_) => Answer::Other,
    }
}

fn loaded_at(alloc: Global, rows: &[(u64, Act)], time: i64) -> Result<Answer, Stop> {
    let mut caller = caller_among(alloc, rows, Vec::new(alloc))?;
    let answer = load_at(&mut caller, alloc, time);
    let _ = end(caller);
    Ok(answer_of(answer))
}

fn loaded_version(alloc: Global, rows: &[(u64, Act)], version: u64) -> Result<Answer, Stop> {
    let mut caller = caller_among(alloc, rows, Vec::new(alloc))?;
    let answer = load_version(&mut caller, alloc, version);
    let _ = end(caller);
    Ok(answer_of(answer))
}

fn told_times(alloc: Global, rows: &[(u64, Act)], from: u64) -> Result<Times, Stop> {
    let mut caller = caller_among(alloc, rows, Vec::new(alloc))?;
    let answer = times(&mut caller, alloc, from);
    let _ = end(caller);
    Ok(answer?)
}

#[test]
fn loads_of_the_past_of_two_versions(rt: HostRuntime) -> Result<(), Stop> {
    let alloc = rt.alloc();
    for (time, answer) in AT_OF_TWO {
        assert_eq!(rt; loaded_at(alloc, &NONE_NEW, time)?, answer);
    }
    assert_eq!(rt;
        loaded_version(alloc, &NONE_NEW, 2)?,
        Answer::AfterLatest(2, 1)
    );
    let told = told_times(alloc, &NONE_NEW, 0)?;
    assert_eq!(rt; (told.from, told.latest), (0, 1));
    assert!(rt; told.times.as_slice() == [1000, 1001].as_slice());
    Ok(())
}

#[test]
fn a_load_at_a_time_finds_the_greatest_version_up_to_it(rt: HostRuntime) -> Result<(), Stop> {
    let alloc = rt.alloc();
    for (time, answer) in AT_OF_GAPS {
        assert_eq!(rt; loaded_at(alloc, &GAPS, time)?, answer);
    }
    Ok(())
}

#[test]
fn each_version_is_loaded_and_none_above_the_last(rt: HostRuntime) -> Result<(), Stop> {
    let alloc = rt.alloc();
    for (version, answer) in OF_GAPS {
        assert_eq!(rt; loaded_version(alloc, &GAPS, version)?, answer);
    }
    Ok(())
}

/// The times of the table with gaps, from each version on.
const TIMES: [(u64, &[i64]); 4] = [
    (0, &[1000, 1001, 2000, 3000]),
    (1, &[1001, 2000, 3000]),
    (2, &[2000, 3000]),
    (3, &[3000]),
];

#[test]
fn times_begin_at_the_version_asked_for(rt: HostRuntime) -> Result<(), Stop> {
    let alloc = rt.alloc();
    for (from, times) in TIMES {
        let told = told_times(alloc, &GAPS, from)?;
        assert_eq!(rt; (told.from, told.latest), (from, 3));
        assert!(rt; told.times.as_slice() == times);
    }
    Ok(())
}

#[test]
fn times_from_above_the_last_version_are_none(rt: HostRuntime) -> Result<(), Stop> {
    let alloc = rt.alloc();
    let mut caller = caller_among(alloc, &GAPS, Vec::new(alloc))?;
    let answer = times(&mut caller, alloc, 4);
    let _ = end(caller);
    assert!(rt;
        matches!(
            answer,
            Err(LoadError::AfterLatest {
                version: 4,
                latest: 3
            })
        )
    );
    Ok(())
}

/// What a load at the time 1001 shows, and the number of commits that the turn after it is told.
fn loaded_and_counted<T: Steps>(
    caller: &mut T,
    alloc: Global,
) -> Result<((u64, u64, i64, i64), u64), LoadError> {
    let snapshot = load_at(caller, alloc, 1001)?;
    let count = count(caller, alloc)?;
    Ok((shown(&snapshot), count))
}

// One turn of the catalogue, one that lists, two reads by which version 1 of three is found, and two that replay it:
// the seventh turn is the next one or comes after it, so what is ratified before the eighth is not yet there.
#[test]
fn halving_takes_two_reads_of_three_versions(rt: HostRuntime) -> Result<(), Stop> {
    let alloc = rt.alloc();
    let mut caller = caller_among(alloc, &THREE, Vec::new(alloc))?;
    let answer = loaded_and_counted(&mut caller, alloc);
    let _ = end(caller);
    assert_eq!(rt; answer?, ((1, 2, 1001, 10), 3));
    Ok(())
}

fn digit(number: u64) -> u8 {
    b'0'.saturating_add((number % 10) as u8)
}

/// The text of a commit without an action, at 1000 and so many milliseconds more, for numbers below 1000.
fn empty_text(alloc: Global, number: u64) -> Result<Vec<u8>, AllocError> {
    let mut text = Vec::from_slice(alloc, b"{\"commitInfo\":{\"inCommitTimestamp\":1")?;
    text.push(digit(number / 100))?;
    text.push(digit(number / 10))?;
    text.push(digit(number))?;
    text.extend_from_slice(b",\"txnId\":\"00000000-0000-0000-0000-000000000002\"}}\n")?;
    Ok(text)
}

/// One before the first turn: version 0 as others have it, then versions without an action up to version 102, each a
/// millisecond after the one below.
fn many_turns(alloc: Global) -> Result<Vec<Foreign>, AllocError> {
    let mut turns = Vec::new(alloc);
    for version in 0..103u64 {
        let text = if version == 0 {
            Vec::from_slice(alloc, CREATE)?
        } else {
            empty_text(alloc, version)?
        };
        let id = version as u128 + 1;
        let time = 1000i64.saturating_add(version as i64);
        turns.push(Foreign {
            before: 1,
            turn: Turn::Stage {
                version,
                id,
                bytes: text,
            },
        })?;
        turns.push(Foreign {
            before: 1,
            turn: Turn::Ratify { version, id, time },
        })?;
    }
    Ok(turns)
}

fn caller_of_many(alloc: Global) -> Result<Meddler<MemStore>, Stop> {
    let turns = many_turns(alloc)?;
    Ok(among(alloc, turns, Vec::new(alloc)).ok_or("the world starts")?)
}

/// Versions of a table of 103, and how many times are told from each on, the first one and the last one.
const OF_MANY: [(u64, usize, i64, i64); 4] = [
    (0, 100, 1000, 1099),
    (2, 100, 1002, 1101),
    (3, 100, 1003, 1102),
    (4, 99, 1004, 1102),
];

fn many_times(alloc: Global, from: u64) -> Result<Times, Stop> {
    let mut caller = caller_of_many(alloc)?;
    let answer = times(&mut caller, alloc, from);
    let _ = end(caller);
    Ok(answer?)
}

#[test]
fn a_hundred_times_are_told_at_most(rt: HostRuntime) -> Result<(), Stop> {
    let alloc = rt.alloc();
    for (from, length, first, last) in OF_MANY {
        let told = many_times(alloc, from)?;
        assert_eq!(rt;
            (told.from, told.latest, told.times.len()),
            (from, 102, length)
        );
        assert_eq!(rt;
            (told.times.first(), told.times.last()),
            (Some(&first), Some(&last))
        );
    }
    Ok(())
}
