//! A refresh beside other callers' commits and clears between any two of its turns, compared with a load.

use crate::among_others::{ADD, Act, CREATE, caller_among, count, end};
use crate::kept_and_past::{AGAIN, REMOVE, refreshed, shown};
use snapshot_load::{LoadError, load, refresh};
use std::alloc::Global;
use std::test::Fail as Stop;
use table_world::Steps;

/// The version, the last one, the time, and the size of the file `a`, 0 where there is none.
type Shown = (u64, u64, i64, i64);

const SECOND: Shown = (1, 1, 1001, 10);

const THIRD: Shown = (2, 2, 1002, 0);

const FOURTH: Shown = (3, 3, 1003, 30);

/// No turn comes so late.
const NEVER: u64 = 99;

/// What others do: the turns before which they ratify version 2, ratify version 3, and then publish, report and clear
/// what there is; and what is due.
///
/// The snapshot that is kept is of version 1 and takes turns 1 to 4. Turn 5 asks the catalogue, the next ones read.
const BESIDE: [(u64, u64, u64, Shown); 25] = [
    // No version is new to turn 5.
    (NEVER, NEVER, NEVER, SECOND),
    (NEVER, NEVER, 4, SECOND),
    (NEVER, NEVER, 5, SECOND),
    (6, 6, NEVER, SECOND),
    (6, 7, 6, SECOND),
    // One is.
    (3, NEVER, NEVER, THIRD),
    (4, 6, NEVER, THIRD),
    (5, NEVER, NEVER, THIRD),
    (5, 6, NEVER, THIRD),
    (5, 7, NEVER, THIRD),
    (5, NEVER, 4, THIRD),
    (5, NEVER, 5, THIRD),
    (5, NEVER, 6, THIRD),
    (5, NEVER, 7, THIRD),
    (5, 6, 6, THIRD),
    (5, 6, 7, THIRD),
    // Two are.
    (2, 3, NEVER, FOURTH),
    (3, 5, 4, FOURTH),
    (5, 5, NEVER, FOURTH),
    (5, 5, 3, FOURTH),
    (5, 5, 5, FOURTH),
    (5, 5, 6, FOURTH),
    (5, 5, 7, FOURTH),
    (5, 5, 8, FOURTH),
    (4, 5, 7, FOURTH),
];

/// Two versions before the first turn, and what others do later.
fn acts(second: u64, third: u64, clear: u64) -> [(u64, Act); 19] {
    [
        (1, Act::Stage(0, 1, CREATE)),
        (1, Act::Ratify(0, 1, 1000)),
        (1, Act::Stage(1, 2, ADD)),
        (1, Act::Ratify(1, 2, 1001)),
        (second, Act::Stage(2, 3, REMOVE)),
        (second, Act::Ratify(2, 3, 1002)),
        (third, Act::Stage(3, 4, AGAIN)),
        (third, Act::Ratify(3, 4, 1003)),
        (clear, Act::Publish(0, CREATE)),
        (clear, Act::Publish(1, ADD)),
        (clear, Act::Publish(2, REMOVE)),
        (clear, Act::Publish(3, AGAIN)),
        (clear, Act::Report(2)),
        (clear, Act::Report(3)),
        (clear, Act::Report(4)),
        (clear, Act::Clear(0, 1)),
        (clear, Act::Clear(1, 2)),
        (clear, Act::Clear(2, 3)),
        (clear, Act::Clear(3, 4)),
    ]
}

fn by_refresh(alloc: Global, rows: &[(u64, Act)]) -> Result<Shown, Stop> {
    let mut caller = caller_among(alloc, rows, Vec::new(alloc))?;
    let answer = refreshed(&mut caller, alloc, None);
    let _ = end(caller);
    Ok(answer?)
}

/// What the second of two loads shows.
fn loaded_again<T: Steps>(caller: &mut T, alloc: Global) -> Result<Shown, LoadError> {
    let _kept = load(caller, alloc)?;
    let fresh = load(caller, alloc)?;
    Ok(shown(&fresh))
}

fn by_load(alloc: Global, rows: &[(u64, Act)]) -> Result<Shown, Stop> {
    let mut caller = caller_among(alloc, rows, Vec::new(alloc))?;
    let answer = loaded_again(&mut caller, alloc);
    let _ = end(caller);
    Ok(answer?)
}

/// What a refresh and a load show beside the same turns of others.
fn both(alloc: Global, rows: &[(u64, Act)]) -> Result<(Shown, Shown), Stop> {
    Ok((by_refresh(alloc, rows)?, by_load(alloc, rows)?))
}

#[test]
fn a_refresh_shows_what_a_load_shows(rt: HostRuntime) -> Result<(), Stop> {
    let alloc = rt.alloc();
    for (second, third, clear, due) in BESIDE {
        assert_eq!(rt; both(alloc, &acts(second, third, clear))?, (due, due));
    }
    Ok(())
}

/// The last version that a refresh is told, and the numbers of commits that the two turns after it are told.
fn counted_after<T: Steps>(caller: &mut T, alloc: Global) -> Result<(u64, u64, u64), LoadError> {
    let kept = load(caller, alloc)?;
    let fresh = refresh(caller, alloc, kept, None)?;
    let first = count(caller, alloc)?;
    let second = count(caller, alloc)?;
    Ok((fresh.latest, first, second))
}

fn counts(alloc: Global, rows: &[(u64, Act)]) -> Result<(u64, u64, u64), Stop> {
    let mut caller = caller_among(alloc, rows, Vec::new(alloc))?;
    let answer = counted_after(&mut caller, alloc);
    let _ = end(caller);
    Ok(answer?)
}

// The refresh makes turn 5 alone: the turn after it is told of what is ratified before turn 6, not before turn 7.
#[test]
fn a_refresh_without_a_new_version_makes_one_turn(rt: HostRuntime) -> Result<(), Stop> {
    let alloc = rt.alloc();
    assert_eq!(rt; counts(alloc, &acts(6, 7, NEVER))?, (1, 3, 4));
    Ok(())
}

// The refresh makes turn 5, which asks the catalogue, and turn 6, which reads version 2.
#[test]
fn a_refresh_over_one_new_version_makes_two_turns(rt: HostRuntime) -> Result<(), Stop> {
    let alloc = rt.alloc();
    assert_eq!(rt; counts(alloc, &acts(5, 8, NEVER))?, (2, 3, 4));
    Ok(())
}
