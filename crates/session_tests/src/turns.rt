//! Another caller's turns before each turn of a session. With no other caller the turns are numbered so:
//!
//! | | catalogue | listing | reads | staging | ratification |
//! |---|---|---|---|---|---|
//! | create | 1 | | | 2 | 3 |
//! | write | 4 | 5 | 6 | 7 | 8 |
//! | load | 9 | 10 | 11, 12 | | |

use crate::others::{
    ADDS, ADDS_LATER, Commit, FIRST, RECORDS_BELOW, RECORDS_SAME, SECOND, committed, published,
};
use crate::replies::{
    ABOVE, BEHIND, BODY, BOTH, CREATE, CREATED, LOAD, Loaded, NEXT, NUMBER_0, NUMBER_1,
    OF_ITS_APPLICATION, SAME_NUMBER, WRITE, WRITTEN,
};
use crate::sessions::{LIMITS, session_beside, text};
use lake_io::End;
use std::alloc::{AllocError, Global};
use std::test::Fail as Stop;
use table_meddler::Foreign;

/// What another caller does.
#[derive(Clone, Copy)]
enum Other {
    /// It stages and ratifies this commit.
    Commits(Commit),
    /// It publishes, reports and clears the session's version 0.
    PublishesFirst,
    /// It does so with versions 0 and 1, in order.
    PublishesBoth,
}

/// The replies to the write and to the load, and the numbers of commits and of reported versions at the end.
#[derive(Clone, Copy)]
struct Expected {
    write: &'static str,
    load: Loaded,
    commits: u64,
    reported: u64,
}

/// Nothing of the other's stands in the log, and nothing is reported.
const ALONE: Expected = Expected {
    write: NEXT,
    load: WRITTEN,
    commits: 2,
    reported: 0,
};

/// The other's commit stands below the write.
const BELOW: Expected = Expected {
    write: ABOVE,
    load: BOTH,
    commits: 3,
    reported: 0,
};

/// The other's commit came in between, and does not clash.
const BETWEEN: Expected = Expected {
    write: BEHIND,
    load: BOTH,
    commits: 3,
    reported: 0,
};

/// The other's commit came in between, and clashes.
const CLASHING: Expected = Expected {
    write: OF_ITS_APPLICATION,
    load: NUMBER_0,
    commits: 2,
    reported: 0,
};

/// The other's commit records the number of the write.
const RECORDED: Expected = Expected {
    write: SAME_NUMBER,
    load: NUMBER_1,
    commits: 2,
    reported: 0,
};

/// The other's commit stands above the write, and is loaded.
const LOADED: Expected = Expected {
    write: NEXT,
    load: BOTH,
    commits: 3,
    reported: 0,
};

/// The other's commit stands above the write, and above the version that is loaded.
const UNLOADED: Expected = Expected {
    write: NEXT,
    load: WRITTEN,
    commits: 3,
    reported: 0,
};

/// Version 0 is reported.
const FIRST_REPORTED: Expected = Expected {
    write: NEXT,
    load: WRITTEN,
    commits: 2,
    reported: 1,
};

/// Versions 0 and 1 are reported.
const BOTH_REPORTED: Expected = Expected {
    write: NEXT,
    load: WRITTEN,
    commits: 2,
    reported: 2,
};

/// What another caller does, before which turns of the session (from the first number to the second, each in a session of its own), and
/// what comes of it.
const ROWS: [(Other, u64, u64, Expected); 17] = [
    (Other::Commits(ADDS), 1, 3, ALONE),
    (Other::Commits(ADDS), 4, 4, BELOW),
    (Other::Commits(ADDS), 5, 8, BETWEEN),
    (Other::Commits(ADDS), 9, 12, ALONE),
    (Other::Commits(RECORDS_BELOW), 4, 4, BELOW),
    (Other::Commits(RECORDS_BELOW), 5, 8, CLASHING),
    (Other::Commits(RECORDS_BELOW), 9, 12, ALONE),
    (Other::Commits(RECORDS_SAME), 4, 8, RECORDED),
    (Other::Commits(RECORDS_SAME), 9, 12, ALONE),
    (Other::Commits(ADDS_LATER), 4, 8, ALONE),
    (Other::Commits(ADDS_LATER), 9, 9, LOADED),
    (Other::Commits(ADDS_LATER), 10, 12, UNLOADED),
    (Other::PublishesFirst, 1, 3, ALONE),
    (Other::PublishesFirst, 4, 12, FIRST_REPORTED),
    (Other::PublishesBoth, 4, 8, ALONE),
    (Other::PublishesBoth, 9, 12, BOTH_REPORTED),
    (Other::PublishesBoth, 13, 13, ALONE),
];

/// The turns of the other caller before this turn of the session.
fn turns(alloc: Global, other: Other, before: u64) -> Result<Vec<Foreign>, AllocError> {
    match other {
        Other::Commits(commit) => committed(alloc, before, &commit),
        Other::PublishesFirst => published(alloc, before, &[FIRST]),
        Other::PublishesBoth => published(alloc, before, &[FIRST, SECOND]),
    }
}

/// Whether a session beside these turns of others comes to what is expected.
fn comes_to(alloc: Global, others: Vec<Foreign>, expected: Expected) -> Result<bool, Stop> {
    let outcome = session_beside(alloc, LIMITS, others, &[CREATE, WRITE, LOAD])?;
    let Expected {
        write,
        load,
        commits,
        reported,
    } = expected;
    let replies = text(alloc, &[CREATED, write, load.front, BODY, load.end])?;
    Ok(
        outcome.end == End::Done
            && outcome.written.as_slice() == replies.as_slice()
            && (outcome.commits, outcome.reported) == (commits, reported),
    )
}

#[test]
fn replies_are_those_of_the_commits_one_by_one(rt: HostRuntime) -> Result<(), Stop> {
    let alloc = rt.alloc();
    for (other, first, last, expected) in ROWS {
        for before in first..=last {
            let others = turns(alloc, other, before)?;
            assert!(rt; comes_to(alloc, others, expected)?, "before turn {before}");
        }
    }
    Ok(())
}
