//! The time of a next commit, and the version at a time.

ghost use Rattle.std.specs.Prelude.{◌≤◌};

use commit_timestamps::{Halving, TimeEnd, next_time};

/// The version at a time among so many, where version v has the time 1000 + 10 v, and how many times were asked for.
fn search(len: u64, time: i64) -> (Option<u64>, u32)
    requires { len ≤ 1000000 }
{
    let mut halving = Halving::new(len, time);
    let mut asked = 0u32;
    while let Some(version) = halving.ask() {
        halving.answer(1000 + 10 * version as i64);
        asked = asked.saturating_add(1);
    }
    (halving.result(), asked)
}

/// A number of versions, a time, and the version at it.
const SEARCHES: [(u64, i64, Option<u64>); 18] = [
    (0, 1000, None),
    (1, 999, None),
    (1, 1000, Some(0)),
    (1, 1001, Some(0)),
    (2, 999, None),
    (2, 1009, Some(0)),
    (2, 1010, Some(1)),
    (3, 999, None),
    (3, 1000, Some(0)),
    (3, 1015, Some(1)),
    (3, 1020, Some(2)),
    (3, 5000, Some(2)),
    (1000000, 999, None),
    (1000000, 1000, Some(0)),
    (1000000, 5001234, Some(500023)),
    (1000000, 10000989, Some(999998)),
    (1000000, 10000990, Some(999999)),
    (1000000, i64::MAX, Some(999999)),
];

#[test]
fn finds_the_version_at_a_time(rt: HostRuntime) {
    for (len, time, want) in SEARCHES {
        if len <= 1000000 {
            let (found, asked) = search(len, time);
            assert_eq!(rt; found, want, "{time} of {len}");
            assert!(rt; asked <= 64 - len.leading_zeros(), "{asked} of {len}");
        }
    }
}

const END: TimeEnd = TimeEnd { last: i64::MAX };

/// The last time, the reading of a clock, and the next time.
const NEXT_TIMES: [(Option<i64>, i64, Result<i64, TimeEnd>); 8] = [
    (None, 1000, Ok(1000)),
    (None, i64::MAX, Ok(i64::MAX)),
    (Some(1000), 0, Ok(1001)),
    (Some(1000), 1000, Ok(1001)),
    (Some(1000), 1001, Ok(1001)),
    (Some(1000), 2000, Ok(2000)),
    (Some(i64::MAX - 1), 5, Ok(i64::MAX)),
    (Some(i64::MAX), 5, Err(END)),
];

#[test]
fn gives_the_next_time(rt: HostRuntime) {
    for (last, now, want) in NEXT_TIMES {
        assert!(rt; next_time(last, now) == want, "{now}");
    }
}
