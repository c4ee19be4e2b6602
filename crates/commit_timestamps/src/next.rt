//! The time of the next commit.
ghost use Rattle.std.specs.Prelude.{◌≡◌, ◌↔◌, IfOk, OnErr, IfErr, Some};
ghost use Rattle.commit_timestamps.specs.Times.{next_time as time_after, end_of_time};

/// After a commit at the last instant that 64 bits can name there is no next time.
#[derive(Clone, Copy, Debug, PartialEq, Eq)]
pub struct TimeEnd {
    /// The time of the last commit, in milliseconds since 1970: 9223372036854775807.
    pub last: i64,
}

/// The time of the next commit, in milliseconds since 1970: the larger of the clock's reading `now` and one after the time `last`
/// of the last commit. A table without commits has no last time. In-commit timestamps of the Delta protocol ask that times rise.
/// `TimeEnd` comes exactly where the last time is 9223372036854775807.
pub fn next_time(last: Option<i64>, now: i64) -> Result<i64, TimeEnd>
    ensures time { IfOk result (λ t. time_after last now ≡ Some t) }
    ensures time_end { IfErr result (λ e. (last ≡ Some e.last) × (e.last ≡ end_of_time)) }
{
    match last {
        None => Ok(now),
        Some(i64::MAX) => Err(TimeEnd { last: i64::MAX }),
        Some(last) => Ok(now.max(last + 1)),
    }
}
