ghost use Rattle.std.specs.Prelude.{◌≡◌, ◌≤◌, ◌+◌, ℕ, IsTrue, IfSome, Some, length};
ghost use Rattle.staged_commit.specs.Composed.{IsAppend};
ghost use Rattle.table_model.specs.Knowledge.{Knowledge, IsGrown, IsValid};
ghost use Rattle.writer_txn.specs.Counting.{CountsFaults};
ghost use Rattle.writer_txn.specs.Moments.{WrittenNow};
ghost use Rattle.writer_txn.specs.Named.{NamesApart, taken_names};
ghost use Rattle.writer_txn.specs.Trying.{IsFrontOf, IsUnderway};
ghost use Rattle.writer_txn.specs.Writing.{WriteStands};

use crate::answers::Written;
use crate::attempts::{Front, Outcome, attempt, reached};
use crate::errors::WriteError;
use commit_catalog::Limits;
use lake_io::{Clock, Ids};
use snapshot_load::load;
use staged_commit::Intent;
use std::alloc::Global;
use table_model::Steps;

/// Attempts a write until it is answered, at most as often as the limit of attempts says.
fn attempts<T: Steps, C: Clock, U: Ids>(
    caller: &mut T,
    alloc: Global,
    clock: &mut C,
    ids: &mut U,
    what: &Intent,
    limits: Limits,
    front: Front,
) -> Result<Written, WriteError>
    requires append { IsAppend what.now }
    requires terms { (T.known caller.old).terms ≡ Some (record { limits = limits; tells = T.tells }) }
    requires roomy { limits.versions ≤ limits.unpublished }
    requires valid { IsValid (T.known caller.old) }
    requires front { IsFrontOf T.tells what.now front (T.known caller.old).seen }
    requires newest { front.latest + 1 ≡ length (T.known caller.old).seen }
    ensures stands { WriteStands T.tells what.now result (C.reading clock.new) (U.last ids.new) (T.known caller.new).seen }
    ensures now { (k : Knowledge) → IsUnderway front.base 0 k (T.known caller.old) → WrittenNow T.tells result k (T.known caller.new) }
    ensures counts { CountsFaults T.tells (T.known caller.old) result (T.known caller.new) }
    ensures steady { IsTrue C.fixed → C.reading clock.new ≡ C.reading clock.old }
    ensures names { IsTrue (U.differ ids.new) → NamesApart (U.differ ids.old) (U.given ids.old) (U.given ids.new) (taken_names result) (T.known caller.old) (T.known caller.new) }
    ensures grows { IsGrown (T.known caller.old) (T.known caller.new) }
    ensures valid { IsValid (T.known caller.new) }
    ensures after { T.after caller.old caller.new }
{
    let mut front = front;
    for tried in 0..limits.attempts {
        match attempt(caller, alloc, clock, ids, what, limits, front)? {
            Outcome::Answered(written) => return Ok(written),
            Outcome::Lost(next) => front = next,
        }
    }
    Err(WriteError::Contended {
        attempts: limits.attempts,
        latest: front.latest,
    })
}

/// Writes to a table: composes a commit at its last version, stages it and asks the catalogue to ratify it as the next
/// one (Delta protocol, "Catalog-managed Tables"). Where another commit was ratified first, it reads the new commits and
/// tries again, unless one of them conflicts with the write.
///
/// The answers come in this order: `NoTable`; `Fault` of the load; `Already`; and in each attempt `Broken`, `TimeEnd`,
/// `TooLarge`; `Fault` and `Taken` at the staging; `Full`. After a lost race: `Fault` of the reading, `Already`,
/// `Conflict`, and `Contended` where as many tries were refused as the limit of attempts says. `Memory` may come at each
/// point before the commit is ratified, and at none after.
pub fn write<T: Steps, C: Clock, U: Ids>(
    caller: &mut T,
    alloc: Global,
    clock: &mut C,
    ids: &mut U,
    what: &Intent,
) -> Result<Written, WriteError>
    requires append { IsAppend what.now }
    // the table is full before its backlog is
    requires roomy { IfSome (T.known caller.old).terms (λ t. t.limits.versions ≤ t.limits.unpublished) }
    ensures stands { WriteStands T.tells what.now result (C.reading clock.new) (U.last ids.new) (T.known caller.new).seen }
    ensures now { WrittenNow T.tells result (T.known caller.old) (T.known caller.new) }
    ensures counts { CountsFaults T.tells (T.known caller.old) result (T.known caller.new) }
    ensures steady { IsTrue C.fixed → C.reading clock.new ≡ C.reading clock.old }
    ensures names { IsTrue (U.differ ids.new) → NamesApart (U.differ ids.old) (U.given ids.old) (U.given ids.new) (taken_names result) (T.known caller.old) (T.known caller.new) }
    ensures grows { IsGrown (T.known caller.old) (T.known caller.new) }
    ensures valid { IsValid (T.known caller.new) }
    ensures after { T.after caller.old caller.new }
{
    let limits = caller.limits();
    let snapshot = load(caller, alloc)?;
    if let Some(recorded) = reached(what, &snapshot.state) {
        return Ok(Written::Already {
            recorded,
            latest: snapshot.latest,
        });
    }
    let front = Front {
        base: snapshot.latest,
        latest: snapshot.latest,
        state: snapshot.state,
    };
    attempts(caller, alloc, clock, ids, what, limits, front)
}
