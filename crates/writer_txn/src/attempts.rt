ghost use Rattle.std.specs.Prelude.{◌≡◌, ◌<◌, ◌≤◌, ◌+◌, ◌++◌, ℕ, ℤ, Bool, List, IsTrue, IfOk, length, Some};
ghost use Rattle.action_types.specs.Files.{id_of};
ghost use Rattle.reconcile.specs.Replay.{Log};
ghost use Rattle.reconcile.specs.Standing.{StandsFor};
ghost use Rattle.table_rules.specs.Seen.{number_in};
ghost use Rattle.conflict_rules.specs.Conflict.{commits_of};
ghost use Rattle.staged_commit.specs.Composed.{IsAppend};
ghost use Rattle.table_model.specs.Log.{Commit};
ghost use Rattle.table_model.specs.Knowledge.{Knowledge, IsGrown, IsValid};
ghost use Rattle.snapshot_load.specs.Snapshots.{AreWinners};
ghost use Rattle.writer_txn.specs.Counting.{CountsFaults};
ghost use Rattle.writer_txn.specs.Judging.{IsReached, JudgedFrom, CaughtNow, LeavesOwn, GoesFrom};
ghost use Rattle.writer_txn.specs.Named.{NamesApart, taken_names};
ghost use Rattle.writer_txn.specs.Refusing.{of_compose};
ghost use Rattle.writer_txn.specs.Trying.{IsFrontOf, IsUnderway, AttemptStands, AttemptNow};

use crate::answers::Written;
use crate::errors::WriteError;
use crate::proposing::{Proposed, propose};
use action_types::{Action, Key, Name};
use commit_catalog::Limits;
use conflict_rules::{Clash, first_conflict_of};
use lake_io::{Clock, Ids};
use reconcile::State;
use snapshot_load::{Winners, winners};
use staged_commit::{ComposeError, Intent, compose_append};
use std::alloc::{AllocError, Global};
use table_model::Steps;

/// The table as a write takes it in.
#[derive(Drop)]
pub(crate) struct Front {
    /// The version that was the last one when the write began.
    pub base: u64,
    /// The last version that was taken in.
    pub latest: u64,
    /// The state of the table at that version.
    pub state: State,
}

/// What came of one attempt of a write.
#[derive(Drop)]
pub(crate) enum Outcome {
    /// The write has its answer.
    Answered(Written),
    /// Other commits were ratified first, and none of them stands against the write: the table with them.
    Lost(Front),
}

/// The state with further commits.
fn with_commits(state: State, commits: &[Vec<Action>]) -> Result<State, AllocError>
    ensures { (log : Log) → StandsFor state log → IfOk result (λ s. StandsFor s (log ++ commits_of commits.now)) }
{
    let mut state = state;
    for commit in commits {
        state = state.apply(commit.as_slice())?;
    }
    Ok(state)
}

/// The recorded number of the request's application, where it is at or above the request's.
pub(crate) fn reached(what: &Intent, state: &State) -> Option<i64>
    ensures { IsReached what.now (number_in state.now what.now.app) result }
{
    match state.number(what.app.as_str()) {
        Some(recorded) if what.number <= recorded => Some(recorded),
        _ => None,
    }
}

/// The table with the commits that were ratified since, or the answer where they stand against the write. An append has
/// read nothing, so its conflicts need no state.
fn judged(
    alloc: Global,
    what: &Intent,
    front: Front,
    winners: Winners,
) -> Result<Outcome, WriteError>
    requires append { IsAppend what.now }
    requires count { length winners.commits.items + front.latest ≡ winners.latest }
    ensures stands { (tells : Bool) (log : List Commit) (reading : ℤ) (last : ℕ) → IsFrontOf tells what.now front log → AreWinners tells log front.latest winners → AttemptStands tells what.now result reading last log }
    ensures judged { JudgedFrom front.base winners.latest result }
{
    let Front {
        base,
        latest,
        state,
    } = front;
    let lowest = first_conflict_of(what, &state, winners.commits.as_slice());
    let state = with_commits(state, winners.commits.as_slice())?;
    if let Some(recorded) = reached(what, &state) {
        return Ok(Outcome::Answered(Written::Already {
            recorded,
            latest: winners.latest,
        }));
    }
    match lowest {
        Some(lowest) => {
            let key = Name::from_str(alloc, lowest.clash.key)?;
            let vector = id_of(alloc, lowest.clash)?;
            Err(WriteError::Conflict {
                base,
                winner: latest + 1 + lowest.place as u64,
                rule: lowest.clash.rule,
                key,
                vector,
                latest: winners.latest,
            })
        }
        None => Ok(Outcome::Lost(Front {
            base,
            latest: winners.latest,
            state,
        })),
    }
}

/// The unique id of the vector of a clash, if there is one; refused for want of memory alone.
fn id_of(alloc: Global, clash: Clash<'_>) -> Result<Option<Name>, AllocError>
    ensures { IfOk result (λ id. id ≡ id_of clash.entry.vector) }
{
    let file = Key {
        path: clash.key,
        vector: clash.vector,
    };
    file.id(alloc)
}

/// Reads the commits that were ratified since, and judges the write by them.
fn caught_up<T: Steps>(
    caller: &mut T,
    alloc: Global,
    what: &Intent,
    front: Front,
) -> Result<Outcome, WriteError>
    requires append { IsAppend what.now }
    requires front { IsFrontOf T.tells what.now front (T.known caller.old).seen }
    ensures stands { (reading : ℤ) (last : ℕ) → AttemptStands T.tells what.now result reading last (T.known caller.new).seen }
    ensures caught { CaughtNow T.tells front.base result (T.known caller.old) (T.known caller.new) }
    ensures counts { CountsFaults T.tells (T.known caller.old) result (T.known caller.new) }
    ensures own { LeavesOwn (T.known caller.old) (T.known caller.new) }
    ensures grows { IsGrown (T.known caller.old) (T.known caller.new) }
    ensures valid { IsValid (T.known caller.new) }
    ensures after { T.after caller.old caller.new }
{
    let winners = winners(caller, alloc, front.latest)?;
    judged(alloc, what, front, winners)
}

/// Why an append was not composed, as the error of a write.
fn refused(base: u64, error: ComposeError) -> WriteError
    ensures { result ≡ of_compose base error }
{
    match error {
        ComposeError::Broken(why) => WriteError::Broken {
            base: Some(base),
            why,
        },
        ComposeError::TimeEnd { last } => WriteError::TimeEnd { base, last },
        ComposeError::TooLarge { bytes } => WriteError::TooLarge {
            base: Some(base),
            bytes,
        },
        ComposeError::Memory => WriteError::Memory,
    }
}

/// One attempt of a write: composes its commit after all that was taken in, stages it and asks the catalogue to ratify
/// it. Where another commit was first, it takes in the new commits.
pub(crate) fn attempt<T: Steps, C: Clock, U: Ids>(
    caller: &mut T,
    alloc: Global,
    clock: &mut C,
    ids: &mut U,
    what: &Intent,
    limits: Limits,
    front: Front,
) -> Result<Outcome, WriteError>
    requires append { IsAppend what.now }
    requires terms { (T.known caller.old).terms ≡ Some (record { limits = limits; tells = T.tells }) }
    requires roomy { limits.versions ≤ limits.unpublished }
    requires valid { IsValid (T.known caller.old) }
    requires front { IsFrontOf T.tells what.now front (T.known caller.old).seen }
    requires newest { front.latest + 1 ≡ length (T.known caller.old).seen }
    ensures stands { AttemptStands T.tells what.now result (C.reading clock.new) (U.last ids.new) (T.known caller.new).seen }
    ensures now { (k : Knowledge) (tried : ℕ) → IsUnderway front.base tried k (T.known caller.old) → AttemptNow T.tells front.base tried result k (T.known caller.new) }
    ensures goes { GoesFrom front.base result (T.known caller.new) }
    ensures counts { CountsFaults T.tells (T.known caller.old) result (T.known caller.new) }
    ensures steady { IsTrue C.fixed → C.reading clock.new ≡ C.reading clock.old }
    ensures names { IsTrue (U.differ ids.new) → NamesApart (U.differ ids.old) (U.given ids.old) (U.given ids.new) (taken_names result) (T.known caller.old) (T.known caller.new) }
    ensures grows { IsGrown (T.known caller.old) (T.known caller.new) }
    ensures valid { IsValid (T.known caller.new) }
    ensures after { T.after caller.old caller.new }
{
    let id = ids.next();
    let now = clock.now_ms();
    let commit = match compose_append(alloc, &front.state, what, id, now, limits.bytes) {
        Ok(commit) => commit,
        Err(error) => return Err(refused(front.base, error)),
    };
    let version = front.latest + 1;
    match propose(caller, alloc, version, id, &commit)? {
        Proposed::Done => Ok(Outcome::Answered(Written::Committed {
            version,
            base: Some(front.base),
            time: commit.time,
        })),
        Proposed::Lost { .. } => caught_up(caller, alloc, what, front),
        Proposed::Full { latest } => Err(WriteError::Full { latest }),
        Proposed::Taken => Err(WriteError::Taken {
            base: Some(front.base),
            version,
            id,
        }),
    }
}
