ghost use Rattle.std.specs.Prelude.{◌≡◌, ◌≤ℤ◌, pos, [], IsTrue, IfOk, IfErr};
ghost use Rattle.staged_commit.specs.Answers.{IsComposed};
ghost use Rattle.staged_commit.specs.Composed.{IsCreate, composed_create};
ghost use Rattle.table_model.specs.Knowledge.{IsGrown, IsValid};
ghost use Rattle.writer_txn.specs.Counting.{CountsFaults};
ghost use Rattle.writer_txn.specs.Creating.{CreateStands};
ghost use Rattle.writer_txn.specs.Moments.{WrittenNow};
ghost use Rattle.writer_txn.specs.Named.{NamesApart, taken_names};
ghost use Rattle.writer_txn.specs.Refusing.{CreateRefused};

use crate::answers::Written;
use crate::errors::WriteError;
use crate::proposing::{Proposed, propose};
use lake_io::{Clock, Ids};
use staged_commit::{ComposeError, Composed, Create, compose_first};
use std::alloc::Global;
use table_model::Steps;

/// The first commit of a table, or why it is not composed.
fn composed(
    alloc: Global,
    what: &Create,
    id: u128,
    now: i64,
    limit: u64,
) -> Result<Composed, WriteError>
    requires now { pos 0 ≤ℤ now }
    requires valid { IsCreate what.now }
    ensures ok { IfOk result (λ c. IsComposed [] (composed_create what.now id now) now limit c) }
    ensures err { IfErr result (λ e. CreateRefused what.now id now limit e) }
{
    match compose_first(alloc, what, id, now, limit) {
        Ok(commit) => Ok(commit),
        Err(ComposeError::Broken(why)) => Err(WriteError::Broken { base: None, why }),
        Err(ComposeError::TimeEnd { .. }) => unreachable!(),
        Err(ComposeError::TooLarge { bytes }) => Err(WriteError::TooLarge { base: None, bytes }),
        Err(ComposeError::Memory) => Err(WriteError::Memory),
    }
}

/// Makes a table: composes its first commit, stages it and asks the catalogue to ratify it as version 0 (Delta
/// protocol, "Catalog-managed Tables").
///
/// `Exists` comes where the first catalogue turn finds a commit, and where another first commit was ratified in the
/// meantime. Else the answers come in this order: `Broken`, `TooLarge`, `Fault` and `Taken` at the staging. `Memory` may
/// come at each point before the commit is ratified, and at none after.
pub fn create<T: Steps, C: Clock, U: Ids>(
    caller: &mut T,
    alloc: Global,
    clock: &mut C,
    ids: &mut U,
    what: &Create,
) -> Result<Written, WriteError>
    requires { IsCreate what.now }
    ensures stands { CreateStands T.tells what.now result (C.reading clock.new) (U.last ids.new) (T.known caller.new).seen }
    ensures now { WrittenNow T.tells result (T.known caller.old) (T.known caller.new) }
    ensures counts { CountsFaults T.tells (T.known caller.old) result (T.known caller.new) }
    ensures steady { IsTrue C.fixed → C.reading clock.new ≡ C.reading clock.old }
    ensures names { IsTrue (U.differ ids.new) → NamesApart (U.differ ids.old) (U.given ids.old) (U.given ids.new) (taken_names result) (T.known caller.old) (T.known caller.new) }
    ensures grows { IsGrown (T.known caller.old) (T.known caller.new) }
    ensures valid { IsValid (T.known caller.new) }
    ensures after { T.after caller.old caller.new }
{
    let limits = caller.limits();
    let commits = caller.commits(alloc)?;
    if commits.count > 0 {
        return Err(WriteError::Exists {
            latest: commits.count - 1,
        });
    }
    let id = ids.next();
    let now = clock.now_ms();
    let commit = composed(alloc, what, id, now, limits.bytes)?;
    match propose(caller, alloc, 0, id, &commit)? {
        Proposed::Done => Ok(Written::Committed {
            version: 0,
            base: None,
            time: commit.time,
        }),
        Proposed::Lost { latest } => Err(WriteError::Exists { latest }),
        Proposed::Full { .. } => unreachable!(),
        Proposed::Taken => Err(WriteError::Taken {
            base: None,
            version: 0,
            id,
        }),
    }
}
