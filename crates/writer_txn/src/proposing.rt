ghost use Rattle.std.specs.Prelude.{◌≡◌, IsTrue, length};
ghost use Rattle.log_names.specs.declared.LogName.TheVariants as name;
ghost use Rattle.table_model.specs.Log.{IsNextCommit, commit_time};
ghost use Rattle.table_model.specs.Knowledge.{IsGrown, IsValid};
ghost use Rattle.writer_txn.specs.Counting.{CountsTurns};
ghost use Rattle.writer_txn.specs.Proposing.{HasRoom, PutsOnly, ProposedNow};

use staged_commit::Composed;
use std::alloc::Global;
use table_model::{Ratify, Staged, StepFault, Steps};

/// What came of a commit that was proposed as the next version.
#[derive(Clone, Copy)]
pub(crate) enum Proposed {
    /// It is ratified.
    Done,
    /// Another commit was ratified as that version.
    Lost { latest: u64 },
    /// The table has as many versions as the limit says.
    Full { latest: u64 },
    /// The name of the staged commit was taken.
    Taken,
}

/// Stages a commit for the version after all that the caller has seen, and asks the catalogue to ratify it. It is
/// refused by a fault of the store at the staging, or for want of memory before the commit is ratified.
pub(crate) fn propose<T: Steps>(
    caller: &mut T,
    alloc: Global,
    version: u64,
    id: u128,
    commit: &Composed,
) -> Result<Proposed, StepFault>
    requires next { version ≡ length (T.known caller.old).seen }
    requires commit { IsTrue T.tells → IsNextCommit (T.known caller.old).seen commit.now.bytes.items }
    requires timed { IsTrue T.tells → commit.now.time ≡ commit_time commit.now.bytes.items }
    requires room { HasRoom version (T.known caller.old).terms }
    ensures proposed { ProposedNow T.tells version id commit.now.bytes.items (T.known caller.old) result (T.known caller.new) }
    ensures counts { CountsTurns (T.known caller.old) result (T.known caller.new) }
    ensures puts { PutsOnly (name.Staged version id) (T.known caller.old) (T.known caller.new) }
    ensures grows { IsGrown (T.known caller.old) (T.known caller.new) }
    ensures valid { IsValid (T.known caller.new) }
    ensures after { T.after caller.old caller.new }
{
    match caller.stage(alloc, version, id, commit.bytes.as_slice())? {
        Staged::Done => {}
        Staged::Taken => return Ok(Proposed::Taken),
    }
    match caller.ratify(alloc, version, id, commit.time)? {
        Ratify::Done => Ok(Proposed::Done),
        Ratify::Lost { latest } => Ok(Proposed::Lost { latest }),
        Ratify::Full { latest } => Ok(Proposed::Full { latest }),
        Ratify::Backlog { .. } => unreachable!(),
    }
}
