ghost use Rattle.std.specs.Prelude.{◌≡◌, ◌<◌, ◌≤◌, ◌+◌, ◌-◌, ◌*◌, ℕ, List, Bool, IsTrue, IfOk, IfErr, length};
ghost use Rattle.table_model.specs.Log.{IsSound};
ghost use Rattle.table_model.specs.Knowledge.{IsGrown, IsValid};
ghost use Rattle.snapshot_load.specs.Causes.{LoadCause, ReadCause, CountsFaults, UnlessMemory};
ghost use Rattle.snapshot_load.specs.Reading.{OnlyReads, OnlyLoads, HasAsked, IsCatalogue};
ghost use Rattle.snapshot_load.specs.Snapshots.{IsSnapshot};
ghost use Rattle.snapshot_load.specs.Texts.{IsReplayOf, IsReadSnapshot};

use crate::errors::LoadError;
use crate::reading::{leading_published, place_of, version_actions};
use reconcile::State;
use std::alloc::Global;
use table_model::{Commits, Snapshot, Steps};

/// Applies the commits of the versions from `from` and below `end`, in order, to a state that stands for those below
/// `from`.
fn replay<T: Steps>(
    caller: &mut T,
    alloc: Global,
    commits: &Commits,
    listed: u64,
    base: State,
    from: u64,
    end: u64,
) -> Result<State, LoadError>
    requires catalogue { IsCatalogue commits.now (T.known caller.old) }
    requires listed { IsTrue T.tells → listed ≤ (T.known caller.old).published }
    requires sound { IsTrue T.tells → IsSound (T.known caller.old).seen }
    requires valid { IsValid (T.known caller.old) }
    requires base { IsReplayOf T.tells (T.known caller.old).seen from base }
    requires from { from ≤ end }
    requires end { end ≤ commits.now.count }
    ensures state { IfOk result (IsReplayOf T.tells (T.known caller.new).seen end) }
    ensures cause { IfErr result (λ e. ReadCause T.tells e (T.known caller.old) (T.known caller.new)) }
    ensures counts { CountsFaults T.tells (T.known caller.old) result (T.known caller.new) }
    ensures reads { OnlyReads (2 * (end - from)) (T.known caller.old) (T.known caller.new) }
    ensures grows { IsGrown (T.known caller.old) (T.known caller.new) }
    ensures valid { IsValid (T.known caller.new) }
    ensures after { T.after caller.old caller.new }
{
    let mut state = base;
    for version in from..end {
        let actions = version_actions(caller, alloc, version, place_of(commits, listed, version))?;
        state = state.apply_owned(actions)?;
    }
    Ok(state)
}

/// The snapshot of a ratified version, read from a state that stands for the versions below `from` on.
pub(crate) fn snapshot_from<T: Steps>(
    caller: &mut T,
    alloc: Global,
    commits: &Commits,
    listed: u64,
    base: State,
    from: u64,
    version: u64,
) -> Result<Snapshot, LoadError>
    requires catalogue { IsCatalogue commits.now (T.known caller.old) }
    requires listed { IsTrue T.tells → listed ≤ (T.known caller.old).published }
    requires sound { IsTrue T.tells → IsSound (T.known caller.old).seen }
    requires valid { IsValid (T.known caller.old) }
    requires base { IsReplayOf T.tells (T.known caller.old).seen from base }
    requires from { from ≤ version + 1 }
    requires ratified { version < commits.now.count }
    ensures snapshot { IfOk result (IsSnapshot T.tells (T.known caller.new).seen) }
    ensures version { IfOk result (λ s. s.version ≡ version) }
    ensures read { IfOk result (IsReadSnapshot T.tells (T.known caller.new).seen) }
    ensures cause { IfErr result (λ e. ReadCause T.tells e (T.known caller.old) (T.known caller.new)) }
    ensures counts { CountsFaults T.tells (T.known caller.old) result (T.known caller.new) }
    ensures reads { OnlyReads (2 * (version + 1 - from)) (T.known caller.old) (T.known caller.new) }
    ensures grows { IsGrown (T.known caller.old) (T.known caller.new) }
    ensures valid { IsValid (T.known caller.new) }
    ensures after { T.after caller.old caller.new }
{
    let count = commits.count;
    let state = replay(caller, alloc, commits, listed, base, from, version + 1)?;
    let time = state.time().unwrap_or(0);
    Ok(Snapshot {
        version,
        latest: count - 1,
        time,
        state,
    })
}

/// Loads the last version of a table: one catalogue turn, one turn that lists the folder, and at most two that read a
/// file for each version (Delta protocol, "Action Reconciliation" and "Catalog-managed Tables").
///
/// `NoTable` comes exactly where the catalogue turn finds no commit. Of a table that has one the load fails only on a
/// fault of the store, which is named by its spot, or for want of memory; over a store that does not tell what it holds
/// also where the file of a version is absent or has no commit in it. `Memory` may also come before that turn.
pub fn load<T: Steps>(caller: &mut T, alloc: Global) -> Result<Snapshot, LoadError>
    ensures loaded { IfOk result (IsSnapshot T.tells (T.known caller.new).seen) }
    ensures newest { IfOk result (λ s. s.version ≡ s.latest) }
    ensures read { IfOk result (IsReadSnapshot T.tells (T.known caller.new).seen) }
    ensures cause { IfErr result (λ e. LoadCause T.tells e (T.known caller.old) (T.known caller.new)) }
    ensures counts { CountsFaults T.tells (T.known caller.old) result (T.known caller.new) }
    ensures asked { UnlessMemory result (HasAsked (T.known caller.old) (T.known caller.new)) }
    ensures turns { OnlyLoads 1 (length (T.known caller.new).seen) (T.known caller.old) (T.known caller.new) }
    ensures grows { IsGrown (T.known caller.old) (T.known caller.new) }
    ensures valid { IsValid (T.known caller.new) }
    ensures after { T.after caller.old caller.new }
{
    let _ = caller.limits();
    let commits = caller.commits(alloc)?;
    if commits.count == 0 {
        return Err(LoadError::NoTable);
    }
    let names = caller.list(alloc)?;
    let listed = leading_published(names.as_slice());
    let latest = commits.count - 1;
    snapshot_from(
        caller,
        alloc,
        &commits,
        listed,
        State::empty(alloc),
        0,
        latest,
    )
}
