ghost use Rattle.std.specs.Prelude.{◌≡◌, ◌<◌, ◌≤◌, ◌+◌, ◌-◌, ◌*◌, ℕ, List, Bool, IsTrue, IfOk, IfErr, length, vec_len, map, drop};
ghost use Rattle.table_model.specs.Log.{history, IsSound};
ghost use Rattle.table_model.specs.Knowledge.{IsGrown, IsValid};
ghost use Rattle.snapshot_load.specs.Causes.{ReadCause, CountsFaults, UnlessMemory};
ghost use Rattle.snapshot_load.specs.Reading.{OnlyReads, OnlyLoads, HasAsked, IsCatalogue};
ghost use Rattle.snapshot_load.specs.Snapshots.{AreWinners};
ghost use Rattle.snapshot_load.specs.Texts.{AreActionsRead};

use crate::answers::Winners;
use crate::errors::LoadError;
use crate::reading::{place_of, version_actions};
use action_types::Action;
use std::alloc::Global;
use table_model::{Commits, Steps};

/// The actions of each commit above a version, in order.
fn actions_above<T: Steps>(
    caller: &mut T,
    alloc: Global,
    commits: &Commits,
    after: u64,
) -> Result<Vec<Vec<Action>>, LoadError>
    requires catalogue { IsCatalogue commits.now (T.known caller.old) }
    requires seen { after < commits.now.count }
    requires sound { IsTrue T.tells → IsSound (T.known caller.old).seen }
    requires valid { IsValid (T.known caller.old) }
    ensures count { IfOk result (λ v. vec_len v + (after + 1) ≡ commits.now.count) }
    ensures actions { IfOk result (λ v. IsTrue T.tells
        → map (λ a. a.items) v.items ≡ history (drop (after + 1) (T.known caller.new).seen)) }
    ensures read { IfOk result (λ v. AreActionsRead T.tells (T.known caller.new).seen (after + 1)
        (vec_len v) (map (λ a. a.items) v.items)) }
    ensures cause { IfErr result (λ e. ReadCause T.tells e (T.known caller.old) (T.known caller.new)) }
    ensures counts { CountsFaults T.tells (T.known caller.old) result (T.known caller.new) }
    ensures reads { OnlyReads (2 * (commits.now.count - (after + 1))) (T.known caller.old) (T.known caller.new) }
    ensures grows { IsGrown (T.known caller.old) (T.known caller.new) }
    ensures valid { IsValid (T.known caller.new) }
    ensures after { T.after caller.old caller.new }
{
    let count = commits.count;
    let mut winners = Vec::new(alloc);
    for version in after + 1..count {
        let actions = version_actions(caller, alloc, version, place_of(commits, 0, version))?;
        winners.push(actions)?;
    }
    Ok(winners)
}

/// The commits above a version that the caller has seen: one catalogue turn, and at most two turns that read a file for
/// each. It fails only on a fault of the store, which is named by its spot, or for want of memory; over a store that
/// does not tell what it holds also where the file of a version is absent or has no commit in it.
pub fn winners<T: Steps>(caller: &mut T, alloc: Global, after: u64) -> Result<Winners, LoadError>
    requires { after < length (T.known caller.old).seen }
    ensures winners { IfOk result (AreWinners T.tells (T.known caller.new).seen after) }
    ensures read { IfOk result (λ w. AreActionsRead T.tells (T.known caller.new).seen (after + 1)
        (vec_len w.commits) (map (λ a. a.items) w.commits.items)) }
    ensures cause { IfErr result (λ e. ReadCause T.tells e (T.known caller.old) (T.known caller.new)) }
    ensures counts { CountsFaults T.tells (T.known caller.old) result (T.known caller.new) }
    ensures asked { UnlessMemory result (HasAsked (T.known caller.old) (T.known caller.new)) }
    ensures turns { OnlyLoads 0 (length (T.known caller.new).seen - (after + 1))
        (T.known caller.old) (T.known caller.new) }
    ensures grows { IsGrown (T.known caller.old) (T.known caller.new) }
    ensures valid { IsValid (T.known caller.new) }
    ensures after { T.after caller.old caller.new }
{
    let _ = caller.limits();
    let commits = caller.commits(alloc)?;
    let winners = actions_above(caller, alloc, &commits, after)?;
    Ok(Winners {
        latest: commits.count - 1,
        commits: winners,
    })
}
