ghost use Rattle.std.specs.Prelude.{◌≡◌, ◌<◌, ◌≤◌, ◌+◌, ◌-◌, ℕ, List, Option, Bool, IsTrue, IfOk, IfErr, length, max, min};
ghost use Rattle.table_model.specs.Knowledge.{IsGrown, IsValid};
ghost use Rattle.snapshot_load.specs.Causes.{ReadCause, CountsFaults, UnlessMemory};
ghost use Rattle.snapshot_load.specs.Reading.{OnlyLoads, HasAsked};
ghost use Rattle.snapshot_load.specs.Snapshots.{IsSnapshot, version_upto};
ghost use Rattle.snapshot_load.specs.Texts.{IsKept, IsReadSnapshot};

use crate::errors::LoadError;
use crate::loads::snapshot_from;
use std::alloc::Global;
use table_model::{Snapshot, Steps};

/// The version up to which a snapshot of version `kept` is brought.
fn last_wanted(kept: u64, last: Option<u64>, latest: u64) -> u64
    ensures { result ≡ version_upto kept last latest }
{
    match last {
        Some(last) => kept.max(last.min(latest)),
        None => latest,
    }
}

/// Brings a snapshot that was kept up to the last version of the table, or to version `last` where that is given and
/// not above it: one catalogue turn, no listing, and at most two turns that read a file for each version above the
/// kept one. A snapshot whose version is not below `last` keeps its state. The kept state is moved into the answer.
///
/// The kept snapshot is one of the log that the caller has seen, as each load leaves it. The answer is right as that of
/// a load is. It fails only on a fault of the store, which is named by its spot, or for want of memory; over a store
/// that does not tell what it holds also where the file of a version is absent or has no commit in it. `Memory` may
/// also come before the catalogue turn.
pub fn refresh<T: Steps>(
    caller: &mut T,
    alloc: Global,
    kept: Snapshot,
    last: Option<u64>,
) -> Result<Snapshot, LoadError>
    requires { IsKept T.tells (T.known caller.old).seen kept }
    ensures refreshed { IfOk result (IsSnapshot T.tells (T.known caller.new).seen) }
    ensures version { IfOk result (λ s. s.version ≡ version_upto kept.version last s.latest) }
    ensures read { IfOk result (IsReadSnapshot T.tells (T.known caller.new).seen) }
    ensures cause { IfErr result (λ e. ReadCause T.tells e (T.known caller.old) (T.known caller.new)) }
    ensures counts { CountsFaults T.tells (T.known caller.old) result (T.known caller.new) }
    ensures asked { UnlessMemory result (HasAsked (T.known caller.old) (T.known caller.new)) }
    ensures turns { OnlyLoads 0 (version_upto kept.version last (length (T.known caller.new).seen - 1) - kept.version)
        (T.known caller.old) (T.known caller.new) }
    ensures grows { IsGrown (T.known caller.old) (T.known caller.new) }
    ensures valid { IsValid (T.known caller.new) }
    ensures after { T.after caller.old caller.new }
{
    let _ = caller.limits();
    let commits = caller.commits(alloc)?;
    let latest = commits.count - 1;
    let version = last_wanted(kept.version, last, latest);
    let from = kept.version + 1;
    snapshot_from(caller, alloc, &commits, 0, kept.state, from, version)
}
