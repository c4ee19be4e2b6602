ghost use Rattle.std.specs.Prelude.{◌≡◌, ◌<◌, ◌≤◌, ◌+◌, ℕ, List, Bool, true, IsTrue, IfOk, IfErr, OnOk, length};
ghost use Rattle.log_names.specs.declared.LogName.TheVariants as name;
ghost use Rattle.table_model.specs.Knowledge.{IsGrown, IsValid};
ghost use Rattle.table_model.specs.Turns.{TellsTurn};
ghost use Rattle.publisher.specs.Causes.{TurnCause, ClearCause, CountsFaults, CountsClear, UnlessMemory};
ghost use Rattle.publisher.specs.Publishing.{HasCleared, HasAsked, ClearsFile, ClearsNames, IsClearableAs, OnlyClears, OnlyListsAndClears};
ghost use Rattle.publisher.specs.Worlds.{ClearTurns, Clears, IsGone, AreCleared};

use crate::answers::{ClearedAll, PublishError};
use std::alloc::Global;
use table_model::{Gone, LogName, Steps};

/// The version and the id of a staged file that may be cleared: its version is below the reported number.
fn clearable(listed: &LogName, reported: u64) -> Option<(u64, u128)>
    ensures { IsClearableAs reported listed.now result }
{
    match listed {
        LogName::Staged(version, id) => {
            if *version < reported {
                Some((*version, *id))
            } else {
                None
            }
        }
        _ => None,
    }
}

/// Clears the staged file of a reported version; 1 where it stood, else 0.
fn clear_file<T: Steps>(
    caller: &mut T,
    alloc: Global,
    version: u64,
    id: u128,
) -> Result<u64, PublishError>
    requires { version < (T.known caller.old).reported }
    ensures cleared { IfOk result (λ n. ClearsFile version id n (T.known caller.old) (T.known caller.new)) }
    ensures small { IfOk result (λ n. n ≤ 1) }
    ensures cause { IfErr result (λ e. TurnCause true e (T.known caller.old) (T.known caller.new)) }
    ensures counts { CountsFaults true (T.known caller.old) result (T.known caller.new) }
    ensures turns { OnlyClears (T.known caller.old) (T.known caller.new) }
    ensures grows { IsGrown (T.known caller.old) (T.known caller.new) }
    ensures valid { IsValid (T.known caller.new) }
    ensures after { T.after caller.old caller.new }
    ensures world { TellsTurn (Clears (version + 1)) (T.world caller.old) (T.world caller.new) }
    ensures gone { OnOk result (IsGone (name.Staged version id) (T.world caller.new)) }
{
    match caller.clear(alloc, version, id) {
        Ok(Gone::Done) => Ok(1),
        Ok(Gone::Absent) => Ok(0),
        Err(fault) => Err(PublishError::from(fault)),
    }
}

/// Clears those of these files that are staged files of versions below the reported number, in order; the answer is how
/// many of them stood.
fn clear_listed<T: Steps>(
    caller: &mut T,
    alloc: Global,
    names: &[LogName],
    reported: u64,
) -> Result<u64, PublishError>
    requires reported { reported ≤ (T.known caller.old).reported }
    requires valid { IsValid (T.known caller.old) }
    ensures cleared { IfOk result (λ n. ClearsNames reported names.now n (T.known caller.old) (T.known caller.new)) }
    ensures cause { IfErr result (λ e. TurnCause true e (T.known caller.old) (T.known caller.new)) }
    ensures counts { CountsFaults true (T.known caller.old) result (T.known caller.new) }
    ensures turns { OnlyClears (T.known caller.old) (T.known caller.new) }
    ensures grows { IsGrown (T.known caller.old) (T.known caller.new) }
    ensures valid { IsValid (T.known caller.new) }
    ensures after { T.after caller.old caller.new }
    ensures world { TellsTurn (Clears reported) (T.world caller.old) (T.world caller.new) }
    ensures gone { OnOk result (AreCleared reported (length names.now) names.now (T.world caller.new)) }
{
    let mut cleared = 0;
    for listed in names {
        let Some((version, id)) = clearable(listed, reported) else {
            continue;
        };
        cleared += clear_file(caller, alloc, version, id)?;
    }
    Ok(cleared)
}

/// Clears every staged file whose version is reported, whether it was ratified or not: one catalogue turn, one turn
/// that lists the folder, and one for each such file (Delta protocol, "Catalog-managed Tables", staged commits).
///
/// `NoTable` comes exactly where the catalogue turn finds no commit. Of a table that has one it fails only on a fault
/// of the store, which is named by its spot, or for want of memory. The files that were cleared before stay so.
pub fn clear_all<T: Steps>(caller: &mut T, alloc: Global) -> Result<ClearedAll, PublishError>
    ensures cleared { IfOk result (λ a. HasCleared a (T.known caller.old) (T.known caller.new)) }
    ensures cause { IfErr result (λ e. ClearCause e (T.known caller.old) (T.known caller.new)) }
    ensures counts { CountsClear (T.known caller.old) result (T.known caller.new) }
    ensures asked { UnlessMemory result (HasAsked (T.known caller.new).reported (T.known caller.old) (T.known caller.new)) }
    ensures turns { OnlyListsAndClears (T.known caller.old) (T.known caller.new) }
    ensures grows { IsGrown (T.known caller.old) (T.known caller.new) }
    ensures valid { IsValid (T.known caller.new) }
    ensures after { T.after caller.old caller.new }
    ensures world { TellsTurn (ClearTurns result) (T.world caller.old) (T.world caller.new) }
{
    let commits = caller.commits(alloc)?;
    if commits.count == 0 {
        return Err(PublishError::NoTable);
    }
    let names = caller.list(alloc)?;
    let cleared = clear_listed(caller, alloc, names.as_slice(), commits.reported)?;
    Ok(ClearedAll {
        cleared,
        latest: commits.count - 1,
    })
}
