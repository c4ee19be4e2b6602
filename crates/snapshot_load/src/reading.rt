ghost use Rattle.std.specs.Prelude.{◌≡◌, ◌<◌, ◌≤◌, ◌+◌, ℕ, List, Bool, IsTrue, IfOk, IfErr, length, Contains};
ghost use Rattle.log_names.specs.declared.LogName.TheVariants as name;
ghost use Rattle.table_model.specs.Log.{commit_at, IsSound};
ghost use Rattle.table_model.specs.Knowledge.{Knowledge, IsGrown, IsValid};
ghost use Rattle.action_json.specs.Text.{actions_of};
ghost use Rattle.snapshot_load.specs.Causes.{ReadCause, CountsFaults};
ghost use Rattle.snapshot_load.specs.Reading.{OnlyReads, IsCatalogue, IsPlaceOf, IsFileOf};
ghost use Rattle.snapshot_load.specs.Texts.{IsReadAs, IsTimeRead};

use crate::errors::LoadError;
use crate::texts::{commit_actions, own_time};
use action_types::Action;
use std::alloc::Global;
use table_model::{Bytes, Commits, LogName, Spot, Steps};

/// Where the commit of a version is read first.
#[derive(Clone, Copy)]
pub(crate) enum Place {
    /// Its published file.
    Published,
    /// The file staged under this id; where that is gone, the published one.
    Staged(u128),
}

/// A commit's file as it was read.
#[derive(Drop)]
pub(crate) struct CommitFile {
    pub(crate) name: LogName,
    pub(crate) bytes: Vec<u8>,
}

/// So many published files, from version 0 on without a gap, does a listing show.
pub(crate) fn leading_published(names: &[LogName]) -> u64
    ensures { (version : ℕ) → version < result → Contains names.now (name.Published version) }
{
    let mut count = 0;
    for listed in names {
        if is_published(listed, count) {
            count += 1;
        }
    }
    count
}

/// Whether the name is the published one of that version.
fn is_published(listed: &LogName, version: u64) -> bool
    ensures { IsTrue result → listed.now ≡ name.Published version }
{
    match listed {
        LogName::Published(found) => *found == version,
        _ => false,
    }
}

/// Where to read the commit of a ratified version first: its published file where the version is reported or below
/// `listed`, else its staged file.
pub(crate) fn place_of(commits: &Commits, listed: u64, version: u64) -> Place
    requires staged { length commits.now.staged.items + commits.now.reported ≡ commits.now.count }
    requires ratified { version < commits.now.count }
    ensures { (tells : Bool) (k : Knowledge) → IsCatalogue commits.now k → (IsTrue tells → listed ≤ k.published) → IsPlaceOf tells k version result }
{
    if version < commits.reported || version < listed {
        return Place::Published;
    }
    Place::Staged(commits.staged[(version - commits.reported) as usize].id)
}

/// Reads the published file of a version, which the caller knows to be published.
fn published_file<T: Steps>(
    caller: &mut T,
    alloc: Global,
    version: u64,
) -> Result<CommitFile, LoadError>
    requires ratified { version < length (T.known caller.old).seen }
    requires published { IsTrue T.tells → version < (T.known caller.old).published }
    ensures file { IfOk result (IsFileOf T.tells (T.known caller.new) version) }
    ensures cause { IfErr result (λ e. ReadCause T.tells e (T.known caller.old) (T.known caller.new)) }
    ensures counts { CountsFaults T.tells (T.known caller.old) result (T.known caller.new) }
    ensures reads { OnlyReads 1 (T.known caller.old) (T.known caller.new) }
    ensures grows { IsGrown (T.known caller.old) (T.known caller.new) }
    ensures valid { IsValid (T.known caller.new) }
    ensures after { T.after caller.old caller.new }
{
    let name = LogName::Published(version);
    match caller.get(alloc, name) {
        Ok(Bytes::Whole(bytes)) => Ok(CommitFile { name, bytes }),
        Ok(Bytes::Absent) => Err(LoadError::Fault {
            spot: Spot::File(name),
        }),
        Err(fault) => Err(LoadError::from(fault)),
    }
}

/// Reads the staged file of a version, and where that is gone the published one.
fn staged_file<T: Steps>(
    caller: &mut T,
    alloc: Global,
    version: u64,
    id: u128,
) -> Result<CommitFile, LoadError>
    requires ratified { version < length (T.known caller.old).seen }
    requires under { id ≡ (commit_at (T.known caller.old).seen version).id }
    ensures file { IfOk result (IsFileOf T.tells (T.known caller.new) version) }
    ensures cause { IfErr result (λ e. ReadCause T.tells e (T.known caller.old) (T.known caller.new)) }
    ensures counts { CountsFaults T.tells (T.known caller.old) result (T.known caller.new) }
    ensures reads { OnlyReads 2 (T.known caller.old) (T.known caller.new) }
    ensures grows { IsGrown (T.known caller.old) (T.known caller.new) }
    ensures valid { IsValid (T.known caller.new) }
    ensures after { T.after caller.old caller.new }
{
    let name = LogName::Staged(version, id);
    match caller.get(alloc, name) {
        Ok(Bytes::Whole(bytes)) => Ok(CommitFile { name, bytes }),
        Ok(Bytes::Absent) => published_file(caller, alloc, version),
        Err(fault) => Err(LoadError::from(fault)),
    }
}

/// Reads the file of a version at its place.
fn commit_file<T: Steps>(
    caller: &mut T,
    alloc: Global,
    version: u64,
    place: Place,
) -> Result<CommitFile, LoadError>
    requires ratified { version < length (T.known caller.old).seen }
    requires place { IsPlaceOf T.tells (T.known caller.old) version place }
    ensures file { IfOk result (IsFileOf T.tells (T.known caller.new) version) }
    ensures cause { IfErr result (λ e. ReadCause T.tells e (T.known caller.old) (T.known caller.new)) }
    ensures counts { CountsFaults T.tells (T.known caller.old) result (T.known caller.new) }
    ensures reads { OnlyReads 2 (T.known caller.old) (T.known caller.new) }
    ensures grows { IsGrown (T.known caller.old) (T.known caller.new) }
    ensures valid { IsValid (T.known caller.new) }
    ensures after { T.after caller.old caller.new }
{
    match place {
        Place::Published => published_file(caller, alloc, version),
        Place::Staged(id) => staged_file(caller, alloc, version, id),
    }
}

/// The actions of the commit of a ratified version, by at most two turns that read a file. It fails only on a fault of
/// the store, for want of memory, and, over a store that does not tell what it holds, where the file is absent or has
/// no commit in it.
pub(crate) fn version_actions<T: Steps>(
    caller: &mut T,
    alloc: Global,
    version: u64,
    place: Place,
) -> Result<Vec<Action>, LoadError>
    requires ratified { version < length (T.known caller.old).seen }
    requires sound { IsTrue T.tells → IsSound (T.known caller.old).seen }
    requires place { IsPlaceOf T.tells (T.known caller.old) version place }
    ensures actions { IfOk result (λ v. IsTrue T.tells → v.items ≡ actions_of (commit_at (T.known caller.new).seen version).bytes) }
    ensures read { IfOk result (λ v. IsReadAs T.tells (T.known caller.new).seen version v.items) }
    ensures cause { IfErr result (λ e. ReadCause T.tells e (T.known caller.old) (T.known caller.new)) }
    ensures counts { CountsFaults T.tells (T.known caller.old) result (T.known caller.new) }
    ensures reads { OnlyReads 2 (T.known caller.old) (T.known caller.new) }
    ensures grows { IsGrown (T.known caller.old) (T.known caller.new) }
    ensures valid { IsValid (T.known caller.new) }
    ensures after { T.after caller.old caller.new }
{
    let file = commit_file(caller, alloc, version, place)?;
    match commit_actions(alloc, file.bytes.as_slice()) {
        Ok(Some(actions)) => Ok(actions),
        Ok(None) => Err(LoadError::Fault {
            spot: Spot::File(file.name),
        }),
        Err(error) => Err(LoadError::from(error)),
    }
}

/// The time of the commit of a ratified version, in milliseconds since 1970 UTC, by at most two turns that read a file.
pub(crate) fn version_time<T: Steps>(
    caller: &mut T,
    alloc: Global,
    version: u64,
    place: Place,
) -> Result<i64, LoadError>
    requires ratified { version < length (T.known caller.old).seen }
    requires sound { IsTrue T.tells → IsSound (T.known caller.old).seen }
    requires place { IsPlaceOf T.tells (T.known caller.old) version place }
    ensures time { IfOk result (λ t. IsTimeRead T.tells (T.known caller.new).seen version t) }
    ensures cause { IfErr result (λ e. ReadCause T.tells e (T.known caller.old) (T.known caller.new)) }
    ensures counts { CountsFaults T.tells (T.known caller.old) result (T.known caller.new) }
    ensures reads { OnlyReads 2 (T.known caller.old) (T.known caller.new) }
    ensures grows { IsGrown (T.known caller.old) (T.known caller.new) }
    ensures valid { IsValid (T.known caller.new) }
    ensures after { T.after caller.old caller.new }
{
    let actions = version_actions(caller, alloc, version, place)?;
    Ok(own_time(actions.as_slice()).unwrap_or(0))
}
