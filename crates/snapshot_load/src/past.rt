ghost use Rattle.std.specs.Prelude.{◌≡◌, ◌<◌, ◌≤◌, ◌+◌, ◌-◌, ◌*◌, ◌^◌, ℕ, ℤ, List, Bool, IsTrue, Option, Some, IfSome, IfOk, IfErr, length, min};
ghost use Rattle.commit_timestamps.specs.Digits.{binary_digits};
ghost use Rattle.commit_timestamps.specs.Times.{IsVersionAt};
ghost use Rattle.table_model.specs.Log.{IsSound};
ghost use Rattle.table_model.specs.Knowledge.{IsGrown, IsValid};
ghost use Rattle.snapshot_load.specs.Causes.{ReadCause, VersionCause, TimeCause, FoundCause, CountsFaults, versions_read, UnlessMemory};
ghost use Rattle.snapshot_load.specs.Reading.{OnlyReads, OnlyLoads, HasAsked, IsCatalogue, IsPlaceOf};
ghost use Rattle.snapshot_load.specs.Snapshots.{IsSnapshot, AreTimes};
ghost use Rattle.snapshot_load.specs.Texts.{IsReadSnapshot, AreTimesRead, times_of};

use crate::answers::Times;
use crate::errors::LoadError;
use crate::loads::snapshot_from;
use crate::reading::{leading_published, place_of, version_time};
use commit_timestamps::Halving;
use reconcile::State;
use std::alloc::Global;
use table_model::{Commits, Snapshot, Steps};

/// Loads a version of a table: one catalogue turn, one turn that lists the folder, and at most two that read a file for
/// each version up to it (Delta protocol, "Action Reconciliation").
///
/// `NoTable` comes exactly where the catalogue turn finds no commit, `AfterLatest` exactly where it finds one and the
/// version is above the last one. Else the load fails only on a fault of the store, which is named by its spot, or for
/// want of memory; over a store that does not tell what it holds also where the file of a version is absent or has no
/// commit in it. `Memory` may also come before the catalogue turn.
pub fn load_version<T: Steps>(
    caller: &mut T,
    alloc: Global,
    version: u64,
) -> Result<Snapshot, LoadError>
    ensures loaded { IfOk result (IsSnapshot T.tells (T.known caller.new).seen) }
    ensures version { IfOk result (λ s. s.version ≡ version) }
    ensures read { IfOk result (IsReadSnapshot T.tells (T.known caller.new).seen) }
    ensures cause { IfErr result (λ e. VersionCause T.tells version e (T.known caller.old) (T.known caller.new)) }
    ensures counts { CountsFaults T.tells (T.known caller.old) result (T.known caller.new) }
    ensures asked { UnlessMemory result (HasAsked (T.known caller.old) (T.known caller.new)) }
    ensures turns { OnlyLoads 1 (version + 1) (T.known caller.old) (T.known caller.new) }
    ensures grows { IsGrown (T.known caller.old) (T.known caller.new) }
    ensures valid { IsValid (T.known caller.new) }
    ensures after { T.after caller.old caller.new }
{
    let _ = caller.limits();
    let commits = caller.commits(alloc)?;
    if commits.count == 0 {
        return Err(LoadError::NoTable);
    }
    let latest = commits.count - 1;
    if version > latest {
        return Err(LoadError::AfterLatest { version, latest });
    }
    let names = caller.list(alloc)?;
    let listed = leading_published(names.as_slice());
    snapshot_from(
        caller,
        alloc,
        &commits,
        listed,
        State::empty(alloc),
        0,
        version,
    )
}

/// The times of the commits of so many versions from `from` up.
fn times_from<T: Steps>(
    caller: &mut T,
    alloc: Global,
    commits: &Commits,
    listed: u64,
    from: u64,
    end: u64,
) -> Result<Vec<i64>, LoadError>
    requires catalogue { IsCatalogue commits.now (T.known caller.old) }
    requires listed { IsTrue T.tells → listed ≤ (T.known caller.old).published }
    requires sound { IsTrue T.tells → IsSound (T.known caller.old).seen }
    requires valid { IsValid (T.known caller.old) }
    requires from { from ≤ end }
    requires end { end ≤ commits.now.count }
    ensures times { IfOk result (λ v. AreTimesRead T.tells (T.known caller.new).seen from (end - from) v.items) }
    ensures cause { IfErr result (λ e. ReadCause T.tells e (T.known caller.old) (T.known caller.new)) }
    ensures counts { CountsFaults T.tells (T.known caller.old) result (T.known caller.new) }
    ensures reads { OnlyReads (2 * (end - from)) (T.known caller.old) (T.known caller.new) }
    ensures grows { IsGrown (T.known caller.old) (T.known caller.new) }
    ensures valid { IsValid (T.known caller.new) }
    ensures after { T.after caller.old caller.new }
{
    let mut times = Vec::new(alloc);
    for version in from..end {
        let time = version_time(caller, alloc, version, place_of(commits, listed, version))?;
        times.push(time)?;
    }
    Ok(times)
}

/// So many times are given at most.
const MOST_TIMES: u64 = 100;

/// The times of the commits from a version on, at most 100 of them: one catalogue turn, one turn that lists the folder,
/// and at most two that read a file for each time (Delta protocol, "In-Commit Timestamps").
///
/// `NoTable` comes exactly where the catalogue turn finds no commit, `AfterLatest` exactly where it finds one and the
/// version is above the last one. Else it fails only on a fault of the store, which is named by its spot, or for want
/// of memory; over a store that does not tell what it holds also where the file of a version is absent or has no commit
/// in it. `Memory` may also come before the catalogue turn.
pub fn times<T: Steps>(caller: &mut T, alloc: Global, from: u64) -> Result<Times, LoadError>
    ensures times { IfOk result (AreTimes T.tells (T.known caller.new).seen from) }
    ensures read { IfOk result (λ t. AreTimesRead T.tells (T.known caller.new).seen from
        (length t.times.items) t.times.items) }
    ensures cause { IfErr result (λ e. VersionCause T.tells from e (T.known caller.old) (T.known caller.new)) }
    ensures counts { CountsFaults T.tells (T.known caller.old) result (T.known caller.new) }
    ensures asked { UnlessMemory result (HasAsked (T.known caller.old) (T.known caller.new)) }
    ensures turns { OnlyLoads 1 (min 100 (length (T.known caller.new).seen - from))
        (T.known caller.old) (T.known caller.new) }
    ensures grows { IsGrown (T.known caller.old) (T.known caller.new) }
    ensures valid { IsValid (T.known caller.new) }
    ensures after { T.after caller.old caller.new }
{
    let _ = caller.limits();
    let commits = caller.commits(alloc)?;
    if commits.count == 0 {
        return Err(LoadError::NoTable);
    }
    let latest = commits.count - 1;
    if from > latest {
        return Err(LoadError::AfterLatest {
            version: from,
            latest,
        });
    }
    let names = caller.list(alloc)?;
    let listed = leading_published(names.as_slice());
    let end = end_of_times(from, latest);
    let times = times_from(caller, alloc, &commits, listed, from, end)?;
    Ok(Times {
        latest,
        from,
        times,
    })
}

/// The version after the last one whose time is given.
fn end_of_times(from: u64, latest: u64) -> u64
    requires within { from ≤ latest }
    requires fits { latest < 2 ^ 64 - 1 }
    ensures { result ≡ from + min 100 (latest + 1 - from) }
{
    if latest - from < MOST_TIMES {
        latest + 1
    } else {
        from + MOST_TIMES
    }
}

/// The version at a time: the greatest whose time is at most that, `None` where every time is after it. At most two
/// turns that read a file for each binary digit of the number of commits.
fn version_at<T: Steps>(
    caller: &mut T,
    alloc: Global,
    commits: &Commits,
    listed: u64,
    time: i64,
) -> Result<Option<u64>, LoadError>
    requires catalogue { IsCatalogue commits.now (T.known caller.old) }
    requires listed { IsTrue T.tells → listed ≤ (T.known caller.old).published }
    requires sound { IsTrue T.tells → IsSound (T.known caller.old).seen }
    requires valid { IsValid (T.known caller.old) }
    ensures within { IfOk result (λ v. IfSome v (λ n. n < commits.now.count)) }
    ensures at { IfOk result (λ v. IsTrue T.tells → IsVersionAt (times_of (T.known caller.new).seen) time v) }
    ensures cause { IfErr result (λ e. ReadCause T.tells e (T.known caller.old) (T.known caller.new)) }
    ensures counts { CountsFaults T.tells (T.known caller.old) result (T.known caller.new) }
    ensures reads { OnlyReads (2 * binary_digits commits.now.count) (T.known caller.old) (T.known caller.new) }
    ensures grows { IsGrown (T.known caller.old) (T.known caller.new) }
    ensures valid { IsValid (T.known caller.new) }
    ensures after { T.after caller.old caller.new }
{
    let mut search = Halving::new(commits.count, time);
    while let Some(version) = search.ask() {
        let found = version_time(caller, alloc, version, place_of(commits, listed, version))?;
        search.answer(found);
    }
    Ok(one_of(search.result(), commits.count))
}

/// The version, where it is one of so many: where the store does not tell what it holds, the times need not rise.
fn one_of(found: Option<u64>, count: u64) -> Option<u64>
    ensures within { IfSome result (λ v. v < count) }
    ensures same { IfSome found (λ v. v < count) → result ≡ found }
{
    match found {
        Some(version) if version < count => Some(version),
        _ => None,
    }
}

/// The snapshot of the version that was found at a time. Where none was found, the time of version 0 is read.
fn load_found<T: Steps>(
    caller: &mut T,
    alloc: Global,
    commits: &Commits,
    listed: u64,
    found: Option<u64>,
) -> Result<Snapshot, LoadError>
    requires catalogue { IsCatalogue commits.now (T.known caller.old) }
    requires listed { IsTrue T.tells → listed ≤ (T.known caller.old).published }
    requires sound { IsTrue T.tells → IsSound (T.known caller.old).seen }
    requires valid { IsValid (T.known caller.old) }
    requires some { 0 < commits.now.count }
    requires within { IfSome found (λ v. v < commits.now.count) }
    ensures snapshot { IfOk result (IsSnapshot T.tells (T.known caller.new).seen) }
    ensures version { IfOk result (λ s. found ≡ Some s.version) }
    ensures read { IfOk result (IsReadSnapshot T.tells (T.known caller.new).seen) }
    ensures cause { IfErr result (λ e. FoundCause T.tells found e (T.known caller.old) (T.known caller.new)) }
    ensures counts { CountsFaults T.tells (T.known caller.old) result (T.known caller.new) }
    ensures reads { OnlyReads (2 * versions_read result (length (T.known caller.new).seen))
        (T.known caller.old) (T.known caller.new) }
    ensures grows { IsGrown (T.known caller.old) (T.known caller.new) }
    ensures valid { IsValid (T.known caller.new) }
    ensures after { T.after caller.old caller.new }
{
    match found {
        Some(version) => snapshot_from(
            caller,
            alloc,
            commits,
            listed,
            State::empty(alloc),
            0,
            version,
        ),
        None => {
            let latest = commits.count - 1;
            let first = version_time(caller, alloc, 0, place_of(commits, listed, 0))?;
            Err(LoadError::BeforeFirst { first, latest })
        }
    }
}

/// Loads the version at a time, in milliseconds since 1970 UTC: the greatest whose in-commit timestamp is at most that.
/// One catalogue turn, one turn that lists the folder, at most two that read a file for each binary digit of the number
/// of commits, by which the version is found by halving, and at most two for each version up to it (Delta protocol,
/// "In-Commit Timestamps").
///
/// `NoTable` comes exactly where the catalogue turn finds no commit, `BeforeFirst` exactly where it finds one and the
/// time is before that of version 0, which is read for it. Else the load fails only on a fault of the store, which is
/// named by its spot, or for want of memory; over a store that does not tell what it holds also where the file of a
/// version is absent or has no commit in it. `Memory` may also come before the catalogue turn.
pub fn load_at<T: Steps>(caller: &mut T, alloc: Global, time: i64) -> Result<Snapshot, LoadError>
    ensures loaded { IfOk result (IsSnapshot T.tells (T.known caller.new).seen) }
    ensures version { IfOk result (λ s. IsTrue T.tells
        → IsVersionAt (times_of (T.known caller.new).seen) time (Some s.version)) }
    ensures read { IfOk result (IsReadSnapshot T.tells (T.known caller.new).seen) }
    ensures cause { IfErr result (λ e. TimeCause T.tells time e (T.known caller.old) (T.known caller.new)) }
    ensures counts { CountsFaults T.tells (T.known caller.old) result (T.known caller.new) }
    ensures asked { UnlessMemory result (HasAsked (T.known caller.old) (T.known caller.new)) }
    ensures turns { OnlyLoads 1 (binary_digits (length (T.known caller.new).seen) + versions_read result (length (T.known caller.new).seen))
        (T.known caller.old) (T.known caller.new) }
    ensures grows { IsGrown (T.known caller.old) (T.known caller.new) }
    ensures valid { IsValid (T.known caller.new) }
    ensures after { T.after caller.old caller.new }
{
    let _ = caller.limits();
    let commits = caller.commits(alloc)?;
    if commits.count == 0 {
        return Err(LoadError::NoTable);
    }
    let names = caller.list(alloc)?;
    let listed = leading_published(names.as_slice());
    let found = version_at(caller, alloc, &commits, listed, time)?;
    load_found(caller, alloc, &commits, listed, found)
}
