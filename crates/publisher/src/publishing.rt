ghost use Rattle.std.specs.Prelude.{slice_index_or, ◌≡◌, ◌<◌, ◌≤◌, ◌+◌, ◌-◌, ◌*◌, ℕ, List, Bool, IsTrue, IfOk, IfErr, OnOk, length};
ghost use Rattle.log_names.specs.declared.LogName.TheVariants as name;
ghost use Rattle.table_model.specs.Log.{commit_at};
ghost use Rattle.table_model.specs.Knowledge.{IsGrown, IsValid};
ghost use Rattle.table_model.specs.Learning.{no_ratified};
ghost use Rattle.table_model.specs.Turns.{TellsTurn};
ghost use Rattle.publisher.specs.Causes.{TurnCause, PublishCause, CountsFaults, UnlessMemory};
ghost use Rattle.publisher.specs.Publishing.{HasPublished, AsksToPublish, KeepsBelow, OnlyCopies, OnlyPublishes, IsCatalogue};
ghost use Rattle.publisher.specs.Worlds.{PublishTurns, SameButTally, PublishesUpTo, AsCommitsTell, PublishesVersion, IsThere};

use crate::answers::{PublishError, Published};
use std::alloc::Global;
use table_model::{Bytes, Commits, LogName, Spot, Steps};

/// Finds the published file of a version whose staged file is gone.
fn find_published<T: Steps>(caller: &mut T, alloc: Global, version: u64) -> Result<(), PublishError>
    requires ratified { version < length (T.known caller.old).seen }
    requires published { IsTrue T.tells → version < (T.known caller.old).published }
    ensures published { OnOk result (version < (T.known caller.new).published) }
    ensures cause { IfErr result (λ e. TurnCause T.tells e (T.known caller.old) (T.known caller.new)) }
    ensures counts { CountsFaults T.tells (T.known caller.old) result (T.known caller.new) }
    ensures turns { OnlyCopies 1 (T.known caller.old) (T.known caller.new) }
    ensures kept { KeepsBelow (length (T.known caller.old).seen) (T.known caller.old) (T.known caller.new) }
    ensures grows { IsGrown (T.known caller.old) (T.known caller.new) }
    ensures valid { IsValid (T.known caller.new) }
    ensures after { T.after caller.old caller.new }
    ensures world { TellsTurn SameButTally (T.world caller.old) (T.world caller.new) }
    ensures there { OnOk result (IsThere (name.Published version) (T.world caller.new)) }
{
    let name = LogName::Published(version);
    match caller.get(alloc, name) {
        Ok(Bytes::Whole(_)) => Ok(()),
        Ok(Bytes::Absent) => Err(PublishError::Fault {
            spot: Spot::File(name),
        }),
        Err(fault) => Err(PublishError::from(fault)),
    }
}

/// Publishes a ratified version of which all below are published: copies its staged file, and where that is gone finds
/// the published one.
fn publish_version<T: Steps>(
    caller: &mut T,
    alloc: Global,
    version: u64,
    id: u128,
) -> Result<(), PublishError>
    requires ratified { version < length (T.known caller.old).seen }
    requires below { version ≤ (T.known caller.old).published }
    requires under { id ≡ (commit_at (T.known caller.old).seen version).id }
    ensures published { OnOk result (version < (T.known caller.new).published) }
    ensures cause { IfErr result (λ e. TurnCause T.tells e (T.known caller.old) (T.known caller.new)) }
    ensures counts { CountsFaults T.tells (T.known caller.old) result (T.known caller.new) }
    ensures turns { OnlyCopies 2 (T.known caller.old) (T.known caller.new) }
    ensures kept { KeepsBelow (length (T.known caller.old).seen) (T.known caller.old) (T.known caller.new) }
    ensures grows { IsGrown (T.known caller.old) (T.known caller.new) }
    ensures valid { IsValid (T.known caller.new) }
    ensures after { T.after caller.old caller.new }
    ensures world { TellsTurn (PublishesVersion version id) (T.world caller.old) (T.world caller.new) }
    ensures there { OnOk result (IsThere (name.Published version) (T.world caller.new)) }
{
    let name = LogName::Staged(version, id);
    match caller.get(alloc, name) {
        Ok(Bytes::Whole(bytes)) => match caller.publish(alloc, version, bytes.as_slice()) {
            Ok(_) => Ok(()),
            Err(fault) => Err(PublishError::from(fault)),
        },
        Ok(Bytes::Absent) => find_published(caller, alloc, version),
        Err(fault) => Err(PublishError::from(fault)),
    }
}

/// The id of a ratified version that is not yet reported.
fn staged_id(commits: &Commits, version: u64) -> u128
    requires length { length commits.now.staged.items + commits.now.reported ≡ commits.now.count }
    requires from { commits.now.reported ≤ version }
    requires ratified { version < commits.now.count }
    ensures { result ≡ (slice_index_or commits.now.staged.items (version - commits.now.reported) no_ratified).id }
{
    commits.staged[(version - commits.reported) as usize].id
}

/// Publishes the versions from the reported number up, in order.
fn publish_from<T: Steps>(
    caller: &mut T,
    alloc: Global,
    commits: &Commits,
) -> Result<(), PublishError>
    requires catalogue { IsCatalogue commits.now (T.known caller.old) }
    requires told { AsCommitsTell commits.now (T.world caller.old) }
    requires valid { IsValid (T.known caller.old) }
    ensures published { OnOk result (commits.now.count ≤ (T.known caller.new).published) }
    ensures cause { IfErr result (λ e. TurnCause T.tells e (T.known caller.old) (T.known caller.new)) }
    ensures counts { CountsFaults T.tells (T.known caller.old) result (T.known caller.new) }
    ensures turns { OnlyCopies (2 * (commits.now.count - commits.now.reported)) (T.known caller.old) (T.known caller.new) }
    ensures kept { KeepsBelow (length (T.known caller.old).seen) (T.known caller.old) (T.known caller.new) }
    ensures grows { IsGrown (T.known caller.old) (T.known caller.new) }
    ensures valid { IsValid (T.known caller.new) }
    ensures after { T.after caller.old caller.new }
    ensures world { TellsTurn (PublishesUpTo 0) (T.world caller.old) (T.world caller.new) }
    ensures told { OnOk result (TellsTurn (PublishesUpTo commits.now.count) (T.world caller.old) (T.world caller.new)) }
{
    for version in commits.reported..commits.count {
        publish_version(caller, alloc, version, staged_id(commits, version))?;
    }
    Ok(())
}

/// Publishes all versions that one catalogue turn finds, in order, and reports their number (Delta protocol,
/// "Catalog-managed Tables", published commits).
///
/// `NoTable` comes exactly where the catalogue turn finds no commit. Of a table that has one it fails only on a fault
/// of the store, which is named by its spot, or for want of memory; over a store that does not tell what it holds also
/// where a version has neither its staged nor its published file. The versions below the failed one stay published.
pub fn publish_all<T: Steps>(caller: &mut T, alloc: Global) -> Result<Published, PublishError>
    ensures published { IfOk result (λ p. HasPublished p (T.known caller.new)) }
    ensures cause { IfErr result (λ e. PublishCause T.tells e (T.known caller.old) (T.known caller.new)) }
    ensures counts { CountsFaults T.tells (T.known caller.old) result (T.known caller.new) }
    ensures asked { UnlessMemory result (AsksToPublish (T.known caller.old) (T.known caller.new)) }
    ensures turns { OnlyPublishes (T.known caller.old) (T.known caller.new) }
    ensures kept { KeepsBelow (length (T.known caller.new).seen) (T.known caller.old) (T.known caller.new) }
    ensures grows { IsGrown (T.known caller.old) (T.known caller.new) }
    ensures valid { IsValid (T.known caller.new) }
    ensures after { T.after caller.old caller.new }
    ensures world { TellsTurn (PublishTurns result) (T.world caller.old) (T.world caller.new) }
{
    let _ = caller.limits();
    let commits = caller.commits(alloc)?;
    if commits.count == 0 {
        return Err(PublishError::NoTable);
    }
    publish_from(caller, alloc, &commits)?;
    caller.report(alloc, commits.count)?;
    Ok(Published {
        published: commits.count,
        latest: commits.count - 1,
    })
}
