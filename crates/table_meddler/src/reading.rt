//! What is read of a world: files, commits, and the state after all of them.

ghost use Rattle.std.specs.Prelude.{◌≡◌, ◌<◌, ℕ, IsTrue, IsSome, IfOk, IfErr, MatchOption, length, is_some};
ghost use Rattle.log_names.specs.Texts.{name_text};
ghost use Rattle.log_names.specs.declared.LogName.TheVariants as name;
ghost use Rattle.action_json.specs.Text.{IsCommitText, actions_of};
ghost use Rattle.reconcile.specs.Standing.{StandsFor};
ghost use Rattle.table_model.specs.Files.{file_at};
ghost use Rattle.table_model.specs.Log.{commit_at, history};
ghost use Rattle.table_model.specs.World.{stands, log_of, entry_at};
ghost use Rattle.table_model.specs.Consistency.{IsConsistent};
ghost use Rattle.table_meddler.specs.Others.{IsRead, ArePublished};
ghost use Rattle.table_meddler.specs.Judging.{Tests, ShowsIn, items_of};

use action_json::{BadCommit, read_commit};
use action_types::Action;
use log_names::LogName;
use object_store::{Bytes, Store};
use reconcile::State;
use std::alloc::Global;
use table_model::StepFault;
use table_world::World;

/// The file of a name that has a text, where it stands.
pub(crate) fn file<S: Store>(
    world: &mut World<S>,
    alloc: Global,
    name: LogName,
) -> Result<Option<Vec<u8>>, StepFault>
    requires text { IsSome (name_text name) }
    ensures read { IsRead world.old world.new }
    ensures fault { IfErr result (ShowsIn world.old.tally world.new.tally) }
    ensures file { IfOk result (λ found. IsTrue world.old.tells → file_at world.old.files name ≡ items_of found) }
{
    match world.get(alloc, name) {
        Ok(Bytes::Whole(bytes)) => Ok(Some(bytes)),
        Ok(Bytes::Absent) => Ok(None),
        Err(fault) => Err(fault),
    }
}

/// Whether the published file of a version stands.
fn is_published<S: Store>(
    world: &mut World<S>,
    alloc: Global,
    version: u64,
) -> Result<bool, StepFault>
    ensures read { IsRead world.old world.new }
    ensures fault { IfErr result (ShowsIn world.old.tally world.new.tally) }
    ensures stands { IfOk result (λ answer. IsTrue world.old.tells → stands world.old (name.Published version) ≡ answer) }
{
    let found = file(world, alloc, LogName::Published(version))?;
    Ok(found.is_some())
}

/// Whether all versions below `count` are published.
pub(crate) fn are_published<S: Store>(
    world: &mut World<S>,
    alloc: Global,
    count: u64,
) -> Result<bool, StepFault>
    requires consistent { IsConsistent world.old }
    ensures read { IsRead world.old world.new }
    ensures fault { IfErr result (ShowsIn world.old.tally world.new.tally) }
    ensures tests { IfOk result (λ answer. Tests world.old.tells answer (ArePublished world.old count)) }
{
    if count == 0 {
        return Ok(true);
    }
    is_published(world, alloc, count - 1)
}

/// The id of a ratified version; none of a version that is reported.
fn recorded_id<S: Store>(world: &mut World<S>, version: u64) -> Result<Option<u128>, StepFault>
    requires consistent { IsConsistent world.old }
    requires ratified { version < length world.old.records }
    ensures read { IsRead world.old world.new }
    ensures fault { IfErr result (ShowsIn world.old.tally world.new.tally) }
    ensures id { IfOk result (λ found. MatchOption found (version < world.old.reported) (λ id. id ≡ (entry_at world.old.records version).id)) }
{
    let commits = world.commits()?;
    if version < commits.reported {
        return Ok(None);
    }
    Ok(Some(commits.staged[(version - commits.reported) as usize].id))
}

/// The bytes of a ratified version: of its published file, else of its staged one.
pub(crate) fn commit_bytes<S: Store>(
    world: &mut World<S>,
    alloc: Global,
    version: u64,
) -> Result<Option<Vec<u8>>, StepFault>
    requires consistent { IsConsistent world.old }
    requires ratified { version < length world.old.records }
    ensures read { IsRead world.old world.new }
    ensures fault { IfErr result (ShowsIn world.old.tally world.new.tally) }
    ensures bytes { IfOk result (λ found. IsTrue world.old.tells → MatchOption found ⊥ (λ bytes. bytes.items ≡ (commit_at (log_of world.old) version).bytes)) }
{
    match file(world, alloc, LogName::Published(version))? {
        Some(bytes) => return Ok(Some(bytes)),
        None => {}
    }
    match recorded_id(world, version)? {
        Some(id) => file(world, alloc, LogName::Staged(version, id)),
        None => Ok(None),
    }
}

/// The actions of a commit's text; none where the bytes are no commit text. Refused for want of memory alone.
pub(crate) fn actions_in(alloc: Global, bytes: &[u8]) -> Result<Option<Vec<Action>>, StepFault>
    ensures memory { IfErr result (λ e. e ≡ StepFault.Memory) }
    ensures actions { IfOk result (λ found. MatchOption found (¬ (IsCommitText bytes.now (actions_of bytes.now))) (λ v. IsCommitText bytes.now (actions_of bytes.now) × (v.items ≡ actions_of bytes.now))) }
{
    match read_commit(alloc, bytes) {
        Ok(actions) => Ok(Some(actions)),
        Err(BadCommit::Memory) => Err(StepFault::Memory),
        Err(BadCommit::At { .. }) => Ok(None),
    }
}

/// The actions of a ratified version.
fn commit_actions<S: Store>(
    world: &mut World<S>,
    alloc: Global,
    version: u64,
) -> Result<Option<Vec<Action>>, StepFault>
    requires consistent { IsConsistent world.old }
    requires ratified { version < length world.old.records }
    ensures read { IsRead world.old world.new }
    ensures fault { IfErr result (ShowsIn world.old.tally world.new.tally) }
    ensures actions { IfOk result (λ found. IsTrue world.old.tells → MatchOption found ⊥ (λ v. v.items ≡ actions_of (commit_at (log_of world.old) version).bytes)) }
{
    let Some(bytes) = commit_bytes(world, alloc, version)? else {
        return Ok(None);
    };
    actions_in(alloc, bytes.as_slice())
}

/// The state after all ratified versions.
pub(crate) fn log_state<S: Store>(
    world: &mut World<S>,
    alloc: Global,
) -> Result<Option<State>, StepFault>
    requires consistent { IsConsistent world.old }
    ensures read { IsRead world.old world.new }
    ensures fault { IfErr result (ShowsIn world.old.tally world.new.tally) }
    ensures state { IfOk result (λ found. IsTrue world.old.tells → MatchOption found ⊥ (λ s. StandsFor s (history (log_of world.old)))) }
{
    let mut state = State::empty(alloc);
    for version in 0..world.count() {
        let Some(actions) = commit_actions(world, alloc, version)? else {
            return Ok(None);
        };
        state = state.apply(actions.as_slice())?;
    }
    Ok(Some(state))
}
