//! Whether the condition of another caller's turn holds.

ghost use Rattle.std.specs.Prelude.{◌≡◌, ◌<◌, ◌≤◌, ◌↔◌, ℕ, [], ◌∷◌, pos, IsTrue, IfOk, IfErr, length, unwrap_or, true};
ghost use Rattle.action_types.specs.declared.actions.Action.{Action};
ghost use Rattle.reconcile.specs.Replay.{Log, time_of_log};
ghost use Rattle.reconcile.specs.Standing.{StandsFor};
ghost use Rattle.table_rules.specs.Broken.{first_broken};
ghost use Rattle.std.specs.Prelude.{None};
ghost use Rattle.table_model.specs.Consistency.{IsConsistent};
ghost use Rattle.table_meddler.specs.Others.{IsRead, ArePublished, IsNextIn, IsCommitOf};
ghost use Rattle.table_meddler.specs.Judging.{Tests, ShowsIn};

use crate::reading::{actions_in, are_published, commit_bytes, file, log_state};
use action_types::Action;
use log_names::LogName;
use object_store::Store;
use reconcile::State;
use std::alloc::Global;
use table_model::StepFault;
use table_rules::{Broken, check_next};
use table_world::World;

/// The in-commit timestamp of a commit, in milliseconds since 1970 UTC; 0 where it has none.
fn time_of(alloc: Global, actions: &[Action]) -> Result<i64, StepFault>
    ensures memory { IfErr result (λ e. e ≡ StepFault.Memory) }
    ensures time { IfOk result (λ time. time ≡ unwrap_or (time_of_log (actions.now ∷ [])) (pos 0)) }
{
    let state = State::empty(alloc).apply(actions)?;
    Ok(state.time().unwrap_or(0))
}

/// Whether the actions break no rule as the next commit of a table in this state.
fn keeps_rules(alloc: Global, state: &State, actions: &[Action]) -> Result<bool, StepFault>
    ensures memory { IfErr result (λ e. e ≡ StepFault.Memory) }
    ensures kept { IfOk result (λ answer. (log : Log) → StandsFor state.now log → IsTrue answer ↔ (first_broken log actions.now ≡ None)) }
{
    match check_next(alloc, state, actions) {
        Ok(()) => Ok(true),
        Err(Broken::Memory) => Err(StepFault::Memory),
        Err(_) => Ok(false),
    }
}

/// Whether the staged file stands with the text of a next commit of the log, of this time, and its version is the next.
pub(crate) fn may_ratify<S: Store>(
    world: &mut World<S>,
    alloc: Global,
    version: u64,
    id: u128,
    time: i64,
) -> Result<bool, StepFault>
    requires consistent { IsConsistent world.old }
    ensures read { IsRead world.old world.new }
    ensures fault { IfErr result (ShowsIn world.old.tally world.new.tally) }
    ensures next { IfOk result (λ answer. answer ≡ true → version ≡ length world.old.records) }
    ensures tests { IfOk result (λ answer. Tests world.old.tells answer (IsNextIn world.old version id time)) }
{
    if version != world.count() {
        return Ok(false);
    }
    let Some(bytes) = file(world, alloc, LogName::Staged(version, id))? else {
        return Ok(false);
    };
    let Some(actions) = actions_in(alloc, bytes.as_slice())? else {
        return Ok(false);
    };
    if time != time_of(alloc, actions.as_slice())? {
        return Ok(false);
    }
    let Some(state) = log_state(world, alloc)? else {
        return Ok(false);
    };
    keeps_rules(alloc, &state, actions.as_slice())
}

/// Whether the bytes are those of the ratified version, and all versions below are published.
pub(crate) fn may_publish<S: Store>(
    world: &mut World<S>,
    alloc: Global,
    version: u64,
    bytes: &[u8],
) -> Result<bool, StepFault>
    requires consistent { IsConsistent world.old }
    ensures read { IsRead world.old world.new }
    ensures fault { IfErr result (ShowsIn world.old.tally world.new.tally) }
    ensures ratified { IfOk result (λ answer. answer ≡ true → version < length world.old.records) }
    ensures tests { IfOk result (λ answer. Tests world.old.tells answer (IsCommitOf world.old version bytes.now)) }
{
    if version >= world.count() {
        return Ok(false);
    }
    let Some(ratified) = commit_bytes(world, alloc, version)? else {
        return Ok(false);
    };
    if ratified.as_slice() != bytes {
        return Ok(false);
    }
    are_published(world, alloc, version)
}

/// Whether there are as many versions, and all of them are published.
pub(crate) fn may_report<S: Store>(
    world: &mut World<S>,
    alloc: Global,
    count: u64,
) -> Result<bool, StepFault>
    requires consistent { IsConsistent world.old }
    ensures read { IsRead world.old world.new }
    ensures fault { IfErr result (ShowsIn world.old.tally world.new.tally) }
    ensures ratified { IfOk result (λ answer. answer ≡ true → count ≤ length world.old.records) }
    ensures tests { IfOk result (λ answer. Tests world.old.tells answer (ArePublished world.old count)) }
{
    if count > world.count() {
        return Ok(false);
    }
    are_published(world, alloc, count)
}

/// Whether the version is reported.
pub(crate) fn may_clear<S: Store>(world: &mut World<S>, version: u64) -> Result<bool, StepFault>
    requires consistent { IsConsistent world.old }
    ensures read { IsRead world.old world.new }
    ensures fault { IfErr result (ShowsIn world.old.tally world.new.tally) }
    ensures reported { IfOk result (λ answer. IsTrue answer ↔ (version < world.old.reported)) }
{
    let commits = world.commits()?;
    Ok(version < commits.reported)
}
