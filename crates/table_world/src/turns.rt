//! The turns of the one caller of a world, with what it notes of them.

ghost use Rattle.std.specs.Prelude.{◌≡◌, IsSome};
ghost use Rattle.log_names.specs.Texts.{name_text};
ghost use Rattle.table_model.specs.Turns.{CommitsTurn, LookupTurn, ListTurn, GetTurn, StageTurn, RatifyTurn, PublishTurn, ReportTurn, ClearTurn};
ghost use Rattle.table_model.specs.Conditions.{MayRatify, MayPublish, MayReport, MayClear};
ghost use Rattle.table_model.specs.Learning.{LearnsCommits, LearnsLookup, LearnsList, LearnsGet, LearnsStage, LearnsRatify, LearnsPublish, LearnsReport, LearnsClear};
ghost use Rattle.table_model.specs.Noted.{known_of};
ghost use Rattle.table_world.specs.Done.{IsKnownIn, HasDone};

use crate::world::World;
use commit_catalog::{Commits, Ratify};
use log_names::LogName;
use object_store::{Bytes, Gone, Put, Store};
use std::alloc::Global;
use table_model::{Looked, Notes, Staged, StepFault};

/// The catalogue now.
pub fn commits<S: Store>(world: &mut World<S>, notes: &mut Notes) -> Result<Commits, StepFault>
    requires known { IsKnownIn world.old notes.old }
    ensures { HasDone (CommitsTurn world.old result world.new) (LearnsCommits world.old.tells (known_of world.old notes.old) result (known_of world.new notes.new)) world.old notes.old world.new notes.new }
{
    let commits = match world.commits() {
        Ok(commits) => commits,
        Err(fault) => return Err(fault),
    };
    notes.note_commits(commits.count, commits.reported);
    Ok(commits)
}

/// The ratified commit of a version, if there is one, and the number of commits.
pub fn lookup<S: Store>(
    world: &mut World<S>,
    notes: &mut Notes,
    version: u64,
) -> Result<Looked, StepFault>
    requires known { IsKnownIn world.old notes.old }
    ensures { HasDone (LookupTurn version world.old result world.new) (LearnsLookup world.old.tells version (known_of world.old notes.old) result (known_of world.new notes.new)) world.old notes.old world.new notes.new }
{
    let looked = match world.lookup(version) {
        Ok(looked) => looked,
        Err(fault) => return Err(fault),
    };
    notes.note_lookup(looked.count);
    Ok(looked)
}

/// The names of the log in the folder.
pub fn list<S: Store>(
    world: &mut World<S>,
    notes: &mut Notes,
    alloc: Global,
) -> Result<Vec<LogName>, StepFault>
    requires known { IsKnownIn world.old notes.old }
    ensures { HasDone (ListTurn world.old result world.new) (LearnsList world.old.tells (known_of world.old notes.old) result (known_of world.new notes.new)) world.old notes.old world.new notes.new }
{
    let answer = world.list(alloc);
    notes.note_list(&answer);
    answer
}

/// The file of a name that has a text.
pub fn get<S: Store>(
    world: &mut World<S>,
    notes: &mut Notes,
    alloc: Global,
    name: LogName,
) -> Result<Bytes, StepFault>
    requires known { IsKnownIn world.old notes.old }
    requires text { IsSome (name_text name) }
    ensures { HasDone (GetTurn name world.old result world.new) (LearnsGet world.old.tells name (known_of world.old notes.old) result (known_of world.new notes.new)) world.old notes.old world.new notes.new }
{
    let is_seen = world.is_seen(notes.seen, name);
    let answer = world.get(alloc, name);
    notes.note_get(name, &answer, is_seen);
    answer
}

/// Stages a commit of a version under an id.
pub fn stage<S: Store>(
    world: &mut World<S>,
    notes: &mut Notes,
    alloc: Global,
    version: u64,
    id: u128,
    bytes: &[u8],
) -> Result<Staged, StepFault>
    requires known { IsKnownIn world.old notes.old }
    ensures { HasDone (StageTurn version id bytes.now world.old result world.new) (LearnsStage version id bytes.now (known_of world.old notes.old) result (known_of world.new notes.new)) world.old notes.old world.new notes.new }
{
    let answer = world.stage(alloc, version, id, bytes);
    notes.note_stage(version, id, bytes, answer);
    answer
}

/// Ratifies a staged commit as a version.
pub fn ratify<S: Store>(
    world: &mut World<S>,
    notes: &mut Notes,
    version: u64,
    id: u128,
    time: i64,
) -> Result<Ratify, StepFault>
    requires known { IsKnownIn world.old notes.old }
    requires may { MayRatify world.old.tells (known_of world.old notes.old) version id time }
    ensures { HasDone (RatifyTurn version id time world.old result world.new) (LearnsRatify world.old.tells version id (known_of world.old notes.old) result (known_of world.new notes.new)) world.old notes.old world.new notes.new }
{
    let answer = match world.ratify(version, id, time) {
        Ok(answer) => answer,
        Err(fault) => return Err(fault),
    };
    notes.note_ratify(version, answer, world.count());
    Ok(answer)
}

/// Publishes a ratified version.
pub fn publish<S: Store>(
    world: &mut World<S>,
    notes: &mut Notes,
    alloc: Global,
    version: u64,
    bytes: &[u8],
) -> Result<Put, StepFault>
    requires known { IsKnownIn world.old notes.old }
    requires may { MayPublish world.old.tells (known_of world.old notes.old) version bytes.now }
    ensures { HasDone (PublishTurn version bytes.now world.old result world.new) (LearnsPublish version (known_of world.old notes.old) result (known_of world.new notes.new)) world.old notes.old world.new notes.new }
{
    let answer = world.publish(alloc, version, bytes);
    notes.note_publish(version, answer);
    answer
}

/// Reports that the versions below `count` are published.
pub fn report<S: Store>(
    world: &mut World<S>,
    notes: &mut Notes,
    count: u64,
) -> Result<u64, StepFault>
    requires known { IsKnownIn world.old notes.old }
    requires may { MayReport (known_of world.old notes.old) count }
    ensures { HasDone (ReportTurn count world.old result world.new) (LearnsReport count (known_of world.old notes.old) result (known_of world.new notes.new)) world.old notes.old world.new notes.new }
{
    let answer = match world.report(count) {
        Ok(answer) => answer,
        Err(fault) => return Err(fault),
    };
    notes.note_report(answer);
    Ok(answer)
}

/// Clears the staged file of a reported version.
pub fn clear<S: Store>(
    world: &mut World<S>,
    notes: &mut Notes,
    alloc: Global,
    version: u64,
    id: u128,
) -> Result<Gone, StepFault>
    requires known { IsKnownIn world.old notes.old }
    requires may { MayClear (known_of world.old notes.old) version }
    ensures { HasDone (ClearTurn version id world.old result world.new) (LearnsClear version id (known_of world.old notes.old) result (known_of world.new notes.new)) world.old notes.old world.new notes.new }
{
    let answer = world.clear(alloc, version, id);
    notes.note_clear(version, id, answer);
    answer
}
