//! The turns of one caller among others: those of the others that stand before it, and then its own, noted.

ghost use Rattle.std.specs.Prelude.{IsSome};
ghost use Rattle.log_names.specs.Texts.{name_text};
ghost use Rattle.table_model.specs.Turns.{CommitsTurn, LookupTurn, ListTurn, GetTurn, StageTurn, RatifyTurn, PublishTurn, ReportTurn, ClearTurn};
ghost use Rattle.table_model.specs.Conditions.{MayRatify, MayPublish, MayReport, MayClear};
ghost use Rattle.table_model.specs.Learning.{LearnsCommits, LearnsLookup, LearnsList, LearnsGet, LearnsStage, LearnsRatify, LearnsPublish, LearnsReport, LearnsClear};
ghost use Rattle.table_model.specs.Noted.{known_of};
ghost use Rattle.table_world.specs.Done.{IsKnownIn};
ghost use Rattle.table_meddler.specs.Among.{HasDoneAmong, IsMet};

use crate::foreign::Foreign;
use crate::making::meddle;
use commit_catalog::{Commits, Ratify};
use log_names::LogName;
use object_store::{Bytes, Gone, Put, Store};
use std::alloc::Global;
use table_model::{Looked, Notes, Staged, StepFault};
use table_world::{World, turns};

/// The catalogue now.
pub(crate) fn commits<S: Store>(
    world: &mut World<S>,
    notes: &mut Notes,
    others: &[Foreign],
    number: u64,
    alloc: Global,
) -> Result<Commits, StepFault>
    requires known { IsKnownIn world.old notes.old }
    ensures { HasDoneAmong (IsMet CommitsTurn result others.now number world.old world.new) (LearnsCommits world.old.tells (known_of world.old notes.old) result (known_of world.new notes.new)) world.old notes.old world.new notes.new }
{
    meddle(world, alloc, others, number)?;
    turns::commits(world, notes)
}

/// The ratified commit of a version, if there is one, and the number of commits.
pub(crate) fn lookup<S: Store>(
    world: &mut World<S>,
    notes: &mut Notes,
    others: &[Foreign],
    number: u64,
    alloc: Global,
    version: u64,
) -> Result<Looked, StepFault>
    requires known { IsKnownIn world.old notes.old }
    ensures { HasDoneAmong (IsMet (LookupTurn version) result others.now number world.old world.new) (LearnsLookup world.old.tells version (known_of world.old notes.old) result (known_of world.new notes.new)) world.old notes.old world.new notes.new }
{
    meddle(world, alloc, others, number)?;
    turns::lookup(world, notes, version)
}

/// The names of the log in the folder.
pub(crate) fn list<S: Store>(
    world: &mut World<S>,
    notes: &mut Notes,
    others: &[Foreign],
    number: u64,
    alloc: Global,
) -> Result<Vec<LogName>, StepFault>
    requires known { IsKnownIn world.old notes.old }
    ensures { HasDoneAmong (IsMet ListTurn result others.now number world.old world.new) (LearnsList world.old.tells (known_of world.old notes.old) result (known_of world.new notes.new)) world.old notes.old world.new notes.new }
{
    meddle(world, alloc, others, number)?;
    turns::list(world, notes, alloc)
}

/// The file of a name that has a text.
pub(crate) fn get<S: Store>(
    world: &mut World<S>,
    notes: &mut Notes,
    others: &[Foreign],
    number: u64,
    alloc: Global,
    name: LogName,
) -> Result<Bytes, StepFault>
    requires known { IsKnownIn world.old notes.old }
    requires text { IsSome (name_text name) }
    ensures { HasDoneAmong (IsMet (GetTurn name) result others.now number world.old world.new) (LearnsGet world.old.tells name (known_of world.old notes.old) result (known_of world.new notes.new)) world.old notes.old world.new notes.new }
{
    meddle(world, alloc, others, number)?;
    turns::get(world, notes, alloc, name)
}

/// Stages a commit of a version under an id.
pub(crate) fn stage<S: Store>(
    world: &mut World<S>,
    notes: &mut Notes,
    others: &[Foreign],
    number: u64,
    alloc: Global,
    version: u64,
    id: u128,
    bytes: &[u8],
) -> Result<Staged, StepFault>
    requires known { IsKnownIn world.old notes.old }
    ensures { HasDoneAmong (IsMet (StageTurn version id bytes.now) result others.now number world.old world.new) (LearnsStage version id bytes.now (known_of world.old notes.old) result (known_of world.new notes.new)) world.old notes.old world.new notes.new }
{
    meddle(world, alloc, others, number)?;
    turns::stage(world, notes, alloc, version, id, bytes)
}

/// Ratifies a staged commit as a version.
pub(crate) fn ratify<S: Store>(
    world: &mut World<S>,
    notes: &mut Notes,
    others: &[Foreign],
    number: u64,
    alloc: Global,
    version: u64,
    id: u128,
    time: i64,
) -> Result<Ratify, StepFault>
    requires known { IsKnownIn world.old notes.old }
    requires may { MayRatify world.old.tells (known_of world.old notes.old) version id time }
    ensures { HasDoneAmong (IsMet (RatifyTurn version id time) result others.now number world.old world.new) (LearnsRatify world.old.tells version id (known_of world.old notes.old) result (known_of world.new notes.new)) world.old notes.old world.new notes.new }
{
    meddle(world, alloc, others, number)?;
    turns::ratify(world, notes, version, id, time)
}

/// Publishes a ratified version.
pub(crate) fn publish<S: Store>(
    world: &mut World<S>,
    notes: &mut Notes,
    others: &[Foreign],
    number: u64,
    alloc: Global,
    version: u64,
    bytes: &[u8],
) -> Result<Put, StepFault>
    requires known { IsKnownIn world.old notes.old }
    requires may { MayPublish world.old.tells (known_of world.old notes.old) version bytes.now }
    ensures { HasDoneAmong (IsMet (PublishTurn version bytes.now) result others.now number world.old world.new) (LearnsPublish version (known_of world.old notes.old) result (known_of world.new notes.new)) world.old notes.old world.new notes.new }
{
    meddle(world, alloc, others, number)?;
    turns::publish(world, notes, alloc, version, bytes)
}

/// Reports that the versions below `count` are published.
pub(crate) fn report<S: Store>(
    world: &mut World<S>,
    notes: &mut Notes,
    others: &[Foreign],
    number: u64,
    alloc: Global,
    count: u64,
) -> Result<u64, StepFault>
    requires known { IsKnownIn world.old notes.old }
    requires may { MayReport (known_of world.old notes.old) count }
    ensures { HasDoneAmong (IsMet (ReportTurn count) result others.now number world.old world.new) (LearnsReport count (known_of world.old notes.old) result (known_of world.new notes.new)) world.old notes.old world.new notes.new }
{
    meddle(world, alloc, others, number)?;
    turns::report(world, notes, count)
}

/// Clears the staged file of a reported version.
pub(crate) fn clear<S: Store>(
    world: &mut World<S>,
    notes: &mut Notes,
    others: &[Foreign],
    number: u64,
    alloc: Global,
    version: u64,
    id: u128,
) -> Result<Gone, StepFault>
    requires known { IsKnownIn world.old notes.old }
    requires may { MayClear (known_of world.old notes.old) version }
    ensures { HasDoneAmong (IsMet (ClearTurn version id) result others.now number world.old world.new) (LearnsClear version id (known_of world.old notes.old) result (known_of world.new notes.new)) world.old notes.old world.new notes.new }
{
    meddle(world, alloc, others, number)?;
    turns::clear(world, notes, alloc, version, id)
}
