//! The turns of other callers, each with the test of its condition.

ghost use Rattle.std.specs.Prelude.{◌≡◌, ◌==◌, MatchResult, Err};
ghost use Rattle.table_model.specs.Consistency.{IsConsistent};
ghost use Rattle.table_meddler.specs.declared.foreign.Turn.TheVariants as turn;
ghost use Rattle.table_meddler.specs.Others.{IsAnswered, IsRead, Meets, IsDone, AreMade, AreCutShort};
ghost use Rattle.table_meddler.specs.Among.{LeadsTo};

use crate::foreign::{Fate, Foreign, Turn};
use crate::judging::{may_clear, may_publish, may_ratify, may_report};
use log_names::LogName;
use object_store::Store;
use std::alloc::{AllocError, Global};
use table_model::StepFault;
use table_world::World;

/// The turn was made, unless it was refused for want of memory.
fn made<A: Drop>(answer: Result<A, StepFault>) -> Result<Fate, AllocError>
    ensures { MatchResult result (λ fate. (fate ≡ Fate.Made) × IsAnswered answer) (λ _. answer ≡ Err StepFault.Memory) }
{
    match answer {
        Ok(_) => Ok(Fate::Made),
        Err(StepFault::Fault { .. }) => Ok(Fate::Made),
        Err(StepFault::Memory) => Err(AllocError),
    }
}

/// Another caller asks for the catalogue.
fn commits<S: Store>(world: &mut World<S>) -> Result<Fate, AllocError>
    requires consistent { IsConsistent world.old }
    ensures meets { MatchResult result (λ fate. Meets turn.Commits fate world.old world.new) (λ _. IsRead world.old world.new) }
    ensures leads { LeadsTo world.old world.new }
{
    made(world.commits())
}

/// Another caller looks for a version.
fn lookup<S: Store>(world: &mut World<S>, version: u64) -> Result<Fate, AllocError>
    requires consistent { IsConsistent world.old }
    ensures meets { MatchResult result (λ fate. Meets (turn.Lookup version) fate world.old world.new) (λ _. IsRead world.old world.new) }
    ensures leads { LeadsTo world.old world.new }
{
    made(world.lookup(version))
}

/// Another caller lists the folder.
fn list<S: Store>(world: &mut World<S>, alloc: Global) -> Result<Fate, AllocError>
    requires consistent { IsConsistent world.old }
    ensures meets { MatchResult result (λ fate. Meets turn.List fate world.old world.new) (λ _. IsRead world.old world.new) }
    ensures leads { LeadsTo world.old world.new }
{
    made(world.list(alloc))
}

/// Another caller reads a file.
fn get<S: Store>(world: &mut World<S>, alloc: Global, name: LogName) -> Result<Fate, AllocError>
    requires consistent { IsConsistent world.old }
    ensures meets { MatchResult result (λ fate. Meets (turn.Get name) fate world.old world.new) (λ _. IsRead world.old world.new) }
    ensures leads { LeadsTo world.old world.new }
{
    if name.text().is_none() {
        return Ok(Fate::Passed);
    }
    made(world.get(alloc, name))
}

/// Another caller stages a commit.
fn stage<S: Store>(
    world: &mut World<S>,
    alloc: Global,
    version: u64,
    id: u128,
    bytes: &Vec<u8>,
) -> Result<Fate, AllocError>
    requires consistent { IsConsistent world.old }
    ensures meets { MatchResult result (λ fate. Meets (turn.Stage version id bytes.now) fate world.old world.new) (λ _. IsRead world.old world.new) }
    ensures leads { LeadsTo world.old world.new }
{
    made(world.stage(alloc, version, id, bytes.as_slice()))
}

/// Another caller ratifies the next version.
fn ratify<S: Store>(
    world: &mut World<S>,
    alloc: Global,
    version: u64,
    id: u128,
    time: i64,
) -> Result<Fate, AllocError>
    requires consistent { IsConsistent world.old }
    ensures meets { MatchResult result (λ fate. Meets (turn.Ratify version id time) fate world.old world.new) (λ _. IsRead world.old world.new) }
    ensures leads { LeadsTo world.old world.new }
{
    match may_ratify(world, alloc, version, id, time) {
        Ok(true) => {}
        Ok(false) => return Ok(Fate::Passed),
        Err(StepFault::Fault { .. }) => return Ok(Fate::Untested),
        Err(StepFault::Memory) => return Err(AllocError),
    }
    made(world.ratify(version, id, time))
}

/// Another caller publishes a ratified version.
fn publish<S: Store>(
    world: &mut World<S>,
    alloc: Global,
    version: u64,
    bytes: &Vec<u8>,
) -> Result<Fate, AllocError>
    requires consistent { IsConsistent world.old }
    ensures meets { MatchResult result (λ fate. Meets (turn.Publish version bytes.now) fate world.old world.new) (λ _. IsRead world.old world.new) }
    ensures leads { LeadsTo world.old world.new }
{
    let text = bytes.as_slice();
    match may_publish(world, alloc, version, text) {
        Ok(true) => {}
        Ok(false) => return Ok(Fate::Passed),
        Err(StepFault::Fault { .. }) => return Ok(Fate::Untested),
        Err(StepFault::Memory) => return Err(AllocError),
    }
    made(world.publish(alloc, version, text))
}

/// Another caller reports published versions.
fn report<S: Store>(world: &mut World<S>, alloc: Global, count: u64) -> Result<Fate, AllocError>
    requires consistent { IsConsistent world.old }
    ensures meets { MatchResult result (λ fate. Meets (turn.Report count) fate world.old world.new) (λ _. IsRead world.old world.new) }
    ensures leads { LeadsTo world.old world.new }
{
    match may_report(world, alloc, count) {
        Ok(true) => {}
        Ok(false) => return Ok(Fate::Passed),
        Err(StepFault::Fault { .. }) => return Ok(Fate::Untested),
        Err(StepFault::Memory) => return Err(AllocError),
    }
    made(world.report(count))
}

/// Another caller clears a staged file.
fn clear<S: Store>(
    world: &mut World<S>,
    alloc: Global,
    version: u64,
    id: u128,
) -> Result<Fate, AllocError>
    requires consistent { IsConsistent world.old }
    ensures meets { MatchResult result (λ fate. Meets (turn.Clear version id) fate world.old world.new) (λ _. IsRead world.old world.new) }
    ensures leads { LeadsTo world.old world.new }
{
    match may_clear(world, version) {
        Ok(true) => {}
        Ok(false) => return Ok(Fate::Passed),
        Err(StepFault::Fault { .. }) => return Ok(Fate::Untested),
        Err(StepFault::Memory) => return Err(AllocError),
    }
    made(world.clear(alloc, version, id))
}

/// Another caller makes its turn where the condition of the turn holds.
fn make<S: Store>(world: &mut World<S>, alloc: Global, turn: &Turn) -> Result<Fate, AllocError>
    requires consistent { IsConsistent world.old }
    ensures meets { MatchResult result (λ fate. Meets turn.now fate world.old world.new) (λ _. IsRead world.old world.new) }
    ensures leads { LeadsTo world.old world.new }
{
    match turn {
        Turn::Commits => commits(world),
        Turn::Lookup { version } => lookup(world, *version),
        Turn::List => list(world, alloc),
        Turn::Get { name } => get(world, alloc, *name),
        Turn::Stage { version, id, bytes } => stage(world, alloc, *version, *id, bytes),
        Turn::Ratify { version, id, time } => ratify(world, alloc, *version, *id, *time),
        Turn::Publish { version, bytes } => publish(world, alloc, *version, bytes),
        Turn::Report { count } => report(world, alloc, *count),
        Turn::Clear { version, id } => clear(world, alloc, *version, *id),
    }
}

/// Another caller's turn, if it stands before the caller's turn of this number. Refused for want of memory alone.
fn make_before<S: Store>(
    world: &mut World<S>,
    alloc: Global,
    foreign: &Foreign,
    number: u64,
) -> Result<(), AllocError>
    requires consistent { IsConsistent world.old }
    ensures done { MatchResult result (λ _. IsDone (foreign.now.before == number) foreign.now.turn world.old world.new) (λ _. (foreign.now.before ≡ number) × IsRead world.old world.new) }
    ensures leads { LeadsTo world.old world.new }
{
    if foreign.before != number {
        return Ok(());
    }
    let _ = make(world, alloc, &foreign.turn)?;
    Ok(())
}

/// The turns of other callers that stand before the caller's turn of this number, in order. Refused where memory is
/// short at one of them; those after it are not made.
pub(crate) fn meddle<S: Store>(
    world: &mut World<S>,
    alloc: Global,
    turns: &[Foreign],
    number: u64,
) -> Result<(), AllocError>
    requires consistent { IsConsistent world.old }
    ensures made { MatchResult result (λ _. AreMade turns.now number world.old world.new) (λ _. AreCutShort turns.now number world.old world.new) }
    ensures leads { LeadsTo world.old world.new }
{
    for foreign in turns {
        make_before(world, alloc, foreign, number)?;
    }
    Ok(())
}
