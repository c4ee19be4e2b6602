//! Writes that lose the race for version 1: other callers' commits are ratified between the load of the write and its ratification. The turns of
//! the session are from 1 to 3 those of its create, from 4 to 6 the load of the write, 7 the staging and 8 the ratification.
ghost use Rattle.std.specs.Prelude.{◌≤◌};
ghost use Rattle.commit_catalog.specs.Records.{AreLimits};

use crate::others::{
    ADDS, ALTERS, ALTERS_LATER, Commit, RECORDS_ABOVE, RECORDS_BELOW, RECORDS_LATER, RECORDS_SAME,
    committed,
};
use crate::replies::{
    BEHIND, CONTENDED, CREATE, CREATED, FULL, NUMBER_ABOVE, OF_ITS_APPLICATION, OF_THE_METADATA,
    OF_THE_SECOND, SAME_NUMBER, WRITE,
};
use crate::sessions::{LIMITS, session_beside, text};
use lake_io::End;
use std::alloc::Global;
use std::test::Fail as Stop;
use table_world::Limits;

/// The turn of the write that asks for its ratification.
const RATIFICATION: u64 = 8;

const ONE_ATTEMPT: Limits = Limits {
    versions: 1_000_000,
    unpublished: 1_000_000,
    attempts: 1,
    bytes: 16_777_216,
};

const TWO_VERSIONS: Limits = Limits {
    versions: 2,
    unpublished: 2,
    attempts: 64,
    bytes: 16_777_216,
};

/// Whether a write that loses the race to these commits is answered so.
fn answers(alloc: Global, limits: Limits, commits: &[&Commit], reply: &str) -> Result<bool, Stop>
    requires limits { AreLimits limits }
    requires roomy { limits.versions ≤ limits.unpublished }
{
    let mut others = Vec::new(alloc);
    for commit in commits {
        others.append(&mut committed(alloc, RATIFICATION, commit)?)?;
    }
    let outcome = session_beside(alloc, limits, others, &[CREATE, WRITE])?;
    let expected = text(alloc, &[CREATED, reply])?;
    Ok(outcome.end == End::Done && outcome.written.as_slice() == expected.as_slice())
}

#[test]
fn a_commit_that_does_not_clash_is_passed(rt: HostRuntime) -> Result<(), Stop> {
    assert!(rt; answers(rt.alloc(), LIMITS, &[&ADDS], BEHIND)?);
    Ok(())
}

#[test]
fn a_commit_of_the_application_or_of_the_metadata_clashes(rt: HostRuntime) -> Result<(), Stop> {
    let alloc = rt.alloc();
    assert!(rt; answers(alloc, LIMITS, &[&RECORDS_BELOW], OF_ITS_APPLICATION)?);
    assert!(rt; answers(alloc, LIMITS, &[&ALTERS], OF_THE_METADATA)?);
    Ok(())
}

#[test]
fn the_first_commit_that_clashes_is_named(rt: HostRuntime) -> Result<(), Stop> {
    let commits = [&ADDS, &ALTERS_LATER, &RECORDS_LATER];
    assert!(rt; answers(rt.alloc(), LIMITS, commits.as_slice(), OF_THE_SECOND)?);
    Ok(())
}

#[test]
fn a_recorded_number_comes_before_a_clash(rt: HostRuntime) -> Result<(), Stop> {
    let alloc = rt.alloc();
    assert!(rt; answers(alloc, LIMITS, &[&RECORDS_SAME], SAME_NUMBER)?);
    assert!(rt; answers(alloc, LIMITS, &[&RECORDS_ABOVE], NUMBER_ABOVE)?);
    Ok(())
}

#[test]
fn attempts_and_versions_have_an_end(rt: HostRuntime) -> Result<(), Stop> {
    let alloc = rt.alloc();
    assert!(rt; answers(alloc, ONE_ATTEMPT, &[&ADDS], CONTENDED)?);
    assert!(rt; answers(alloc, TWO_VERSIONS, &[&ADDS], FULL)?);
    Ok(())
}
