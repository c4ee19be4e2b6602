ghost use Rattle.std.specs.Prelude.{◌≡◌, ◌<◌, false, length};

use crate::untold::{LIMITS, Untold, commit};
use action_types::Name;
use object_store::{Fail, MemStore, Store, StoreError};
use std::alloc::Global;
use std::test::Fail as Stop;
use table_world::{Bytes, Gone, LogName, Put, Solo, Staged, Start, StepFault, Steps, World};

const PUBLISHED: &str = "00000000000000000000.json";

fn world_turns(world: &mut World<MemStore>, alloc: Global) -> Result<[u64; 4], StepFault> {
    let commits = world.commits()?;
    let looked = world.lookup(0)?;
    let first = world.stage(alloc, 0, 1, b"text")?;
    let second = world.stage(alloc, 0, 1, b"text")?;
    let names = world.list(alloc)?;
    let file = world.get(alloc, LogName::Staged(0, 1))?;
    let stands = looked.found.is_none()
        && first == Staged::Done
        && second == Staged::Taken
        && matches!(file, Bytes::Whole(_));
    Ok([
        commits.count,
        looked.count,
        names.len() as u64,
        stands as u64,
    ])
}

#[test]
fn answers_of_a_world(rt: HostRuntime) -> Result<(), Stop> {
    let alloc = rt.alloc();
    let store = MemStore::new(alloc, Vec::new(alloc));
    let mut world = World::start(alloc, store, LIMITS).ok().ok_or("a world")?;
    let count = world.count();
    let limits = world.limits();
    let answers = world_turns(&mut world, alloc);
    let (catalog, _store) = world.close();
    assert_eq!(rt; answers?, [0, 0, 1, 1]);
    assert_eq!(rt; limits, LIMITS);
    assert_eq!(rt; (count, catalog.count()), (0, 0));
    Ok(())
}

/// What `World::start` answers over a store that has that file, and whose calls of these numbers fail.
fn started(alloc: Global, name: &str, fails: Vec<Fail>) -> Result<Name, StoreError> {
    let mut store = MemStore::new(alloc, fails);
    store.put_new(alloc, name, b"")?;
    match World::start(alloc, store, LIMITS) {
        Ok(world) => {
            let (_catalog, _store) = world.close();
            Ok(Name::from_str(alloc, "started")?)
        }
        Err(start) => refused(alloc, start),
    }
}

fn refused(alloc: Global, start: Start<MemStore>) -> Result<Name, StoreError> {
    match start {
        Start::NotEmpty {
            store: _store,
            name,
        } => Ok(Name::from_str(alloc, name.as_str())?),
        Start::Fault { store: _store } => Err(StoreError::Failed),
        Start::Memory { store: _store } => Err(StoreError::Memory),
    }
}

#[test]
fn a_folder_with_a_log_is_refused(rt: HostRuntime) -> Result<(), Stop> {
    let alloc = rt.alloc();
    for (name, answer) in [
        (PUBLISHED, PUBLISHED),
        ("_last_checkpoint", "started"),
        ("_staged_commits/notes", "started"),
    ] {
        assert_eq!(rt; started(alloc, name, Vec::new(alloc))?.as_str(), answer);
    }
    let fails = vec![in alloc;
        Fail {
            call: 2,
            took: false
        },
    ]?;
    assert!(rt; matches!(started(alloc, "notes", fails), Err(StoreError::Failed)));
    Ok(())
}

/// Publishes, reports and clears version 0.
fn publish_first<T: Steps>(caller: &mut T, alloc: Global) -> Result<(Put, u64, Gone), StepFault>
    requires untold { T.tells ≡ false }
    requires seen { 0 < length (T.known caller.old).seen }
{
    let put = caller.publish(alloc, 0, b"text")?;
    let reported = caller.report(alloc, 1)?;
    let gone = caller.clear(alloc, 0, 1)?;
    Ok((put, reported, gone))
}

/// The number of commits, and of files in the folder, and whether the published version 0 can be read and the last
/// version is found.
fn looks<T: Steps>(caller: &mut T, alloc: Global) -> Result<(u64, usize, bool), StepFault> {
    let commits = caller.commits(alloc)?;
    let looked = caller.lookup(alloc, commits.count.saturating_sub(1))?;
    let names = caller.list(alloc)?;
    let file = caller.get(alloc, LogName::Published(0))?;
    let is_found = looked.found.is_some() && looked.count == commits.count;
    Ok((
        commits.count,
        names.len(),
        matches!(file, Bytes::Whole(_)) && is_found,
    ))
}

/// Ratifies, publishes and clears a version, and then looks at the table.
fn turns(
    solo: &mut Solo<Untold>,
    alloc: Global,
) -> Result<((Put, u64, Gone), (u64, usize, bool)), StepFault> {
    commit(solo, alloc, 0, "text")?;
    let answers = publish_first(solo, alloc)?;
    Ok((answers, looks(solo, alloc)?))
}

#[test]
fn answers_of_the_one_caller(rt: HostRuntime) -> Result<(), Stop> {
    let alloc = rt.alloc();
    let store = Untold(MemStore::new(alloc, Vec::new(alloc)));
    let world = World::start(alloc, store, LIMITS).ok().ok_or("a world")?;
    let mut solo = Solo::new(world);
    let limits = solo.limits();
    let answers = turns(&mut solo, alloc);
    let (catalog, _store) = solo.into_world().close();
    assert_eq!(rt; answers?, ((Put::Done, 1, Gone::Done), (1, 1, true)));
    assert_eq!(rt; limits, LIMITS);
    assert_eq!(rt; (catalog.count(), catalog.reported()), (1, 1));
    Ok(())
}
