ghost use Rattle.std.specs.Prelude.{◌≡◌, ◌<◌, false, length, OnOk};

use crate::untold::{LIMITS, Untold, commit};
use action_types::Key;
use object_store::MemStore;
use publisher::{ClearedAll, PublishError, Published, clear_all, drain, publish_all};
use snapshot_load::{LoadError, load, winners};
use std::alloc::Global;
use std::test::Fail as Stop;
use table_world::{Solo, StepFault, Steps, World};

const FIRST: &str = concat!(
    "{\"commitInfo\":{\"inCommitTimestamp\":1000,\"txnId\":\"00000000-0000-0000-0000-000000000001\"}}\n",
    "{\"protocol\":{\"minReaderVersion\":3,\"minWriterVersion\":7,\"readerFeatures\":[\"catalogManaged\"],",
    "\"writerFeatures\":[\"catalogManaged\",\"inCommitTimestamp\"]}}\n",
    "{\"metaData\":{\"configuration\":{},\"format\":{\"options\":{},\"provider\":\"parquet\"},\"id\":\"t1\",",
    "\"partitionColumns\":[],\"schemaString\":\"{}\"}}\n"
);

const SECOND: &str = concat!(
    "{\"commitInfo\":{\"inCommitTimestamp\":1001,\"txnId\":\"00000000-0000-0000-0000-000000000002\"}}\n",
    "{\"txn\":{\"appId\":\"A\",\"version\":7}}\n",
    "{\"add\":{\"dataChange\":true,\"modificationTime\":5,\"partitionValues\":{},\"path\":\"a\",\"size\":10}}\n"
);

/// Makes versions 0 and 1.
fn make_two<T: Steps>(caller: &mut T, alloc: Global) -> Result<(), StepFault>
    requires { T.tells ≡ false }
    ensures { OnOk result (0 < length (T.known caller.new).seen) }
{
    commit(caller, alloc, 0, FIRST)?;
    commit(caller, alloc, 1, SECOND)
}

/// The last version, its time, the size of the file `a` there, and the number of application `A`.
fn loaded<T: Steps>(caller: &mut T, alloc: Global) -> Result<(u64, i64, i64, i64), LoadError> {
    let snapshot = load(caller, alloc)?;
    let file = Key {
        path: "a",
        vector: None,
    };
    let size = snapshot.state.live(file).map_or(0, |add| add.size);
    let number = snapshot.state.number("A").unwrap_or(0);
    Ok((snapshot.latest, snapshot.time, size, number))
}

/// The last version, how many commits are after version 0, and how many actions the first of these has.
fn above_first<T: Steps>(caller: &mut T, alloc: Global) -> Result<(u64, usize, usize), LoadError>
    requires { 0 < length (T.known caller.old).seen }
{
    let winners = winners(caller, alloc, 0)?;
    let actions = match winners.commits.first() {
        Some(first) => first.len(),
        None => 0,
    };
    Ok((winners.latest, winners.commits.len(), actions))
}

fn loads(
    solo: &mut Solo<Untold>,
    alloc: Global,
) -> Result<((u64, i64, i64, i64), (u64, usize, usize)), LoadError> {
    make_two(solo, alloc)?;
    let above = above_first(solo, alloc)?;
    Ok((loaded(solo, alloc)?, above))
}

fn caller(alloc: Global) -> Option<Solo<Untold>> {
    let store = Untold(MemStore::new(alloc, Vec::new(alloc)));
    let world = World::start(alloc, store, LIMITS).ok()?;
    Some(Solo::new(world))
}

#[test]
fn two_versions_are_loaded(rt: HostRuntime) -> Result<(), Stop> {
    let alloc = rt.alloc();
    let mut solo = caller(alloc).ok_or("a caller")?;
    let answers = loads(&mut solo, alloc);
    let (_catalog, _store) = solo.into_world().close();
    assert_eq!(rt; answers?, ((1, 1001, 10, 7), (1, 1, 3)));
    Ok(())
}

fn published(
    solo: &mut Solo<Untold>,
    alloc: Global,
) -> Result<(Published, ClearedAll), PublishError> {
    make_two(solo, alloc)?;
    let published = publish_all(solo, alloc)?;
    Ok((published, clear_all(solo, alloc)?))
}

#[test]
fn two_versions_are_published_and_cleared(rt: HostRuntime) -> Result<(), Stop> {
    let alloc = rt.alloc();
    let mut solo = caller(alloc).ok_or("a caller")?;
    let answers = published(&mut solo, alloc);
    let (_catalog, _store) = solo.into_world().close();
    let (published, cleared) = answers?;
    assert_eq!(rt; (published.published, published.latest), (2, 1));
    assert_eq!(rt; (cleared.cleared, cleared.latest), (2, 1));
    Ok(())
}

/// Makes two versions and drains the table.
fn drained(solo: &mut Solo<Untold>, alloc: Global) -> Result<(), Stop> {
    make_two(solo, alloc)?;
    drain(solo, alloc)?;
    Ok(())
}

#[test]
fn two_versions_are_drained(rt: HostRuntime) -> Result<(), Stop> {
    let alloc = rt.alloc();
    let mut solo = caller(alloc).ok_or("a caller")?;
    let answer = drained(&mut solo, alloc);
    let (catalog, _store) = solo.into_world().close();
    answer?;
    assert_eq!(rt; (catalog.count(), catalog.reported()), (2, 2));
    Ok(())
}

#[test]
fn an_empty_table_has_no_version(rt: HostRuntime) -> Result<(), Stop> {
    let alloc = rt.alloc();
    let mut solo = caller(alloc).ok_or("a caller")?;
    let load = load(&mut solo, alloc).err();
    let publish = publish_all(&mut solo, alloc).err();
    let clear = clear_all(&mut solo, alloc).err();
    let drained = drain(&mut solo, alloc);
    let (_catalog, _store) = solo.into_world().close();
    assert!(rt; matches!(load, Some(LoadError::NoTable)));
    assert!(rt; matches!(publish, Some(PublishError::NoTable)));
    assert!(rt; matches!(clear, Some(PublishError::NoTable)));
    drained?;
    Ok(())
}
