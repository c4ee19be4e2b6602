//! A session beside other callers.
ghost use Rattle.std.specs.Prelude.{◌≡◌, ◌≤◌, IfSome};
ghost use Rattle.commit_catalog.specs.Records.{AreLimits};

use lake_io::{End, FixedClock, ListIds, MemSink, MemSource};
use object_store::MemStore;
use std::alloc::{AllocError, Global};
use std::test::Fail as Stop;
use table_meddler::{Foreign, Meddler};
use table_session::session;
use table_world::{Limits, World};

pub const LIMITS: Limits = Limits {
    versions: 1_000_000,
    unpublished: 1_000_000,
    attempts: 64,
    bytes: 16_777_216,
};

/// What a session came to: how it ended, what it wrote, and the numbers of commits and of reported versions then.
#[derive(Drop)]
pub struct Outcome {
    pub end: End,
    pub written: Vec<u8>,
    pub commits: u64,
    pub reported: u64,
}

/// The parts, one after another.
pub fn text(alloc: Global, parts: &[&str]) -> Result<Vec<u8>, AllocError> {
    let mut all = Vec::new(alloc);
    for part in parts {
        all.extend_from_slice(part.as_bytes())?;
    }
    Ok(all)
}

/// A new table in memory.
fn table(alloc: Global, limits: Limits) -> Option<World<MemStore>>
    requires { AreLimits limits }
    ensures { IfSome result (λ w. w.limits ≡ limits) }
{
    match World::start(alloc, MemStore::new(alloc, Vec::new(alloc)), limits) {
        Ok(world) => Some(world),
        Err(_) => None,
    }
}

/// Holds a session at 1000 with ids from 1, beside these turns of others.
fn held(
    alloc: Global,
    world: World<MemStore>,
    others: Vec<Foreign>,
    input: Vec<u8>,
) -> (End, MemSink, World<MemStore>)
    requires { world.limits.versions ≤ world.limits.unpublished }
{
    let mut caller = Meddler::new(world, others);
    let mut source = MemSource::new(input, 64, Vec::new(alloc));
    let mut sink = MemSink::new(alloc, Vec::new(alloc));
    let mut clock = FixedClock::new(1000);
    let mut ids = ListIds::from(alloc, 1);
    let end = session(
        &mut caller,
        alloc,
        &mut source,
        &mut sink,
        &mut clock,
        &mut ids,
    );
    (end, sink, caller.into_world())
}

/// What a session over a new table of these limits comes to, beside these turns of others.
pub fn session_beside(
    alloc: Global,
    limits: Limits,
    others: Vec<Foreign>,
    input: &[&str],
) -> Result<Outcome, Stop>
    requires limits { AreLimits limits }
    requires roomy { limits.versions ≤ limits.unpublished }
{
    let input = text(alloc, input)?;
    let world = table(alloc, limits).ok_or("the world starts")?;
    let (end, sink, world) = held(alloc, world, others, input);
    let (catalog, _store) = world.close();
    Ok(Outcome {
        end,
        written: sink.written().to_vec(alloc)?,
        commits: catalog.count(),
        reported: catalog.reported(),
    })
}
