ghost use Rattle.std.specs.Prelude.{◌≡◌, ◌<◌, ◌≤◌, false, length, OnOk};
ghost use Rattle.object_store.specs.Files.{no_files};

use action_types::Name;
use object_store::{MemStore, Store, StoreError};
use std::alloc::Global;
use table_world::{Bytes, Gone, Limits, Put, Ratify, Staged, StepFault, Steps};

pub const LIMITS: Limits = Limits {
    versions: 10,
    unpublished: 10,
    attempts: 2,
    bytes: 1024,
};

/// A store in memory of which nothing is told: over it a commit can be ratified without a proof of what its text says.
#[derive(Drop)]
pub struct Untold(pub MemStore);

impl Store for Untold {
    ghost tells = { false };

    ghost files = { λ _. no_files };

    ghost faults = { λ s. s.0.faults };

    fn put_new(&mut self, alloc: Global, name: &str, bytes: &[u8]) -> Result<Put, StoreError> {
        self.0.put_new(alloc, name, bytes)
    }

    fn get(&mut self, alloc: Global, name: &str) -> Result<Bytes, StoreError> {
        self.0.get(alloc, name)
    }

    fn list(&mut self, alloc: Global) -> Result<Vec<Name>, StoreError> {
        self.0.list(alloc)
    }

    fn delete(&mut self, alloc: Global, name: &str) -> Result<Gone, StoreError> {
        self.0.delete(alloc, name)
    }
}

/// Stages and ratifies a text as the next version, under the id after its number.
pub fn commit<T: Steps>(
    caller: &mut T,
    alloc: Global,
    version: u64,
    text: &str,
) -> Result<(), StepFault>
    requires untold { T.tells ≡ false }
    requires below { version ≤ length (T.known caller.old).seen }
    ensures { OnOk result (version < length (T.known caller.new).seen) }
{
    let id = version as u128 + 1;
    let Staged::Done = caller.stage(alloc, version, id, text.as_bytes())? else {
        return Err(StepFault::Memory);
    };
    match caller.ratify(alloc, version, id, 1000)? {
        Ratify::Done => Ok(()),
        _ => Err(StepFault::Memory),
    }
}
