ghost use Rattle.std.specs.Prelude.{◌≡◌, [], true, Err, IfOk, MatchResult};
ghost use Rattle.object_store.specs.Files.{no_files};
ghost use Rattle.object_store.specs.InMemory.{MemPuts, MemGets, MemLists, MemListFails, MemDeletes};
ghost use Rattle.object_store.specs.Telling.{PutAnswers, GetAnswers, ListAnswers, DeleteAnswers, CountsFault, IsLast};
ghost use Rattle.object_store.specs.declared.store.StoreError.TheVariants.{Memory};

use crate::plan::{Fail, Plan};
use crate::shelf::Shelf;
use crate::store::{Bytes, Gone, Put, Store, StoreError};
use action_types::Name;
use std::alloc::Global;
use std::marker::Model;

/// A store in memory. Its calls are counted from 1; those of a list fail, each done whole or not as the list says.
/// A call that answers `Memory` is not counted.
#[derive(Drop)]
pub struct MemStore {
    files: Shelf,
    plan: Plan,
}

impl Model for MemStore {
    ghost use Rattle.std.specs.Coded.{codes};
    ghost use Rattle.object_store.specs.Files.{files_code};
    ghost use Rattle.object_store.specs.InMemory.{MemData};

    ghost Value = { MemData };

    ghost coded = { Prim.hlevel (codes, files_code) };

    ghost view = { λ s. record { files = s.files; fails = s.plan.fails.items; calls = s.plan.calls; faults = s.plan.faults } };
}

impl MemStore {
    /// A store without files, whose calls of these numbers fail. It takes no memory.
    pub fn new(alloc: Global, fails: Vec<Fail>) -> MemStore
        ensures { result ≡ record { files = no_files; fails = fails.items; calls = 0; faults = 0 } }
    {
        MemStore {
            files: Shelf::new(alloc),
            plan: Plan {
                fails,
                calls: 0,
                faults: 0,
            },
        }
    }

    /// `put_new` of the store, exactly.
    fn put(&mut self, alloc: Global, name: &str, bytes: &[u8]) -> Result<Put, StoreError>
        ensures { MemPuts self.old name.now bytes.now result self.new }
    {
        if self.plan.is_spent() {
            return Err(StoreError::Memory);
        }
        let there = self.files.has(name);
        if let Some(fail) = self.plan.next_fail() {
            self.files.put_if(alloc, fail.took, name, bytes)?;
            self.plan.fail();
            return Err(StoreError::Failed);
        }
        self.files.put(alloc, name, bytes)?;
        self.plan.pass();
        if there {
            return Ok(Put::There);
        }
        Ok(Put::Done)
    }

    /// `get` of the store, exactly.
    fn read(&mut self, alloc: Global, name: &str) -> Result<Bytes, StoreError>
        ensures { MemGets self.old name.now result self.new }
    {
        if self.plan.is_spent() {
            return Err(StoreError::Memory);
        }
        if let Some(_fail) = self.plan.next_fail() {
            self.plan.fail();
            return Err(StoreError::Failed);
        }
        let Some(bytes) = self.files.get(name) else {
            self.plan.pass();
            return Ok(Bytes::Absent);
        };
        let whole = bytes.as_slice().to_vec(alloc)?;
        self.plan.pass();
        Ok(Bytes::Whole(whole))
    }

    /// `list` of the store, exactly.
    fn names(&mut self, alloc: Global) -> Result<Vec<Name>, StoreError>
        ensures { MatchResult result (λ names. MemLists self.old names.items self.new) (λ e. MemListFails self.old e self.new) }
    {
        if self.plan.is_spent() {
            return Err(StoreError::Memory);
        }
        if let Some(_fail) = self.plan.next_fail() {
            self.plan.fail();
            return Err(StoreError::Failed);
        }
        let names = self.files.names(alloc)?;
        self.plan.pass();
        Ok(names)
    }

    /// `delete` of the store, exactly.
    fn remove(&mut self, name: &str) -> Result<Gone, StoreError>
        ensures { MemDeletes self.old name.now result self.new }
    {
        if self.plan.is_spent() {
            return Err(StoreError::Memory);
        }
        if let Some(fail) = self.plan.next_fail() {
            self.files.remove_if(fail.took, name);
            self.plan.fail();
            return Err(StoreError::Failed);
        }
        if self.files.has(name) {
            self.files.remove(name);
            self.plan.pass();
            return Ok(Gone::Done);
        }
        self.plan.pass();
        Ok(Gone::Absent)
    }
}

impl Store for MemStore {
    ghost tells = { true };

    ghost files = { λ s. s.files };

    ghost faults = { λ s. s.faults };

    fn put_new(&mut self, alloc: Global, name: &str, bytes: &[u8]) -> Result<Put, StoreError>
        ensures exact { MemPuts self.old name.now bytes.now result self.new }
        ensures told { PutAnswers true self.old.files name.now bytes.now result self.new.files }
        ensures counts { CountsFault self.old.faults result self.new.faults }
        ensures last { IsLast self.old.faults → result ≡ Err Memory }
    {
        self.put(alloc, name, bytes)
    }

    fn get(&mut self, alloc: Global, name: &str) -> Result<Bytes, StoreError>
        ensures exact { MemGets self.old name.now result self.new }
        ensures told { GetAnswers true self.old.files name.now result }
        ensures files { self.new.files ≡ self.old.files }
        ensures counts { CountsFault self.old.faults result self.new.faults }
        ensures last { IsLast self.old.faults → result ≡ Err Memory }
    {
        self.read(alloc, name)
    }

    fn list(&mut self, alloc: Global) -> Result<Vec<Name>, StoreError>
        ensures exact { MatchResult result (λ names. MemLists self.old names.items self.new) (λ e. MemListFails self.old e self.new) }
        ensures told { IfOk result (λ names. ListAnswers true self.old.files names.items) }
        ensures files { self.new.files ≡ self.old.files }
        ensures counts { CountsFault self.old.faults result self.new.faults }
        ensures last { IsLast self.old.faults → result ≡ Err Memory }
    {
        self.names(alloc)
    }

    fn delete(&mut self, _alloc: Global, name: &str) -> Result<Gone, StoreError>
        ensures exact { MemDeletes self.old name.now result self.new }
        ensures told { DeleteAnswers true self.old.files name.now result self.new.files }
        ensures counts { CountsFault self.old.faults result self.new.faults }
        ensures last { IsLast self.old.faults → result ≡ Err Memory }
    {
        self.remove(name)
    }
}
