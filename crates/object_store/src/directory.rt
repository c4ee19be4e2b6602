//! A store over a directory.

ghost use Rattle.std.specs.Prelude.{◌≡◌, ◌+◌, ◌^◌, ◌<◌, ◌↔◌, false, Err, IfOk, IsTrue, MatchResult};
ghost use Rattle.object_store.specs.Directory.{Admits, Bars, DirPuts, DirGets, DirLists, DirListFails, DirDeletes};
ghost use Rattle.object_store.specs.Files.{no_files};
ghost use Rattle.object_store.specs.Telling.{PutAnswers, GetAnswers, ListAnswers, DeleteAnswers, CountsFault, IsLast};
ghost use Rattle.object_store.specs.declared.store.StoreError.TheVariants.{Failed, Memory};

use crate::asking::{delete_file, list_files, put_file};
use crate::disk::{Disk, DiskFault, Folder};
use crate::folder_names::folder_of;
use crate::store::{Bytes, Gone, Put, Store, StoreError};
use action_types::Name;
use std::alloc::Global;
use std::marker::Model;

/// A store over a folder `_delta_log` with the folder `_staged_commits` in it. It does not tell what they hold: its calls answer what
/// the calls of the disk answered, and it counts a fault exactly where one of these failed, or where a name is that of no file of the
/// two folders, at which the disk is not asked.
#[derive(Drop)]
pub struct DirStore<D: Disk + Drop> {
    disk: D,
    next: u64,
    faults: u64,
}

impl<D: Disk + Drop> Model for DirStore<D> {
    ghost use Rattle.object_store.specs.Directory.{DirData};

    ghost Value = { DirData D };

    ghost view = { λ s. record { disk = s.disk; next = s.next; faults = s.faults } };
}

impl<D: Disk + Drop> DirStore<D> {
    /// A store over this disk, whose first names from this number on do not stand. No call has failed.
    pub fn new(disk: D, next: u64) -> Self
        ensures { result ≡ record { disk = disk; next = next; faults = 0 } }
    {
        DirStore {
            disk,
            next,
            faults: 0,
        }
    }

    /// How many calls failed.
    pub fn faults(&self) -> u64
        ensures { result ≡ self.now.faults }
    {
        self.faults
    }

    /// Whether the count of faults stands at its last value.
    fn is_spent(&self) -> bool
        ensures spent { IsTrue result ↔ IsLast self.now.faults }
        ensures free { result ≡ false → self.now.faults + 1 < 2 ^ 64 }
    {
        self.faults == u64::MAX
    }

    /// Counts a call that failed.
    fn fail(&mut self) -> StoreError
        requires { self.old.faults + 1 < 2 ^ 64 }
        ensures failed { result ≡ Failed }
        ensures counted { self.new ≡ record self.old { faults = self.old.faults + 1 } }
    {
        self.faults += 1;
        StoreError::Failed
    }

    /// The folder of the file of that name, where the disk may be asked.
    fn admit(&mut self, name: &str) -> Result<Folder, StoreError>
        ensures admits { IfOk result (λ folder. Admits self.old name.now folder) }
        ensures same { IfOk result (λ _. self.new ≡ self.old) }
        ensures bars { MatchResult result (λ _. Unit {0}) (λ e. Bars self.old name.now e self.new) }
    {
        if self.is_spent() {
            return Err(StoreError::Memory);
        }
        match folder_of(name.as_bytes()) {
            Some(folder) => Ok(folder),
            None => Err(self.fail()),
        }
    }

    /// `put_new` of the store, exactly.
    fn put(&mut self, name: &str, bytes: &[u8]) -> Result<Put, StoreError>
        ensures { DirPuts D.did self.old name.now bytes.now result self.new }
    {
        let folder = match self.admit(name) {
            Ok(folder) => folder,
            Err(e) => return Err(e),
        };
        let number = self.next;
        self.next = number.saturating_add(1);
        match put_file(&mut self.disk, folder, number, name, bytes) {
            Ok(put) => Ok(put),
            Err(DiskFault) => Err(self.fail()),
        }
    }

    /// `get` of the store, exactly.
    fn read(&mut self, alloc: Global, name: &str) -> Result<Bytes, StoreError>
        ensures { DirGets D.did self.old name.now result self.new }
    {
        let folder = match self.admit(name) {
            Ok(folder) => folder,
            Err(e) => return Err(e),
        };
        match self.disk.read(alloc, folder, name) {
            Ok(answer) => Ok(answer),
            Err(StoreError::Memory) => Err(StoreError::Memory),
            Err(StoreError::Failed) => Err(self.fail()),
        }
    }

    /// `list` of the store, exactly.
    fn names(&mut self, alloc: Global) -> Result<Vec<Name>, StoreError>
        ensures { MatchResult result (λ names. DirLists D.did self.old names.items self.new) (λ e. DirListFails D.did self.old e self.new) }
    {
        if self.is_spent() {
            return Err(StoreError::Memory);
        }
        match list_files(&mut self.disk, alloc) {
            Ok(names) => Ok(names),
            Err(StoreError::Memory) => Err(StoreError::Memory),
            Err(StoreError::Failed) => Err(self.fail()),
        }
    }

    /// `delete` of the store, exactly.
    fn remove(&mut self, name: &str) -> Result<Gone, StoreError>
        ensures { DirDeletes D.did self.old name.now result self.new }
    {
        let folder = match self.admit(name) {
            Ok(folder) => folder,
            Err(e) => return Err(e),
        };
        match delete_file(&mut self.disk, folder, name) {
            Ok(gone) => Ok(gone),
            Err(DiskFault) => Err(self.fail()),
        }
    }
}

impl<D: Disk + Drop> Store for DirStore<D> {
    ghost tells = { false };

    ghost files = { λ _. no_files };

    ghost faults = { λ s. s.faults };

    /// Makes the file under a first name, then links it under its own, removes the first name and syncs the folder.
    fn put_new(&mut self, _alloc: Global, name: &str, bytes: &[u8]) -> Result<Put, StoreError>
        ensures exact { DirPuts D.did self.old name.now bytes.now result self.new }
        ensures told { PutAnswers false no_files name.now bytes.now result no_files }
        ensures counts { CountsFault self.old.faults result self.new.faults }
        ensures last { IsLast self.old.faults → result ≡ Err Memory }
    {
        self.put(name, bytes)
    }

    /// Reads the whole file.
    fn get(&mut self, alloc: Global, name: &str) -> Result<Bytes, StoreError>
        ensures exact { DirGets D.did self.old name.now result self.new }
        ensures told { GetAnswers false no_files name.now result }
        ensures files { no_files ≡ no_files }
        ensures counts { CountsFault self.old.faults result self.new.faults }
        ensures last { IsLast self.old.faults → result ≡ Err Memory }
    {
        self.read(alloc, name)
    }

    /// The names of the files at the top and in `_staged_commits`. Folders, files in other folders, and what a kill has left of a
    /// put are passed over.
    fn list(&mut self, alloc: Global) -> Result<Vec<Name>, StoreError>
        ensures exact { MatchResult result (λ names. DirLists D.did self.old names.items self.new) (λ e. DirListFails D.did self.old e self.new) }
        ensures told { IfOk result (λ names. ListAnswers false no_files names.items) }
        ensures files { no_files ≡ no_files }
        ensures counts { CountsFault self.old.faults result self.new.faults }
        ensures last { IsLast self.old.faults → result ≡ Err Memory }
    {
        self.names(alloc)
    }

    /// Removes the file, and syncs its folder.
    fn delete(&mut self, _alloc: Global, name: &str) -> Result<Gone, StoreError>
        ensures exact { DirDeletes D.did self.old name.now result self.new }
        ensures told { DeleteAnswers false no_files name.now result no_files }
        ensures counts { CountsFault self.old.faults result self.new.faults }
        ensures last { IsLast self.old.faults → result ≡ Err Memory }
    {
        self.remove(name)
    }
}
