ghost use Rattle.std.specs.Prelude.{◌≡◌, ℕ, Bool, IfOk, Err};
ghost use Rattle.object_store.specs.Files.{Files};
ghost use Rattle.object_store.specs.Telling.{PutAnswers, GetAnswers, ListAnswers, DeleteAnswers, CountsFault, IsLast};
ghost use Rattle.object_store.specs.declared.store.StoreError.TheVariants.{Memory};

use action_types::Name;
use std::alloc::{AllocError, AllocFailed, Global};
use thiserror::Error;

/// The answer to putting a new file.
#[derive(Clone, Copy, Debug, PartialEq, Eq)]
pub enum Put {
    /// The file stands with these bytes.
    Done,
    /// The name stood already; nothing changed.
    There,
}

/// The answer to reading a file.
#[derive(Debug, Drop)]
pub enum Bytes {
    /// All bytes of the file.
    Whole(Vec<u8>),
    /// The name does not stand.
    Absent,
}

/// The answer to removing a file.
#[derive(Clone, Copy, Debug, PartialEq, Eq)]
pub enum Gone {
    /// The name stands no more.
    Done,
    /// The name did not stand; nothing changed.
    Absent,
}

/// Why a call of a store has no answer.
#[derive(Clone, Copy, Debug, PartialEq, Eq, Error)]
pub enum StoreError {
    /// The store failed, and its count of faults rose by one.
    #[error("the store failed")]
    Failed,
    /// Want of memory; nothing changed.
    #[error("out of memory")]
    Memory,
}

impl From<AllocError> for StoreError {
    ghost from_gives = { λ _ e. e ≡ Memory };

    fn from(_error: AllocError) -> StoreError {
        StoreError::Memory
    }
}

impl<T: Drop> From<AllocFailed<T>> for StoreError {
    ghost from_gives = { λ _ e. e ≡ Memory };

    fn from(_error: AllocFailed<T>) -> StoreError {
        StoreError::Memory
    }
}

/// A folder of files under names relative to it. Each call is done whole or not at all.
///
/// A store has a count of faults, a number of 64 bits that never falls. A call that answers `Failed` raises
/// it by one; every other answer leaves it. Where the count stands at its last value each call answers `Memory` and
/// does nothing.
///
/// A store that tells (`tells`, the same for all values of a type) tells its files; what is said here of
/// contents holds of such a store.
pub trait Store {
    ghost tells: { Bool };

    ghost files: { Self → Files };

    ghost faults: { Self → ℕ };

    /// Makes a new file of these bytes. `There` comes exactly where the name stands, and changes nothing. After
    /// `Failed` the files are as before or as if the call had been done whole.
    fn put_new(&mut self, alloc: Global, name: &str, bytes: &[u8]) -> Result<Put, StoreError>
        ensures told { PutAnswers tells (files self.old) name.now bytes.now result (files self.new) }
        ensures counts { CountsFault (faults self.old) result (faults self.new) }
        ensures last { IsLast (faults self.old) → result ≡ Err Memory };

    /// The whole file of that name; `Absent` exactly where it does not stand. It changes no file.
    fn get(&mut self, alloc: Global, name: &str) -> Result<Bytes, StoreError>
        ensures told { GetAnswers tells (files self.old) name.now result }
        ensures files { files self.new ≡ files self.old }
        ensures counts { CountsFault (faults self.old) result (faults self.new) }
        ensures last { IsLast (faults self.old) → result ≡ Err Memory };

    /// All names, each once, in the order of their bytes. It changes no file.
    fn list(&mut self, alloc: Global) -> Result<Vec<Name>, StoreError>
        ensures told { IfOk result (λ names. ListAnswers tells (files self.old) names.items) }
        ensures files { files self.new ≡ files self.old }
        ensures counts { CountsFault (faults self.old) result (faults self.new) }
        ensures last { IsLast (faults self.old) → result ≡ Err Memory };

    /// Removes the file of that name. `Absent` comes exactly where it does not stand, and changes nothing. After
    /// `Failed` the files are as before or as if the call had been done whole.
    fn delete(&mut self, alloc: Global, name: &str) -> Result<Gone, StoreError>
        ensures told { DeleteAnswers tells (files self.old) name.now result (files self.new) }
        ensures counts { CountsFault (faults self.old) result (faults self.new) }
        ensures last { IsLast (faults self.old) → result ≡ Err Memory };
}
