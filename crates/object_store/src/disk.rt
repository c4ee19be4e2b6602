//! The few calls on a folder that a store over a directory stands on.

ghost use Rattle.std.specs.Prelude.{Ok, Err, MatchResult, is_ok};
ghost use Rattle.object_store.specs.Directory.{Call, makes, links, drops, syncs, reads, removes, lists};

use crate::store::{Bytes, Gone, Put, StoreError};
use action_types::Name;
use std::alloc::Global;

/// One of the two folders that files stand in.
#[derive(Clone, Copy, Debug, PartialEq, Eq)]
pub enum Folder {
    /// The folder of the log itself.
    Log,
    /// The folder `_staged_commits` in it.
    Staged,
}

/// The answer to making a file under a first name.
#[derive(Clone, Copy, Debug, PartialEq, Eq)]
pub enum Made {
    /// The file stands with all its bytes, which were synced.
    Whole,
    /// The file was made, and may stand with a part of its bytes.
    Part,
    /// No file was made.
    Failed,
}

/// A call on a folder that failed.
#[derive(Clone, Copy, Debug, PartialEq, Eq)]
pub struct DiskFault;

/// A folder of the log with the folder `_staged_commits` in it, by single calls. A name is that of a file relative to the folder of
/// the log. While a file is put it stands under a first name, which is told by a number and is no such name.
pub trait Disk {
    /// What may come of a call: the disk before, the call with its answer, the disk after.
    ghost did: { Self → Call → Self → Type 0 };

    /// Makes a file under a first name that does not stand, and writes and syncs these bytes.
    fn make(&mut self, folder: Folder, number: u64, bytes: &[u8]) -> Made
        ensures { did self.old (makes folder number bytes.now result) self.new };

    /// Gives the file of that first name a name of its own beside it. `There` comes where the name stands, and changes nothing.
    fn link(&mut self, folder: Folder, number: u64, name: &str) -> Result<Put, DiskFault>
        ensures { did self.old (links folder number name.now result) self.new };

    /// Removes a first name.
    fn drop_first(&mut self, folder: Folder, number: u64) -> Result<(), DiskFault>
        ensures { did self.old (drops folder number (is_ok result)) self.new };

    /// Syncs the names of a folder.
    fn sync(&mut self, folder: Folder) -> Result<(), DiskFault>
        ensures { did self.old (syncs folder (is_ok result)) self.new };

    /// Reads a whole file.
    fn read(&mut self, alloc: Global, folder: Folder, name: &str) -> Result<Bytes, StoreError>
        ensures { did self.old (reads folder name.now result) self.new };

    /// Removes a name.
    fn remove(&mut self, folder: Folder, name: &str) -> Result<Gone, DiskFault>
        ensures { did self.old (removes folder name.now result) self.new };

    /// The names of all that stands in the two folders and is no folder, in any order; the first names may be among them.
    fn names(&mut self, alloc: Global) -> Result<Vec<Name>, StoreError>
        ensures { MatchResult result (λ all. did self.old (lists (Ok all.items)) self.new) (λ e. did self.old (lists (Err e)) self.new) };
}
