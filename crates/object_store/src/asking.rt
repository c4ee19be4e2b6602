//! What one call of a store over a directory asks of its disk.

ghost use Rattle.std.specs.Prelude.{◌≡◌, IfOk, MatchResult};
ghost use Rattle.object_store.specs.Directory.{LinkRuns, PutRuns, DeleteRuns, ListRuns, ListFails, listed};

use crate::disk::{Disk, DiskFault, Folder, Made};
use crate::folder_names::folder_of;
use crate::shelf::Shelf;
use crate::store::{Gone, Put, StoreError};
use action_types::Name;
use std::alloc::{AllocError, Global};

/// Puts a new file: it is made under a first name, and then gets its own.
pub(crate) fn put_file<D: Disk>(
    disk: &mut D,
    folder: Folder,
    number: u64,
    name: &str,
    bytes: &[u8],
) -> Result<Put, DiskFault>
    ensures { PutRuns D.did disk.old folder number name.now bytes.now result disk.new }
{
    match disk.make(folder, number, bytes) {
        Made::Failed => Err(DiskFault),
        Made::Part => {
            let _gone = disk.drop_first(folder, number);
            Err(DiskFault)
        }
        Made::Whole => link_file(disk, folder, number, name),
    }
}

/// Gives a file that stands under a first name its own, and removes the first one. A new name is synced.
fn link_file<D: Disk>(
    disk: &mut D,
    folder: Folder,
    number: u64,
    name: &str,
) -> Result<Put, DiskFault>
    ensures { LinkRuns D.did disk.old folder number name.now result disk.new }
{
    let linked = disk.link(folder, number, name);
    let gone = disk.drop_first(folder, number);
    match linked {
        Err(fault) => Err(fault),
        Ok(put) => match gone {
            Err(fault) => Err(fault),
            Ok(()) => match put {
                Put::There => Ok(Put::There),
                Put::Done => match disk.sync(folder) {
                    Ok(()) => Ok(Put::Done),
                    Err(fault) => Err(fault),
                },
            },
        },
    }
}

/// Removes a file. A name that is gone is synced.
pub(crate) fn delete_file<D: Disk>(
    disk: &mut D,
    folder: Folder,
    name: &str,
) -> Result<Gone, DiskFault>
    ensures { DeleteRuns D.did disk.old folder name.now result disk.new }
{
    match disk.remove(folder, name) {
        Err(fault) => Err(fault),
        Ok(Gone::Absent) => Ok(Gone::Absent),
        Ok(Gone::Done) => match disk.sync(folder) {
            Ok(()) => Ok(Gone::Done),
            Err(fault) => Err(fault),
        },
    }
}

/// The names of files of the two folders, each once, in the order of their bytes.
pub(crate) fn list_files<D: Disk>(disk: &mut D, alloc: Global) -> Result<Vec<Name>, StoreError>
    ensures { MatchResult result (λ names. ListRuns D.did disk.old names.items disk.new) (λ e. ListFails D.did disk.old e disk.new) }
{
    match disk.names(alloc) {
        Ok(all) => match sorted_names(alloc, all.as_slice()) {
            Ok(names) => Ok(names),
            Err(_) => Err(StoreError::Memory),
        },
        Err(e) => Err(e),
    }
}

/// The names of files of the two folders among these, each once, in the order of their bytes. The error is want of memory.
fn sorted_names(alloc: Global, all: &[Name]) -> Result<Vec<Name>, AllocError>
    ensures { IfOk result (λ names. names.items ≡ listed all.now) }
{
    let mut shelf = Shelf::new(alloc);
    let mut left = all.len();
    while left > 0 {
        left -= 1;
        let name = all[left].as_str();
        if folder_of(name.as_bytes()).is_some() {
            shelf.set_empty(alloc, name)?;
        }
    }
    shelf.names(alloc)
}
