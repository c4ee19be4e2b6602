//! The calls on a folder by the runtime's files.

ghost use Rattle.std.specs.Prelude.{◌≡◌, ◌≢◌, ◌≤◌, ◌^◌, ◌++◌, length, string_bytes, is_ok, if◌then◌else◌, IfOk, IfErr, IsErr, IsOk, OnOk, ⊤};
ghost use Rattle.std.specs.Io.KnownBytes.{Appends};
ghost use Rattle.std.specs.IoError.{error_kind};
ghost use Rattle.object_store.specs.declared.disk.Made.TheVariants as made;
ghost use Rattle.object_store.specs.declared.store.Put.TheVariants as put;
ghost use Rattle.object_store.specs.declared.store.Gone.TheVariants as gone;

use crate::directory::DirStore;
use crate::disk::{Disk, DiskFault, Folder, Made};
use crate::store::{Bytes, Gone, Put, StoreError};
use action_types::Name;
use std::alloc::{AllocError, Global};
use std::fmt::Write as _;
use std::fs::{File, OpenFile};
use std::io::{ErrorKind, Read, Write};
use std::rt::Files;
use std::{fs, io};

/// The most bytes of a file that is read: 1 GiB.
const LONGEST: u64 = 1 << 30;

/// What a first name begins with; its number in decimal digits follows.
const FIRST: &str = ".put-";

/// The folder of the staged commits, relative to the log's.
const STAGED: &str = "_staged_commits";

/// The room that a path wants beside that of the log's folder: the folder of the staged commits with its slash, and a name.
const ROOM: usize = 16 + 255;

/// A folder of the log over a runtime's files. Both folders are held open, to be synced. Nobody else is to write them.
///
/// It says nothing of what they hold. Each call makes the system's calls that it names, and its answer is what these came to: a
/// signal that interrupts one of them is no failure.
#[derive(Drop)]
pub struct HostDisk<R: Files + AllocGlobal + Clone + Drop> {
    files: R,
    log: R::File,
    staged: R::File,
    // the paths of the two folders, each with a slash at its end
    log_path: String,
    staged_path: String,
    // the paths that a call is made for, in room that was taken at the start
    first: String,
    file: String,
}

impl<R: Files + AllocGlobal + Clone + Drop> HostDisk<R> {
    /// Opens the folder at that path, and the folder `_staged_commits` in it, which is to be no symbolic link. What it makes of want of
    /// memory is an error of the kind `OutOfMemory`.
    pub fn open(files: R, alloc: Global, path: &str) -> io::Result<HostDisk<R>> {
        if path.is_empty() {
            return Err(io::Error::from(ErrorKind::InvalidInput));
        }
        let mut log_path = String::from_str(alloc, path)?;
        log_path.push_str("/")?;
        let mut staged_path = String::from_str(alloc, log_path.as_str())?;
        staged_path.push_str(STAGED)?;
        if !fs::symlink_metadata(&files, staged_path.as_str())?.is_dir() {
            return Err(io::Error::from(ErrorKind::NotADirectory));
        }
        staged_path.push_str("/")?;
        let log = fs::open(&files, log_path.as_str())?;
        let staged = fs::open(&files, staged_path.as_str())?;
        let room = log_path.len().saturating_add(ROOM);
        Ok(HostDisk {
            files,
            log,
            staged,
            first: String::with_capacity(alloc, room)?,
            file: String::with_capacity(alloc, room)?,
            log_path,
            staged_path,
        })
    }

    /// The number from which on no first name stands in either folder.
    fn free_number(&self) -> io::Result<u64> {
        let log = number_after_all(&self.files, self.log_path.as_str())?;
        let staged = number_after_all(&self.files, self.staged_path.as_str())?;
        Ok(log.max(staged))
    }

    /// The path of a folder, with a slash at its end.
    fn path_of(&self, folder: Folder) -> &str {
        match folder {
            Folder::Log => self.log_path.as_str(),
            Folder::Staged => self.staged_path.as_str(),
        }
    }

    /// Writes the path of a first name.
    fn set_first(&mut self, folder: Folder, number: u64) -> Result<(), AllocError> {
        match folder {
            Folder::Log => join(&mut self.first, self.log_path.as_str(), FIRST)?,
            Folder::Staged => join(&mut self.first, self.staged_path.as_str(), FIRST)?,
        }
        write!(self.first, "{number}")
    }

    /// Whether a folder stands: what is not found in one that is gone is not absent.
    fn stands(&self, folder: Folder) -> bool {
        match fs::metadata(&self.files, self.path_of(folder)) {
            Ok(found) => found.is_dir(),
            Err(_) => false,
        }
    }
}

impl<R: Files + AllocGlobal + Clone + Drop> DirStore<HostDisk<R>> {
    /// A store over the folder at that path, in which `_staged_commits` stands. What a kill has left of a put stays there under its
    /// first name, and later first names have higher numbers.
    pub fn open(files: R, alloc: Global, path: &str) -> io::Result<DirStore<HostDisk<R>>>
        ensures { IfOk result (λ store. store.faults ≡ 0) }
    {
        let disk = HostDisk::open(files, alloc, path)?;
        let next = disk.free_number()?;
        Ok(DirStore::new(disk, next))
    }
}

impl<R: Files + AllocGlobal + Clone + Drop> Disk for HostDisk<R> {
    ghost did = { λ _ _ _. ⊤ };

    /// Create-new, write, sync.
    fn make(&mut self, folder: Folder, number: u64, bytes: &[u8]) -> Made {
        if self.set_first(folder, number).is_err() {
            return Made::Failed;
        }
        match File::create_new(&self.files, self.first.as_str()) {
            Ok(mut file) => made_by(write_and_sync(&mut file, bytes)),
            Err(_) => Made::Failed,
        }
    }

    /// A hard link.
    fn link(&mut self, folder: Folder, number: u64, name: &str) -> Result<Put, DiskFault> {
        if self.set_first(folder, number).is_err() {
            return Err(DiskFault);
        }
        if join(&mut self.file, self.log_path.as_str(), name).is_err() {
            return Err(DiskFault);
        }
        linked_by(fs::hard_link(&self.files, self.first.as_str(), self.file.as_str()))
    }

    /// A removal of that name.
    fn drop_first(&mut self, folder: Folder, number: u64) -> Result<(), DiskFault> {
        if self.set_first(folder, number).is_err() {
            return Err(DiskFault);
        }
        match fs::remove_file(&self.files, self.first.as_str()) {
            Ok(()) => Ok(()),
            Err(_) => Err(DiskFault),
        }
    }

    /// A sync of the open folder.
    fn sync(&mut self, folder: Folder) -> Result<(), DiskFault> {
        let synced = match folder {
            Folder::Log => self.log.sync_all(),
            Folder::Staged => self.staged.sync_all(),
        };
        match synced {
            Ok(()) => Ok(()),
            Err(_) => Err(DiskFault),
        }
    }

    /// Looks what stands under the name, opens it where it is a file of at most 1 GiB, and reads it to its end. A symbolic link is no file.
    fn read(&mut self, alloc: Global, folder: Folder, name: &str) -> Result<Bytes, StoreError> {
        join(&mut self.file, self.log_path.as_str(), name)?;
        match read_file(&self.files, alloc, self.file.as_str()) {
            Ok(bytes) => Ok(Bytes::Whole(bytes)),
            Err(e) if e.kind() == ErrorKind::NotFound && self.stands(folder) => Ok(Bytes::Absent),
            Err(e) => Err(failed_by(&e)),
        }
    }

    /// A removal of that name. A folder is not removed.
    fn remove(&mut self, folder: Folder, name: &str) -> Result<Gone, DiskFault> {
        if join(&mut self.file, self.log_path.as_str(), name).is_err() {
            return Err(DiskFault);
        }
        match removed_by(fs::remove_file(&self.files, self.file.as_str())) {
            Ok(Gone::Absent) if !self.stands(folder) => Err(DiskFault),
            answer => answer,
        }
    }

    /// Reads the names of both folders, and looks at each.
    fn names(&mut self, alloc: Global) -> Result<Vec<Name>, StoreError> {
        let mut names = Vec::new(alloc);
        let log = add_names(&self.files, self.log_path.as_str(), "", &mut names);
        if let Err(e) = log {
            return Err(failed_by(&e));
        }
        let before = "_staged_commits/";
        let staged = add_names(&self.files, self.staged_path.as_str(), before, &mut names);
        if let Err(e) = staged {
            return Err(failed_by(&e));
        }
        Ok(names)
    }
}

/// Makes a path of a folder's, which has a slash at its end, and a name.
fn join(path: &mut String, folder: &str, name: &str) -> Result<(), AllocError>
    ensures { OnOk result (string_bytes path.new ≡ folder.now ++ name.now) }
{
    path.clear();
    path.push_str(folder)?;
    path.push_str(name)
}

/// Writes all of the bytes and syncs them.
fn write_and_sync<F: Write + OpenFile>(file: &mut F, bytes: &[u8]) -> io::Result<()>
    ensures { OnOk result (Appends (F.contents file.old) (F.contents file.new) bytes.now) }
{
    file.write_all(bytes)?;
    file.sync_all()
}

/// What became of a file that was made, by what became of its writing.
fn made_by(written: io::Result<()>) -> Made
    ensures { result ≡ (if is_ok written then made.Whole else made.Part) }
{
    match written {
        Ok(()) => Made::Whole,
        Err(_) => Made::Part,
    }
}

/// What a hard link came to: `There` where the name stands, and only there.
fn linked_by(linked: io::Result<()>) -> Result<Put, DiskFault>
    ensures done { IsOk linked → result ≡ Ok put.Done }
    ensures there { IfErr linked (λ e. error_kind e ≡ ErrorKind.AlreadyExists → result ≡ Ok put.There) }
    ensures failed { IfErr linked (λ e. error_kind e ≢ ErrorKind.AlreadyExists → IsErr result) }
{
    match linked {
        Ok(()) => Ok(Put::Done),
        Err(e) if e.kind() == ErrorKind::AlreadyExists => Ok(Put::There),
        Err(_) => Err(DiskFault),
    }
}

/// What a removal came to: `Absent` where the name does not stand, and only there.
fn removed_by(removed: io::Result<()>) -> Result<Gone, DiskFault>
    ensures done { IsOk removed → result ≡ Ok gone.Done }
    ensures absent { IfErr removed (λ e. error_kind e ≡ ErrorKind.NotFound → result ≡ Ok gone.Absent) }
    ensures failed { IfErr removed (λ e. error_kind e ≢ ErrorKind.NotFound → IsErr result) }
{
    match removed {
        Ok(()) => Ok(Gone::Done),
        Err(e) if e.kind() == ErrorKind::NotFound => Ok(Gone::Absent),
        Err(_) => Err(DiskFault),
    }
}

/// Why a reading has no answer: want of memory is no fault.
fn failed_by(error: &io::Error) -> StoreError {
    if error.kind() == ErrorKind::OutOfMemory {
        StoreError::Memory
    } else {
        StoreError::Failed
    }
}

/// The bytes of the file at that path. What is no file, a symbolic link too, and a file that is too long are errors.
fn read_file<R: Files>(files: &R, alloc: Global, path: &str) -> io::Result<Vec<u8>>
    ensures { IfOk result (λ bytes. length bytes.items ≤ 2 ^ 30) }
{
    let found = fs::symlink_metadata(files, path)?;
    if !found.is_file() {
        return Err(io::Error::from(ErrorKind::InvalidInput));
    }
    if found.len() > LONGEST {
        return Err(io::Error::from(ErrorKind::FileTooLarge));
    }
    let mut bytes = Vec::with_capacity(alloc, found.len() as usize + 1)?;
    let mut file = fs::open(files, path)?.take(LONGEST + 1);
    file.read_to_end(&mut bytes)?;
    if bytes.len() as u64 > LONGEST {
        return Err(io::Error::from(ErrorKind::FileTooLarge));
    }
    Ok(bytes)
}

/// Adds the names of what stands in the folder at that path and is no folder, each behind `before`. A name that is not UTF-8 is an error.
fn add_names<R: Files + Alloc + Clone + Drop>(
    files: &R,
    path: &str,
    before: &str,
    names: &mut Vec<Name>,
) -> io::Result<()> {
    for entry in fs::read_dir(files, path)? {
        let entry = entry?;
        if !entry.file_type()?.is_dir() {
            let mut name = String::from_str(*names.allocator(), before)?;
            name.push_str(entry.file_name())?;
            names.push(Name::from_string(name))?;
        }
    }
    Ok(())
}

/// The number from which on no first name stands in the folder at that path.
fn number_after_all<R: Files + Alloc + Clone + Drop>(files: &R, path: &str) -> io::Result<u64> {
    let mut next = 0u64;
    for entry in fs::read_dir(files, path)? {
        match entry {
            Ok(entry) => next = next.max(number_after(entry.file_name())),
            Err(e) if e.kind() == ErrorKind::InvalidFilename => {}
            Err(e) => return Err(e),
        }
    }
    Ok(next)
}

/// The number after that of a first name; 0 for every other name.
fn number_after(name: &str) -> u64 {
    let Some(digits) = name.strip_prefix(FIRST) else {
        return 0;
    };
    match digits.parse::<u64>() {
        Ok(number) => number.saturating_add(1),
        Err(_) => 0,
    }
}
