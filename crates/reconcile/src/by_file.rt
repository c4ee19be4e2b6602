ghost use Rattle.std.specs.Prelude.{◌≡◌, ◌↔◌, IsTrue, ◌++◌, Some, None, OnOk, IfOk, bytes_eq};
ghost use Rattle.std.specs.Option.{option_copied};
ghost use Rattle.std.specs.FinMap as fin;
ghost use Rattle.action_types.specs.Files.{file_of_key, offset_text, unique_id};
ghost use Rattle.reconcile.specs.ByFile.{plain_file, marked_file, or_empty, PutsBack, ChangesAt};
ghost use Rattle.reconcile.specs.FileNames.{named_file};
ghost use Rattle.reconcile.specs.Laying.{Strikes, LaysOver, StrikesIds, StrikesMarked, LaysIds, LaysMarked};
ghost use Rattle.reconcile.specs.Within.{IsWithin, IsMarkedWithin};

use crate::by_name::{ByName, EqualCopy};
use crate::equal::SameValue;
use crate::merge::FilesLeft;
use action_types::{Key, Name, Vector};
use itoa::Buffer;
use std::alloc::{AllocError, Global};
use std::marker::Model;

/// The texts that name a file: its path and, where it has a deletion vector, the vector's unique id.
#[derive(Drop)]
pub(crate) struct FileName {
    path: Name,
    id: Option<Name>,
}

/// Values by file: those of files without a deletion vector by path, and the others by the unique ids of the
/// vectors under their paths. A contract sees a finite map from the files.
#[derive(Drop)]
pub(crate) struct ByFile<V> {
    alloc: Global,
    plain: ByName<V>,
    marked: ByName<ByName<V>>,
}

impl<V> Model for ByFile<V> {
    ghost use Rattle.std.specs.FinMap as fin;
    ghost use Rattle.action_types.specs.Files.{file_cmp};
    ghost use Rattle.reconcile.specs.ByFile.{file_code, by_file};

    ghost Value = { fin.FinMap file_cmp V };

    ghost coded = { fin.code file_code V.code };

    ghost view = { λ a. by_file a.plain a.marked };
}

/// Whether a text is `@` and a number in decimal.
fn is_mark(number: i64, text: &[u8]) -> bool
    ensures { result ≡ bytes_eq (offset_text (Some number)) text.now }
{
    let mut buffer = Buffer::new();
    match text.split_first() {
        Some((mark, digits)) => *mark == b'@' && buffer.format(number).as_bytes() == digits,
        None => false,
    }
}

/// Whether a text is what an offset adds to a unique id.
fn is_offset(offset: Option<i64>, text: &[u8]) -> bool
    ensures { result ≡ bytes_eq (offset_text offset) text.now }
{
    match offset {
        Some(number) => is_mark(number, text),
        None => text.is_empty(),
    }
}

/// Whether a text is where a vector is, and what its offset adds.
fn is_place(vector: &Vector, text: &[u8]) -> bool
    ensures { result ≡ bytes_eq (vector.now.locator ++ offset_text vector.now.offset) text.now }
{
    let locator = vector.locator.as_str().as_bytes();
    match text.strip_prefix(locator) {
        Some(rest) => is_offset(vector.offset, rest),
        None => false,
    }
}

/// Whether a text is the unique id of a vector. It takes no memory.
fn is_id(vector: &Vector, id: &str) -> bool
    ensures { result ≡ bytes_eq (unique_id vector.now) id.now }
{
    let text = id.as_bytes();
    let storage = vector.storage.as_str().as_bytes();
    match text.strip_prefix(storage) {
        Some(place) => is_place(vector, place),
        None => false,
    }
}

/// The value of a vector, among those of one path.
fn of_vector<'a, V: Drop>(files: &'a ByName<V>, vector: &Vector) -> Option<&'a V>
    ensures { option_copied result ≡ fin.get files.now (unique_id vector.now) }
{
    for (id, value) in files.entries() {
        if is_id(vector, id.as_str()) {
            return Some(value);
        }
    }
    None
}

/// Takes the values of a path out.
fn take_files<V: Drop>(marked: &mut ByName<ByName<V>>, alloc: Global, path: &str) -> ByName<V>
    ensures value { result ≡ or_empty (fin.get marked.old path.now) }
    ensures rest { marked.new ≡ fin.remove marked.old path.now }
{
    match marked.take(path) {
        Some(files) => files,
        None => ByName::new(alloc),
    }
}

/// Gives a path and an id this value. Refused for want of memory alone; the values of the path are then lost.
fn put<V: Drop>(
    marked: &mut ByName<ByName<V>>,
    alloc: Global,
    path: Name,
    id: Name,
    value: V,
) -> Result<(), AllocError>
    ensures { OnOk result (ChangesAt marked.old marked.new path id (Some value)) }
{
    let mut files = take_files(marked, alloc, path.as_str());
    files.insert(id, value)?;
    marked.insert(path, files)
}

/// Puts the values of a path back, if there are some.
fn put_back<V: Drop>(
    marked: &mut ByName<ByName<V>>,
    alloc: Global,
    path: &str,
    files: ByName<V>,
) -> Result<(), AllocError>
    ensures { OnOk result (PutsBack marked.old marked.new path.now files) }
{
    if files.is_empty() {
        return Ok(());
    }
    marked.insert(Name::from_str(alloc, path)?, files)
}

/// Takes the value of a path and an id away, if there is one. Refused for want of memory alone; the values of
/// the path are then lost.
fn strike<V: Drop>(
    marked: &mut ByName<ByName<V>>,
    alloc: Global,
    path: &str,
    id: &str,
) -> Result<(), AllocError>
    ensures { OnOk result (ChangesAt marked.old marked.new path.now id.now None) }
{
    let mut files = take_files(marked, alloc, path);
    files.remove(id);
    put_back(marked, alloc, path, files)
}

/// Takes the ids of one path away. Refused for want of memory alone.
fn strike_ids<V: Drop, W: Drop>(
    marked: &mut ByName<ByName<V>>,
    alloc: Global,
    path: &str,
    ids: &ByName<W>,
) -> Result<(), AllocError>
    ensures { OnOk result (StrikesIds marked.old path.now ids.now marked.new) }
{
    let mut files = take_files(marked, alloc, path);
    files.strike(ids);
    put_back(marked, alloc, path, files)
}

/// Takes the ids of another map away. Refused for want of memory alone.
fn strike_marked<V: Drop, W: Drop>(
    marked: &mut ByName<ByName<V>>,
    alloc: Global,
    others: &ByName<ByName<W>>,
) -> Result<(), AllocError>
    ensures { OnOk result (StrikesMarked marked.old others.now marked.new) }
{
    for (path, ids) in others.entries() {
        strike_ids(marked, alloc, path.as_str(), ids)?;
    }
    Ok(())
}

/// Moves the values of one path here, each in place of an older one. Refused for want of memory alone.
fn lay_ids<V: Drop>(
    marked: &mut ByName<ByName<V>>,
    alloc: Global,
    path: Name,
    newer: ByName<V>,
) -> Result<(), AllocError>
    ensures { OnOk result (LaysIds marked.old path newer marked.new) }
{
    let mut files = take_files(marked, alloc, path.as_str());
    files.lay(newer)?;
    marked.insert(path, files)
}

/// Moves the values of another map here, each in place of an older one. Refused for want of memory alone.
fn lay_marked<V: Drop>(
    marked: &mut ByName<ByName<V>>,
    alloc: Global,
    newer: ByName<ByName<V>>,
) -> Result<(), AllocError>
    ensures { OnOk result (LaysMarked marked.old newer marked.new) }
{
    let mut left = newer;
    while let Some((path, files)) = left.pop() {
        lay_ids(marked, alloc, path, files)?;
    }
    Ok(())
}

impl<V: Drop> ByFile<V> {
    /// Takes the files of another map away. Refused for want of memory alone.
    pub(crate) fn strike<W: Drop>(&mut self, files: &ByFile<W>) -> Result<(), AllocError>
        ensures { OnOk result (Strikes self.old files.now self.new) }
    {
        self.plain.strike(&files.plain);
        strike_marked(&mut self.marked, self.alloc, &files.marked)
    }

    /// Moves the values of another map here, each in place of an older one. Refused for want of memory alone.
    pub(crate) fn lay(&mut self, newer: ByFile<V>) -> Result<(), AllocError>
        ensures { OnOk result (LaysOver self.old newer self.new) }
    {
        self.plain.lay(newer.plain)?;
        lay_marked(&mut self.marked, self.alloc, newer.marked)
    }
}

impl<V: Drop> ByFile<V> {
    /// No values.
    pub(crate) fn new(alloc: Global) -> ByFile<V>
        ensures { result ≡ fin.empty }
    {
        ByFile {
            alloc,
            plain: ByName::new(alloc),
            marked: ByName::new(alloc),
        }
    }

    /// The value of a file. It takes no memory.
    pub(crate) fn get(&self, key: Key<'_>) -> Option<&V>
        ensures { option_copied result ≡ fin.get self.now (file_of_key key.entry) }
    {
        match key.vector {
            None => self.get_plain(key.path),
            Some(vector) => self.get_marked(key.path, vector),
        }
    }

    fn get_plain(&self, path: &str) -> Option<&V>
        ensures { option_copied result ≡ fin.get self.now (plain_file path.now) }
    {
        self.plain.get(path)
    }

    fn get_marked(&self, path: &str, vector: &Vector) -> Option<&V>
        ensures { option_copied result ≡ fin.get self.now (marked_file path.now (unique_id vector.now)) }
    {
        match self.marked.get(path) {
            Some(files) => of_vector(files, vector),
            None => None,
        }
    }

    /// The texts that name a file; refused for want of memory alone.
    pub(crate) fn name(&self, key: Key<'_>) -> Result<FileName, AllocError>
        ensures { IfOk result (λ n. named_file n ≡ file_of_key key.entry) }
    {
        let path = Name::from_str(self.alloc, key.path)?;
        match key.vector {
            None => Ok(FileName { path, id: None }),
            Some(vector) => {
                let id = vector.unique_id(self.alloc)?;
                Ok(FileName { path, id: Some(id) })
            }
        }
    }

    /// Gives a file this value in place of an older one. Refused for want of memory alone.
    pub(crate) fn insert(&mut self, file: FileName, value: V) -> Result<(), AllocError>
        ensures { OnOk result (self.new ≡ fin.insert self.old (named_file file) value) }
    {
        let FileName { path, id } = file;
        match id {
            None => self.insert_plain(path, value),
            Some(id) => self.insert_marked(path, id, value),
        }
    }

    fn insert_plain(&mut self, path: Name, value: V) -> Result<(), AllocError>
        ensures { OnOk result (self.new ≡ fin.insert self.old (plain_file path) value) }
    {
        self.plain.insert(path, value)
    }

    fn insert_marked(&mut self, path: Name, id: Name, value: V) -> Result<(), AllocError>
        ensures { OnOk result (self.new ≡ fin.insert self.old (marked_file path id) value) }
    {
        put(&mut self.marked, self.alloc, path, id, value)
    }

    /// Takes the value of a file away, if there is one. Refused for want of memory alone.
    pub(crate) fn remove(&mut self, key: Key<'_>) -> Result<(), AllocError>
        ensures { OnOk result (self.new ≡ fin.remove self.old (file_of_key key.entry)) }
    {
        match key.vector {
            None => {
                self.remove_plain(key.path);
                Ok(())
            }
            Some(vector) => self.remove_marked(key.path, vector),
        }
    }

    fn remove_plain(&mut self, path: &str)
        ensures { self.new ≡ fin.remove self.old (plain_file path.now) }
    {
        self.plain.remove(path);
    }

    fn remove_marked(&mut self, path: &str, vector: &Vector) -> Result<(), AllocError>
        ensures { OnOk result (self.new ≡ fin.remove self.old (marked_file path.now (unique_id vector.now))) }
    {
        let id = vector.unique_id(self.alloc)?;
        strike(&mut self.marked, self.alloc, path, id.as_str())
    }
}

impl<V: Drop> ByFile<V> {
    ghost use Rattle.reconcile.specs.Walking.{left};

    /// The values in the order of their files.
    pub(crate) fn files(&self) -> FilesLeft<'_, V>
        ensures { left result ≡ fin.values self.now }
    {
        FilesLeft::new(&self.plain, &self.marked)
    }
}

impl<V: EqualCopy + Drop> ByFile<V> {
    /// An equal map; refused for want of memory alone.
    pub(crate) fn copy(&self) -> Result<ByFile<V>, AllocError>
        ensures { IfOk result (λ n. n ≡ self.now) }
    {
        let plain = self.plain.copy()?;
        let marked = self.marked.copy()?;
        Ok(ByFile {
            alloc: self.alloc,
            plain,
            marked,
        })
    }
}

/// Whether another map has all of these values under the same paths and ids.
fn is_marked_within<V: SameValue + Drop>(
    marked: &ByName<ByName<V>>,
    others: &ByName<ByName<V>>,
) -> bool
    ensures { IsTrue result ↔ IsMarkedWithin marked.now others.now }
{
    for (path, files) in marked.entries() {
        if !files.is_among(others.get(path.as_str())) {
            return false;
        }
    }
    true
}

impl<V: SameValue + Drop> ByFile<V> {
    /// Whether another map has all of these values of the same files.
    fn is_within(&self, other: &ByFile<V>) -> bool
        ensures { IsTrue result ↔ IsWithin self.now other.now }
    {
        self.plain.is_within(&other.plain) && is_marked_within(&self.marked, &other.marked)
    }

    /// Whether the maps are equal.
    pub(crate) fn is_same_map(&self, other: &ByFile<V>) -> bool
        ensures { IsTrue result ↔ (self.now ≡ other.now) }
    {
        self.is_within(other) && other.is_within(self)
    }
}
