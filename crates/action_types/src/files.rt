ghost use Rattle.std.specs.Prelude.{◌≡◌, ◌++◌, IfOk, string_bytes};
ghost use Rattle.action_types.specs.Files.{name_cmp, id_cmp, id_of, offset_text, unique_id, file_of_key, file_of_add, file_of_remove, file_cmp, same_file};
ghost use Rattle.action_types.specs.Parts.{bytes_left, TakesFirst};

use crate::actions::{Add, Remove, Vector};
use crate::text::Name;
use itoa::Buffer;
use std::alloc::{AllocError, Global};
use std::cmp::Ordering;

/// What names a data file: its path and, where it has one, its deletion vector, of which the unique id counts (Delta protocol,
/// "Action Reconciliation").
#[derive(Clone, Copy)]
pub struct Key<'a> {
    pub path: &'a str,
    pub vector: Option<&'a Vector>,
}

/// The bytes of a unique id that are left, in the parts that it is made of.
#[derive(Drop)]
struct IdBytes<'a> {
    storage: &'a [u8],
    locator: &'a [u8],
    mark: &'a [u8],
    offset: &'a [u8],
}

/// Takes the first byte off, if there is one.
fn take_first(part: &mut &[u8]) -> Option<u8>
    ensures { TakesFirst result part.old.now part.new.now }
{
    let (first, rest) = part.split_first()?;
    *part = rest;
    Some(*first)
}

impl IdBytes<'_> {
    /// The next byte, if one is left.
    fn next(&mut self) -> Option<u8>
        ensures { TakesFirst result (bytes_left self.old) (bytes_left self.new) }
    {
        if let Some(byte) = take_first(&mut self.storage) {
            return Some(byte);
        }
        if let Some(byte) = take_first(&mut self.locator) {
            return Some(byte);
        }
        if let Some(byte) = take_first(&mut self.mark) {
            return Some(byte);
        }
        take_first(&mut self.offset)
    }
}

/// Which of two ids stands first by its bytes.
fn compare_bytes(mut left: IdBytes<'_>, mut right: IdBytes<'_>) -> Ordering
    ensures { result ≡ name_cmp (bytes_left left.entry) (bytes_left right.entry) }
{
    while let Some(byte) = left.next() {
        let Some(other) = right.next() else {
            return Ordering::Greater;
        };
        if byte != other {
            return byte.cmp(&other);
        }
    }
    match right.next() {
        Some(_) => Ordering::Less,
        None => Ordering::Equal,
    }
}

/// Adds `@` and the offset in decimal, where there is one.
fn push_offset(text: &mut String, offset: Option<i64>) -> Result<(), AllocError>
    ensures { IfOk result (λ _. string_bytes text.new ≡ string_bytes text.old ++ offset_text offset) }
{
    if let Some(offset) = offset {
        let mut buffer = Buffer::new();
        text.push('@')?;
        text.push_str(buffer.format(offset))?;
    }
    Ok(())
}

impl Vector {
    /// The bytes of the unique id, where `buffer` has room for the offset's digits.
    #[tactic(auto, using(crate::proofs::Ends::end_laws), unfolding(crate::specs::Files::unique_id))]
    fn id_bytes<'a>(&'a self, buffer: &'a mut Buffer) -> IdBytes<'a>
        ensures { bytes_left result ≡ unique_id self.now }
    {
        let storage = self.storage.as_str().as_bytes();
        let locator = self.locator.as_str().as_bytes();
        match self.offset {
            None => IdBytes {
                storage,
                locator,
                mark: b"",
                offset: b"",
            },
            Some(offset) => IdBytes {
                storage,
                locator,
                mark: b"@",
                offset: buffer.format(offset).as_bytes(),
            },
        }
    }

    /// Which of two vectors stands first by the bytes of their unique ids. It takes no memory.
    pub fn compare(&self, other: &Vector) -> Ordering
        ensures { result ≡ name_cmp (unique_id self.now) (unique_id other.now) }
    {
        let mut buffer = Buffer::new();
        let mut others = Buffer::new();
        compare_bytes(self.id_bytes(&mut buffer), other.id_bytes(&mut others))
    }

    /// The unique id: the type of the storage, the place, and, where there is an offset, `@` and the offset in decimal (Delta protocol,
    /// "Derived Fields"); refused for want of memory alone.
    #[tactic(auto, using(crate::proofs::Ends::end_laws), unfolding(crate::specs::Files::unique_id))]
    pub fn unique_id(&self, alloc: Global) -> Result<Name, AllocError>
        ensures { IfOk result (λ n. n ≡ unique_id self.now) }
    {
        let mut text = String::from_str(alloc, self.storage.as_str())?;
        text.push_str(self.locator.as_str())?;
        push_offset(&mut text, self.offset)?;
        Ok(Name::from_string(text))
    }
}

impl Add {
    /// What names the file.
    pub fn key(&self) -> Key<'_>
        ensures { file_of_key result ≡ file_of_add self.now }
    {
        Key {
            path: self.path.as_str(),
            vector: self.vector.as_ref(),
        }
    }
}

impl Remove {
    /// What names the file.
    pub fn key(&self) -> Key<'_>
        ensures { file_of_key result ≡ file_of_remove self.now }
    {
        Key {
            path: self.path.as_str(),
            vector: self.vector.as_ref(),
        }
    }
}

/// Which of two vectors, or none, stands first: none, then by the bytes of their unique ids.
fn compare_vectors(vector: Option<&Vector>, other: Option<&Vector>) -> Ordering
    ensures { result ≡ id_cmp (id_of vector.entry) (id_of other.entry) }
{
    match (vector, other) {
        (None, None) => Ordering::Equal,
        (None, Some(_)) => Ordering::Less,
        (Some(_), None) => Ordering::Greater,
        (Some(vector), Some(other)) => vector.compare(other),
    }
}

impl<'a> Key<'a> {
    /// Which of two files stands first: by path, and under one path the file without a vector first, then by the bytes of the unique
    /// ids. It takes no memory.
    #[tactic(auto, unfolding(crate::specs::Files::file_cmp))]
    pub fn compare(self, other: Key<'_>) -> Ordering
        ensures { result ≡ file_cmp (file_of_key self.entry) (file_of_key other.entry) }
    {
        match self.path.cmp(other.path) {
            Ordering::Equal => compare_vectors(self.vector, other.vector),
            unlike => unlike,
        }
    }

    /// Whether two keys name one file. It takes no memory.
    pub fn is(self, other: Key<'_>) -> bool
        ensures { result ≡ same_file (file_of_key self.entry) (file_of_key other.entry) }
    {
        self.compare(other) == Ordering::Equal
    }

    /// The unique id of the vector, if there is one; refused for want of memory alone.
    pub fn id(self, alloc: Global) -> Result<Option<Name>, AllocError>
        ensures { IfOk result (λ id. id ≡ (file_of_key self.entry).id) }
    {
        match self.vector {
            None => Ok(None),
            Some(vector) => Ok(Some(vector.unique_id(alloc)?)),
        }
    }
}
