ghost use Rattle.std.specs.Prelude.{◌≡◌, [], if◌then◌else◌, IfOk, OnOk, OnErr, option_map};
ghost use Rattle.object_store.specs.Files.{no_files, file_of, stands, with_file, without_file, names_of, put_whole};

use action_types::Name;
use std::alloc::{AllocError, Global};
use std::collections::BTreeMap;
use std::marker::Model;

/// Files under names, held in memory.
#[derive(Drop)]
pub(crate) struct Shelf {
    entries: BTreeMap<String, Vec<u8>>,
}

impl Model for Shelf {
    ghost use Rattle.object_store.specs.Files.{Files, files_code};

    ghost Value = { Files };

    ghost coded = { files_code };

    ghost use Rattle.object_store.specs.Held.{held};

    ghost view = { λ s. held s.entries.entries };
}

impl Shelf {
    /// No files. It takes no memory.
    pub(crate) fn new(alloc: Global) -> Shelf
        ensures { result ≡ no_files }
    {
        Shelf {
            entries: BTreeMap::new(alloc),
        }
    }

    /// The bytes of the file of that name.
    pub(crate) fn get(&self, name: &str) -> Option<&Vec<u8>>
        ensures { option_map (λ v. v.now.items) result ≡ file_of self.now name.now }
    {
        self.entries.get(name)
    }

    /// Whether the name stands.
    pub(crate) fn has(&self, name: &str) -> bool
        ensures { result ≡ stands self.now name.now }
    {
        self.entries.contains_key(name)
    }

    /// Puts a new file; one that stands stays. The error is want of memory, and changes nothing.
    pub(crate) fn put(&mut self, alloc: Global, name: &str, bytes: &[u8]) -> Result<(), AllocError>
        ensures ok { OnOk result (self.new ≡ put_whole self.old name.now bytes.now) }
        ensures err { OnErr result (self.new ≡ self.old) }
    {
        if self.has(name) {
            return Ok(());
        }
        let key = String::from_str(alloc, name)?;
        let value = bytes.to_vec(alloc)?;
        self.entries.insert(key, value)?;
        Ok(())
    }

    /// `put` where it is wanted, and else nothing.
    pub(crate) fn put_if(
        &mut self,
        alloc: Global,
        wanted: bool,
        name: &str,
        bytes: &[u8],
    ) -> Result<(), AllocError>
        ensures ok { OnOk result (self.new ≡ (if wanted then put_whole self.old name.now bytes.now else self.old)) }
        ensures err { OnErr result (self.new ≡ self.old) }
    {
        if !wanted {
            return Ok(());
        }
        self.put(alloc, name, bytes)
    }

    /// Puts a file without bytes, in place of one that stands. The error is want of memory.
    pub(crate) fn set_empty(&mut self, alloc: Global, name: &str) -> Result<(), AllocError>
        ensures { OnOk result (self.new ≡ with_file self.old name.now []) }
    {
        let text = String::from_str(alloc, name)?;
        let value = Vec::new(alloc);
        self.entries.insert(text, value)?;
        Ok(())
    }

    /// Removes the file of that name, if it stands.
    pub(crate) fn remove(&mut self, name: &str)
        ensures { self.new ≡ without_file self.old name.now }
    {
        self.entries.remove(name);
    }

    /// `remove` where it is wanted, and else nothing.
    pub(crate) fn remove_if(&mut self, wanted: bool, name: &str)
        ensures { self.new ≡ (if wanted then without_file self.old name.now else self.old) }
    {
        if !wanted {
            return;
        }
        self.remove(name);
    }

    /// The names that stand, each once, in the order of their bytes. The error is want of memory.
    pub(crate) fn names(&self, alloc: Global) -> Result<Vec<Name>, AllocError>
        ensures { IfOk result (λ names. names.items ≡ names_of self.now) }
    {
        let mut names = Vec::new(alloc);
        for key in self.entries.keys() {
            names.push(Name::from_str(alloc, key.as_str())?)?;
        }
        Ok(names)
    }
}
