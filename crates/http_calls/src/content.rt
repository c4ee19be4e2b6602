ghost use Rattle.std.specs.Prelude.{◌≡◌};

use crate::answer::Entry;
use std::marker::Model;

/// The bytes of a file. A contract sees the list of them.
#[derive(Drop)]
pub struct Content {
    bytes: Vec<u8>,
}

impl Model for Content {
    ghost use Rattle.std.specs.Prelude.{List, ℕ};

    ghost Value = { List ℕ };

    ghost view = { λ c. c.bytes.items };
}

impl Content {
    /// The bytes themselves, kept as they are.
    pub fn from_vec(bytes: Vec<u8>) -> Content
        ensures { result ≡ bytes.items }
    {
        Content { bytes }
    }

    /// The bytes, given up.
    pub fn into_vec(self) -> Vec<u8>
        ensures { result.items ≡ self }
    {
        self.bytes
    }

    /// The bytes.
    pub fn as_slice(&self) -> &[u8]
        ensures { result.now ≡ self.now }
    {
        &self.bytes
    }
}

/// Ratified commits in rising order of version. A contract sees the list of them.
#[derive(Drop)]
pub struct Entries {
    items: Vec<Entry>,
}

impl Model for Entries {
    ghost use Rattle.std.specs.Prelude.{List};
    ghost use Rattle.http_calls.specs.declared.answer.Entry.{Entry};

    ghost Value = { List Entry };

    ghost view = { λ e. e.items.items };
}

impl Entries {
    /// The entries of a vector.
    pub fn from_vec(items: Vec<Entry>) -> Entries
        ensures { result ≡ items.items }
    {
        Entries { items }
    }

    /// The entries.
    pub fn as_slice(&self) -> &[Entry]
        ensures { result.now ≡ self.now }
    {
        &self.items
    }
}
