//! The text of a name, in a buffer of fixed size.

ghost use Rattle.std.specs.Prelude.{◌≡◌, ◌+◌, ◌≤◌, [], ◌++◌, length, take};
ghost use Rattle.std.specs.Str.{IsUtf8};

use std::marker::Model;

/// The most bytes that the text of a name has.
pub const LONGEST: usize = 78;

/// The text of a name: at most 78 bytes, which take no memory from an allocator.
#[derive(Drop)]
pub struct NameText {
    bytes: [u8; 78],
    len: usize,
}

impl Model for NameText {
    ghost use Rattle.std.specs.Prelude.{List, ℕ, ◌≤◌, take};
    ghost use Rattle.std.specs.Str.{IsUtf8};

    ghost Value = { List ℕ };

    ghost view = { λ t. take t.len t.bytes };

    ghost invariant = { λ t. (t.len ≤ 78) × IsUtf8 (take t.len t.bytes) };
}

impl NameText {
    /// The text as it is given, which has at most 78 bytes.
    pub fn new(text: &str) -> NameText
        requires { length text.now ≤ 78 }
        ensures { result ≡ text.now }
    {
        let mut made = NameText::empty();
        made.put(text);
        made
    }

    /// The text.
    pub fn as_str(&self) -> &str
        ensures value { result.now ≡ self.now }
        ensures short { length self.now ≤ 78 }
    {
        let bytes = &self.bytes[..self.len];
        match str::from_utf8(bytes) {
            Ok(text) => text,
            Err(_) => unreachable!(),
        }
    }

    /// The empty text.
    pub(crate) fn empty() -> NameText
        ensures { result ≡ [] }
    {
        NameText {
            bytes: [0; 78],
            len: 0,
        }
    }

    /// Adds a text at the end, for which there is room.
    pub(crate) fn put(&mut self, text: &str)
        requires { length self.old + length text.now ≤ 78 }
        ensures { self.new ≡ self.old ++ text.now }
    {
        self.put_bytes(text.as_bytes());
    }

    /// Adds bytes that are a text at the end, for which there is room.
    pub(crate) fn put_bytes(&mut self, part: &[u8])
        requires room { length self.old + length part.now ≤ 78 }
        requires text { IsUtf8 part.now }
        ensures { self.new ≡ self.old ++ part.now }
    {
        let start = self.len;
        write_at(&mut self.bytes, start, part);
        self.len = start + part.len();
    }
}

/// Writes `part` over what stands in `bytes` from the index `start`.
fn write_at(bytes: &mut [u8; 78], start: usize, part: &[u8])
    requires { start + length part.now ≤ 78 }
    ensures { take (start + length part.now) bytes.new ≡ take start bytes.old ++ part.now }
{
    for (index, byte) in part.iter().enumerate() {
        bytes[start + index] = *byte;
    }
}
