//! Sources of bytes.
ghost use Rattle.std.specs.Prelude.{◌≡◌, ◌<◌, ◌↔◌, ℕ, Bool, true, false, List, [], length, drop, min, if◌then◌else◌, IsTrue, is_err, IfOk, OnOk, MatchResult};
ghost use Rattle.std.specs.Io.{ReadsAtMost};
ghost use Rattle.std.specs.Io.KnownBytes.{ReadConsumes};
ghost use Rattle.lake_io.specs.Calls.{called, counted, next_fails, uncalled};
ghost use Rattle.lake_io.specs.Causes.{HasCause};
ghost use Rattle.lake_io.specs.Memory.{SourceData, read_size};
ghost use Rattle.lake_io.specs.Told.{Reads, Takes};

use crate::answers::ReadFault;
use crate::calls::Calls;
use std::io;
use std::io::{ErrorKind, Read};
use std::marker::Model;

/// Where bytes come from. It counts its faults: the count never falls, and rises only in a read that fails.
pub trait Source {
    /// Whether values of this type tell what they hold; what one that does not is said to hold never changes.
    ghost tells: { Bool };
    /// How many reads failed.
    ghost faults: { Self → ℕ };
    /// The bytes given since it was made.
    ghost taken: { Self → List ℕ };
    /// The bytes not yet given.
    ghost left: { Self → List ℕ };

    /// Reads some bytes to the front of `into`, and answers how many; none is the end of the input. A fault takes nothing.
    fn read(&mut self, into: &mut [u8]) -> Result<usize, ReadFault>
        requires { 0 < length into.old }
        ensures gives { MatchResult result (λ n. Reads tells (taken self.old) (left self.old) into.new n (taken self.new) (left self.new)) (λ _. Takes tells (taken self.old) (left self.old) [] (taken self.new) (left self.new)) }
        ensures cause { HasCause (faults self.old) (faults self.new) result }
        ensures counts { OnOk result (faults self.new ≡ faults self.old) };
}

/// A source in memory. It gives its bytes in pieces, and fails the calls whose numbers, from 1, are in a list.
#[derive(Drop)]
pub struct MemSource {
    bytes: Vec<u8>,
    at: usize,
    piece: usize,
    calls: Calls,
}

impl Model for MemSource {
    ghost use Rattle.std.specs.Prelude.{◌≤◌, ◌<◌, take, drop, vec_len};
    ghost use Rattle.lake_io.specs.Memory.{SourceData};

    ghost Value = { SourceData };

    ghost view = { λ s. record { taken = take s.at s.bytes.items; left = drop s.at s.bytes.items; piece = s.piece; calls = s.calls } };

    ghost invariant = { λ s. (s.at ≤ vec_len s.bytes) × (0 < s.piece) };
}

impl MemSource {
    /// A source of these bytes. It gives at most `piece` bytes in a read; the reads with a number in `fails` fail.
    pub fn new(bytes: Vec<u8>, piece: usize, fails: Vec<u64>) -> Self
        requires { 0 < piece }
        ensures { result ≡ record { taken = []; left = bytes.items; piece = piece; calls = uncalled fails.items } }
    {
        MemSource {
            bytes,
            at: 0,
            piece,
            calls: Calls::new(fails),
        }
    }

    /// The bytes not yet given.
    pub fn left(&self) -> &[u8]
        ensures { result.now ≡ self.now.left }
    {
        &self.bytes[self.at..]
    }

    /// How many reads failed.
    pub fn faults(&self) -> u64
        ensures { result ≡ self.now.calls.faults }
    {
        self.calls.faults()
    }

    /// How many reads were asked for.
    pub fn calls(&self) -> u64
        ensures { result ≡ self.now.calls.made }
    {
        self.calls.made()
    }
}

impl Source for MemSource {
    ghost tells = { true };

    ghost faults = { λ s. s.calls.faults };

    ghost taken = { λ s. s.taken };

    ghost left = { λ s. s.left };

    /// Gives a piece, or what fits into `into`, or what is left, whichever is least.
    fn read(&mut self, into: &mut [u8]) -> Result<usize, ReadFault>
        requires { 0 < length into.old }
        ensures fails { IsTrue (is_err result) ↔ IsTrue (next_fails self.old.calls) }
        ensures size { OnOk result (result ≡ Ok (read_size self.old (length into.old))) }
        ensures left { self.new.left ≡ (if next_fails self.old.calls then self.old.left else drop (read_size self.old (length into.old)) self.old.left) }
        ensures counted { self.new.calls ≡ called self.old.calls }
        ensures gives { MatchResult result (λ n. Reads true self.old.taken self.old.left into.new n self.new.taken self.new.left) (λ _. Takes true self.old.taken self.old.left [] self.new.taken self.new.left) }
        ensures cause { HasCause self.old.calls.faults self.new.calls.faults result }
        ensures counts { OnOk result (self.new.calls.faults ≡ self.old.calls.faults) }
    {
        if self.calls.next_fails() {
            return Err(ReadFault);
        }
        let left = &self.bytes[self.at..];
        let n = least(self.piece, least(into.len(), left.len()));
        into[..n].copy_from_slice(&left[..n]);
        self.at += n;
        Ok(n)
    }
}

fn least(a: usize, b: usize) -> usize
    ensures { result ≡ min a b }
{
    if a < b { a } else { b }
}

/// A source over a reader, as the standard input. It tells nothing of what the reader holds.
#[derive(Drop)]
pub struct StdSource<R: Read + Drop> {
    reader: R,
    faults: u64,
}

impl<R: Read + Drop> Model for StdSource<R> {
    ghost use Rattle.lake_io.specs.Adapters.{Adapter};

    ghost Value = { Adapter R };

    ghost view = { λ s. record { over = s.reader; faults = s.faults } };
}

impl<R: Read + Drop> StdSource<R> {
    /// A source over this reader, of which no read has failed.
    pub fn new(reader: R) -> Self
        ensures { result ≡ record { over = reader; faults = 0 } }
    {
        StdSource { reader, faults: 0 }
    }
}

impl<R: Read + Drop> Source for StdSource<R> {
    ghost tells = { false };

    ghost faults = { λ s. s.faults };

    ghost taken = { λ _. [] };

    ghost left = { λ _. [] };

    /// Reads once, and again where a signal interrupted the read. Any other error is a fault. What the reader gives is handed on: no byte
    /// of it is passed over.
    fn read(&mut self, into: &mut [u8]) -> Result<usize, ReadFault>
        requires { 0 < length into.old }
        ensures hands_on { ReadConsumes (R.remaining self.old.over) (R.remaining self.new.over) result into.new }
        ensures counted { self.new.faults ≡ (if is_err result then counted self.old.faults else self.old.faults) }
        ensures gives { IfOk result (λ n. Reads false [] [] into.new n [] []) }
        ensures cause { HasCause self.old.faults self.new.faults result }
        ensures counts { OnOk result (self.new.faults ≡ self.old.faults) }
    {
        match read_some(&mut self.reader, into) {
            Ok(n) => Ok(n),
            Err(_) => {
                if self.faults < u64::MAX {
                    self.faults += 1;
                }
                Err(ReadFault)
            }
        }
    }
}

/// How many times in a row a call is made again after a signal interrupted it.
const TRIES: u32 = 1_000;

/// One read that no signal interrupted, if it is among so many.
fn read_some<R: Read>(reader: &mut R, into: &mut [u8]) -> io::Result<usize>
    ensures bound { ReadsAtMost result into.new }
    ensures bytes { ReadConsumes (R.remaining reader.old) (R.remaining reader.new) result into.new }
{
    for _ in 1..TRIES {
        match reader.read(into) {
            Err(e) if e.kind() == ErrorKind::Interrupted => {}
            answer => return answer,
        }
    }
    reader.read(into)
}
