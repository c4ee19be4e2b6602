//! Sinks of bytes.
ghost use Rattle.std.specs.Prelude.{◌≡◌, ◌<◌, ℕ, Bool, true, false, List, [], ◌++◌, length, IsTrue, IsErr, is_err, IfOk, OnOk, OnErr, MatchResult, if◌then◌else◌};
ghost use Rattle.std.specs.Io.{WritesAtMost};
ghost use Rattle.std.specs.Io.KnownBytes.{WriteAppends};
ghost use Rattle.lake_io.specs.Calls.{called, counted, faulted, next_fails, uncalled};
ghost use Rattle.lake_io.specs.Causes.{HasCause};
ghost use Rattle.lake_io.specs.Told.{Writes, WritesSome, told};

use crate::answers::WriteFault;
use crate::calls::Calls;
use std::alloc::Global;
use std::io;
use std::io::{ErrorKind, Write};
use std::marker::Model;

/// Where bytes go to. It counts its faults: the count never falls, and rises only in a write that fails.
pub trait Sink {
    /// Whether values of this type tell what they hold; what one that does not is said to hold never changes.
    ghost tells: { Bool };
    /// How many writes failed.
    ghost faults: { Self → ℕ };
    /// The bytes taken since it was made.
    ghost written: { Self → List ℕ };

    /// Writes some bytes from the front of `from`, and answers how many, at least one. A fault writes nothing.
    fn write(&mut self, from: &[u8]) -> Result<usize, WriteFault>
        requires { 0 < length from.now }
        ensures takes { MatchResult result (λ n. Writes tells (written self.old) from.now n (written self.new)) (λ _. written self.new ≡ written self.old) }
        ensures cause { HasCause (faults self.old) (faults self.new) result }
        ensures counts { OnOk result (faults self.new ≡ faults self.old) };
}

/// Writes all of `bytes`. Where a write fails, a part was written that lacks at least the last byte. It takes no memory.
pub fn put_all<K: Sink>(sink: &mut K, bytes: &[u8]) -> Result<(), WriteFault>
    ensures puts { MatchResult result (λ _. K.written sink.new ≡ K.written sink.old ++ told K.tells bytes.now) (λ _. WritesSome K.tells (K.written sink.old) bytes.now (K.written sink.new)) }
    ensures cause { HasCause (K.faults sink.old) (K.faults sink.new) result }
    ensures counts { OnOk result (K.faults sink.new ≡ K.faults sink.old) }
{
    let mut done = 0;
    while done < bytes.len() {
        done += sink.write(&bytes[done..])?;
    }
    Ok(())
}

/// A sink in memory. It takes all of each write, and fails the calls whose numbers, from 1, are in a list.
#[derive(Drop)]
pub struct MemSink {
    bytes: Vec<u8>,
    calls: Calls,
}

impl Model for MemSink {
    ghost use Rattle.lake_io.specs.Memory.{SinkData};

    ghost Value = { SinkData };

    ghost view = { λ s. record { written = s.bytes.items; calls = s.calls } };
}

impl MemSink {
    /// An empty sink. The writes with a number in `fails` fail.
    pub fn new(alloc: Global, fails: Vec<u64>) -> Self
        ensures { result ≡ record { written = []; calls = uncalled fails.items } }
    {
        MemSink {
            bytes: Vec::new(alloc),
            calls: Calls::new(fails),
        }
    }

    /// The bytes taken.
    pub fn written(&self) -> &[u8]
        ensures { result.now ≡ self.now.written }
    {
        &self.bytes
    }

    /// How many writes failed.
    pub fn faults(&self) -> u64
        ensures { result ≡ self.now.calls.faults }
    {
        self.calls.faults()
    }

    /// How many writes were asked for.
    pub fn calls(&self) -> u64
        ensures { result ≡ self.now.calls.made }
    {
        self.calls.made()
    }
}

impl Sink for MemSink {
    ghost tells = { true };

    ghost faults = { λ s. s.calls.faults };

    ghost written = { λ s. s.written };

    /// Takes all of `from`. Want of memory is a fault here.
    fn write(&mut self, from: &[u8]) -> Result<usize, WriteFault>
        requires { 0 < length from.now }
        ensures fails { IsTrue (next_fails self.old.calls) → IsErr result }
        ensures whole { OnOk result (self.new ≡ record { written = self.old.written ++ from.now; calls = called self.old.calls }) }
        ensures takes { MatchResult result (λ n. Writes true self.old.written from.now n self.new.written) (λ _. self.new.written ≡ self.old.written) }
        ensures failed { OnErr result (self.new.calls ≡ (if next_fails self.old.calls then called self.old.calls else faulted (called self.old.calls))) }
        ensures cause { HasCause self.old.calls.faults self.new.calls.faults result }
        ensures counts { OnOk result (self.new.calls.faults ≡ self.old.calls.faults) }
    {
        if self.calls.next_fails() {
            return Err(WriteFault);
        }
        match self.bytes.extend_from_slice(from) {
            Ok(()) => Ok(from.len()),
            Err(_) => {
                self.calls.add_fault();
                Err(WriteFault)
            }
        }
    }
}

/// A sink over a writer, as the standard output. It tells nothing of what the writer holds. The writer is to keep no buffer of its own.
#[derive(Drop)]
pub struct StdSink<W: Write + Drop> {
    writer: W,
    faults: u64,
}

impl<W: Write + Drop> Model for StdSink<W> {
    ghost use Rattle.lake_io.specs.Adapters.{Adapter};

    ghost Value = { Adapter W };

    ghost view = { λ s. record { over = s.writer; faults = s.faults } };
}

impl<W: Write + Drop> StdSink<W> {
    /// A sink over this writer, of which no write has failed.
    pub fn new(writer: W) -> Self
        ensures { result ≡ record { over = writer; faults = 0 } }
    {
        StdSink { writer, faults: 0 }
    }
}

impl<W: Write + Drop> Sink for StdSink<W> {
    ghost tells = { false };

    ghost faults = { λ s. s.faults };

    ghost written = { λ _. [] };

    /// Writes once, and again where a signal interrupted the write. Any other error, and a writer that takes nothing, is a fault. What
    /// is answered as written is what the writer took.
    fn write(&mut self, from: &[u8]) -> Result<usize, WriteFault>
        requires { 0 < length from.now }
        ensures hands_on { WriteAppends (W.contents self.old.over) (W.contents self.new.over) result from.now }
        ensures counted { self.new.faults ≡ (if is_err result then counted self.old.faults else self.old.faults) }
        ensures takes { IfOk result (λ n. Writes false [] from.now n []) }
        ensures cause { HasCause self.old.faults self.new.faults result }
        ensures counts { OnOk result (self.new.faults ≡ self.old.faults) }
    {
        match write_some(&mut self.writer, from) {
            Ok(n) if n > 0 => Ok(n),
            _ => {
                if self.faults < u64::MAX {
                    self.faults += 1;
                }
                Err(WriteFault)
            }
        }
    }
}

/// How many times in a row a call is made again after a signal interrupted it.
const TRIES: u32 = 1_000;

/// One write that no signal interrupted, if it is among so many.
fn write_some<W: Write>(writer: &mut W, from: &[u8]) -> io::Result<usize>
    ensures bound { WritesAtMost result from.now }
    ensures bytes { WriteAppends (W.contents writer.old) (W.contents writer.new) result from.now }
{
    for _ in 1..TRIES {
        match writer.write(from) {
            Err(e) if e.kind() == ErrorKind::Interrupted => {}
            answer => return answer,
        }
    }
    writer.write(from)
}
