//! The lines of a source.
ghost use Rattle.std.specs.Prelude.{◌≡◌, ◌⊎◌, true, false, ◌<◌, ◌≤◌, ◌+◌, ◌++◌, ℕ, List, [], IfOk, OnOk, OnErr, MatchResult, MatchOption, length, min, take, vec_len, ⊤};
ghost use Rattle.text_lines.specs.Lines.{HasNoLf};
ghost use Rattle.lake_io.specs.Reading.{Again, CountsFault, Handed, Holds, LineCause, Next, at_start};
ghost use Rattle.lake_io.specs.Parts.{DoneLine, DoneNone, Fills, IsFirstLf, IsPart, Moves};
ghost use Rattle.lake_io.specs.Causes.{HasCause, Rose};
ghost use Rattle.lake_io.specs.Told.{Reads, Takes};

use crate::answers::ReadFault;
use crate::input::Source;
use std::alloc::{AllocError, Global};
use std::marker::Model;
use thiserror::Error;

/// The most bytes of a line, without its LF.
pub const MAX_LINE: usize = 1_048_576;

/// The most bytes that are taken from a source.
pub const MAX_INPUT: u64 = 4_294_967_296;

/// The most bytes that one read asks for.
const PIECE: usize = 65_536;

/// A line of the input, without its LF.
#[derive(Drop)]
pub struct Line {
    /// Its number, from 1. Blank lines count.
    pub number: u64,
    /// Its bytes, at most 1,048,576. None of them is LF.
    pub text: Vec<u8>,
}

/// Why no line was answered.
#[derive(Clone, Copy, Debug, Error)]
pub enum LineError {
    /// The source failed. No line that an LF ends is left of what was read. It is answered again at each further call.
    #[error("the input could not be read")]
    ReadFault,
    /// The line has more than 1,048,576 bytes, and was passed over. The next call goes on behind it.
    #[error("line {at} is too long")]
    TooLong {
        /// The line's number, from 1.
        at: u64,
    },
    /// The source gave 4,294,967,296 bytes, and no line that an LF ends is left of them. It is answered again at each further call.
    #[error("the input is too long")]
    TooMuch,
    /// Memory ran out. The line was lost, and it is answered again at each further call.
    #[error("out of memory")]
    Memory,
}

/// Whether a reader goes on.
#[derive(Clone, Copy, Debug)]
pub enum InputState {
    /// It goes on.
    Open,
    /// Its source has ended.
    Ended,
    /// Its source failed.
    Failed,
    /// Its source gave as many bytes as are taken.
    Full,
    /// Memory ran out.
    Lost,
}

/// What was read of a line that has not ended. A text of more than 1,048,576 bytes is not kept.
#[derive(Drop)]
struct Part {
    text: Vec<u8>,
    long: bool,
}

impl Part {
    fn new(alloc: Global) -> Part
        ensures { IsPart result [] }
    {
        Part {
            text: Vec::new(alloc),
            long: false,
        }
    }

    /// Whether nothing of the line was read.
    fn is_empty(&self) -> bool
        ensures yes { result ≡ true → (text : List ℕ) → IsPart self.now text → text ≡ [] }
        ensures no { result ≡ false → (text : List ℕ) → IsPart self.now text → 0 < length text }
    {
        !self.long && self.text.is_empty()
    }

    /// Adds bytes of the line, or gives up its text where it gets too long.
    fn add(&mut self, bytes: &[u8]) -> Result<(), AllocError>
        ensures { OnOk result ((text : List ℕ) → IsPart self.old text → HasNoLf bytes.now → IsPart self.new (text ++ bytes.now)) }
    {
        if self.long {
            return Ok(());
        }
        if self.text.len().saturating_add(bytes.len()) > MAX_LINE {
            self.long = true;
            self.text.clear();
            return Ok(());
        }
        self.text.extend_from_slice(bytes)
    }
}

/// The place of the first LF.
fn find_lf(bytes: &[u8]) -> Option<usize>
    ensures { MatchOption result (HasNoLf bytes.now) (λ i. IsFirstLf bytes.now i) }
{
    bytes.iter().position(|b| *b == b'\n')
}

/// The line of this number, which is whole, or that it is too long.
fn line_of(number: u64, part: Part) -> Result<Option<Line>, LineError>
    ensures { (text : List ℕ) → IsPart part text → Handed number text result }
{
    if part.long {
        return Err(LineError::TooLong { at: number });
    }
    Ok(Some(Line {
        number,
        text: part.text,
    }))
}

/// The lines of a source. It reads in pieces, and holds no more than a line and a piece.
#[derive(Drop)]
pub struct Lines {
    piece: Vec<u8>,
    at: usize,
    end: usize,
    read: u64,
    number: u64,
    state: InputState,
}

impl Model for Lines {
    ghost use Rattle.std.specs.Prelude.{take, drop, ◌-◌, vec_len};
    ghost use Rattle.lake_io.specs.Reading.{At};

    ghost Value = { At };

    ghost view = { λ l. record { number = l.number; read = l.read; pending = take (l.end - l.at) (drop l.at l.piece.items); state = l.state } };

    ghost use Rattle.lake_io.specs.Fields.{IsSound};

    ghost invariant = { λ l. IsSound (vec_len l.piece) l.at l.end l.read l.number l.state };
}

impl Lines {
    /// A reader that has read nothing yet.
    pub fn new(alloc: Global) -> Result<Lines, AllocError>
        ensures { IfOk result (λ l. l ≡ at_start) }
    {
        Ok(Lines {
            piece: vec![in alloc; 0; PIECE]?,
            at: 0,
            end: 0,
            read: 0,
            number: 0,
            state: InputState::Open,
        })
    }

    /// The next line, with its number, or `None` at the end of the input. A last line without LF is a line. It asks the source for more
    /// only where no LF is left in what it has.
    ///
    /// `ReadFault` only where the source failed in this call or it was the last answer, `TooLong` where the line has more than 1,048,576
    /// bytes, `TooMuch` where the source gave 4,294,967,296 bytes and no line that an LF ends is left of them; all in [`LineError`].
    pub fn next<S: Source>(&mut self, source: &mut S) -> Result<Option<Line>, LineError>
        ensures next { Next S.tells (S.taken source.old) (S.left source.old) (S.taken source.new) (S.left source.new) self.old result self.new }
        ensures again { Again source.old source.new self.old result self.new }
        ensures cause { LineCause (S.faults source.old) (S.faults source.new) self.old result }
        ensures counts { CountsFault (S.faults source.old) result (S.faults source.new) }
        ensures holds { Holds self.new }
    {
        match self.state {
            InputState::Open => {}
            InputState::Ended => return Ok(None),
            InputState::Failed => return Err(LineError::ReadFault),
            InputState::Full => return Err(LineError::TooMuch),
            InputState::Lost => return Err(LineError::Memory),
        }
        let answer = self.read_line(source);
        let _ = &self.piece;
        answer
    }

    /// The next line of an input that goes on.
    fn read_line<S: Source>(&mut self, source: &mut S) -> Result<Option<Line>, LineError>
        requires { self.old.state ≡ InputState.Open }
        ensures next { Next S.tells (S.taken source.old) (S.left source.old) (S.taken source.new) (S.left source.new) self.old result self.new }
        ensures later { S.faults source.old ≤ S.faults source.new }
        ensures cause { result ≡ Err LineError.ReadFault → Rose (S.faults source.old) (S.faults source.new) }
        ensures counts { CountsFault (S.faults source.old) result (S.faults source.new) }
    {
        let mut part = Part::new(*self.piece.allocator());
        'parts: loop {
            match self.take_part(&mut part) {
                Ok(true) => return self.hand(part),
                Ok(false) => {}
                Err(_) => {
                    self.lose();
                    return Err(LineError::Memory);
                }
            }
            match self.fill(source) {
                Ok(true) => {}
                Ok(false) => return self.end_input(part),
                Err(error) => return Err(error),
            }
        }
    }

    /// The line that was counted last, which is whole.
    fn hand(&self, part: Part) -> Result<Option<Line>, LineError>
        ensures { (text : List ℕ) → IsPart part text → Handed self.now.number text result }
    {
        line_of(self.number, part)
    }

    /// Notes that the input has ended, and answers the last line, if something was read of one.
    fn end_input(&mut self, part: Part) -> Result<Option<Line>, LineError>
        requires state { self.old.state ≡ InputState.Open }
        requires none { self.old.pending ≡ [] }
        requires room { self.old.read < 4294967296 }
        ensures { (text : List ℕ) → IsPart part text → DoneNone self.old text result self.new ⊎ DoneLine self.old text result self.new }
    {
        self.state = InputState::Ended;
        if part.is_empty() {
            return Ok(None);
        }
        self.number += 1;
        line_of(self.number, part)
    }

    /// Moves what is pending to `part`, up to the first LF, which is passed over, and answers whether there was one.
    fn take_part(&mut self, part: &mut Part) -> Result<bool, AllocError>
        requires { self.old.state ≡ InputState.Open }
        ensures ok { (text : List ℕ) → IsPart part.old text → MatchResult result (λ found. Moves self.old text found self.new part.new) (λ _. ⊤) }
        ensures err { OnErr result (self.new ≡ self.old) }
    {
        let pending = &self.piece[self.at..self.end];
        match find_lf(pending) {
            Some(i) => {
                part.add(&pending[..i])?;
                self.at += i + 1;
                self.number += 1;
                Ok(true)
            }
            None => {
                part.add(pending)?;
                self.at = self.end;
                Ok(false)
            }
        }
    }

    /// Gives up what is pending, for want of memory.
    fn lose(&mut self)
        requires { self.old.state ≡ InputState.Open }
        ensures { self.new ≡ record { number = self.old.number; read = self.old.read; pending = []; state = InputState.Lost } }
    {
        self.at = self.end;
        self.state = InputState::Lost;
    }

    /// Asks the source for a piece. `false` is the end of the input.
    fn fill<S: Source>(&mut self, source: &mut S) -> Result<bool, LineError>
        requires state { self.old.state ≡ InputState.Open }
        requires none { self.old.pending ≡ [] }
        ensures fills { Fills S.tells (S.taken source.old) (S.left source.old) self.old result (S.taken source.new) (S.left source.new) self.new }
        ensures later { S.faults source.old ≤ S.faults source.new }
        ensures cause { result ≡ Err LineError.ReadFault → Rose (S.faults source.old) (S.faults source.new) }
        ensures counts { CountsFault (S.faults source.old) result (S.faults source.new) }
    {
        if self.read == MAX_INPUT {
            self.state = InputState::Full;
            return Err(LineError::TooMuch);
        }
        let room = piece_size(MAX_INPUT - self.read);
        match read_piece(source, &mut self.piece, room) {
            Err(_) => {
                self.state = InputState::Failed;
                Err(LineError::ReadFault)
            }
            Ok(0) => Ok(false),
            Ok(n) => {
                self.at = 0;
                self.end = n;
                self.read += n as u64;
                Ok(true)
            }
        }
    }
}

/// How many bytes to ask for, where so many may still be taken.
fn piece_size(left: u64) -> usize
    ensures { result ≡ min 65536 left }
{
    if left < PIECE as u64 {
        left as usize
    } else {
        PIECE
    }
}

/// Reads at most `room` bytes to the front of the piece.
fn read_front<S: Source>(source: &mut S, piece: &mut [u8], room: usize) -> Result<usize, ReadFault>
    requires some { 0 < room }
    requires fits { room ≤ length piece.old }
    ensures gives { MatchResult result (λ n. Reads S.tells (S.taken source.old) (S.left source.old) (take room piece.new) n (S.taken source.new) (S.left source.new)) (λ _. Takes S.tells (S.taken source.old) (S.left source.old) [] (S.taken source.new) (S.left source.new)) }
    ensures cause { HasCause (S.faults source.old) (S.faults source.new) result }
    ensures counts { OnOk result (S.faults source.new ≡ S.faults source.old) }
{
    source.read(&mut piece[..room])
}

/// Reads at most `room` bytes to the front of the piece.
fn read_piece<S: Source>(
    source: &mut S,
    piece: &mut Vec<u8>,
    room: usize,
) -> Result<usize, ReadFault>
    requires some { 0 < room }
    requires fits { room ≤ vec_len piece.old }
    ensures gives { MatchResult result (λ n. Reads S.tells (S.taken source.old) (S.left source.old) (take room piece.new.items) n (S.taken source.new) (S.left source.new)) (λ _. Takes S.tells (S.taken source.old) (S.left source.old) [] (S.taken source.new) (S.left source.new)) }
    ensures cause { HasCause (S.faults source.old) (S.faults source.new) result }
    ensures counts { OnOk result (S.faults source.new ≡ S.faults source.old) }
    ensures len { vec_len piece.new ≡ vec_len piece.old }
{
    read_front(source, piece.as_mut_slice(), room)
}
