//! The requests of a connection.
ghost use Rattle.std.specs.Prelude.{◌≡◌, ◌<◌, ◌≤◌, ◌++◌, [], IfOk, OnOk, OnSome, MatchResult, MatchBool, Err, length, min, take, drop, vec_len};
ghost use Rattle.lake_io.specs.Causes.{HasCause, Rose};
ghost use Rattle.lake_io.specs.Told.{Reads, Takes};
ghost use Rattle.http_wire.specs.Connection.{at_start, Again, CountsFault, Next, NextBy, WireCause};
ghost use Rattle.http_wire.specs.Filling.{Asks, Fills, TakesFront};
ghost use Rattle.http_wire.specs.Found.{FindsRequest};

use crate::front::{HEADER_ROOM, find_request};
use crate::request::{Request, WireError};
use httparse::spans::{EMPTY_HEADER_SPAN, HeaderSpan};
use lake_io::{ReadFault, Source};
use std::alloc::{AllocError, Global};
use std::marker::Model;

/// The most bytes that are taken from a source.
const MAX_INPUT: u64 = 4_294_967_296;

/// The most bytes that one read asks for.
const PIECE: usize = 65_536;

/// Whether a reader goes on.
#[derive(Clone, Copy, Debug)]
pub enum WireState {
    /// It goes on.
    Open,
    /// Its source has ended between two requests.
    Ended,
    /// It has answered this error, and answers it again.
    Stopped(WireError),
}

/// How many bytes to ask for, where so many may still be taken.
fn piece_size(left: u64) -> usize
    ensures { result ≡ min 65536 left }
{
    if left < PIECE as u64 {
        left as usize
    } else {
        PIECE
    }
}

/// Reads at most `room` bytes to the front of the piece.
fn read_front<I: Source>(source: &mut I, piece: &mut [u8], room: usize) -> Result<usize, ReadFault>
    requires some { 0 < room }
    requires fits { room ≤ length piece.old }
    ensures gives { MatchResult result (λ n. Reads I.tells (I.taken source.old) (I.left source.old) (take room piece.new) n (I.taken source.new) (I.left source.new)) (λ _. Takes I.tells (I.taken source.old) (I.left source.old) [] (I.taken source.new) (I.left source.new)) }
    ensures cause { HasCause (I.faults source.old) (I.faults source.new) result }
    ensures counts { OnOk result (I.faults source.new ≡ I.faults source.old) }
{
    source.read(&mut piece[..room])
}

/// The same of a piece that keeps its length.
fn read_piece<I: Source>(
    source: &mut I,
    piece: &mut Vec<u8>,
    room: usize,
) -> Result<usize, ReadFault>
    requires some { 0 < room }
    requires fits { room ≤ vec_len piece.old }
    ensures gives { MatchResult result (λ n. Reads I.tells (I.taken source.old) (I.left source.old) (take room piece.new.items) n (I.taken source.new) (I.left source.new)) (λ _. Takes I.tells (I.taken source.old) (I.left source.old) [] (I.taken source.new) (I.left source.new)) }
    ensures cause { HasCause (I.faults source.old) (I.faults source.new) result }
    ensures counts { OnOk result (I.faults source.new ≡ I.faults source.old) }
    ensures len { vec_len piece.new ≡ vec_len piece.old }
{
    read_front(source, piece.as_mut_slice(), room)
}

/// The request at the front, by a room for headers that keeps its length.
fn find_in(
    alloc: Global,
    bytes: &[u8],
    headers: &mut Vec<HeaderSpan>,
    limit: u64,
) -> Result<Option<(Request, usize)>, WireError>
    requires { vec_len headers.old ≡ HEADER_ROOM }
    ensures finds { FindsRequest limit bytes.now result }
    ensures len { vec_len headers.new ≡ vec_len headers.old }
{
    find_request(alloc, bytes, headers.as_mut_slice(), limit)
}

/// Drops the bytes before `at`, and adds a piece at the end.
fn append(buffer: &mut Vec<u8>, at: usize, piece: &[u8]) -> Result<(), AllocError>
    requires { at ≤ vec_len buffer.old }
    ensures { IfOk result (λ _. buffer.new.items ≡ drop at buffer.old.items ++ piece.now) }
{
    if at > 0 {
        *buffer = Vec::from_slice(*buffer.allocator(), &buffer[at..])?;
    }
    buffer.extend_from_slice(piece)
}

/// The requests of a connection. It reads in pieces, and holds no more than a head, a body within the limit and a piece.
#[derive(Drop)]
pub struct Wire {
    buffer: Vec<u8>,
    at: usize,
    piece: Vec<u8>,
    headers: Vec<HeaderSpan>,
    read: u64,
    state: WireState,
}

impl Model for Wire {
    ghost use Rattle.std.specs.Prelude.{drop, vec_len};
    ghost use Rattle.http_wire.specs.Connection.{WireAt};

    ghost Value = { WireAt };

    ghost view = { λ w. record { read = w.read; pending = drop w.at w.buffer.items; state = w.state } };

    ghost use Rattle.http_wire.specs.Fields.{IsSound};

    ghost invariant = { λ w. IsSound (vec_len w.buffer) w.at (vec_len w.piece) (vec_len w.headers) w.read };
}

impl Wire {
    /// A reader that has read nothing yet.
    pub fn new(alloc: Global) -> Result<Wire, AllocError>
        ensures { IfOk result (λ w. w ≡ at_start) }
    {
        Ok(Wire {
            buffer: Vec::new(alloc),
            at: 0,
            piece: vec![in alloc; 0; PIECE]?,
            headers: vec![in alloc; EMPTY_HEADER_SPAN; HEADER_ROOM]?,
            read: 0,
            state: WireState::Open,
        })
    }

    /// Takes the request at the front of what is pending. `None` where there is less than a request.
    fn take_request(&mut self, limit: u64) -> Result<Option<Request>, WireError>
        ensures { TakesFront limit self.old result self.new }
    {
        let alloc = *self.buffer.allocator();
        match find_in(alloc, &self.buffer[self.at..], &mut self.headers, limit)? {
            None => Ok(None),
            Some((request, n)) => {
                self.at += n;
                Ok(Some(request))
            }
        }
    }

    /// Asks the source for a piece. `false` is the end of the input.
    fn fill<I: Source>(&mut self, source: &mut I) -> Result<bool, WireError>
        ensures fills { Fills I.tells (I.taken source.old) (I.left source.old) self.old result (I.taken source.new) (I.left source.new) self.new }
        ensures later { I.faults source.old ≤ I.faults source.new }
        ensures cause { result ≡ Err WireError.ReadFault → Rose (I.faults source.old) (I.faults source.new) }
        ensures counts { CountsFault (I.faults source.old) result (I.faults source.new) }
    {
        if self.read == MAX_INPUT {
            return Err(WireError::TooMuch);
        }
        let room = piece_size(MAX_INPUT - self.read);
        match read_piece(source, &mut self.piece, room) {
            Err(_) => Err(WireError::ReadFault),
            Ok(0) => Ok(false),
            Ok(n) => {
                self.read += n as u64;
                let at = self.at;
                self.at = 0;
                append(&mut self.buffer, at, &self.piece[..n])?;
                Ok(true)
            }
        }
    }

    /// Whether bytes are pending.
    fn has_pending(&self) -> bool
        ensures { MatchBool result (0 < length self.now.pending) (self.now.pending ≡ []) }
    {
        self.at < self.buffer.len()
    }

    /// The next request, or why there is none, of an open reader.
    fn read_request<I: Source>(
        &mut self,
        source: &mut I,
        limit: u64,
    ) -> Result<Option<Request>, WireError>
        requires { self.old.state ≡ WireState.Open }
        ensures holds { length self.old.pending ≤ 65536 → IfOk result (λ found. OnSome found (length self.new.pending ≤ 65536)) }
        ensures asks { Asks I.tells (I.taken source.old) (I.left source.old) (I.taken source.new) (I.left source.new) limit self.old result self.new }
        ensures later { I.faults source.old ≤ I.faults source.new }
        ensures cause { result ≡ Err WireError.ReadFault → Rose (I.faults source.old) (I.faults source.new) }
        ensures counts { CountsFault (I.faults source.old) result (I.faults source.new) }
    {
        loop {
            if let Some(request) = self.take_request(limit)? {
                return Ok(Some(request));
            }
            if !self.fill(source)? {
                return if self.has_pending() {
                    Err(WireError::Cut)
                } else {
                    Ok(None)
                };
            }
        }
    }

    /// Gives up what is pending, and goes on no more.
    fn close(&mut self, state: WireState)
        ensures { self.new ≡ record { read = self.old.read; pending = []; state = state } }
    {
        self.buffer.clear();
        self.at = 0;
        self.state = state;
    }

    /// The next request, or `None` at the end of the input between two requests. The bytes are cut into requests in the same way in
    /// whatever pieces they come. No body has more than `limit` bytes.
    ///
    /// `Refuse` for bytes that are no request that is served, by the first status that applies; `Cut` where the input ends inside a
    /// request; `ReadFault` only where the source failed in this call or it was the last answer; `TooMuch` where the source gave
    /// 4,294,967,296 bytes and no whole request and no refusal is left of them. After an error each further call answers it again.
    pub fn next_request<I: Source>(
        &mut self,
        source: &mut I,
        limit: u64,
    ) -> Result<Option<Request>, WireError>
        ensures next { NextBy self.old.state (Next I.tells (I.taken source.old) (I.left source.old) (I.taken source.new) (I.left source.new) limit self.old result self.new) }
        ensures again { Again source.old source.new self.old result self.new }
        // Between two calls no more than a piece is held.
        ensures holds { length self.old.pending ≤ 65536 → length self.new.pending ≤ 65536 }
        ensures cause { WireCause (I.faults source.old) (I.faults source.new) self.old result }
        ensures counts { CountsFault (I.faults source.old) result (I.faults source.new) }
    {
        match self.state {
            WireState::Open => {}
            WireState::Ended => return Ok(None),
            WireState::Stopped(error) => return Err(error),
        }
        match self.read_request(source, limit) {
            Ok(Some(request)) => Ok(Some(request)),
            Ok(None) => {
                self.close(WireState::Ended);
                Ok(None)
            }
            Err(error) => {
                self.close(WireState::Stopped(error));
                Err(error)
            }
        }
    }
}
