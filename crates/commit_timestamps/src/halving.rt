//! The version at a time, found by halving.
ghost use Rattle.std.specs.Prelude.{◌≡◌, ◌^◌, ◌<◌, ◌≤◌, ℤ, List, [], length, IfSome, OnSome, IsSome, IsNone};
ghost use Rattle.commit_timestamps.specs.Digits.{binary_digits};
ghost use Rattle.commit_timestamps.specs.Search.{Agrees, HasTime};
ghost use Rattle.commit_timestamps.specs.Times.{IsRising, version_at, IsVersionAt};
ghost use Rattle.commit_timestamps.specs.View.{low, high};

use std::marker::Model;

/// The time of a version, in milliseconds since 1970.
#[derive(Clone, Copy)]
struct Answer {
    version: u64,
    time: i64,
}

/// A search for the version at a time among versions whose times rise. It asks for the time of one version at a time, at most as
/// often as the number of versions has binary digits, and takes no memory.
#[derive(Drop)]
pub struct Halving {
    len: u64,
    time: i64,
    /// The answer for the greatest version that is known to be at or before the time.
    before: Option<Answer>,
    /// The answer for the least version that is known to be after the time.
    after: Option<Answer>,
}

impl Model for Halving {
    ghost use Rattle.commit_timestamps.specs.Search.{Search};

    ghost Value = { Search };

    ghost use Rattle.commit_timestamps.specs.View.{search_of, IsNarrowed};

    ghost view = { search_of };

    ghost invariant = { IsNarrowed };
}

/// The least version that is known to be after the time, or the number of versions.
fn first_after(len: u64, after: Option<Answer>) -> u64
    ensures { result ≡ high len after }
{
    match after {
        None => len,
        Some(answer) => answer.version,
    }
}

/// The least version that may still be after the time.
fn first_open(before: Option<Answer>) -> u64
    requires { low before < 2 ^ 64 }
    ensures { result ≡ low before }
{
    match before {
        None => 0,
        Some(answer) => answer.version + 1,
    }
}

impl Halving {
    /// Begins a search among the versions from 0 up and below `len` for the greatest whose time is at most `time`, in
    /// milliseconds since 1970.
    pub fn new(len: u64, time: i64) -> Halving
        ensures versions { result.versions ≡ len }
        ensures time { result.time ≡ time }
        ensures answers { result.answers ≡ [] }
        ensures agrees { (times : List ℤ) → length times ≡ len → IsRising times → Agrees result times }
        ensures left { result.left ≡ binary_digits len }
    {
        Halving {
            len,
            time,
            before: None,
            after: None,
        }
    }

    /// The version whose time is wanted next, below the number of versions. `None` once the result is known.
    pub fn ask(&self) -> Option<u64>
        ensures asks { result ≡ self.now.asks }
        ensures is_version { IfSome result (λ v. v < self.now.versions) }
        ensures left { OnSome result (0 < self.now.left) }
    {
        let high = first_after(self.len, self.after);
        let low = first_open(self.before);
        if low < high {
            Some(low + (high - low) / 2)
        } else {
            None
        }
    }

    /// Takes the time of the version that is asked for, in milliseconds since 1970.
    pub fn answer(&mut self, time: i64)
        requires { IsSome self.old.asks }

        ensures versions { self.new.versions ≡ self.old.versions }
        ensures time { self.new.time ≡ self.old.time }

        // Whatever times agreed before and have this answer agree now.
        ensures agrees { IfSome self.old.asks (λ v. (times : List ℤ) → Agrees self.old times → HasTime times v time
            → Agrees self.new times) }

        ensures fewer { self.new.left < self.old.left }
    {
        if let Some(version) = self.ask() {
            let answer = Some(Answer { version, time });
            if time <= self.time {
                self.before = answer;
            } else {
                self.after = answer;
            }
        }
    }

    /// The greatest version whose time is at most the one that was given to `new`; `None` where every time is after it.
    pub fn result(&self) -> Option<u64>
        requires { IsNone self.now.asks }

        ensures value { (times : List ℤ) → Agrees self.now times → result ≡ version_at times self.now.time }
        ensures greatest { (times : List ℤ) → Agrees self.now times → IsVersionAt times self.now.time result }
    {
        self.before.map(|answer| answer.version)
    }
}
