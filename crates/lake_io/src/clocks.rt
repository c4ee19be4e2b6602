//! Clocks.
ghost use Rattle.std.specs.Prelude.{◌≡◌, Bool, true, false, ℤ, pos, ◌≤ℤ◌, IsTrue, Option, unwrap_or};
ghost use Rattle.std.specs.declared.time.SystemTime.{SystemTime};
ghost use Rattle.lake_io.specs.Adapters.{ms_of, told_ms};

use std::marker::Model;
use std::time::{SystemTime, UNIX_EPOCH};

/// A clock of milliseconds since 1970.
pub trait Clock {
    /// Whether every reading is the same.
    ghost fixed: { Bool };
    /// The last reading. Before the first one it says nothing, unless the clock is fixed.
    ghost reading: { Self → ℤ };

    /// Reads the clock. A reading is from 0 up.
    fn now_ms(&mut self) -> i64
        ensures from_zero { pos 0 ≤ℤ result }
        ensures last { reading self.new ≡ result }
        ensures same { IsTrue fixed → reading self.old ≡ result };
}

/// A clock that stands still.
#[derive(Drop)]
pub struct FixedClock {
    now: i64,
}

impl Model for FixedClock {
    ghost use Rattle.std.specs.Prelude.{ℤ, pos, ◌≤ℤ◌};

    ghost Value = { ℤ };

    ghost view = { λ c. c.now };

    ghost invariant = { λ c. pos 0 ≤ℤ c.now };
}

impl FixedClock {
    /// A clock whose every reading is `now`.
    pub fn new(now: i64) -> Self
        requires { pos 0 ≤ℤ now }
        ensures { result ≡ now }
    {
        FixedClock { now }
    }
}

impl Clock for FixedClock {
    ghost fixed = { true };

    ghost reading = { λ c. c };

    fn now_ms(&mut self) -> i64 {
        self.now
    }
}

/// What tells a `SystemClock` the time: in a program its runtime.
pub trait TimeOfDay {
    /// What may be told: the teller before, the time or none, and the teller after.
    ghost tells: { Self → Option SystemTime → Self → Type 0 };

    /// The time, or none where it cannot be told or is before 1970.
    fn tell(&mut self) -> Option<SystemTime>
        ensures { tells self.old result self.new };
}

/// A clock that asks for the time at each reading. Where none is told, or one whose milliseconds 64 bits do not hold, the last reading stands, which is
/// 0 before the first.
#[derive(Drop)]
pub struct SystemClock<T: TimeOfDay + Drop> {
    teller: T,
    last: i64,
}

impl<T: TimeOfDay + Drop> Model for SystemClock<T> {
    ghost use Rattle.std.specs.Prelude.{ℤ, pos, ◌≤ℤ◌};
    ghost use Rattle.lake_io.specs.Adapters.{Timed};

    ghost Value = { Timed T };

    ghost view = { λ c. record { teller = c.teller; last = c.last } };

    ghost invariant = { λ c. pos 0 ≤ℤ c.last };
}

impl<T: TimeOfDay + Drop> SystemClock<T> {
    /// A clock that was not read yet.
    pub fn new(teller: T) -> Self
        ensures { result ≡ record { teller = teller; last = pos 0 } }
    {
        SystemClock { teller, last: 0 }
    }
}

impl<T: TimeOfDay + Drop> Clock for SystemClock<T> {
    ghost fixed = { false };

    ghost reading = { λ c. c.last };

    fn now_ms(&mut self) -> i64
        ensures from_zero { pos 0 ≤ℤ result }
        ensures last { self.new.last ≡ result }
        ensures asks { (time : _) × T.tells self.old.teller time self.new.teller × (result ≡ unwrap_or (told_ms time) self.old.last) }
    {
        if let Some(now) = self.teller.tell().and_then(ms_since_1970) {
            self.last = now;
        }
        self.last
    }
}

/// The milliseconds from 1970 to this time, where 64 bits hold them.
fn ms_since_1970(time: SystemTime) -> Option<i64>
    ensures { result ≡ ms_of time }
{
    let since = time.duration_since(UNIX_EPOCH).ok()?;
    i64::try_from(since.as_millis()).ok()
}
