//! Ids of 128 bits.
ghost use Rattle.std.specs.Prelude.{◌≡◌, ◌<◌, Bool, true, false, ℕ, List, [], IsTrue, vec_len};
ghost use Rattle.lake_io.specs.GivenIds.{GivesNew, counted_to, next_id, next_number};

use std::alloc::Global;
use std::marker::Model;

/// What gives ids.
pub trait Ids {
    /// The last id given. Before the first one it says nothing.
    ghost last: { Self → ℕ };
    /// Whether all the ids given are told to differ.
    ghost differ: { Self → Bool };
    /// Where they are: all the ids given, in order.
    ghost given: { Self → List ℕ };

    /// Gives an id.
    fn next(&mut self) -> u128
        ensures last { last self.new ≡ result }
        ensures new { IsTrue (differ self.new) → GivesNew (differ self.old) (given self.old) result (given self.new) };
}

/// Ids in memory: numbers that count up, or those of a list.
#[derive(Drop)]
pub struct ListIds {
    list: Vec<u128>,
    at: usize,
    first: u128,
    next: Option<u128>,
    differ: bool,
    last: u128,
}

impl Model for ListIds {
    ghost use Rattle.std.specs.Prelude.{◌≤◌, IfSome, drop};
    ghost use Rattle.lake_io.specs.GivenIds.{IdData};

    ghost Value = { IdData };

    ghost view = { λ s. record { last = s.last; differ = s.differ; first = s.first; next = s.next; rest = drop s.at s.list.items } };

    ghost invariant = { λ s. IfSome s.next (λ n. s.first ≤ n) };
}

impl ListIds {
    /// Ids that count up from `first`. After the greatest number of 128 bits they repeat it; until then they differ.
    pub fn from(alloc: Global, first: u128) -> Self
        ensures { result ≡ record { last = 0; differ = true; first = first; next = Some first; rest = [] } }
    {
        ListIds {
            list: Vec::new(alloc),
            at: 0,
            first,
            next: Some(first),
            differ: true,
            last: 0,
        }
    }

    /// The ids of `list`, in order, and then its last one again and again. They are not told to differ.
    pub fn of(list: Vec<u128>) -> Self
        requires { 0 < vec_len list }
        ensures { result ≡ record { last = 0; differ = false; first = 0; next = None; rest = list.items } }
    {
        ListIds {
            list,
            at: 0,
            first: 0,
            next: None,
            differ: false,
            last: 0,
        }
    }
}

impl Ids for ListIds {
    ghost last = { λ s. s.last };

    ghost differ = { λ s. s.differ };

    ghost given = { λ s. counted_to s.first s.next };

    fn next(&mut self) -> u128
        ensures exact { self.new ≡ next_id self.old }
        ensures last { self.new.last ≡ result }
        ensures new { IsTrue self.new.differ → GivesNew self.old.differ (counted_to self.old.first self.old.next) result (counted_to self.new.first self.new.next) }
    {
        if let Some(id) = self.next {
            self.next = next_number(id);
            self.last = id;
            return id;
        }
        self.differ = false;
        if self.at < self.list.len() {
            self.last = self.list[self.at];
            self.at += 1;
        }
        self.last
    }
}

/// The number after this one, if it has 128 bits.
fn next_number(id: u128) -> Option<u128>
    ensures { result ≡ next_number id }
{
    if id == u128::MAX { None } else { Some(id + 1) }
}
