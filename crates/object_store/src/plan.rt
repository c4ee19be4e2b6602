ghost use Rattle.std.specs.Prelude.{◌≡◌, ◌+◌, ◌^◌, ◌<◌, IsTrue, ◌↔◌, false, find, ◌==◌};
ghost use Rattle.object_store.specs.InMemory.{next_fail, one_more};
ghost use Rattle.object_store.specs.Telling.{IsLast};

/// A call of a store in memory that is to fail.
#[derive(Clone, Copy, Debug, PartialEq, Eq)]
pub struct Fail {
    /// The number of the call, counted from 1.
    pub call: u64,
    /// Whether the call is done whole before it fails.
    pub took: bool,
}

/// The calls that are to fail, the number of calls made, and how many of them failed.
#[derive(Drop)]
pub(crate) struct Plan {
    pub(crate) fails: Vec<Fail>,
    pub(crate) calls: u64,
    pub(crate) faults: u64,
}

impl Plan {
    /// Whether the count of faults stands at its last value.
    pub(crate) fn is_spent(&self) -> bool
        ensures spent { IsTrue result ↔ IsLast self.now.faults }
        ensures free { result ≡ false → self.now.faults + 1 < 2 ^ 64 }
    {
        self.faults == u64::MAX
    }

    /// The failure listed for the next call, the first one of that number. There is none once the number of calls
    /// stands at its last value.
    pub(crate) fn next_fail(&self) -> Option<Fail>
        ensures { result ≡ next_fail self.now.fails.items self.now.calls }
    {
        if self.calls == u64::MAX {
            return None;
        }
        first_fail(self.fails.as_slice(), self.calls + 1)
    }

    /// Counts a call that did not fail.
    pub(crate) fn pass(&mut self)
        ensures { self.new ≡ record self.old { calls = one_more self.old.calls } }
    {
        self.calls = self.calls.saturating_add(1);
    }

    /// Counts a call that failed.
    pub(crate) fn fail(&mut self)
        requires { self.old.faults + 1 < 2 ^ 64 }
        ensures { self.new ≡ record self.old { calls = one_more self.old.calls; faults = self.old.faults + 1 } }
    {
        self.calls = self.calls.saturating_add(1);
        self.faults += 1;
    }
}

/// The first failure listed for a call.
fn first_fail(fails: &[Fail], call: u64) -> Option<Fail>
    ensures { result ≡ find (λ f. f.call == call) fails.now }
{
    for fail in fails {
        if fail.call == call {
            return Some(*fail);
        }
    }
    None
}
