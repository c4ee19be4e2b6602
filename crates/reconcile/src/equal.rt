ghost use Rattle.std.specs.Prelude.{◌≡◌, ◌↔◌, IsTrue};

use action_types::{Add, Domain, Meta, Protocol, Remove, Txn};

/// A value that can be told from others.
pub(crate) trait SameValue {
    /// Whether the values are equal.
    fn is_same(&self, other: &Self) -> bool
        ensures { IsTrue result ↔ (self.now ≡ other.now) };
}

impl SameValue for Add {
    fn is_same(&self, other: &Add) -> bool {
        self == other
    }
}

impl SameValue for Remove {
    fn is_same(&self, other: &Remove) -> bool {
        self == other
    }
}

impl SameValue for Domain {
    fn is_same(&self, other: &Domain) -> bool {
        self == other
    }
}

impl SameValue for Txn {
    fn is_same(&self, other: &Txn) -> bool {
        self == other
    }
}

/// Whether two protocols, where there are some, are equal.
pub(crate) fn is_same_protocol(one: &Option<Protocol>, other: &Option<Protocol>) -> bool
    ensures { IsTrue result ↔ (one.now ≡ other.now) }
{
    one == other
}

/// Whether two metadata, where there are some, are equal.
pub(crate) fn is_same_meta(one: &Option<Meta>, other: &Option<Meta>) -> bool
    ensures { IsTrue result ↔ (one.now ≡ other.now) }
{
    one == other
}
