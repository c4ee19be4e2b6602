ghost use Rattle.std.specs.Prelude.{◌≡◌};
ghost use Rattle.std.specs.Option.{option_copied};
ghost use Rattle.std.specs.FinMap as fin;
ghost use Rattle.reconcile.specs.Left.{first_name, first_value, rest_of};

use crate::by_name::ByName;
use std::collections::btree_map::Iter;
use std::marker::Model;

/// The values of a map by name that are left, with a look at the name of the next. A contract sees the list
/// of the names with their values.
#[derive(Drop)]
pub(crate) struct Ahead<'a, V> {
    first: Option<(&'a String, &'a V)>,
    rest: Iter<'a, String, V>,
}

impl<'a, V> Model for Ahead<'a, V> {
    ghost use Rattle.std.specs.Prelude.{List, ℕ};
    ghost use Rattle.std.specs.Coded.{coded_ℕ, coded_list, coded×};
    ghost use Rattle.reconcile.specs.Left.{ahead};

    ghost Value = { List (List ℕ × V) };

    ghost coded = { coded_list (coded× (coded_list coded_ℕ) V.code) };

    ghost view = { λ a. ahead a.first a.rest };
}

impl<'a, V: Drop> Ahead<'a, V> {
    /// All values of a map.
    pub(crate) fn new(map: &'a ByName<V>) -> Ahead<'a, V>
        ensures { result ≡ fin.entries map.now }
    {
        let mut rest = map.entries();
        let first = rest.next();
        Ahead { first, rest }
    }

    /// The name of the next value.
    pub(crate) fn name(&self) -> Option<&'a str>
        ensures { option_copied result ≡ first_name self.now }
    {
        match self.first {
            Some((name, _)) => Some(name.as_str()),
            None => None,
        }
    }

    /// The next value, which is no longer left.
    pub(crate) fn take(&mut self) -> Option<&'a V>
        ensures value { option_copied result ≡ first_value self.old }
        ensures rest { self.new ≡ rest_of self.old }
    {
        match self.first {
            Some((_, value)) => {
                self.first = self.rest.next();
                Some(value)
            }
            None => None,
        }
    }
}
