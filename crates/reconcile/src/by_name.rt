ghost use Rattle.std.specs.Prelude.{◌≡◌, ◌↔◌, IsTrue, ◌<◌, Some, OnOk, OnErr, IfOk, IfSome, IfNone};
ghost use Rattle.std.specs.Option.{option_copied};
ghost use Rattle.std.specs.FinMap as fin;
ghost use Rattle.action_types.specs.Files.{unique_id};
ghost use Rattle.reconcile.specs.Named.{named};
ghost use Rattle.reconcile.specs.Laying.{Strikes, LaysOver};
ghost use Rattle.reconcile.specs.Within.{IsWithin, IsAmong};

use crate::equal::SameValue;
use action_types::{Name, Vector};
use std::alloc::{AllocError, Global};
use std::collections::BTreeMap;
use std::collections::btree_map::{Iter, Values};
use std::marker::Model;

/// A value of which an equal one can be made.
pub(crate) trait EqualCopy {
    /// An equal value; refused for want of memory alone.
    fn equal_copy(&self) -> Result<Self, AllocError>
        ensures { IfOk result (λ n. n ≡ self.now) };
}

/// Values by name, in byte order of the names. A contract sees a finite map from the names' bytes.
#[derive(Drop)]
pub(crate) struct ByName<V> {
    alloc: Global,
    entries: BTreeMap<String, V>,
}

impl<V> Model for ByName<V> {
    ghost use Rattle.std.specs.FinMap as fin;
    ghost use Rattle.std.specs.Coded.{coded_ℕ, coded_list};
    ghost use Rattle.reconcile.specs.Keys.{name_cmp};
    ghost use Rattle.reconcile.specs.Named.{by_bytes};

    ghost Value = { fin.FinMap name_cmp V };

    ghost coded = { fin.code (coded_list coded_ℕ) V.code };

    ghost view = { λ a. by_bytes a.entries };
}

impl<V: Drop> ByName<V> {
    /// No values.
    pub(crate) fn new(alloc: Global) -> ByName<V>
        ensures { result ≡ fin.empty }
    {
        ByName {
            alloc,
            entries: BTreeMap::new(alloc),
        }
    }

    /// The value of a name.
    pub(crate) fn get(&self, name: &str) -> Option<&V>
        ensures { option_copied result ≡ fin.get self.now name.now }
    {
        self.entries.get(name)
    }

    /// Gives the name this value in place of an older one. After a refusal, for want of memory alone, the
    /// map is unchanged.
    pub(crate) fn insert(&mut self, name: Name, value: V) -> Result<(), AllocError>
        ensures ok { OnOk result (self.new ≡ fin.insert self.old name value) }
        ensures err { OnErr result (self.new ≡ self.old) }
    {
        self.entries.insert(name.into_string(), value)?;
        Ok(())
    }

    /// Takes the value of a name away, if there is one.
    pub(crate) fn remove(&mut self, name: &str)
        ensures { self.new ≡ fin.remove self.old name.now }
    {
        let _ = self.entries.remove(name);
    }

    /// Takes the value of a name out, if there is one.
    pub(crate) fn take(&mut self, name: &str) -> Option<V>
        ensures value { result ≡ fin.get self.old name.now }
        ensures rest { self.new ≡ fin.remove self.old name.now }
    {
        self.entries.remove(name)
    }

    /// Whether there is no value.
    pub(crate) fn is_empty(&self) -> bool
        ensures { IsTrue result → self.now ≡ fin.empty }
    {
        self.entries.is_empty()
    }

    /// Takes the value of the first name out, if there is one.
    pub(crate) fn pop(&mut self) -> Option<(Name, V)>
        ensures some { IfSome result (λ e. fin.get self.old e.0 ≡ Some e.1) }
        ensures rest { IfSome result (λ e. self.new ≡ fin.remove self.old e.0) }
        ensures none { IfNone result (self.old ≡ fin.empty) }
        ensures shorter { IfSome result (λ _. fin.len self.new < fin.len self.old) }
    {
        let Some((name, value)) = self.entries.pop_first() else {
            return None;
        };
        Some((Name::from_string(name), value))
    }

    /// Takes the names of another map away.
    pub(crate) fn strike<W: Drop>(&mut self, names: &ByName<W>)
        ensures { Strikes self.old names.now self.new }
    {
        for (name, _) in names.entries() {
            self.remove(name.as_str());
        }
    }

    /// Moves the values of another map here, each in place of an older one. Refused for want of memory alone.
    pub(crate) fn lay(&mut self, newer: ByName<V>) -> Result<(), AllocError>
        ensures { OnOk result (LaysOver self.old newer self.new) }
    {
        let mut newer = newer;
        self.entries.append(&mut newer.entries)
    }

    /// The names with their values in byte order of the names.
    pub(crate) fn entries(&self) -> Iter<'_, String, V>
        ensures { named result ≡ fin.entries self.now }
    {
        self.entries.iter()
    }

    /// The values in byte order of their names.
    pub(crate) fn values(&self) -> Values<'_, String, V>
        ensures { result ≡ fin.values self.now }
    {
        self.entries.values()
    }
}

impl<V: EqualCopy + Drop> ByName<V> {
    /// An equal map; refused for want of memory alone.
    pub(crate) fn copy(&self) -> Result<ByName<V>, AllocError>
        ensures { IfOk result (λ n. n ≡ self.now) }
    {
        let mut copy = ByName::new(self.alloc);
        for (name, value) in self.entries.iter().rev() {
            let name = Name::from_str(self.alloc, name.as_str())?;
            copy.insert(name, value.equal_copy()?)?;
        }
        Ok(copy)
    }
}

impl<V: EqualCopy + Drop> EqualCopy for ByName<V> {
    fn equal_copy(&self) -> Result<ByName<V>, AllocError> {
        self.copy()
    }
}

/// Whether a value that was told is this one.
fn is_told<V: SameValue>(told: Option<&V>, value: &V) -> bool
    ensures { IsTrue result ↔ (option_copied told.entry ≡ Some value.now) }
{
    match told {
        Some(told) => told.is_same(value),
        None => false,
    }
}

impl<V: SameValue + Drop> ByName<V> {
    /// Whether another map has all of these values under the same names.
    pub(crate) fn is_within(&self, other: &ByName<V>) -> bool
        ensures { IsTrue result ↔ IsWithin self.now other.now }
    {
        for (name, value) in self.entries() {
            if !is_told(other.get(name.as_str()), value) {
                return false;
            }
        }
        true
    }

    /// The same, where the other map may be none at all.
    pub(crate) fn is_among(&self, other: Option<&ByName<V>>) -> bool
        ensures { IsTrue result ↔ IsAmong self.now (option_copied other.entry) }
    {
        match other {
            Some(other) => self.is_within(other),
            None => self.is_within(&ByName::new(self.alloc)),
        }
    }

    /// Whether the maps are equal.
    pub(crate) fn is_same_map(&self, other: &ByName<V>) -> bool
        ensures { IsTrue result ↔ (self.now ≡ other.now) }
    {
        self.is_within(other) && other.is_within(self)
    }
}
