ghost use Rattle.std.specs.Prelude.{◌≡◌, ℕ, List, [], ◌∷◌, ◌++◌, IfOk, OnOk, OnErr, length};
ghost use Rattle.std.specs.Prelude.{bytes_eq};
ghost use Rattle.std.specs.Ordering.{on, eq_of_both};
ghost use Rattle.std.specs.Cmp.{partial_equiv_from_equiv};
ghost use Rattle.std.specs.Cmp.Lexicographic.{options_equiv};
ghost use Rattle.std.proofs.lemmas.Cmp.{lists_equiv, and_equiv, on_equiv, nat_list_eq_equiv};
ghost use Rattle.std.specs.Cmp.Lexicographic.{pointwise};
ghost use Rattle.std.specs.Option.{option_eq};
ghost use Rattle.std.proofs.Common.{rules};
ghost use Rattle.std.specs.Cmp.Rules.{comparing};

use crate::text::Name;
use std::alloc::{AllocError, Global};
use std::fmt;
use std::marker::Model;

/// A list of texts, as the features of a protocol or the partition columns of a table.
#[derive(Drop)]
pub struct Names {
    items: Vec<Name>,
}

impl Model for Names {
    ghost use Rattle.std.specs.Prelude.{List, ℕ};

    ghost Value = { List (List ℕ) };

    ghost view = { λ a. a.items.items };
}

impl Names {
    /// No texts.
    pub fn new(alloc: Global) -> Names
        ensures { result ≡ [] }
    {
        Names {
            items: Vec::new(alloc),
        }
    }

    /// Adds a text at the end. After a refusal, for want of memory alone, the list is unchanged.
    pub fn push(&mut self, name: Name) -> Result<(), AllocError>
        ensures ok { OnOk result (self.new ≡ self.old ++ name ∷ []) }
        ensures err { OnErr result (self.new ≡ self.old) }
    {
        self.items.push(name)?;
        Ok(())
    }

    /// The texts in order.
    pub fn as_slice(&self) -> &[Name]
        ensures { result.now ≡ self.now }
    {
        self.items.as_slice()
    }

    /// An equal list; refused for want of memory alone.
    pub fn copy(&self) -> Result<Names, AllocError>
        ensures { IfOk result (λ n. n ≡ self.now) }
    {
        let mut items = Vec::with_capacity(*self.items.allocator(), self.items.len())?;
        for name in self.items.iter() {
            items.push(name.copy()?)?;
        }
        Ok(Names { items })
    }
}

/// Names, each with a text or with none (a JSON null): the configuration of a table, the partition values
/// of a file. A list that was read has the names in byte order, each once.
#[derive(Drop)]
pub struct Pairs {
    items: Vec<(Name, Option<Name>)>,
}

impl Model for Pairs {
    ghost use Rattle.std.specs.Prelude.{List, ℕ, Option};

    ghost Value = { List (List ℕ × Option (List ℕ)) };

    ghost view = { λ a. a.items.items };
}

impl Pairs {
    /// No pairs.
    pub fn new(alloc: Global) -> Pairs
        ensures { result ≡ [] }
    {
        Pairs {
            items: Vec::new(alloc),
        }
    }

    /// Adds a pair at the end. After a refusal, for want of memory alone, the list is unchanged.
    pub fn push(&mut self, name: Name, value: Option<Name>) -> Result<(), AllocError>
        ensures ok { OnOk result (self.new ≡ self.old ++ (name, value) ∷ []) }
        ensures err { OnErr result (self.new ≡ self.old) }
    {
        self.items.push((name, value))?;
        Ok(())
    }

    /// The pairs in order.
    pub fn as_slice(&self) -> &[(Name, Option<Name>)]
        ensures { result.now ≡ self.now }
    {
        self.items.as_slice()
    }

    /// An equal list; refused for want of memory alone.
    pub fn copy(&self) -> Result<Pairs, AllocError>
        ensures { IfOk result (λ n. n ≡ self.now) }
    {
        let mut items = Vec::with_capacity(*self.items.allocator(), self.items.len())?;
        for pair in self.items.iter() {
            items.push((pair.0.copy()?, copy_option(&pair.1)?))?;
        }
        Ok(Pairs { items })
    }
}

/// An equal text, or none; refused for want of memory alone.
pub(crate) fn copy_option(name: &Option<Name>) -> Result<Option<Name>, AllocError>
    ensures { IfOk result (λ n. n ≡ name.now) }
{
    match name {
        None => Ok(None),
        Some(name) => Ok(Some(name.copy()?)),
    }
}

impl PartialEq for Names {
    ghost eq = { pointwise bytes_eq };

    ghost laws = { Prim.search (comparing, rules) };

    fn eq(&self, other: &Names) -> bool {
        self.items == other.items
    }
}

impl Eq for Names {
    ghost laws = { Prim.search (comparing, rules) };
}

impl fmt::Debug for Names {
    fn fmt<W: fmt::Write>(&self, f: &mut fmt::Formatter<W>) -> fmt::Result {
        write!(f, "{:?}", self.items)
    }
}

impl PartialEq for Pairs {
    ghost eq = { pointwise (eq_of_both (on (λ p. p.0) bytes_eq) (on (λ p. p.1) (option_eq bytes_eq))) };

    ghost laws = { partial_equiv_from_equiv (lists_equiv (and_equiv (on_equiv (λ p. p.0) nat_list_eq_equiv) (on_equiv (λ p. p.1) (options_equiv nat_list_eq_equiv)))) };

    fn eq(&self, other: &Pairs) -> bool {
        self.items == other.items
    }
}

impl Eq for Pairs {
    ghost laws = { lists_equiv (and_equiv (on_equiv (λ p. p.0) nat_list_eq_equiv) (on_equiv (λ p. p.1) (options_equiv nat_list_eq_equiv))) };
}

impl fmt::Debug for Pairs {
    fn fmt<W: fmt::Write>(&self, f: &mut fmt::Formatter<W>) -> fmt::Result {
        write!(f, "{:?}", self.items)
    }
}
