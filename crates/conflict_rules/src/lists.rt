//! Lists of added files, of removed files and of domains, which a contract sees as lists.

ghost use Rattle.std.specs.Prelude.{◌≡◌, [], ◌∷◌, ◌++◌, OnOk, OnErr};

use action_types::{Add, Domain, Remove};
use std::alloc::{AllocError, Global};
use std::marker::Model;

/// Files to add.
#[derive(Drop)]
pub struct Adds {
    items: Vec<Add>,
}

impl Model for Adds {
    ghost use Rattle.std.specs.Prelude.{List};
    ghost use Rattle.action_types.specs.declared.actions.Add.{Add};

    ghost Value = { List Add };

    ghost view = { λ a. a.items.items };
}

impl Adds {
    /// No files.
    pub fn new(alloc: Global) -> Adds
        ensures { result ≡ [] }
    {
        Adds {
            items: Vec::new(alloc),
        }
    }

    /// Adds a file at the end. After a refusal, for want of memory alone, the list is unchanged.
    pub fn push(&mut self, file: Add) -> Result<(), AllocError>
        ensures ok { OnOk result (self.new ≡ self.old ++ file ∷ []) }
        ensures err { OnErr result (self.new ≡ self.old) }
    {
        self.items.push(file)?;
        Ok(())
    }

    /// The files in order.
    pub fn as_slice(&self) -> &[Add]
        ensures { result.now ≡ self.now }
    {
        self.items.as_slice()
    }
}

/// Files to remove.
#[derive(Drop)]
pub struct Removes {
    items: Vec<Remove>,
}

impl Model for Removes {
    ghost use Rattle.std.specs.Prelude.{List};
    ghost use Rattle.action_types.specs.declared.actions.Remove.{Remove};

    ghost Value = { List Remove };

    ghost view = { λ a. a.items.items };
}

impl Removes {
    /// No files.
    pub fn new(alloc: Global) -> Removes
        ensures { result ≡ [] }
    {
        Removes {
            items: Vec::new(alloc),
        }
    }

    /// Adds a file at the end. After a refusal, for want of memory alone, the list is unchanged.
    pub fn push(&mut self, file: Remove) -> Result<(), AllocError>
        ensures ok { OnOk result (self.new ≡ self.old ++ file ∷ []) }
        ensures err { OnErr result (self.new ≡ self.old) }
    {
        self.items.push(file)?;
        Ok(())
    }

    /// The files in order.
    pub fn as_slice(&self) -> &[Remove]
        ensures { result.now ≡ self.now }
    {
        self.items.as_slice()
    }
}

/// Metadata of domains to set or to remove.
#[derive(Drop)]
pub struct Domains {
    items: Vec<Domain>,
}

impl Model for Domains {
    ghost use Rattle.std.specs.Prelude.{List};
    ghost use Rattle.action_types.specs.declared.actions.Domain.{Domain};

    ghost Value = { List Domain };

    ghost view = { λ a. a.items.items };
}

impl Domains {
    /// No domains.
    pub fn new(alloc: Global) -> Domains
        ensures { result ≡ [] }
    {
        Domains {
            items: Vec::new(alloc),
        }
    }

    /// Adds a domain at the end. After a refusal, for want of memory alone, the list is unchanged.
    pub fn push(&mut self, domain: Domain) -> Result<(), AllocError>
        ensures ok { OnOk result (self.new ≡ self.old ++ domain ∷ []) }
        ensures err { OnErr result (self.new ≡ self.old) }
    {
        self.items.push(domain)?;
        Ok(())
    }

    /// The domains in order.
    pub fn as_slice(&self) -> &[Domain]
        ensures { result.now ≡ self.now }
    {
        self.items.as_slice()
    }
}
