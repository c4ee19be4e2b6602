ghost use Rattle.std.specs.Iterator.{YieldsFirstRef, item_count};

use crate::merge::FilesLeft;
use action_types::{Add, Domain, Remove, Txn};
use std::collections::btree_map::Values;
use std::marker::Model;

/// The live files of a state in their order. A contract sees the list of those that are left.
#[derive(Drop)]
pub struct FileWalk<'a> {
    pub(crate) rest: FilesLeft<'a, Add>,
}

/// The tombstones of a state in the order of their files. A contract sees the list of those that are left.
#[derive(Drop)]
pub struct GoneWalk<'a> {
    pub(crate) rest: FilesLeft<'a, Remove>,
}

/// The domains of a state in byte order of their names. A contract sees the list of those that are left.
#[derive(Drop)]
pub struct DomainWalk<'a> {
    pub(crate) rest: Values<'a, String, Domain>,
}

/// The latest txns of a state in byte order of their applications. A contract sees the list of those that
/// are left.
#[derive(Drop)]
pub struct TxnWalk<'a> {
    pub(crate) rest: Values<'a, String, Txn>,
}

impl<'a> Model for FileWalk<'a> {
    ghost use Rattle.std.specs.Prelude.{List};
    ghost use Rattle.action_types.specs.declared.actions.Add.{Add};
    ghost use Rattle.reconcile.specs.Walking.{left};

    ghost Value = { List Add };

    ghost view = { λ a. left a.rest };
}

impl<'a> Model for GoneWalk<'a> {
    ghost use Rattle.std.specs.Prelude.{List};
    ghost use Rattle.action_types.specs.declared.actions.Remove.{Remove};
    ghost use Rattle.reconcile.specs.Walking.{left};

    ghost Value = { List Remove };

    ghost view = { λ a. left a.rest };
}

impl<'a> Model for DomainWalk<'a> {
    ghost use Rattle.std.specs.Prelude.{List};
    ghost use Rattle.action_types.specs.declared.actions.Domain.{Domain};

    ghost Value = { List Domain };

    ghost view = { λ a. a.rest };
}

impl<'a> Model for TxnWalk<'a> {
    ghost use Rattle.std.specs.Prelude.{List};
    ghost use Rattle.action_types.specs.declared.actions.Txn.{Txn};

    ghost Value = { List Txn };

    ghost view = { λ a. a.rest };
}

impl<'a> Iterator for FileWalk<'a> {
    type Item = &'a Add;

    ghost next_gives = { YieldsFirstRef (λ s. s) };

    ghost remaining = { item_count (λ s. s) };

    fn next(&mut self) -> Option<&'a Add> {
        self.rest.next()
    }
}

impl<'a> Iterator for GoneWalk<'a> {
    type Item = &'a Remove;

    ghost next_gives = { YieldsFirstRef (λ s. s) };

    ghost remaining = { item_count (λ s. s) };

    fn next(&mut self) -> Option<&'a Remove> {
        self.rest.next()
    }
}

impl<'a> Iterator for DomainWalk<'a> {
    type Item = &'a Domain;

    ghost next_gives = { YieldsFirstRef (λ s. s) };

    ghost remaining = { item_count (λ s. s) };

    fn next(&mut self) -> Option<&'a Domain> {
        self.rest.next()
    }
}

impl<'a> Iterator for TxnWalk<'a> {
    type Item = &'a Txn;

    ghost next_gives = { YieldsFirstRef (λ s. s) };

    ghost remaining = { item_count (λ s. s) };

    fn next(&mut self) -> Option<&'a Txn> {
        self.rest.next()
    }
}
