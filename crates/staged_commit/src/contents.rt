//! The domains and the files of a write, in the order in which a commit has them.
ghost use Rattle.std.specs.Prelude.{◌≡◌, ◌++◌, map, IfOk};
ghost use Rattle.action_types.specs.declared.actions.Action.TheVariants as act;
ghost use Rattle.staged_commit.specs.Sorting.{sorted};
ghost use Rattle.staged_commit.specs.Writes.{adds_cmp, contents_of, domains_cmp, removes_cmp, with_time};

use action_types::{Action, Add, Domain, Remove};
use conflict_rules::Intent;
use std::alloc::{AllocError, Global};
use std::cmp::Ordering;

/// The actions and, after them, the domains by name, the removes by file and the adds by file.
pub(crate) fn with_contents(
    alloc: Global,
    actions: Vec<Action>,
    intent: &Intent,
    time: i64,
) -> Result<Vec<Action>, AllocError>
    ensures { IfOk result (λ v. v.items ≡ actions.items ++ contents_of intent.now time) }
{
    let domains = domains_in_order(alloc, intent.domains.as_slice())?;
    let removes = removes_in_order(alloc, intent.removes.as_slice())?;
    let adds = adds_in_order(alloc, intent.adds.as_slice())?;
    let actions = with_domains(actions, &domains)?;
    let actions = with_removes(actions, &removes, time)?;
    let actions = with_adds(actions, &adds)?;
    Ok(actions)
}

// ---- one after the other

fn with_domains(actions: Vec<Action>, domains: &[&Domain]) -> Result<Vec<Action>, AllocError>
    ensures { IfOk result (λ v. v.items ≡ actions.items ++ map (λ d. act.Domain d.now) domains.now) }
{
    let mut actions = actions;
    for domain in domains {
        actions.push(Action::Domain(domain.copy()?))?;
    }
    Ok(actions)
}

fn with_removes(
    actions: Vec<Action>,
    removes: &[&Remove],
    time: i64,
) -> Result<Vec<Action>, AllocError>
    ensures { IfOk result (λ v. v.items ≡ actions.items ++ map (λ r. act.Remove (with_time time r.now)) removes.now) }
{
    let mut actions = actions;
    for remove in removes {
        actions.push(Action::Remove(dated(remove, time)?))?;
    }
    Ok(actions)
}

fn with_adds(actions: Vec<Action>, adds: &[&Add]) -> Result<Vec<Action>, AllocError>
    ensures { IfOk result (λ v. v.items ≡ actions.items ++ map (λ a. act.Add a.now) adds.now) }
{
    let mut actions = actions;
    for add in adds {
        actions.push(Action::Add(add.copy()?))?;
    }
    Ok(actions)
}

/// An equal remove, of this time where it has none.
fn dated(remove: &Remove, time: i64) -> Result<Remove, AllocError>
    ensures { IfOk result (λ r. r ≡ with_time time remove.now) }
{
    let mut remove = remove.copy()?;
    if remove.deleted.is_some() {
        return Ok(remove);
    }
    remove.deleted = Some(time);
    Ok(remove)
}

// ---- the orders

fn domains_in_order<'a>(alloc: Global, domains: &'a [Domain]) -> Result<Vec<&'a Domain>, AllocError>
    ensures { IfOk result (λ v. map (λ d. d.now) v.items ≡ sorted domains_cmp domains.now) }
{
    let mut list = references(alloc, domains)?;
    list.sort_by(|domain, other| compare_domains(domain, other))?;
    Ok(list)
}

fn removes_in_order<'a>(alloc: Global, removes: &'a [Remove]) -> Result<Vec<&'a Remove>, AllocError>
    ensures { IfOk result (λ v. map (λ r. r.now) v.items ≡ sorted removes_cmp removes.now) }
{
    let mut list = references(alloc, removes)?;
    list.sort_by(|remove, other| compare_removes(remove, other))?;
    Ok(list)
}

fn adds_in_order<'a>(alloc: Global, adds: &'a [Add]) -> Result<Vec<&'a Add>, AllocError>
    ensures { IfOk result (λ v. map (λ a. a.now) v.items ≡ sorted adds_cmp adds.now) }
{
    let mut list = references(alloc, adds)?;
    list.sort_by(|add, other| compare_adds(add, other))?;
    Ok(list)
}

/// A reference to each.
fn references<'a, T>(alloc: Global, items: &'a [T]) -> Result<Vec<&'a T>, AllocError>
    ensures { IfOk result (λ v. map (λ r. r.now) v.items ≡ items.now) }
{
    let mut list = Vec::new(alloc);
    for item in items {
        list.push(item)?;
    }
    Ok(list)
}

fn compare_domains(domain: &Domain, other: &Domain) -> Ordering
    ensures { result ≡ domains_cmp domain.now other.now }
{
    domain.domain.cmp(&other.domain)
}

fn compare_removes(remove: &Remove, other: &Remove) -> Ordering
    ensures { result ≡ removes_cmp remove.now other.now }
{
    remove.key().compare(other.key())
}

fn compare_adds(add: &Add, other: &Add) -> Ordering
    ensures { result ≡ adds_cmp add.now other.now }
{
    add.key().compare(other.key())
}
