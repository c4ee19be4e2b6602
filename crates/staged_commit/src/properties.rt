//! Table properties, in byte order of their names.
ghost use Rattle.std.specs.Prelude.{◌≡◌, map, codes, Some, IfOk, OnOk};
ghost use Rattle.table_rules.specs.Broken.{timestamps_property};
ghost use Rattle.staged_commit.specs.Names.{with_pair};
ghost use Rattle.std.specs.List.{position, position_or_len};
ghost use Rattle.staged_commit.specs.Changes.{given_pairs, put_pair, put_pairs};
ghost use Rattle.staged_commit.specs.Places.{is_not_before, pair_stands_at};

use crate::features::is_not_before;
use action_types::{Name, Pairs};
use std::alloc::{AllocError, Global};

/// The old properties with each given one in its place, or in the place of the old one of its name.
pub(crate) fn with_properties(
    alloc: Global,
    given: &Option<Pairs>,
    old: &Pairs,
) -> Result<Pairs, AllocError>
    ensures { IfOk result (λ ps. ps ≡ put_pairs (given_pairs given.now) old.now) }
{
    match given {
        None => old.copy(),
        Some(given) => with_each(alloc, given.as_slice(), old.as_slice()),
    }
}

fn with_each(
    alloc: Global,
    given: &[(Name, Option<Name>)],
    old: &[(Name, Option<Name>)],
) -> Result<Pairs, AllocError>
    ensures { IfOk result (λ ps. ps ≡ put_pairs given.now old.now) }
{
    let mut list = references(alloc, old)?;
    for pair in given {
        put_pair(&mut list, pair)?;
    }
    copied(alloc, &list)
}

/// The given properties, and after the names of lesser bytes `delta.enableInCommitTimestamps` with `true`, where its name is not there.
pub(crate) fn with_timestamps(alloc: Global, given: &Pairs) -> Result<Pairs, AllocError>
    ensures { IfOk result (λ ps. ps ≡ with_pair (timestamps_property, Some (codes "true")) given.now) }
{
    let name = Name::from_str(alloc, "delta.enableInCommitTimestamps")?;
    let value = Name::from_str(alloc, "true")?;
    let pair = (name, Some(value));
    let mut list = references(alloc, given.as_slice())?;
    keep_pair(&mut list, &pair)?;
    copied(alloc, &list)
}

fn references<'a>(
    alloc: Global,
    pairs: &'a [(Name, Option<Name>)],
) -> Result<Vec<&'a (Name, Option<Name>)>, AllocError>
    ensures { IfOk result (λ v. map (λ p. p.now) v.items ≡ pairs.now) }
{
    let mut list = Vec::new(alloc);
    for pair in pairs {
        list.push(pair)?;
    }
    Ok(list)
}

/// Puts a pair in its place, or in the place of the one of its name.
fn put_pair<'a>(
    list: &mut Vec<&'a (Name, Option<Name>)>,
    pair: &'a (Name, Option<Name>),
) -> Result<(), AllocError>
    ensures { OnOk result (map (λ p. p.now) list.new.items ≡ put_pair pair.now (map (λ p. p.now) list.old.items)) }
{
    let place = place_of(list.as_slice(), &pair.0);
    if stands_at(list.as_slice(), place, &pair.0) {
        list[place] = pair;
        return Ok(());
    }
    list.insert(place, pair)?;
    Ok(())
}

/// Puts a pair in its place, unless one of its name is there.
fn keep_pair<'a>(
    list: &mut Vec<&'a (Name, Option<Name>)>,
    pair: &'a (Name, Option<Name>),
) -> Result<(), AllocError>
    ensures { OnOk result (map (λ p. p.now) list.new.items ≡ with_pair pair.now (map (λ p. p.now) list.old.items)) }
{
    let place = place_of(list.as_slice(), &pair.0);
    if stands_at(list.as_slice(), place, &pair.0) {
        return Ok(());
    }
    list.insert(place, pair)?;
    Ok(())
}

/// The place of the first pair whose name is not before this one, or the number of pairs.
fn place_of(list: &[&(Name, Option<Name>)], name: &Name) -> usize
    ensures { result ≡ position_or_len (λ p. is_not_before name.now p.now.0) list.now }
{
    first_not_before(list, name).unwrap_or(list.len())
}

fn first_not_before(list: &[&(Name, Option<Name>)], name: &Name) -> Option<usize>
    ensures { result ≡ position (λ p. is_not_before name.now p.now.0) list.now }
{
    list.iter().position(|other| is_not_before(name, &other.0))
}

/// Whether a pair of this name stands at this place.
fn stands_at(list: &[&(Name, Option<Name>)], place: usize, name: &Name) -> bool
    ensures { result ≡ pair_stands_at name.now (map (λ p. p.now) list.now) place }
{
    match list.get(place) {
        None => false,
        Some(other) => other.0 == *name,
    }
}

/// Equal pairs.
fn copied(alloc: Global, list: &[&(Name, Option<Name>)]) -> Result<Pairs, AllocError>
    ensures { IfOk result (λ ps. ps ≡ map (λ p. p.now) list.now) }
{
    let mut pairs = Pairs::new(alloc);
    for pair in list {
        pairs.push(pair.0.copy()?, copied_value(&pair.1)?)?;
    }
    Ok(pairs)
}

fn copied_value(value: &Option<Name>) -> Result<Option<Name>, AllocError>
    ensures { IfOk result (λ n. n ≡ value.now) }
{
    match value {
        None => Ok(None),
        Some(value) => Ok(Some(value.copy()?)),
    }
}
