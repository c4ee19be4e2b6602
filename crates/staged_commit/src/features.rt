//! The protocol that a create or a change composes.
ghost use Rattle.std.specs.Prelude.{◌≡◌, ◌++◌, ◌∷◌, [], filter, map, IfOk, OnOk, codes};
ghost use Rattle.std.specs.List.{position, position_or_len};
ghost use Rattle.table_rules.specs.Features.{shared_features};
ghost use Rattle.table_rules.specs.Texts.{names_have};
ghost use Rattle.staged_commit.specs.Composed.{asked_features, features_for, protocol_for};
ghost use Rattle.staged_commit.specs.Names.{in_order, with_name};
ghost use Rattle.staged_commit.specs.Places.{is_not_before, stands_at};

use action_types::{Name, Names, Protocol};
use std::alloc::{AllocError, Global};

/// The protocol of table features: those that every table has, and those that are asked for, or, where none are named, those of
/// checkpoints. Each stands once, in byte order; readers are told of those that readers have to know.
pub(crate) fn protocol_with(alloc: Global, asked: &Option<Names>) -> Result<Protocol, AllocError>
    ensures { IfOk result (λ p. p ≡ protocol_for asked.now) }
{
    let writer_features = features_with(alloc, asked)?;
    let reader_features = shared_of(alloc, writer_features.as_slice())?;
    Ok(Protocol {
        reader: 3,
        writer: 7,
        reader_features: Some(reader_features),
        writer_features: Some(writer_features),
    })
}

/// The features that writers are told of.
fn features_with(alloc: Global, asked: &Option<Names>) -> Result<Names, AllocError>
    ensures { IfOk result (λ n. n ≡ features_for asked.now) }
{
    let managed = Name::from_str(alloc, "catalogManaged")?;
    let timestamps = Name::from_str(alloc, "inCommitTimestamp")?;
    let asked = asked_for(alloc, asked)?;
    let mut list = in_order(alloc, asked.as_slice())?;
    put_name(&mut list, &timestamps)?;
    put_name(&mut list, &managed)?;
    copied(alloc, &list)
}

/// The features that are asked for, and those of checkpoints where none are named.
fn asked_for(alloc: Global, asked: &Option<Names>) -> Result<Names, AllocError>
    ensures { IfOk result (λ n. n ≡ asked_features asked.now) }
{
    match asked {
        None => of_checkpoints(alloc),
        Some(names) => names.copy(),
    }
}

fn of_checkpoints(alloc: Global) -> Result<Names, AllocError>
    ensures { IfOk result (λ n. n ≡ codes "v2Checkpoint" ∷ codes "vacuumProtocolCheck" ∷ []) }
{
    let mut names = Names::new(alloc);
    names.push(Name::from_str(alloc, "v2Checkpoint")?)?;
    names.push(Name::from_str(alloc, "vacuumProtocolCheck")?)?;
    Ok(names)
}

/// Those that readers and writers are told of.
fn shared_of(alloc: Global, names: &[Name]) -> Result<Names, AllocError>
    ensures { IfOk result (λ n. n ≡ filter (names_have shared_features) names.now) }
{
    let mut shared = Names::new(alloc);
    for name in names {
        if is_shared(name.as_str()) {
            shared.push(name.copy()?)?;
        }
    }
    Ok(shared)
}

fn is_shared(name: &str) -> bool
    ensures { result ≡ names_have shared_features name.now }
{
    [
        "catalogManaged",
        "deletionVectors",
        "v2Checkpoint",
        "vacuumProtocolCheck",
    ]
    .contains(&name)
}

// ---- names in byte order, each once

/// The names in byte order, each once.
fn in_order<'a>(alloc: Global, names: &'a [Name]) -> Result<Vec<&'a Name>, AllocError>
    ensures { IfOk result (λ v. map (λ n. n.now) v.items ≡ in_order names.now) }
{
    let mut list = Vec::new(alloc);
    let mut left = names.len();
    while left > 0 {
        left -= 1;
        put_name(&mut list, &names[left])?;
    }
    Ok(list)
}

/// Puts a name in its place, unless it is there.
fn put_name<'a>(list: &mut Vec<&'a Name>, name: &'a Name) -> Result<(), AllocError>
    ensures { OnOk result (map (λ n. n.now) list.new.items ≡ with_name name.now (map (λ n. n.now) list.old.items)) }
{
    let place = place_of(list.as_slice(), name);
    if stands_at(list.as_slice(), place, name) {
        return Ok(());
    }
    list.insert(place, name)?;
    Ok(())
}

/// The place of the first name that is not before this one, or the number of names.
fn place_of(list: &[&Name], name: &Name) -> usize
    ensures { result ≡ position_or_len (λ n. is_not_before name.now n.now) list.now }
{
    first_not_before(list, name).unwrap_or(list.len())
}

fn first_not_before(list: &[&Name], name: &Name) -> Option<usize>
    ensures { result ≡ position (λ n. is_not_before name.now n.now) list.now }
{
    list.iter().position(|other| is_not_before(name, other))
}

pub(crate) fn is_not_before(name: &Name, other: &Name) -> bool
    ensures { result ≡ is_not_before name.now other.now }
{
    name.cmp(other).is_le()
}

/// Whether the name stands at this place.
fn stands_at(list: &[&Name], place: usize, name: &Name) -> bool
    ensures { result ≡ stands_at name.now (map (λ n. n.now) list.now) place }
{
    match list.get(place) {
        None => false,
        Some(other) => *other == name,
    }
}

fn copied(alloc: Global, list: &[&Name]) -> Result<Names, AllocError>
    ensures { IfOk result (λ n. n ≡ map (λ o. o.now) list.now) }
{
    let mut names = Names::new(alloc);
    for name in list {
        names.push(name.copy()?)?;
    }
    Ok(names)
}
