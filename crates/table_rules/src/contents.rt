//! The rules of a next commit on what the protocol and the metadata with the commit allow.

ghost use Rattle.std.specs.Prelude.{◌≡◌, option_map};
ghost use Rattle.std.specs.List.{filter_map};
ghost use Rattle.std.specs.Option.{option_copied};
ghost use Rattle.action_types.specs.Files.{file_of_key};
ghost use Rattle.least_names.specs.Least.{least, least_file};
ghost use Rattle.table_rules.specs.Broken.{Tells, broken_contents, readers_have, writers_have, has_property, is_append_only, changing_file, append_only, columns_of, other_partition, partition, marked_file, untold_vector, domain_named, untold_domain};

use crate::Broken;
use crate::features::listed;
use crate::texts::{names_have, pairs_are_of, pairs_have};
use action_types::{Action, Key, Meta, Name, Protocol};
use least_names::{lesser, lesser_file};
use std::alloc::Global;

/// All of them, the first that is broken; protocol and metadata are those with the commit.
pub(crate) fn check_contents(
    alloc: Global,
    protocol: Option<&Protocol>,
    meta: Option<&Meta>,
    actions: &[Action],
) -> Result<(), Broken>
    ensures { Tells result
        (broken_contents (option_copied protocol.entry) (option_copied meta.entry) actions.now) }
{
    check_append_only(alloc, protocol, meta, actions)?;
    check_partitions(alloc, meta, actions)?;
    check_vectors(alloc, protocol, actions)?;
    check_domains(alloc, protocol, actions)
}

/// Whether the readers' features have a name.
fn readers_have(protocol: Option<&Protocol>, name: &str) -> bool
    ensures { result ≡ readers_have name.now (option_copied protocol.entry) }
{
    match protocol {
        None => false,
        Some(protocol) => names_have(listed(&protocol.reader_features), name),
    }
}

/// Whether the writers' features have a name.
fn writers_have(protocol: Option<&Protocol>, name: &str) -> bool
    ensures { result ≡ writers_have name.now (option_copied protocol.entry) }
{
    match protocol {
        None => false,
        Some(protocol) => names_have(listed(&protocol.writer_features), name),
    }
}

/// Whether a property is `true`.
fn has_property(meta: Option<&Meta>, name: &str) -> bool
    ensures { result ≡ has_property name.now (option_copied meta.entry) }
{
    match meta {
        None => false,
        Some(meta) => pairs_have(meta.configuration.as_slice(), name, "true"),
    }
}

/// The file of a remove that changes data.
fn changing_file(action: &Action) -> Option<Key<'_>>
    ensures { option_map file_of_key result ≡ changing_file action.now }
{
    match action {
        Action::Remove(remove) if remove.change => Some(remove.key()),
        _ => None,
    }
}

/// The least file of the removes that change data.
fn least_changing_file(actions: &[Action]) -> Option<Key<'_>>
    ensures { option_map file_of_key result ≡ least_file (filter_map changing_file actions.now) }
{
    let mut best = None;
    for action in actions {
        if let Some(file) = changing_file(action) {
            best = lesser_file(best, file);
        }
    }
    best
}

/// An append-only table loses no data.
fn check_append_only(
    alloc: Global,
    protocol: Option<&Protocol>,
    meta: Option<&Meta>,
    actions: &[Action],
) -> Result<(), Broken>
    ensures { Tells result
        (append_only (option_copied protocol.entry) (option_copied meta.entry) actions.now) }
{
    if writers_have(protocol, "appendOnly")
        && has_property(meta, "delta.appendOnly")
        && let Some(file) = least_changing_file(actions)
    {
        let path = Name::from_str(alloc, file.path)?;
        let vector = file.id(alloc)?;
        return Err(Broken::AppendOnly { path, vector });
    }
    Ok(())
}

/// The partition columns of the metadata.
fn columns_of(meta: Option<&Meta>) -> &[Name]
    ensures { result.now ≡ columns_of (option_copied meta.entry) }
{
    match meta {
        None => &[],
        Some(meta) => meta.columns.as_slice(),
    }
}

/// The file of an add whose partition values are not those of the columns.
fn other_partition<'a>(columns: &[Name], action: &'a Action) -> Option<Key<'a>>
    ensures { option_map file_of_key result ≡ other_partition columns.now action.now }
{
    match action {
        Action::Add(add) if !pairs_are_of(add.values.as_slice(), columns) => Some(add.key()),
        _ => None,
    }
}

/// The least file of the adds whose partition values are not those of the columns.
fn least_other_partition<'a>(columns: &[Name], actions: &'a [Action]) -> Option<Key<'a>>
    ensures { option_map file_of_key result
        ≡ least_file (filter_map (other_partition columns.now) actions.now) }
{
    let mut best = None;
    for action in actions {
        if let Some(file) = other_partition(columns, action) {
            best = lesser_file(best, file);
        }
    }
    best
}

/// Each add has the partition columns.
fn check_partitions(alloc: Global, meta: Option<&Meta>, actions: &[Action]) -> Result<(), Broken>
    ensures { Tells result (partition (option_copied meta.entry) actions.now) }
{
    if let Some(file) = least_other_partition(columns_of(meta), actions) {
        let path = Name::from_str(alloc, file.path)?;
        let vector = file.id(alloc)?;
        return Err(Broken::Partition { path, vector });
    }
    Ok(())
}

/// The file of an add with a deletion vector.
fn marked_file(action: &Action) -> Option<Key<'_>>
    ensures { option_map file_of_key result ≡ marked_file action.now }
{
    match action {
        Action::Add(add) if add.vector.is_some() => Some(add.key()),
        _ => None,
    }
}

/// The least file of the adds with a deletion vector.
fn least_marked_file(actions: &[Action]) -> Option<Key<'_>>
    ensures { option_map file_of_key result ≡ least_file (filter_map marked_file actions.now) }
{
    let mut best = None;
    for action in actions {
        if let Some(file) = marked_file(action) {
            best = lesser_file(best, file);
        }
    }
    best
}

/// Where an added file has a deletion vector, readers are told of the feature.
fn check_vectors(
    alloc: Global,
    protocol: Option<&Protocol>,
    actions: &[Action],
) -> Result<(), Broken>
    ensures { Tells result (untold_vector (option_copied protocol.entry) actions.now) }
{
    if !readers_have(protocol, "deletionVectors")
        && let Some(file) = least_marked_file(actions)
    {
        let path = Name::from_str(alloc, file.path)?;
        let vector = file.id(alloc)?;
        return Err(Broken::Vector { path, vector });
    }
    Ok(())
}

/// The domain of which an action has metadata.
fn domain_named(action: &Action) -> Option<&str>
    ensures { option_copied result ≡ domain_named action.now }
{
    match action {
        Action::Domain(domain) => Some(domain.domain.as_str()),
        _ => None,
    }
}

/// The least domain of which the commit has metadata.
fn least_domain(actions: &[Action]) -> Option<&str>
    ensures { option_copied result ≡ least (filter_map domain_named actions.now) }
{
    let mut best = None;
    for action in actions {
        if let Some(domain) = domain_named(action) {
            best = lesser(best, domain);
        }
    }
    best
}

/// Where the commit has metadata of a domain, writers are told of the feature.
fn check_domains(
    alloc: Global,
    protocol: Option<&Protocol>,
    actions: &[Action],
) -> Result<(), Broken>
    ensures { Tells result (untold_domain (option_copied protocol.entry) actions.now) }
{
    if !writers_have(protocol, "domainMetadata")
        && let Some(domain) = least_domain(actions)
    {
        let domain = Name::from_str(alloc, domain)?;
        return Err(Broken::Domain { domain });
    }
    Ok(())
}
