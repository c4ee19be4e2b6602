//! The features of a table's protocol.

ghost use Rattle.std.specs.Prelude.{◌≡◌, find, not, ◌||◌, codes};
ghost use Rattle.std.specs.Option.{option_copied};
ghost use Rattle.std.specs.Bool.{beq};
ghost use Rattle.table_rules.specs.Texts.{names_have, listed};
ghost use Rattle.table_rules.specs.Features.{faulty_feature, wrong_reader, wrong_writer, unknown_reader, unknown_writer, one_sided, missing, in_one_list, shared_features, writer_features, needed_features};

use crate::texts::names_have;
use action_types::{Name, Names, Protocol};

/// The first feature, or version, that breaks the first broken rule of features, if one does.
pub(crate) fn faulty_feature(protocol: &Protocol) -> Option<&str>
    ensures { option_copied result ≡ faulty_feature protocol.now }
{
    if protocol.reader != 3 {
        return Some("minReaderVersion");
    }
    if protocol.writer != 7 {
        return Some("minWriterVersion");
    }
    let readers = listed(&protocol.reader_features);
    let writers = listed(&protocol.writer_features);
    if let Some(name) = unknown_reader(readers) {
        return Some(name);
    }
    if let Some(name) = unknown_writer(writers) {
        return Some(name);
    }
    if let Some(name) = one_sided(readers, writers) {
        return Some(name);
    }
    missing(writers)
}

/// The names of an optional list, where an absent one is empty.
pub(crate) fn listed(names: &Option<Names>) -> &[Name]
    ensures { result.now ≡ listed names.now }
{
    match names {
        None => &[],
        Some(names) => names.as_slice(),
    }
}

/// Whether readers and writers may list the feature.
fn is_shared(name: &str) -> bool
    ensures { result ≡ names_have shared_features name.now }
{
    [
        "catalogManaged",
        "deletionVectors",
        "v2Checkpoint",
        "vacuumProtocolCheck",
    ]
    .contains(&name)
}

/// Whether writers alone may list the feature.
fn is_of_writers(name: &str) -> bool
    ensures { result ≡ names_have writer_features name.now }
{
    [
        "inCommitTimestamp",
        "appendOnly",
        "invariants",
        "domainMetadata",
    ]
    .contains(&name)
}

/// The first feature of readers that is not known.
fn unknown_reader(readers: &[Name]) -> Option<&str>
    ensures { option_copied result ≡ find (λ name. not (names_have shared_features name)) readers.now }
{
    for name in readers {
        if !is_shared(name.as_str()) {
            return Some(name.as_str());
        }
    }
    None
}

/// The first feature of writers that is not known.
fn unknown_writer(writers: &[Name]) -> Option<&str>
    ensures { option_copied result ≡ find (λ name. not (names_have shared_features name || names_have writer_features name)) writers.now }
{
    for name in writers {
        if !is_shared(name.as_str()) && !is_of_writers(name.as_str()) {
            return Some(name.as_str());
        }
    }
    None
}

/// Whether a feature stands in one of the lists alone.
fn in_one_list(readers: &[Name], writers: &[Name], name: &str) -> bool
    ensures { result ≡ not (beq (names_have readers.now name.now) (names_have writers.now name.now)) }
{
    names_have(readers, name) != names_have(writers, name)
}

/// The first shared feature that stands in one list and not in the other.
fn one_sided(readers: &[Name], writers: &[Name]) -> Option<&'static str>
    ensures { option_copied result ≡ find (λ name. not (beq (names_have readers.now name) (names_have writers.now name))) shared_features }
{
    if in_one_list(readers, writers, "catalogManaged") {
        Some("catalogManaged")
    } else if in_one_list(readers, writers, "deletionVectors") {
        Some("deletionVectors")
    } else if in_one_list(readers, writers, "v2Checkpoint") {
        Some("v2Checkpoint")
    } else if in_one_list(readers, writers, "vacuumProtocolCheck") {
        Some("vacuumProtocolCheck")
    } else {
        None
    }
}

/// The first needed feature that the writers' list lacks.
fn missing(writers: &[Name]) -> Option<&'static str>
    ensures { option_copied result ≡ find (λ name. not (names_have writers.now name)) needed_features }
{
    if !names_have(writers, "catalogManaged") {
        Some("catalogManaged")
    } else if !names_have(writers, "inCommitTimestamp") {
        Some("inCommitTimestamp")
    } else {
        None
    }
}
