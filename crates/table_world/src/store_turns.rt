//! The store's part of each turn.

ghost use Rattle.std.specs.Prelude.{◌≡◌, ◌≤◌, ◌↔◌, ℕ, IsTrue, IsSome, MatchResult, filter, map};
ghost use Rattle.log_names.specs.Reading.{name_of};
ghost use Rattle.table_model.specs.Turns.{is_log_name};
ghost use Rattle.log_names.specs.Texts.{name_text};
ghost use Rattle.log_names.specs.declared.LogName.TheVariants as name;
ghost use Rattle.commit_catalog.specs.Records.{CatalogData};
ghost use Rattle.table_model.specs.Turns.{ListTurn, GetTurn, StageTurn, PublishTurn, ClearTurn};
ghost use Rattle.table_world.specs.Worlds.{world_of, IsRecordedUnder};

use action_types::Name;
use commit_catalog::Catalog;
use log_names::LogName;
use object_store::{Bytes, Gone, Put, Store, StoreError};
use std::alloc::Global;
use table_model::{Spot, Staged, StepFault};

/// Whether a version is ratified under an id.
pub(crate) fn is_recorded(catalog: &Catalog, version: u64, id: u128) -> bool
    ensures { IsTrue result ↔ IsRecordedUnder catalog.now.records version id }
{
    match catalog.find(version) {
        Some(ratified) => ratified.id == id,
        None => false,
    }
}

/// Reads a file.
pub(crate) fn get_file<S: Store>(
    store: &mut S,
    alloc: Global,
    name: LogName,
) -> Result<Bytes, StepFault>
    requires { IsSome (name_text name) }
    ensures turn { (c : CatalogData) (first : ℕ) → first ≤ S.faults store.old → GetTurn name (world_of c (S.files store.old) (S.faults store.old) first S.tells) result (world_of c (S.files store.new) (S.faults store.new) first S.tells) }
    ensures count { S.faults store.old ≤ S.faults store.new }
{
    let text = name.text().unwrap();
    match store.get(alloc, text.as_str()) {
        Ok(bytes) => Ok(bytes),
        Err(StoreError::Failed) => Err(StepFault::Fault {
            spot: Spot::File(name),
        }),
        Err(StoreError::Memory) => Err(StepFault::Memory),
    }
}

/// Lists the names of the log.
pub(crate) fn list_names<S: Store>(store: &mut S, alloc: Global) -> Result<Vec<LogName>, StepFault>
    ensures turn { (c : CatalogData) (first : ℕ) → first ≤ S.faults store.old → ListTurn (world_of c (S.files store.old) (S.faults store.old) first S.tells) result (world_of c (S.files store.new) (S.faults store.new) first S.tells) }
    ensures count { S.faults store.old ≤ S.faults store.new }
{
    let texts = match store.list(alloc) {
        Ok(texts) => texts,
        Err(StoreError::Failed) => return Err(StepFault::Fault { spot: Spot::Folder }),
        Err(StoreError::Memory) => return Err(StepFault::Memory),
    };
    log_names_of(alloc, texts.as_slice())
}

/// The names of the log among the texts.
fn log_names_of(alloc: Global, texts: &[Name]) -> Result<Vec<LogName>, StepFault>
    ensures { MatchResult result (λ names. names.items ≡ filter is_log_name (map name_of texts.now)) (λ e. e ≡ StepFault.Memory) }
{
    let mut names = Vec::new(alloc);
    for text in texts {
        let name = LogName::parse(text.as_str());
        if name != LogName::Other {
            names.push(name)?;
        }
    }
    Ok(names)
}

/// Stages a file of a version that is not ratified under this id.
pub(crate) fn stage_file<S: Store>(
    store: &mut S,
    alloc: Global,
    version: u64,
    id: u128,
    bytes: &[u8],
) -> Result<Staged, StepFault>
    ensures turn { (c : CatalogData) (first : ℕ) → first ≤ S.faults store.old → ¬ (IsRecordedUnder c.records version id) → StageTurn version id bytes.now (world_of c (S.files store.old) (S.faults store.old) first S.tells) result (world_of c (S.files store.new) (S.faults store.new) first S.tells) }
    ensures count { S.faults store.old ≤ S.faults store.new }
{
    let name = LogName::Staged(version, id);
    let text = name.text().unwrap();
    match store.put_new(alloc, text.as_str(), bytes) {
        Ok(Put::Done) => Ok(Staged::Done),
        Ok(Put::There) => Ok(Staged::Taken),
        Err(StoreError::Failed) => Err(StepFault::Fault {
            spot: Spot::File(name),
        }),
        Err(StoreError::Memory) => Err(StepFault::Memory),
    }
}

/// Publishes a file.
pub(crate) fn publish_file<S: Store>(
    store: &mut S,
    alloc: Global,
    version: u64,
    bytes: &[u8],
) -> Result<Put, StepFault>
    ensures turn { (c : CatalogData) (first : ℕ) → first ≤ S.faults store.old → PublishTurn version bytes.now (world_of c (S.files store.old) (S.faults store.old) first S.tells) result (world_of c (S.files store.new) (S.faults store.new) first S.tells) }
    ensures count { S.faults store.old ≤ S.faults store.new }
{
    let name = LogName::Published(version);
    let text = name.text().unwrap();
    match store.put_new(alloc, text.as_str(), bytes) {
        Ok(answer) => Ok(answer),
        Err(StoreError::Failed) => Err(StepFault::Fault {
            spot: Spot::File(name),
        }),
        Err(StoreError::Memory) => Err(StepFault::Memory),
    }
}

/// Deletes a staged file.
pub(crate) fn clear_file<S: Store>(
    store: &mut S,
    alloc: Global,
    version: u64,
    id: u128,
) -> Result<Gone, StepFault>
    ensures turn { (c : CatalogData) (first : ℕ) → first ≤ S.faults store.old → ClearTurn version id (world_of c (S.files store.old) (S.faults store.old) first S.tells) result (world_of c (S.files store.new) (S.faults store.new) first S.tells) }
    ensures count { S.faults store.old ≤ S.faults store.new }
{
    let name = LogName::Staged(version, id);
    let text = name.text().unwrap();
    match store.delete(alloc, text.as_str()) {
        Ok(answer) => Ok(answer),
        Err(StoreError::Failed) => Err(StepFault::Fault {
            spot: Spot::File(name),
        }),
        Err(StoreError::Memory) => Err(StepFault::Memory),
    }
}
