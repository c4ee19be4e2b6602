ghost use Rattle.std.specs.Prelude.{◌≡◌, ◌≤◌, ◌+◌, length, take, IfOk, IfErr, IsSome};
ghost use Rattle.table_model.specs.World.{log_of};
ghost use Rattle.table_model.specs.Noting.{is_seen_name};
ghost use Rattle.table_world.specs.Worlds.{first_log_name};
ghost use Rattle.table_world.specs.Starting.{IsFresh, StartFails};
ghost use Rattle.log_names.specs.Texts.{name_text};
ghost use Rattle.commit_catalog.specs.Records.{AreLimits};
ghost use Rattle.table_model.specs.Consistency.{IsConsistent};
ghost use Rattle.table_model.specs.Knowledge.{Knowledge};
ghost use Rattle.table_model.specs.Holding.{HoldsIn};
ghost use Rattle.table_model.specs.Conditions.{MayRatify, MayPublish, MayReport, MayClear};
ghost use Rattle.table_model.specs.Turns.{CommitsTurn, LookupTurn, ListTurn, GetTurn, StageTurn, RatifyTurn, PublishTurn, ReportTurn, ClearTurn};

use crate::store_turns;
use action_types::Name;
use commit_catalog::{Catalog, Commits, Limits, Ratify};
use log_names::{LogName, NameText};
use object_store::{Bytes, Gone, Put, Store, StoreError};
use std::alloc::Global;
use std::marker::Model;
use std::snapshot::Snapshot;
use table_model::{Looked, Staged, StepFault};

/// A table: its commit catalogue and the store of its log. Each call that reads or changes it is one turn, and leaves
/// it consistent. For contracts alone it keeps the store as it was handed in, which takes no byte.
pub struct World<S: Store> {
    catalog: Catalog,
    store: S,
    first: Snapshot<S>,
}

impl<S: Store> Model for World<S> {
    ghost use Rattle.std.specs.Prelude.{◌≤◌};
    ghost use Rattle.std.specs.Coded.{codes};
    ghost use Rattle.object_store.specs.Files.{files_code};
    ghost use Rattle.table_model.specs.World.{WorldData};
    ghost use Rattle.table_model.specs.Consistency.{IsConsistent};
    ghost use Rattle.table_world.specs.Worlds.{world_of};

    ghost Value = { WorldData };

    ghost coded = { Prim.hlevel (codes, files_code) };

    ghost view = { λ w. world_of w.catalog (S.files w.store) (S.faults w.store) (S.faults w.first.value) S.tells };

    ghost invariant = { λ w. IsConsistent (world_of w.catalog (S.files w.store) (S.faults w.store) (S.faults w.first.value) S.tells) × (S.faults w.first.value ≤ S.faults w.store) };
}

/// Why no world was started. The store is handed back.
#[derive(Drop)]
pub enum Start<S: Store> {
    /// The folder has a name of the log; the least in byte order is named.
    NotEmpty { store: S, name: NameText },
    /// The store failed: its count of faults rose by one.
    Fault { store: S },
    /// Want of memory.
    Memory { store: S },
}

impl<S: Store> World<S> {
    /// A table without commits over a folder without names of the log. Each limit is at least 1.
    pub fn start(alloc: Global, store: S, limits: Limits) -> Result<World<S>, Start<S>>
        requires { AreLimits limits }
        ensures ok { IfOk result (λ w. IsFresh limits (S.files store) (S.faults store) S.tells w) }
        ensures err { IfErr result (StartFails S.files S.faults S.tells store) }
    {
        let first = Snapshot::of(&store);
        let mut store = store;
        let texts = match store.list(alloc) {
            Ok(texts) => texts,
            Err(StoreError::Failed) => return Err(Start::Fault { store }),
            Err(StoreError::Memory) => return Err(Start::Memory { store }),
        };
        if let Some(name) = least_log_name(texts.as_slice()) {
            return Err(Start::NotEmpty { store, name });
        }
        let catalog = Catalog::new(alloc, limits);
        Ok(World {
            catalog,
            store,
            first,
        })
    }

    /// The catalogue and the store.
    pub fn close(self) -> (Catalog, S)
        ensures records { result.0.records ≡ self.records }
        ensures reported { result.0.reported ≡ self.reported }
        ensures limits { result.0.limits ≡ self.limits }
        ensures files { S.files result.1 ≡ self.files }
        ensures faults { S.faults result.1 ≡ self.first + self.tally }
    {
        let World {
            catalog,
            store,
            first: _,
        } = self;
        (catalog, store)
    }

    /// The limits of the table, each at least 1.
    pub fn limits(&self) -> Limits
        ensures value { result ≡ self.now.limits }
        ensures tells { self.now.tells ≡ S.tells }
        ensures consistent { IsConsistent self.now }
    {
        self.catalog.limits()
    }

    /// The number of commits.
    pub fn count(&self) -> u64
        ensures value { result ≡ length self.now.records }
        ensures tells { self.now.tells ≡ S.tells }
        ensures consistent { IsConsistent self.now }
    {
        self.catalog.count()
    }

    /// Whether a staged name is that of one of the first `seen` commits.
    pub(crate) fn is_seen(&self, seen: u64, name: LogName) -> bool
        requires { seen ≤ length self.now.records }
        ensures { result ≡ is_seen_name name (take seen (log_of self.now)) }
    {
        match name {
            LogName::Staged(version, id) => version < seen
                && store_turns::is_recorded(&self.catalog, version, id),
            LogName::Published(_)
            | LogName::Checkpoint(_, _)
            | LogName::Parquet(_)
            | LogName::Other => false,
        }
    }

    /// The number of commits, the reported number, and the ratified versions from there up.
    pub fn commits(&mut self) -> Result<Commits, StepFault>
        ensures turn { CommitsTurn self.old result self.new }
        ensures consistent { IsConsistent self.new }
    {
        Ok(self.catalog.commits()?)
    }

    /// The ratified commit of a version, if there is one, and the number of commits.
    pub fn lookup(&mut self, version: u64) -> Result<Looked, StepFault>
        ensures turn { LookupTurn version self.old result self.new }
        ensures consistent { IsConsistent self.new }
    {
        Ok(Looked {
            found: self.catalog.find(version),
            count: self.catalog.count(),
        })
    }

    /// The names of the log in the folder, in byte order.
    pub fn list(&mut self, alloc: Global) -> Result<Vec<LogName>, StepFault>
        ensures turn { ListTurn self.old result self.new }
        ensures consistent { IsConsistent self.new }
    {
        store_turns::list_names(&mut self.store, alloc)
    }

    /// The file of a name that has a text; `Absent` exactly where it does not stand.
    pub fn get(&mut self, alloc: Global, name: LogName) -> Result<Bytes, StepFault>
        requires { IsSome (name_text name) }
        ensures turn { GetTurn name self.old result self.new }
        ensures consistent { IsConsistent self.new }
    {
        store_turns::get_file(&mut self.store, alloc, name)
    }

    /// Stages a commit of a version under an id. `Taken` exactly where the name stands, or where the version is
    /// ratified under this id.
    pub fn stage(
        &mut self,
        alloc: Global,
        version: u64,
        id: u128,
        bytes: &[u8],
    ) -> Result<Staged, StepFault>
        ensures turn { StageTurn version id bytes.now self.old result self.new }
        ensures consistent { IsConsistent self.new }
    {
        if store_turns::is_recorded(&self.catalog, version, id) {
            return Ok(Staged::Taken);
        }
        store_turns::stage_file(&mut self.store, alloc, version, id, bytes)
    }

    /// Ratifies a staged commit as a version, or says why it can't. Room is made before anything is answered.
    pub fn ratify(&mut self, version: u64, id: u128, time: i64) -> Result<Ratify, StepFault>
        requires { (k : Knowledge) × HoldsIn self.old k × MayRatify self.old.tells k version id time }
        ensures turn { RatifyTurn version id time self.old result self.new }
        ensures consistent { IsConsistent self.new }
    {
        self.catalog.reserve()?;
        Ok(self.catalog.ratify(version, id, time))
    }

    /// Publishes the bytes of a ratified version, of which all below are published.
    pub fn publish(&mut self, alloc: Global, version: u64, bytes: &[u8]) -> Result<Put, StepFault>
        requires { (k : Knowledge) × HoldsIn self.old k × MayPublish self.old.tells k version bytes.now }
        ensures turn { PublishTurn version bytes.now self.old result self.new }
        ensures consistent { IsConsistent self.new }
    {
        store_turns::publish_file(&mut self.store, alloc, version, bytes)
    }

    /// Takes note that the versions below `count` are published; the answer is the reported number.
    pub fn report(&mut self, count: u64) -> Result<u64, StepFault>
        requires { (k : Knowledge) × HoldsIn self.old k × MayReport k count }
        ensures turn { ReportTurn count self.old result self.new }
        ensures consistent { IsConsistent self.new }
    {
        Ok(self.catalog.report(count))
    }

    /// Clears the staged file of a reported version; `Absent` exactly where it does not stand.
    pub fn clear(&mut self, alloc: Global, version: u64, id: u128) -> Result<Gone, StepFault>
        requires { (k : Knowledge) × HoldsIn self.old k × MayClear k version }
        ensures turn { ClearTurn version id self.old result self.new }
        ensures consistent { IsConsistent self.new }
    {
        store_turns::clear_file(&mut self.store, alloc, version, id)
    }
}

/// The first of the texts that is a name of the log.
fn least_log_name(texts: &[Name]) -> Option<NameText>
    ensures { result ≡ first_log_name texts.now }
{
    for text in texts {
        match LogName::parse(text.as_str()) {
            LogName::Other => continue,
            _ => return Some(NameText::new(text.as_str())),
        }
    }
    None
}
