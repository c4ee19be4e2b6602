ghost use Rattle.std.specs.Prelude.{◌≡◌, ◌<◌, ℕ, List, length, Bool, IsTrue, Option, Some, IsSome};
ghost use Rattle.log_names.specs.Texts.{name_text};
ghost use Rattle.commit_catalog.specs.Records.{AreLimits};
ghost use Rattle.table_model.specs.World.{WorldData};
ghost use Rattle.table_model.specs.Turns.{TellsTurn, CommitsTurn, LookupTurn, ListTurn, GetTurn, StageTurn, RatifyTurn, PublishTurn, ReportTurn, ClearTurn};
ghost use Rattle.table_model.specs.Knowledge.{Knowledge, IsGrown, IsValid};
ghost use Rattle.table_model.specs.Holding.{HoldsInTold};
ghost use Rattle.table_model.specs.Conditions.{MayRatify, MayPublish, MayReport, MayClear};
ghost use Rattle.table_model.specs.Learning.{LearnsCommits, LearnsLookup, LearnsList, LearnsGet, LearnsStage, LearnsRatify, LearnsPublish, LearnsReport, LearnsClear};

use crate::answers::{Looked, Staged, StepFault};
use commit_catalog::{Commits, Limits, Ratify};
use log_names::LogName;
use object_store::{Bytes, Gone, Put};
use std::alloc::Global;

/// One caller's access to the table. Each call but `limits` is one turn: it is done on the catalogue and the store
/// together while nobody else acts on them, and others may act between two turns.
///
/// A turn is refused by a fault of the store, which names its spot and raises this caller's count of faults, or for
/// want of memory, after which nothing changed.
pub trait Steps {
    /// What the caller knows.
    ghost known: { Self → Knowledge };

    /// Whether the table's store tells what it holds.
    ghost tells: { Bool };

    /// The world behind the caller, where it is told.
    ghost world: { Self → Option WorldData };

    /// What an implementation wants known between an older and a newer value of the caller, whatever was done.
    ghost after: { Self → Self → Type 0 };

    /// The limits of the table, each at least 1, the same after every call. It takes no turn.
    fn limits(&self) -> Limits
        ensures bounds { AreLimits result }
        ensures terms { (known self.now).terms ≡ Some (record { limits = result; tells = tells }) }
        ensures valid { IsValid (known self.now) }
        ensures told { HoldsInTold (world self.now) (known self.now) };

    /// The number of ratified versions, the reported number, and the ratified versions from there up.
    fn commits(&mut self, alloc: Global) -> Result<Commits, StepFault>
        ensures turn { TellsTurn (λ w x. CommitsTurn w result x) (world self.old) (world self.new) }
        ensures learns { LearnsCommits tells (known self.old) result (known self.new) }
        ensures grows { IsGrown (known self.old) (known self.new) }
        ensures valid { IsValid (known self.new) }
        ensures told { HoldsInTold (world self.new) (known self.new) }
        ensures after { after self.old self.new };

    /// The ratified commit of a version, if there is one, and the number of ratified versions.
    fn lookup(&mut self, alloc: Global, version: u64) -> Result<Looked, StepFault>
        ensures turn { TellsTurn (λ w x. LookupTurn version w result x) (world self.old) (world self.new) }
        ensures learns { LearnsLookup tells version (known self.old) result (known self.new) }
        ensures grows { IsGrown (known self.old) (known self.new) }
        ensures valid { IsValid (known self.new) }
        ensures told { HoldsInTold (world self.new) (known self.new) }
        ensures after { after self.old self.new };

    /// The names of the log in its folder, in byte order; other files are left out.
    fn list(&mut self, alloc: Global) -> Result<Vec<LogName>, StepFault>
        ensures turn { TellsTurn (λ w x. ListTurn w result x) (world self.old) (world self.new) }
        ensures learns { LearnsList tells (known self.old) result (known self.new) }
        ensures grows { IsGrown (known self.old) (known self.new) }
        ensures valid { IsValid (known self.new) }
        ensures told { HoldsInTold (world self.new) (known self.new) }
        ensures after { after self.old self.new };

    /// The file of a name that has a text.
    fn get(&mut self, alloc: Global, name: LogName) -> Result<Bytes, StepFault>
        requires { IsSome (name_text name) }
        ensures turn { TellsTurn (λ w x. GetTurn name w result x) (world self.old) (world self.new) }
        ensures learns { LearnsGet tells name (known self.old) result (known self.new) }
        ensures grows { IsGrown (known self.old) (known self.new) }
        ensures valid { IsValid (known self.new) }
        ensures told { HoldsInTold (world self.new) (known self.new) }
        ensures after { after self.old self.new };

    /// Stages a commit for a version under an id (Delta protocol, "Catalog-managed Tables", staged commits).
    fn stage(
        &mut self,
        alloc: Global,
        version: u64,
        id: u128,
        bytes: &[u8],
    ) -> Result<Staged, StepFault>
        ensures turn { TellsTurn (λ w x. StageTurn version id bytes.now w result x) (world self.old) (world self.new) }
        ensures learns { LearnsStage version id bytes.now (known self.old) result (known self.new) }
        ensures grows { IsGrown (known self.old) (known self.new) }
        ensures valid { IsValid (known self.new) }
        ensures told { HoldsInTold (world self.new) (known self.new) }
        ensures after { after self.old self.new };

    /// Asks the catalogue to ratify a staged commit as a version. The caller knows the staged bytes and the versions
    /// below, and that the bytes are the next commit of these, with this time.
    fn ratify(
        &mut self,
        alloc: Global,
        version: u64,
        id: u128,
        time: i64,
    ) -> Result<Ratify, StepFault>
        requires { MayRatify tells (known self.old) version id time }
        ensures turn { TellsTurn (λ w x. RatifyTurn version id time w result x) (world self.old) (world self.new) }
        ensures learns { LearnsRatify tells version id (known self.old) result (known self.new) }
        ensures grows { IsGrown (known self.old) (known self.new) }
        ensures valid { IsValid (known self.new) }
        ensures told { HoldsInTold (world self.new) (known self.new) }
        ensures after { after self.old self.new };

    /// Publishes a ratified version: puts its bytes under its published name (Delta protocol, "Catalog-managed
    /// Tables", published commits). The caller knows that all versions below are published.
    fn publish(&mut self, alloc: Global, version: u64, bytes: &[u8]) -> Result<Put, StepFault>
        requires { MayPublish tells (known self.old) version bytes.now }
        ensures turn { TellsTurn (λ w x. PublishTurn version bytes.now w result x) (world self.old) (world self.new) }
        ensures learns { LearnsPublish version (known self.old) result (known self.new) }
        ensures grows { IsGrown (known self.old) (known self.new) }
        ensures valid { IsValid (known self.new) }
        ensures told { HoldsInTold (world self.new) (known self.new) }
        ensures after { after self.old self.new };

    /// Reports to the catalogue that the versions below `count` are published; the answer is the reported number.
    fn report(&mut self, alloc: Global, count: u64) -> Result<u64, StepFault>
        requires { MayReport (known self.old) count }
        ensures turn { TellsTurn (λ w x. ReportTurn count w result x) (world self.old) (world self.new) }
        ensures learns { LearnsReport count (known self.old) result (known self.new) }
        ensures grows { IsGrown (known self.old) (known self.new) }
        ensures valid { IsValid (known self.new) }
        ensures told { HoldsInTold (world self.new) (known self.new) }
        ensures after { after self.old self.new };

    /// Clears the staged file of a version, which the caller knows to be reported.
    fn clear(&mut self, alloc: Global, version: u64, id: u128) -> Result<Gone, StepFault>
        requires { MayClear (known self.old) version }
        ensures turn { TellsTurn (λ w x. ClearTurn version id w result x) (world self.old) (world self.new) }
        ensures learns { LearnsClear version id (known self.old) result (known self.new) }
        ensures grows { IsGrown (known self.old) (known self.new) }
        ensures valid { IsValid (known self.new) }
        ensures told { HoldsInTold (world self.new) (known self.new) }
        ensures after { after self.old self.new };

    ghost after_same: { (a : Self) → after a a };

    ghost after_both: { (a b c : Self) → after a b → after b c → after a c };
}
