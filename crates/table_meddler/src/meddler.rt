ghost use Rattle.std.specs.Prelude.{◌≡◌, IsSome, None};
ghost use Rattle.log_names.specs.Texts.{name_text};
ghost use Rattle.table_model.specs.World.{WorldData};
ghost use Rattle.table_model.specs.Consistency.{IsConsistent};
ghost use Rattle.table_model.specs.Knowledge.{IsGrown, IsValid, at_start};
ghost use Rattle.table_model.specs.Holding.{terms_of, HoldsInTold};
ghost use Rattle.table_model.specs.Turns.{TellsTurn, CommitsTurn, LookupTurn, ListTurn, GetTurn, StageTurn, RatifyTurn, PublishTurn, ReportTurn, ClearTurn};
ghost use Rattle.table_model.specs.Conditions.{MayRatify, MayPublish, MayReport, MayClear};
ghost use Rattle.table_model.specs.Learning.{LearnsCommits, LearnsLookup, LearnsList, LearnsGet, LearnsStage, LearnsRatify, LearnsPublish, LearnsReport, LearnsClear};
ghost use Rattle.table_meddler.specs.Among.{IsAmongAfter, TakesTurn};
ghost use Rattle.table_meddler.specs.Lasting.{among_refl, among_trans};

use crate::foreign::Foreign;
use crate::turns;
use commit_catalog::{Commits, Limits, Ratify};
use log_names::LogName;
use object_store::{Bytes, Gone, Put, Store};
use std::alloc::Global;
use std::marker::Model;
use table_model::{Looked, Notes, Staged, StepFault, Steps};
use table_world::World;

/// One caller of a world in which others act between its turns: theirs are those of a list, each made before the
/// caller's turn of its number and passed over where its condition does not hold. Where memory is short at one of them,
/// the caller's turn is refused for want of it. What the caller knows stands beside the world. What the others' turns
/// cost the store is counted there, and not among the caller's faults.
pub struct Meddler<S: Store> {
    world: World<S>,
    notes: Notes,
    others: Vec<Foreign>,
    turns: u64,
}

impl<S: Store> Model for Meddler<S> {
    ghost use Rattle.std.specs.Prelude.{◌≡◌};
    ghost use Rattle.std.specs.Coded.{codes};
    ghost use Rattle.object_store.specs.Files.{files_code};
    ghost use Rattle.table_model.specs.Noted.{known_of};
    ghost use Rattle.table_world.specs.Done.{IsKnownIn};
    ghost use Rattle.table_meddler.specs.Among.{Among};

    ghost Value = { Among };

    ghost coded = { Prim.hlevel (codes, files_code) };

    ghost view = { λ m. record { world = m.world; known = known_of m.world m.notes; others = m.others.items; turns = m.turns } };

    ghost invariant = { λ m. IsKnownIn m.world m.notes × (m.world.tells ≡ S.tells) };
}

impl<S: Store> Meddler<S> {
    /// A caller who knows nothing yet of the world and has made no turn, with the turns of the others in the order in
    /// which those before one turn are made.
    pub fn new(world: World<S>, turns: Vec<Foreign>) -> Meddler<S>
        ensures world { result.world ≡ world }
        ensures nothing { result.known ≡ at_start (terms_of world) }
        ensures others { result.others ≡ turns.items }
        ensures turns { result.turns ≡ 0 }
    {
        let _count = world.count();
        Meddler {
            world,
            notes: Notes::new(),
            others: turns,
            turns: 0,
        }
    }

    /// The world.
    pub fn into_world(self) -> World<S>
        ensures world { result ≡ self.world }
        ensures consistent { IsConsistent result }
    {
        let Meddler {
            world,
            notes: _,
            others: _,
            turns: _,
        } = self;
        world
    }
}

impl<S: Store> Steps for Meddler<S> {
    ghost known = { λ m. m.known };

    ghost tells = { S.tells };

    ghost world = { λ _. None };

    ghost after = { IsAmongAfter };

    fn limits(&self) -> Limits {
        self.world.limits()
    }

    fn commits(&mut self, alloc: Global) -> Result<Commits, StepFault>
        ensures among { TakesTurn CommitsTurn result self.old self.new }
        ensures turn { TellsTurn (λ w x. CommitsTurn w result x) None None }
        ensures learns { LearnsCommits S.tells self.old.known result self.new.known }
        ensures grows { IsGrown self.old.known self.new.known }
        ensures valid { IsValid self.new.known }
        ensures told { HoldsInTold None self.new.known }
        ensures after { IsAmongAfter self.old self.new }
    {
        self.turns = self.turns.saturating_add(1);
        turns::commits(
            &mut self.world,
            &mut self.notes,
            self.others.as_slice(),
            self.turns,
            alloc,
        )
    }

    fn lookup(&mut self, alloc: Global, version: u64) -> Result<Looked, StepFault>
        ensures among { TakesTurn (LookupTurn version) result self.old self.new }
        ensures turn { TellsTurn (λ w x. LookupTurn version w result x) None None }
        ensures learns { LearnsLookup S.tells version self.old.known result self.new.known }
        ensures grows { IsGrown self.old.known self.new.known }
        ensures valid { IsValid self.new.known }
        ensures told { HoldsInTold None self.new.known }
        ensures after { IsAmongAfter self.old self.new }
    {
        self.turns = self.turns.saturating_add(1);
        turns::lookup(
            &mut self.world,
            &mut self.notes,
            self.others.as_slice(),
            self.turns,
            alloc,
            version,
        )
    }

    fn list(&mut self, alloc: Global) -> Result<Vec<LogName>, StepFault>
        ensures among { TakesTurn ListTurn result self.old self.new }
        ensures turn { TellsTurn (λ w x. ListTurn w result x) None None }
        ensures learns { LearnsList S.tells self.old.known result self.new.known }
        ensures grows { IsGrown self.old.known self.new.known }
        ensures valid { IsValid self.new.known }
        ensures told { HoldsInTold None self.new.known }
        ensures after { IsAmongAfter self.old self.new }
    {
        self.turns = self.turns.saturating_add(1);
        turns::list(
            &mut self.world,
            &mut self.notes,
            self.others.as_slice(),
            self.turns,
            alloc,
        )
    }

    fn get(&mut self, alloc: Global, name: LogName) -> Result<Bytes, StepFault>
        requires { IsSome (name_text name) }
        ensures among { TakesTurn (GetTurn name) result self.old self.new }
        ensures turn { TellsTurn (λ w x. GetTurn name w result x) None None }
        ensures learns { LearnsGet S.tells name self.old.known result self.new.known }
        ensures grows { IsGrown self.old.known self.new.known }
        ensures valid { IsValid self.new.known }
        ensures told { HoldsInTold None self.new.known }
        ensures after { IsAmongAfter self.old self.new }
    {
        self.turns = self.turns.saturating_add(1);
        turns::get(
            &mut self.world,
            &mut self.notes,
            self.others.as_slice(),
            self.turns,
            alloc,
            name,
        )
    }

    fn stage(
        &mut self,
        alloc: Global,
        version: u64,
        id: u128,
        bytes: &[u8],
    ) -> Result<Staged, StepFault>
        ensures among { TakesTurn (StageTurn version id bytes.now) result self.old self.new }
        ensures turn { TellsTurn (λ w x. StageTurn version id bytes.now w result x) None None }
        ensures learns { LearnsStage version id bytes.now self.old.known result self.new.known }
        ensures grows { IsGrown self.old.known self.new.known }
        ensures valid { IsValid self.new.known }
        ensures told { HoldsInTold None self.new.known }
        ensures after { IsAmongAfter self.old self.new }
    {
        self.turns = self.turns.saturating_add(1);
        turns::stage(
            &mut self.world,
            &mut self.notes,
            self.others.as_slice(),
            self.turns,
            alloc,
            version,
            id,
            bytes,
        )
    }

    fn ratify(
        &mut self,
        alloc: Global,
        version: u64,
        id: u128,
        time: i64,
    ) -> Result<Ratify, StepFault>
        requires { MayRatify S.tells self.old.known version id time }
        ensures among { TakesTurn (RatifyTurn version id time) result self.old self.new }
        ensures turn { TellsTurn (λ w x. RatifyTurn version id time w result x) None None }
        ensures learns { LearnsRatify S.tells version id self.old.known result self.new.known }
        ensures grows { IsGrown self.old.known self.new.known }
        ensures valid { IsValid self.new.known }
        ensures told { HoldsInTold None self.new.known }
        ensures after { IsAmongAfter self.old self.new }
    {
        self.turns = self.turns.saturating_add(1);
        turns::ratify(
            &mut self.world,
            &mut self.notes,
            self.others.as_slice(),
            self.turns,
            alloc,
            version,
            id,
            time,
        )
    }

    fn publish(&mut self, alloc: Global, version: u64, bytes: &[u8]) -> Result<Put, StepFault>
        requires { MayPublish S.tells self.old.known version bytes.now }
        ensures among { TakesTurn (PublishTurn version bytes.now) result self.old self.new }
        ensures turn { TellsTurn (λ w x. PublishTurn version bytes.now w result x) None None }
        ensures learns { LearnsPublish version self.old.known result self.new.known }
        ensures grows { IsGrown self.old.known self.new.known }
        ensures valid { IsValid self.new.known }
        ensures told { HoldsInTold None self.new.known }
        ensures after { IsAmongAfter self.old self.new }
    {
        self.turns = self.turns.saturating_add(1);
        turns::publish(
            &mut self.world,
            &mut self.notes,
            self.others.as_slice(),
            self.turns,
            alloc,
            version,
            bytes,
        )
    }

    fn report(&mut self, alloc: Global, count: u64) -> Result<u64, StepFault>
        requires { MayReport self.old.known count }
        ensures among { TakesTurn (ReportTurn count) result self.old self.new }
        ensures turn { TellsTurn (λ w x. ReportTurn count w result x) None None }
        ensures learns { LearnsReport count self.old.known result self.new.known }
        ensures grows { IsGrown self.old.known self.new.known }
        ensures valid { IsValid self.new.known }
        ensures told { HoldsInTold None self.new.known }
        ensures after { IsAmongAfter self.old self.new }
    {
        self.turns = self.turns.saturating_add(1);
        turns::report(
            &mut self.world,
            &mut self.notes,
            self.others.as_slice(),
            self.turns,
            alloc,
            count,
        )
    }

    fn clear(&mut self, alloc: Global, version: u64, id: u128) -> Result<Gone, StepFault>
        requires { MayClear self.old.known version }
        ensures among { TakesTurn (ClearTurn version id) result self.old self.new }
        ensures turn { TellsTurn (λ w x. ClearTurn version id w result x) None None }
        ensures learns { LearnsClear version id self.old.known result self.new.known }
        ensures grows { IsGrown self.old.known self.new.known }
        ensures valid { IsValid self.new.known }
        ensures told { HoldsInTold None self.new.known }
        ensures after { IsAmongAfter self.old self.new }
    {
        self.turns = self.turns.saturating_add(1);
        turns::clear(
            &mut self.world,
            &mut self.notes,
            self.others.as_slice(),
            self.turns,
            alloc,
            version,
            id,
        )
    }

    ghost after_same = { among_refl };

    ghost after_both = { among_trans };
}
