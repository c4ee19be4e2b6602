ghost use Rattle.std.specs.Prelude.{◌≡◌, ◌≤◌, length, Some, IsSome};
ghost use Rattle.log_names.specs.Texts.{name_text};
ghost use Rattle.log_names.specs.declared.LogName.{LogName};
ghost use Rattle.table_model.specs.World.{log_of, WorldData};
ghost use Rattle.table_model.specs.Consistency.{IsConsistent};
ghost use Rattle.table_model.specs.Knowledge.{Knowledge, IsGrown, IsValid, at_start};
ghost use Rattle.table_model.specs.Holding.{HoldsIn, terms_of};
ghost use Rattle.table_model.specs.Conditions.{MayRatify, MayPublish, MayReport, MayClear};
ghost use Rattle.table_model.specs.Alone.{IsAloneAfter};
ghost use Rattle.table_model.proofs.Lasting.{alone_refl, alone_trans};

use crate::turns;
use crate::world::World;
use commit_catalog::{Commits, Limits, Ratify};
use log_names::LogName;
use object_store::{Bytes, Gone, Put, Store};
use std::alloc::Global;
use std::marker::Model;
use table_model::{Looked, Notes, Staged, StepFault, Steps};

/// The one caller of a world. What it knows stands beside the world, for contracts alone.
pub struct Solo<S: Store> {
    world: World<S>,
    notes: Notes,
}

impl<S: Store> Model for Solo<S> {
    ghost use Rattle.std.specs.Prelude.{◌≡◌};
    ghost use Rattle.std.specs.Coded.{codes};
    ghost use Rattle.object_store.specs.Files.{files_code};
    ghost use Rattle.table_model.specs.Alone.{Alone};
    ghost use Rattle.table_model.specs.Noted.{known_of};
    ghost use Rattle.table_world.specs.Done.{IsKnownIn};

    ghost Value = { Alone };

    ghost coded = { Prim.hlevel (codes, files_code) };

    ghost view = { λ s. record { world = s.world; known = known_of s.world s.notes } };

    ghost invariant = { λ s. IsKnownIn s.world s.notes × (s.world.tells ≡ S.tells) };
}

impl<S: Store> Solo<S> {
    /// A caller who knows nothing yet of the world.
    pub fn new(world: World<S>) -> Solo<S>
        ensures world { result.world ≡ world }
        ensures nothing { result.known ≡ at_start (terms_of world) }
    {
        let _count = world.count();
        Solo {
            world,
            notes: Notes::new(),
        }
    }

    /// The world.
    pub fn into_world(self) -> World<S>
        ensures world { result ≡ self.world }
        ensures consistent { IsConsistent result }
    {
        let Solo { world, notes: _ } = self;
        world
    }
}

impl<S: Store> Steps for Solo<S> {
    ghost known = { λ s. s.known };

    ghost tells = { S.tells };

    ghost world = { λ s. Some s.world };

    ghost after = { IsAloneAfter };

    fn limits(&self) -> Limits {
        self.world.limits()
    }

    fn commits(&mut self, _alloc: Global) -> Result<Commits, StepFault> {
        turns::commits(&mut self.world, &mut self.notes)
    }

    fn lookup(&mut self, _alloc: Global, version: u64) -> Result<Looked, StepFault> {
        turns::lookup(&mut self.world, &mut self.notes, version)
    }

    fn list(&mut self, alloc: Global) -> Result<Vec<LogName>, StepFault> {
        turns::list(&mut self.world, &mut self.notes, alloc)
    }

    fn get(&mut self, alloc: Global, name: LogName) -> Result<Bytes, StepFault> {
        turns::get(&mut self.world, &mut self.notes, alloc, name)
    }

    fn stage(
        &mut self,
        alloc: Global,
        version: u64,
        id: u128,
        bytes: &[u8],
    ) -> Result<Staged, StepFault> {
        turns::stage(&mut self.world, &mut self.notes, alloc, version, id, bytes)
    }

    fn ratify(
        &mut self,
        _alloc: Global,
        version: u64,
        id: u128,
        time: i64,
    ) -> Result<Ratify, StepFault> {
        turns::ratify(&mut self.world, &mut self.notes, version, id, time)
    }

    fn publish(&mut self, alloc: Global, version: u64, bytes: &[u8]) -> Result<Put, StepFault> {
        turns::publish(&mut self.world, &mut self.notes, alloc, version, bytes)
    }

    fn report(&mut self, _alloc: Global, count: u64) -> Result<u64, StepFault> {
        turns::report(&mut self.world, &mut self.notes, count)
    }

    fn clear(&mut self, alloc: Global, version: u64, id: u128) -> Result<Gone, StepFault> {
        turns::clear(&mut self.world, &mut self.notes, alloc, version, id)
    }

    ghost after_same = { alone_refl };

    ghost after_both = { alone_trans };
}
