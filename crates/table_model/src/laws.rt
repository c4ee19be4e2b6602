//! Laws of later worlds: facts about the definitions, with no code.

ghost use Rattle.std.specs.Prelude.{ℕ, ℤ, List, Result, Vec};
ghost use Rattle.std.specs.declared.alloc.Global.{Global};
ghost use Rattle.log_names.specs.declared.LogName.{LogName};
ghost use Rattle.commit_catalog.specs.declared.Commits.{Commits};
ghost use Rattle.commit_catalog.specs.declared.Ratify.{Ratify};
ghost use Rattle.object_store.specs.declared.store.Bytes.{Bytes};
ghost use Rattle.object_store.specs.declared.store.Gone.{Gone};
ghost use Rattle.object_store.specs.declared.store.Put.{Put};
ghost use Rattle.table_model.specs.declared.answers.Looked.{Looked};
ghost use Rattle.table_model.specs.declared.answers.Staged.{Staged};
ghost use Rattle.table_model.specs.declared.answers.StepFault.{StepFault};
ghost use Rattle.table_model.specs.World.{WorldData};
ghost use Rattle.table_model.specs.Consistency.{IsConsistent};
ghost use Rattle.table_model.specs.Knowledge.{Knowledge};
ghost use Rattle.table_model.specs.Holding.{HoldsIn, IsLater};
ghost use Rattle.table_model.specs.Conditions.{MayRatify, MayPublish, MayReport, MayClear};
ghost use Rattle.table_model.specs.Turns.{CommitsTurn, LookupTurn, ListTurn, GetTurn, StageTurn, RatifyTurn, PublishTurn, ReportTurn, ClearTurn};

/// Reading the catalogue leads to a later world.
pub fn commits_leads_later()
    ensures { (w x : WorldData) (answer : Result Commits StepFault) → IsConsistent w
        → CommitsTurn w answer x → IsLater w x }
{}

/// Looking for a version leads to a later world.
pub fn lookup_leads_later()
    ensures { (version : ℕ) (w x : WorldData) (answer : Result Looked StepFault) → IsConsistent w
        → LookupTurn version w answer x → IsLater w x }
{}

/// Listing leads to a later world.
pub fn list_leads_later()
    ensures { (w x : WorldData) (answer : Result (Vec LogName Global) StepFault) → IsConsistent w
        → ListTurn w answer x → IsLater w x }
{}

/// Reading a file leads to a later world.
pub fn get_leads_later()
    ensures { (name : LogName) (w x : WorldData) (answer : Result Bytes StepFault) → IsConsistent w
        → GetTurn name w answer x → IsLater w x }
{}

/// Staging leads to a later world.
pub fn stage_leads_later(version: u64, id: u128)
    ensures { (text : List ℕ) (w x : WorldData) (answer : Result Staged StepFault) → IsConsistent w
        → StageTurn version id text w answer x → IsLater w x }
{}

/// A ratification whose condition holds for some knowledge that holds here leads to a later world.
pub fn ratify_leads_later()
    ensures { (version id : ℕ) (time : ℤ) (w x : WorldData) (k : Knowledge) (answer : Result Ratify StepFault)
        → IsConsistent w → HoldsIn w k → MayRatify w.tells k version id time
        → RatifyTurn version id time w answer x → IsLater w x }
{}

/// Publishing whose condition holds for some knowledge that holds here leads to a later world.
pub fn publish_leads_later(version: u64)
    ensures { (text : List ℕ) (w x : WorldData) (k : Knowledge) (answer : Result Put StepFault)
        → IsConsistent w → HoldsIn w k → MayPublish w.tells k version text
        → PublishTurn version text w answer x → IsLater w x }
{}

/// A report whose condition holds for some knowledge that holds here leads to a later world.
pub fn report_leads_later()
    ensures { (count : ℕ) (w x : WorldData) (k : Knowledge) (answer : Result ℕ StepFault)
        → IsConsistent w → HoldsIn w k → MayReport k count
        → ReportTurn count w answer x → IsLater w x }
{}

/// Clearing whose condition holds for some knowledge that holds here leads to a later world.
pub fn clear_leads_later(version: u64, id: u128)
    ensures { (w x : WorldData) (k : Knowledge) (answer : Result Gone StepFault)
        → IsConsistent w → HoldsIn w k → MayClear k version
        → ClearTurn version id w answer x → IsLater w x }
{}

/// What is later than a later world is later.
pub fn later_is_transitive()
    ensures { (w x y : WorldData) → IsLater w x → IsLater x y → IsLater w y }
{}

/// What holds in a world holds in each later one.
pub fn holding_is_kept()
    ensures { (w x : WorldData) (k : Knowledge) → HoldsIn w k → IsLater w x → HoldsIn x k }
{}
