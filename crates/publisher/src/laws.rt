ghost use Rattle.std.specs.Prelude.{◌≡◌, ◌<◌, ◌↔◌, ℕ, length, IsTrue};
ghost use Rattle.log_names.specs.declared.LogName.TheVariants as name;
ghost use Rattle.table_model.specs.World.{WorldData, stands};
ghost use Rattle.table_model.specs.Consistency.{IsConsistent};
ghost use Rattle.publisher.specs.Worlds.{IsSettled};

/// In a consistent settled world whose store tells what it holds, the published versions are exactly the ratified ones.
pub fn settled_is_published()
    ensures { (w : WorldData) → IsConsistent w → IsSettled w → IsTrue w.tells → (version : ℕ) → IsTrue (stands w (name.Published version)) ↔ (version < length w.records) }
{}
