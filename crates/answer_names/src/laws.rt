//! What answers say together.
ghost use Rattle.std.specs.Prelude.{◌≡◌, ◌≤◌, ◌+◌, ◌++◌, ℕ, Bool, All, Contains, List, Some, length};
ghost use Rattle.log_names.specs.declared.LogName.TheVariants as name;
ghost use Rattle.table_model.specs.Knowledge.{Knowledge, Terms};
ghost use Rattle.answer_names.specs.Names.{Answer, Names, names_of};
ghost use Rattle.answer_names.specs.Gaining.{HasOneVersion};
ghost use Rattle.answer_names.specs.Chain.{Chain};
ghost use Rattle.answer_names.specs.Together.{AreWithin, FrontsRise, Together, takens_in, versions_in};
ghost use Rattle.answer_names.specs.Whole.{IsWhole};
ghost use Rattle.answer_names.specs.Others.{IsUncontested, IsUntaken};

/// Answers that each give what they owe to their moment are right together.
pub fn answers_in_a_chain_are_right_together()
    ensures { (tells : Bool) (k m : Knowledge) (xs : List Answer) → Chain tells k xs m
        → Together tells k (names_of xs) m }
{}

/// Their fronts rise within every log that is no shorter than what was seen.
pub fn answers_stand_over_a_longer_log()
    ensures { (tells : Bool) (k m : Knowledge) (answers : List Names) (commits : ℕ)
        → length m.seen ≤ commits → Together tells k answers m → AreWithin answers commits }
{}

/// Where all but at most one are written whole, the version that the other names is above all that
/// was written.
pub fn one_answer_at_most_is_not_written()
    ensures { (low : ℕ) (said unsaid : List Names) → FrontsRise low (said ++ unsaid)
        → All HasOneVersion unsaid → length unsaid ≤ 1 → IsWhole (said ++ unsaid) said unsaid }
{}

/// Where no try was lost and each new version is the caller's own, no answer tells of others.
pub fn answers_where_nobody_else_ratifies_are_uncontested()
    ensures { (tells : Bool) (k m : Knowledge) (t : Terms) (xs : List Answer) → Chain tells k xs m
        → k.terms ≡ Some t → 1 ≤ t.limits.attempts → m.tries ≡ k.tries
        → length m.seen ≡ length k.seen + length (versions_in (names_of xs))
        → All IsUncontested (names_of xs) }
{}

/// Where each name that was found taken is among those that the caller may have put, and no name that
/// an answer tells as taken is, none tells one.
pub fn answers_where_nobody_else_stages_are_untaken()
    ensures { (tells : Bool) (k m : Knowledge) (xs : List Answer) → Chain tells k xs m
        → ((version id : ℕ) → Contains m.takens (name.Staged version id)
        → Contains m.put (name.Staged version id))
        → ((version id : ℕ) → Contains (takens_in (names_of xs)) (name.Staged version id)
        → ¬ (Contains m.put (name.Staged version id)))
        → All IsUntaken (names_of xs) }
{}
