//! Laws on what is composed: functions with empty bodies.
ghost use Rattle.std.specs.Prelude.{◌≡◌, ℕ, ℤ, List, ◌++◌, ◌∷◌, codes, length, Option, None, Some, true};
ghost use Rattle.action_json.specs.Commit.{canonical_text};
ghost use Rattle.action_types.specs.declared.actions.Meta.{Meta};
ghost use Rattle.commit_timestamps.specs.Times.{next_time};
ghost use Rattle.reconcile.specs.Replay.{meta_of_log, time_of_log};
ghost use Rattle.table_rules.specs.Broken.{first_broken, late_for, number_at};
ghost use Rattle.staged_commit.specs.WriteAnswers.{KeepsRulesAfter};
ghost use Rattle.staged_commit.specs.Writes.{HasContentsInOrder, IsWriteRequest, composed_write};
ghost use Rattle.staged_commit.specs.declared.create.Create.{Create};
ghost use Rattle.action_types.specs.declared.actions.Add.{Add};
ghost use Rattle.conflict_rules.specs.Conflict.{first_conflict};
ghost use Rattle.conflict_rules.specs.declared.intent.Intent.{Intent};
ghost use Rattle.reconcile.specs.Replay.{Log};
ghost use Rattle.staged_commit.specs.Adds.{IsInOrder, adds_in_order, have_own_files};
ghost use Rattle.staged_commit.specs.Composed.{asked_features, composed_append, composed_create, features_for};
ghost use Rattle.staged_commit.specs.Names.{HasEachOnce, HasPut};
ghost use Rattle.staged_commit.specs.Changes.{put_pairs};
ghost use Rattle.action_fields.specs.Types.{Pair};
ghost use Rattle.staged_commit.specs.Rules.{broken_but_time};

/// A law: adds of which no file stands twice are the same adds in order, and there each file is below the next: by path, under one
/// path the one without a deletion vector first, then by the bytes of the vectors' unique ids.
pub fn files_stand_in_order()
    ensures { (adds : List Add) → have_own_files adds ≡ true → IsInOrder adds (adds_in_order adds) }
{}

/// A law: an append that breaks no rule after a log, but for the one on time, breaks none after more commits of which none
/// conflicts with it, under whatever id and at whatever time.
pub fn an_append_stays_within_the_rules()
    ensures { (intent : Intent) (base log winners : Log) (version id later_id : ℕ) (time later_time : ℤ) →
        first_conflict intent base version winners ≡ None → broken_but_time log (composed_append intent id time) ≡ None →
        broken_but_time (log ++ winners) (composed_append intent later_id later_time) ≡ None }
{}

/// A law: a write that breaks no rule after a log, but for those on time and number, breaks none after more commits of which none
/// conflicts with it, under whatever id and at whatever time.
pub fn a_write_stays_within_the_rules()
    ensures { (intent : Intent) (base log winners : Log) (version : ℕ) →
        first_conflict intent base version winners ≡ None → KeepsRulesAfter log intent →
        KeepsRulesAfter (log ++ winners) intent }
{}

/// A law: a write that breaks no rule after a log, but for those on time and number, breaks none at all at the next time, where its
/// number is after the recorded one of its application.
pub fn a_write_with_a_later_number_is_a_next_commit()
    ensures { (log : Log) (intent : Intent) (id : ℕ) (now time : ℤ) →
        KeepsRulesAfter log intent → next_time (time_of_log log) now ≡ Some time →
        late_for intent.app intent.number (number_at intent.app log) ≡ None →
        first_broken log (composed_write (meta_of_log log) intent id time) ≡ None }
{}

/// A law: the text that a write composes has the same length under every id.
pub fn the_id_of_a_write_does_not_change_its_length()
    ensures { (old : Option Meta) (intent : Intent) (id other : ℕ) (time : ℤ) →
        length (canonical_text (composed_write old intent id time))
        ≡ length (canonical_text (composed_write old intent other time)) }
{}

/// A law: the text that a create composes has the same length under every id.
pub fn the_id_of_a_create_does_not_change_its_length()
    ensures { (create : Create) (id other : ℕ) (time : ℤ) →
        length (canonical_text (composed_create create id time))
        ≡ length (canonical_text (composed_create create other time)) }
{}

/// A law: in the contents of a write each domain is below the next in byte order of their names, and each removed and each added file
/// below the next in the order of files, where none stands twice; and they are the same domains, removes and adds.
pub fn contents_stand_in_order()
    ensures { (intent : Intent) → IsWriteRequest intent → HasContentsInOrder intent }
{}

/// A law: a composed protocol has the features that every table has and those that were asked for, each once in byte order, and no
/// other feature.
pub fn features_stand_once_in_byte_order()
    ensures { (asked : Option (List (List ℕ))) →
        HasEachOnce
        (codes "catalogManaged" ∷ codes "inCommitTimestamp" ∷ asked_features asked)
        (features_for asked) }
{}

/// A law: a changed configuration has each given property (of several of one name the last) and the old ones of other names, in
/// byte order of the names where the old ones stand so.
pub fn given_properties_are_put_and_the_others_stay()
    ensures { (given old : List Pair) → HasPut given old (put_pairs given old) }
{}
