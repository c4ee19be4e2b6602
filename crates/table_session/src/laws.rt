//! What the replies of a session say together.
ghost use Rattle.std.specs.Prelude.{◌≡◌, ◌≤◌, ◌+◌, All, Bool, Contains, ℕ, List, Some, length};
ghost use Rattle.lake_io.specs.declared.answers.End.{End};
ghost use Rattle.log_names.specs.declared.LogName.TheVariants as name;
ghost use Rattle.table_model.specs.Log.{Commit};
ghost use Rattle.table_model.specs.Knowledge.{Knowledge, StartsWith, Terms};
ghost use Rattle.table_model.specs.declared.snapshot.Snapshot.{Snapshot};
ghost use Rattle.answer_names.specs.Others.{IsUncontested, IsUntaken};
ghost use Rattle.answer_names.specs.Together.{takens_in, versions_in};
ghost use Rattle.answer_names.specs.Whole.{IsWhole};
ghost use Rattle.table_session.specs.Moments.{Moment, names_in};
ghost use Rattle.table_session.specs.Running.{Run};
ghost use Rattle.table_session.specs.Told.{Told};
ghost use Rattle.table_session.specs.Over.{ToldOver};
ghost use Rattle.table_session.specs.Sessions.{Session};
ghost use Rattle.reconcile.specs.declared.state.State.{State};
ghost use Rattle.reconcile.specs.Replay.{Log};
ghost use Rattle.reconcile.specs.Standing.{StandsFor};
ghost use Rattle.session_lines.specs.declared.reply.Reply.TheVariants as reply;
ghost use Rattle.session_lines.specs.Replies.{reply_text_of};

/// Replies that are each right at their moment are right together.
pub fn replies_are_right_together()
    ensures { (tells : Bool) (k m : Knowledge) (moments : List Moment) → Run tells k moments m
        → Told tells k moments m }
{}

/// They are right of each log that begins with what was seen.
pub fn replies_are_right_of_the_log()
    ensures { (tells : Bool) (k m : Knowledge) (moments : List Moment) (log : List Commit)
        → StartsWith log m.seen → Told tells k moments m → ToldOver tells moments log }
{}

/// At most one reply of a session was not written whole, and the version that it names is above all that was written.
pub fn one_reply_at_most_is_not_written()
    ensures { (tells : Bool) (read wrote : List ℕ) (k m : Knowledge) (ended : End)
        → (s : Session tells read wrote k m ended)
        → IsWhole (names_in s.moments) (names_in s.said) (names_in s.unsaid) }
{}

/// Where no try was lost and each new version is the session's own, no reply is Conflict or Contended.
pub fn replies_where_nobody_else_ratifies_are_uncontested()
    ensures { (tells : Bool) (k m : Knowledge) (t : Terms) (moments : List Moment)
        → Run tells k moments m → k.terms ≡ Some t → 1 ≤ t.limits.attempts → m.tries ≡ k.tries
        → length m.seen ≡ length k.seen + length (versions_in (names_in moments))
        → All IsUncontested (names_in moments) }
{}

/// Where each name that was found taken is among those that the caller may have put, and no name that a Taken reply tells is, no reply is Taken.
pub fn replies_where_nobody_else_stages_are_untaken()
    ensures { (tells : Bool) (k m : Knowledge) (moments : List Moment) → Run tells k moments m
        → ((version id : ℕ) → Contains m.takens (name.Staged version id)
        → Contains m.put (name.Staged version id))
        → ((version id : ℕ) → Contains (takens_in (names_in moments)) (name.Staged version id)
        → ¬ (Contains m.put (name.Staged version id)))
        → All IsUntaken (names_in moments) }
{}

/// The text of a Loaded reply is that of the commits: whatever state stands for them gives the same.
pub fn loaded_replies_of_a_log_have_one_text()
    ensures { (s : Snapshot) (t u : State) (log : Log) → StandsFor t log → StandsFor u log
        → reply_text_of (reply.Loaded (record s { state = t }))
        ≡ reply_text_of (reply.Loaded (record s { state = u })) }
{}
