//! Laws on commit texts: facts about the definitions, with no code.
ghost use Rattle.std.specs.Prelude.{◌≡◌, ℕ, IfOk, List, MatchResult, Ok};
ghost use Rattle.action_types.specs.declared.actions.Action.{Action};
ghost use Rattle.action_json.specs.Commit.{AreWritten, IsCommit, canonical_text, outcome};
ghost use Rattle.action_json.specs.Text.{IsCommitText, IsFirstFlaw};

/// The reading of any bytes is a commit text of its actions, or their first flaw.
pub fn readings_are_commit_texts_or_first_flaws()
    ensures { (bytes : List ℕ) → MatchResult (outcome bytes) (IsCommitText bytes) (λ f. IsFirstFlaw bytes f.0 f.1) }
{}

/// A commit text has one reading.
pub fn commit_texts_have_one_reading()
    ensures { (bytes : List ℕ) (actions : List Action) → IsCommitText bytes actions → outcome bytes ≡ Ok actions }
{}

/// What is read is a commit.
pub fn readings_are_commits()
    ensures { (bytes : List ℕ) → IfOk (outcome bytes) IsCommit }
{}

/// The canonical text of a commit whose integers have 64 bits and whose texts are UTF-8 is read as its actions.
pub fn canonical_texts_are_read()
    ensures { (actions : List Action) → IsCommit actions → AreWritten actions → outcome (canonical_text actions) ≡ Ok actions }
{}
