ghost use Rattle.std.specs.Prelude.{◌≡◌, ℕ, List, IfOk, MatchOption};
ghost use Rattle.action_json.specs.Text.{IsCommitText, actions_of};
ghost use Rattle.reconcile.specs.Replay.{last_said, time_said};

use action_json::{BadCommit, read_commit};
use action_types::Action;
use std::alloc::{AllocError, Global};

/// The actions of a commit's text; none where the bytes are no commit text. Refused for want of memory alone.
pub(crate) fn commit_actions(alloc: Global, bytes: &[u8]) -> Result<Option<Vec<Action>>, AllocError>
    ensures { IfOk result (λ o. MatchOption o (¬ (IsCommitText bytes.now (actions_of bytes.now))) (λ v. IsCommitText bytes.now (actions_of bytes.now) × (v.items ≡ actions_of bytes.now))) }
{
    match read_commit(alloc, bytes) {
        Ok(actions) => Ok(Some(actions)),
        Err(BadCommit::Memory) => Err(AllocError),
        Err(BadCommit::At { .. }) => Ok(None),
    }
}

/// The in-commit timestamp of a commit, if it has one, in milliseconds since 1970 UTC.
pub(crate) fn own_time(actions: &[Action]) -> Option<i64>
    ensures { result ≡ last_said time_said actions.now }
{
    let mut last = None;
    for action in actions {
        if let Action::Info(info) = action {
            last = Some(info.time);
        }
    }
    last
}
