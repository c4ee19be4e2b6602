//! From actions to a commit.
ghost use Rattle.std.specs.Prelude.{◌≡◌, IfErr, IfOk, Option};
ghost use Rattle.action_json.specs.Commit.{IsCommit};
ghost use Rattle.table_rules.specs.Broken.{Tells};
ghost use Rattle.table_rules.specs.declared.broken.Broken.{Broken};
ghost use Rattle.staged_commit.specs.Answers.{IsJudged, IsUnwritten, IsWritten};
ghost use Rattle.staged_commit.specs.Composed.{info_for};

use crate::fault::ComposeError;
use action_json::write_commit;
use action_types::{Action, Info, Name};
use std::alloc::{AllocError, Global};
use table_rules::Broken;
use uuid::Uuid;

/// A commit that was composed.
#[derive(Drop)]
pub struct Composed {
    /// The canonical text of the actions.
    pub bytes: Vec<u8>,
    pub actions: Vec<Action>,
    /// The in-commit timestamp, in milliseconds since 1970 UTC.
    pub time: i64,
}

/// The commitInfo of a commit that is staged under an id.
#[tactic(auto, unfolding(log_names::specs::Texts::uuid_text))]
pub(crate) fn info_at(alloc: Global, id: u128, time: i64) -> Result<Info, AllocError>
    ensures { IfOk result (λ i. i ≡ info_for id time) }
{
    let mut buffer = Uuid::encode_buffer();
    let txn_id = Name::from_str(
        alloc,
        Uuid::from_u128(id).hyphenated().encode_lower(&mut buffer),
    )?;
    Ok(Info {
        time,
        txn_id: Some(txn_id),
    })
}

/// What a check of rules says, as composing answers it.
pub(crate) fn judged(checked: Result<(), Broken>) -> Result<(), ComposeError>
    ensures { (found : Option Broken) → Tells checked found → IsJudged result found }
{
    match checked {
        Ok(()) => Ok(()),
        Err(Broken::Memory) => Err(ComposeError::Memory),
        Err(broken) => Err(ComposeError::Broken(broken)),
    }
}

/// The commit of these actions, if its text is within the limit.
pub(crate) fn written(
    alloc: Global,
    actions: Vec<Action>,
    time: i64,
    limit: u64,
) -> Result<Composed, ComposeError>
    requires { IsCommit actions.items }
    ensures ok { IfOk result (λ c. IsWritten actions.items time limit c) }
    ensures err { IfErr result (λ e. IsUnwritten actions.items limit e) }
{
    let bytes = write_commit(alloc, &actions)?;
    let length = bytes.len() as u64;
    if length > limit {
        return Err(ComposeError::TooLarge { bytes: length });
    }
    Ok(Composed {
        bytes,
        actions,
        time,
    })
}
