//! From actions to their text, whatever their fields are.
ghost use Rattle.std.specs.Prelude.{◌≡◌, IfErr, IfOk, OnOk};
ghost use Rattle.action_json.specs.Commit.{AreWritten, canonical_text};
ghost use Rattle.staged_commit.specs.Answers.{IsUnwritten};
ghost use Rattle.staged_commit.specs.WriteAnswers.{IsText};

use crate::commit::Composed;
use crate::fault::ComposeError;
use action_fields::push_line;
use action_types::Action;
use std::alloc::{AllocError, Global};

/// The actions at this time, if their canonical text is within the limit.
pub(crate) fn limited(
    alloc: Global,
    actions: Vec<Action>,
    time: i64,
    limit: u64,
) -> Result<Composed, ComposeError>
    ensures ok { IfOk result (λ c. IsText actions.items time limit c) }
    ensures err { IfErr result (λ e. IsUnwritten actions.items limit e) }
    // What the types of the actions see to: integers of 64 bits, and texts that are UTF-8.
    ensures written { OnOk result (AreWritten actions.items) }
{
    let bytes = text_of(alloc, &actions)?;
    let length = bytes.len() as u64;
    if length > limit {
        return Err(ComposeError::TooLarge { bytes: length });
    }
    Ok(Composed {
        bytes,
        actions,
        time,
    })
}

/// The canonical text of these actions: one line for each, with its LF; refused for want of memory alone.
fn text_of(alloc: Global, actions: &[Action]) -> Result<Vec<u8>, AllocError>
    ensures text { IfOk result (λ v. v.items ≡ canonical_text actions.now) }
    ensures written { OnOk result (AreWritten actions.now) }
{
    let mut text = Vec::new(alloc);
    for action in actions {
        push_line(alloc, &mut text, action)?;
        text.push(b'\n')?;
    }
    Ok(text)
}
