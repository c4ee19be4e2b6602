//! Writing a commit.
ghost use Rattle.std.specs.Prelude.{◌≡◌, IfOk, Ok, OnOk};
ghost use Rattle.action_json.specs.Commit.{AreWritten, IsCommit, canonical_text, outcome};

use action_fields::push_line;
use action_types::Action;
use std::alloc::{AllocError, Global};

/// The canonical text of a commit: one line for each action, with its LF; refused for want of memory alone.
pub fn write_commit(alloc: Global, actions: &[Action]) -> Result<Vec<u8>, AllocError>
    requires { IsCommit actions.now }
    ensures text { IfOk result (λ v. v.items ≡ canonical_text actions.now) }
    // The text is read back as the same actions.
    ensures reads_back { IfOk result (λ v. outcome v.items ≡ Ok actions.now) }
{
    write_lines(alloc, actions)
}

fn write_lines(alloc: Global, actions: &[Action]) -> Result<Vec<u8>, AllocError>
    ensures text { IfOk result (λ v. v.items ≡ canonical_text actions.now) }
    ensures written { OnOk result (AreWritten actions.now) }
{
    let mut text = Vec::new(alloc);
    for action in actions {
        push_line(alloc, &mut text, action)?;
        text.push(b'\n')?;
    }
    Ok(text)
}
