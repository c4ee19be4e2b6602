//! The quick reading of a commit: it gives up where a line has a flaw or a digest stands twice.
ghost use Rattle.std.specs.Prelude.{◌≡◌, ℕ, List, [], ◌∷◌, IfNone, IfOk, IfSome, None, Ok, Some, option_map, if◌then◌else◌};
ghost use Rattle.std.specs.Bool.{OnTrue};
ghost use Rattle.text_lines.specs.Lines.{cut};
ghost use Rattle.action_types.specs.declared.actions.Action.{Action};
ghost use Rattle.action_json.specs.Commit.{outcome};
ghost use Rattle.action_json.specs.Digests.{HasDistinctDigests};
ghost use Rattle.action_json.specs.Quick.{IsDigested, quick_left, said_from};

use crate::digests::{are_distinct, digest_of};
use crate::fault::BadLine;
use crate::line::{Line, read_line};
use crate::reading::first_line;
use action_types::Action;
use json_tree::Scratch;
use std::alloc::{AllocError, Global};

/// The actions so far, and the digest of what each names.
#[derive(Drop)]
pub(crate) struct Quick {
    actions: Vec<Action>,
    digests: Vec<u64>,
}

/// The actions of a commit's bytes, where no line has a flaw and no two actions have the same digest.
pub(crate) fn read_quickly(alloc: Global, bytes: &[u8]) -> Result<Option<Vec<Action>>, AllocError>
    // The actions are the outcome.
    ensures actions { IfOk result (λ o. IfSome o (λ v. outcome bytes.now ≡ Ok v.items)) }
    // There are none only where a line has a flaw of its own or two of the actions have the same digest.
    ensures none { IfOk result (λ o. IfNone o ((all : List Action) → said_from [] (cut bytes.now) ≡ Some all → ¬ (HasDistinctDigests all))) }
{
    let Some(Quick { actions, digests }) = read_said(alloc, bytes)? else {
        return Ok(None);
    };
    if are_distinct(digests) {
        Ok(Some(actions))
    } else {
        Ok(None)
    }
}

/// What the lines say, where none has a flaw of its own.
fn read_said(alloc: Global, bytes: &[u8]) -> Result<Option<Quick>, AllocError>
    ensures said { IfOk result (λ o. said_from [] (cut bytes.now) ≡ option_map (λ q. q.actions.items) o) }
    ensures digested { IfOk result (λ o. IfSome o IsDigested) }
{
    let mut quick = Quick {
        actions: Vec::new(alloc),
        digests: Vec::new(alloc),
    };
    let mut scratch = Scratch::new(alloc);
    let mut rest = bytes;
    while !rest.is_empty() {
        let (line, after) = first_line(rest);
        if !take_line(alloc, &mut scratch, &mut quick, line)? {
            return Ok(None);
        }
        rest = after;
    }
    Ok(Some(quick))
}

/// One more line; false where it has a flaw of its own.
#[tactic(auto, unfolding(crate::specs::Quick::said_from))]
fn take_line<'a>(
    alloc: Global,
    scratch: &'a mut Scratch,
    quick: &mut Quick,
    line: &'a [u8],
) -> Result<bool, AllocError>
    requires { IsDigested quick.old }
    ensures said { IfOk result (λ b. (ls : List (List ℕ)) → quick_left quick.old (line.now ∷ ls) ≡ (if b then quick_left quick.new ls else None)) }
    ensures digested { IfOk result (λ b. OnTrue b (IsDigested quick.new)) }
{
    let first = quick.actions.is_empty();
    match read_line(alloc, scratch, first, line) {
        Ok(Line::Says(action)) => {
            quick.digests.push(digest_of(alloc, &action)?)?;
            quick.actions.push(action)?;
            Ok(true)
        }
        Ok(Line::Blank | Line::Unread) => Ok(true),
        Err(BadLine::Because(_)) => Ok(false),
        Err(BadLine::Memory) => Err(AllocError),
    }
}
