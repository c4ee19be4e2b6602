//! The quick reading of a checkpoint: it gives up where a line has a fault or a digest stands twice.
ghost use Rattle.std.specs.Prelude.{◌≡◌, ◌==◌, ℕ, List, [], ◌∷◌, IfOk, IfSome, None, Some, is_some, option_map, if◌then◌else◌};
ghost use Rattle.std.specs.Bool.{OnTrue};
ghost use Rattle.text_lines.specs.Lines.{cut};
ghost use Rattle.checkpoint_v2.specs.Outcome.{checked, outcome};
ghost use Rattle.checkpoint_v2.specs.Quick.{IsDigested, found, quick_left, said_from};

use action_json::{
    BadLine, CheckpointLine, are_distinct, digest_of, first_line, read_checkpoint_line,
};
use action_types::Action;
use json_tree::Scratch;
use std::alloc::{AllocError, Global};

/// The version, if a line has said it, the actions so far, and the digest of what each names.
#[derive(Drop)]
pub(crate) struct Quick {
    pub(crate) version: Option<u64>,
    pub(crate) actions: Vec<Action>,
    digests: Vec<u64>,
}

/// The version and the actions of a checkpoint's bytes, where no line has a fault and no two
/// actions have the same digest.
pub(crate) fn read_quickly(alloc: Global, bytes: &[u8]) -> Result<Option<Quick>, AllocError>
    ensures { IfOk result (λ o. IfSome o (λ q. (wanted : ℕ)
        → outcome wanted bytes.now ≡ checked wanted q.version q.actions.items)) }
{
    let Some(
        Quick {
            version,
            actions,
            digests,
        },
    ) = read_said(alloc, bytes)?
    else {
        return Ok(None);
    };
    if are_distinct(digests) {
        Ok(Some(Quick {
            version,
            actions,
            digests: Vec::new(alloc),
        }))
    } else {
        Ok(None)
    }
}

/// What the lines say, where none has a fault of its own.
fn read_said(alloc: Global, bytes: &[u8]) -> Result<Option<Quick>, AllocError>
    ensures said { IfOk result (λ o. said_from None [] (cut bytes.now) ≡ option_map found o) }
    ensures digested { IfOk result (λ o. IfSome o IsDigested) }
{
    let mut quick = Quick {
        version: None,
        actions: Vec::new(alloc),
        digests: Vec::new(alloc),
    };
    let mut scratch = Scratch::new(alloc);
    let mut rest = bytes;
    while !rest.is_empty() {
        let (line, after) = first_line(rest);
        if !take_line(alloc, &mut scratch, &mut quick, line)? {
            return Ok(None);
        }
        rest = after;
    }
    Ok(Some(quick))
}

/// One more line; false where it has a fault of its own.
#[tactic(auto, unfolding(crate::specs::Quick::said_from))]
fn take_line<'a>(
    alloc: Global,
    scratch: &'a mut Scratch,
    quick: &mut Quick,
    line: &'a [u8],
) -> Result<bool, AllocError>
    requires { IsDigested quick.old }
    ensures said { IfOk result (λ b. (ls : List (List ℕ))
        → quick_left quick.old (line.now ∷ ls) ≡ (if b then quick_left quick.new ls else None)) }
    ensures digested { IfOk result (λ b. OnTrue b (IsDigested quick.new)) }
{
    match read_checkpoint_line(alloc, scratch, line) {
        Ok(CheckpointLine::Says(action)) => {
            quick.digests.push(digest_of(alloc, &action)?)?;
            quick.actions.push(action)?;
            Ok(true)
        }
        Ok(CheckpointLine::Version(version)) => Ok(take_version(quick, version)),
        Ok(CheckpointLine::Blank | CheckpointLine::Unread) => Ok(true),
        Ok(CheckpointLine::Sidecar) | Err(BadLine::Because(_)) => Ok(false),
        Err(BadLine::Memory) => Err(AllocError),
    }
}

/// The version of the line at hand; false where a line before it says one.
fn take_version(quick: &mut Quick, version: u64) -> bool
    ensures said { (ls : List (List ℕ))
        → (if is_some quick.old.version then None
        else said_from (Some version) quick.old.actions.items ls)
        ≡ (if result then quick_left quick.new ls else None) }
    ensures actions { quick.new.actions ≡ quick.old.actions }
    ensures digests { quick.new.digests ≡ quick.old.digests }
{
    if quick.version.is_some() {
        return false;
    }
    quick.version = Some(version);
    true
}
