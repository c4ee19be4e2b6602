//! One line of a checkpoint.
ghost use Rattle.std.specs.Prelude.{◌≡◌, IsTrue};
ghost use Rattle.json_tree.specs.View.{view};
ghost use Rattle.action_fields.specs.Bodies.{body_of};
ghost use Rattle.action_fields.specs.Checkpoints.{sidecar_of, version_of};
ghost use Rattle.action_fields.specs.Gives.{Gives};
ghost use Rattle.action_fields.specs.Kinds.{is_action};
ghost use Rattle.action_json.specs.CheckpointLines.{action_said, checkpoint_line_of, checkpoint_member, checkpoint_text, is_removed, sidecar_said, unless_removed, version_said};
ghost use Rattle.action_json.specs.Commit.{line_told};

use crate::fault::{BadLine, Why};
use crate::line::{is_blank, only_member};
use action_fields::{BadBody, Kind, read_body, read_sidecar, read_version};
use action_types::{Action, Name};
use json_tree::{ParseError, Scratch, Tree};
use std::alloc::Global;
use std::str;

/// What a line of a checkpoint says: white space alone, a kind that is passed over, an action, the version of the
/// checkpoint, or that there is a sidecar.
#[derive(Drop)]
pub enum CheckpointLine {
    Blank,
    Unread,
    Says(Action),
    Version(u64),
    Sidecar,
}

/// What a line of a checkpoint says, without its LF, wherever it stands. A commitInfo is passed over, and its body is not
/// looked at.
///
/// An error is the first reason for which the line is faulty, or want of memory. In a `domainMetadata` that is removed
/// the field `removed` is faulty.
#[tactic(auto, unfolding(crate::specs::CheckpointLines::checkpoint_line_of))]
pub fn read_checkpoint_line<'a>(
    alloc: Global,
    scratch: &'a mut Scratch,
    line: &'a [u8],
) -> Result<CheckpointLine, BadLine>
    ensures { Gives line_told (λ x. x) result (checkpoint_line_of line.now) }
{
    if is_blank(line) {
        return Ok(CheckpointLine::Blank);
    }
    match str::from_utf8(line) {
        Ok(text) => read_text(alloc, scratch, text),
        Err(_) => Err(BadLine::Because(Why::Utf8)),
    }
}

#[tactic(auto, unfolding(crate::specs::CheckpointLines::checkpoint_text))]
fn read_text<'a>(
    alloc: Global,
    scratch: &'a mut Scratch,
    text: &'a str,
) -> Result<CheckpointLine, BadLine>
    ensures { Gives line_told (λ x. x) result (checkpoint_text text.now) }
{
    let value = match Tree::parse(alloc, text, scratch) {
        Ok(value) => value,
        Err(ParseError::Invalid) => return Err(BadLine::Because(Why::NotJson)),
        Err(ParseError::Memory) => return Err(BadLine::Memory),
    };
    match only_member(&value) {
        None => Err(BadLine::Because(Why::NotOneMember)),
        Some((name, body)) => read_member(alloc, name, body),
    }
}

#[tactic(auto, unfolding(crate::specs::CheckpointLines::checkpoint_member))]
fn read_member(alloc: Global, name: &str, body: &Tree<'_>) -> Result<CheckpointLine, BadLine>
    ensures { Gives line_told (λ x. x) result (checkpoint_member name.now (view body.now)) }
{
    let Some(kind) = Kind::named(name) else {
        return Ok(CheckpointLine::Unread);
    };
    match kind {
        Kind::Info => Ok(CheckpointLine::Unread),
        Kind::CheckpointMetadata => read_metadata(alloc, body),
        Kind::Sidecar => read_sidecar_line(alloc, body),
        _ => read_action(alloc, kind, body),
    }
}

fn read_metadata(alloc: Global, body: &Tree<'_>) -> Result<CheckpointLine, BadLine>
    ensures { Gives line_told (λ x. x) result (version_said (version_of (view body.now))) }
{
    match read_version(alloc, body) {
        Ok(version) => Ok(CheckpointLine::Version(version)),
        Err(BadBody::Field { field }) => Err(BadLine::Because(Why::Field {
            kind: Kind::CheckpointMetadata,
            field,
        })),
        Err(BadBody::Memory) => Err(BadLine::Memory),
    }
}

fn read_sidecar_line(alloc: Global, body: &Tree<'_>) -> Result<CheckpointLine, BadLine>
    ensures { Gives line_told (λ x. x) result (sidecar_said (sidecar_of (view body.now))) }
{
    match read_sidecar(alloc, body) {
        Ok(()) => Ok(CheckpointLine::Sidecar),
        Err(BadBody::Field { field }) => Err(BadLine::Because(Why::Field {
            kind: Kind::Sidecar,
            field,
        })),
        Err(BadBody::Memory) => Err(BadLine::Memory),
    }
}

fn read_action(alloc: Global, kind: Kind, body: &Tree<'_>) -> Result<CheckpointLine, BadLine>
    requires { IsTrue (is_action kind) }
    ensures { Gives line_told (λ x. x) result (action_said kind (body_of kind (view body.now))) }
{
    match read_body(alloc, kind, body) {
        Ok(action) => kept(alloc, action),
        Err(BadBody::Field { field }) => Err(BadLine::Because(Why::Field { kind, field })),
        Err(BadBody::Memory) => Err(BadLine::Memory),
    }
}

/// The action, unless it is of a domain that is removed.
fn kept(alloc: Global, action: Action) -> Result<CheckpointLine, BadLine>
    ensures { Gives line_told (λ x. x) result (unless_removed action) }
{
    if is_removed(&action) {
        let field = Name::from_str(alloc, "removed")?;
        return Err(BadLine::Because(Why::Field {
            kind: Kind::Domain,
            field,
        }));
    }
    Ok(CheckpointLine::Says(action))
}

fn is_removed(action: &Action) -> bool
    ensures { result ≡ is_removed action.now }
{
    match action {
        Action::Domain(domain) => domain.removed,
        _ => false,
    }
}
