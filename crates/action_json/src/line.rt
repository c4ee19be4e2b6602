//! One line of a commit.
ghost use Rattle.std.specs.Prelude.{◌≡◌, option_map};
ghost use Rattle.text_lines.specs.Lines.{is_blank};
ghost use Rattle.json_tree.specs.View.{view};
ghost use Rattle.action_fields.specs.Gives.{Gives};
ghost use Rattle.action_json.specs.Commit.{line_told};
ghost use Rattle.action_json.specs.Lines.{commit_kind, line_of, member_line, only_member, text_line};

use crate::fault::{BadLine, Why};
use action_fields::{BadBody, Kind, read_body};
use action_types::Action;
use json_tree::{ParseError, Scratch, Tree};
use std::alloc::Global;
use std::str;

/// What a line says: white space alone, a kind that is not read, or an action.
#[derive(Drop)]
pub(crate) enum Line {
    Blank,
    Unread,
    Says(Action),
}

/// Whether a line is JSON white space alone.
pub(crate) fn is_blank(line: &[u8]) -> bool
    ensures { result ≡ is_blank line.now }
{
    line.iter().all(|byte| *byte == b' ' || *byte == b'\t' || *byte == b'\n' || *byte == b'\r')
}

/// What a line says; `first` where no line before it says anything. An error is its first reason, or want of memory.
#[tactic(auto, unfolding(crate::specs::Lines::line_of))]
pub(crate) fn read_line<'a>(
    alloc: Global,
    scratch: &'a mut Scratch,
    first: bool,
    line: &'a [u8],
) -> Result<Line, BadLine>
    ensures { Gives line_told (λ x. x) result (line_of first line.now) }
{
    if is_blank(line) {
        return Ok(Line::Blank);
    }
    match str::from_utf8(line) {
        Ok(text) => read_text(alloc, scratch, first, text),
        Err(_) => Err(BadLine::Because(Why::Utf8)),
    }
}

#[tactic(auto, unfolding(crate::specs::Lines::text_line))]
fn read_text<'a>(
    alloc: Global,
    scratch: &'a mut Scratch,
    first: bool,
    text: &'a str,
) -> Result<Line, BadLine>
    ensures { Gives line_told (λ x. x) result (text_line first text.now) }
{
    let value = match Tree::parse(alloc, text, scratch) {
        Ok(value) => value,
        Err(ParseError::Invalid) => return Err(BadLine::Because(Why::NotJson)),
        Err(ParseError::Memory) => return Err(BadLine::Memory),
    };
    match only_member(&value) {
        None => Err(BadLine::Because(Why::NotOneMember)),
        Some((name, body)) => read_member(alloc, first, name, body),
    }
}

/// The one member of an object.
pub(crate) fn only_member<'v, 'a>(value: &'v Tree<'a>) -> Option<(&'a str, &'v Tree<'a>)>
    ensures { option_map (λ m. (m.0.now, view m.1.now)) result ≡ only_member (view value.now) }
{
    let members = value.as_object()?;
    if members.len() != 1 {
        return None;
    }
    let (name, body) = members.first_key_value()?;
    Some((*name, body))
}

#[tactic(auto, unfolding(crate::specs::Lines::member_line))]
fn read_member(alloc: Global, first: bool, name: &str, body: &Tree<'_>) -> Result<Line, BadLine>
    ensures { Gives line_told (λ x. x) result (member_line first name.now (view body.now)) }
{
    if first && name != "commitInfo" {
        return Err(BadLine::Because(Why::InfoNotFirst));
    }
    let Some(kind) = commit_kind(name) else {
        return Ok(Line::Unread);
    };
    match read_body(alloc, kind, body) {
        Ok(action) => Ok(Line::Says(action)),
        Err(BadBody::Field { field }) => Err(BadLine::Because(Why::Field { kind, field })),
        Err(BadBody::Memory) => Err(BadLine::Memory),
    }
}

/// The kind of this name, where a commit has lines of it.
fn commit_kind(name: &str) -> Option<Kind>
    ensures { result ≡ commit_kind name.now }
{
    match Kind::named(name) {
        None => None,
        Some(kind) => if kind.is_action() { Some(kind) } else { None },
    }
}
