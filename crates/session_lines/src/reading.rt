//! Reading a request.
ghost use Rattle.std.specs.Prelude.{◌≡◌, IfOk};
ghost use Rattle.json_tree.specs.View.{members_view, view};
ghost use Rattle.action_fields.specs.Bodies as bodies;
ghost use Rattle.action_fields.specs.Gives.{Gives};
ghost use Rattle.session_lines.specs.Faults.{told};
ghost use Rattle.session_lines.specs.Members.{is_other, other_member};
ghost use Rattle.session_lines.specs.Requests.{IsRequest, create_of, members_say, op_in, op_request, request_of, text_request, value_request, write_of};

use crate::fault::BadLine;
use crate::member::{files_or_none, required_from_zero, required_path, required_schema};
use crate::op::Op;
use crate::request::Request;
use action_fields::BadBody;
use action_types::{Name, Names, Pairs};
use conflict_rules::{Domains, Intent, Level, Reads, Removes};
use json_tree::{Members, ParseError, Scratch, Tree};
use staged_commit::Create;
use std::alloc::{AllocError, Global};
use std::str;

/// What a line asks for.
///
/// The error is the first reason why it is no request, in the order of the variants; `Field` names the least member in byte order
/// that such a request does not have, or, where it has no other, the least that is faulty, or needed and missing. A null counts as
/// absent, under every name.
pub fn read_request(alloc: Global, line: &[u8]) -> Result<Request, BadLine>
    ensures exact { Gives told (λ r. r) result (request_of line.now) }
    // What is asked for can be composed.
    ensures valid { IfOk result IsRequest }
{
    read_line(alloc, line)
}

#[tactic(auto, unfolding(crate::specs::Requests::request_of))]
fn read_line(alloc: Global, line: &[u8]) -> Result<Request, BadLine>
    ensures { Gives told (λ r. r) result (request_of line.now) }
{
    match str::from_utf8(line) {
        Ok(text) => read_text(alloc, text),
        Err(_) => Err(BadLine::Utf8),
    }
}

#[tactic(auto, unfolding(crate::specs::Requests::text_request))]
fn read_text(alloc: Global, text: &str) -> Result<Request, BadLine>
    ensures { Gives told (λ r. r) result (text_request text.now) }
{
    let mut scratch = Scratch::new(alloc);
    match Tree::parse(alloc, text, &mut scratch) {
        Ok(value) => read_value(alloc, &value),
        Err(ParseError::Invalid) => Err(BadLine::NotJson),
        Err(ParseError::Memory) => Err(BadLine::Memory),
    }
}

#[tactic(auto, unfolding(crate::specs::Requests::value_request))]
fn read_value(alloc: Global, value: &Tree<'_>) -> Result<Request, BadLine>
    ensures { Gives told (λ r. r) result (value_request (view value.now)) }
{
    let Some(members) = value.as_object() else {
        return Err(BadLine::NotObject);
    };
    match op_of(value) {
        None => Err(BadLine::Op),
        Some(op) => read_members(alloc, op, members, value),
    }
}

/// The kind of request that an object is.
fn op_of(value: &Tree<'_>) -> Option<Op>
    ensures { result ≡ op_in (view value.now) }
{
    match value.get("op") {
        None => None,
        Some(op) => match op.as_str() {
            None => None,
            Some(name) => Op::named(name),
        },
    }
}

#[tactic(auto, unfolding(crate::specs::Requests::op_request))]
fn read_members(
    alloc: Global,
    op: Op,
    members: &Members<'_>,
    value: &Tree<'_>,
) -> Result<Request, BadLine>
    ensures { Gives told (λ r. r) result (op_request op (members_view members.now.entries) (view value.now)) }
{
    if let Some(field) = other_member(alloc, op, members)? {
        return Err(BadLine::Field { field });
    }
    match read_op(alloc, op, value) {
        Ok(request) => Ok(request),
        Err(BadBody::Field { field }) => Err(BadLine::Field { field }),
        Err(BadBody::Memory) => Err(BadLine::Memory),
    }
}

/// The first member that is not null and that such a request does not have; refused for want of memory alone.
fn other_member(alloc: Global, op: Op, members: &Members<'_>) -> Result<Option<Name>, AllocError>
    ensures { IfOk result (λ o. o ≡ other_member op (members_view members.now.entries)) }
{
    for (name, value) in members.iter() {
        if is_other(op, name, value) {
            return Ok(Some(Name::from_str(alloc, name)?));
        }
    }
    Ok(None)
}

/// Whether a member is not null and no member of such a request.
fn is_other(op: Op, name: &str, value: &Tree<'_>) -> bool
    ensures { result ≡ is_other op name.now (view value.now) }
{
    !(op.has_member(name) || value.is_null())
}

fn read_op(alloc: Global, op: Op, value: &Tree<'_>) -> Result<Request, BadBody>
    ensures { Gives bodies.told (λ r. r) result (members_say op (view value.now)) }
{
    match op {
        Op::Create => read_create(alloc, value),
        Op::Load => Ok(Request::Load),
        Op::Write => read_write(alloc, value),
    }
}

#[tactic(auto, unfolding(crate::specs::Requests::create_of))]
fn read_create(alloc: Global, value: &Tree<'_>) -> Result<Request, BadBody>
    ensures { Gives bodies.told (λ r. r) result (create_of (view value.now)) }
{
    let id = required_path(alloc, value, "id")?;
    let schema = required_schema(alloc, value, "schema")?;
    Ok(Request::Create(Create {
        id,
        name: None,
        description: None,
        schema,
        partition: Names::new(alloc),
        configuration: Pairs::new(alloc),
        features: None,
    }))
}

#[tactic(auto, unfolding(crate::specs::Requests::write_of))]
fn read_write(alloc: Global, value: &Tree<'_>) -> Result<Request, BadBody>
    ensures { Gives bodies.told (λ r. r) result (write_of (view value.now)) }
{
    let adds = files_or_none(alloc, value, "adds")?;
    let app = required_path(alloc, value, "app")?;
    let number = required_from_zero(alloc, value, "number")?;
    Ok(Request::Write(Intent {
        app,
        number,
        level: Level::WriteSerializable,
        reads: Reads::None,
        adds,
        removes: Removes::new(alloc),
        domains: Domains::new(alloc),
        change: None,
    }))
}
