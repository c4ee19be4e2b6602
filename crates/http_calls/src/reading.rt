//! Reading a call.
ghost use Rattle.std.specs.Prelude.{◌≡◌, IfOk, bytes_eq};
ghost use Rattle.percent_encoding.specs.Percent.{percent_decode};
ghost use Rattle.action_fields.specs.Gives.{Gives};
ghost use Rattle.http_calls.specs.Calls.{at_target, call_of, call_with, in_table, told};

use crate::body::posted;
use crate::call::{BadCall, Call, Refusal};
use crate::content::Content;
use crate::target::{Asked, Place, asked_by, target_of};
use http_wire::Request;
use percent_encoding::percent_decode;
use std::alloc::{AllocError, Global};

/// What a request asks of a server of this table. The body becomes the bytes of the call.
///
/// The error is the first reason why it asks for nothing, in the order of the variants of `Refusal`, or want of memory.
#[tactic(auto, unfolding(crate::specs::Calls::call_of))]
pub fn call_of(alloc: Global, table: &str, request: Request) -> Result<Call, BadCall>
    ensures exact { Gives told (λ c. c) result (call_of table.now request) }
{
    let Request {
        method,
        target,
        body,
    } = request;
    match target_of(target.as_str().as_bytes()) {
        None => Err(BadCall::Refused(Refusal::Target)),
        Some((id, place)) => at_target(alloc, table, id, place, method.as_str(), body),
    }
}

#[tactic(auto, unfolding(crate::specs::Calls::at_target))]
fn at_target(
    alloc: Global,
    table: &str,
    id: &[u8],
    place: Place,
    method: &str,
    body: Vec<u8>,
) -> Result<Call, BadCall>
    ensures { Gives told (λ c. c) result (at_target table.now (record { id = id.now; place = place }) method.now body.items) }
{
    match asked_by(place, method) {
        None => Err(BadCall::Refused(Refusal::Method)),
        Some(asked) => in_table(alloc, table, id, asked, body),
    }
}

#[tactic(auto, unfolding(crate::specs::Calls::in_table))]
fn in_table(
    alloc: Global,
    table: &str,
    id: &[u8],
    asked: Asked,
    body: Vec<u8>,
) -> Result<Call, BadCall>
    ensures { Gives told (λ c. c) result (in_table table.now id.now asked body.items) }
{
    if is_table(alloc, id, table)? {
        call_with(alloc, asked, body)
    } else {
        Err(BadCall::Refused(Refusal::Table))
    }
}

/// Whether a segment names the table; refused for want of memory alone.
fn is_table(alloc: Global, id: &[u8], table: &str) -> Result<bool, AllocError>
    ensures { IfOk result (λ b. b ≡ bytes_eq (percent_decode id.now) table.now) }
{
    let mut name = Vec::new(alloc);
    percent_decode(id).append_to(&mut name)?;
    Ok(name.as_slice() == table.as_bytes())
}

fn call_with(alloc: Global, asked: Asked, body: Vec<u8>) -> Result<Call, BadCall>
    ensures { Gives told (λ c. c) result (call_with asked body.items) }
{
    match asked {
        Asked::Commits => Ok(Call::Commits),
        Asked::Post => read_post(alloc, &body),
        Asked::Stage(version, id) => Ok(Call::Stage {
            version,
            id,
            bytes: Content::from_vec(body),
        }),
        Asked::Publish(version) => Ok(Call::Publish {
            version,
            bytes: Content::from_vec(body),
        }),
        Asked::Get(name) => Ok(Call::Get(name)),
    }
}

fn read_post(alloc: Global, body: &[u8]) -> Result<Call, BadCall>
    ensures { Gives told (λ c. c) result (call_with Asked.Post body.now) }
{
    match posted(alloc, body)? {
        Some(call) => Ok(call),
        None => Err(BadCall::Refused(Refusal::Body)),
    }
}
