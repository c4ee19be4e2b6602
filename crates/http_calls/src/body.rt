//! The body of a POST.
ghost use Rattle.std.specs.Prelude.{◌≡◌, IfOk, option_and_then};
ghost use Rattle.std.specs.Str.{bytes_eq};
ghost use Rattle.serde_json.specs.Read.{read};
ghost use Rattle.json_tree.specs.View.{view};
ghost use Rattle.action_fields.specs.Types.{from_zero};
ghost use Rattle.log_names.specs.Reading.{id_in};
ghost use Rattle.log_names.specs.Texts.{uuid_text};
ghost use Rattle.http_calls.specs.Bodies.{commit, count, has_members, id, posted, posted_value, the};

use crate::call::Call;
use json_tree::{ParseError, Scratch, Tree};
use std::alloc::{AllocError, Global};
use std::str;
use uuid::Uuid;

/// The call that a body asks for, where it is one; refused for want of memory alone.
#[tactic(auto, unfolding(crate::specs::Bodies::posted))]
pub(crate) fn posted(alloc: Global, body: &[u8]) -> Result<Option<Call>, AllocError>
    ensures { IfOk result (λ o. o ≡ posted body.now) }
{
    match str::from_utf8(body) {
        Ok(text) => posted_text(alloc, text),
        Err(_) => Ok(None),
    }
}

fn posted_text(alloc: Global, text: &str) -> Result<Option<Call>, AllocError>
    ensures { IfOk result (λ o. o ≡ option_and_then posted_value (read text.now)) }
{
    let mut scratch = Scratch::new(alloc);
    match Tree::parse(alloc, text, &mut scratch) {
        Ok(value) => Ok(posted_value(&value)),
        Err(ParseError::Invalid) => Ok(None),
        Err(ParseError::Memory) => Err(AllocError),
    }
}

#[tactic(auto, unfolding(crate::specs::Bodies::posted_value))]
fn posted_value(value: &Tree<'_>) -> Option<Call>
    ensures { result ≡ posted_value (view value.now) }
{
    if !has_members(1, value) {
        return None;
    }
    match the_commit(value, "commit") {
        Some(call) => Some(call),
        None => match the_count(value, "latestPublished") {
            Some(version) => Some(Call::Report { version }),
            None => None,
        },
    }
}

/// A commit that is to be ratified.
#[tactic(auto, unfolding(crate::specs::Bodies::commit))]
fn commit(value: &Tree<'_>) -> Option<Call>
    ensures { result ≡ commit (view value.now) }
{
    if !has_members(3, value) {
        return None;
    }
    let id = the_id(value, "id")?;
    let time = the_time(value, "time")?;
    let version = the_count(value, "version")?;
    Some(Call::Ratify { version, id, time })
}

/// Whether this is an object of so many members.
#[tactic(auto, unfolding(crate::specs::Bodies::has_members))]
fn has_members(count: usize, value: &Tree<'_>) -> bool
    ensures { result ≡ has_members count (view value.now) }
{
    match value.as_object() {
        None => false,
        Some(members) => members.len() == count,
    }
}

#[tactic(auto, unfolding(crate::specs::Bodies::the))]
fn the_commit(object: &Tree<'_>, name: &str) -> Option<Call>
    ensures { result ≡ the commit name.now (view object.now) }
{
    match object.get(name) {
        None => None,
        Some(value) => commit(value),
    }
}

/// A member that is an integer from 0 of 64 bits.
#[tactic(auto, unfolding(crate::specs::Bodies::the))]
fn the_count(object: &Tree<'_>, name: &str) -> Option<u64>
    ensures { result ≡ the count name.now (view object.now) }
{
    match object.get(name) {
        None => None,
        Some(value) => count(value),
    }
}

fn count(value: &Tree<'_>) -> Option<u64>
    ensures { result ≡ count (view value.now) }
{
    if let Tree::Number(number) = value {
        number.as_u64()
    } else {
        None
    }
}

/// A member that is an integer from 0 of 64 bits with a sign.
#[tactic(auto, unfolding(crate::specs::Bodies::the))]
fn the_time(object: &Tree<'_>, name: &str) -> Option<i64>
    ensures { result ≡ the from_zero name.now (view object.now) }
{
    match object.get(name) {
        None => None,
        Some(value) => from_zero(value),
    }
}

fn from_zero(value: &Tree<'_>) -> Option<i64>
    ensures { result ≡ from_zero (view value.now) }
{
    match value.as_i64() {
        None => None,
        Some(number) => if number < 0 { None } else { Some(number) },
    }
}

/// A member that is the UUID text of an id.
#[tactic(auto, unfolding(crate::specs::Bodies::the))]
fn the_id(object: &Tree<'_>, name: &str) -> Option<u128>
    ensures { result ≡ the id name.now (view object.now) }
{
    match object.get(name) {
        None => None,
        Some(value) => match value.as_str() {
            None => None,
            Some(text) => id_in(text.as_bytes()),
        },
    }
}

/// The id whose UUID text the bytes are.
#[tactic(auto, unfolding(log_names::specs::Reading::id_in))]
fn id_in(bytes: &[u8]) -> Option<u128>
    ensures { result ≡ id_in bytes.now }
{
    let Ok(parsed) = Uuid::try_parse_ascii(bytes) else {
        return None;
    };
    let id = parsed.as_u128();
    if is_uuid_of(bytes, id) {
        Some(id)
    } else {
        None
    }
}

/// Whether the bytes are the UUID text of the id.
#[tactic(auto, unfolding(log_names::specs::Texts::uuid_text))]
fn is_uuid_of(bytes: &[u8], id: u128) -> bool
    ensures { result ≡ bytes_eq (uuid_text id) bytes.now }
{
    let mut buffer = Uuid::encode_buffer();
    let text = Uuid::from_u128(id).hyphenated().encode_lower(&mut buffer);
    text.as_bytes() == bytes
}
