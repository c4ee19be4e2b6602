//! The target of a request, and what its method asks for.
ghost use Rattle.std.specs.Prelude.{◌≡◌, ◌≤◌, length, option_map};
ghost use Rattle.std.specs.List.{list_any};
ghost use Rattle.http_calls.specs.Targets.{after, asked_by, file_of, is_question, is_segment, named_file, place_of, put_of, segment_target, table_target, target_of, to_slash};

use log_names::LogName;
use std::str;

/// What of a table is meant.
#[derive(Clone, Copy)]
pub(crate) enum Place {
    /// Its commits.
    Commits,
    /// A commit or a checkpoint of its log.
    File(LogName),
}

/// What is asked for, the body left aside.
#[derive(Clone, Copy)]
pub(crate) enum Asked {
    Commits,
    Post,
    Stage(u64, u128),
    Publish(u64),
    Get(LogName),
}

/// The segment of the table as it is written, and what of the table is meant.
#[tactic(auto, unfolding(crate::specs::Targets::target_of))]
pub(crate) fn target_of(target: &[u8]) -> Option<(&[u8], Place)>
    ensures { option_map (λ t. record { id = t.0.now; place = t.1 }) result ≡ target_of target.now }
{
    match after(target, b"/tables/") {
        None => None,
        Some(path) => table_target(path),
    }
}

fn table_target(path: &[u8]) -> Option<(&[u8], Place)>
    ensures { option_map (λ t. record { id = t.0.now; place = t.1 }) result ≡ table_target path.now }
{
    let (id, rest) = path.split_at(to_slash(path));
    segment_target(id, rest)
}

#[tactic(auto, unfolding(crate::specs::Targets::segment_target))]
fn segment_target<'b>(id: &'b [u8], rest: &[u8]) -> Option<(&'b [u8], Place)>
    ensures { option_map (λ t. record { id = t.0.now; place = t.1 }) result ≡ segment_target id.now rest.now }
{
    if !is_segment(id) {
        return None;
    }
    match place_of(rest) {
        None => None,
        Some(place) => Some((id, place)),
    }
}

/// What follows the front, where the bytes begin with it.
#[tactic(auto, unfolding(crate::specs::Targets::after))]
fn after<'b>(bytes: &'b [u8], front: &[u8]) -> Option<&'b [u8]>
    ensures { option_map (λ rest. rest.now) result ≡ after front.now bytes.now }
{
    if bytes.len() < front.len() {
        return None;
    }
    let (head, rest) = bytes.split_at(front.len());
    if head == front { Some(rest) } else { None }
}

/// The number of bytes before the first slash.
fn to_slash(bytes: &[u8]) -> usize
    ensures value { result ≡ to_slash bytes.now }
    ensures within { result ≤ length bytes.now }
{
    let mut len = 0;
    while len < bytes.len() && bytes[len] != b'/' {
        len += 1;
    }
    len
}

/// Whether the bytes are a segment of a path, without a query.
#[tactic(auto, unfolding(crate::specs::Targets::is_segment))]
fn is_segment(id: &[u8]) -> bool
    ensures { result ≡ is_segment id.now }
{
    !id.is_empty() && !has_question(id)
}

fn has_question(id: &[u8]) -> bool
    ensures { result ≡ list_any is_question id.now }
{
    id.iter().any(|b| *b == b'?')
}

/// What follows the segment of the table.
#[tactic(auto, unfolding(crate::specs::Targets::place_of))]
fn place_of(rest: &[u8]) -> Option<Place>
    ensures { result ≡ place_of rest.now }
{
    if rest == b"/commits".as_slice() {
        return Some(Place::Commits);
    }
    match after(rest, b"/log/") {
        None => None,
        Some(name) => file_of(name),
    }
}

/// The file of the log whose name is written so.
#[tactic(auto, unfolding(crate::specs::Targets::file_of))]
fn file_of(bytes: &[u8]) -> Option<Place>
    ensures { result ≡ file_of bytes.now }
{
    match str::from_utf8(bytes) {
        Ok(text) => named_file(LogName::parse(text)),
        Err(_) => None,
    }
}

fn named_file(name: LogName) -> Option<Place>
    ensures { result ≡ named_file name }
{
    match name {
        LogName::Published(_) | LogName::Staged(_, _) | LogName::Checkpoint(_, _) => {
            Some(Place::File(name))
        }
        LogName::Parquet(_) | LogName::Other => None,
    }
}

/// What the method asks for, where the place has it.
#[tactic(auto, unfolding(crate::specs::Targets::asked_by))]
pub(crate) fn asked_by(place: Place, method: &str) -> Option<Asked>
    ensures { result ≡ asked_by place method.now }
{
    match place {
        Place::Commits => match method {
            "GET" => Some(Asked::Commits),
            "POST" => Some(Asked::Post),
            _ => None,
        },
        Place::File(name) => match method {
            "GET" => Some(Asked::Get(name)),
            "PUT" => put_of(name),
            _ => None,
        },
    }
}

fn put_of(name: LogName) -> Option<Asked>
    ensures { result ≡ put_of name }
{
    match name {
        LogName::Published(version) => Some(Asked::Publish(version)),
        LogName::Staged(version, id) => Some(Asked::Stage(version, id)),
        LogName::Checkpoint(_, _) | LogName::Parquet(_) | LogName::Other => None,
    }
}
