//! What a text of the table is.
use crate::spoilt::spoilt_copy;
use action_fields::has_valid_fields;
use action_json::{BadCommit, Why, is_commit, push_body, read_commit, write_commit};
use action_types::Action;
use std::alloc::{AllocError, Global};
use std::str;

const INFO: &str = "{\"commitInfo\":{\"inCommitTimestamp\":1}}\n";

/// What reading the text gives, in words.
pub fn said(alloc: Global, line: &str) -> Result<String, AllocError> {
    let text = expanded(alloc, line)?;
    match read_commit(alloc, text.as_slice()) {
        Ok(actions) => written(alloc, actions.as_slice()),
        Err(BadCommit::At { line, why }) => flaw(alloc, line, &why),
        Err(BadCommit::Memory) => format!(in alloc; "memory"),
    }
}

/// The bytes of a line: `@` is a commitInfo line, `^` an LF, `~` the byte 255.
fn expanded(alloc: Global, line: &str) -> Result<Vec<u8>, AllocError> {
    let mut text = Vec::new(alloc);
    for byte in line.as_bytes() {
        match *byte {
            b'@' => text.extend_from_slice(INFO.as_bytes())?,
            b'^' => text.push(b'\n')?,
            b'~' => text.push(255)?,
            other => text.push(other)?,
        }
    }
    Ok(text)
}

/// How many actions there are, their canonical text with `^` for each LF, and the last one's body without `dataChange`.
fn written(alloc: Global, actions: &[Action]) -> Result<String, AllocError> {
    let count = actions.len();
    if !is_commit(actions) {
        return format!(in alloc; "{count} no commit");
    }
    if !have_equal_copies(actions)? {
        return format!(in alloc; "{count} copies differ");
    }
    if is_taken_spoilt(alloc, actions)? {
        return format!(in alloc; "{count} taken though spoilt");
    }
    let mut text = write_commit(alloc, actions)?;
    for byte in text.iter_mut() {
        if *byte == b'\n' {
            *byte = b'^';
        }
    }
    if let [.., last] = actions {
        push_body(alloc, &mut text, last, false)?;
    }
    match str::from_utf8(text.as_slice()) {
        Ok(text) => format!(in alloc; "{count} {text}"),
        Err(_) => format!(in alloc; "{count} no text"),
    }
}

/// Whether the copy of each action is equal to it.
fn have_equal_copies(actions: &[Action]) -> Result<bool, AllocError> {
    for action in actions {
        if action.copy()? != *action {
            return Ok(false);
        }
    }
    Ok(true)
}

/// Whether the list is taken for a commit without its first action, or an action of it for one that is read with a field spoilt.
fn is_taken_spoilt(alloc: Global, actions: &[Action]) -> Result<bool, AllocError> {
    if let [_, rest @ ..] = actions {
        if !rest.is_empty() && is_commit(rest) {
            return Ok(true);
        }
    }
    for action in actions {
        if let Some(spoilt) = spoilt_copy(alloc, action)? {
            if has_valid_fields(&spoilt) {
                return Ok(true);
            }
        }
    }
    Ok(false)
}

fn flaw(alloc: Global, line: u64, why: &Why) -> Result<String, AllocError> {
    match why {
        Why::Utf8 => format!(in alloc; "line {line}: Utf8"),
        Why::NotJson => format!(in alloc; "line {line}: NotJson"),
        Why::NotOneMember => format!(in alloc; "line {line}: NotOneMember"),
        Why::InfoNotFirst => format!(in alloc; "line {line}: InfoNotFirst"),
        Why::Field { kind, field } => {
            let kind = kind.name();
            let field = field.as_str();
            format!(in alloc; "line {line}: Field {kind} {field}")
        }
        Why::Double { kind, key } => {
            let kind = kind.name();
            let key = key.as_str();
            format!(in alloc; "line {line}: Double {kind} {key}")
        }
    }
}
