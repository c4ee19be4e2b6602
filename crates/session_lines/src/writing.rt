//! Writing a reply.
ghost use Rattle.std.specs.Prelude.{◌≡◌, IfOk};
ghost use Rattle.serde_json.specs.Written.{compact_text};
ghost use Rattle.session_lines.specs.Replies.{IsShort, reply_data, reply_text_of};

use crate::loaded::loaded_text;
use crate::reply::Reply;
use crate::text::put_reply;
use json::Writer;
use std::alloc::{AllocError, Global};

/// The text of a reply: one JSON object, its members in byte order of their names, ended by LF; refused for want of memory alone.
#[tactic(auto, unfolding(crate::specs::Replies::reply_text_of))]
pub fn reply_text(alloc: Global, reply: &Reply) -> Result<Vec<u8>, AllocError>
    ensures { IfOk result (λ v. v.items ≡ reply_text_of reply.now) }
{
    let mut text = object_text(alloc, reply)?;
    text.push(b'\n')?;
    Ok(text)
}

/// The object alone.
fn object_text(alloc: Global, reply: &Reply) -> Result<Vec<u8>, AllocError>
    ensures { IfOk result (λ v. v.items ≡ compact_text (reply_data reply.now)) }
{
    match reply {
        Reply::Loaded(snapshot) => loaded_text(
            alloc,
            snapshot.latest,
            &snapshot.state,
            snapshot.time,
            snapshot.version,
        ),
        _ => short_text(alloc, reply),
    }
}

/// The object of a reply that is no Loaded.
fn short_text(alloc: Global, reply: &Reply) -> Result<Vec<u8>, AllocError>
    ensures { IfOk result (λ v. IsShort reply.now → v.items ≡ compact_text (reply_data reply.now)) }
{
    let mut out = Writer::new(Vec::new(alloc));
    put_reply(&mut out, reply)?;
    Ok(out.into_inner())
}
