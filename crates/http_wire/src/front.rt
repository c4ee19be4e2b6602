//! The request at the front of the bytes of a connection.
ghost use Rattle.std.specs.Prelude.{◌≡◌, ◌+◌, ◌≤◌, IfOk, length, take, IsUtf8};
ghost use Rattle.http_wire.specs.Found.{AreTexts, FindsHead, FindsRequest, IsTaken};
ghost use Rattle.http_wire.specs.Head.{size_of};
ghost use Rattle.httparse.specs.Grammar.{RequestHead};
ghost use Rattle.httparse.specs.Spans.{IsRequestAt, IsRequestWithin};
ghost use Rattle.http_wire.specs.Requests.{head_limit};

use crate::head::find_body_size;
use crate::request::{Request, WireError};
use action_types::Name;
use httparse::Status;
use httparse::spans::{HeaderSpan, RequestSpans, parse_request};
use std::alloc::{AllocError, Global};

/// The most bytes of a head.
const MAX_HEAD: usize = 16_384;

/// More headers than a head of so many bytes can have.
pub const HEADER_ROOM: usize = 8_192;

/// The bytes that a head may have.
fn head_room(bytes: &[u8]) -> &[u8]
    ensures { result.now ≡ take head_limit bytes.now }
{
    if bytes.len() < MAX_HEAD {
        bytes
    } else {
        &bytes[..MAX_HEAD]
    }
}

/// The head at the front, `None` for less than a head, or the status of the refusal.
fn find_head(bytes: &[u8], headers: &mut [HeaderSpan]) -> Result<Option<RequestSpans>, u16>
    requires { length headers.old ≡ HEADER_ROOM }
    ensures { FindsHead bytes.now headers.new result }
{
    let front = head_room(bytes);
    match parse_request(front, headers) {
        Ok(Status::Complete(spans)) => Ok(Some(spans)),
        Ok(Status::Partial) => {
            if bytes.len() < MAX_HEAD {
                Ok(None)
            } else {
                Err(431)
            }
        }
        Err(httparse::Error::TooManyHeaders) => Err(431),
        Err(_) => Err(400),
    }
}

/// A name of these bytes.
fn name_of(alloc: Global, bytes: &[u8]) -> Result<Name, AllocError>
    requires { IsUtf8 bytes.now }
    ensures { IfOk result (λ n. n ≡ bytes.now) }
{
    match str::from_utf8(bytes) {
        Ok(text) => Name::from_str(alloc, text),
        Err(_) => unreachable!(),
    }
}

/// The size of the body of the head that the spans cover, or the status of the refusal.
fn head_size(
    limit: u64,
    front: &[u8],
    headers: &[HeaderSpan],
    spans: RequestSpans,
) -> Result<u64, u16>
    requires { IsRequestWithin front.now headers.now spans }
    ensures { (h : RequestHead) → IsRequestAt front.now headers.now spans h → result ≡ size_of limit h }
{
    let method = spans.method.of(front);
    find_body_size(
        limit,
        front,
        method,
        spans.version,
        &headers[..spans.headers],
    )
}

/// The request of a head in `front` and a body of this size after the head. It has so many bytes.
fn take_whole(
    alloc: Global,
    front: &[u8],
    bytes: &[u8],
    spans: RequestSpans,
    size: usize,
) -> Result<(Request, usize), AllocError>
    requires head { AreTexts front.now spans }
    requires fits { spans.len + size ≤ length bytes.now }
    ensures { IfOk result (λ found. IsTaken front.now bytes.now spans size found) }
{
    let method = name_of(alloc, spans.method.of(front))?;
    let target = name_of(alloc, spans.path.of(front))?;
    let end = spans.len + size;
    let body = Vec::from_slice(alloc, &bytes[spans.len..end])?;
    Ok((
        Request {
            method,
            target,
            body,
        },
        end,
    ))
}

/// The request at the front and how many bytes it has. `None` for less than a request.
pub fn find_request(
    alloc: Global,
    bytes: &[u8],
    headers: &mut [HeaderSpan],
    limit: u64,
) -> Result<Option<(Request, usize)>, WireError>
    requires { length headers.old ≡ HEADER_ROOM }
    ensures { FindsRequest limit bytes.now result }
{
    let front = head_room(bytes);
    let spans = match find_head(bytes, headers) {
        Ok(Some(spans)) => spans,
        Ok(None) => return Ok(None),
        Err(status) => return Err(WireError::Refuse { status }),
    };
    let size = match head_size(limit, front, headers, spans) {
        Ok(size) => size,
        Err(status) => return Err(WireError::Refuse { status }),
    };
    if ((bytes.len() - spans.len) as u64) < size {
        return Ok(None);
    }
    Ok(Some(take_whole(alloc, front, bytes, spans, size as usize)?))
}
