//! Responses.
ghost use Rattle.std.specs.Prelude.{◌≡◌, ◌+◌, ◌≤◌, ◌++◌, length, decimal, MatchResult, OnOk};
ghost use Rattle.arrayvec.specs.ArrayString.{array_string_len};
ghost use Rattle.lake_io.specs.Causes.{HasCause};
ghost use Rattle.lake_io.specs.Told.{told, WritesSome};
ghost use Rattle.http_wire.specs.Responses.{content_type, head_end, header_lines, reason, response, status_line};

use arrayvec::ArrayString;
use itoa::Buffer;
use lake_io::{Sink, WriteFault, put_all};

/// No head of a response is longer.
const HEAD_ROOM: usize = 192;

/// The reason phrase of a status, by RFC 9110, section 15, and RFC 6585, sections 4 and 5. Statuses that are not answered have none.
#[tactic(auto, unfolding(crate::specs::Responses::reason))]
fn reason_of(status: u16) -> &'static str
    ensures text { result.now ≡ reason status }
    ensures short { length result.now ≤ 31 }
{
    match status {
        200 => "OK",
        201 => "Created",
        400 => "Bad Request",
        404 => "Not Found",
        405 => "Method Not Allowed",
        409 => "Conflict",
        411 => "Length Required",
        413 => "Content Too Large",
        422 => "Unprocessable Content",
        429 => "Too Many Requests",
        431 => "Request Header Fields Too Large",
        500 => "Internal Server Error",
        501 => "Not Implemented",
        503 => "Service Unavailable",
        505 => "HTTP Version Not Supported",
        _ => "",
    }
}

#[tactic(auto, unfolding(crate::specs::Responses::content_type))]
fn type_of(json: bool) -> &'static str
    ensures text { result.now ≡ content_type json }
    ensures short { length result.now ≤ 24 }
{
    if json {
        "application/json"
    } else {
        "application/octet-stream"
    }
}

#[tactic(auto, unfolding(crate::specs::Responses::head_end))]
fn end_of(close: bool) -> &'static str
    ensures text { result.now ≡ head_end close }
    ensures short { length result.now ≤ 23 }
{
    if close {
        "\r\nConnection: close\r\n\r\n"
    } else {
        "\r\n\r\n"
    }
}

/// Adds the decimal digits of a number.
fn push_number(head: &mut ArrayString<HEAD_ROOM>, n: u64)
    requires { array_string_len head.old + 20 ≤ HEAD_ROOM }
    ensures bytes { head.new.bytes ≡ head.old.bytes ++ decimal n }
    ensures short { array_string_len head.new ≤ array_string_len head.old + 20 }
{
    let mut buffer = Buffer::new();
    head.push_str(buffer.format(n));
}

#[tactic(auto, using(std::proofs::Common::append_assoc), unfolding(crate::specs::Responses::status_line))]
fn push_status_line(head: &mut ArrayString<HEAD_ROOM>, status: u16)
    requires { array_string_len head.old ≡ 0 }
    ensures bytes { head.new.bytes ≡ head.old.bytes ++ status_line status }
    ensures short { array_string_len head.new ≤ 61 }
{
    head.push_str("HTTP/1.1 ");
    push_number(head, u64::from(status));
    head.push_str(" ");
    head.push_str(reason_of(status));
}

#[tactic(auto, using(std::proofs::Common::append_assoc), unfolding(crate::specs::Responses::header_lines))]
fn push_header_lines(head: &mut ArrayString<HEAD_ROOM>, json: bool, size: u64)
    requires { array_string_len head.old ≤ 61 }
    ensures bytes { head.new.bytes ≡ head.old.bytes ++ header_lines json size }
    ensures short { array_string_len head.new ≤ 139 }
{
    head.push_str("\r\nContent-Type: ");
    head.push_str(type_of(json));
    head.push_str("\r\nContent-Length: ");
    push_number(head, size);
}

/// Writes a response: the status with its reason phrase, the type and the length of the body, that the connection ends where
/// `close` is true, and the body. Where a write fails, a part was written that lacks at least the last byte. It takes no memory.
pub fn put_response<O: Sink>(
    sink: &mut O,
    status: u16,
    json: bool,
    close: bool,
    body: &[u8],
) -> Result<(), WriteFault>
    ensures puts { MatchResult result (λ _. O.written sink.new ≡ O.written sink.old ++ told O.tells (response status json close body.now)) (λ _. WritesSome O.tells (O.written sink.old) (response status json close body.now) (O.written sink.new)) }
    ensures cause { HasCause (O.faults sink.old) (O.faults sink.new) result }
    ensures counts { OnOk result (O.faults sink.new ≡ O.faults sink.old) }
{
    let mut head = ArrayString::<HEAD_ROOM>::new();
    push_status_line(&mut head, status);
    push_header_lines(&mut head, json, body.len() as u64);
    head.push_str(end_of(close));
    put_all(sink, head.as_str().as_bytes())?;
    put_all(sink, body)
}
