//! Requests that are read from a connection, and responses that are written.

use http_wire::{Wire, WireError, put_response};
use lake_io::{MemSink, MemSource, WriteFault};
use std::alloc::{AllocError, Global};
use std::fmt::Write as _;
use std::test::Fail;

const LIMIT: u64 = 1000;

fn add_error(text: &mut String, error: WireError) -> Result<(), AllocError> {
    match error {
        WireError::Refuse { status } => write!(text, "refuse {status}"),
        WireError::Cut => text.push_str("cut"),
        WireError::ReadFault => text.push_str("read fault"),
        WireError::TooMuch => text.push_str("too much"),
        WireError::Memory => text.push_str("memory"),
    }
}

/// Each request as its method, its target and the length of its body, and the end. An error is asked for twice.
fn reading(
    alloc: Global,
    bytes: &[u8],
    piece: usize,
    fails: Vec<u64>,
) -> Result<String, AllocError> {
    let mut source = MemSource::new(Vec::from_slice(alloc, bytes)?, piece.max(1), fails);
    let mut wire = Wire::new(alloc)?;
    let mut text = String::new(alloc);
    for _ in 0..20u8 {
        match wire.next_request(&mut source, LIMIT) {
            Ok(Some(request)) => {
                let size = request.body.len();
                text.push_str(request.method.as_str())?;
                text.push_str(" ")?;
                text.push_str(request.target.as_str())?;
                write!(text, " {size}, ")?;
            }
            Ok(None) => {
                text.push_str("end")?;
                return Ok(text);
            }
            Err(error) => {
                add_error(&mut text, error)?;
                match wire.next_request(&mut source, LIMIT) {
                    Err(again) if again == error => {}
                    _ => text.push_str(" and then another answer")?,
                }
                return Ok(text);
            }
        }
    }
    Ok(text)
}

/// The bytes of a connection, and what is read of them.
const REQUESTS: [(&str, &str); 22] = [
    ("", "end"),
    ("GET / HTTP/1.1\r\n\r\n", "GET / 0, end"),
    ("GET / HTTP/1.1\n\n", "GET / 0, end"),
    (
        "\r\n\r\nDELETE /a?b=c HTTP/1.1\r\nHost: x\r\n\r\n",
        "DELETE /a?b=c 0, end",
    ),
    (
        "POST /a HTTP/1.1\r\ncontent-LENGTH: 3 \r\n\r\nabcPUT /b HTTP/1.1\r\nContent-Length: 0\r\n\r\nGET /c HTTP/1.1\r\n\r\n",
        "POST /a 3, PUT /b 0, GET /c 0, end",
    ),
    (
        "PUT /tables/t1/log/_staged_commits/00000000000000000001.22222222-2222-4222-8222-222222222222.json HTTP/1.1\r\nHost: localhost\r\nContent-Length: 341\r\n\r\n{\"commitInfo\":{\"timestamp\":1999,\"operation\":\"WRITE\",\"operationParameters\":{\"mode\":\"Append\"},\"share\":0.5,\"inCommitTimestamp\":2000,\"txnId\":\"33333333-3333-4333-8333-333333333333\"}}\n{\"add\":{\"path\":\"part-00000.parquet\",\"partitionValues\":{},\"size\":1024,\"modificationTime\":1999,\"dataChange\":true,\"stats\":\"{\\\"numRecords\\\":3}\",\"tags\":{},\"extra\":[1]}}POST /tables/t1/commits HTTP/1.1\r\nHost: localhost\r\nContent-Length: 80\r\n\r\n{\"commit\":{\"id\":\"22222222-2222-4222-8222-222222222222\",\"time\":2000,\"version\":1}}",
        "PUT /tables/t1/log/_staged_commits/00000000000000000001.22222222-2222-4222-8222-222222222222.json 341, POST /tables/t1/commits 80, end",
    ),
    (
        "GET / HTTP/1.1\r\nContent-Length: 0000000002\r\n\r\nxyGET",
        "GET / 2, cut",
    ),
    (
        "GET / HTTP/1.0\r\nTransfer-Encoding: chunked\r\n\r\n",
        "refuse 505",
    ),
    (
        "POST / HTTP/1.1\r\nTRANSFER-encoding: chunked\r\nContent-Length: +5\r\n\r\n",
        "refuse 501",
    ),
    (
        "POST / HTTP/1.1\r\nContent-Length: 5\r\nContent-Length: 5\r\n\r\n",
        "refuse 400",
    ),
    (
        "POST / HTTP/1.1\r\nContent-Length: +5\r\n\r\n",
        "refuse 400",
    ),
    (
        "POST / HTTP/1.1\r\nContent-Length: 00000000005\r\n\r\n",
        "refuse 400",
    ),
    ("POST / HTTP/1.1\r\nContent-Length: \r\n\r\n", "refuse 400"),
    ("POST / HTTP/1.1\r\n\r\n", "refuse 411"),
    (
        "PUT / HTTP/1.1\r\nX-Content-Length: 5\r\n\r\n",
        "refuse 411",
    ),
    (
        "GET / HTTP/1.1\r\nContent-Length: 1001\r\n\r\n",
        "refuse 413",
    ),
    ("GET / HTTP/1.1\r\nno colon\r\n\r\n", "refuse 400"),
    ("GET /\r\n", "refuse 400"),
    ("GET / HTTP/2.0\r\n\r\n", "refuse 400"),
    ("GET /a HTTP/1.1\r\n\r\n!\" x", "GET /a 0, refuse 400"),
    ("\r\n", "cut"),
    ("GET / HTTP/1.1\r\n\r\n\r\n", "GET / 0, cut"),
];

#[test]
fn reads_requests_in_any_pieces(rt: HostRuntime) -> Result<(), Fail> {
    for (bytes, want) in REQUESTS {
        for piece in [1, 2, 7, 65536] {
            let text = reading(rt.alloc(), bytes.as_bytes(), piece, Vec::new(rt.alloc()))?;
            assert!(rt; text.as_str() == want, "{bytes:?} in pieces of {piece}");
        }
    }
    Ok(())
}

#[test]
fn ends_inside_a_request(rt: HostRuntime) -> Result<(), Fail> {
    let whole = b"POST /tables/t1/commits HTTP/1.1\r\nContent-Length: 4\r\nHost: h\r\n\r\nbody";
    for n in 1..whole.len() {
        let text = reading(rt.alloc(), &whole[..n], 65536, Vec::new(rt.alloc()))?;
        assert!(rt; text.as_str() == "cut", "after {n} bytes");
    }
    let text = reading(rt.alloc(), whole, 10, vec![in rt.alloc(); 3]?)?;
    assert!(rt; text.as_str() == "read fault");
    Ok(())
}

/// A request with so many header lines, of which each has so many bytes with its line end.
fn long_head(alloc: Global, lines: usize, size: usize) -> Result<String, AllocError> {
    let mut text = String::from_str(alloc, "GET / HTTP/1.1\r\n")?;
    for _ in 0..lines {
        text.push_str("a:")?;
        for _ in 4..size {
            text.push_str("x")?;
        }
        text.push_str("\r\n")?;
    }
    text.push_str("\r\n")?;
    Ok(text)
}

/// The number of header lines, the length of each, and what is read.
const HEADS: [(usize, usize, &str); 5] = [
    (64, 5, "GET / 0, end"),
    (65, 5, "refuse 431"),
    (1, 16366, "GET / 0, end"),
    (1, 16367, "refuse 431"),
    (2, 16000, "refuse 431"),
];

#[test]
fn heads_have_limits(rt: HostRuntime) -> Result<(), Fail> {
    for (lines, size, want) in HEADS {
        let head = long_head(rt.alloc(), lines, size)?;
        for piece in [1000, 65536] {
            let text = reading(rt.alloc(), head.as_bytes(), piece, Vec::new(rt.alloc()))?;
            assert!(rt; text.as_str() == want, "{lines} lines of {size}");
        }
    }
    Ok(())
}

#[test]
fn writes_responses(rt: HostRuntime) -> Result<(), Fail> {
    let mut sink = MemSink::new(rt.alloc(), Vec::new(rt.alloc()));
    assert!(rt; put_response(&mut sink, 200, true, false, b"{\"latest\":1,\"version\":1}").is_ok());
    assert!(rt; put_response(&mut sink, 404, false, true, b"").is_ok());
    assert!(rt; put_response(&mut sink, 418, true, false, b"x").is_ok());
    let want =
        b"HTTP/1.1 200 OK\r\nContent-Type: application/json\r\nContent-Length: 24\r\n\r\n{\"latest\":1,\"version\":1}HTTP/1.1 404 Not Found\r\nContent-Type: application/octet-stream\r\nContent-Length: 0\r\nConnection: close\r\n\r\nHTTP/1.1 418 \r\nContent-Type: application/json\r\nContent-Length: 1\r\n\r\nx";
    assert!(rt; sink.written() == want.as_slice());

    let mut failing = MemSink::new(rt.alloc(), vec![in rt.alloc(); 2]?);
    assert!(rt;
        put_response(&mut failing, 431, true, true, b"{\"error\":\"http\"}") == Err(WriteFault)
    );
    let head =
        b"HTTP/1.1 431 Request Header Fields Too Large\r\nContent-Type: application/json\r\nContent-Length: 16\r\nConnection: close\r\n\r\n";
    assert!(rt; failing.written() == head.as_slice());
    Ok(())
}
