ghost use Rattle.std.specs.Prelude.{◌≡◌, ◌<◌, ◌+◌, ⊤, IfOk, length};

use crate::{HttpService, Responder};
use desk_links::{Acceptor, MemoryAcceptor};
use http_responses::{StatusCode, response};
use httparse::spans::{HeaderSpan, RequestSpans};
use request_session::serve_requests;
use std::alloc::{AllocError, Global};
use std::test::Fail;

/// Answers each request with its own body.
#[derive(Drop)]
struct Echo;

impl Responder for Echo {
    ghost State = { Unit {0} };

    ghost state = { λ _. tt };

    ghost Replies = { λ _ _ _ _. ⊤ };

    fn respond(
        &mut self,
        alloc: Global,
        _front: &[u8],
        _fields: &[HeaderSpan],
        _head: RequestSpans,
        body: &[u8],
    ) -> Result<Vec<u8>, AllocError> {
        response(alloc, StatusCode::Ok, None, body)
    }
}

/// One connection in memory that brings these bytes, and is current.
#[tactic(auto, using(crate::proofs::Brought::brought))]
fn one_connection(alloc: Global, bytes: &[u8]) -> Result<MemoryAcceptor, AllocError>
    ensures { IfOk result (λ net. 0 < length net.connections.before + length net.connections.coming) }
{
    let mut connections = Vec::new(alloc);
    connections.push(Vec::from_slice(alloc, bytes)?)?;
    let mut net = MemoryAcceptor::new(alloc, connections, Vec::new(alloc), Vec::new(alloc))?;
    let _ = net.accept();
    Ok(net)
}

/// What is written on a connection that brings these bytes.
#[tactic(auto, using(crate::proofs::Brought::served))]
fn answered(alloc: Global, bytes: &[u8]) -> Result<Vec<u8>, AllocError> {
    let mut net = one_connection(alloc, bytes)?;
    let mut service = HttpService::new(Echo);
    let _ = serve_requests(alloc, &mut net, &mut service);
    Vec::from_slice(alloc, net.written(0))
}

/// The statuses of these replies, one behind the other.
fn statuses(alloc: Global, bytes: &[u8]) -> Result<String, AllocError> {
    let mut found = String::new(alloc);
    let text = answered(alloc, bytes)?;
    let text = String::from_utf8_lossy(alloc, &text)?;
    for word in text.as_str().split("HTTP/1.1 ").skip(1) {
        if let Some(status) = word.get(..4) {
            found.push_str(status)?;
        }
    }
    Ok(found)
}

/// Bytes of connections, and the statuses of what they are answered with.
const CONNECTIONS: [(&[u8], &str); 26] = [
    (b"", ""),
    (b"GET / HTTP/1.1\r\n", "400 "),
    (b"GET / HTTP/1.1\r\n\r\n", "200 "),
    (b"GET / HTTP/1.1\n\n", "200 "),
    (b"\r\n\r\nGET / HTTP/1.1\r\n\r\n", "200 "),
    (b"GET / HTTP/1.1\r\n\r\n\r\n", "200 400 "),
    (b"GET / HTTP/1.1\r\n\r\nGET / HTTP/1.1\r\n\r\n", "200 200 "),
    (b"GET / HTTP/1.0\r\n\r\nGET / HTTP/1.0\r\n\r\n", "200 200 "),
    (
        b"GET / HTTP/1.1\r\nConnection: CLOSE\r\n\r\nGET / HTTP/1.1\r\n\r\n",
        "200 ",
    ),
    (
        b"GET / HTTP/1.1\r\nConnection: keep-alive, close\r\n\r\nGET / HTTP/1.1\r\n\r\n",
        "200 200 ",
    ),
    (
        b"GET / HTTP/1.1\r\nConnection: x\r\nConnection: close\r\n\r\nGET / HTTP/1.1\r\n\r\n",
        "200 200 ",
    ),
    (
        b"GET / HTTP/1.1\r\nConnection: close\r\nConnection: x\r\n\r\nGET / HTTP/1.1\r\n\r\n",
        "200 ",
    ),
    (b"GET /\xff HTTP/1.1\r\n\r\nGET / HTTP/1.1\r\n\r\n", "400 "),
    (b"GET  / HTTP/1.1\r\n\r\n", "400 "),
    (
        b"POST / HTTP/1.1\r\nContent-length: 003\r\n\r\nabcGET / HTTP/1.1\r\n\r\n",
        "200 200 ",
    ),
    (b"POST / HTTP/1.1\r\nContent-Length: 3\r\n\r\nab", "400 "),
    (b"POST / HTTP/1.1\r\nContent-Length: +3\r\n\r\nabc", "400 "),
    (b"POST / HTTP/1.1\r\nContent-Length:\r\n\r\nabc", "400 "),
    (
        b"POST / HTTP/1.1\r\nContent-Length: 3, 3\r\n\r\nabc",
        "400 ",
    ),
    (
        b"POST / HTTP/1.1\r\nContent-Length: 3\r\nContent-Length: 3\r\n\r\nabc",
        "400 ",
    ),
    (
        b"POST / HTTP/1.1\r\nContent-Length: 300001\r\nContent-Length: 3\r\n\r\nabc",
        "400 ",
    ),
    (
        b"POST / HTTP/1.1\r\nTransfer-Encoding: chunked\r\nContent-Length: 300001\r\n\r\n",
        "400 ",
    ),
    (
        b"POST / HTTP/1.1\r\nContent-Length: 300001\r\n\r\nGET / HTTP/1.1\r\n\r\n",
        "413 ",
    ),
    (
        b"GET / HTTP/1.1\r\nContent-Length: 99999999999999999999\r\n\r\n",
        "413 ",
    ),
    (b"POST / HTTP/1.1\r\n\r\nabc", "200 400 "),
    (
        b"POST / HTTP/1.1\r\nExpect: 100-continue\r\nContent-Length: 2\r\n\r\n{}",
        "200 ",
    ),
];

#[test]
fn connections_are_answered_by_the_rules_of_heads_and_bodies(rt: HostRuntime) -> Result<(), Fail> {
    for (bytes, expected) in CONNECTIONS {
        let found = statuses(rt.alloc(), bytes)?;
        assert!(rt; found.as_str() == expected);
    }
    Ok(())
}

/// A request with this many bytes in front of it and this many fields.
fn request(alloc: Global, front: usize, fields: usize) -> Result<Vec<u8>, AllocError> {
    let mut bytes = Vec::new(alloc);
    for _ in 0..front {
        bytes.push(b'\n')?;
    }
    bytes.extend_from_slice(b"GET / HTTP/1.1\r\n")?;
    for _ in 0..fields {
        bytes.extend_from_slice(b"a: b\r\n")?;
    }
    bytes.extend_from_slice(b"\r\n")?;
    Ok(bytes)
}

/// The head of no field has 18 bytes behind the empty lines.
#[test]
fn heads_have_limits(rt: HostRuntime) -> Result<(), Fail> {
    let alloc = rt.alloc();
    for (front, fields, expected) in [
        (0, 32, "200 "),
        (0, 33, "400 "),
        (8174, 0, "200 "),
        (8175, 0, "400 "),
    ] {
        let bytes = request(alloc, front, fields)?;
        let found = statuses(alloc, &bytes)?;
        assert!(rt; found.as_str() == expected);
    }
    Ok(())
}

#[test]
fn the_thousandth_reply_ends_the_connection(rt: HostRuntime) -> Result<(), Fail> {
    let alloc = rt.alloc();
    let mut bytes = Vec::new(alloc);
    for _ in 0..1001 {
        bytes.extend_from_slice(b"GET / HTTP/1.1\r\n\r\n")?;
    }
    let found = statuses(alloc, &bytes)?;
    assert_eq!(rt; found.len(), 4000);
    Ok(())
}

#[test]
fn a_reply_has_the_bytes_of_its_body(rt: HostRuntime) -> Result<(), Fail> {
    let found = answered(
        rt.alloc(),
        b"POST / HTTP/1.1\r\nContent-Length: 5\r\n\r\nhello",
    )?;
    let expected =
        b"HTTP/1.1 200 OK\r\nContent-Type: application/json\r\nContent-Length: 5\r\n\r\nhello";
    assert!(rt; found.as_slice() == expected.as_slice());
    Ok(())
}
