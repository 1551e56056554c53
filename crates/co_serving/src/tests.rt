//! What no clause says: that connections are served, in any pieces, and the bytes of some; and that
//! the port and the dial of the system meet.
ghost use Rattle.std.specs.Prelude.{◌≡◌, true, OnSome};

use super::*;
use co_http::{Conn, Head, TcpDial, Verb};
use co_link::{
    Bytes, Dial, FailingCalls, Link, LinkFault, MemoryConnection, MemorySink, MemorySource, Port,
    Reply, Request, Target, TcpPort,
};
use std::alloc::{AllocError, Global};
use std::process::Abort;
use std::test::Fail;

// Gives each body of four bytes back.
#[derive(Drop)]
struct Echo {
    alloc: Global,
}

impl Lengths for Echo {
    ghost wanted = { λ s target. 4 };

    fn request_length(&self, _target: Target) -> u64 {
        4
    }
}

impl Service for Echo {
    ghost steps = { λ s request reply t. Unit {0} };

    fn step(&mut self, request: &Request) -> Reply {
        match Bytes::copy_of(self.alloc, request.body.as_slice()) {
            Ok(body) => Reply { status: 200, body },
            Err(_) => Reply {
                status: 503,
                body: Bytes::new(self.alloc),
            },
        }
    }
}

// How this input is served in pieces of that size, and what is put.
fn serve_in(
    alloc: Global,
    input: &str,
    piece: usize,
    failing: &[u64],
) -> Result<(Served, Vec<u8>), AllocError> {
    let bytes = Vec::from_slice(alloc, input.as_bytes())?;
    let calls = FailingCalls::new(Vec::from_slice(alloc, failing)?);
    let source = MemorySource::new(bytes, piece.max(1), calls);
    let sink = MemorySink::new(alloc, 200_000, FailingCalls::none(alloc))?;
    let mut line = MemoryConnection::new(source, sink);
    let mut service = Echo { alloc };
    let served = serve_service(alloc, &mut service, &mut line);
    let output = Vec::from_slice(alloc, line.sink().as_slice())?;
    Ok((served, output))
}

// Serves an input in pieces of several sizes, and wants the same each time.
fn expect(
    rt: &impl Abort,
    alloc: Global,
    input: &str,
    requests: u32,
    ended: Ended,
    output: &str,
) -> Result<(), Fail> {
    for piece in [1, 7, 100_000] {
        let (served, put) = serve_in(alloc, input, piece, &[])?;
        assert_eq!(rt; served.requests, requests);
        assert_eq!(rt; served.ended, ended);
        assert_eq!(rt; put.as_slice(), output.as_bytes());
    }
    Ok(())
}

#[test]
fn connections_are_served(rt: HostRuntime) -> Result<(), Fail> {
    let alloc = rt.alloc();
    expect(
        &rt,
        alloc,
        "POST /keys HTTP/1.1\r\nContent-Length: 4\r\n\r\nseasPOST /score HTTP/1.0\ncontent-length: 0004\n\ntide",
        2,
        Ended::Closed,
        "HTTP/1.1 200 OK\r\nContent-Length: 4\r\n\r\nseasHTTP/1.1 200 OK\r\nContent-Length: 4\r\n\r\ntide",
    )?;
    expect(
        &rt,
        alloc,
        "POST /score HTTP/1.1\r\nContent-Length: 5\r\n\r\n",
        1,
        Ended::Refused { status: 400 },
        "HTTP/1.1 400 Bad Request\r\nContent-Length: 11\r\nConnection: close\r\n\r\nlength 4 5\n",
    )?;
    let (served, put) = serve_in(alloc, "GET", 9, &[0])?;
    assert_eq!(rt; served.ended, Ended::ReadFault);
    assert!(rt; put.is_empty());
    Ok(())
}

// The first port of a few that nobody has.
fn listen_somewhere<P: Port>(port: &mut P) -> Option<u16>
    ensures { OnSome result ((P.tells port.new).listening ≡ true) }
{
    for number in 47_370..47_420 {
        if port.listen(number).is_ok() {
            return Some(number);
        }
    }
    None
}

// The response is written before the request comes, so that one thread serves both ends.
#[test]
fn over_sockets(rt: HostRuntime) -> Result<(), Fail> {
    let alloc = rt.alloc();
    let mut port = TcpPort::new(&rt);
    let Some(number) = listen_somewhere(&mut port) else {
        return Err(Fail::from(LinkFault::Failed));
    };
    let mut link = TcpDial::new(&rt, alloc);
    link.dial("127.0.0.1", number)?;
    port.accept()?;
    let mut conn = Conn::new(alloc)?;
    conn.write_response(&mut port, 200, false, b"wind")?;
    let request = Request {
        target: Target::Score,
        body: Bytes::copy_of(alloc, b"sea")?,
    };
    let reply = link.exchange(request, 4)?;
    assert_eq!(rt; reply.body.as_slice(), b"wind".as_slice());
    assert_eq!(rt;
        conn.read_head(&mut port)?,
        Some(Head {
            method: Verb::Post,
            target: Some(Target::Score),
            length: Some(3),
        })
    );
    assert_eq!(rt;
        conn.read_body(alloc, &mut port, 3)?.as_slice(),
        b"sea".as_slice()
    );
    Ok(())
}
