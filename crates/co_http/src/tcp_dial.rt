//! The real link: it is dialled over TCP.
ghost use Rattle.std.specs.Prelude.{None, true};

use crate::{Conn, HttpLink};
use co_link::{Bytes, Dial, Dials, Link, LinkFailures, LinkFault, Reply, Request, StdStream};
use std::alloc::Global;
use std::net::{Net, OpenStream, TcpStream};

/// A link over a connection of the system. It is ready where its last dial answered Ok, and tells
/// nothing of content.
pub struct TcpDial<'a, R: Net> {
    net: &'a R,
    alloc: Global,
    link: Option<HttpLink<StdStream<R::Stream>>>,
    ready: bool,
    failures: LinkFailures,
    dials: Dials,
}

impl<R: Net> Drop for TcpDial<'_, R> {
    fn drop(self) {
        let TcpDial {
            net: _,
            alloc: _,
            link: _,
            ready: _,
            failures: _,
            dials: _,
        } = self;
    }
}

impl<'a, R: Net> TcpDial<'a, R> {
    /// A link that was never dialled.
    pub fn new(net: &'a R, alloc: Global) -> Self {
        TcpDial {
            net,
            alloc,
            link: None,
            ready: false,
            failures: LinkFailures::none(),
            dials: Dials::none(),
        }
    }
}

// A link to that host and port. It first takes its memory.
fn connect<R: Net>(
    net: &R,
    alloc: Global,
    host: &str,
    port: u16,
) -> Result<HttpLink<StdStream<R::Stream>>, LinkFault> {
    let Ok(name) = Bytes::copy_of(alloc, host.as_bytes()) else {
        return Err(LinkFault::OutOfMemory);
    };
    let Ok(conn) = Conn::new(alloc) else {
        return Err(LinkFault::OutOfMemory);
    };
    let Ok(stream) = TcpStream::connect(net, (host, port)) else {
        return Err(LinkFault::Failed);
    };
    // Without it the end of a request waits for the server's answer to its front.
    let _ = stream.set_nodelay(true);
    Ok(HttpLink::new(alloc, conn, StdStream::new(stream), name))
}

impl<R: Net> Link for TcpDial<'_, R> {
    ghost use Rattle.std.specs.Prelude.{None, ℕ, Option};
    ghost use Rattle.co_link.specs.Exchanges.{DialCall};
    ghost use Rattle.co_link.specs.Dialled.{last_call, dialling_of};

    ghost exchanges = { λ s. None };

    ghost faults = { λ s. s.failures.count };

    ghost last_failed = { λ s. last_call s.failures };

    ghost is_ready = { λ s. s.ready };

    ghost Beside = { ℕ × Option DialCall };

    ghost beside = { λ s. dialling_of s.dials };

    fn exchange(&mut self, request: Request, limit: u64) -> Result<Reply, LinkFault> {
        let target = request.target;
        if let Some(link) = &mut self.link {
            match link.exchange(request, limit) {
                Ok(reply) => return Ok(reply),
                Err(LinkFault::OutOfMemory) => return Err(LinkFault::OutOfMemory),
                Err(LinkFault::Failed) => {}
            }
        }
        self.failures.raise_at(target, limit);
        Err(LinkFault::Failed)
    }
}

impl<R: Net> Dial for TcpDial<'_, R> {
    ghost use Rattle.std.proofs.Common.{ap};
    ghost use Rattle.co_link.specs.Dialled.{dialled_last};

    ghost dials = { λ s. s.dials.count };

    ghost last_dial = { λ s. dialled_last s.dials };

    ghost exchange_leaves = { λ a b e. (ap (λ p. p.0) e, ap (λ p. p.1) e) };

    fn dial(&mut self, host: &str, port: u16) -> Result<(), LinkFault> {
        self.dials.add(self.alloc, host, port)?;
        self.ready = false;
        self.link = None;
        match connect(self.net, self.alloc, host, port) {
            Ok(link) => {
                self.link = Some(link);
                self.ready = true;
                Ok(())
            }
            Err(LinkFault::OutOfMemory) => Err(LinkFault::OutOfMemory),
            Err(LinkFault::Failed) => {
                self.failures.raise();
                Err(LinkFault::Failed)
            }
        }
    }
}
