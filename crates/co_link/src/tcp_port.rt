//! The real port. What its connections hold isn't told.
ghost use Rattle.std.specs.Prelude.{ℕ, None};
ghost use Rattle.co_link.specs.Ports.{PortTells};
ghost use Rattle.co_link.specs.TcpPort.{calls_told};

use crate::{Duplex, Failed, Port, Sink, Source};
use std::io::{Read, Write};
use std::net::{Ipv4Addr, Net, OpenListener, OpenStream, TcpListener};

// How a port was called, and what that left.
#[derive(Clone, Copy)]
struct PortCalls {
    listening: bool,
    listens: u64,
    accepts: u64,
    last_port: Option<u16>,
    connected: bool,
}

/// A port of the system, at all its IPv4 addresses. It tells how it was called, and nothing of
/// content.
pub struct TcpPort<'a, R: Net> {
    net: &'a R,
    listener: Option<R::Listener>,
    current: Option<R::Stream>,
    calls: PortCalls,
    take_faults: u64,
    put_faults: u64,
    port_faults: u64,
}

impl<R: Net> Drop for TcpPort<'_, R> {
    fn drop(self) {
        let TcpPort {
            net: _,
            listener: _,
            current: _,
            calls: _,
            take_faults: _,
            put_faults: _,
            port_faults: _,
        } = self;
    }
}

impl<'a, R: Net> TcpPort<'a, R> {
    /// A port that doesn't listen yet, with no failure so far.
    pub fn new(net: &'a R) -> Self {
        TcpPort {
            net,
            listener: None,
            current: None,
            calls: PortCalls {
                listening: false,
                listens: 0,
                accepts: 0,
                last_port: None,
                connected: false,
            },
            take_faults: 0,
            put_faults: 0,
            port_faults: 0,
        }
    }
}

impl<R: Net> Source for TcpPort<'_, R> {
    ghost left = { λ s. None };

    ghost faults = { λ s. s.take_faults };

    ghost Beside = { ℕ × PortTells × ℕ };

    ghost beside = { λ s. (s.put_faults, calls_told s.calls, s.port_faults) };

    fn take(&mut self, into: &mut [u8]) -> Result<usize, Failed> {
        if let Some(stream) = &mut self.current {
            if let Ok(count) = stream.read(into) {
                return Ok(count);
            }
        }
        self.take_faults = self.take_faults.saturating_add(1);
        Err(Failed)
    }
}

impl<R: Net> Sink for TcpPort<'_, R> {
    ghost put_so_far = { λ s. None };

    ghost faults = { λ s. s.put_faults };

    ghost Beside = { ℕ × PortTells × ℕ };

    ghost beside = { λ s. (s.take_faults, calls_told s.calls, s.port_faults) };

    fn put(&mut self, piece: &[u8]) -> Result<(), Failed> {
        if let Some(stream) = &mut self.current {
            if stream.write_all(piece).is_ok() {
                return Ok(());
            }
        }
        self.put_faults = self.put_faults.saturating_add(1);
        Err(Failed)
    }
}

impl<R: Net> Duplex for TcpPort<'_, R> {
    ghost use Rattle.std.proofs.Common.{ap, refl};

    ghost Beside = { PortTells × ℕ };

    ghost beside = { λ s. (calls_told s.calls, s.port_faults) };

    ghost take_leaves_put = { λ a b e. refl };

    ghost take_leaves_faults = { λ a b e. ap (λ p. p.0) e };

    ghost take_leaves_beside = { λ a b e. ap (λ p. (p.1, p.2)) e };

    ghost put_leaves_left = { λ a b e. refl };

    ghost put_leaves_faults = { λ a b e. ap (λ p. p.0) e };

    ghost put_leaves_beside = { λ a b e. ap (λ p. (p.1, p.2)) e };
}

impl<R: Net> Port for TcpPort<'_, R> {
    ghost use Rattle.std.proofs.Common.{ap};
    ghost use Rattle.co_link.specs.TcpPort.{calls_told};

    ghost tells = { λ s. calls_told s.calls };

    ghost faults = { λ s. s.port_faults };

    fn listen(&mut self, port: u16) -> Result<(), Failed> {
        self.calls.listens = self.calls.listens.saturating_add(1);
        self.calls.last_port = Some(port);
        self.listener = None;
        self.calls.listening = false;
        match TcpListener::bind(self.net, (Ipv4Addr::UNSPECIFIED, port)) {
            Ok(listener) => {
                self.listener = Some(listener);
                self.calls.listening = true;
                Ok(())
            }
            Err(_) => {
                self.port_faults = self.port_faults.saturating_add(1);
                Err(Failed)
            }
        }
    }

    fn accept(&mut self) -> Result<(), Failed> {
        self.calls.accepts = self.calls.accepts.saturating_add(1);
        if let Some(listener) = &self.listener {
            if let Ok((stream, _)) = listener.accept() {
                // Without it the end of a response waits for the peer's answer to its front.
                let _ = stream.set_nodelay(true);
                self.current = Some(stream);
                self.calls.connected = true;
                return Ok(());
            }
        }
        self.port_faults = self.port_faults.saturating_add(1);
        Err(Failed)
    }

    ghost both_leave_port = { λ a b e. ap (λ p. p.0) e };

    ghost both_leave_port_faults = { λ a b e. ap (λ p. p.1) e };
}
