//! A program that is asked over TCP, on this machine alone.

ghost use Rattle.std.specs.Prelude.{◌≡◌, ◌≤◌, ◌<◌, length, take, IfOk, IfSome, OnErr, OnOk};
ghost use Rattle.octets.specs.Causes.{HasCause, each};
ghost use Rattle.octets.specs.Content.{with_end, with_front};
ghost use Rattle.edge_io.specs.Read.{IsAtEnd};
ghost use Rattle.links.specs.Untold.{no_bytes, no_port};

use crate::tcp_door::link_of;
use crate::{Peer, TcpLink};
use edge_io::{Failed, Sink, Source};
use std::io;
use std::net::{Ipv4Addr, Net, SocketAddrV4, TcpListener, TcpStream};

/// A program at a port of this machine, over TCP. It tells nothing. A read or a write before there is a connection is a
/// fault, and so is one that waits for 30 seconds without a byte.
#[derive(Drop)]
pub struct TcpPeer<'a, R> {
    net: &'a R,
    link: Option<TcpLink>,
    faults: u64,
}

impl<'a, R> TcpPeer<'a, R> {
    /// A peer that is not connected to.
    pub fn new(net: &'a R) -> TcpPeer<'a, R>
        ensures { result.faults ≡ 0 }
    {
        TcpPeer {
            net,
            link: None,
            faults: 0,
        }
    }
}

// A connection to the program at a port of this machine.
fn connect_to<R: Net<Listener = TcpListener, Stream = TcpStream>>(
    net: &R,
    port: u16,
) -> io::Result<TcpLink> {
    link_of(TcpStream::connect(net, SocketAddrV4::new(Ipv4Addr::LOCALHOST, port))?)
}

impl<'a, R: Net<Listener = TcpListener, Stream = TcpStream>> Peer for TcpPeer<'a, R> {
    ghost connected = { λ _. no_port };

    ghost left = { λ _. no_bytes };

    ghost given = { λ _. no_bytes };

    ghost faults = { λ s. s.faults };

    fn connect(&mut self, port: u16) -> Result<(), Failed>
        ensures port { OnOk result (IfSome no_port (λ at. at ≡ port)) }
        ensures failed { OnErr result (no_port ≡ no_port) }
        ensures cause { HasCause each self.old.faults self.new.faults result }
    {
        match connect_to(self.net, port) {
            Ok(link) => {
                self.link = Some(link);
                Ok(())
            }
            Err(_) => {
                self.faults = self.faults.saturating_add(1);
                Err(Failed)
            }
        }
    }

    fn write(&mut self, bytes: &[u8]) -> Result<usize, Failed>
        ensures bound { IfOk result (λ count. count ≤ length bytes.now) }
        ensures some { IfOk result (λ count. 0 < length bytes.now → 0 < count) }
        ensures bytes { IfOk result (λ count. no_bytes ≡ with_end no_bytes (take count bytes.now)) }
        ensures failed { OnErr result (no_bytes ≡ no_bytes) }
        ensures cause { HasCause each self.old.faults self.new.faults result }
    {
        if let Some(link) = &mut self.link {
            if let Ok(count) = link.sink.write(bytes) {
                return Ok(count);
            }
        }
        self.faults = self.faults.saturating_add(1);
        Err(Failed)
    }

    fn read(&mut self, buf: &mut [u8]) -> Result<usize, Failed>
        ensures bound { IfOk result (λ count. count ≤ length buf.new) }
        ensures bytes { IfOk result (λ count. no_bytes ≡ with_front (take count buf.new) no_bytes) }
        ensures end { IfOk result (λ count. count ≡ 0 → 0 < length buf.new → IsAtEnd no_bytes) }
        ensures failed { OnErr result (no_bytes ≡ no_bytes) }
        ensures cause { HasCause each self.old.faults self.new.faults result }
    {
        if let Some(link) = &mut self.link {
            if let Ok(count) = link.source.read(buf) {
                return Ok(count);
            }
        }
        self.faults = self.faults.saturating_add(1);
        Err(Failed)
    }
}
