//! A door over TCP, on this machine alone.

ghost use Rattle.std.specs.Prelude.{◌≡◌, None, IfOk, IsTrue};
ghost use Rattle.std.specs.Option.{is_some};
ghost use Rattle.octets.specs.Causes.{HasCause, each};

use crate::{Door, Link};
use edge_io::{Failed, Source, StdSink, StdSource};
use std::io;
use std::io::ErrorKind;
use std::net::{Ipv4Addr, Net, Shutdown, SocketAddrV4, TcpListener, TcpStream};
use std::time::Duration;

/// A connection over TCP. A read or a write that waits for 30 seconds without a byte is a fault.
pub type TcpLink = Link<StdSource<TcpStream>, StdSink<TcpStream>>;

// How long a read or a write may wait.
const WAIT_SECONDS: u64 = 30;

// How often a connection that did not come about is passed over, before it is a fault.
const TRIES: u32 = 10_000;

// How long and how often is waited for the rest of what a client sends that was answered before it was read.
const REST_SECONDS: u64 = 1;

const REST_READS: u32 = 256;

/// A listener at a port of this machine, to which programs on this machine alone can connect.
pub fn listen<R: Net<Listener = TcpListener, Stream = TcpStream>>(
    rt: &R,
    port: u16,
) -> Result<TcpListener, Failed> {
    match TcpListener::bind(rt, SocketAddrV4::new(Ipv4Addr::LOCALHOST, port)) {
        Ok(listener) => Ok(listener),
        Err(_) => Err(Failed),
    }
}

/// The connections that come to a listener. Several doors may stand at one listener: each connection comes in at one
/// of them. It tells nothing, and never answers that no link will come.
#[derive(Drop)]
pub struct TcpDoor {
    listener: TcpListener,
    given: Option<TcpStream>,
    faults: u64,
}

impl TcpDoor {
    /// A door at this listener.
    pub fn at(listener: &TcpListener) -> Result<TcpDoor, Failed> {
        match listener.try_clone() {
            Ok(listener) => Ok(TcpDoor {
                listener,
                given: None,
                faults: 0,
            }),
            Err(_) => Err(Failed),
        }
    }
}

/// The two ends of a connection, with its limit in time.
pub(crate) fn link_of(stream: TcpStream) -> io::Result<TcpLink> {
    let wait = Some(Duration::from_secs(WAIT_SECONDS));
    stream.set_read_timeout(wait)?;
    stream.set_write_timeout(wait)?;
    let reading = stream.try_clone()?;
    Ok(Link {
        source: StdSource::new(reading),
        sink: StdSink::new(stream),
    })
}

// Waits until a client that still sends has read its answer: a connection that is closed over unread bytes may lose
// what was written to it.
fn end(stream: &TcpStream, source: &mut StdSource<TcpStream>) -> io::Result<()> {
    let mut buffer = [0; 4096];
    stream.set_nonblocking(true)?;
    match source.read(&mut buffer) {
        Ok(count) if count > 0 => {}
        _ => return Ok(()),
    }
    stream.shutdown(Shutdown::Write)?;
    stream.set_nonblocking(false)?;
    stream.set_read_timeout(Some(Duration::from_secs(REST_SECONDS)))?;
    for _ in 0..REST_READS {
        match source.read(&mut buffer) {
            Ok(count) if count > 0 => {}
            _ => break,
        }
    }
    Ok(())
}

impl TcpDoor {
    // The next connection that comes about.
    fn accept(&mut self) -> io::Result<TcpLink>
        ensures { self.new.faults ≡ self.old.faults }
    {
        let (stream, _) = self.listener.accept()?;
        self.given = Some(stream.try_clone()?);
        link_of(stream)
    }
}

impl Door for TcpDoor {
    type Input = StdSource<TcpStream>;

    type Output = StdSink<TcpStream>;

    ghost waiting = { λ _. None };

    ghost handed_back = { λ _. None };

    ghost faults = { λ s. s.faults };

    ghost is_out = { λ _. Unit {0} };

    fn next(&mut self) -> Result<Option<TcpLink>, Failed>
        ensures given { IfOk result (λ link. IsTrue (is_some link)) }
        ensures cause { HasCause each self.old.faults self.new.faults result }
    {
        for _ in 0..TRIES {
            match self.accept() {
                Ok(link) => return Ok(Some(link)),
                Err(error) => match error.kind() {
                    ErrorKind::Interrupted | ErrorKind::ConnectionAborted => {}
                    _ => break,
                },
            }
        }
        self.faults = self.faults.saturating_add(1);
        Err(Failed)
    }

    fn done(&mut self, mut link: TcpLink)
        ensures { self.new.faults ≡ self.old.faults }
    {
        if let Some(stream) = self.given.take() {
            let _ = end(&stream, &mut link.source);
        }
    }
}
