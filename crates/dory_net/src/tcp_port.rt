//! A socket that listens, as a port.
ghost use Rattle.std.specs.Prelude.{◌≡◌};

use crate::patience::be_patient;
use crate::streams::{StreamSink, StreamSource, TcpSink, TcpSource};
use dory_io::{Failed, Fails, Port};
use std::alloc::Global;
use std::io;
use std::io::ErrorKind;
use std::net::{TcpListener, TcpStream};

/// Gives the connections of a socket that listens, and counts its failures.
#[derive(Drop)]
pub struct TcpPort {
    alloc: Global,
    listener: TcpListener,
    given: u64,
    fails: Fails,
}

impl TcpPort {
    /// A port over this socket, which has given nothing and not failed.
    pub fn new(alloc: Global, listener: TcpListener) -> TcpPort
        ensures { (result.given ≡ 0) × (result.fails.faults ≡ 0) }
    {
        TcpPort {
            alloc,
            listener,
            given: 0,
            fails: Fails::new(Vec::new(alloc)),
        }
    }
}

/// The two ends of a connection, which wait no longer than they may.
fn ends_of(alloc: Global, stream: TcpStream) -> io::Result<(TcpSource, TcpSink)> {
    be_patient(&stream)?;
    let reading = stream.try_clone()?;
    Ok((
        StreamSource::new(alloc, reading),
        StreamSink::new(alloc, stream),
    ))
}

/// Whether the peer is gone already, or a signal cut in: the next accept may go well.
fn is_passing(kind: ErrorKind) -> bool {
    matches!(
        kind,
        ErrorKind::ConnectionAborted
            | ErrorKind::ConnectionReset
            | ErrorKind::NotConnected
            | ErrorKind::Interrupted
    )
}

/// Whether the connection that was accepted can't be set up because its peer is gone.
fn is_gone(kind: ErrorKind) -> bool {
    is_passing(kind) || kind == ErrorKind::InvalidInput
}

/// The next connection, or none where its peer is gone already.
fn accept_once(alloc: Global, listener: &TcpListener) -> io::Result<Option<(TcpSource, TcpSink)>> {
    let stream = match listener.accept() {
        Ok((stream, _)) => stream,
        Err(e) if is_passing(e.kind()) => return Ok(None),
        Err(e) => return Err(e),
    };
    match ends_of(alloc, stream) {
        Ok(ends) => Ok(Some(ends)),
        Err(e) if is_gone(e.kind()) => Ok(None),
        Err(e) => Err(e),
    }
}

/// The next connection of a peer that is still there.
fn accept_next(alloc: Global, listener: &TcpListener) -> io::Result<(TcpSource, TcpSink)> {
    for _ in 0..u64::MAX {
        if let Some(ends) = accept_once(alloc, listener)? {
            return Ok(ends);
        }
    }
    Err(io::Error::from(ErrorKind::ConnectionAborted))
}

impl Port for TcpPort {
    type From = TcpSource;

    type To = TcpSink;

    ghost given = { λ p. p.given };

    ghost faults = { λ p. p.fails.faults };

    fn accept(&mut self) -> Result<(TcpSource, TcpSink), Failed> {
        match accept_next(self.alloc, &self.listener) {
            Ok(ends) => {
                self.given = self.given.saturating_add(1);
                Ok(ends)
            }
            Err(_) => {
                self.fails.count();
                Err(Failed)
            }
        }
    }
}
