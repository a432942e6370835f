//! The way to a server over TCP, as a link.
ghost use Rattle.std.specs.Prelude.{◌≡◌, ◌≤◌, None};

use crate::patience::{be_patient, patience};
use crate::streams::{read_some, write_some};
use crate::tcp_binder::socket_address;
use dory_io::{Address, Fails};
use dory_link::{Link, LinkError};
use std::alloc::Global;
use std::io;
use std::io::{ErrorKind, Read, Write};
use std::net::{Net, TcpStream};

/// The most bytes that a message has.
const MOST: u32 = 1_048_576;

/// How many bytes are read at once.
const PIECE: usize = 4096;

/// Connects at each request, and ends the connection after its reply, since a server that serves one connection after
/// another has no other for the next member. It tells nothing, and counts its failures.
#[derive(Drop)]
pub struct TcpLink<'a, R> {
    rt: &'a R,
    address: String,
    fails: Fails,
}

impl<'a, R: Net<Stream = TcpStream>> TcpLink<'a, R> {
    /// A link to the server at this address, which has not failed.
    pub fn new(rt: &'a R, alloc: Global, address: String) -> TcpLink<'a, R>
        ensures { result.fails.faults ≡ 0 }
    {
        TcpLink {
            rt,
            address,
            fails: Fails::new(Vec::new(alloc)),
        }
    }
}

/// A connection that waits no longer for the server than it may.
fn connect<R: Net<Stream = TcpStream>>(rt: &R, address: &str) -> io::Result<TcpStream> {
    let Some(address) = Address::read(address) else {
        return Err(io::Error::from(ErrorKind::InvalidInput));
    };
    let stream = TcpStream::connect_timeout(rt, &socket_address(&address), patience())?;
    be_patient(&stream)?;
    Ok(stream)
}

/// Adds this many bytes of the stream, fewer where it ends.
fn read_into<S: Read>(stream: &mut S, into: &mut Vec<u8>, many: usize) -> io::Result<()> {
    let mut left = many;
    let mut piece = [0u8; PIECE];
    while left > 0 {
        let n = read_some(stream, &mut piece[..left.min(PIECE)])?;
        if n == 0 {
            return Ok(());
        }
        into.extend_from_slice(&piece[..n])?;
        left -= n;
    }
    Ok(())
}

/// Writes all the bytes.
fn write_whole<S: Write>(stream: &mut S, bytes: &[u8]) -> io::Result<()> {
    let mut at = 0;
    while at < bytes.len() {
        at += write_some(stream, &bytes[at..])?;
    }
    Ok(())
}

/// How many bytes follow a length in range, which these four are, if they are one.
fn length_in(front: &[u8]) -> Option<u32> {
    match front {
        [a, b, c, d] => {
            let length = u32::from_be_bytes([*a, *b, *c, *d]);
            (1..=MOST).contains(&length).then_some(length)
        }
        _ => None,
    }
}

/// Sends a request, and gives all bytes that come for one frame.
fn exchange<S: Read + Write>(alloc: Global, stream: &mut S, request: &[u8]) -> io::Result<Vec<u8>> {
    write_whole(stream, request)?;
    let mut frame = Vec::new(alloc);
    read_into(stream, &mut frame, 4)?;
    if let Some(length) = length_in(&frame) {
        read_into(stream, &mut frame, length as usize)?;
    }
    Ok(frame)
}

/// Asks over a connection of its own.
fn ask_once<R: Net<Stream = TcpStream>>(
    rt: &R,
    alloc: Global,
    address: &str,
    request: &[u8],
) -> io::Result<Vec<u8>> {
    let mut stream = connect(rt, address)?;
    exchange(alloc, &mut stream, request)
}

impl<'a, R: Net<Stream = TcpStream>> Link for TcpLink<'a, R> {
    ghost heard = { λ _. record { exchanges = None; folders = None } };

    ghost faults = { λ l. l.fails.faults };

    fn ask(&mut self, alloc: Global, request: &[u8]) -> Result<Vec<u8>, LinkError> {
        match ask_once(self.rt, alloc, self.address.as_str(), request) {
            Ok(frame) => Ok(frame),
            Err(e) if e.kind() == ErrorKind::OutOfMemory => Err(LinkError::NoMemory),
            Err(_) => {
                self.fails.count();
                Err(LinkError::Failed)
            }
        }
    }
}
