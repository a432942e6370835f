//! A reader as a source and a writer as a sink, standard input and output and connections among them.
ghost use Rattle.std.specs.Prelude.{◌≡◌, ◌≤◌, None, length, IfOk};
ghost use Rattle.dory_io.specs.Bytes.{Takes};

use dory_io::{Failed, Fails, Sink, Source};
use std::alloc::Global;
use std::io;
use std::io::{ErrorKind, Read, Write};
use std::net::TcpStream;

/// How often a call that a signal cut short is made again.
const RETRIES: u32 = 64;

/// One read, made again where a signal cut in.
pub fn read_some<R: Read>(reader: &mut R, into: &mut [u8]) -> io::Result<usize>
    ensures { IfOk result (λ n. n ≤ length into.new) }
{
    for _ in 0..RETRIES {
        match reader.read(into) {
            Err(e) if e.kind() == ErrorKind::Interrupted => {}
            ended => return ended,
        }
    }
    Err(io::Error::from(ErrorKind::Interrupted))
}

/// One write, made again where a signal cut in. One that takes nothing of a piece is a fault.
pub fn write_some<W: Write>(writer: &mut W, piece: &[u8]) -> io::Result<usize>
    ensures { Takes (length piece.now) result }
{
    for _ in 0..RETRIES {
        match writer.write(piece) {
            Ok(0) if !piece.is_empty() => return Err(io::Error::from(ErrorKind::WriteZero)),
            Err(e) if e.kind() == ErrorKind::Interrupted => {}
            ended => return ended,
        }
    }
    Err(io::Error::from(ErrorKind::Interrupted))
}

/// Reads what a reader gives, tells no content and counts its failures.
#[derive(Drop)]
pub struct StreamSource<R> {
    reader: R,
    given: u64,
    fails: Fails,
}

/// Standard input.
pub type StdSource<R> = StreamSource<R>;

/// What comes of a connection.
pub type TcpSource = StreamSource<TcpStream>;

impl<R: Read> StreamSource<R> {
    /// A source over this reader, which has given nothing and not failed.
    pub fn new(alloc: Global, reader: R) -> StreamSource<R>
        ensures { (result.given ≡ 0) × (result.fails.faults ≡ 0) }
    {
        StreamSource {
            reader,
            given: 0,
            fails: Fails::new(Vec::new(alloc)),
        }
    }
}

impl<R: Read> Source for StreamSource<R> {
    ghost left = { λ _. None };

    ghost given = { λ s. s.given };

    ghost faults = { λ s. s.fails.faults };

    fn read(&mut self, into: &mut [u8]) -> Result<usize, Failed> {
        match read_some(&mut self.reader, into) {
            Ok(n) => {
                self.given = self.given.saturating_add(n as u64);
                Ok(n)
            }
            Err(_) => {
                self.fails.count();
                Err(Failed)
            }
        }
    }
}

/// Writes what a writer takes, tells no content and counts its failures.
#[derive(Drop)]
pub struct StreamSink<W> {
    writer: W,
    fails: Fails,
}

/// Standard output.
pub type StdSink<W> = StreamSink<W>;

/// What goes to a connection.
pub type TcpSink = StreamSink<TcpStream>;

impl<W: Write> StreamSink<W> {
    /// A sink over this writer, which has not failed.
    pub fn new(alloc: Global, writer: W) -> StreamSink<W>
        ensures { result.fails.faults ≡ 0 }
    {
        StreamSink {
            writer,
            fails: Fails::new(Vec::new(alloc)),
        }
    }
}

impl<W: Write> Sink for StreamSink<W> {
    ghost written = { λ _. None };

    ghost faults = { λ s. s.fails.faults };

    fn write(&mut self, piece: &[u8]) -> Result<usize, Failed> {
        match write_some(&mut self.writer, piece) {
            Ok(n) => Ok(n),
            Err(_) => {
                self.fails.count();
                Err(Failed)
            }
        }
    }
}
