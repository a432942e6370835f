//! Command lines; a server over binders in memory, and over loopback.
ghost use Rattle.std.specs.Prelude.{None};

mod at_once;
mod loopback;
mod openings;

use crate::end::ServerEnd;
use crate::line::{ServerWords, read_server};
use crate::serving::serve_seats;
use dory_io::{Address, Binder, Failed, Fails, Port, Sink, VecSink};
use dory_kernel::{RowKernel, plain_parity};
use dory_lanes::SystemThreads;
use dory_shelf::Places;
use std::alloc::{AllocError, Global};
use std::sync::Wait;
use std::test::Fail;
use std::thread::Threads;

// Latest of folder 1, and the reply that its history is empty.
const LATEST: [u8; 25] = [
    0, 0, 0, 0x15, 1, 0, 0, 0, 3, 0, 0, 0, 0, 0, 0, 0, 2, 0, 0, 0, 0, 0, 0, 0, 1,
];

const AT_0: [u8; 25] = [
    0, 0, 0, 0x15, 0x81, 0, 0, 0, 3, 0, 0, 0, 0, 0, 0, 0, 2, 0, 0, 0, 0, 0, 0, 0, 0,
];

// To stage a removal, with three bytes of a further frame, and to order it; and the replies.
const STAGE_CUT: [u8; 45] = [
    0, 0, 0, 0x26, 4, 0, 0, 0, 0, 0, 0, 0, 0, 0, 0, 0, 2, 0, 0, 0, 0, 0, 0, 0, 1, 0, 0, 0, 0, 0, 0,
    0, 0, 0, 0, 0, 2, 0, 0, 0, 7, 2, 0, 0, 0,
];

const STAGED: [u8; 33] = [
    0, 0, 0, 0x1d, 0x84, 0, 0, 0, 0, 0, 0, 0, 0, 0, 0, 0, 2, 0, 0, 0, 0, 0, 0, 0, 0, 0, 0, 0, 0, 0,
    0, 0, 2,
];

const ORDER: [u8; 37] = [
    0, 0, 0, 0x21, 5, 0, 0, 0, 0, 0, 0, 0, 0, 0, 0, 0, 2, 0, 0, 0, 1, 0, 0, 0, 1, 0, 0, 0, 0, 0, 0,
    0, 0, 0, 0, 0, 2,
];

const COMMITTED: [u8; 37] = [
    0, 0, 0, 0x21, 0x85, 0, 0, 0, 0, 0, 0, 0, 0, 0, 0, 0, 2, 0, 0, 0, 1, 0, 0, 0, 1, 0, 0, 0, 0, 0,
    0, 0, 0, 0, 0, 0, 2,
];

/// Any free port of this machine.
const ANY: Address = Address {
    ip: [127, 0, 0, 1],
    port: 0,
};

/// Lines with the place of the first word that is absent or not of its form.
const BAD_LINES: [(&str, usize); 12] = [
    ("", 0),
    ("leader 127.0.0.1:0 2 1:8:2", 0),
    ("lead", 1),
    ("lead 127.0.0.1 2 1:8:2", 1),
    ("lead 127.0.0.1:65536 2 1:8:2", 1),
    ("lead 127.0.0.1:0 02 1:8:2", 2),
    ("lead 127.0.0.1:0 4294967296 1:8:2", 2),
    ("lead 127.0.0.1:0 2", 3),
    ("lead 127.0.0.1:0 2 1:12:2", 3),
    ("lead 127.0.0.1:0 2 1:8:9", 3),
    ("lead 127.0.0.1:0 2 1:8:2 2:8:2:", 4),
    ("lead 127.0.0.1:0 2 1:8:2 2:8:2:64:1", 4),
];

/// The words of a line, which stand between its blanks.
fn words(alloc: Global, line: &str) -> Result<Vec<String>, AllocError> {
    let mut words = Vec::new(alloc);
    for word in line.split_whitespace() {
        words.push(word.to_string(alloc)?)?;
    }
    Ok(words)
}

#[test]
fn a_bad_line_is_refused_at_its_first_bad_word(rt: HostRuntime) -> Result<(), Fail> {
    let alloc = rt.alloc();
    for (line, at) in BAD_LINES {
        let words = words(alloc, line)?;
        let fault = read_server(alloc, &words).err();
        assert_eq!(rt; fault, Some(ServerWords::At { at }));
    }
    Ok(())
}

#[test]
fn a_line_of_the_largest_values_is_read(rt: HostRuntime) -> Result<(), Fail> {
    let alloc = rt.alloc();
    let words = words(alloc, "follow 10.0.0.255:7001 32 0:11:8 4294967295:8:1:256")?;
    let read = read_server(alloc, &words);
    assert!(rt;
        matches!(&read, Ok(line) if line.config.seats == 32 && line.config.fault().is_none())
    );
    Ok(())
}

/// A line without a fault, of a server of two seats.
const LINE: &str = "lead 127.0.0.1:0 2 1:8:2";

/// The end of a server whose places and threads are the system's, and which serves so many connections at each seat.
fn end_with<R: Threads + Wait + Sync, B: Binder, O: Sink>(
    rt: &R,
    alloc: Global,
    words: &[String],
    binder: &mut B,
    out: &mut O,
    sessions: u32,
) -> ServerEnd {
    let mut places = Places::new();
    let mut threads = SystemThreads::new();
    serve_seats(
        rt,
        alloc,
        words,
        RowKernel::new(plain_parity),
        &mut places,
        &mut threads,
        binder,
        out,
        Some(sessions),
    )
}

/// A binder whose address was bound before, and which gives the ports that were made then, from the last to the first.
#[derive(Drop)]
struct Bound<P> {
    address: Address,
    ports: Vec<P>,
    fails: Fails,
}

impl<P> Bound<P> {
    /// A binder of these ports.
    fn of(alloc: Global, address: Address, ports: Vec<P>) -> Bound<P> {
        Bound {
            address,
            ports,
            fails: Fails::new(Vec::new(alloc)),
        }
    }
}

impl<P: Port + Drop> Binder for Bound<P> {
    type Door = P;

    ghost bound = { λ _. None };

    ghost faults = { λ b. b.fails.faults };

    fn bind(&mut self, address: &Address) -> Result<Address, Failed> {
        if self.address.is_for(address) {
            return Ok(self.address);
        }
        self.fails.count();
        Err(Failed)
    }

    fn port(&mut self) -> Result<P, Failed> {
        match self.ports.pop() {
            Some(port) => Ok(port),
            None => {
                self.fails.count();
                Err(Failed)
            }
        }
    }
}

/// The end of a server that serves so many connections at each of the ports of this binder.
fn end_at<R: Threads + Wait + Sync, P: Port + Drop>(
    rt: &R,
    alloc: Global,
    words: &[String],
    binder: &mut Bound<P>,
    sessions: u32,
) -> ServerEnd {
    let Ok(mut out) = VecSink::new(alloc, 64, Vec::new(alloc)) else {
        return ServerEnd::NoMemory;
    };
    end_with(rt, alloc, words, binder, &mut out, sessions)
}
