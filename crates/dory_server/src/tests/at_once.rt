//! Two seats that serve at once, whose connections are in memory. A connection's reply, or a port's connection, is held until the
//! other seat has answered, for at most so many turns of one load of a flag each.
ghost use Rattle.std.specs.Prelude.{None};

use super::{ANY, AT_0, Bound, COMMITTED, LATEST, LINE, ORDER, STAGE_CUT, STAGED, end_at, words};
use crate::end::ServerEnd;
use dory_base::NoMemory;
use dory_io::{Failed, Fails, Port, Sink, VecSink, VecSource};
use std::alloc::{AllocError, Global};
use std::sync::Wait;
use std::sync::atomic::{AtomicBool, Ordering};
use std::thread::Threads;

/// For how many turns a flag is waited for.
const TURNS: u64 = 500_000_000;

/// Whether the flag comes to be set.
fn comes(flag: &AtomicBool) -> bool {
    for _ in 0..TURNS {
        if flag.load(Ordering::SeqCst) {
            return true;
        }
    }
    false
}

/// A flag to wait for, and one to set.
#[derive(Clone, Copy, Drop)]
struct Signs<'a> {
    waits: Option<&'a AtomicBool>,
    sets: Option<&'a AtomicBool>,
}

impl<'a> Signs<'a> {
    /// Whether there is nothing to wait for, or it comes.
    fn may_go(&self) -> bool {
        match self.waits {
            Some(flag) => comes(flag),
            None => true,
        }
    }

    /// Sets the flag.
    fn is_gone(&self) {
        if let Some(flag) = self.sets {
            flag.store(true, Ordering::SeqCst);
        }
    }
}

/// A sink that is lent, which waits before each write and says when it has written.
#[derive(Drop)]
struct Lent<'a> {
    sink: &'a mut VecSink,
    signs: Signs<'a>,
    fails: Fails,
}

impl<'a> Sink for Lent<'a> {
    ghost written = { λ _. None };

    ghost faults = { λ s. s.fails.faults };

    fn write(&mut self, piece: &[u8]) -> Result<usize, Failed> {
        let signs = self.signs;
        if !signs.may_go() {
            self.fails.count();
            return Err(Failed);
        }
        match self.sink.write(piece) {
            Ok(n) => {
                signs.is_gone();
                Ok(n)
            }
            Err(Failed) => {
                self.fails.count();
                Err(Failed)
            }
        }
    }
}

/// A port that gives its connections from the last to the first, each with a sink that is lent, and waits before each.
#[derive(Drop)]
struct Lending<'a> {
    pairs: Vec<(VecSource, Lent<'a>)>,
    signs: Signs<'a>,
    given: u64,
    fails: Fails,
}

impl<'a> Port for Lending<'a> {
    type From = VecSource;

    type To = Lent<'a>;

    ghost given = { λ p. p.given };

    ghost faults = { λ p. p.fails.faults };

    fn accept(&mut self) -> Result<(VecSource, Lent<'a>), Failed> {
        if !self.signs.may_go() {
            self.fails.count();
            return Err(Failed);
        }
        match self.pairs.pop() {
            Some(pair) => {
                self.given = self.given.saturating_add(1);
                Ok(pair)
            }
            None => {
                self.fails.count();
                Err(Failed)
            }
        }
    }
}

/// A port over one connection or two, whose signs these are.
fn port<'a>(alloc: Global, pairs: Vec<(VecSource, Lent<'a>)>, signs: Signs<'a>) -> Lending<'a> {
    Lending {
        pairs,
        signs,
        given: 0,
        fails: Fails::new(Vec::new(alloc)),
    }
}

/// A connection with these bytes and this sink, whose signs these are.
fn pair<'a>(
    alloc: Global,
    bytes: &[u8],
    sink: &'a mut VecSink,
    signs: Signs<'a>,
) -> Result<(VecSource, Lent<'a>), AllocError> {
    let source = VecSource::new(bytes.to_vec(alloc)?, Vec::new(alloc));
    let fails = Fails::new(Vec::new(alloc));
    Ok((source, Lent { sink, signs, fails }))
}

/// A port of one connection.
fn port_of_one<'a>(
    alloc: Global,
    pair: (VecSource, Lent<'a>),
    signs: Signs<'a>,
) -> Result<Lending<'a>, AllocError> {
    let mut pairs = Vec::new(alloc);
    pairs.push(pair)?;
    Ok(port(alloc, pairs, signs))
}

/// A binder of two ports, which are the first's and the second's in this order.
fn binder<'a>(
    alloc: Global,
    first: Lending<'a>,
    second: Lending<'a>,
) -> Result<Bound<Lending<'a>>, AllocError> {
    let mut ports = Vec::new(alloc);
    ports.push(second)?;
    ports.push(first)?;
    Ok(Bound::of(alloc, ANY, ports))
}

/// No sign.
fn none<'a>() -> Signs<'a> {
    Signs {
        waits: None,
        sets: None,
    }
}

/// The first seat's reply is held until the second seat has replied.
fn held_reply<'a>(
    alloc: Global,
    first: &'a mut VecSink,
    second: &'a mut VecSink,
    replied: &'a AtomicBool,
) -> Result<Bound<Lending<'a>>, AllocError> {
    let held = Signs {
        waits: Some(replied),
        sets: None,
    };
    let says = Signs {
        waits: None,
        sets: Some(replied),
    };
    let one = pair(alloc, &LATEST, first, held)?;
    let two = pair(alloc, &LATEST, second, says)?;
    binder(
        alloc,
        port_of_one(alloc, one, none())?,
        port_of_one(alloc, two, none())?,
    )
}

/// An update is staged at the second seat, and the first seat's connection, which orders it, is held until that was replied.
fn held_port<'a>(
    alloc: Global,
    first: &'a mut VecSink,
    second: &'a mut VecSink,
    replied: &'a AtomicBool,
) -> Result<Bound<Lending<'a>>, AllocError> {
    let held = Signs {
        waits: Some(replied),
        sets: None,
    };
    let says = Signs {
        waits: None,
        sets: Some(replied),
    };
    let one = pair(alloc, &ORDER, first, none())?;
    let two = pair(alloc, &STAGE_CUT, second, says)?;
    binder(
        alloc,
        port_of_one(alloc, one, held)?,
        port_of_one(alloc, two, none())?,
    )
}

/// One port with two connections: an update is staged in the first, and ordered in the second.
fn in_turn<'a>(
    alloc: Global,
    first: &'a mut VecSink,
    second: &'a mut VecSink,
    _replied: &'a AtomicBool,
) -> Result<Bound<Lending<'a>>, AllocError> {
    let mut pairs = Vec::new(alloc);
    pairs.push(pair(alloc, &ORDER, second, none())?)?;
    pairs.push(pair(alloc, &STAGE_CUT, first, none())?)?;
    let mut ports = Vec::new(alloc);
    ports.push(port(alloc, pairs, none()))?;
    Ok(Bound::of(alloc, ANY, ports))
}

/// The end of a server that serves so many connections at each port of this binder.
fn end_by<R: Threads + Wait + Sync>(
    rt: &R,
    alloc: Global,
    words: &[String],
    binder: Bound<Lending<'_>>,
    sessions: u32,
) -> ServerEnd {
    let mut binder = binder;
    end_at(rt, alloc, words, &mut binder, sessions)
}

#[test]
fn a_reply_that_is_held_at_one_seat_holds_no_other(rt: HostRuntime) -> Result<(), NoMemory> {
    let alloc = rt.alloc();
    let words = words(alloc, LINE)?;
    let mut first = VecSink::new(alloc, 64, Vec::new(alloc))?;
    let mut second = VecSink::new(alloc, 64, Vec::new(alloc))?;
    let replied = AtomicBool::new(false);
    let binder = held_reply(alloc, &mut first, &mut second, &replied)?;
    let end = end_by(&rt, alloc, &words, binder, 1);
    assert_eq!(rt; end, ServerEnd::Sessions);
    assert_eq!(rt; first.bytes(), AT_0.as_slice());
    assert_eq!(rt; second.bytes(), AT_0.as_slice());
    Ok(())
}

#[test]
fn what_was_staged_at_one_seat_is_ordered_at_another(rt: HostRuntime) -> Result<(), NoMemory> {
    let alloc = rt.alloc();
    let words = words(alloc, LINE)?;
    let mut first = VecSink::new(alloc, 64, Vec::new(alloc))?;
    let mut second = VecSink::new(alloc, 64, Vec::new(alloc))?;
    let replied = AtomicBool::new(false);
    let binder = held_port(alloc, &mut first, &mut second, &replied)?;
    let end = end_by(&rt, alloc, &words, binder, 1);
    assert_eq!(rt; end, ServerEnd::Sessions);
    assert_eq!(rt; first.bytes(), COMMITTED.as_slice());
    assert_eq!(rt; second.bytes(), STAGED.as_slice());
    Ok(())
}

#[test]
fn one_seat_serves_one_connection_after_another(rt: HostRuntime) -> Result<(), NoMemory> {
    let alloc = rt.alloc();
    let words = words(alloc, "lead 127.0.0.1:0 1 1:8:2")?;
    let mut first = VecSink::new(alloc, 64, Vec::new(alloc))?;
    let mut second = VecSink::new(alloc, 64, Vec::new(alloc))?;
    let replied = AtomicBool::new(false);
    let binder = in_turn(alloc, &mut first, &mut second, &replied)?;
    let end = end_by(&rt, alloc, &words, binder, 2);
    assert_eq!(rt; end, ServerEnd::Sessions);
    assert_eq!(rt; first.bytes(), STAGED.as_slice());
    assert_eq!(rt; second.bytes(), COMMITTED.as_slice());
    Ok(())
}
