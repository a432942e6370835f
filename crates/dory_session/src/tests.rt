//! Sessions over streams with each end, in pieces of several sizes, and with calls that fail.
ghost use Rattle.std.specs.Prelude.{◌≤◌, ℕ, None, length};

use crate::{Answers, How, SessionEnd, serve_core, serve_session};
use dory_base::{Failed, FolderId, NoMemory, Shape, Side};
use dory_domain::{DomainCore, FolderConfig};
use dory_io::{Sink, Source, VecSink, VecSource};
use dory_kernel::{RowKernel, plain_parity};
use dory_wire::WireFault;
use std::alloc::{AllocError, Global};
use std::sync::{Mutex, Wait};
use std::test::Fail;

// Latest of folder 1, and the reply that its history is empty.
const LATEST: [u8; 25] = [
    0, 0, 0, 0x15, 1, 0, 0, 0, 3, 0, 0, 0, 0, 0, 0, 0, 2, 0, 0, 0, 0, 0, 0, 0, 1,
];

const AT_0: [u8; 25] = [
    0, 0, 0, 0x15, 0x81, 0, 0, 0, 3, 0, 0, 0, 0, 0, 0, 0, 2, 0, 0, 0, 0, 0, 0, 0, 0,
];

// Latest of folder 5, which isn't there, and its refusal.
const LATEST_5: [u8; 25] = [
    0, 0, 0, 0x15, 1, 0, 0, 0, 3, 0, 0, 0, 0, 0, 0, 0, 2, 0, 0, 0, 1, 0, 0, 0, 5,
];

const NO_FOLDER: [u8; 22] = [
    0, 0, 0, 0x12, 0x86, 0, 0, 0, 3, 0, 0, 0, 0, 0, 0, 0, 2, 0, 0, 0, 1, 1,
];

// A reply, of a member to no one.
const AT_5: [u8; 25] = [
    0, 0, 0, 0x15, 0x81, 0, 0, 0, 3, 0, 0, 0, 0, 0, 0, 0, 2, 0, 0, 0, 0, 0, 0, 0, 5,
];

// Latest with a byte after its last field, a kind that no message has, and a search at depth 12.
const LONG: [u8; 26] = [
    0, 0, 0, 0x16, 1, 0, 0, 0, 3, 0, 0, 0, 0, 0, 0, 0, 2, 0, 0, 0, 0, 0, 0, 0, 1, 0,
];

const KIND: [u8; 6] = [0, 0, 0, 2, 0x7f, 0];

const DEPTH_12: [u8; 34] = [
    0, 0, 0, 0x1e, 2, 0, 0, 0, 3, 0, 0, 0, 0, 0, 0, 0, 2, 0, 0, 0, 0, 0, 0, 0, 1, 0, 0, 0, 0, 12,
    1, 1, 0, 0,
];

// The other requests: Which 1, to stage a removal, to order an update, and to follow one as number 2.
const WHICH: [u8; 29] = [
    0, 0, 0, 0x19, 3, 0, 0, 0, 1, 0, 0, 0, 0, 0, 0, 0, 1, 0, 0, 0, 4, 0, 0, 0, 1, 0, 0, 0, 1,
];

const STAGE: [u8; 42] = [
    0, 0, 0, 0x26, 4, 0, 0, 0, 0, 0, 0, 0, 0, 0, 0, 0, 2, 0, 0, 0, 0, 0, 0, 0, 1, 0, 0, 0, 0, 0, 0,
    0, 0, 0, 0, 0, 2, 0, 0, 0, 7, 2,
];

const ORDER: [u8; 37] = [
    0, 0, 0, 0x21, 5, 0, 0, 0, 1, 0, 0, 0, 0, 0, 0, 0, 1, 0, 0, 0, 2, 0, 0, 0, 1, 0, 0, 0, 1, 0, 0,
    0, 0, 0, 0, 0, 1,
];

const FOLLOW: [u8; 41] = [
    0, 0, 0, 0x25, 6, 0, 0, 0, 1, 0, 0, 0, 0, 0, 0, 0, 1, 0, 0, 0, 3, 0, 0, 0, 1, 0, 0, 0, 2, 0, 0,
    0, 1, 0, 0, 0, 0, 0, 0, 0, 1,
];

/// A source that gives at most so many bytes a read, and tells nothing of what is left.
#[derive(Drop)]
struct Drip {
    bytes: Vec<u8>,
    at: usize,
    size: usize,
    given: u64,
    ghost within: { at ≤ length bytes.items },
}

impl Source for Drip {
    ghost left = { λ _. None };

    ghost given = { λ d. d.given };

    ghost faults = { λ _. 0 };

    fn read(&mut self, into: &mut [u8]) -> Result<usize, Failed> {
        let n = (self.bytes.len() - self.at).min(into.len()).min(self.size);
        into[..n].copy_from_slice(&self.bytes[self.at..self.at + n]);
        self.at += n;
        self.given = self.given.saturating_add(n as u64);
        Ok(n)
    }
}

/// A domain with folder 1.
fn core(alloc: Global) -> Result<DomainCore, NoMemory> {
    let Some(shape) = Shape::new(8, 2) else {
        return Err(NoMemory);
    };
    let config = FolderConfig {
        folder: FolderId(1),
        shape,
        retained: 64,
    };
    match DomainCore::new(alloc, Side::Lead, &[config], RowKernel::new(plain_parity)) {
        Ok(core) => Ok(core),
        Err(_) => Err(NoMemory),
    }
}

/// The end of a session on these bytes, and whether these are what it wrote.
fn end_on<S: Source>(
    alloc: Global,
    source: &mut S,
    written: &[u8],
) -> Result<(SessionEnd, bool), NoMemory> {
    let mut core = core(alloc)?;
    let mut sink = VecSink::new(alloc, 200, Vec::new(alloc))?;
    let end = serve_core(alloc, &mut core, source, &mut sink);
    Ok((end, sink.bytes() == written))
}

/// The end of a session on an input of one frame more after a good one, and that only the good one was answered.
fn end_after_latest(alloc: Global, next: &[u8]) -> Result<(SessionEnd, bool), NoMemory> {
    let mut bytes = Vec::from_slice(alloc, &LATEST)?;
    bytes.extend_from_slice(next)?;
    let mut source = VecSource::new(bytes, Vec::new(alloc));
    end_on(alloc, &mut source, &AT_0)
}

#[test]
fn a_session_ends_at_the_first_fault_and_answers_what_came_before(
    rt: HostRuntime,
) -> Result<(), Fail> {
    let alloc = rt.alloc();
    let rows: [(&[u8], How); 11] = [
        (&[], How::Ended),
        (&[0, 0, 0], How::Cut { held: 3 }),
        (&[0, 0, 0, 21, 1, 2, 3, 4, 5], How::Cut { held: 9 }),
        (&[0, 0, 0, 0], How::Length { n: 0 }),
        (&[0, 16, 0, 1, 9], How::Length { n: 1_048_577 }),
        (&LONG, How::Trailing { at: 21 }),
        (&KIND, How::Kind { b: 127 }),
        (&DEPTH_12, How::Body { at: 25 }),
        (&AT_5, How::Kind { b: 129 }),
        (&[0, 0, 0, 1, 1], How::Body { at: 1 }),
        (&[0, 0, 0, 1, 1, 0, 0, 0, 0], How::Body { at: 1 }),
    ];
    for (next, how) in rows {
        let Ok((end, wrote)) = end_after_latest(alloc, next) else {
            return Err(Fail::from(AllocError));
        };
        assert_eq!(rt; end, SessionEnd { answered: 1, how });
        assert!(rt; wrote);
        let mut alone = VecSource::new(Vec::from_slice(alloc, next)?, Vec::new(alloc));
        let Ok((end, wrote)) = end_on(alloc, &mut alone, &[]) else {
            return Err(Fail::from(AllocError));
        };
        assert_eq!(rt; end, SessionEnd { answered: 0, how });
        assert!(rt; wrote);
    }
    Ok(())
}

// Whether a session that is sent a part of a frame is cut with as many bytes, and writes nothing.
fn is_cut(alloc: Global, frame: &[u8], held: usize) -> Result<bool, Fail> {
    let part = frame.get(..held).ok_or("a part")?;
    let mut source = VecSource::new(Vec::from_slice(alloc, part)?, Vec::new(alloc));
    let Ok((end, wrote)) = end_on(alloc, &mut source, &[]) else {
        return Err(Fail::from(AllocError));
    };
    let cut = SessionEnd {
        answered: 0,
        how: How::Cut { held },
    };
    Ok(wrote && end == cut)
}

#[test]
fn a_part_of_a_request_is_cut_with_as_many_bytes(rt: HostRuntime) -> Result<(), Fail> {
    for held in 1..25usize {
        assert!(rt; is_cut(rt.alloc(), &LATEST, held)?);
    }
    for held in 1..29usize {
        assert!(rt; is_cut(rt.alloc(), &WHICH, held)?);
    }
    for held in 1..42usize {
        assert!(rt; is_cut(rt.alloc(), &STAGE, held)?);
    }
    for held in 1..37usize {
        assert!(rt; is_cut(rt.alloc(), &ORDER, held)?);
    }
    for held in 1..41usize {
        assert!(rt; is_cut(rt.alloc(), &FOLLOW, held)?);
    }
    Ok(())
}

#[test]
fn pieces_of_any_size_have_the_same_replies(rt: HostRuntime) -> Result<(), Fail> {
    let alloc = rt.alloc();
    let mut written = Vec::from_slice(alloc, &AT_0)?;
    written.extend_from_slice(&NO_FOLDER)?;
    written.extend_from_slice(&AT_0)?;
    for size in [1usize, 2, 7, 65_536] {
        let mut bytes = Vec::from_slice(alloc, &LATEST)?;
        bytes.extend_from_slice(&LATEST_5)?;
        bytes.extend_from_slice(&LATEST)?;
        let mut source = Drip {
            bytes,
            at: 0,
            size,
            given: 0,
        };
        let Ok((end, wrote)) = end_on(alloc, &mut source, &written) else {
            return Err(Fail::from(AllocError));
        };
        assert_eq!(rt;
            end,
            SessionEnd {
                answered: 3,
                how: How::Ended
            }
        );
        assert!(rt; wrote);
    }
    Ok(())
}

/// The end of a session on two requests whose listed reads and writes fail, with room for so many bytes, and how many it
/// wrote.
fn end_failing(
    alloc: Global,
    read: u64,
    write: u64,
    room: usize,
) -> Result<(SessionEnd, usize), NoMemory> {
    let mut core = core(alloc)?;
    let mut bytes = Vec::from_slice(alloc, &LATEST)?;
    bytes.extend_from_slice(&LATEST)?;
    let mut source = VecSource::new(bytes, vec![in alloc; read]?);
    let mut sink = VecSink::new(alloc, room, vec![in alloc; write]?)?;
    let end = serve_core(alloc, &mut core, &mut source, &mut sink);
    Ok((end, sink.bytes().len()))
}

#[test]
fn a_failing_call_ends_the_session(rt: HostRuntime) -> Result<(), Fail> {
    let alloc = rt.alloc();
    for (read, write, room, answered, how, written) in [
        (1u64, 0u64, 200usize, 0u32, How::InputFault, 0usize),
        (2, 0, 200, 2, How::InputFault, 50),
        (0, 1, 200, 0, How::OutputFault, 0),
        (0, 2, 200, 1, How::OutputFault, 25),
        (0, 0, 30, 1, How::OutputFault, 30),
        (0, 0, 50, 2, How::Ended, 50),
    ] {
        let Ok((end, wrote)) = end_failing(alloc, read, write, room) else {
            return Err(Fail::from(AllocError));
        };
        assert_eq!(rt; end, SessionEnd { answered, how });
        assert_eq!(rt; wrote, written);
    }
    Ok(())
}

// To order the update that STAGE stages, and the reply that the history has one update.
const ORDER_STAGED: [u8; 37] = [
    0, 0, 0, 0x21, 5, 0, 0, 0, 0, 0, 0, 0, 0, 0, 0, 0, 3, 0, 0, 0, 0, 0, 0, 0, 1, 0, 0, 0, 0, 0, 0,
    0, 0, 0, 0, 0, 2,
];

const AT_1: [u8; 25] = [
    0, 0, 0, 0x15, 0x81, 0, 0, 0, 3, 0, 0, 0, 0, 0, 0, 0, 2, 0, 0, 0, 0, 0, 0, 0, 1,
];

// The replies that update 0.2 is staged, and that it is committed as number 1.
const STAGED: [u8; 33] = [
    0, 0, 0, 0x1d, 0x84, 0, 0, 0, 0, 0, 0, 0, 0, 0, 0, 0, 2, 0, 0, 0, 0, 0, 0, 0, 0, 0, 0, 0, 0, 0,
    0, 0, 2,
];

const COMMITTED: [u8; 37] = [
    0, 0, 0, 0x21, 0x85, 0, 0, 0, 0, 0, 0, 0, 0, 0, 0, 0, 3, 0, 0, 0, 0, 0, 0, 0, 1, 0, 0, 0, 0, 0,
    0, 0, 0, 0, 0, 0, 2,
];

/// The end of a session over a domain on these frames, whose listed writes fail, and whether these are what it wrote.
fn end_writing(
    alloc: Global,
    core: &mut DomainCore,
    frames: &[&[u8]],
    fails: &[u64],
    written: &[u8],
) -> Result<(SessionEnd, bool), NoMemory> {
    let mut bytes = Vec::new(alloc);
    for frame in frames {
        bytes.extend_from_slice(frame)?;
    }
    let mut source = VecSource::new(bytes, Vec::new(alloc));
    let mut sink = VecSink::new(alloc, 200, Vec::from_slice(alloc, fails)?)?;
    let end = serve_core(alloc, core, &mut source, &mut sink);
    Ok((end, sink.bytes() == written))
}

#[test]
fn an_update_whose_reply_is_not_written_is_committed_once(rt: HostRuntime) -> Result<(), Fail> {
    let alloc = rt.alloc();
    let Ok(mut core) = core(alloc) else {
        return Err(Fail::from(AllocError));
    };
    let Ok((end, wrote)) = end_writing(alloc, &mut core, &[&STAGE, &ORDER_STAGED], &[2], &STAGED)
    else {
        return Err(Fail::from(AllocError));
    };
    assert_eq!(rt;
        end,
        SessionEnd {
            answered: 1,
            how: How::OutputFault
        }
    );
    assert!(rt; wrote && core.length(FolderId(1)) == Some(1));
    let Ok((end, wrote)) = end_writing(alloc, &mut core, &[&ORDER_STAGED], &[], &COMMITTED) else {
        return Err(Fail::from(AllocError));
    };
    assert_eq!(rt;
        end,
        SessionEnd {
            answered: 1,
            how: How::Ended
        }
    );
    assert!(rt; wrote && core.length(FolderId(1)) == Some(1));
    Ok(())
}

/// A domain behind a lock, which waits while another has it.
#[derive(Drop)]
struct Locked<'a, R> {
    rt: &'a R,
    core: &'a Mutex<DomainCore>,
}

impl<'a, R: Wait> Answers for Locked<'a, R> {
    ghost use Rattle.std.specs.Prelude.{List};
    ghost use Rattle.dory_domain.specs.Held.{Held};
    ghost use Rattle.dory_domain.specs.Answered.{IsAnswered};

    ghost Seen = { Unit {0} };

    ghost seen = { λ _. tt };

    // Nothing is known of the folders between two answers.
    ghost steps = { λ _ message frame _. (before : List Held) × (now : List Held) × IsAnswered before message frame now };

    fn answer(&mut self, alloc: Global, message: &[u8]) -> Result<Vec<u8>, WireFault> {
        let mut core = self.core.lock(self.rt);
        core.answer(alloc, message)
    }
}

/// The end of a session over a locked domain on two frames, and whether these are what it wrote.
fn end_locked<R: Wait>(
    rt: &R,
    alloc: Global,
    core: &Mutex<DomainCore>,
    frames: [&[u8]; 2],
    written: &[u8],
) -> Result<(SessionEnd, bool), NoMemory> {
    let mut bytes = Vec::from_slice(alloc, frames[0])?;
    bytes.extend_from_slice(frames[1])?;
    let mut source = VecSource::new(bytes, Vec::new(alloc));
    let mut sink = VecSink::new(alloc, 200, Vec::new(alloc))?;
    let end = serve_session(alloc, &mut Locked { rt, core }, &mut source, &mut sink);
    Ok((end, sink.bytes() == written))
}

#[test]
fn a_domain_changes_between_two_sessions_over_its_lock(rt: HostRuntime) -> Result<(), Fail> {
    let alloc = rt.alloc();
    let Ok(core) = core(alloc) else {
        return Err(Fail::from(AllocError));
    };
    let core = Mutex::new(core);
    let ended = SessionEnd {
        answered: 2,
        how: How::Ended,
    };
    let mut empty = Vec::from_slice(alloc, &AT_0)?;
    empty.extend_from_slice(&AT_0)?;
    let Ok((end, wrote)) = end_locked(&rt, alloc, &core, [&LATEST, &LATEST], &empty) else {
        return Err(Fail::from(AllocError));
    };
    assert_eq!(rt; end, ended);
    assert!(rt; wrote);
    let Ok((end, _)) = end_locked(&rt, alloc, &core, [&STAGE, &ORDER_STAGED], &[]) else {
        return Err(Fail::from(AllocError));
    };
    assert_eq!(rt; end, ended);
    let mut one = Vec::from_slice(alloc, &AT_1)?;
    one.extend_from_slice(&AT_1)?;
    let Ok((end, wrote)) = end_locked(&rt, alloc, &core, [&LATEST, &LATEST], &one) else {
        return Err(Fail::from(AllocError));
    };
    assert_eq!(rt; end, ended);
    assert!(rt; wrote);
    Ok(())
}
