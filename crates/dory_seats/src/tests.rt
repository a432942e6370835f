//! Sessions at two seats of one domain, whose bytes are in memory.
ghost use Rattle.std.specs.Prelude.{◌≡◌};
ghost use Rattle.dory_shared.specs.Seen.{names_of};

use crate::{AtSeat, NamedSeat, serve_seat};
use dory_base::{FolderId, NoMemory, Shape, Side};
use dory_domain::{Config, FolderConfig, FolderList};
use dory_io::{VecSink, VecSource};
use dory_kernel::{RowKernel, plain_parity};
use dory_session::{How, SessionEnd};
use dory_shared::{Names, Opened, Seat, open_domain};
use dory_shelf::Places;
use std::alloc::{AllocError, Global};
use std::marker::Brand;
use std::sync::Wait;
use std::test::Fail;
use std::thread::Threads;

// Latest of folder 1, and the replies that its history is empty, and that it has one update.
const LATEST: [u8; 25] = [
    0, 0, 0, 0x15, 1, 0, 0, 0, 3, 0, 0, 0, 0, 0, 0, 0, 2, 0, 0, 0, 0, 0, 0, 0, 1,
];

const AT_0: [u8; 25] = [
    0, 0, 0, 0x15, 0x81, 0, 0, 0, 3, 0, 0, 0, 0, 0, 0, 0, 2, 0, 0, 0, 0, 0, 0, 0, 0,
];

const AT_1: [u8; 25] = [
    0, 0, 0, 0x15, 0x81, 0, 0, 0, 3, 0, 0, 0, 0, 0, 0, 0, 2, 0, 0, 0, 0, 0, 0, 0, 1,
];

// Latest of folder 5, which isn't there, and its refusal.
const LATEST_5: [u8; 25] = [
    0, 0, 0, 0x15, 1, 0, 0, 0, 3, 0, 0, 0, 0, 0, 0, 0, 2, 0, 0, 0, 1, 0, 0, 0, 5,
];

const NO_FOLDER: [u8; 22] = [
    0, 0, 0, 0x12, 0x86, 0, 0, 0, 3, 0, 0, 0, 0, 0, 0, 0, 2, 0, 0, 0, 1, 1,
];

// To stage a removal and to order it, and what these are answered.
const STAGE: [u8; 42] = [
    0, 0, 0, 0x26, 4, 0, 0, 0, 0, 0, 0, 0, 0, 0, 0, 0, 2, 0, 0, 0, 0, 0, 0, 0, 1, 0, 0, 0, 0, 0, 0,
    0, 0, 0, 0, 0, 2, 0, 0, 0, 7, 2,
];

const STAGED: [u8; 33] = [
    0, 0, 0, 0x1d, 0x84, 0, 0, 0, 0, 0, 0, 0, 0, 0, 0, 0, 2, 0, 0, 0, 0, 0, 0, 0, 0, 0, 0, 0, 0, 0,
    0, 0, 2,
];

const ORDER: [u8; 37] = [
    0, 0, 0, 0x21, 5, 0, 0, 0, 0, 0, 0, 0, 0, 0, 0, 0, 3, 0, 0, 0, 0, 0, 0, 0, 1, 0, 0, 0, 0, 0, 0,
    0, 0, 0, 0, 0, 2,
];

const COMMITTED: [u8; 37] = [
    0, 0, 0, 0x21, 0x85, 0, 0, 0, 0, 0, 0, 0, 0, 0, 0, 0, 3, 0, 0, 0, 0, 0, 0, 0, 1, 0, 0, 0, 0, 0,
    0, 0, 0, 0, 0, 0, 2,
];

/// A lead of folder 1 with two seats.
fn config(alloc: Global) -> Result<Config, NoMemory> {
    let mut folders = Vec::new(alloc);
    folders.push(FolderConfig {
        folder: FolderId(1),
        shape: Shape::of(8, 2),
        retained: 4,
    })?;
    Ok(Config {
        role: Side::Lead,
        folders: FolderList::of(folders),
        seats: 2,
    })
}

/// The end of a session at a seat on these two frames, and whether it wrote these two.
fn end_at<J: Names, R: Threads + Wait + Sync>(
    alloc: Global,
    at: &mut AtSeat<'_, '_, J, R>,
    frames: [&[u8]; 2],
    written: [&[u8]; 2],
) -> Result<(SessionEnd, bool), NoMemory> {
    let mut bytes = Vec::from_slice(alloc, frames[0])?;
    bytes.extend_from_slice(frames[1])?;
    let mut source = VecSource::new(bytes, Vec::new(alloc));
    let mut sink = VecSink::new(alloc, 200, Vec::new(alloc))?;
    let end = serve_seat(alloc, at, &mut source, &mut sink);
    let mut replies = Vec::from_slice(alloc, written[0])?;
    replies.extend_from_slice(written[1])?;
    Ok((end, sink.bytes() == replies.as_slice()))
}

/// The ends of four sessions, one after another: at the second seat, at the first, and again at the second.
fn in_turn<'a, J: Names, R: Threads + Wait + Sync>(
    rt: &'a R,
    alloc: Global,
    opened: Opened<'a, R>,
    first: Seat,
    second: Seat,
) -> Result<[(SessionEnd, bool); 4], NoMemory>
    requires opened { names_of opened ≡ J.names }
    requires first { names_of first ≡ J.names }
    requires second { names_of second ≡ J.names }
{
    let domain = opened.named::<J>(RowKernel::new(plain_parity));
    let mut one = AtSeat {
        rt,
        domain: &domain,
        seat: NamedSeat::new(first),
    };
    let mut two = AtSeat {
        rt,
        domain: &domain,
        seat: NamedSeat::new(second),
    };
    let empty = end_at(alloc, &mut two, [&LATEST, &LATEST_5], [&AT_0, &NO_FOLDER])?;
    let wrote = end_at(alloc, &mut one, [&STAGE, &ORDER], [&STAGED, &COMMITTED])?;
    let read = end_at(alloc, &mut two, [&LATEST, &LATEST], [&AT_1, &AT_1])?;
    let cut = end_at(alloc, &mut two, [&LATEST, &ORDER[..9]], [&AT_1, &[]])?;
    Ok([empty, wrote, read, cut])
}

#[test]
fn a_seat_is_answered_by_what_another_published(rt: HostRuntime) -> Result<(), Fail> {
    let alloc = rt.alloc();
    let mut places = Places::new();
    let Ok(config) = config(alloc) else {
        return Err(Fail::from(AllocError));
    };
    let Ok((opened, mut seats)) = open_domain(&rt, alloc, &config, &mut places) else {
        return Err(Fail::from(AllocError));
    };
    let (Some(second), Some(first)) = (seats.pop(), seats.pop()) else {
        return Err(Fail::from(AllocError));
    };
    let Ok(ends) = in_turn::<Brand, _>(&rt, alloc, opened, first, second) else {
        return Err(Fail::from(AllocError));
    };
    let ended = SessionEnd {
        answered: 2,
        how: How::Ended,
    };
    let cut = SessionEnd {
        answered: 1,
        how: How::Cut { held: 9 },
    };
    assert_eq!(rt;
        ends,
        [(ended, true), (ended, true), (ended, true), (cut, true)]
    );
    Ok(())
}
