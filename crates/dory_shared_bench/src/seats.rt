//! Calls of the seats of a shared domain.
ghost use Rattle.std.specs.Prelude.{◌≡◌};
ghost use Rattle.dory_wire.specs.Spelling.{IsEntry};
ghost use Rattle.dory_shared.specs.Seen.{names_of};

use crate::asking::{is_same, keys, request, search};
use crate::fault::Fault;
use crate::folder::{FOLDER, Filling, update};
use crate::timed::{Timed, now};
use dory_base::{Entry, Found, Refusal, Shape};
use dory_kernel::RowKernel;
use dory_shared::{Domain, Held, Names, Seat};
use dory_wire::{Want, What};
use std::alloc::Global;
use std::rt::Clock;
use std::sync::Wait;
use std::thread::Threads;

/// Stages and orders an update.
fn commit<J: Names, R: Wait + Clock>(
    rt: &R,
    alloc: Global,
    domain: &Domain<'_, J, R>,
    seat: &mut Seat,
    entry: Entry,
    timed: &mut Timed,
) -> Result<(), Fault>
    requires fits { names_of seat.old ≡ J.names }
    requires entry { IsEntry entry }
    ensures fits { names_of seat.new ≡ J.names }
{
    let id = entry.id;
    let stage = request(Want::Stage { entry });
    let order = request(Want::Order { id });
    let start = now(rt)?;
    domain.write(rt, alloc, seat, &stage);
    let what = domain.write(rt, alloc, seat, &order).what;
    timed.add(rt, start)?;
    match what {
        What::Committed { number, .. } => {
            timed.last = number;
            Ok(())
        }
        _ => Err(Fault::Unexpected),
    }
}

/// So many updates of a folder that has had some before.
pub fn updates<J: Names, R: Wait + Clock>(
    rt: &R,
    alloc: Global,
    domain: &Domain<'_, J, R>,
    seat: &mut Seat,
    filling: &Filling,
    before: u32,
    count: u32,
) -> Result<Timed, Fault>
    requires { names_of seat.old ≡ J.names }
    ensures fits { names_of seat.new ≡ J.names }
{
    let mut timed = Timed::new();
    for step in 0..count {
        let serial = before.saturating_add(step + 1);
        let entry = update(alloc, filling, serial)?;
        commit(rt, alloc, domain, seat, entry, &mut timed)?;
    }
    Ok(timed)
}

/// Whether an answer is this one.
fn is_found(what: &What, plain: &Found) -> bool {
    match what {
        What::Found { found } => is_same(found, plain),
        _ => false,
    }
}

/// Searches of a version one after the other, each of which finds what the plain domain found.
pub fn reads<R: Threads + Sync + Clock>(
    rt: &R,
    alloc: Global,
    kernel: &RowKernel,
    seat: Seat,
    shape: Shape,
    plain: &Found,
    turns: u32,
) -> Result<Timed, Fault> {
    let mut seat = seat;
    let version = plain.version;
    let request = search(alloc, shape, version)?;
    let mut timed = Timed::new();
    for _ in 0..turns {
        let start = now(rt)?;
        let what = seat.read(rt, alloc, kernel, &request).what;
        timed.add(rt, start)?;
        if !is_found(&what, plain) {
            return Err(Fault::Unexpected);
        }
        timed.last = version;
    }
    Ok(timed)
}

/// Keeps a version and searches what is kept, one after the other, and hands over the last that was kept.
pub fn holds<R: Threads + Sync + Clock>(
    rt: &R,
    alloc: Global,
    kernel: &RowKernel,
    seat: Seat,
    shape: Shape,
    plain: &Found,
    turns: u32,
) -> Result<(Held, Timed), Fault> {
    let mut seat = seat;
    let version = plain.version;
    let keys = keys(alloc, shape)?;
    let mut timed = Timed::new();
    for _ in 0..turns {
        let start = now(rt)?;
        let Ok(held) = seat.hold(FOLDER, version) else {
            return Err(Fault::Unexpected);
        };
        let what = held.answer(rt, alloc, kernel, shape, &keys);
        timed.add(rt, start)?;
        if !is_found(&what, plain) {
            return Err(Fault::Unexpected);
        }
        timed.last = version;
    }
    match seat.hold(FOLDER, version) {
        Ok(held) => Ok((held, timed)),
        Err(_) => Err(Fault::Unexpected),
    }
}

/// Searches of a version that is kept, each of which finds what the plain domain found.
pub fn answers<R: Threads + Sync + Clock>(
    rt: &R,
    alloc: Global,
    kernel: &RowKernel,
    held: &Held,
    shape: Shape,
    plain: &Found,
    turns: u32,
) -> Result<Timed, Fault> {
    let version = plain.version;
    let keys = keys(alloc, shape)?;
    let mut timed = Timed::new();
    for _ in 0..turns {
        let start = now(rt)?;
        let what = held.answer(rt, alloc, kernel, shape, &keys);
        timed.add(rt, start)?;
        if !is_found(&what, plain) {
            return Err(Fault::Unexpected);
        }
        timed.last = version;
    }
    Ok(timed)
}

/// How often a reader looks at most.
const LOOKS: u32 = 1_000_000;

/// The length of the folder's history.
fn latest<R: Threads + Sync>(
    rt: &R,
    alloc: Global,
    kernel: &RowKernel,
    seat: &mut Seat,
) -> Result<u32, Fault> {
    match seat.read(rt, alloc, kernel, &request(Want::Latest)).what {
        What::At { length } => Ok(length),
        _ => Err(Fault::Unexpected),
    }
}

/// Searches of the newest version until it is this one. Each finds all documents, or that the version is no longer retained,
/// and none finds an older version than the one before.
pub fn reads_until<R: Threads + Sync + Clock>(
    rt: &R,
    alloc: Global,
    kernel: &RowKernel,
    seat: Seat,
    filling: &Filling,
    last: u32,
) -> Result<Timed, Fault> {
    let (shape, documents) = (filling.shape, filling.documents);
    let mut seat = seat;
    let mut timed = Timed::new();
    for _ in 0..LOOKS {
        let version = latest(rt, alloc, kernel, &mut seat)?;
        if version < timed.last {
            return Err(Fault::Unexpected);
        }
        let request = search(alloc, shape, version)?;
        let start = now(rt)?;
        let what = seat.read(rt, alloc, kernel, &request).what;
        if has_all(&what, documents, version)? {
            timed.add(rt, start)?;
            timed.last = version;
        }
        if version == last {
            return Ok(timed);
        }
    }
    Err(Fault::Unexpected)
}

/// Whether a search found a version with all documents. It may find too that the version is no longer retained.
fn has_all(what: &What, documents: u32, version: u32) -> Result<bool, Fault> {
    match what {
        What::Found { found } => {
            let lines = found.manifest.items().len();
            if found.version == version && lines == documents as usize {
                Ok(true)
            } else {
                Err(Fault::Unexpected)
            }
        }
        What::Refused {
            code: Refusal::Unretained { .. },
        } => Ok(false),
        _ => Err(Fault::Unexpected),
    }
}
