//! Two seats search 512 documents while a third replaces some of them: each answer is exactly what its version holds.
ghost use Rattle.std.specs.Prelude.{◌≡◌, ◌≤◌, IfOk};
ghost use Rattle.dory_wire.specs.Spelling.{AreKeys, IsWant};
ghost use Rattle.dory_shared.specs.Seen.{names_of};

use super::{commit, config, keys, post, request, shape};
use crate::length;
use dory_base::{Bits, FolderId, Found, NoMemory, Place, Refusal, Tag};
use dory_dpf::Keys;
use dory_kernel::{RowKernel, plain_parity};
use dory_shared::{Domain, Names, Opened, Seat, open_domain};
use dory_shelf::Places;
use dory_wire::{Want, What};
use std::alloc::{AllocError, Global};
use std::marker::Brand;
use std::process::Abort;
use std::sync::Wait;
use std::test::Fail;
use std::thread::{Threads, join};

/// How many documents there are.
const MANY: u32 = 512;

/// How many of them are replaced.
const REPLACED: u32 = 120;

/// Commits these updates: whether each has its number. The first 512 post a document each with a cell of column 3, and
/// those after them replace the same documents, by rows with a cell of column 5.
fn writes<J: Names, R: Wait>(
    rt: &R,
    alloc: Global,
    domain: &Domain<'_, J, R>,
    seat: Seat,
    first: u32,
    count: u32,
) -> (bool, Seat)
    requires { names_of seat ≡ J.names }
    ensures { names_of result.1 ≡ J.names }
{
    let mut seat = seat;
    let mut all = true;
    for before in 0..count {
        let serial = first.saturating_add(before).saturating_add(1);
        let (doc, column) = if serial > MANY {
            (serial - MANY, 5)
        } else {
            (serial, 3)
        };
        match post(alloc, serial, doc, (column, column), Tag::zero()) {
            Ok(entry) => all = commit(rt, alloc, domain, &mut seat, entry, serial) && all,
            Err(NoMemory) => all = false,
        }
    }
    (all, seat)
}

/// Whether the two shares differ exactly at the slots below this one, or exactly at those from it on.
fn differ(lead: &Bits, follow: &Bits, end: usize, below: bool) -> bool {
    if lead.len() != 512 || follow.len() != 512 {
        return false;
    }
    for slot in 0..512 {
        let differs = lead.get(slot) != follow.get(slot);
        if differs != ((slot < end) == below) {
            return false;
        }
    }
    true
}

/// Whether slot after slot has document 1, 2, and so on, those below this slot by the update that replaced it.
fn are_lines(lines: &[Place], end: usize) -> bool {
    if lines.len() != 512 {
        return false;
    }
    for slot in 0..512 {
        let line = &lines[slot];
        let doc = slot as u32 + 1;
        let serial = if slot < end { doc + MANY } else { doc };
        let is = line.slot as usize == slot && line.doc.0 == doc && line.id.serial == serial as u64;
        if !is {
            return false;
        }
    }
    true
}

/// Whether the answers to the two sides' keys are those of this version, at which so many documents are replaced.
fn are_found(lead: &Found, follow: &Found, number: u32) -> bool {
    if number < MANY || lead.version != number || follow.version != number {
        return false;
    }
    let end = (number - MANY) as usize;
    let led = lead.sums.items();
    let followed = follow.sums.items();
    if led.len() != 2 || followed.len() != 2 {
        return false;
    }
    are_lines(lead.manifest.items(), end)
        && are_lines(follow.manifest.items(), end)
        && differ(&led[0].bits, &followed[0].bits, end, false)
        && differ(&led[1].bits, &followed[1].bits, end, true)
}

/// Whether this says that the version is older than those retained.
fn is_gone(what: &What, number: u32) -> bool {
    match what {
        What::Refused {
            code: Refusal::Unretained { oldest, .. },
        } => *oldest > number,
        _ => false,
    }
}

/// Whether the answers to the two sides' keys are right: both of this version, or it was gone by then.
fn are_right(lead: &What, follow: &What, number: u32) -> bool {
    match (lead, follow) {
        (What::Found { found: lead }, What::Found { found: follow }) => {
            are_found(lead, follow, number)
        }
        _ => is_gone(lead, number) || is_gone(follow, number),
    }
}

/// What a seat is answered to a search.
fn search<R: Threads + Sync>(
    rt: &R,
    alloc: Global,
    kernel: &RowKernel,
    seat: &mut Seat,
    version: u32,
    keys: Keys,
) -> What
    requires few { version ≤ 1048576 }
    requires keys { AreKeys (record { depth = 8; probes = 2 }) keys }
{
    let want = Want::Search {
        version,
        shape: shape(),
        keys,
    };
    seat.read(rt, alloc, kernel, &request(want)).what
}

/// Whether a search of this version is answered rightly, by the keys of either side.
fn searched<R: Threads + Sync>(
    rt: &R,
    alloc: Global,
    kernel: &RowKernel,
    seat: &mut Seat,
    version: u32,
) -> Result<bool, NoMemory> {
    if version > 1048576 {
        return Ok(false);
    }
    let ours = keys(alloc, (3, 5), false)?;
    let theirs = keys(alloc, (3, 5), true)?;
    let lead = search(rt, alloc, kernel, seat, version, ours);
    let follow = search(rt, alloc, kernel, seat, version, theirs);
    Ok(are_right(&lead, &follow, version))
}

/// Searches the newest version again and again, until all documents are replaced that are to be: whether each answer is right.
fn searches<R: Threads + Sync>(rt: &R, alloc: Global, kernel: &RowKernel, seat: Seat) -> bool {
    let mut seat = seat;
    for turn in 0..1000000 {
        let number = length(rt, alloc, kernel, &mut seat, FolderId(1));
        match searched(rt, alloc, kernel, &mut seat, number) {
            Ok(true) => {}
            _ => return false,
        }
        if number >= MANY + REPLACED {
            return true;
        }
    }
    false
}

/// What the writer says of both its parts, and what the two readers say.
fn at_once<J: Names + Send + Sync, R: Threads + Wait + Abort + Sync>(
    rt: &R,
    alloc: Global,
    opened: Opened<'_, R>,
    writer: Seat,
    readers: (Seat, Seat),
) -> (bool, bool, (bool, bool))
    requires opened { names_of opened ≡ J.names }
    requires writer { names_of writer ≡ J.names }
{
    let domain = opened.named::<J>(RowKernel::new(plain_parity));
    let (filled, writer) = writes(rt, alloc, &domain, writer, 0, MANY);
    let (one, two) = readers;
    let (replaced, read) = join(
        rt,
        || -> bool
            requires { names_of writer ≡ J.names }
        {
            let (all, _seat) = writes(rt, alloc, &domain, writer, MANY, REPLACED);
            all
        },
        || {
            join(
                rt,
                || searches(rt, alloc, &domain.kernel, one),
                || searches(rt, alloc, &domain.kernel, two),
            )
        },
    );
    (filled, replaced, read)
}

#[test]
fn many_documents_are_searched_while_some_are_replaced(rt: HostRuntime) -> Result<(), Fail> {
    let alloc = rt.alloc();
    let mut places = Places::new();
    let Ok(config) = config(alloc, 8, 3) else {
        return Err(Fail::from(AllocError));
    };
    let Ok((opened, seats)) = open_domain(&rt, alloc, &config, &mut places) else {
        return Err(Fail::from(AllocError));
    };
    let mut seats = seats;
    let (Some(writer), Some(one), Some(two)) = (seats.pop(), seats.pop(), seats.pop()) else {
        return Err(Fail::from(AllocError));
    };
    let said = at_once::<Brand, _>(&rt, alloc, opened, writer, (one, two));
    assert_eq!(rt; said, (true, true, (true, true)));
    Ok(())
}
