//! A shared domain by worked examples: how it opens, and seats that post, hold, tell, learn and search beside each other.
ghost use Rattle.std.specs.Prelude.{◌≡◌, ◌≤◌, ◌^◌, length, IfOk};
ghost use Rattle.dory_dpf.specs.PointKey.{IsKeyOf};
ghost use Rattle.dory_wire.specs.Spelling.{IsEntry, IsRequest, IsWant, AreKeys};
ghost use Rattle.dory_shared.specs.Seen.{names_of};

mod refused;

use crate::{Domain, Held, Names, OpenError, Opened, Seat, open_domain};
use dory_base::{
    AskId, Bits, Change, DocId, Entry, FolderId, MemberId, NoMemory, Refusal, Shape, Side, Tag,
    Tags, UpdateId,
};
use dory_domain::{Config, ConfigFault, FolderConfig, FolderList};
use dory_dpf::{Key, Keys, gen_short};
use dory_kernel::{RowKernel, plain_parity};
use dory_shelf::{FailingPlaces, Places};
use dory_wire::{Request, Want, What};
use std::alloc::{AllocError, Global};
use std::marker::Brand;
use std::sync::Wait;
use std::test::Fail;
use std::thread::Threads;

/// A lead with folders 1 to n, each of which retains three versions, and so many seats.
fn config(alloc: Global, folders: u32, seats: u32) -> Result<Config, NoMemory> {
    let mut all = Vec::new(alloc);
    for n in 0..folders {
        all.push(FolderConfig {
            folder: FolderId(n.saturating_add(1)),
            shape: Shape::of(8, 2),
            retained: 3,
        })?;
    }
    Ok(Config {
        role: Side::Lead,
        folders: FolderList::of(all),
        seats,
    })
}

/// How many seats a domain opens with, where the call of this number for a place fails.
fn opened<R: Wait>(
    rt: &R,
    alloc: Global,
    folders: u32,
    seats: u32,
    fails: u64,
) -> Result<usize, OpenError> {
    let Ok(config) = config(alloc, folders, seats) else {
        return Err(OpenError::NoMemory);
    };
    let Ok(listed) = vec![in alloc; fails; 1] else {
        return Err(OpenError::NoMemory);
    };
    let mut places = FailingPlaces::new(Places::new(), listed);
    let (opened, seats) = open_domain(rt, alloc, &config, &mut places)?;
    let count = seats.len();
    opened.close();
    Ok(count)
}

#[test]
fn a_domain_opens_with_a_place_for_each_seat_and_folder(rt: HostRuntime) -> Result<(), Fail> {
    let alloc = rt.alloc();
    assert_eq!(rt; opened(&rt, alloc, 8, 32, 257), Ok(32));
    assert_eq!(rt;
        opened(&rt, alloc, 8, 32, 256),
        Err(OpenError::PlaceRefused)
    );
    assert_eq!(rt; opened(&rt, alloc, 1, 3, 3), Err(OpenError::PlaceRefused));
    let folders = ConfigFault::Folders { n: 9 };
    assert_eq!(rt;
        opened(&rt, alloc, 9, 33, 1),
        Err(OpenError::BadConfig(folders))
    );
    let seats = ConfigFault::Seats { n: 33 };
    assert_eq!(rt;
        opened(&rt, alloc, 1, 33, 1),
        Err(OpenError::BadConfig(seats))
    );
    Ok(())
}

/// A request of member 0 for folder 1.
fn request(want: Want) -> Request
    requires { IsWant want }
    ensures range { IsRequest result }
    ensures want { result.want ≡ want }
{
    Request {
        ask: AskId {
            member: MemberId(0),
            serial: 1,
            step: 0,
        },
        folder: FolderId(1),
        want,
    }
}

/// A post of a row with two set cells and zero tags.
fn post(alloc: Global, serial: u32, doc: u32) -> Result<Entry, NoMemory>
    requires some { 1 ≤ serial }
    ensures { IfOk result IsEntry }
{
    let shape = Shape::of(8, 2);
    let mut row = Bits::zero(alloc, 256)?;
    row.put(0, true);
    row.put(255, true);
    let tags = vec![in alloc; Tag::zero(); 256]?;
    Ok(Entry {
        id: UpdateId {
            member: MemberId(0),
            serial: serial as u64,
        },
        doc: DocId(doc),
        change: Change::Post {
            shape,
            row,
            tags: Tags::of(tags),
        },
    })
}

/// The lead's key for a column, whose tree begins with zeros.
fn key(column: u8) -> Key
    ensures { IsKeyOf 2 8 result }
{
    let (lead, _follow) = gen_short(Shape::of(8, 2), column as u16, [0; 16], [0; 16]);
    let _depth = lead.depth();
    lead
}

/// Keys for columns 0 and 7.
fn keys(alloc: Global) -> Result<Keys, NoMemory>
    ensures { IfOk result (λ keys. AreKeys (record { depth = 8; probes = 2 }) keys) }
{
    let mut keys = Vec::new(alloc);
    keys.push(key(0))?;
    keys.push(key(7))?;
    Ok(Keys::of(keys))
}

/// What a seat is answered.
fn ask<J: Names, R: Threads + Wait + Sync>(
    rt: &R,
    alloc: Global,
    domain: &Domain<'_, J, R>,
    seat: &mut Seat,
    want: Want,
) -> What
    requires fits { names_of seat.old ≡ J.names }
    requires range { IsWant want }
    ensures fits { names_of seat.new ≡ J.names }
{
    domain.answer(rt, alloc, seat, &request(want)).what
}

/// Stages and orders the next update: whether it is committed at this number.
fn commit<J: Names, R: Threads + Wait + Sync>(
    rt: &R,
    alloc: Global,
    domain: &Domain<'_, J, R>,
    seat: &mut Seat,
    serial: u32,
    doc: u32,
) -> Result<bool, NoMemory>
    requires fits { names_of seat.old ≡ J.names }
    requires some { 1 ≤ serial }
    ensures fits { names_of seat.new ≡ J.names }
{
    let entry = post(alloc, serial, doc)?;
    let id = entry.id;
    ask(rt, alloc, domain, seat, Want::Stage { entry });
    match ask(rt, alloc, domain, seat, Want::Order { id }) {
        What::Committed { number, .. } => Ok(number == serial),
        _ => Ok(false),
    }
}

/// A length that was answered.
fn length_of(what: &What) -> Option<u32> {
    match what {
        What::At { length } => Some(*length),
        _ => None,
    }
}

/// The number and the lines of what was found.
fn found_of(what: &What) -> Option<(u32, usize)> {
    match what {
        What::Found { found } => Some((found.version, found.manifest.items().len())),
        _ => None,
    }
}

/// What is found of a version that is kept.
fn found_in<R: Threads + Sync>(
    rt: &R,
    alloc: Global,
    kernel: &RowKernel,
    held: &Held,
) -> Result<Option<(u32, usize)>, NoMemory> {
    let keys = keys(alloc)?;
    Ok(found_of(&held.answer(rt, alloc, kernel, Shape::of(8, 2), &keys)))
}

/// What two seats saw.
#[derive(Debug, Drop, PartialEq, Eq)]
struct Saw {
    committed: bool,
    held: Option<(u32, usize)>,
    before: Option<u32>,
    after: Option<u32>,
    own: Option<u32>,
    gone: bool,
}

/// One seat posts three documents and keeps version 3; the other posts two more, and tells the first.
fn two_seats<J: Names, R: Threads + Wait + Sync>(
    rt: &R,
    alloc: Global,
    opened: Opened<'_, R>,
    first: Seat,
    second: Seat,
) -> Result<Saw, NoMemory>
    requires opened { names_of opened ≡ J.names }
    requires first { names_of first ≡ J.names }
    requires second { names_of second ≡ J.names }
{
    let domain = opened.named::<J>(RowKernel::new(plain_parity));
    let mut first = first;
    let mut second = second;
    let mut committed = true;
    for serial in 1..4 {
        committed = commit(rt, alloc, &domain, &mut first, serial, serial)? && committed;
    }
    let before = length_of(&ask(rt, alloc, &domain, &mut second, Want::Latest));
    let Ok(held) = first.hold(FolderId(1), 3) else {
        return Err(NoMemory);
    };
    for serial in 4..6 {
        committed = commit(rt, alloc, &domain, &mut second, serial, serial)? && committed;
    }
    let own = length_of(&ask(rt, alloc, &domain, &mut second, Want::Latest));
    let Ok(note) = domain.note(rt, &mut second, FolderId(1)) else {
        return Err(NoMemory);
    };
    first.learn(note);
    let after = length_of(&ask(rt, alloc, &domain, &mut first, Want::Latest));
    let gone = match first.hold(FolderId(1), 2) {
        Err(Refusal::Unretained { oldest, newest }) => oldest == 3 && newest == 5,
        _ => false,
    };
    let held = found_in(rt, alloc, &domain.kernel, &held)?;
    domain.close();
    Ok(Saw {
        committed,
        held,
        before,
        after,
        own,
        gone,
    })
}

#[test]
fn a_seat_reads_what_it_was_told_and_keeps_what_it_held(rt: HostRuntime) -> Result<(), Fail> {
    let alloc = rt.alloc();
    let mut places = Places::new();
    let Ok(config) = config(alloc, 1, 2) else {
        return Err(Fail::from(AllocError));
    };
    let Ok((opened, seats)) = open_domain(&rt, alloc, &config, &mut places) else {
        return Err(Fail::from(AllocError));
    };
    let mut seats = seats;
    let (Some(second), Some(first)) = (seats.pop(), seats.pop()) else {
        return Err(Fail::from(AllocError));
    };
    let Ok(saw) = two_seats::<Brand, _>(&rt, alloc, opened, first, second) else {
        return Err(Fail::from(AllocError));
    };
    let want = Saw {
        committed: true,
        held: Some((3, 3)),
        before: Some(3),
        after: Some(5),
        own: Some(5),
        gone: true,
    };
    assert_eq!(rt; saw, want);
    Ok(())
}
