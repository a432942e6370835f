//! A seat answers each request to the bit as a domain in memory does that has had the same requests.
ghost use Rattle.std.specs.Prelude.{◌≡◌, ◌≤◌, IfOk};
ghost use Rattle.dory_wire.specs.Spelling.{IsEntry, IsRequest};
ghost use Rattle.dory_shared.specs.Seen.{names_of};

use super::{config, keys, post, request, shape, update};
use dory_base::{Entry, FolderId, NoMemory, Side, Tag};
use dory_domain::{DomainCore, FolderConfig};
use dory_kernel::{RowKernel, plain_parity};
use dory_shared::{Domain, Names, Opened, Seat, open_domain};
use dory_shelf::Places;
use dory_wire::{Request, Want, encode_reply};
use std::alloc::{AllocError, Global};
use std::marker::Brand;
use std::sync::Wait;
use std::test::Fail;
use std::thread::Threads;

/// Whether both answer a request by the same frame.
fn same<J: Names, R: Threads + Wait + Sync>(
    rt: &R,
    alloc: Global,
    domain: &Domain<'_, J, R>,
    seat: &mut Seat,
    core: &mut DomainCore,
    request: &Request,
) -> bool
    requires fits { names_of seat.old ≡ J.names }
    requires range { IsRequest request.now }
    ensures fits { names_of seat.new ≡ J.names }
{
    let seats = domain.answer(rt, alloc, seat, request);
    let cores = core.step(alloc, request);
    match (encode_reply(alloc, &seats), encode_reply(alloc, &cores)) {
        (Ok(one), Ok(other)) => one.as_slice() == other.as_slice(),
        _ => false,
    }
}

/// The update of this serial: of three documents one is posted, or the last removed.
fn mixed(alloc: Global, mark: u8) -> Result<Entry, NoMemory>
    requires some { 1 ≤ mark }
    ensures { IfOk result IsEntry }
{
    let serial = mark as u32;
    if serial == 5 {
        return update(alloc, serial, 2, false);
    }
    post(alloc, serial, serial % 3, (mark, 200), Tag::of([mark; 16]))
}

/// Whether both stage and order the update of this serial alike.
fn updates<J: Names, R: Threads + Wait + Sync>(
    rt: &R,
    alloc: Global,
    domain: &Domain<'_, J, R>,
    seat: &mut Seat,
    core: &mut DomainCore,
    mark: u8,
) -> Result<bool, NoMemory>
    requires fits { names_of seat.old ≡ J.names }
    requires some { 1 ≤ mark }
    ensures fits { names_of seat.new ≡ J.names }
{
    let entry = mixed(alloc, mark)?;
    let id = entry.id;
    let stage = request(Want::Stage { entry });
    let staged = same(rt, alloc, domain, seat, core, &stage);
    let ordered = same(rt, alloc, domain, seat, core, &request(Want::Order { id }));
    Ok(staged && ordered)
}

/// Whether both answer alike to a search by the keys of either side.
fn searches<J: Names, R: Threads + Wait + Sync>(
    rt: &R,
    alloc: Global,
    domain: &Domain<'_, J, R>,
    seat: &mut Seat,
    core: &mut DomainCore,
    version: u32,
) -> Result<bool, NoMemory>
    requires fits { names_of seat.old ≡ J.names }
    requires few { version ≤ 1048576 }
    ensures fits { names_of seat.new ≡ J.names }
{
    let lead = request(Want::Search {
        version,
        shape: shape(),
        keys: keys(alloc, (0, 200), false)?,
    });
    let led = same(rt, alloc, domain, seat, core, &lead);
    let follow = request(Want::Search {
        version,
        shape: shape(),
        keys: keys(alloc, (4, 0), true)?,
    });
    let followed = same(rt, alloc, domain, seat, core, &follow);
    Ok(led && followed)
}

/// Whether both answer alike to eight updates, and after each to searches of the first ten versions.
fn plays<J: Names, R: Threads + Wait + Sync>(
    rt: &R,
    alloc: Global,
    opened: Opened<'_, R>,
    seat: Seat,
    core: DomainCore,
    kernel: RowKernel,
) -> Result<bool, NoMemory>
    requires opened { names_of opened ≡ J.names }
    requires seat { names_of seat ≡ J.names }
{
    let domain = opened.named::<J>(kernel);
    let mut seat = seat;
    let mut core = core;
    let mut all = true;
    for serial in 1..9 {
        all = updates(rt, alloc, &domain, &mut seat, &mut core, serial)? && all;
        for version in 0..10 {
            all = searches(rt, alloc, &domain, &mut seat, &mut core, version)? && all;
        }
    }
    Ok(all)
}

/// A domain in memory with folder 1, of which three versions are retained.
fn core_of(alloc: Global, kernel: RowKernel) -> Option<DomainCore> {
    let folder = FolderConfig {
        folder: FolderId(1),
        shape: shape(),
        retained: 3,
    };
    DomainCore::new(alloc, Side::Lead, &[folder], kernel).ok()
}

#[test]
fn a_seat_answers_as_a_domain_in_memory(rt: HostRuntime) -> Result<(), Fail> {
    let alloc = rt.alloc();
    let mut places = Places::new();
    let kernel = RowKernel::new(plain_parity);
    let (Ok(config), Some(core)) = (config(alloc, 3, 1), core_of(alloc, kernel)) else {
        return Err(Fail::from(AllocError));
    };
    let Ok((opened, seats)) = open_domain(&rt, alloc, &config, &mut places) else {
        return Err(Fail::from(AllocError));
    };
    let mut seats = seats;
    let Some(seat) = seats.pop() else {
        return Err(Fail::from(AllocError));
    };
    let kernel = RowKernel::new(plain_parity);
    let alike = plays::<Brand, _>(&rt, alloc, opened, seat, core, kernel);
    assert_eq!(rt; alike, Ok(true));
    Ok(())
}
