//! Two seats read while a third publishes 20,000 operations.
ghost use Rattle.std.specs.Prelude.{◌≡◌};
ghost use Rattle.dory_shared.specs.Seen.{names_of};

use super::{commit, config, update};
use crate::read_until;
use dory_base::{FolderId, NoMemory};
use dory_kernel::{RowKernel, plain_parity};
use dory_shared::{Domain, Names, Opened, Seat, open_domain};
use dory_shelf::Places;
use std::alloc::{AllocError, Global};
use std::marker::Brand;
use std::process::Abort;
use std::sync::Wait;
use std::test::Fail;
use std::thread::{Threads, join};

/// Removes absent documents, as many as are asked for: whether each was committed at its number.
fn write_all<J: Names, R: Wait>(
    rt: &R,
    alloc: Global,
    domain: &Domain<'_, J, R>,
    seat: Seat,
    count: u32,
) -> bool
    requires { names_of seat ≡ J.names }
{
    let mut seat = seat;
    let mut all = true;
    for before in 0..count {
        let serial = before + 1;
        match update(alloc, serial, serial, false) {
            Ok(entry) => all = commit(rt, alloc, domain, &mut seat, entry, serial) && all,
            Err(NoMemory) => all = false,
        }
    }
    all
}

/// Reads the length until it is this one: whether none was below the one before, and the last is this one.
fn reads<R: Threads + Sync>(
    rt: &R,
    alloc: Global,
    kernel: &RowKernel,
    seat: Seat,
    count: u32,
) -> bool {
    let mut seat = seat;
    let read = read_until(rt, alloc, kernel, &mut seat, FolderId(1), count);
    read.rising && read.last == count
}

/// What the writer and the two readers say.
fn at_once<J: Names + Send + Sync, R: Threads + Wait + Abort + Sync>(
    rt: &R,
    alloc: Global,
    opened: Opened<'_, R>,
    writer: Seat,
    readers: (Seat, Seat),
) -> (bool, (bool, bool))
    requires opened { names_of opened ≡ J.names }
    requires writer { names_of writer ≡ J.names }
{
    let domain = opened.named::<J>(RowKernel::new(plain_parity));
    let (one, two) = readers;
    let said = join(
        rt,
        || -> bool
            requires { names_of writer ≡ J.names }
        { write_all(rt, alloc, &domain, writer, 10000) },
        || {
            join(
                rt,
                || reads(rt, alloc, &domain.kernel, one, 10000),
                || reads(rt, alloc, &domain.kernel, two, 10000),
            )
        },
    );
    said
}

#[test]
fn histories_grow_while_others_write(rt: HostRuntime) -> Result<(), Fail> {
    let alloc = rt.alloc();
    let mut places = Places::new();
    let Ok(config) = config(alloc, 4, 3) else {
        return Err(Fail::from(AllocError));
    };
    let Ok((opened, seats)) = open_domain(&rt, alloc, &config, &mut places) else {
        return Err(Fail::from(AllocError));
    };
    let mut seats = seats;
    let (Some(writer), Some(one), Some(two)) = (seats.pop(), seats.pop(), seats.pop()) else {
        return Err(Fail::from(AllocError));
    };
    let said = at_once::<Brand, _>(&rt, alloc, opened, writer, (one, two));
    assert_eq!(rt; said, (true, (true, true)));
    Ok(())
}
