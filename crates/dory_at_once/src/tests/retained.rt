//! A seat keeps exactly the versions that are retained.
ghost use Rattle.std.specs.Prelude.{◌≡◌};
ghost use Rattle.dory_shared.specs.Seen.{names_of};

use super::{commit, config, update};
use dory_base::{FolderId, NoMemory, Refusal};
use dory_kernel::{RowKernel, plain_parity};
use dory_shared::{Names, Opened, Seat, open_domain};
use dory_shelf::Places;
use std::alloc::{AllocError, Global};
use std::marker::Brand;
use std::sync::Wait;
use std::test::Fail;

/// The oldest and the newest version that are retained, where this one isn't.
fn kept(seat: &mut Seat, number: u32) -> Option<(u32, u32)> {
    match seat.hold(FolderId(1), number) {
        Err(Refusal::Unretained { oldest, newest }) => Some((oldest, newest)),
        _ => None,
    }
}

/// After so many updates, what is kept of a version and of the next.
fn after<J: Names, R: Wait>(
    rt: &R,
    alloc: Global,
    opened: Opened<'_, R>,
    seat: Seat,
    count: u32,
    number: u32,
) -> Result<(Option<(u32, u32)>, Option<(u32, u32)>), NoMemory>
    requires opened { names_of opened ≡ J.names }
    requires seat { names_of seat ≡ J.names }
{
    let domain = opened.named::<J>(RowKernel::new(plain_parity));
    let mut seat = seat;
    for before in 0..count {
        let serial = before + 1;
        let entry = update(alloc, serial, serial, true)?;
        commit(rt, alloc, &domain, &mut seat, entry, serial);
    }
    let first = kept(&mut seat, number);
    let next = kept(&mut seat, number.saturating_add(1));
    Ok((first, next))
}

#[test]
fn the_last_versions_are_kept_and_no_others(rt: HostRuntime) -> Result<(), Fail> {
    let alloc = rt.alloc();
    for (retained, count, number, want) in [
        (2, 5, 3, (Some((4, 5)), None)),
        (1, 5, 4, (Some((5, 5)), None)),
        (1, 0, 0, (None, Some((0, 0)))),
    ] {
        let mut places = Places::new();
        let Ok(config) = config(alloc, retained, 1) else {
            return Err(Fail::from(AllocError));
        };
        let Ok((opened, seats)) = open_domain(&rt, alloc, &config, &mut places) else {
            return Err(Fail::from(AllocError));
        };
        let mut seats = seats;
        let Some(seat) = seats.pop() else {
            return Err(Fail::from(AllocError));
        };
        let Ok(answered) = after::<Brand, _>(&rt, alloc, opened, seat, count, number) else {
            return Err(Fail::from(AllocError));
        };
        assert_eq!(rt; answered, want, "{count} updates, {retained} retained");
    }
    Ok(())
}
