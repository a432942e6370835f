//! Many updates of a folder, one after the other.
ghost use Rattle.std.specs.Prelude.{◌≡◌};
ghost use Rattle.dory_shared.specs.Seen.{names_of};

use crate::fault::Fault;
use crate::folder::{Filling, config};
use crate::seats::updates;
use crate::timed::Timed;
use dory_kernel::RowKernel;
use dory_shared::{Names, Opened, Seat, open_domain};
use dory_shelf::Places;
use std::alloc::Global;
use std::marker::Brand;
use std::rt::Clock;
use std::sync::Wait;

/// So many updates at the start, so many between, and so many at the end as at the start.
fn parts<J: Names, R: Wait + Clock>(
    rt: &R,
    alloc: Global,
    kernel: &RowKernel,
    filling: &Filling,
    ends: u32,
    between: u32,
    opened: Opened<'_, R>,
    writer: Seat,
) -> Result<(Timed, Timed), Fault>
    requires opened { names_of opened ≡ J.names }
    requires writer { names_of writer ≡ J.names }
{
    let domain = opened.named::<J>(kernel.again());
    let mut writer = writer;
    let first = updates(rt, alloc, &domain, &mut writer, filling, 0, ends)?;
    updates(rt, alloc, &domain, &mut writer, filling, ends, between)?;
    let before = ends.saturating_add(between);
    let last = updates(rt, alloc, &domain, &mut writer, filling, before, ends)?;
    Ok((first, last))
}

/// Opens a domain, and updates its folder.
pub fn measure<R: Wait + Clock>(
    rt: &R,
    alloc: Global,
    kernel: &RowKernel,
    filling: &Filling,
    ends: u32,
    between: u32,
) -> Result<(Timed, Timed), Fault> {
    let config = config(alloc, filling, 1)?;
    let mut places = Places::new();
    let Ok((opened, seats)) = open_domain(rt, alloc, &config, &mut places) else {
        return Err(Fault::Closed);
    };
    let mut seats = seats;
    let Some(writer) = seats.pop() else {
        return Err(Fault::Closed);
    };
    parts::<Brand, R>(rt, alloc, kernel, filling, ends, between, opened, writer)
}
