//! The same folder in a domain that one caller has to itself.
ghost use Rattle.std.specs.Prelude.{◌≡◌};
ghost use Rattle.dory_wire.specs.Spelling.{IsEntry};

use crate::asking::{request, search};
use crate::fault::Fault;
use crate::folder::{Filling, folder, update};
use crate::timed::{Timed, now};
use dory_base::{Entry, Found, Side};
use dory_domain::DomainCore;
use dory_kernel::RowKernel;
use dory_wire::{Want, What};
use std::alloc::Global;
use std::rt::Clock;

/// Stages and orders an update.
fn commit<C: Clock>(
    clock: &C,
    alloc: Global,
    core: &mut DomainCore,
    entry: Entry,
    timed: &mut Timed,
) -> Result<(), Fault>
    requires { IsEntry entry }
{
    let id = entry.id;
    let stage = request(Want::Stage { entry });
    let order = request(Want::Order { id });
    let start = now(clock)?;
    core.step(alloc, &stage);
    let what = core.step(alloc, &order).what;
    timed.add(clock, start)?;
    match what {
        What::Committed { number, .. } => {
            timed.last = number;
            Ok(())
        }
        _ => Err(Fault::Unexpected),
    }
}

/// Posts each document once.
fn fill<C: Clock>(
    clock: &C,
    alloc: Global,
    core: &mut DomainCore,
    filling: &Filling,
) -> Result<Timed, Fault> {
    let mut timed = Timed::new();
    let documents = filling.documents;
    for before in 0..documents {
        let entry = update(alloc, filling, before + 1)?;
        commit(clock, alloc, core, entry, &mut timed)?;
    }
    Ok(timed)
}

/// Searches of the newest version one after the other, and what the last of them found.
fn searches<C: Clock>(
    clock: &C,
    alloc: Global,
    core: &mut DomainCore,
    filling: &Filling,
    turns: u32,
) -> Result<(Found, Timed), Fault> {
    let (shape, documents) = (filling.shape, filling.documents);
    let request = search(alloc, shape, documents)?;
    let mut timed = Timed::new();
    for _ in 0..turns {
        let start = now(clock)?;
        let what = core.step(alloc, &request).what;
        timed.add(clock, start)?;
        let What::Found { found } = what else {
            return Err(Fault::Unexpected);
        };
        timed.last = found.version;
    }
    match core.step(alloc, &request).what {
        What::Found { found } => Ok((found, timed)),
        _ => Err(Fault::Unexpected),
    }
}

/// What a plain domain finds, and the times of its searches and of the updates before them.
pub fn alone<C: Clock>(
    clock: &C,
    alloc: Global,
    kernel: &RowKernel,
    filling: &Filling,
    turns: u32,
) -> Result<(Found, Timed, Timed), Fault> {
    let folders = [folder(filling)];
    let Ok(mut core) = DomainCore::new(alloc, Side::Lead, &folders, kernel.again()) else {
        return Err(Fault::Closed);
    };
    let written = fill(clock, alloc, &mut core, filling)?;
    let (found, read) = searches(clock, alloc, &mut core, filling, turns)?;
    Ok((found, read, written))
}
