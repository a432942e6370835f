//! A folder whose documents are all posted: searches and updates of it by one caller, and by two at once.
ghost use Rattle.std.specs.Prelude.{◌≡◌};
ghost use Rattle.dory_shared.specs.Seen.{names_of};

use crate::fault::Fault;
use crate::folder::{Filling, config};
use crate::plain::alone;
use crate::seats::{answers, holds, reads, reads_until, updates};
use crate::timed::Timed;
use dory_kernel::RowKernel;
use dory_shared::{Domain, Names, Opened, Seat, open_domain};
use dory_shelf::Places;
use std::alloc::Global;
use std::marker::Brand;
use std::rt::Clock;
use std::sync::Wait;
use std::thread::{Threads, join};

/// How much is done.
#[derive(Drop)]
pub struct Work {
    pub filling: Filling,
    /// How many searches of each kind there are.
    pub reads: u32,
    /// How many updates there are with nobody beside.
    pub writes: u32,
    /// How many updates there are beside a reader.
    pub beside: u32,
}

/// What each piece of work took.
#[derive(Clone, Copy)]
pub struct Rows {
    pub plain_read: Timed,
    pub plain_write: Timed,
    pub write_first: Timed,
    pub read: Timed,
    pub hold: Timed,
    pub write: Timed,
    pub write_beside: Timed,
    pub read_beside: Timed,
    pub answer: Timed,
}

/// One seat replaces documents while another searches.
fn at_once<J: Names + Send + Sync, R: Threads + Wait + Clock + Sync>(
    rt: &R,
    alloc: Global,
    domain: &Domain<'_, J, R>,
    writer: Seat,
    reader: Seat,
    filling: &Filling,
    before: u32,
    count: u32,
) -> Result<(Timed, Timed), Fault>
    requires { names_of writer ≡ J.names }
{
    let last = before.saturating_add(count);
    let (wrote, read) = join(
        rt,
        || -> Result<Timed, Fault>
            requires { names_of writer ≡ J.names }
        {
            let mut writer = writer;
            updates(rt, alloc, domain, &mut writer, filling, before, count)
        },
        || reads_until(rt, alloc, &domain.kernel, reader, filling, last),
    );
    Ok((wrote?, read?))
}

/// All that is done with the folder.
fn all_of<J: Names + Send + Sync, R: Threads + Wait + Clock + Sync>(
    rt: &R,
    alloc: Global,
    kernel: &RowKernel,
    work: &Work,
    opened: Opened<'_, R>,
    writer: Seat,
    readers: (Seat, Seat, Seat),
) -> Result<Rows, Fault>
    requires opened { names_of opened ≡ J.names }
    requires writer { names_of writer ≡ J.names }
{
    let domain = opened.named::<J>(kernel.again());
    let mut writer = writer;
    let (one, two, three) = readers;
    let (turns, writes, beside) = (work.reads, work.writes, work.beside);
    let filling = &work.filling;
    let (shape, documents) = (filling.shape, filling.documents);
    let (found, plain_read, plain_write) = alone(rt, alloc, kernel, filling, turns)?;
    let write_first = updates(rt, alloc, &domain, &mut writer, filling, 0, documents)?;
    let read = reads(rt, alloc, kernel, one, shape, &found, turns)?;
    let (held, hold) = holds(rt, alloc, kernel, two, shape, &found, turns)?;
    let write = updates(rt, alloc, &domain, &mut writer, filling, documents, writes)?;
    let before = documents.saturating_add(writes);
    let (write_beside, read_beside) = at_once(
        rt, alloc, &domain, writer, three, filling, before, beside,
    )?;
    let answer = answers(rt, alloc, kernel, &held, shape, &found, turns)?;
    Ok(Rows {
        plain_read,
        plain_write,
        write_first,
        read,
        hold,
        write,
        write_beside,
        read_beside,
        answer,
    })
}

/// Opens a domain, and does all that is done with its folder.
pub fn measure<R: Threads + Wait + Clock + Sync>(
    rt: &R,
    alloc: Global,
    kernel: &RowKernel,
    work: &Work,
) -> Result<Rows, Fault> {
    let config = config(alloc, &work.filling, 4)?;
    let mut places = Places::new();
    let Ok((opened, seats)) = open_domain(rt, alloc, &config, &mut places) else {
        return Err(Fault::Closed);
    };
    let mut seats = seats;
    let (Some(writer), Some(one), Some(two), Some(three)) = (
        seats.pop(),
        seats.pop(),
        seats.pop(),
        seats.pop(),
    ) else {
        return Err(Fault::Closed);
    };
    all_of::<Brand, R>(rt, alloc, kernel, work, opened, writer, (one, two, three))
}
