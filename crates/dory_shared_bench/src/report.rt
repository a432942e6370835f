//! The two reports: what each piece of work came to, or a table of times.

use crate::fault::Fault;
use crate::folder::{Filling, narrow, wide};
use crate::full::{self, Rows, Work};
use crate::long;
use crate::timed::Timed;
use dory_kernel::RowKernel;
use std::alloc::Global;
use std::rt::Clock;
use std::sync::Wait;
use std::thread::Threads;

/// Prints how many calls a piece of work was, and at which version the last of them was.
fn print_calls<P: Print>(rt: &P, name: &str, timed: Timed) -> Result<(), Fault> {
    let (calls, last) = (timed.calls, timed.last);
    let printed = println!(rt; "{name} {calls} calls, the last at version {last}");
    printed.map_err(|_| Fault::Output)
}

/// Prints at which version the last call of a piece of work was, where the number of calls isn't the same each time.
fn print_last<P: Print>(rt: &P, name: &str, timed: Timed) -> Result<(), Fault> {
    let last = timed.last;
    let printed = println!(rt; "{name} the last at version {last}");
    printed.map_err(|_| Fault::Output)
}

/// Prints the names of the columns.
fn print_head<P: Print>(rt: &P) -> Result<(), Fault> {
    let printed = println!(rt; "work                  calls   µs/call  last version");
    printed.map_err(|_| Fault::Output)
}

/// Prints how many calls a piece of work was, the microseconds of each, and at which version the last was.
fn print_time<P: Print>(rt: &P, name: &str, timed: Timed) -> Result<(), Fault> {
    let (calls, last, tenths) = (timed.calls, timed.last, timed.tenths());
    let (whole, tenth) = (tenths / 10, tenths % 10);
    let printed = println!(rt; "{name:<18} {calls:>8} {whole:>7}.{tenth} {last:>13}");
    printed.map_err(|_| Fault::Output)
}

/// What is done with a small folder.
fn small() -> Work {
    Work {
        filling: Filling {
            shape: narrow(),
            documents: 64,
            retained: 8,
        },
        reads: 20,
        writes: 40,
        beside: 200,
    }
}

/// What is done with a full folder.
fn whole() -> Work {
    Work {
        filling: Filling {
            shape: wide(),
            documents: 4096,
            retained: 64,
        },
        reads: 500,
        writes: 2000,
        beside: 4000,
    }
}

/// Prints what came of all that was done with a folder.
fn print_all_calls<P: Print>(rt: &P, rows: &Rows) -> Result<(), Fault> {
    print_calls(rt, "plain-search", rows.plain_read)?;
    print_calls(rt, "plain-write", rows.plain_write)?;
    print_calls(rt, "write-first", rows.write_first)?;
    print_calls(rt, "read", rows.read)?;
    print_calls(rt, "hold", rows.hold)?;
    print_calls(rt, "write", rows.write)?;
    print_calls(rt, "write-beside", rows.write_beside)?;
    print_last(rt, "read-beside", rows.read_beside)?;
    print_calls(rt, "answer", rows.answer)
}

/// Prints the times of all that was done with a folder.
fn print_all_times<P: Print>(rt: &P, rows: &Rows) -> Result<(), Fault> {
    print_head(rt)?;
    print_time(rt, "plain-search", rows.plain_read)?;
    print_time(rt, "plain-write", rows.plain_write)?;
    print_time(rt, "write-first", rows.write_first)?;
    print_time(rt, "read", rows.read)?;
    print_time(rt, "hold", rows.hold)?;
    print_time(rt, "answer", rows.answer)?;
    print_time(rt, "write", rows.write)?;
    print_time(rt, "write-beside", rows.write_beside)?;
    print_time(rt, "read-beside", rows.read_beside)
}

/// Does each piece of work at a small size, and prints what came of it.
pub fn check<R: Threads + Wait + Clock + Sync + Print>(
    rt: &R,
    alloc: Global,
    kernel: &RowKernel,
) -> Result<(), Fault> {
    print_all_calls(rt, &full::measure(rt, alloc, kernel, &small())?)?;
    let (first, last) = long::measure(rt, alloc, kernel, &removals(), 50, 100)?;
    print_calls(rt, "history-first", first)?;
    print_calls(rt, "history-last", last)?;
    let (first, last) = long::measure(rt, alloc, kernel, &replacements(), 50, 100)?;
    print_calls(rt, "replaced-first", first)?;
    print_calls(rt, "replaced-last", last)
}

/// Times the work with a full folder.
pub fn time_full<R: Threads + Wait + Clock + Sync + Print>(
    rt: &R,
    alloc: Global,
    kernel: &RowKernel,
) -> Result<(), Fault> {
    print_all_times(rt, &full::measure(rt, alloc, kernel, &whole())?)
}

/// Updates each of which removes a document that isn't there.
fn removals() -> Filling {
    Filling {
        shape: narrow(),
        documents: 0,
        retained: 64,
    }
}

/// Updates that replace 64 documents.
fn replacements() -> Filling {
    Filling {
        shape: narrow(),
        documents: 64,
        retained: 64,
    }
}

/// Times the updates of a long history at its start and at its end.
fn time_long<R: Wait + Clock + Print>(
    rt: &R,
    alloc: Global,
    kernel: &RowKernel,
    filling: &Filling,
    ends: u32,
    between: u32,
) -> Result<(), Fault> {
    let (first, last) = long::measure(rt, alloc, kernel, filling, ends, between)?;
    print_head(rt)?;
    print_time(rt, "write-start", first)?;
    print_time(rt, "write-end", last)
}

/// Times as many updates as a history may have.
pub fn time_history<R: Wait + Clock + Print>(
    rt: &R,
    alloc: Global,
    kernel: &RowKernel,
) -> Result<(), Fault> {
    time_long(rt, alloc, kernel, &removals(), 4096, 1_040_384)
}

/// Times 100,000 updates of 64 documents, or 1,000.
pub fn time_replaced<R: Wait + Clock + Print>(
    rt: &R,
    alloc: Global,
    kernel: &RowKernel,
    few: bool,
) -> Result<(), Fault> {
    let between = if few { 0 } else { 99_000 };
    time_long(rt, alloc, kernel, &replacements(), 500, between)
}
