//! The two reports: a checksum for each piece of work, or a table of times.

use crate::fault::Fault;
use crate::known::print_known;
use crate::perform::perform;
use crate::run::{Run, Scale};
use crate::table::Row;
use dory_kernel::RowKernel;
use std::alloc::Global;
use std::rt::Clock;

/// In how many rounds the pieces of work are timed, in turn with each other.
const ROUNDS: u32 = 15;

/// How often each piece of work is done for its checksum.
const FEW: u32 = 3;

/// A row, and the least time that an operation took, in tenths of a nanosecond.
#[derive(Clone, Copy)]
struct Timed {
    row: Row,
    least: u64,
}

/// Does each piece of work a few times at a small size, and prints its checksum.
pub fn check<R: Clock + Print>(
    rt: &R,
    alloc: Global,
    kernel: &RowKernel,
    rows: &[Row],
) -> Result<(), Fault> {
    print_known(rt)?;
    for row in rows {
        let mut run = Run::new(rt, alloc, kernel, Scale::Small, FEW);
        perform(&mut run, row.work)?;
        let name = row.name;
        let sum = run.sum.value();
        let printed = println!(rt; "{name} {sum:016x}");
        printed.map_err(|_| Fault::Output)?;
    }
    Ok(())
}

/// The time of an operation, in tenths of a nanosecond.
fn measured<R: Clock>(rt: &R, alloc: Global, kernel: &RowKernel, row: &Row) -> Result<u64, Fault> {
    let mut run = Run::new(rt, alloc, kernel, Scale::Full, row.turns);
    perform(&mut run, row.work)?;
    let operations = u64::from(row.turns) * u64::from(row.operations);
    let tenths = run.spent().saturating_mul(10);
    Ok(tenths.checked_div(operations).unwrap_or(0))
}

/// Times the rows in turn, and prints the least time of each.
pub fn time<R: Clock + Print>(
    rt: &R,
    alloc: Global,
    kernel: &RowKernel,
    rows: &[Row],
) -> Result<(), Fault> {
    let mut table = Vec::new(alloc);
    for row in rows {
        table.push(Timed {
            row: *row,
            least: u64::MAX,
        })?;
    }
    for round in 0..ROUNDS {
        for timed in table.iter_mut() {
            if round < timed.row.rounds {
                let tenths = measured(rt, alloc, kernel, &timed.row)?;
                timed.least = timed.least.min(tenths);
            }
        }
    }
    print_table(rt, &table)
}

/// Prints a line for each row, below the names of the columns.
fn print_table<P: Print>(rt: &P, table: &[Timed]) -> Result<(), Fault> {
    let printed = println!(rt;
        "work             size                    ns/op      per op unit             ns/unit"
    );
    printed.map_err(|_| Fault::Output)?;
    for timed in table {
        print_row(rt, &timed.row, timed.least)?;
    }
    Ok(())
}

/// Prints a row: its work, its size, the nanoseconds of an operation, its units, and the nanoseconds of a unit.
fn print_row<P: Print>(rt: &P, row: &Row, tenths: u64) -> Result<(), Fault> {
    let (name, size, units, unit) = (row.name, row.size, row.units, row.unit);
    let (whole, tenth) = (tenths / 10, tenths % 10);
    let thousandths = tenths.saturating_mul(100).checked_div(u64::from(units));
    let thousandths = thousandths.unwrap_or(0);
    let (of_unit, rest) = (thousandths / 1000, thousandths % 1000);
    let printed = println!(rt;
        "{name:<16} {size:<15} {whole:>11}.{tenth} {units:>11} {unit:<12} {of_unit:>7}.{rest:03}"
    );
    printed.map_err(|_| Fault::Output)
}
