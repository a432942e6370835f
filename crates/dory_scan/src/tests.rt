//! Scans of small tables by hand, of a plain table and a version, by one thread and by several.
ghost use Rattle.std.specs.Prelude.{◌≡◌, ◌≤◌, ◌<◌, ◌+◌, ◌^◌, length, IfOk};
ghost use Rattle.dory_base.specs.Dims.{Dims};
ghost use Rattle.dory_base.specs.History.{IsChangeOf};
ghost use Rattle.dory_scan.specs.Found.{AreSelectors};

use crate::{scan, scan_parallel};
use dory_base::{
    Bits, Change, DocId, Entry, Found, MemberId, NoMemory, Shape, SlotTable, Sum, Tag, Tags,
    UpdateId,
};
use dory_chunks::Version;
use dory_kernel::{RowKernel, lane_parity, plain_parity};
use dory_table::Table;
use std::alloc::Global;
use std::thread::Threads;

// 256 bits, of which those at two places are set.
fn bits_at(alloc: Global, first: u8, second: u8) -> Result<Bits, NoMemory>
    ensures { IfOk result (λ bits. length bits ≡ 256) }
{
    let mut bits = Bits::zero(alloc, 256)?;
    bits.put(first as usize, true);
    bits.put(second as usize, true);
    Ok(bits)
}

fn named(serial: u64) -> UpdateId {
    UpdateId {
        member: MemberId(0),
        serial,
    }
}

// A post with two set cells, whose tags all have this byte.
fn post(alloc: Global, shape: Shape, doc: u32, cells: (u8, u8), byte: u8) -> Result<Entry, NoMemory>
    requires { shape.depth ≡ 8 }
    ensures { IfOk result (λ e. IsChangeOf shape e.change) }
{
    let row = bits_at(alloc, cells.0, cells.1)?;
    let tags = vec![in alloc; Tag([byte; 16]); 256]?;
    Ok(Entry {
        id: named(doc as u64),
        doc: DocId(doc),
        change: Change::Post {
            shape,
            row,
            tags: Tags::of(tags),
        },
    })
}

fn remove(doc: u32) -> Entry
    ensures { (shape : Dims) → IsChangeOf shape result.change }
{
    Entry {
        id: named(99),
        doc: DocId(doc),
        change: Change::Remove,
    }
}

// The columns 0 and 255, 255 alone, and 5 alone.
fn three_selectors(alloc: Global) -> Result<Vec<Bits>, NoMemory>
    ensures { IfOk result (λ v. AreSelectors 256 v.items) }
{
    let mut all = Vec::new(alloc);
    for cells in [(0, 255), (255, 255), (5, 5)] {
        all.push(bits_at(alloc, cells.0, cells.1)?)?;
    }
    Ok(all)
}

// Documents 7 and 8.
fn two_documents<T: SlotTable + Drop>(alloc: Global, shape: Shape) -> Result<T, NoMemory>
    requires { shape.depth ≡ 8 }
    ensures shape { IfOk result (λ t. (T.meaning t).shape ≡ shape) }
    ensures number { IfOk result (λ t. (T.meaning t).number ≡ 2) }
{
    let first = post(alloc, shape, 7, (0, 255), 1)?;
    let second = post(alloc, shape, 8, (255, 255), 2)?;
    let table = T::empty(alloc, shape)?;
    let table = table.next_version(alloc, &first)?;
    table.next_version(alloc, &second)
}

// What the sum at a place has: the bits of the first two lines, and the first byte of the tag.
fn sum_at(found: &Found, place: usize) -> Option<(bool, bool, u8)> {
    let sum = found.sums.items().get(place)?;
    if sum.bits.len() != 2 {
        return None;
    }
    let bytes = sum.tag.bytes();
    Some((sum.bits.get(0), sum.bits.get(1), bytes[0]))
}

#[test]
fn a_scan_has_a_parity_for_each_slot_and_all_selected_tags(
    rt: HostRuntime,
) -> Result<(), NoMemory> {
    let alloc = rt.alloc();
    let shape = Shape::new(8, 2).expect(&rt, "a shape in range");
    let selectors = three_selectors(alloc)?;
    let table = two_documents::<Table>(alloc, shape)?;
    let found = scan(alloc, &table, &selectors, &RowKernel::new(plain_parity))?;
    assert!(rt; sum_at(&found, 0) == Some((false, true, 0)));
    assert!(rt; sum_at(&found, 1) == Some((true, true, 3)));
    assert!(rt; sum_at(&found, 2) == Some((false, false, 3)));
    assert!(rt; found.version == 2);
    Ok(())
}

#[test]
fn a_removed_row_has_no_part_in_a_sum(rt: HostRuntime) -> Result<(), NoMemory> {
    let alloc = rt.alloc();
    let shape = Shape::new(8, 2).expect(&rt, "a shape in range");
    let selectors = three_selectors(alloc)?;
    let version = two_documents::<Version>(alloc, shape)?;
    let version = version.next_version(alloc, &remove(7))?;
    let version = version.next_version(alloc, &post(alloc, shape, 9, (5, 0), 4)?)?;
    let found = scan(alloc, &version, &selectors, &RowKernel::new(lane_parity))?;
    assert!(rt; sum_at(&found, 0) == Some((true, true, 0)));
    assert!(rt; sum_at(&found, 1) == Some((false, true, 6)));
    assert!(rt; sum_at(&found, 2) == Some((true, false, 6)));
    Ok(())
}

// A version with so many documents, of which each has the cell of its number modulo 256, and tags of this byte.
fn filled(alloc: Global, shape: Shape, count: u32) -> Result<Version, NoMemory>
    requires shape { shape.depth ≡ 8 }
    requires count { count ≤ 4096 }
    ensures { IfOk result (λ v. v.shape ≡ shape) }
{
    let mut version = Version::empty(alloc, shape)?;
    for doc in 0..count {
        let cell = (doc % 256) as u8;
        let entry = post(alloc, shape, doc, (cell, cell), 1)?;
        version = version.next_version(alloc, &entry)?;
    }
    Ok(version)
}

// Whether the bits are those of so many lines, of which those whose number modulo 256 is this cell are set.
fn has_cell(bits: &Bits, cell: usize, count: usize) -> bool {
    for line in 0..bits.len() {
        if bits.get(line) != (line % 256 == cell) {
            return false;
        }
    }
    bits.len() == count
}

fn same_sum(one: &Sum, other: &Sum) -> bool {
    one.bits.same(&other.bits) && one.tag.same(&other.tag)
}

fn same_found(one: &Found, other: &Found) -> bool {
    let sums = one.sums.items();
    let others = other.sums.items();
    if sums.len() != others.len() {
        return false;
    }
    for at in 0..sums.len() {
        if !same_sum(&sums[at], &others[at]) {
            return false;
        }
    }
    one.version == other.version && one.manifest.items() == other.manifest.items()
}

// Columns 0 to 3.
fn four_selectors(alloc: Global) -> Result<Vec<Bits>, NoMemory>
    ensures { IfOk result (λ v. AreSelectors 256 v.items) }
{
    let mut all = Vec::new(alloc);
    for cell in 0..4u8 {
        all.push(bits_at(alloc, cell, cell)?)?;
    }
    Ok(all)
}

// Whether scans by one thread and by several agree, and find the rows of four columns.
fn agree<R: Threads + Sync>(rt: &R, alloc: Global, version: &Version) -> Result<bool, NoMemory>
    requires { version.now.shape.depth ≡ 8 }
{
    let kernel = RowKernel::new(lane_parity);
    let selectors = four_selectors(alloc)?;
    let one = scan(alloc, version, &selectors, &kernel)?;
    let several = scan_parallel(rt, alloc, version, &selectors, &kernel)?;
    let sums = several.sums.items();
    let lines = several.manifest.items().len();
    for cell in 0..sums.len() {
        if !has_cell(&sums[cell].bits, cell, lines) {
            return Ok(false);
        }
    }
    Ok(sums.len() == 4 && same_found(&one, &several))
}

#[test]
fn several_threads_answer_as_one(rt: HostRuntime) -> Result<(), NoMemory> {
    let alloc = rt.alloc();
    let shape = Shape::new(8, 2).expect(&rt, "a shape in range");
    for count in [0, 1, 64, 65, 4096] {
        let version = filled(alloc, shape, count)?;
        assert!(rt;
            version.number() == count && agree(&rt, alloc, &version)?,
            "of {count}"
        );
    }
    Ok(())
}
