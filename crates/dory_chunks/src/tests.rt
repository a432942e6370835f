//! Versions beside plain tables: by the slot rule, and across the end of a chunk.
ghost use Rattle.std.specs.Prelude.{◌≡◌, ◌≤◌, ◌<◌, ◌+◌, ◌^◌, IfOk};
ghost use Rattle.dory_base.specs.Dims.{Dims};
ghost use Rattle.dory_base.specs.History.{IsChangeOf};

use crate::{Steps, Version};
use dory_base::{
    Bits, Change, DocId, Entry, MemberId, NoMemory, Place, Shape, SlotTable, Tag, Tags, UpdateId,
};
use dory_table::Table;
use std::alloc::Global;
use std::marker::Brand;
use std::sync::ledger::{Blank, Ledger};

fn named(serial: u64) -> UpdateId {
    UpdateId {
        member: MemberId(0),
        serial,
    }
}

// A post of 256 cells, of which this one is set, and whose tags all have this byte.
fn post(
    alloc: Global,
    shape: Shape,
    serial: u64,
    doc: u32,
    cell: usize,
    byte: u8,
) -> Result<Entry, NoMemory>
    requires shape { shape.depth ≡ 8 }
    requires cell { cell < 256 }
    ensures { IfOk result (λ e. IsChangeOf shape e.change) }
{
    let mut row = Bits::zero(alloc, 256)?;
    row.put(cell, true);
    let tags = vec![in alloc; Tag([byte; 16]); 256]?;
    Ok(Entry {
        id: named(serial),
        doc: DocId(doc),
        change: Change::Post {
            shape,
            row,
            tags: Tags::of(tags),
        },
    })
}

fn remove(serial: u64, doc: u32) -> Entry
    ensures { (shape : Dims) → IsChangeOf shape result.change }
{
    Entry {
        id: named(serial),
        doc: DocId(doc),
        change: Change::Remove,
    }
}

fn same_row(table: &Table, version: &Version, slot: usize) -> bool {
    match table.row(slot) {
        None => version.row(slot).is_none(),
        Some(row) => match version.row(slot) {
            None => false,
            Some(other) => row == other,
        },
    }
}

fn same_rows(table: &Table, version: &Version) -> bool {
    for slot in 0..70 {
        if !same_row(table, version, slot) {
            return false;
        }
    }
    true
}

fn same_tag(table: &Table, version: &Version, column: usize) -> bool
    requires column { column < 256 }
    requires table { table.now.shape.depth ≡ 8 }
    requires version { version.now.shape.depth ≡ 8 }
{
    table.column_tag(column).bytes() == version.column_tag(column).bytes()
}

// Whether the two have the same number, manifest, rows and column tags.
fn agree(alloc: Global, table: &Table, version: &Version) -> Result<bool, NoMemory>
    requires table { table.now.shape.depth ≡ 8 }
    requires version { version.now.shape.depth ≡ 8 }
{
    let places = table.manifest(alloc)?;
    let others = version.manifest(alloc)?;
    Ok(
        table.number() == version.number()
            && places.items() == others.items()
            && same_rows(table, version)
            && same_tag(table, version, 0)
            && same_tag(table, version, 64)
            && same_tag(table, version, 255),
    )
}

#[test]
fn a_version_has_what_the_table_has(rt: HostRuntime) -> Result<(), NoMemory> {
    let alloc = rt.alloc();
    let shape = Shape::new(8, 2).expect(&rt, "a shape in range");
    let table = Table::empty(alloc, shape)?;
    let version = Version::empty(alloc, shape)?;
    assert!(rt; agree(alloc, &table, &version)?);
    let first = post(alloc, shape, 1, 7, 3, 1)?;
    let table = table.next_version(alloc, &first)?;
    let version = version.next_version(alloc, &first)?;
    let second = post(alloc, shape, 2, 8, 64, 2)?;
    let table = table.next_version(alloc, &second)?;
    let version = version.next_version(alloc, &second)?;
    assert!(rt; agree(alloc, &table, &version)?);
    assert!(rt; version.column_tag(9).bytes() == [3; 16]);
    let replaced = post(alloc, shape, 3, 7, 255, 4)?;
    let table = table.next_version(alloc, &replaced)?;
    let later = version.next_version(alloc, &replaced)?;
    assert!(rt; agree(alloc, &table, &later)?);
    assert!(rt; later.column_tag(9).bytes() == [6; 16]);
    assert!(rt; version.column_tag(9).bytes() == [3; 16]);
    let removed = remove(4, 7);
    let table = table.next_version(alloc, &removed)?;
    let version = later.next_version(alloc, &removed)?;
    assert!(rt; agree(alloc, &table, &version)?);
    assert!(rt; version.column_tag(9).bytes() == [2; 16]);
    let unknown = remove(5, 50);
    let table = table.next_version(alloc, &unknown)?;
    let version = version.next_version(alloc, &unknown)?;
    assert!(rt; agree(alloc, &table, &version)?);
    let refilled = post(alloc, shape, 6, 9, 0, 8)?;
    let table = table.next_version(alloc, &refilled)?;
    let version = version.next_version(alloc, &refilled)?;
    assert!(rt; agree(alloc, &table, &version)?);
    let want = [
        Place {
            slot: 0,
            doc: DocId(9),
            id: named(6),
        },
        Place {
            slot: 1,
            doc: DocId(8),
            id: named(2),
        },
    ];
    assert!(rt; version.manifest(alloc)?.items() == want.as_slice());
    assert!(rt; version.number() == 6 && version.column_tag(9).bytes() == [10; 16]);
    Ok(())
}

#[test]
fn slots_go_on_into_the_next_chunk(rt: HostRuntime) -> Result<(), NoMemory> {
    let alloc = rt.alloc();
    let shape = Shape::new(8, 2).expect(&rt, "a shape in range");
    let mut table = Table::empty(alloc, shape)?;
    let mut version = Version::empty(alloc, shape)?;
    for doc in 1..67u32 {
        let entry = post(alloc, shape, doc as u64, doc, doc as usize, doc as u8)?;
        version = version.next_version(alloc, &entry)?;
        table.apply(alloc, entry)?;
    }
    assert!(rt; agree(alloc, &table, &version)?);
    assert_eq!(rt; version.manifest(alloc)?.items().len(), 66);
    let entry = post(alloc, shape, 67, 65, 1, 99)?;
    version = version.next_version(alloc, &entry)?;
    table.apply(alloc, entry)?;
    assert!(rt; agree(alloc, &table, &version)?);
    Ok(())
}

// The update of this serial in a long list: each third removes one of 80 documents, and the others post one.
fn update(alloc: Global, shape: Shape, serial: u32) -> Result<Entry, NoMemory>
    requires shape { shape.depth ≡ 8 }
    requires few { serial ≤ 10000 }
    ensures { IfOk result (λ e. IsChangeOf shape e.change) }
{
    let doc = serial * 37 % 80;
    if serial % 3 == 0 {
        return Ok(remove(serial as u64, doc));
    }
    let cell = (serial % 256) as u8;
    post(alloc, shape, serial as u64, doc, cell as usize, cell)
}

#[test]
fn a_long_list_of_updates_leaves_both_the_same(rt: HostRuntime) -> Result<(), NoMemory> {
    let alloc = rt.alloc();
    let shape = Shape::new(8, 2).expect(&rt, "a shape in range");
    let mut table = Table::empty(alloc, shape)?;
    let mut version = Version::empty(alloc, shape)?;
    for serial in 1..401u32 {
        let entry = update(alloc, shape, serial)?;
        version = version.next_version(alloc, &entry)?;
        table.apply(alloc, entry)?;
        assert!(rt; agree(alloc, &table, &version)?, "after {serial}");
    }
    Ok(())
}

// A version with so many documents, whose tags are all ones and zeros.
fn filled(alloc: Global, shape: Shape, count: u32) -> Result<Version, NoMemory>
    requires shape { shape.depth ≡ 8 }
    requires few { count ≤ 4096 }
    ensures shape { IfOk result (λ v. v.shape ≡ shape) }
    ensures number { IfOk result (λ v. v.number ≡ count) }
{
    let mut version = Version::empty(alloc, shape)?;
    for doc in 0..count {
        let entry = post(alloc, shape, doc as u64 + 1, doc, (doc % 256) as usize, 1)?;
        version = version.next_version(alloc, &entry)?;
    }
    Ok(version)
}

#[test]
fn the_4097th_document_has_no_slot(rt: HostRuntime) -> Result<(), NoMemory> {
    let alloc = rt.alloc();
    let shape = Shape::new(8, 2).expect(&rt, "a shape in range");
    let full = filled(alloc, shape, 4096)?;
    let entry = post(alloc, shape, 4097, 4096, 3, 9)?;
    let next = full.next_version(alloc, &entry)?;
    assert!(rt; next.number() == 4097);
    assert!(rt; next.manifest(alloc)?.items() == full.manifest(alloc)?.items());
    assert!(rt; next.manifest(alloc)?.items().len() == 4096 && next.row(4096).is_none());
    assert!(rt; next.column_tag(3).bytes() == [0; 16]);
    Ok(())
}

// Two updates, for each of which at most one chunk is made or copied.
fn counted<L: Ledger>(
    version: &Version,
    alloc: Global,
    updates: (&Entry, &Entry),
    blank: Blank,
) -> Result<Version, NoMemory>
    requires name { blank.name ≡ L.name }
    requires parts { blank.parts ≡ L.parts }
    requires some { 0 < blank.parts }
    requires room { version.now.number < 1000 }
    requires first { IsChangeOf version.now.shape updates.0.now.change }
    requires second { IsChangeOf version.now.shape updates.1.now.change }
    ensures { IfOk result (λ v. v.shape ≡ version.now.shape) }
{
    let mut steps = Steps::<L>::new(blank);
    let next = version.next_counted(alloc, updates.0, &mut steps)?;
    next.next_counted(alloc, updates.1, &mut steps)
}

#[test]
fn a_replaced_row_leaves_its_own_tags_alone(rt: HostRuntime) -> Result<(), NoMemory> {
    let alloc = rt.alloc();
    let shape = Shape::new(8, 2).expect(&rt, "a shape in range");
    let version = Version::empty(alloc, shape)?;
    let first = post(alloc, shape, 1, 7, 3, 1)?;
    let second = post(alloc, shape, 2, 7, 255, 4)?;
    let version = counted::<Brand>(&version, alloc, (&first, &second), Blank::new(1))?;
    let want = [Place {
        slot: 0,
        doc: DocId(7),
        id: named(2),
    }];
    assert!(rt; version.manifest(alloc)?.items() == want.as_slice());
    assert!(rt; version.column_tag(0).bytes() == [4; 16]);
    assert!(rt; version.column_tag(255).bytes() == [4; 16]);
    Ok(())
}
