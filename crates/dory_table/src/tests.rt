//! Tables by worked examples: a freed slot is taken again, and the 4,097th document is left out.
ghost use Rattle.std.specs.Prelude.{◌≡◌, ◌≤◌, ◌<◌, ◌+◌, ◌^◌, IfOk};
ghost use Rattle.dory_base.specs.History.{IsChangeOf};
ghost use Rattle.dory_base.specs.Dims.{Dims};

use crate::Table;
use dory_base::{
    Bits, Change, DocId, Entry, MemberId, NoMemory, Place, Shape, SlotTable, Tag, Tags, UpdateId,
};
use std::alloc::Global;

fn named(serial: u64) -> UpdateId {
    UpdateId {
        member: MemberId(0),
        serial,
    }
}

// A post of 256 empty cells, whose tags all have this byte.
fn post(alloc: Global, shape: Shape, serial: u64, doc: u32, byte: u8) -> Result<Entry, NoMemory>
    requires { shape.depth ≡ 8 }
    ensures { IfOk result (λ e. IsChangeOf shape e.change) }
{
    let row = Bits::zero(alloc, 256)?;
    let tags = vec![in alloc; Tag([byte; 16]); 256]?;
    Ok(Entry {
        id: named(serial),
        doc: DocId(doc),
        change: Change::Post {
            shape,
            row,
            tags: Tags::of(tags),
        },
    })
}

fn remove(serial: u64, doc: u32) -> Entry
    ensures { (shape : Dims) → IsChangeOf shape result.change }
{
    Entry {
        id: named(serial),
        doc: DocId(doc),
        change: Change::Remove,
    }
}

#[test]
fn a_freed_slot_is_the_next_documents(rt: HostRuntime) -> Result<(), NoMemory> {
    let alloc = rt.alloc();
    let shape = Shape::new(8, 2).expect(&rt, "a shape in range");
    let table = Table::empty(alloc, shape)?;
    let table = table.next_version(alloc, &post(alloc, shape, 1, 7, 1)?)?;
    let table = table.next_version(alloc, &post(alloc, shape, 2, 8, 2)?)?;
    let table = table.next_version(alloc, &remove(3, 7))?;
    let mut table = table.next_version(alloc, &post(alloc, shape, 4, 9, 4)?)?;
    let want = [
        Place {
            slot: 0,
            doc: DocId(9),
            id: named(4),
        },
        Place {
            slot: 1,
            doc: DocId(8),
            id: named(2),
        },
    ];
    assert!(rt; table.manifest(alloc)?.items() == want.as_slice());
    assert_eq!(rt; table.number(), 4);
    assert!(rt; table.column_tag(255).bytes() == [6; 16]);
    assert!(rt; table.row(1).is_some() && table.row(2).is_none());
    table.apply(alloc, remove(5, 50))?;
    assert!(rt; table.manifest(alloc)?.items() == want.as_slice());
    assert_eq!(rt; table.number(), 5);
    Ok(())
}

#[test]
fn there_are_no_more_than_4096_slots(rt: HostRuntime) -> Result<(), NoMemory> {
    let alloc = rt.alloc();
    let shape = Shape::new(8, 2).expect(&rt, "a shape in range");
    let mut table = Table::empty(alloc, shape)?;
    for doc in 1..4098u32 {
        table.apply(alloc, post(alloc, shape, doc as u64, doc, 1)?)?;
    }
    assert_eq!(rt; table.number(), 4097);
    let manifest = table.manifest(alloc)?;
    assert_eq!(rt; manifest.items().len(), 4096);
    assert!(rt;
        manifest
            .items()
            .iter()
            .all(|place| place.doc != DocId(4097))
    );
    Ok(())
}
