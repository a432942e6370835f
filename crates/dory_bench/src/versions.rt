//! An update on a version whose folder is full.
ghost use Rattle.std.specs.Prelude.{◌≡◌, ◌≤◌, IfOk};
ghost use Rattle.dory_base.specs.History.{IsChangeOf};

use crate::fault::Fault;
use crate::names::{folder_keys, update};
use crate::run::Run;
use crate::sealing::one_word;
use dory_base::{Change, DocId, Entry, Shape, SlotTable, Tag, Tags};
use dory_chunks::Version;
use std::alloc::Global;
use std::rt::Clock;

/// A post of a document, with the row of one word and tags that all have one byte.
fn post(alloc: Global, shape: Shape, doc: u32, byte: u8) -> Result<Entry, Fault>
    ensures { IfOk result (λ entry. IsChangeOf shape entry.change) }
{
    let row = one_word(alloc, &folder_keys(), shape)?;
    let tags = vec![in alloc; Tag([byte; 16]); shape.columns()]?;
    Ok(Entry {
        id: update(3, 5),
        doc: DocId(doc),
        change: Change::Post {
            shape,
            row,
            tags: Tags::of(tags),
        },
    })
}

/// A version whose folder has as many documents, each posted once.
pub fn filled(alloc: Global, shape: Shape, documents: u32) -> Result<Version, Fault>
    requires { documents ≤ 4096 }
    ensures shape { IfOk result (λ version. version.shape ≡ shape) }
    ensures number { IfOk result (λ version. version.number ≡ documents) }
{
    let mut version = Version::empty(alloc, shape)?;
    for doc in 0..documents {
        let entry = post(alloc, shape, doc, (doc % 256) as u8)?;
        version = version.next_version(alloc, &entry)?;
    }
    Ok(version)
}

/// One more post of a document at a time, each on the same version.
pub fn updates<R: Clock>(run: &mut Run<R>) -> Result<(), Fault> {
    let shape = run.shape();
    let documents = if run.is_full() { 4096 } else { 130 };
    let version = filled(run.alloc, shape, documents)?;
    let entry = post(run.alloc, shape, 70, 99)?;
    let start = run.start()?;
    for _ in 0..run.turns {
        let next = version.next_version(run.alloc, &entry)?;
        run.sum.number(u64::from(next.number()));
        run.sum.bytes(&next.column_tag(0).bytes());
    }
    run.stop(start)
}
