//! Entries that are sealed: a post of a row, and a removal.
ghost use Rattle.std.specs.Prelude.{◌≡◌, ◌≤◌, ◌<◌, ◌+◌, ◌%◌, ◌^◌, ℕ, false, length, map, slice_index_or, IfOk};
ghost use Rattle.std.specs.List.{range_with_len};
ghost use Rattle.dory_base.specs.History.{IsChangeOf};
ghost use Rattle.dory_base.specs.Xor.{xor};
ghost use Rattle.dory_base.specs.declared.entry.Entry.{Entry as EntryOf};
ghost use Rattle.dory_base.specs.declared.entry.Change.TheVariants.{Remove};
ghost use Rattle.dory_hmac.specs.declared.folder_keys.FolderKeys.{FolderKeys as KeysOf};
ghost use Rattle.dory_seal.specs.Epoch.{epoch_of};
ghost use Rattle.dory_seal.specs.Seal.{IsSealed, IsSealingOf, block_bit, cell_tag_of, masked};

use crate::cell::RUN;
use crate::epoch::epoch_of;
use crate::epoch_keys::EpochKeys;
use crate::mask::MaskBlock;
use dory_base::{Bits, Change, DocId, Entry, NoMemory, Shape, Tags, UpdateId, xor};
use dory_hmac::FolderKeys;
use std::alloc::Global;

/// The number of columns whose mask bits come from one HMAC.
const BLOCK: usize = 256;

/// The sealed entry with this id and document whose plain row is `row`. There is no other.
pub fn seal_post(
    alloc: Global,
    keys: &FolderKeys,
    shape: Shape,
    id: UpdateId,
    doc: DocId,
    row: &Bits,
) -> Result<Entry, NoMemory>
    requires { length row.now ≡ 2 ^ shape.depth }
    ensures sealed { IfOk result (λ entry. IsSealingOf keys.now shape id doc row.now entry) }
    ensures fits { IfOk result (λ entry. IsChangeOf shape entry.change) }
    ensures only { IfOk result (λ entry. (other : EntryOf) → IsSealingOf keys.now shape id doc row.now other → other ≡ entry) }
{
    // A shape's columns are whole blocks, which the calls below go by.
    let _columns = shape.columns();
    let epoch_keys = EpochKeys::new(keys, epoch_of(id));
    let cells = sealed_cells(alloc, &epoch_keys, doc, id, row)?;
    let tags = sealed_tags(alloc, &epoch_keys, doc, id, &cells)?;
    Ok(Entry {
        id,
        doc,
        change: Change::Post {
            shape,
            row: cells,
            tags,
        },
    })
}

/// The removal of a document.
pub fn seal_remove(id: UpdateId, doc: DocId) -> Entry
    ensures id { result.id ≡ id }
    ensures doc { result.doc ≡ doc }
    ensures removal { result.change ≡ Remove }
    ensures sealed { (keys : KeysOf) → IsSealed keys result }
{
    let change = Change::Remove;
    Entry { id, doc, change }
}

/// The row under its mask.
fn sealed_cells(
    alloc: Global,
    keys: &EpochKeys,
    doc: DocId,
    id: UpdateId,
    row: &Bits,
) -> Result<Bits, NoMemory>
    requires epoch { epoch_of id ≡ keys.now.epoch }
    requires blocks { length row.now % 256 ≡ 0 }
    ensures { IfOk result (λ cells. cells ≡ masked keys.now.keys doc id row.now) }
{
    let mut cells = Bits::zero(alloc, row.len())?;
    for block in 0..row.len() / BLOCK {
        let mask = keys.mask_block(doc, id, block as u32);
        seal_block(&mut cells, &mask, row, BLOCK * block);
    }
    Ok(cells)
}

/// Writes the sealed cells of the columns of a block.
fn seal_block(cells: &mut Bits, mask: &MaskBlock, row: &Bits, from: usize)
    requires low { from + 256 ≤ length row.now }
    requires few { from < 4096 }
    requires same { length cells.old ≡ length row.now }
    ensures len { length cells.new ≡ length row.now }
    ensures before { (j : ℕ) → j < from → slice_index_or cells.new j false ≡ slice_index_or cells.old j false }
    ensures block { (j : ℕ) → from ≤ j → j < from + 256 → slice_index_or cells.new j false ≡ xor (slice_index_or row.now j false) (block_bit mask.now (j % 256)) }
{
    for i in 0..BLOCK {
        let column = from + i;
        cells.put(column, xor(row.get(column), mask.bit(column as u16)));
    }
}

/// The tag of each cell.
fn sealed_tags(
    alloc: Global,
    keys: &EpochKeys,
    doc: DocId,
    id: UpdateId,
    cells: &Bits,
) -> Result<Tags, NoMemory>
    requires epoch { epoch_of id ≡ keys.now.epoch }
    requires blocks { length cells.now % 256 ≡ 0 }
    ensures { IfOk result (λ tags. tags ≡ map (λ j. cell_tag_of keys.now.keys doc id j (slice_index_or cells.now j false)) (range_with_len 0 (length cells.now))) }
{
    let mut tags = Vec::with_capacity(alloc, cells.len())?;
    for run in 0..cells.len() / RUN {
        tags.extend_from_slice(&keys.tags_from(doc, id, cells, RUN * run))?;
    }
    Ok(Tags::of(tags))
}
