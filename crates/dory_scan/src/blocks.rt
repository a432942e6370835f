//! The one pass over the rows: while a row is at hand, its parity with each selector.
ghost use Rattle.std.specs.Prelude.{◌≡◌, ◌≢◌, ℕ, List, [], ◌+◌, ◌*◌, ◌^◌, ◌<◌, ◌≤◌, Bool, false, cond, length, replicate, slice_index, slice_index_or, IfOk};
ghost use Rattle.std.specs.Int.{bit_at};
ghost use Rattle.dory_base.specs.Table.{manifest_of};
ghost use Rattle.dory_scan.specs.Found.{AreSelectors};
ghost use Rattle.dory_scan.specs.Words.{parities_of, IsBlock};

use crate::block::Block;
use dory_base::{Bits, NoMemory, Place, SlotTable};
use dory_kernel::RowKernel;
use std::alloc::Global;

/// So many blocks of zero words.
pub fn clear_blocks(alloc: Global, count: usize, selectors: usize) -> Result<Vec<Block>, NoMemory>
    ensures { IfOk result (λ v. v.items ≡ replicate count (replicate selectors 0)) }
{
    let mut blocks = Vec::with_capacity(alloc, count)?;
    for made in 0..count {
        blocks.push(Block::clear(alloc, selectors)?)?;
    }
    Ok(blocks)
}

/// Puts the parities of a live slot into a block.
fn add_line<T: SlotTable>(
    block: &mut Block,
    place: usize,
    table: &T,
    slot: Place,
    selectors: &[Bits],
    kernel: &RowKernel,
)
    requires place { place < 64 }
    requires many { length block.old ≡ length selectors.now }
    requires columns { AreSelectors (2 ^ (T.meaning table.now).shape.depth) selectors.now }
    requires clear { (s : ℕ) → s < length block.old → bit_at (slice_index block.old s) place ≡ 0 }
    ensures len { length block.new ≡ length block.old }
    ensures here { (line : ℕ) → line < length (manifest_of (T.meaning table.now).slots) → slot ≡ slice_index_or (manifest_of (T.meaning table.now).slots) line slot → (s : ℕ) → s < length block.old → bit_at (slice_index block.new s) place ≡ cond (slice_index_or (parities_of (T.meaning table.now).slots (slice_index_or selectors.now s [])) line false) 1 0 }
    ensures there { (s i : ℕ) → s < length block.old → i ≢ place → bit_at (slice_index block.new s) i ≡ bit_at (slice_index block.old s) i }
{
    if let Some(cells) = table.row(slot.slot as usize) {
        block.mark(place, cells, selectors, kernel);
    }
}

/// Fills a zero block with the parities of its live slots.
fn fill_block<T: SlotTable>(
    block: &mut Block,
    number: usize,
    table: &T,
    places: &[Place],
    selectors: &[Bits],
    kernel: &RowKernel,
)
    requires number { number < 64 }
    requires places { places.now ≡ manifest_of (T.meaning table.now).slots }
    requires columns { AreSelectors (2 ^ (T.meaning table.now).shape.depth) selectors.now }
    requires clear { block.old ≡ replicate (length selectors.now) 0 }
    ensures { IsBlock (T.meaning table.now).slots selectors.now number block.new }
{
    for place in 0..64 {
        let line = 64 * number + place;
        if line < places.len() {
            add_line(block, place, table, places[line], selectors, kernel);
        }
    }
}

/// Fills zero blocks, of which the first has this number.
pub fn fill<T: SlotTable>(
    blocks: &mut [Block],
    first: usize,
    table: &T,
    places: &[Place],
    selectors: &[Bits],
    kernel: &RowKernel,
)
    requires few { first + length blocks.old ≤ 64 }
    requires places { places.now ≡ manifest_of (T.meaning table.now).slots }
    requires columns { AreSelectors (2 ^ (T.meaning table.now).shape.depth) selectors.now }
    requires clear { (k : ℕ) → k < length blocks.old → slice_index_or blocks.old k [] ≡ replicate (length selectors.now) 0 }
    ensures len { length blocks.new ≡ length blocks.old }
    ensures each { (k : ℕ) → k < length blocks.old → IsBlock (T.meaning table.now).slots selectors.now (first + k) (slice_index_or blocks.new k []) }
{
    for k in 0..blocks.len() {
        fill_block(&mut blocks[k], first + k, table, places, selectors, kernel);
    }
}
