//! The sums of a scan, once all parities are there.
ghost use Rattle.std.specs.Prelude.{◌≡◌, ℕ, List, [], ◌+◌, ◌*◌, ◌/◌, ◌^◌, ◌<◌, ◌≤◌, All, length, map, slice_index, slice_index_or, IfOk};
ghost use Rattle.std.specs.Int.{bit_at};
ghost use Rattle.dory_base.specs.Packed.{bits_of};
ghost use Rattle.dory_base.specs.Sum.{sum_of};
ghost use Rattle.dory_base.specs.Table.{manifest_of};
ghost use Rattle.dory_scan.specs.Found.{AreSelectors};
ghost use Rattle.dory_scan.specs.Words.{AreBlocks};

use crate::block::Block;
use crate::tags::selected_tag;
use dory_base::{Bits, NoMemory, SlotTable, Sum};
use std::alloc::Global;

/// The first bits of the words that the blocks have for one selector.
fn sum_bits(alloc: Global, blocks: &[Block], selector: usize, len: usize) -> Result<Bits, NoMemory>
    requires few { len ≤ 4096 }
    requires exact { length blocks.now ≡ (len + 63) / 64 }
    requires words { (k : ℕ) → k < length blocks.now → selector < length (slice_index_or blocks.now k []) }
    requires clear { (k i : ℕ) → k < length blocks.now → i < 64 → len ≤ 64 * k + i → bit_at (slice_index (slice_index_or blocks.now k []) selector) i ≡ 0 }
    ensures { IfOk result (λ bits. bits ≡ bits_of len (map (λ words. slice_index words selector) blocks.now)) }
{
    let mut words = Vec::with_capacity(alloc, blocks.len())?;
    for block in blocks {
        words.push(block.word(selector))?;
    }
    Ok(Bits::of_words(words, len))
}

/// The sum of one selector.
fn sum_at<T: SlotTable>(
    alloc: Global,
    table: &T,
    lines: usize,
    blocks: &[Block],
    selectors: &[Bits],
    at: usize,
) -> Result<Sum, NoMemory>
    requires at { at < length selectors.now }
    requires columns { AreSelectors (2 ^ (T.meaning table.now).shape.depth) selectors.now }
    requires lines { lines ≡ length (manifest_of (T.meaning table.now).slots) }
    requires few { lines ≤ 4096 }
    requires exact { length blocks.now ≡ (lines + 63) / 64 }
    requires blocks { AreBlocks (T.meaning table.now).slots selectors.now blocks.now }
    ensures value { IfOk result (λ s. s ≡ sum_of (T.meaning table.now).slots (slice_index_or selectors.now at [])) }
    ensures tag { IfOk result (λ s. s.tag < 2 ^ 128) }
{
    let bits = sum_bits(alloc, blocks, at, lines)?;
    let tag = selected_tag(table, &selectors[at]);
    Ok(Sum { bits, tag })
}

/// The sums of all selectors.
pub fn sums<T: SlotTable>(
    alloc: Global,
    table: &T,
    lines: usize,
    blocks: &[Block],
    selectors: &[Bits],
) -> Result<Vec<Sum>, NoMemory>
    requires columns { AreSelectors (2 ^ (T.meaning table.now).shape.depth) selectors.now }
    requires lines { lines ≡ length (manifest_of (T.meaning table.now).slots) }
    requires few { lines ≤ 4096 }
    requires exact { length blocks.now ≡ (lines + 63) / 64 }
    requires blocks { AreBlocks (T.meaning table.now).slots selectors.now blocks.now }
    ensures value { IfOk result (λ all. all.items ≡ map (sum_of (T.meaning table.now).slots) selectors.now) }
    ensures tags { IfOk result (λ all. All (λ s. s.tag < 2 ^ 128) all.items) }
{
    let mut all = Vec::with_capacity(alloc, selectors.len())?;
    for at in 0..selectors.len() {
        all.push(sum_at(alloc, table, lines, blocks, selectors, at)?)?;
    }
    Ok(all)
}
