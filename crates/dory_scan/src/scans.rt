//! A scan of a whole table, by one thread or by several.
ghost use Rattle.std.specs.Prelude.{◌≡◌, ℕ, [], ◌+◌, ◌/◌, ◌^◌, ◌<◌, ◌≤◌, All, length, replicate, slice_index_or, IfOk};
ghost use Rattle.dory_base.specs.Table.{manifest_of};
ghost use Rattle.dory_base.specs.TableMeaning.{IsKept};
ghost use Rattle.dory_scan.specs.Found.{AreSelectors, found_in};
ghost use Rattle.dory_scan.specs.Words.{IsBlock, AreBlocks};

use crate::block::Block;
use crate::blocks::{clear_blocks, fill};
use crate::sums::sums;
use dory_base::{Bits, Found, Manifest, NoMemory, Place, SlotTable, Sums};
use dory_chunks::Version;
use dory_kernel::RowKernel;
use std::alloc::Global;
use std::thread;
use std::thread::Threads;

/// The answer, once all parities are there.
fn found<T: SlotTable>(
    alloc: Global,
    table: &T,
    manifest: Manifest,
    blocks: &[Block],
    selectors: &[Bits],
) -> Result<Found, NoMemory>
    requires manifest { manifest ≡ manifest_of (T.meaning table.now).slots }
    requires columns { AreSelectors (2 ^ (T.meaning table.now).shape.depth) selectors.now }
    requires exact { length blocks.now ≡ (length manifest + 63) / 64 }
    requires blocks { AreBlocks (T.meaning table.now).slots selectors.now blocks.now }
    ensures value { IfOk result (λ f. f ≡ found_in (T.meaning table.now) selectors.now) }
    ensures tags { IfOk result (λ f. All (λ s. s.tag < 2 ^ 128) f.sums) }
{
    let version = table.number();
    let lines = manifest.items().len();
    let sums = sums(alloc, table, lines, blocks, selectors)?;
    Ok(Found {
        version,
        manifest,
        sums: Sums::of(sums),
    })
}

/// A table's number and live slots, and for each selector the parity of each live slot's selected cells and the XOR of
/// all selected tags.
pub fn scan<T: SlotTable>(
    alloc: Global,
    table: &T,
    selectors: &[Bits],
    kernel: &RowKernel,
) -> Result<Found, NoMemory>
    requires { AreSelectors (2 ^ (T.meaning table.now).shape.depth) selectors.now }
    ensures value { IfOk result (λ f. f ≡ found_in (T.meaning table.now) selectors.now) }
    ensures tags { IfOk result (λ f. All (λ s. s.tag < 2 ^ 128) f.sums) }
    ensures kept { IfOk result (λ f. IsKept (T.meaning table.now)) }
{
    let manifest = table.manifest(alloc)?;
    let mut blocks = clear_blocks(alloc, (manifest.items().len() + 63) / 64, selectors.len())?;
    fill(&mut blocks, 0, table, manifest.items(), selectors, kernel);
    found(alloc, table, manifest, &blocks, selectors)
}

/// How many blocks a thread fills: 1,024 live slots.
const SHARE: usize = 16;

/// Whether so many parities take longer than starting threads.
fn pays(lines: usize, selectors: usize) -> bool {
    lines.saturating_mul(selectors) >= 16384
}

/// Fills zero blocks, by several threads where that pays.
fn fill_by_threads<R: Threads + Sync>(
    rt: &R,
    blocks: &mut [Block],
    table: &Version,
    places: &[Place],
    selectors: &[Bits],
    kernel: &RowKernel,
)
    requires few { length blocks.old ≤ 64 }
    requires places { places.now ≡ manifest_of table.now.slots }
    requires columns { AreSelectors (2 ^ table.now.shape.depth) selectors.now }
    requires clear { (k : ℕ) → k < length blocks.old → slice_index_or blocks.old k [] ≡ replicate (length selectors.now) 0 }
    ensures len { length blocks.new ≡ length blocks.old }
    ensures each { AreBlocks table.now.slots selectors.now blocks.new }
{
    if !pays(places.len(), selectors.len()) {
        fill(blocks, 0, table, places, selectors, kernel);
        return;
    }
    thread::for_each_chunk_mut(
        rt,
        blocks,
        SHARE,
        &|start: usize, part: &mut [Block]|
            requires { (start + length part.old ≤ 64) × ((k : ℕ) → k < length part.old → slice_index_or part.old k [] ≡ replicate (length selectors.now) 0) × (places.now ≡ manifest_of table.now.slots) × AreSelectors (2 ^ table.now.shape.depth) selectors.now }
            ensures { (k : ℕ) → k < length part.old → IsBlock table.entry.now.slots selectors.entry.now (start + k) (slice_index_or part.new k []) }
        { fill(part, start, table, places, selectors, kernel) },
    );
}

/// The same as `scan`, by several threads where the table is large enough for them.
pub fn scan_parallel<R: Threads + Sync>(
    rt: &R,
    alloc: Global,
    table: &Version,
    selectors: &[Bits],
    kernel: &RowKernel,
) -> Result<Found, NoMemory>
    requires { AreSelectors (2 ^ table.now.shape.depth) selectors.now }
    ensures value { IfOk result (λ f. f ≡ found_in table.now selectors.now) }
    ensures tags { IfOk result (λ f. All (λ s. s.tag < 2 ^ 128) f.sums) }
    ensures kept { IfOk result (λ f. IsKept table.now) }
{
    let manifest = table.manifest(alloc)?;
    let mut blocks = clear_blocks(alloc, (manifest.items().len() + 63) / 64, selectors.len())?;
    fill_by_threads(rt, &mut blocks, table, manifest.items(), selectors, kernel);
    found(alloc, table, manifest, &blocks, selectors)
}
