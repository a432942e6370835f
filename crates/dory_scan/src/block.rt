//! 64 live slots, and for each selector a word with their parities.
ghost use Rattle.std.specs.Prelude.{◌≡◌, ◌≢◌, ℕ, Bool, List, [], ◌+◌, ◌*◌, ◌/◌, ◌<◌, ◌≤◌, cond, length, replicate, slice_index, slice_index_or, IfOk};
ghost use Rattle.std.specs.Int.{bit_at};
ghost use Rattle.dory_base.specs.Sum.{parity};
ghost use Rattle.dory_base.specs.TableMeaning.{Shows};
ghost use Rattle.dory_scan.specs.Found.{AreSelectors};

use crate::parity::row_parity;
use dory_base::{Bits, NoMemory};
use dory_kernel::RowKernel;
use std::alloc::Global;
use std::marker::Model;

/// A word for each selector, in which bit i is for slot i of the 64.
#[derive(Drop)]
pub struct Block {
    words: Vec<u64>,
}

impl Model for Block {
    ghost use Rattle.std.specs.Prelude.{ℕ, List};

    ghost Value = { List ℕ };

    ghost view = { λ b. b.words.items };
}

fn with_bit(word: u64, k: usize, bit: bool) -> u64
    requires range { k < 64 }
    requires clear { bit_at word k ≡ 0 }
    ensures here { bit_at result k ≡ cond bit 1 0 }
    ensures there { (i : ℕ) → i ≢ k → bit_at result i ≡ bit_at word i }
{
    if bit { word | (1 << k) } else { word }
}

impl Block {
    /// A zero word for each selector.
    pub fn clear(alloc: Global, selectors: usize) -> Result<Block, NoMemory>
        ensures { IfOk result (λ b. b ≡ replicate selectors 0) }
    {
        let words = vec![in alloc; 0u64; selectors]?;
        Ok(Block { words })
    }

    /// Puts the parities of a slot's cells in its place, while they are there.
    pub fn mark(&mut self, place: usize, cells: &[u64], selectors: &[Bits], kernel: &RowKernel)
        requires place { place < 64 }
        requires many { length self.old ≡ length selectors.now }
        requires few { 64 * length cells.now ≤ 2048 }
        requires wide { (s : ℕ) → s < length selectors.now → length cells.now ≡ (length (slice_index_or selectors.now s []) + 63) / 64 }
        requires clear { (s : ℕ) → s < length self.old → bit_at (slice_index self.old s) place ≡ 0 }
        ensures len { length self.new ≡ length self.old }
        ensures here { (row : List Bool) → Shows cells.now row → (s : ℕ) → s < length self.old → length row ≡ length (slice_index_or selectors.now s []) → bit_at (slice_index self.new s) place ≡ cond (parity (slice_index_or selectors.now s []) row) 1 0 }
        ensures there { (s i : ℕ) → s < length self.old → i ≢ place → bit_at (slice_index self.new s) i ≡ bit_at (slice_index self.old s) i }
    {
        for s in 0..selectors.len() {
            let bit = row_parity(kernel, cells, &selectors[s]);
            self.words[s] = with_bit(self.words[s], place, bit);
        }
    }

    /// The word of a selector.
    pub fn word(&self, selector: usize) -> u64
        requires { selector < length self.now }
        ensures { result ≡ slice_index self.now selector }
    {
        self.words[selector]
    }
}
