//! The words that were set last, so that a long list's repeats cost no HMAC.
ghost use Rattle.std.specs.Prelude.{◌≡◌, ◌<◌, ◌↔◌, replicate, slice_index_or, slice_set, IfOk, IsTrue, None, Some};
ghost use Rattle.dory_bloom.specs.Recent.{slot_of};

use dory_base::{NoMemory, Word};
use std::alloc::Global;
use std::marker::Model;

/// The number of slots.
const SLOTS: usize = 4096;

/// A slot for each remainder of a hash, each with the last word that was kept there.
#[derive(Drop)]
pub struct Recent {
    slots: Vec<Option<Word>>,
}

impl Model for Recent {
    ghost use Rattle.std.specs.Prelude.{◌≡◌, List, ℕ, Option, length};

    ghost Value = { List (Option (List ℕ)) };

    ghost view = { λ r. r.slots.items };

    ghost invariant = { λ r. length r.slots.items ≡ 4096 };
}

impl Recent {
    /// Empty slots.
    pub fn new(alloc: Global) -> Result<Recent, NoMemory>
        ensures { IfOk result (λ recent. recent ≡ replicate 4096 None) }
    {
        let mut slots = Vec::with_capacity(alloc, SLOTS)?;
        for _ in 0..SLOTS {
            slots.push(None)?;
        }
        Ok(Recent { slots })
    }

    /// Whether the word stands in its slot.
    pub fn has(&self, word: &Word) -> bool
        ensures { IsTrue result ↔ (slice_index_or self.now (slot_of word.now) None ≡ Some word.now) }
    {
        match &self.slots[slot_of(word)] {
            Some(kept) => kept.bytes() == word.bytes(),
            None => false,
        }
    }

    /// Puts the word into its slot, in place of the one there.
    pub fn keep(&mut self, word: &Word)
        ensures { self.new ≡ slice_set self.old (slot_of word.now) (Some word.now) }
    {
        self.slots[slot_of(word)] = Some(*word);
    }
}

/// The slot of a word: its FNV-1a hash modulo the number of slots.
#[tactic(auto, unfolding(crate::specs::Recent::slot_of))]
fn slot_of(word: &Word) -> usize
    ensures value { result ≡ slot_of word.now }
    ensures low { result < 4096 }
{
    let mut hash = 0xcbf29ce484222325u64;
    for byte in word.bytes() {
        hash = (hash ^ u64::from(*byte)).wrapping_mul(0x100000001b3);
    }
    hash as usize % SLOTS
}
