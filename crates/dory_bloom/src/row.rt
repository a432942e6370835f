//! The row of a document's words.
ghost use Rattle.std.specs.Prelude.{◌≡◌, ◌<◌, ◌^◌, ◌||◌, ℕ, false, length, slice_index_or, IfOk};
ghost use Rattle.std.specs.List.{list_any};
ghost use Rattle.dory_hmac.specs.Hmac.{hmac_of_block};
ghost use Rattle.dory_bloom.specs.Positions.{columns_of};
ghost use Rattle.dory_bloom.specs.PlainRow.{is_among, plain_row_of};
ghost use Rattle.dory_bloom.specs.Recent.{AreSet};

use crate::probes::keyed_positions;
use crate::recent::Recent;
use dory_base::{Bits, NoMemory, Shape, Word};
use dory_hmac::{FolderKeys, KeyedMac};
use std::alloc::Global;

/// The least number of words for which recent ones are kept: below it, making their slots costs more than it saves.
const MANY: usize = 256;

/// The row in which each listed word has set its positions.
pub fn plain_row(
    alloc: Global,
    keys: &FolderKeys,
    shape: Shape,
    words: &[Word],
) -> Result<Bits, NoMemory>
    ensures { IfOk result (λ bits. bits ≡ plain_row_of keys.now shape words.now) }
{
    let mut row = Bits::zero(alloc, shape.columns())?;
    let word_key = KeyedMac::new(&keys.word);
    if words.len() < MANY {
        set_each(&mut row, &word_key, shape, words);
    } else {
        let mut recent = Recent::new(alloc)?;
        set_new(&mut row, &mut recent, &word_key, shape, words);
    }
    Ok(row)
}

/// Sets the positions of each word.
fn set_each(row: &mut Bits, word_key: &KeyedMac, shape: Shape, words: &[Word])
    requires { length row.old ≡ 2 ^ shape.depth }
    ensures len { length row.new ≡ 2 ^ shape.depth }
    ensures bits { (j : ℕ) → j < 2 ^ shape.depth → slice_index_or row.new j false ≡ (slice_index_or row.old j false || list_any (λ word. is_among j (columns_of (hmac_of_block word_key.now word) shape)) words.now) }
{
    for word in words {
        set_positions(row, word_key, shape, word);
    }
}

/// Sets the positions of each word, and spares the HMAC of a word that was kept since it was set.
fn set_new(row: &mut Bits, recent: &mut Recent, word_key: &KeyedMac, shape: Shape, words: &[Word])
    requires len { length row.old ≡ 2 ^ shape.depth }
    requires kept { AreSet recent.old row.old word_key.now shape }
    ensures len { length row.new ≡ 2 ^ shape.depth }
    ensures bits { (j : ℕ) → j < 2 ^ shape.depth → slice_index_or row.new j false ≡ (slice_index_or row.old j false || list_any (λ word. is_among j (columns_of (hmac_of_block word_key.now word) shape)) words.now) }
{
    for word in words {
        set_once(row, recent, word_key, shape, word);
    }
}

/// Sets the positions of one word, unless they are set already.
fn set_once(row: &mut Bits, recent: &mut Recent, word_key: &KeyedMac, shape: Shape, word: &Word)
    requires len { length row.old ≡ 2 ^ shape.depth }
    requires kept { AreSet recent.old row.old word_key.now shape }
    ensures len { length row.new ≡ 2 ^ shape.depth }
    ensures bits { (j : ℕ) → j < 2 ^ shape.depth → slice_index_or row.new j false ≡ (slice_index_or row.old j false || is_among j (columns_of (hmac_of_block word_key.now word.now) shape)) }
    ensures kept { AreSet recent.new row.new word_key.now shape }
{
    if recent.has(word) {
        return;
    }
    set_positions(row, word_key, shape, word);
    recent.keep(word);
}

/// Sets the positions of one word.
fn set_positions(row: &mut Bits, word_key: &KeyedMac, shape: Shape, word: &Word)
    requires { length row.old ≡ 2 ^ shape.depth }
    ensures len { length row.new ≡ 2 ^ shape.depth }
    ensures bits { (j : ℕ) → j < 2 ^ shape.depth → slice_index_or row.new j false ≡ (slice_index_or row.old j false || is_among j (columns_of (hmac_of_block word_key.now word.now) shape)) }
{
    let mut columns = [0; 8];
    keyed_positions(word_key, shape, word, &mut columns);
    for p in 0..shape.probes() as usize {
        row.put(columns[p] as usize, true);
    }
}
