//! The documents that an accepted pair lists.
ghost use Rattle.std.specs.Prelude.{◌≡◌, ◌<◌, ◌/◌, ◌==◌, ℕ, true, false, length, slice_index, slice_index_or, List, [], IfOk, IsTrue, IsFalse};
ghost use Rattle.std.specs.List.{AllByRecursion, list_any};
ghost use Rattle.dory_seal.specs.Epoch.{epoch_of};
ghost use Rattle.dory_verify.specs.Answer.{IsRising, numbers};
ghost use Rattle.dory_verify.specs.Listing.{crossed, plain_cell, is_line_listed, listed_from};
ghost use Rattle.dory_wire.specs.Spelling.{IsSum};

use crate::epochs::turn_to;
use dory_base::{Bits, DocId, Docs, NoMemory, Place, Sum, xor};
use dory_hmac::FolderKeys;
use dory_seal::EpochKeys;
use std::alloc::Global;

/// The number of columns whose mask bits come from one HMAC.
const BLOCK: u16 = 256;

/// The XOR of the bits of two replies, for each probe.
pub fn crossed(alloc: Global, lead: &[Sum], follow: &[Sum]) -> Result<Vec<Bits>, NoMemory>
    requires many { length lead.now ≡ length follow.now }
    requires same { (n : ℕ) × AllByRecursion (IsSum n) lead.now × AllByRecursion (IsSum n) follow.now }
    ensures { IfOk result (λ bits. bits.items ≡ crossed lead.now follow.now) }
{
    let mut all = Vec::new(alloc);
    for probe in 0..lead.len() {
        let mut bits = lead[probe].bits.copy(alloc)?;
        bits.xor_with(&follow[probe].bits);
        all.push(bits)?;
    }
    Ok(all)
}

/// Whether the bit for a line is set; past the last line it isn't.
fn is_set(bits: &Bits, line: usize) -> bool
    ensures { result ≡ slice_index_or bits.now line false }
{
    line < bits.len() && bits.get(line)
}

/// Whether a column before stands in this block.
fn is_met(columns: &[u16], block: u16) -> bool
    ensures { result ≡ list_any (λ c. (c / 256) == block) columns.now }
{
    columns.iter().any(|column| column / BLOCK == block)
}

/// Whether the plain cells of a line are set at all columns of a block, whose mask bits are made once.
fn is_set_in(
    keys: &EpochKeys,
    columns: &[u16],
    bits: &[Bits],
    line: usize,
    place: Place,
    block: u16,
) -> bool
    requires epoch { epoch_of place.id ≡ keys.now.epoch }
    requires many { length bits.now ≡ length columns.now }
    ensures yes { IsTrue result → (k : ℕ) → k < length columns.now → slice_index columns.now k / 256 ≡ block
        → plain_cell keys.now.keys place (slice_index columns.now k) (slice_index_or (slice_index_or bits.now k []) line false) ≡ true }
    ensures no { IsFalse result → (k : ℕ) × (k < length columns.now)
        × (plain_cell keys.now.keys place (slice_index columns.now k) (slice_index_or (slice_index_or bits.now k []) line false) ≡ false) }
{
    let mask = keys.mask_block(place.doc, place.id, block as u32);
    for probe in 0..columns.len() {
        let column = columns[probe];
        if column / BLOCK == block && !xor(is_set(&bits[probe], line), mask.bit(column)) {
            return false;
        }
    }
    true
}

/// Whether the plain cells of a line are set at every column.
fn is_listed(keys: &EpochKeys, columns: &[u16], bits: &[Bits], line: usize, place: Place) -> bool
    requires epoch { epoch_of place.id ≡ keys.now.epoch }
    requires many { length bits.now ≡ length columns.now }
    ensures { result ≡ is_line_listed keys.now.keys columns.now bits.now line place }
{
    for probe in 0..columns.len() {
        let block = columns[probe] / BLOCK;
        if !is_met(&columns[..probe], block)
            && !is_set_in(keys, columns, bits, line, place, block)
        {
            return false;
        }
    }
    true
}

/// The numbers of the documents whose lines are listed.
fn listed(
    alloc: Global,
    keys: &FolderKeys,
    columns: &[u16],
    bits: &[Bits],
    places: &[Place],
) -> Result<Vec<u32>, NoMemory>
    requires { length bits.now ≡ length columns.now }
    ensures { IfOk result (λ docs. docs.items ≡ listed_from keys.now columns.now bits.now 0 places.now) }
{
    let mut recent = EpochKeys::new(keys, 0);
    let mut docs = Vec::new(alloc);
    for line in 0..places.len() {
        let place = places[line];
        turn_to(&mut recent, keys, place.id);
        if is_listed(&recent, columns, bits, line, place) {
            docs.push(place.doc.0)?;
        }
    }
    Ok(docs)
}

/// The numbers as documents.
fn documents(alloc: Global, numbers_of: &[u32]) -> Result<Vec<DocId>, NoMemory>
    ensures { IfOk result (λ docs. numbers docs.items ≡ numbers_of.now) }
{
    let mut docs = Vec::new(alloc);
    for number in numbers_of {
        docs.push(DocId(*number))?;
    }
    Ok(docs)
}

/// The documents, rising.
pub fn rising(
    alloc: Global,
    keys: &FolderKeys,
    columns: &[u16],
    bits: &[Bits],
    places: &[Place],
) -> Result<Docs, NoMemory>
    requires { length bits.now ≡ length columns.now }
    ensures { IfOk result (λ docs. IsRising (listed_from keys.now columns.now bits.now 0 places.now) (numbers docs)) }
{
    let mut docs = listed(alloc, keys, columns, bits, places)?;
    docs.sort_unstable();
    docs.dedup();
    let docs = documents(alloc, &docs)?;
    Ok(Docs::of(docs))
}
