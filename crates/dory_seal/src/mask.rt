//! Mask bits, one by one and by blocks of 256 columns.
ghost use Rattle.std.specs.Prelude.{◌≡◌, ◌%◌, length};
ghost use Rattle.dory_seal.specs.Seal.{block_bit, mask_bit_of};

use crate::epoch::{epoch_of, key_in};
use crate::message::mask_message;
use dory_base::{DocId, UpdateId};
use dory_hmac::{FolderKeys, mac};
use std::marker::Model;

/// The mask bits of 256 columns. Its value in contracts is the bytes that hold them.
#[derive(Clone, Copy, Debug)]
pub struct MaskBlock {
    bytes: [u8; 32],
}

impl Model for MaskBlock {
    ghost use Rattle.std.specs.Prelude.{List, ℕ};

    ghost Value = { List ℕ };

    ghost view = { λ b. b.bytes };

    ghost inverse = { λ bytes. record { bytes = bytes } };
}

impl MaskBlock {
    pub(crate) fn of(bytes: [u8; 32]) -> MaskBlock
        ensures { result ≡ bytes }
    {
        MaskBlock { bytes }
    }

    /// The bit of a column that stands in this block.
    pub fn bit(&self, column: u16) -> bool
        ensures { result ≡ block_bit self.now (column % 256) }
    {
        let place = (column % 256) as usize;
        self.bytes[place / 8] >> (place % 8) & 1 == 1
    }
}

/// A block of 256 columns of an update of a document: those from `256 * block` on.
#[derive(Clone, Copy, Debug)]
pub struct Block {
    pub doc: DocId,
    pub id: UpdateId,
    pub block: u32,
}

/// Writes the mask bits that each HMAC holds.
pub(crate) fn masks_of(digests: &[[u8; 32]], into: &mut [MaskBlock])
    requires { length into.old ≡ length digests.now }
    ensures { into.new ≡ digests.now }
{
    for i in 0..digests.len() {
        into[i] = MaskBlock::of(digests[i]);
    }
}

/// The mask bit of a column.
#[tactic(auto, unfolding(crate::specs::Seal::mask_bit_of, crate::specs::Seal::mask_block_of))]
pub fn mask_bit(keys: &FolderKeys, doc: DocId, id: UpdateId, column: u16) -> bool
    ensures { result ≡ mask_bit_of keys.now doc id column }
{
    let key = key_in(epoch_of(id), &keys.mask);
    let block = MaskBlock::of(mac(&key, &mask_message(doc, id, (column / 256) as u32)));
    block.bit(column)
}
