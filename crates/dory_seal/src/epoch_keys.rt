//! A folder's keys in one epoch, hashed once for the many cells of its entries.
ghost use Rattle.std.specs.Prelude.{◌≡◌, ◌≤◌, ◌+◌, ◌/◌, ◌%◌, ℕ, false, length, map, slice_index_or};
ghost use Rattle.std.specs.List.{All, range_with_len};
ghost use Rattle.dory_seal.specs.Epoch.{epoch_of};
ghost use Rattle.dory_seal.specs.Seal.{block_bit, cell_tag_of, mask_bit_of, mask_block_of};

use crate::cell::{Cell, RUN, leading, run_of_tags};
use crate::epoch::{epoch_of, key_in};
use crate::mask::{Block, MaskBlock, masks_of};
use crate::message::{cell_message, mask_message};
use dory_base::{Bits, DocId, Tag, UpdateId};
use dory_hmac::{FolderKeys, KeyedMac};
use std::marker::Model;

/// The mask key and the tag key of an epoch, ready for messages. The folder's keys and the epoch are its
/// value in contracts.
#[derive(Drop)]
pub struct EpochKeys {
    keys: FolderKeys,
    epoch: u8,
    mask: KeyedMac,
    tag: KeyedMac,
}

impl Model for EpochKeys {
    ghost use Rattle.std.specs.Prelude.{◌≡◌};
    ghost use Rattle.dory_hmac.specs.Hmac.{block_key};
    ghost use Rattle.dory_seal.specs.Epoch.{KeysIn, mask_key_of, tag_key_of};

    ghost Value = { KeysIn };

    ghost view = { λ k. record { keys = k.keys; epoch = k.epoch } };

    ghost invariant = { λ k. (k.mask ≡ block_key (mask_key_of k.keys k.epoch)) × (k.tag ≡ block_key (tag_key_of k.keys k.epoch)) };
}

impl EpochKeys {
    /// The keys of a folder in an epoch.
    pub fn new(keys: &FolderKeys, epoch: u8) -> EpochKeys
        ensures keys { result.keys ≡ keys.now }
        ensures epoch { result.epoch ≡ epoch }
    {
        EpochKeys {
            keys: *keys,
            epoch,
            mask: KeyedMac::new(&key_in(epoch, &keys.mask)),
            tag: KeyedMac::new(&key_in(epoch, &keys.tag)),
        }
    }

    pub fn epoch(&self) -> u8
        ensures { result ≡ self.now.epoch }
    {
        self.epoch
    }

    /// The mask bits of the 256 columns from `256 * block` on.
    pub fn mask_block(&self, doc: DocId, id: UpdateId, block: u32) -> MaskBlock
        requires { epoch_of id ≡ self.now.epoch }
        ensures bytes { result ≡ mask_block_of self.now.keys doc id block }
        ensures bits { (column : ℕ) → column / 256 ≡ block → block_bit result (column % 256) ≡ mask_bit_of self.now.keys doc id column }
    {
        MaskBlock::of(self.mask_bytes(doc, id, block))
    }

    #[tactic(auto, unfolding(crate::specs::Seal::mask_block_of))]
    fn mask_bytes(&self, doc: DocId, id: UpdateId, block: u32) -> [u8; 32]
        requires { epoch_of id ≡ self.now.epoch }
        ensures { result ≡ mask_block_of self.now.keys doc id block }
    {
        self.mask.tag(&mask_message(doc, id, block))
    }

    /// Writes the mask bits of each block to its place. The blocks may be of any documents and updates
    /// of the epoch, and are hashed four at a time.
    pub fn mask_blocks(&self, blocks: &[Block], into: &mut [MaskBlock])
        requires epoch { All (λ block. epoch_of block.id ≡ self.now.epoch) blocks.now }
        requires room { length into.old ≡ length blocks.now }
        ensures { into.new ≡ map (λ block. mask_block_of self.now.keys block.doc block.id block.block) blocks.now }
    {
        for run in 0..blocks.len() / RUN {
            let from = RUN * run;
            self.masks_of_run(&blocks[from..from + RUN], &mut into[from..from + RUN]);
        }
        let from = blocks.len() / RUN * RUN;
        self.masks_of_run(&blocks[from..], &mut into[from..]);
    }

    fn masks_of_run(&self, blocks: &[Block], into: &mut [MaskBlock])
        requires few { length blocks.now ≤ 64 }
        requires epoch { All (λ block. epoch_of block.id ≡ self.now.epoch) blocks.now }
        requires room { length into.old ≡ length blocks.now }
        ensures { into.new ≡ map (λ block. mask_block_of self.now.keys block.doc block.id block.block) blocks.now }
    {
        let mut messages = [[0; 20]; RUN];
        for i in 0..blocks.len() {
            let Block { doc, id, block } = blocks[i];
            messages[i] = mask_message(doc, id, block);
        }
        let mut digests = [[0; 32]; RUN];
        let run = &mut digests[..blocks.len()];
        self.mask.tags(&messages[..blocks.len()], run);
        masks_of(run, into);
    }

    /// The tag of a cell.
    #[tactic(auto, unfolding(crate::specs::Seal::cell_tag_of))]
    pub fn cell_tag(&self, doc: DocId, id: UpdateId, column: u16, cell: bool) -> Tag
        requires { epoch_of id ≡ self.now.epoch }
        ensures { result ≡ cell_tag_of self.now.keys doc id column cell }
    {
        leading(&self.tag.tag(&cell_message(doc, id, column as u32, cell)))
    }

    /// Writes the tag of each cell to its place. The cells may be of any documents and updates of the
    /// epoch, and are hashed four at a time.
    pub fn cell_tags(&self, cells: &[Cell], into: &mut [Tag])
        requires epoch { All (λ cell. epoch_of cell.id ≡ self.now.epoch) cells.now }
        requires room { length into.old ≡ length cells.now }
        ensures { into.new ≡ map (λ cell. cell_tag_of self.now.keys cell.doc cell.id cell.column cell.cell) cells.now }
    {
        for run in 0..cells.len() / RUN {
            let from = RUN * run;
            self.tags_of_run(&cells[from..from + RUN], &mut into[from..from + RUN]);
        }
        let from = cells.len() / RUN * RUN;
        self.tags_of_run(&cells[from..], &mut into[from..]);
    }

    fn tags_of_run(&self, cells: &[Cell], into: &mut [Tag])
        requires few { length cells.now ≤ 64 }
        requires epoch { All (λ cell. epoch_of cell.id ≡ self.now.epoch) cells.now }
        requires room { length into.old ≡ length cells.now }
        ensures { into.new ≡ map (λ cell. cell_tag_of self.now.keys cell.doc cell.id cell.column cell.cell) cells.now }
    {
        let mut messages = [[0; 21]; RUN];
        for i in 0..cells.len() {
            let Cell {
                doc,
                id,
                column,
                cell,
            } = cells[i];
            messages[i] = cell_message(doc, id, column as u32, cell);
        }
        run_of_tags(&self.tag, &messages[..cells.len()], into);
    }

    /// The tags of the 64 columns of a row from one on.
    pub(crate) fn tags_from(&self, doc: DocId, id: UpdateId, row: &Bits, from: usize) -> [Tag; 64]
        requires epoch { epoch_of id ≡ self.now.epoch }
        requires near { from + 64 ≤ length row.now }
        requires few { from ≤ 4096 }
        ensures { result ≡ map (λ j. cell_tag_of self.now.keys doc id j (slice_index_or row.now j false)) (range_with_len from 64) }
    {
        let mut messages = [[0; 21]; RUN];
        for i in 0..RUN {
            let column = from + i;
            messages[i] = cell_message(doc, id, column as u32, row.get(column));
        }
        let mut tags = [Tag::zero(); RUN];
        run_of_tags(&self.tag, &messages, &mut tags);
        tags
    }
}
