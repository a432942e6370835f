//! Tags and mask blocks under kept keys, one by one and by lanes, and one HMAC whole.
ghost use Rattle.std.specs.Prelude.{◌≡◌};
ghost use Rattle.std.specs.List.{All};
ghost use Rattle.dory_seal.specs.Epoch.{epoch_of};

use crate::fault::Fault;
use crate::names::{MASTER, folder_keys, update};
use crate::run::Run;
use dory_base::{DocId, Tag, UpdateId};
use dory_hmac::mac;
use dory_seal::{Block, Cell, EpochKeys, epoch_of};
use std::rt::Clock;

/// How many cells, or blocks, are hashed in one turn by lanes.
const MANY: usize = 64;

/// Twenty-one bytes, as long as a cell's, that begin with a number.
fn message(number: u32) -> [u8; 21] {
    let mut bytes = [0; 21];
    bytes[..4].copy_from_slice(&number.to_be_bytes());
    bytes
}

/// An HMAC whose key isn't kept.
pub fn whole<R: Clock>(run: &mut Run<R>) -> Result<(), Fault> {
    let start = run.start()?;
    for turn in 0..run.turns {
        run.sum.bytes(&mac(&MASTER, &message(turn)));
    }
    run.stop(start)
}

/// The tag of one cell at a time.
pub fn tag<R: Clock>(run: &mut Run<R>) -> Result<(), Fault> {
    let id = update(3, 5);
    let keys = EpochKeys::new(&folder_keys(), epoch_of(id));
    let start = run.start()?;
    for turn in 0..run.turns {
        let tag = keys.cell_tag(DocId(turn), id, 300, turn % 2 == 1);
        run.sum.bytes(&tag.bytes());
    }
    run.stop(start)
}

/// Cells of an update in the columns from 0 on.
fn cells(id: UpdateId) -> [Cell; 64]
    ensures { All (λ cell. epoch_of cell.id ≡ epoch_of id) result }
{
    let mut cells = [Cell {
        doc: DocId(7),
        id,
        column: 0,
        cell: false,
    }; MANY];
    for i in 0..64u16 {
        cells[i as usize] = Cell {
            doc: DocId(7),
            id,
            column: i,
            cell: i % 3 == 0,
        };
    }
    cells
}

/// The tags of 64 cells at a time.
pub fn tags<R: Clock>(run: &mut Run<R>) -> Result<(), Fault> {
    let id = update(3, 5);
    let keys = EpochKeys::new(&folder_keys(), epoch_of(id));
    let cells = cells(id);
    let mut tags = [Tag::zero(); MANY];
    let start = run.start()?;
    for _ in 0..run.turns {
        keys.cell_tags(&cells, &mut tags);
        run.sum.tags(&tags);
    }
    run.stop(start)
}

/// One mask block at a time.
pub fn mask_block<R: Clock>(run: &mut Run<R>) -> Result<(), Fault> {
    let id = update(3, 5);
    let keys = EpochKeys::new(&folder_keys(), epoch_of(id));
    let start = run.start()?;
    for turn in 0..run.turns {
        run.sum.mask(&keys.mask_block(DocId(turn), id, 1));
    }
    run.stop(start)
}

/// Blocks of an update of the documents from 0 on.
fn blocks(id: UpdateId) -> [Block; 64]
    ensures { All (λ block. epoch_of block.id ≡ epoch_of id) result }
{
    let mut blocks = [Block {
        doc: DocId(0),
        id,
        block: 0,
    }; MANY];
    for i in 0..64u32 {
        blocks[i as usize] = Block {
            doc: DocId(i),
            id,
            block: i % 8,
        };
    }
    blocks
}

/// Sixty-four mask blocks at a time.
pub fn mask_blocks<R: Clock>(run: &mut Run<R>) -> Result<(), Fault> {
    let id = update(3, 5);
    let keys = EpochKeys::new(&folder_keys(), epoch_of(id));
    let blocks = blocks(id);
    let mut masks = [keys.mask_block(DocId(0), id, 0); MANY];
    let start = run.start()?;
    for _ in 0..run.turns {
        keys.mask_blocks(&blocks, &mut masks);
        for mask in &masks {
            run.sum.mask(mask);
        }
    }
    run.stop(start)
}
