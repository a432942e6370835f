//! Sealing a row, and checking a sealed one.
ghost use Rattle.std.specs.Prelude.{◌≡◌, ◌^◌, length, IfOk};
ghost use Rattle.dory_base.specs.History.{IsWhole};

use crate::fault::Fault;
use crate::names::{folder_keys, shape, update};
use crate::run::Run;
use crate::texts::row_of;
use crate::work::Depth;
use dory_base::{Bits, DocId, Entry, NoMemory, Shape, Word};
use dory_hmac::FolderKeys;
use dory_seal::{check_sealed, seal_post};
use std::alloc::Global;
use std::rt::Clock;

/// The row of one word.
pub fn one_word(alloc: Global, keys: &FolderKeys, shape: Shape) -> Result<Bits, Fault>
    ensures { IfOk result (λ row. length row ≡ 2 ^ shape.depth) }
{
    let Ok(word) = Word::read(b"alpha") else {
        return Err(Fault::Unexpected);
    };
    row_of(alloc, keys, shape, &[word])
}

/// One sealed row at a time.
pub fn seal<R: Clock>(run: &mut Run<R>, depth: Depth) -> Result<(), Fault> {
    let keys = folder_keys();
    let shape = shape(depth);
    let row = one_word(run.alloc, &keys, shape)?;
    let start = run.start()?;
    for turn in 0..run.turns {
        let id = update(3, u64::from(turn) + 1);
        let entry = seal_post(run.alloc, &keys, shape, id, DocId(7), &row)?;
        run.sum.entry(&entry);
    }
    run.stop(start)
}

/// A sealed entry of this shape.
fn sealed(alloc: Global, keys: &FolderKeys, shape: Shape) -> Result<Entry, Fault>
    ensures { IfOk result (λ entry. IsWhole entry.change) }
{
    let row = one_word(alloc, keys, shape)?;
    match seal_post(alloc, keys, shape, update(3, 5), DocId(7), &row) {
        Ok(entry) => Ok(entry),
        Err(NoMemory) => Err(Fault::NoMemory),
    }
}

/// The check of one sealed entry at a time.
pub fn check<R: Clock>(run: &mut Run<R>, depth: Depth) -> Result<(), Fault> {
    let keys = folder_keys();
    let entry = sealed(run.alloc, &keys, shape(depth))?;
    let start = run.start()?;
    for _ in 0..run.turns {
        run.sum.bit(check_sealed(&keys, &entry).is_ok());
    }
    run.stop(start)
}
