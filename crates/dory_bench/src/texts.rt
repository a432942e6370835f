//! The words of a text, and their row.
ghost use Rattle.std.specs.Prelude.{◌≡◌, ◌^◌, length, IfOk};

use crate::fault::Fault;
use crate::names::{folder_keys, shape};
use crate::run::Run;
use crate::work::Depth;
use dory_base::{Bits, NoMemory, Shape, Word};
use dory_bloom::plain_row;
use dory_hmac::FolderKeys;
use dory_words::words_of;
use std::alloc::Global;
use std::rt::Clock;

/// What the text is made of.
const LETTERS: [u8; 32] = *b"etaoinshrdlucmfwypvbgkETAS,.    ";

/// A text of 1 MiB, or of 1,000 bytes, drawn from the letters by a linear generator.
pub fn text(alloc: Global, full: bool) -> Result<Vec<u8>, Fault> {
    let len = if full { 1_048_576 } else { 1000 };
    let mut text = Vec::with_capacity(alloc, len)?;
    let mut state = 1u32;
    for _ in 0..len {
        state = state.wrapping_mul(1_664_525).wrapping_add(1_013_904_223);
        text.push(LETTERS[(state >> 27) as usize])?;
    }
    Ok(text)
}

/// The row of some words.
pub fn row_of(alloc: Global, keys: &FolderKeys, shape: Shape, words: &[Word]) -> Result<Bits, Fault>
    ensures { IfOk result (λ row. length row ≡ 2 ^ shape.depth) }
{
    match plain_row(alloc, keys, shape, words) {
        Ok(row) => Ok(row),
        Err(NoMemory) => Err(Fault::NoMemory),
    }
}

/// The words of the text.
pub fn words<R: Clock>(run: &mut Run<R>) -> Result<(), Fault> {
    let text = text(run.alloc, run.is_full())?;
    let start = run.start()?;
    for _ in 0..run.turns {
        let words = words_of(run.alloc, &text)?;
        run.sum.number(words.len() as u64);
        for word in &words {
            run.sum.bytes(word.bytes());
        }
    }
    run.stop(start)
}

/// The row of the text's words.
pub fn row<R: Clock>(run: &mut Run<R>) -> Result<(), Fault> {
    let text = text(run.alloc, run.is_full())?;
    let words = words_of(run.alloc, &text)?;
    let keys = folder_keys();
    let shape = shape(Depth::Eleven);
    let start = run.start()?;
    for _ in 0..run.turns {
        run.sum.row(&row_of(run.alloc, &keys, shape, &words)?);
    }
    run.stop(start)
}
