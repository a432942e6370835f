//! A version's list of chunks, all but one of which it shares with the version before.
ghost use Rattle.std.specs.Prelude.{◌≡◌, ◌+◌, ◌*◌, ◌/◌, ◌%◌, ◌<◌, ◌≤◌, ◌∷◌, [], ◌++◌, ℕ, length, map, slice_set, IfOk};
ghost use Rattle.std.specs.Option.{option_map};
ghost use Rattle.std.specs.Arc.{arc_value};
ghost use Rattle.dory_chunks.specs.Parts.{Part, HasWidth, put_in, empty_part, part_at, parts_with};

use crate::Steps;
use crate::chunk::Chunk;
use dory_base::{Entry, NoMemory};
use std::alloc::Global;
use std::sync::Arc;
use std::sync::ledger::Ledger;

/// The same list.
pub fn shared_chunks(alloc: Global, chunks: &Vec<Arc<Chunk>>) -> Result<Vec<Arc<Chunk>>, NoMemory>
    ensures { IfOk result (λ v. map arc_value v.items ≡ map arc_value chunks.now.items) }
{
    let mut all = Vec::with_capacity(alloc, chunks.len())?;
    for chunk in chunks {
        all.push(Arc::try_clone(chunk)?)?;
    }
    Ok(all)
}

/// The chunk of this number.
pub fn chunk_at(chunks: &Vec<Arc<Chunk>>, n: usize) -> &Chunk
    requires { n < length chunks.now.items }
    ensures { result.now ≡ part_at (map arc_value chunks.now.items) n }
{
    &*chunks[n]
}

/// The list with a copy of one chunk, in which one slot has something else.
fn replaced<L: Ledger>(
    alloc: Global,
    chunks: &Vec<Arc<Chunk>>,
    n: usize,
    slot: Option<Arc<Entry>>,
    steps: &mut Steps<L>,
) -> Result<Vec<Arc<Chunk>>, NoMemory>
    requires near { n / 64 < length chunks.now.items }
    requires width { HasWidth (part_at (map arc_value chunks.now.items) (n / 64)).width (option_map arc_value slot) }
    ensures value { IfOk result (λ v. map arc_value v.items ≡ slice_set (map arc_value chunks.now.items) (n / 64) (put_in (part_at (map arc_value chunks.now.items) (n / 64)) (n % 64) (option_map arc_value slot))) }
    ensures cost { steps.new ≡ steps.old + 1 }
{
    let mut chunk = chunk_at(chunks, n / 64).copy(alloc, steps)?;
    chunk.put(n % 64, slot);
    let mut all = shared_chunks(alloc, chunks)?;
    all[n / 64] = Arc::new(alloc, chunk)?;
    Ok(all)
}

/// The list with one chunk more, in which one slot has something.
fn grown<L: Ledger>(
    alloc: Global,
    chunks: &Vec<Arc<Chunk>>,
    width: usize,
    n: usize,
    slot: Option<Arc<Entry>>,
    steps: &mut Steps<L>,
) -> Result<Vec<Arc<Chunk>>, NoMemory>
    requires narrow { width ≤ 32 }
    requires width { HasWidth width (option_map arc_value slot) }
    ensures value { IfOk result (λ v. map arc_value v.items ≡ map arc_value chunks.now.items ++ put_in (empty_part width) (n % 64) (option_map arc_value slot) ∷ []) }
    ensures cost { steps.new ≡ steps.old + 1 }
{
    let mut chunk = Chunk::empty(alloc, width, steps)?;
    chunk.put(n % 64, slot);
    let mut all = shared_chunks(alloc, chunks)?;
    all.push(Arc::new(alloc, chunk)?)?;
    Ok(all)
}

/// The list with something else in the slot of this number. One chunk is copied, or made where there is none yet, which
/// counts also where memory runs out.
pub fn chunks_with<L: Ledger>(
    alloc: Global,
    chunks: &Vec<Arc<Chunk>>,
    width: usize,
    n: usize,
    slot: Option<Arc<Entry>>,
    steps: &mut Steps<L>,
) -> Result<Vec<Arc<Chunk>>, NoMemory>
    requires narrow { width ≤ 32 }
    requires widths { (q : ℕ) → q < length chunks.now.items → (part_at (map arc_value chunks.now.items) q).width ≡ width }
    requires width { HasWidth width (option_map arc_value slot) }
    ensures value { IfOk result (λ v. map arc_value v.items ≡ parts_with width (map arc_value chunks.now.items) n (option_map arc_value slot)) }
    ensures cost { steps.new ≡ steps.old + 1 }
{
    if n / 64 < chunks.len() {
        replaced(alloc, chunks, n, slot, steps)
    } else {
        grown(alloc, chunks, width, n, slot, steps)
    }
}
