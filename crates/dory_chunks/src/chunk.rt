//! A chunk of 64 slots: each entry behind an `Arc` of its own, the slots' marks, and the words of all rows in one block.
ghost use Rattle.std.specs.Prelude.{◌≡◌, ◌+◌, ◌*◌, ◌<◌, ◌≤◌, ℕ, length, map, vec_len, slice_range, slice_index_or, slice_set, replicate, position, IfOk, IfSome, IfNone, Option, Some, None};
ghost use Rattle.std.specs.Option.{option_map, option_copied};
ghost use Rattle.std.specs.Arc.{arc_value};
ghost use Rattle.dory_base.specs.declared.entry.Entry.{Entry};
ghost use Rattle.dory_base.specs.Sum.{row_of};
ghost use Rattle.dory_base.specs.TableMeaning.{Shows};
ghost use Rattle.dory_chunks.specs.Marks.{mark_of, is_slot_of};
ghost use Rattle.dory_chunks.specs.Parts.{Part, IsPart, HasWidth, put_in, empty_part};

use crate::Steps;
use crate::marks::{Mark, first_marked, marked};
use dory_base::{Change, DocId, Entry, NoMemory};
use std::alloc::Global;
use std::marker::Model;
use std::sync::Arc;
use std::sync::ledger::Ledger;

/// 64 slots, with the mark and the sealed cells of each live one.
#[derive(Drop)]
pub struct Chunk {
    width: usize,
    marks: Vec<Option<Mark>>,
    entries: Vec<Option<Arc<Entry>>>,
    rows: Vec<u64>,
}

impl Model for Chunk {
    ghost use Rattle.std.specs.Prelude.{◌≡◌, map};
    ghost use Rattle.std.specs.Option.{option_map};
    ghost use Rattle.std.specs.Arc.{arc_value};
    ghost use Rattle.dory_chunks.specs.Marks.{mark_of};
    ghost use Rattle.dory_chunks.specs.Parts.{Part, IsChunk};

    ghost Value = { Part };

    ghost view = { λ c. record { width = c.width; slots = map (option_map arc_value) c.entries.items } };

    ghost invariant = { λ c. IsChunk c.width (map (option_map arc_value) c.entries.items) c.rows.items × (c.marks.items ≡ map mark_of (map (option_map arc_value) c.entries.items)) };
}

fn shared(slot: &Option<Arc<Entry>>) -> Result<Option<Arc<Entry>>, NoMemory>
    ensures { IfOk result (λ s. option_map arc_value s ≡ option_map arc_value slot.now) }
{
    match slot {
        None => Ok(None),
        Some(entry) => {
            let entry = Arc::try_clone(entry)?;
            Ok(Some(entry))
        }
    }
}

/// What a slot has.
pub fn entry_of(slot: &Option<Arc<Entry>>) -> Option<&Entry>
    ensures { option_copied result ≡ option_map arc_value slot.now }
{
    match slot {
        None => None,
        Some(entry) => Some(&**entry),
    }
}

fn copied(
    alloc: Global,
    slots: &Vec<Option<Arc<Entry>>>,
) -> Result<Vec<Option<Arc<Entry>>>, NoMemory>
    ensures { IfOk result (λ v. map (option_map arc_value) v.items ≡ map (option_map arc_value) slots.now.items) }
{
    let mut all = Vec::with_capacity(alloc, slots.len())?;
    for slot in slots {
        all.push(shared(slot)?)?;
    }
    Ok(all)
}

/// Nothing for each slot.
fn empty_slots<T: Drop>(alloc: Global) -> Result<Vec<Option<T>>, NoMemory>
    ensures { IfOk result (λ v. v.items ≡ replicate 64 None) }
{
    let mut all = Vec::with_capacity(alloc, 64)?;
    for at in 0..64usize {
        all.push(None)?;
    }
    Ok(all)
}

/// The words of an entry's cells.
fn cells(change: &Change) -> &[u64]
    ensures { Shows result.now (row_of change.now) }
{
    match change {
        Change::Post { row, .. } => row.words(),
        Change::Remove => &[],
    }
}

/// Where the row of a slot begins in the block.
fn start_of(place: usize, width: usize) -> usize
    requires place { place < 64 }
    requires width { width ≤ 32 }
    ensures value { result ≡ place * width }
    ensures inside { result + width ≤ 64 * width }
    ensures few { result + width ≤ 2048 }
{
    place * width
}

/// Writes words into a block, from `start` on.
fn write_words(rows: &mut Vec<u64>, start: usize, words: &[u64])
    requires { start + length words.now ≤ length rows.old.items }
    ensures len { length rows.new.items ≡ length rows.old.items }
    ensures there { slice_range rows.new.items start (start + length words.now) ≡ words.now }
    ensures below { (a e : ℕ) → e ≤ start → slice_range rows.new.items a e ≡ slice_range rows.old.items a e }
    ensures above { (a e : ℕ) → start + length words.now ≤ a → slice_range rows.new.items a e ≡ slice_range rows.old.items a e }
{
    rows[start..start + words.len()].copy_from_slice(words);
}

impl Chunk {
    /// A chunk of empty slots. It counts, also where memory runs out.
    pub fn empty<L: Ledger>(
        alloc: Global,
        width: usize,
        steps: &mut Steps<L>,
    ) -> Result<Chunk, NoMemory>
        requires { width ≤ 32 }
        ensures value { IfOk result (λ c. c ≡ empty_part width) }
        ensures cost { steps.new ≡ steps.old + 1 }
    {
        steps.tick();
        let marks = empty_slots(alloc)?;
        let entries = empty_slots(alloc)?;
        let rows = vec![in alloc; 0u64; 64 * width]?;
        Ok(Chunk {
            width,
            marks,
            entries,
            rows,
        })
    }

    /// An equal chunk, whose entries are shared. It counts, also where memory runs out.
    pub fn copy<L: Ledger>(&self, alloc: Global, steps: &mut Steps<L>) -> Result<Chunk, NoMemory>
        ensures value { IfOk result (λ c. c ≡ self.now) }
        ensures cost { steps.new ≡ steps.old + 1 }
    {
        steps.tick();
        let marks = self.marks.as_slice().to_vec(alloc)?;
        let entries = copied(alloc, &self.entries)?;
        let rows = self.rows.as_slice().to_vec(alloc)?;
        Ok(Chunk {
            width: self.width,
            marks,
            entries,
            rows,
        })
    }

    /// Puts something else into a slot.
    pub fn put(&mut self, place: usize, slot: Option<Arc<Entry>>)
        requires place { place < 64 }
        requires width { HasWidth self.old.width (option_map arc_value slot) }
        ensures { self.new ≡ put_in self.old place (option_map arc_value slot) }
    {
        let mark = marked(entry_of(&slot));
        if let Some(entry) = entry_of(&slot) {
            write_words(
                &mut self.rows,
                start_of(place, self.width),
                cells(&entry.change),
            );
        }
        self.entries[place] = slot;
        self.marks[place] = mark;
    }

    /// The mark of a slot.
    pub fn mark(&self, place: usize) -> Option<Mark>
        requires { place < 64 }
        ensures { result ≡ mark_of (slice_index_or self.now.slots place None) }
    {
        self.marks[place]
    }

    /// The first slot of this document, or the first empty one where none is named.
    pub fn first(&self, doc: Option<DocId>) -> Option<usize>
        ensures { result ≡ position (is_slot_of doc) self.now.slots }
    {
        first_marked(&self.marks, doc)
    }

    /// What a slot has.
    pub fn get(&self, place: usize) -> Option<&Entry>
        requires { place < 64 }
        ensures { option_copied result ≡ slice_index_or self.now.slots place None }
    {
        entry_of(&self.entries[place])
    }

    /// The words of a live slot's cells.
    pub fn row(&self, place: usize) -> Option<&[u64]>
        requires { place < 64 }
        ensures live { IfSome result (λ words. (e : Entry) × (slice_index_or self.now.slots place None ≡ Some e) × Shows words.now (row_of e.change)) }
        ensures empty { IfNone result (slice_index_or self.now.slots place None ≡ None) }
    {
        match &self.entries[place] {
            None => None,
            Some(_) => {
                let start = start_of(place, self.width);
                Some(&self.rows[start..start + self.width])
            }
        }
    }
}
