//! What an update does to a list of slots, and what each slot gives to a manifest and to a column's tag.
ghost use Rattle.std.specs.Prelude.{◌≡◌, ◌≤◌, ℕ, ◌∷◌, [], map, position, is_none, length, slice_index, slice_index_or, IfOk, IfSome, IfNone, OnErr, Option, Some, None};
ghost use Rattle.dory_base.specs.declared.entry.Entry.{Entry};
ghost use Rattle.dory_base.specs.Sum.{row_of, tags_of};
ghost use Rattle.dory_base.specs.Table.{has_doc, placed, emptied, step, manifest_of};
ghost use Rattle.dory_base.specs.TableMeaning.{column_tag_of, Shows};
ghost use Rattle.dory_table.specs.Columns.{ReachesColumn, HasColumn};

use dory_base::{Change, DocId, Entry, NoMemory, Place, Tag};
use std::alloc::Global;

/// Whether the slot has a post of this document.
fn holds(slot: &Option<Entry>, doc: DocId) -> bool
    ensures { result ≡ has_doc doc slot.now }
{
    match slot {
        None => false,
        Some(entry) => entry.doc == doc,
    }
}

/// The first slot that has a post of this document.
fn own_slot(slots: &[Option<Entry>], doc: DocId) -> Option<usize>
    ensures { result ≡ position (has_doc doc) slots.now }
{
    slots.iter().position(|slot| holds(slot, doc))
}

/// The lowest empty slot.
fn empty_slot(slots: &[Option<Entry>]) -> Option<usize>
    ensures { result ≡ position is_none slots.now }
{
    slots.iter().position(|slot| slot.is_none())
}

/// Puts a post at the end of the slots, while there are fewer than 4,096.
fn put_last(slots: &mut Vec<Option<Entry>>, post: Entry) -> Result<(), NoMemory>
    ensures done { IfOk result (λ _. slots.new.items ≡ placed post slots.old.items None None) }
    ensures unchanged { OnErr result (slots.new.items ≡ slots.old.items) }
{
    if slots.len() < 4096 {
        slots.push(Some(post))?;
    }
    Ok(())
}

/// Puts a post into its document's slot, else into the lowest empty one, else into a new one.
fn put(slots: &mut Vec<Option<Entry>>, post: Entry) -> Result<(), NoMemory>
    ensures done { IfOk result (λ _. slots.new.items ≡ placed post slots.old.items (position (has_doc post.doc) slots.old.items) (position is_none slots.old.items)) }
    ensures unchanged { OnErr result (slots.new.items ≡ slots.old.items) }
{
    let own = own_slot(slots, post.doc);
    let empty = empty_slot(slots);
    match (own, empty) {
        (Some(at), _) => slots[at] = Some(post),
        (None, Some(at)) => slots[at] = Some(post),
        (None, None) => put_last(slots, post)?,
    }
    Ok(())
}

fn clear_slot(slot: &mut Option<Entry>, doc: DocId)
    ensures { slot.new ≡ emptied doc slot.old }
{
    if holds(slot, doc) {
        *slot = None;
    }
}

/// Empties the slot of a document, if it has one.
fn clear(slots: &mut Vec<Option<Entry>>, doc: DocId)
    ensures { slots.new.items ≡ map (emptied doc) slots.old.items }
{
    for slot in slots.iter_mut() {
        clear_slot(slot, doc);
    }
}

/// Does one more update to the slots, or leaves them where memory runs out.
pub fn change(slots: &mut Vec<Option<Entry>>, entry: Entry) -> Result<(), NoMemory>
    ensures done { IfOk result (λ _. slots.new.items ≡ step slots.old.items entry) }
    ensures unchanged { OnErr result (slots.new.items ≡ slots.old.items) }
{
    match entry.change {
        Change::Post { .. } => put(slots, entry),
        Change::Remove => {
            clear(slots, entry.doc);
            Ok(())
        }
    }
}

fn copy_slot(alloc: Global, slot: &Option<Entry>) -> Result<Option<Entry>, NoMemory>
    ensures { IfOk result (λ copied. copied ≡ slot.now) }
{
    match slot {
        None => Ok(None),
        Some(entry) => {
            let entry = entry.copy(alloc)?;
            Ok(Some(entry))
        }
    }
}

/// Equal slots.
pub fn copy(alloc: Global, slots: &[Option<Entry>]) -> Result<Vec<Option<Entry>>, NoMemory>
    ensures { IfOk result (λ all. all.items ≡ slots.now) }
{
    let mut all = Vec::with_capacity(alloc, slots.len())?;
    for slot in slots {
        all.push(copy_slot(alloc, slot)?)?;
    }
    Ok(all)
}

/// The live slots in order.
pub fn places(alloc: Global, slots: &[Option<Entry>]) -> Result<Vec<Place>, NoMemory>
    requires { length slots.now ≤ 4096 }
    ensures { IfOk result (λ all. all.items ≡ manifest_of slots.now) }
{
    let mut all = Vec::new(alloc);
    for at in 0..slots.len() {
        if let Some(entry) = &slots[at] {
            all.push(Place {
                slot: at as u16,
                doc: entry.doc,
                id: entry.id,
            })?;
        }
    }
    Ok(all)
}

fn entry_tag(entry: &Entry, column: usize) -> Tag
    requires { ReachesColumn column entry.now.change }
    ensures { result ≡ slice_index (tags_of entry.now.change) column }
{
    match &entry.change {
        Change::Post { tags, .. } => tags.items()[column],
        Change::Remove => Tag::zero(),
    }
}

/// The tag of a slot in a column, which is zero where the slot is empty.
fn slot_tag(slot: &Option<Entry>, column: usize) -> Tag
    requires { HasColumn column slot.now }
    ensures { result ≡ column_tag_of (slot.now ∷ []) column }
{
    match slot {
        None => Tag::zero(),
        Some(entry) => entry_tag(entry, column),
    }
}

/// The XOR of a column's tags over the live slots.
pub fn column_tag(slots: &[Option<Entry>], column: usize) -> Tag
    requires { (slot : ℕ) → HasColumn column (slice_index_or slots.now slot None) }
    ensures { result ≡ column_tag_of slots.now column }
{
    let mut sum = Tag::zero();
    for slot in slots {
        sum = sum.xor(&slot_tag(slot, column));
    }
    sum
}

/// The words of a post's cells.
fn cells(change: &Change) -> &[u64]
    ensures { Shows result.now (row_of change.now) }
{
    match change {
        Change::Post { row, .. } => row.words(),
        Change::Remove => &[],
    }
}

/// The words of a live slot's cells.
pub fn row(slots: &[Option<Entry>], slot: usize) -> Option<&[u64]>
    ensures live { IfSome result (λ words. (e : Entry) × (slice_index_or slots.now slot None ≡ Some e) × Shows words.now (row_of e.change)) }
    ensures empty { IfNone result (slice_index_or slots.now slot None ≡ None) }
{
    if slot >= slots.len() {
        return None;
    }
    match &slots[slot] {
        None => None,
        Some(entry) => Some(cells(&entry.change)),
    }
}
