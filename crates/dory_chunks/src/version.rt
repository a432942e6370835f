//! A folder's documents at one version. The next version shares all chunks but the one that an update changes.
ghost use Rattle.std.specs.Prelude.{◌≡◌, ◌<◌, ◌≤◌, ◌+◌, ◌++◌, ◌∷◌, ℕ, [], List, IfOk, IfSome, IfNone, Some, None, nat_lt, if◌then◌else◌, length, position, slice_index_or};
ghost use Rattle.std.specs.Option.{option_map, option_copied};
ghost use Rattle.std.specs.Arc.{arc_value};
ghost use Rattle.dory_base.specs.declared.entry.Entry.{Entry};
ghost use Rattle.dory_base.specs.History.{IsChangeOf};
ghost use Rattle.dory_base.specs.Table.{step, manifest_of};
ghost use Rattle.dory_base.specs.TableMeaning.{IsKept, IsSlotOf, StandsFor, next_of};
ghost use Rattle.dory_chunks.specs.Marks.{mark_of, is_slot_of};
ghost use Rattle.dory_chunks.specs.Counts.{IsCount};
ghost use Rattle.dory_chunks.specs.Target.{IsTarget, target_of, left_by, written, IsAlone};
ghost use Rattle.dory_chunks.specs.Versions.{AreTags};

use crate::Steps;
use crate::chunk::{Chunk, entry_of};
use crate::columns::{same_tags, xor_slot};
use crate::marks::{Mark, slot_for};
use crate::parts::{chunk_at, chunks_with, shared_chunks};
use dory_base::{Change, DocId, Entry, Manifest, NoMemory, Place, Shape, SlotTable, Tag};
use std::alloc::Global;
use std::marker::{Brand, Model};
use std::sync::Arc;
use std::sync::ledger::{Blank, Ledger};

/// At most 4,096 slots, each empty or with a post of the version's shape.
#[derive(Drop)]
pub struct Version {
    shape: Shape,
    number: u32,
    count: usize,
    chunks: Vec<Arc<Chunk>>,
    tags: Vec<Tag>,
}

impl Model for Version {
    ghost use Rattle.std.specs.Prelude.{map};
    ghost use Rattle.std.specs.Arc.{arc_value};
    ghost use Rattle.dory_base.specs.TableMeaning.{Kept};
    ghost use Rattle.dory_chunks.specs.Parts.{slots_in};
    ghost use Rattle.dory_chunks.specs.Versions.{AreKept, AreParts, width_of};

    ghost Value = { Kept };

    ghost view = { λ v. record { shape = v.shape; number = v.number; slots = slots_in v.count (map arc_value v.chunks.items) } };

    ghost invariant = { λ v. AreKept v.shape (slots_in v.count (map arc_value v.chunks.items)) v.tags.items × AreParts (width_of v.shape) v.count (map arc_value v.chunks.items) };
}

/// What an update leaves in the slot that it changes: itself, or nothing.
fn left(entry: Arc<Entry>) -> Option<Arc<Entry>>
    ensures { option_map arc_value result ≡ left_by (arc_value entry) }
{
    match &entry.change {
        Change::Post { .. } => Some(entry),
        Change::Remove => None,
    }
}

/// How many slots there are once this one is among them.
fn count_with(count: usize, n: usize) -> usize
    requires { n < 4096 }
    ensures { result ≡ (if nat_lt n count then count else n + 1) }
{
    if n < count { count } else { n + 1 }
}

impl Version {
    /// What a slot has.
    fn slot(&self, n: usize) -> Option<&Entry>
        ensures { option_copied result ≡ slice_index_or self.now.slots n None }
    {
        if n >= self.count {
            return None;
        }
        chunk_at(&self.chunks, n / 64).get(n % 64)
    }

    /// The first slot of this document, or the first empty one where none is named.
    fn first_slot(&self, doc: Option<DocId>) -> Option<usize>
        ensures { result ≡ position (is_slot_of doc) self.now.slots }
    {
        for n in 0..(self.count + 63) / 64 {
            if let Some(place) = chunk_at(&self.chunks, n).first(doc) {
                let at = 64 * n + place;
                return if at < self.count { Some(at) } else { None };
            }
        }
        None
    }

    /// The mark of a slot.
    fn mark(&self, n: usize) -> Option<Mark>
        requires { n < length self.now.slots }
        ensures { result ≡ mark_of (slice_index_or self.now.slots n None) }
    {
        chunk_at(&self.chunks, n / 64).mark(n % 64)
    }

    /// The live slots in order.
    fn places(&self, alloc: Global) -> Result<Vec<Place>, NoMemory>
        ensures value { IfOk result (λ all. all.items ≡ manifest_of self.now.slots) }
        ensures kept { IsKept self.now }
    {
        let mut all = Vec::new(alloc);
        for at in 0..self.count {
            if let Some(mark) = self.mark(at) {
                all.push(Place {
                    slot: at as u16,
                    doc: mark.doc,
                    id: mark.id,
                })?;
            }
        }
        Ok(all)
    }

    /// The slot that an update changes.
    fn target(&self, entry: &Entry) -> Option<usize>
        ensures value { result ≡ target_of self.now.slots entry.now }
        ensures some { IfSome result (λ n. IsTarget self.now.slots entry.now n) }
        ensures none { IfNone result (step self.now.slots entry.now ≡ self.now.slots) }
    {
        let own = self.first_slot(Some(entry.doc));
        match entry.change {
            Change::Post { .. } => slot_for(own, self.first_slot(None), self.count),
            Change::Remove => own,
        }
    }

    /// The columns' tags with something else in a slot.
    fn tags_with(&self, alloc: Global, n: usize, slot: Option<&Entry>) -> Result<Vec<Tag>, NoMemory>
        requires place { n ≤ length self.now.slots }
        requires posts { IsSlotOf self.now.shape (option_copied slot) }
        ensures { IfOk result (λ tags. AreTags self.now.shape (written self.now.slots n (option_copied slot.entry)) tags.items) }
    {
        let mut tags = same_tags(alloc, &self.tags)?;
        xor_slot(&mut tags, self.slot(n));
        xor_slot(&mut tags, slot);
        Ok(tags)
    }

    /// The next version, with something else in a slot. One chunk is made or copied.
    fn with_slot<L: Ledger>(
        &self,
        alloc: Global,
        n: usize,
        slot: Option<Arc<Entry>>,
        steps: &mut Steps<L>,
    ) -> Result<Version, NoMemory>
        requires room { self.now.number < 1048576 }
        requires place { n ≤ length self.now.slots }
        requires few { n < 4096 }
        requires posts { IsSlotOf self.now.shape (option_map arc_value slot) }
        requires alone { IsAlone self.now.slots n (option_map arc_value slot) }
        ensures value { IfOk result (λ v. v ≡ record { shape = self.now.shape; number = self.now.number + 1; slots = written self.now.slots n (option_map arc_value slot) }) }
        ensures cost { IsCount result steps.old steps.new (Some n) }
    {
        let tags = self.tags_with(alloc, n, entry_of(&slot))?;
        let width = (self.shape.columns() + 63) / 64;
        let chunks = chunks_with(alloc, &self.chunks, width, n, slot, steps)?;
        Ok(Version {
            shape: self.shape,
            number: self.number + 1,
            count: count_with(self.count, n),
            chunks,
            tags,
        })
    }

    /// The next version, with the same slots.
    fn with_same_slots(&self, alloc: Global) -> Result<Version, NoMemory>
        requires room { self.now.number < 1048576 }
        ensures { IfOk result (λ v. v ≡ record { shape = self.now.shape; number = self.now.number + 1; slots = self.now.slots }) }
    {
        let chunks = shared_chunks(alloc, &self.chunks)?;
        let tags = same_tags(alloc, &self.tags)?;
        Ok(Version {
            shape: self.shape,
            number: self.number + 1,
            count: self.count,
            chunks,
            tags,
        })
    }

    /// The version after one more update, which it shares where a slot then has it. A chunk that is made or copied counts.
    pub fn next_shared<L: Ledger>(
        &self,
        alloc: Global,
        entry: Arc<Entry>,
        steps: &mut Steps<L>,
    ) -> Result<Version, NoMemory>
        requires room { self.now.number < 1048576 }
        requires change { IsChangeOf self.now.shape (arc_value entry).change }
        ensures value { IfOk result (λ v. v ≡ next_of self.now (arc_value entry)) }
        ensures stands { IfOk result (λ v. (entries : List Entry) → StandsFor self.now entries → StandsFor v (entries ++ arc_value entry ∷ [])) }
        ensures cost { IsCount result steps.old steps.new (target_of self.now.slots (arc_value entry)) }
    {
        match self.target(&entry) {
            None => self.with_same_slots(alloc),
            Some(n) => self.with_slot(alloc, n, left(entry), steps),
        }
    }

    /// The same after an update that isn't shared yet, which is copied.
    pub fn next_counted<L: Ledger>(
        &self,
        alloc: Global,
        entry: &Entry,
        steps: &mut Steps<L>,
    ) -> Result<Version, NoMemory>
        requires room { self.now.number < 1048576 }
        requires change { IsChangeOf self.now.shape entry.now.change }
        ensures value { IfOk result (λ v. v ≡ next_of self.now entry.now) }
        ensures stands { IfOk result (λ v. (entries : List Entry) → StandsFor self.now entries → StandsFor v (entries ++ entry.now ∷ [])) }
        ensures cost { IsCount result steps.old steps.new (target_of self.now.slots entry.now) }
    {
        let shared = Arc::new(alloc, entry.copy(alloc)?)?;
        self.next_shared(alloc, shared, steps)
    }
}

/// The next version, with steps that are made here and dropped. It stands apart from `next_uncounted`, and takes its ledger
/// as a parameter: a function that names one ledger itself has no ghosts for the blank.
fn next_blank<L: Ledger>(
    version: &Version,
    alloc: Global,
    entry: Arc<Entry>,
    blank: Blank,
) -> Result<Version, NoMemory>
    requires name { blank.name ≡ L.name }
    requires parts { blank.parts ≡ L.parts }
    requires some { 0 < blank.parts }
    requires room { version.now.number < 1048576 }
    requires change { IsChangeOf version.now.shape (arc_value entry).change }
    ensures value { IfOk result (λ v. v ≡ next_of version.now (arc_value entry)) }
    ensures stands { IfOk result (λ v. (entries : List Entry) → StandsFor version.now entries → StandsFor v (entries ++ arc_value entry ∷ [])) }
{
    let mut steps = Steps::<L>::new(blank);
    version.next_shared(alloc, entry, &mut steps)
}

impl Version {
    /// The version after one more update, which it shares where a slot then has it. Nothing is counted.
    pub fn next_uncounted(&self, alloc: Global, entry: Arc<Entry>) -> Result<Version, NoMemory>
        requires room { self.now.number < 1048576 }
        requires change { IsChangeOf self.now.shape (arc_value entry).change }
        ensures value { IfOk result (λ v. v ≡ next_of self.now (arc_value entry)) }
        ensures stands { IfOk result (λ v. (entries : List Entry) → StandsFor self.now entries → StandsFor v (entries ++ arc_value entry ∷ [])) }
    {
        next_blank::<Brand>(self, alloc, entry, Blank::new(1))
    }
}

impl SlotTable for Version {
    ghost meaning = { λ v. v };

    fn empty(alloc: Global, shape: Shape) -> Result<Version, NoMemory> {
        let tags = vec![in alloc; Tag::zero(); shape.columns()]?;
        Ok(Version {
            shape,
            number: 0,
            count: 0,
            chunks: Vec::new(alloc),
            tags,
        })
    }

    fn next_version(&self, alloc: Global, entry: &Entry) -> Result<Version, NoMemory> {
        let shared = Arc::new(alloc, entry.copy(alloc)?)?;
        self.next_uncounted(alloc, shared)
    }

    fn number(&self) -> u32 {
        self.number
    }

    fn manifest(&self, alloc: Global) -> Result<Manifest, NoMemory> {
        let places = self.places(alloc)?;
        Ok(Manifest::of(places))
    }

    fn column_tag(&self, column: usize) -> Tag {
        self.tags[column]
    }

    fn row(&self, slot: usize) -> Option<&[u64]> {
        if slot >= self.count {
            return None;
        }
        chunk_at(&self.chunks, slot / 64).row(slot % 64)
    }
}
