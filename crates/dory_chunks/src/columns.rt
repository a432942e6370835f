//! The XOR of each column's tags: what leaves a slot is taken out, and what comes in is put in.
ghost use Rattle.std.specs.Prelude.{◌≡◌, ◌<◌, ℕ, length, slice_index, bit_xor, IfOk};
ghost use Rattle.std.specs.Option.{option_copied};
ghost use Rattle.dory_chunks.specs.Marks.{tag_at, HasTags};

use dory_base::{Change, Entry, NoMemory, Tag};
use std::alloc::Global;

/// Equal tags.
pub fn same_tags(alloc: Global, tags: &[Tag]) -> Result<Vec<Tag>, NoMemory>
    ensures { IfOk result (λ v. v.items ≡ tags.now) }
{
    let all = tags.to_vec(alloc)?;
    Ok(all)
}

fn xor_into(sums: &mut Vec<Tag>, tags: &[Tag])
    requires { length sums.old.items ≡ length tags.now }
    ensures len { length sums.new.items ≡ length sums.old.items }
    ensures each { (column : ℕ) → column < length sums.old.items → slice_index sums.new.items column ≡ bit_xor (slice_index sums.old.items column) (slice_index tags.now column) }
{
    for column in 0..tags.len() {
        sums[column] = sums[column].xor(&tags[column]);
    }
}

/// XORs the tags of a slot into the sums of their columns.
pub fn xor_slot(sums: &mut Vec<Tag>, slot: Option<&Entry>)
    requires { HasTags (length sums.old.items) (option_copied slot) }
    ensures len { length sums.new.items ≡ length sums.old.items }
    ensures each { (column : ℕ) → column < length sums.old.items → slice_index sums.new.items column ≡ bit_xor (slice_index sums.old.items column) (tag_at (option_copied slot.entry) column) }
{
    if let Some(entry) = slot {
        match &entry.change {
            Change::Post { tags, .. } => xor_into(sums, tags.items()),
            Change::Remove => {}
        }
    }
}
