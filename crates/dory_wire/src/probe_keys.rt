//! The keys of a search. A fault names the first byte of the part of a key that it is found in.
ghost use Rattle.std.specs.Prelude.{◌≡◌, ◌≤◌};
ghost use Rattle.dory_fields.specs.Reading.{Reads, many_at};
ghost use Rattle.dory_dpf.specs.KeyBytes.{key_at};

use dory_dpf::Key;
use dory_fields::{FieldFault, Reader};
use std::alloc::Global;

/// So many keys, each of this form and depth.
pub fn read_keys(
    alloc: Global,
    reader: &mut Reader<'_>,
    count: u8,
    form: u8,
    depth: u8,
) -> Result<Vec<Key>, FieldFault>
    requires form { (1 ≤ form) × (form ≤ 2) }
    requires depth { (8 ≤ depth) × (depth ≤ 11) }
    ensures { Reads (λ x. x.items) result (many_at (key_at form depth) count) reader.old reader.new }
{
    let mut keys = Vec::with_capacity(alloc, count as usize)?;
    for _ in 0..count {
        let key = Key::read(reader, form, depth)?;
        keys.push(key)?;
    }
    Ok(keys)
}
