//! Readers of an update that is to be staged.
ghost use Rattle.std.specs.Prelude.{◌≡◌, ◌≤◌};
ghost use Rattle.dory_fields.specs.Reading.{Reads, many_at};
ghost use Rattle.dory_wire.specs.Reading.{change_at, entry_at, post_at, tag_at};

use crate::field::{read_depth, read_id, read_probes, tag_of};
use dory_base::{Change, DocId, Entry, Shape, Tag, Tags};
use dory_fields::{FieldFault, Reader};
use std::alloc::Global;

fn read_tags(alloc: Global, reader: &mut Reader<'_>, count: usize) -> Result<Tags, FieldFault>
    ensures { Reads (λ x. x) result (many_at tag_at count) reader.old reader.new }
{
    let mut tags = vec![in alloc; Tag::zero(); count]?;
    // A post has thousands of tags: the place of a reader of the loop's own stays in registers.
    let mut own = reader.again();
    for i in 0..count {
        let field = own.slice(16)?;
        tags[i] = tag_of(field);
    }
    *reader = own;
    Ok(Tags::of(tags))
}

#[tactic(auto, unfolding(crate::specs::Reading::post_at))]
fn read_post(alloc: Global, reader: &mut Reader<'_>) -> Result<Change, FieldFault>
    ensures { Reads (λ x. x) result post_at reader.old reader.new }
{
    let depth = read_depth(reader)?;
    let probes = read_probes(reader)?;
    let shape = Shape::of(depth, probes);
    let row = reader.bits(alloc, shape.columns())?;
    let tags = read_tags(alloc, reader, shape.columns())?;
    Ok(Change::Post { shape, row, tags })
}

#[tactic(auto, unfolding(crate::specs::Reading::change_at))]
fn read_change(alloc: Global, reader: &mut Reader<'_>, does: u8) -> Result<Change, FieldFault>
    ensures { Reads (λ x. x) result (change_at does) reader.old reader.new }
{
    if does == 1 {
        read_post(alloc, reader)
    } else {
        Ok(Change::Remove)
    }
}

#[tactic(auto, unfolding(crate::specs::Reading::entry_at))]
pub fn read_entry(alloc: Global, reader: &mut Reader<'_>) -> Result<Entry, FieldFault>
    ensures { Reads (λ x. x) result entry_at reader.old reader.new }
{
    let id = read_id(reader)?;
    let doc = DocId(reader.u32()?);
    let does = reader.u8_in(1, 2)?;
    let change = read_change(alloc, reader, does)?;
    Ok(Entry { id, doc, change })
}
