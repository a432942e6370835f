//! Readers of the single fields of messages.
ghost use Rattle.std.specs.Prelude.{◌≡◌, ◌≤◌, IfOk, length};
ghost use Rattle.std.specs.Int.{w32};
ghost use Rattle.dory_base.specs.TagBytes.{tag_number};
ghost use Rattle.dory_fields.specs.Reading.{Reads, byte_at, tested_at};
ghost use Rattle.dory_wire.specs.Reading.{ask_at, id_at, is_count, is_depth, is_number, is_probes, tag_at};

use dory_base::{AskId, MemberId, Tag, UpdateId};
use dory_fields::{FieldFault, Reader, u32_of, u64_of};

/// A version or a length of a history.
pub fn read_count(reader: &mut Reader<'_>) -> Result<u32, FieldFault>
    ensures { Reads (λ x. x) result (tested_at w32 is_count) reader.old reader.new }
{
    reader.u32_in(0, 1_048_576)
}

/// The number of an entry.
pub fn read_number(reader: &mut Reader<'_>) -> Result<u32, FieldFault>
    ensures { Reads (λ x. x) result (tested_at w32 is_number) reader.old reader.new }
{
    reader.u32_in(1, 1_048_576)
}

pub fn read_depth(reader: &mut Reader<'_>) -> Result<u8, FieldFault>
    ensures value { Reads (λ x. x) result (byte_at is_depth) reader.old reader.new }
    ensures range { IfOk result (λ x. (8 ≤ x) × (x ≤ 11)) }
{
    reader.u8_in(8, 11)
}

pub fn read_probes(reader: &mut Reader<'_>) -> Result<u8, FieldFault>
    ensures value { Reads (λ x. x) result (byte_at is_probes) reader.old reader.new }
    ensures range { IfOk result (λ x. (1 ≤ x) × (x ≤ 8)) }
{
    reader.u8_in(1, 8)
}

#[tactic(auto, unfolding(crate::specs::Reading::ask_at))]
pub fn read_ask(reader: &mut Reader<'_>) -> Result<AskId, FieldFault>
    ensures { Reads (λ x. x) result ask_at reader.old reader.new }
{
    let field = reader.slice(16)?;
    let (member, field) = field.split_at(4);
    let (serial, step) = field.split_at(8);
    Ok(AskId {
        member: MemberId(u32_of(member)),
        serial: u64_of(serial),
        step: u32_of(step),
    })
}

#[tactic(auto, unfolding(crate::specs::Reading::id_at))]
pub fn read_id(reader: &mut Reader<'_>) -> Result<UpdateId, FieldFault>
    ensures { Reads (λ x. x) result id_at reader.old reader.new }
{
    let at = reader.place();
    let field = reader.slice(12)?;
    let (member, serial) = field.split_at(4);
    let serial = u64_of(serial);
    if serial < 1 {
        return Err(FieldFault::OutOfRange { at });
    }
    let member = MemberId(u32_of(member));
    Ok(UpdateId { member, serial })
}

/// The tag that sixteen bytes are.
pub fn tag_of(bytes: &[u8]) -> Tag
    requires { length bytes.now ≡ 16 }
    ensures { result ≡ tag_number bytes.now }
{
    let mut sixteen = [0u8; 16];
    sixteen.copy_from_slice(bytes);
    Tag::of(sixteen)
}

#[tactic(auto, unfolding(crate::specs::Reading::tag_at))]
pub fn read_tag(reader: &mut Reader<'_>) -> Result<Tag, FieldFault>
    ensures { Reads (λ x. x) result tag_at reader.old reader.new }
{
    let field = reader.slice(16)?;
    Ok(tag_of(field))
}
