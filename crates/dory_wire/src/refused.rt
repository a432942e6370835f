//! Readers of refusals.
ghost use Rattle.std.specs.Prelude.{◌≡◌};
ghost use Rattle.dory_base.specs.declared.refusal.Refusal.TheVariants.{Clash, Gap, NoEntry, Taken, Unfinished, Unstaged};
ghost use Rattle.dory_fields.specs.Reading.{Reads};
ghost use Rattle.dory_wire.specs.Reading.{code_at, counted_at, later_code_at, member_at, named_at, numbered_at, past_at, refusal_at, retained_at, role_at, role_of, shape_at};

use crate::field::{read_count, read_depth, read_id, read_number, read_probes};
use dory_base::{MemberId, Refusal, Side};
use dory_fields::{FieldFault, Reader};

#[tactic(auto, unfolding(crate::specs::Reading::shape_at))]
fn read_shape_wrong(reader: &mut Reader<'_>) -> Result<Refusal, FieldFault>
    ensures { Reads (λ x. x) result shape_at reader.old reader.new }
{
    let depth = read_depth(reader)?;
    let probes = read_probes(reader)?;
    Ok(Refusal::ShapeWrong { depth, probes })
}

#[tactic(auto, unfolding(crate::specs::Reading::retained_at))]
fn read_unretained(reader: &mut Reader<'_>) -> Result<Refusal, FieldFault>
    ensures { Reads (λ x. x) result retained_at reader.old reader.new }
{
    let oldest = read_count(reader)?;
    let newest = read_count(reader)?;
    Ok(Refusal::Unretained { oldest, newest })
}

#[tactic(auto, unfolding(crate::specs::Reading::member_at))]
fn read_bad_member(reader: &mut Reader<'_>) -> Result<Refusal, FieldFault>
    ensures { Reads (λ x. x) result member_at reader.old reader.new }
{
    let member = MemberId(reader.u32()?);
    Ok(Refusal::BadMember { member })
}

#[tactic(auto, unfolding(crate::specs::Reading::past_at))]
fn read_past(reader: &mut Reader<'_>) -> Result<Refusal, FieldFault>
    ensures { Reads (λ x. x) result past_at reader.old reader.new }
{
    let last = reader.u64()?;
    Ok(Refusal::Past { last })
}

#[tactic(auto, unfolding(crate::specs::Reading::named_at))]
fn read_clash(reader: &mut Reader<'_>) -> Result<Refusal, FieldFault>
    ensures { Reads (λ x. x) result (named_at Clash) reader.old reader.new }
{
    let id = read_id(reader)?;
    Ok(Refusal::Clash { id })
}

#[tactic(auto, unfolding(crate::specs::Reading::named_at))]
fn read_unfinished(reader: &mut Reader<'_>) -> Result<Refusal, FieldFault>
    ensures { Reads (λ x. x) result (named_at Unfinished) reader.old reader.new }
{
    let id = read_id(reader)?;
    Ok(Refusal::Unfinished { id })
}

#[tactic(auto, unfolding(crate::specs::Reading::named_at))]
fn read_unstaged(reader: &mut Reader<'_>) -> Result<Refusal, FieldFault>
    ensures { Reads (λ x. x) result (named_at Unstaged) reader.old reader.new }
{
    let id = read_id(reader)?;
    Ok(Refusal::Unstaged { id })
}

#[tactic(auto, unfolding(crate::specs::Reading::numbered_at))]
fn read_taken(reader: &mut Reader<'_>) -> Result<Refusal, FieldFault>
    ensures { Reads (λ x. x) result (numbered_at Taken) reader.old reader.new }
{
    let number = read_number(reader)?;
    let id = read_id(reader)?;
    Ok(Refusal::Taken { number, id })
}

#[tactic(auto, unfolding(crate::specs::Reading::counted_at))]
fn read_gap(reader: &mut Reader<'_>) -> Result<Refusal, FieldFault>
    ensures { Reads (λ x. x) result (counted_at Gap) reader.old reader.new }
{
    let length = read_count(reader)?;
    Ok(Refusal::Gap { length })
}

#[tactic(auto, unfolding(crate::specs::Reading::counted_at))]
fn read_no_entry(reader: &mut Reader<'_>) -> Result<Refusal, FieldFault>
    ensures { Reads (λ x. x) result (counted_at NoEntry) reader.old reader.new }
{
    let length = read_count(reader)?;
    Ok(Refusal::NoEntry { length })
}

fn side_of(role: u8) -> Side
    ensures { result ≡ role_of role }
{
    if role == 0 { Side::Lead } else { Side::Follow }
}

/// A role: 0 leads, 1 follows.
#[tactic(auto, unfolding(crate::specs::Reading::role_at))]
fn read_wrong_role(reader: &mut Reader<'_>) -> Result<Refusal, FieldFault>
    ensures { Reads (λ x. x) result role_at reader.old reader.new }
{
    let role = side_of(reader.u8_in(0, 1)?);
    Ok(Refusal::WrongRole { role })
}

#[tactic(auto, unfolding(crate::specs::Reading::later_code_at))]
fn read_later_code(reader: &mut Reader<'_>, code: u8) -> Result<Refusal, FieldFault>
    ensures { Reads (λ x. x) result (later_code_at code) reader.old reader.new }
{
    match code {
        8 => read_unstaged(reader),
        9 => read_taken(reader),
        10 => read_gap(reader),
        11 => read_wrong_role(reader),
        12 => Ok(Refusal::HistoryFull),
        13 => read_no_entry(reader),
        _ => Ok(Refusal::NoMemory),
    }
}

#[tactic(auto, unfolding(crate::specs::Reading::code_at))]
fn read_code(reader: &mut Reader<'_>, code: u8) -> Result<Refusal, FieldFault>
    ensures { Reads (λ x. x) result (code_at code) reader.old reader.new }
{
    match code {
        1 => Ok(Refusal::NoFolder),
        2 => read_shape_wrong(reader),
        3 => read_unretained(reader),
        4 => read_bad_member(reader),
        5 => read_past(reader),
        6 => read_clash(reader),
        7 => read_unfinished(reader),
        _ => read_later_code(reader, code),
    }
}

#[tactic(auto, unfolding(crate::specs::Reading::refusal_at))]
pub fn read_refusal(reader: &mut Reader<'_>) -> Result<Refusal, FieldFault>
    ensures { Reads (λ x. x) result refusal_at reader.old reader.new }
{
    let code = reader.u8_in(1, 14)?;
    read_code(reader, code)
}
