//! Readers of what a reply answers.
ghost use Rattle.std.specs.Prelude.{◌≡◌, ◌≤◌, ◌<◌, IfOk, map};
ghost use Rattle.std.specs.List.Sorted.{IsStrictlyIncreasing};
ghost use Rattle.dory_fields.specs.Reading.{Reads, many_at};
ghost use Rattle.dory_wire.specs.declared.message.What.TheVariants.{At, Id, Staged, Committed};
ghost use Rattle.dory_wire.specs.Reading.{Gives, counted_at, ended, found_at, holding_at, line_at, lines_at, named_at, numbered_at, refused_at, reply_at, reply_of, sum_at, what_at};

use crate::fault::{WireFault, nothing_after};
use crate::field::{read_ask, read_count, read_id, read_number, read_tag};
use crate::message::{Reply, What};
use crate::refused::read_refusal;
use dory_base::{DocId, Found, Manifest, Place, Sum, Sums};
use dory_fields::{FieldFault, Reader};
use std::alloc::Global;

/// A line whose slot is this one or a later one.
#[tactic(auto, unfolding(crate::specs::Reading::line_at))]
fn read_line(reader: &mut Reader<'_>, least: u16) -> Result<Place, FieldFault>
    ensures value { Reads (λ x. x) result (line_at least) reader.old reader.new }
    ensures range { IfOk result (λ x. x.slot < 4096) }
{
    let slot = reader.u16_in(least, 4095)?;
    let doc = DocId(reader.u32()?);
    let id = read_id(reader)?;
    Ok(Place { slot, doc, id })
}

fn read_lines(alloc: Global, reader: &mut Reader<'_>, count: u16) -> Result<Vec<Place>, FieldFault>
    ensures rising { IfOk result (λ x. IsStrictlyIncreasing (map (λ p. p.slot) x.items)) }
    ensures value { Reads (λ x. x.items) result (lines_at count 0) reader.old reader.new }
{
    let mut places = Vec::with_capacity(alloc, count as usize)?;
    let mut least = 0u16;
    for _ in 0..count {
        let place = read_line(reader, least)?;
        places.push(place)?;
        least = place.slot + 1;
    }
    Ok(places)
}

#[tactic(auto, unfolding(crate::specs::Reading::sum_at))]
fn read_sum(alloc: Global, reader: &mut Reader<'_>, lines: u16) -> Result<Sum, FieldFault>
    requires { lines ≤ 4096 }
    ensures { Reads (λ x. x) result (sum_at lines) reader.old reader.new }
{
    let bits = reader.bits(alloc, lines as usize)?;
    let tag = read_tag(reader)?;
    Ok(Sum { bits, tag })
}

fn read_sums(
    alloc: Global,
    reader: &mut Reader<'_>,
    count: u8,
    lines: u16,
) -> Result<Vec<Sum>, FieldFault>
    requires { lines ≤ 4096 }
    ensures { Reads (λ x. x.items) result (many_at (sum_at lines) count) reader.old reader.new }
{
    let mut sums = Vec::with_capacity(alloc, count as usize)?;
    for _ in 0..count {
        let sum = read_sum(alloc, reader, lines)?;
        sums.push(sum)?;
    }
    Ok(sums)
}

#[tactic(auto, unfolding(crate::specs::Reading::found_at))]
fn read_found(alloc: Global, reader: &mut Reader<'_>) -> Result<Found, FieldFault>
    ensures { Reads (λ x. x) result found_at reader.old reader.new }
{
    let version = read_count(reader)?;
    let count = reader.u16_in(0, 4096)?;
    let places = read_lines(alloc, reader, count)?;
    let probes = reader.u8_in(0, 8)?;
    let sums = read_sums(alloc, reader, probes, count)?;
    Ok(Found {
        version,
        manifest: Manifest::of(places),
        sums: Sums::of(sums),
    })
}

#[tactic(auto, unfolding(crate::specs::Reading::holding_at))]
fn read_holding(alloc: Global, reader: &mut Reader<'_>) -> Result<What, FieldFault>
    ensures { Reads (λ x. x) result holding_at reader.old reader.new }
{
    let found = read_found(alloc, reader)?;
    Ok(What::Found { found })
}

#[tactic(auto, unfolding(crate::specs::Reading::counted_at))]
fn read_length(reader: &mut Reader<'_>) -> Result<What, FieldFault>
    ensures { Reads (λ x. x) result (counted_at At) reader.old reader.new }
{
    let length = read_count(reader)?;
    Ok(What::At { length })
}

#[tactic(auto, unfolding(crate::specs::Reading::numbered_at))]
fn read_named_entry(reader: &mut Reader<'_>) -> Result<What, FieldFault>
    ensures { Reads (λ x. x) result (numbered_at Id) reader.old reader.new }
{
    let number = read_number(reader)?;
    let id = read_id(reader)?;
    Ok(What::Id { number, id })
}

#[tactic(auto, unfolding(crate::specs::Reading::named_at))]
fn read_staged(reader: &mut Reader<'_>) -> Result<What, FieldFault>
    ensures { Reads (λ x. x) result (named_at Staged) reader.old reader.new }
{
    let id = read_id(reader)?;
    Ok(What::Staged { id })
}

#[tactic(auto, unfolding(crate::specs::Reading::numbered_at))]
fn read_committed(reader: &mut Reader<'_>) -> Result<What, FieldFault>
    ensures { Reads (λ x. x) result (numbered_at Committed) reader.old reader.new }
{
    let number = read_number(reader)?;
    let id = read_id(reader)?;
    Ok(What::Committed { number, id })
}

#[tactic(auto, unfolding(crate::specs::Reading::refused_at))]
fn read_refused(reader: &mut Reader<'_>) -> Result<What, FieldFault>
    ensures { Reads (λ x. x) result refused_at reader.old reader.new }
{
    let code = read_refusal(reader)?;
    Ok(What::Refused { code })
}

#[tactic(auto, unfolding(crate::specs::Reading::what_at))]
fn read_what(alloc: Global, reader: &mut Reader<'_>, kind: u8) -> Result<What, FieldFault>
    ensures { Reads (λ x. x) result (what_at kind) reader.old reader.new }
{
    match kind {
        0x81 => read_length(reader),
        0x82 => read_holding(alloc, reader),
        0x83 => read_named_entry(reader),
        0x84 => read_staged(reader),
        0x85 => read_committed(reader),
        _ => read_refused(reader),
    }
}

#[tactic(auto, unfolding(crate::specs::Reading::reply_at))]
fn read_reply(alloc: Global, reader: &mut Reader<'_>, kind: u8) -> Result<Reply, FieldFault>
    ensures { Reads (λ x. x) result (reply_at kind) reader.old reader.new }
{
    let ask = read_ask(reader)?;
    let what = read_what(alloc, reader, kind)?;
    Ok(Reply { ask, what })
}

/// The reply of this kind that these bytes are.
fn reply_in(alloc: Global, kind: u8, mut reader: Reader<'_>) -> Result<Reply, WireFault>
    ensures { Gives result (ended reader.entry.total (reply_at kind reader.entry.total reader.entry.rest)) }
{
    let reply = read_reply(alloc, &mut reader, kind)?;
    nothing_after(&reader)?;
    Ok(reply)
}

/// The reply that a message is.
#[tactic(auto, unfolding(crate::specs::Reading::reply_of))]
pub fn whole_reply(alloc: Global, message: &[u8]) -> Result<Reply, WireFault>
    ensures { Gives result (reply_of message.now) }
{
    match message {
        [] => Err(WireFault::Body { at: 0 }),
        [kind, rest @ ..] => {
            if *kind >= 0x81 && *kind <= 0x86 {
                reply_in(alloc, *kind, Reader::within(message.len(), rest))
            } else {
                Err(WireFault::Kind { b: *kind })
            }
        }
    }
}
