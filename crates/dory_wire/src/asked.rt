//! Readers of what a request asks.
ghost use Rattle.std.specs.Prelude.{◌≡◌};
ghost use Rattle.dory_fields.specs.Reading.{Reads};
ghost use Rattle.dory_wire.specs.declared.message.Want.TheVariants.{Follow, Order};
ghost use Rattle.dory_wire.specs.Reading.{Gives, ended, named_at, numbered_at, request_at, request_of, search_at, stage_at, want_at, which_at};

use crate::fault::{WireFault, nothing_after};
use crate::field::{read_ask, read_count, read_depth, read_id, read_number, read_probes};
use crate::message::{Request, Want};
use crate::probe_keys::read_keys;
use crate::staged::read_entry;
use dory_base::{FolderId, Shape};
use dory_dpf::Keys;
use dory_fields::{FieldFault, Reader};
use std::alloc::Global;

#[tactic(auto, unfolding(crate::specs::Reading::search_at))]
fn read_search(alloc: Global, reader: &mut Reader<'_>) -> Result<Want, FieldFault>
    ensures { Reads (λ x. x) result search_at reader.old reader.new }
{
    let version = read_count(reader)?;
    let depth = read_depth(reader)?;
    let probes = read_probes(reader)?;
    let form = reader.u8_in(1, 2)?;
    let keys = read_keys(alloc, reader, probes, form, depth)?;
    Ok(Want::Search {
        version,
        shape: Shape::of(depth, probes),
        keys: Keys::of(keys),
    })
}

#[tactic(auto, unfolding(crate::specs::Reading::which_at))]
fn read_which(reader: &mut Reader<'_>) -> Result<Want, FieldFault>
    ensures { Reads (λ x. x) result which_at reader.old reader.new }
{
    let number = read_number(reader)?;
    Ok(Want::Which { number })
}

#[tactic(auto, unfolding(crate::specs::Reading::stage_at))]
fn read_stage(alloc: Global, reader: &mut Reader<'_>) -> Result<Want, FieldFault>
    ensures { Reads (λ x. x) result stage_at reader.old reader.new }
{
    let entry = read_entry(alloc, reader)?;
    Ok(Want::Stage { entry })
}

#[tactic(auto, unfolding(crate::specs::Reading::named_at))]
fn read_order(reader: &mut Reader<'_>) -> Result<Want, FieldFault>
    ensures { Reads (λ x. x) result (named_at Order) reader.old reader.new }
{
    let id = read_id(reader)?;
    Ok(Want::Order { id })
}

#[tactic(auto, unfolding(crate::specs::Reading::numbered_at))]
fn read_follow(reader: &mut Reader<'_>) -> Result<Want, FieldFault>
    ensures { Reads (λ x. x) result (numbered_at Follow) reader.old reader.new }
{
    let number = read_number(reader)?;
    let id = read_id(reader)?;
    Ok(Want::Follow { number, id })
}

#[tactic(auto, unfolding(crate::specs::Reading::want_at))]
fn read_want(alloc: Global, reader: &mut Reader<'_>, kind: u8) -> Result<Want, FieldFault>
    ensures { Reads (λ x. x) result (want_at kind) reader.old reader.new }
{
    match kind {
        1 => Ok(Want::Latest),
        2 => read_search(alloc, reader),
        3 => read_which(reader),
        4 => read_stage(alloc, reader),
        5 => read_order(reader),
        _ => read_follow(reader),
    }
}

#[tactic(auto, unfolding(crate::specs::Reading::request_at))]
fn read_request(alloc: Global, reader: &mut Reader<'_>, kind: u8) -> Result<Request, FieldFault>
    ensures { Reads (λ x. x) result (request_at kind) reader.old reader.new }
{
    let ask = read_ask(reader)?;
    let folder = FolderId(reader.u32()?);
    let want = read_want(alloc, reader, kind)?;
    Ok(Request { ask, folder, want })
}

/// The request of this kind that these bytes are.
fn request_in(alloc: Global, kind: u8, mut reader: Reader<'_>) -> Result<Request, WireFault>
    ensures { Gives result (ended reader.entry.total (request_at kind reader.entry.total reader.entry.rest)) }
{
    let request = read_request(alloc, &mut reader, kind)?;
    nothing_after(&reader)?;
    Ok(request)
}

/// The request that a message is.
#[tactic(auto, unfolding(crate::specs::Reading::request_of))]
pub fn whole_request(alloc: Global, message: &[u8]) -> Result<Request, WireFault>
    ensures { Gives result (request_of message.now) }
{
    match message {
        [] => Err(WireFault::Body { at: 0 }),
        [kind, rest @ ..] => {
            if *kind >= 1 && *kind <= 6 {
                request_in(alloc, *kind, Reader::within(message.len(), rest))
            } else {
                Err(WireFault::Kind { b: *kind })
            }
        }
    }
}
