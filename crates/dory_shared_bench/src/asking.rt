//! What the folder is asked, and what it finds.
ghost use Rattle.std.specs.Prelude.{◌≡◌, IfOk};
ghost use Rattle.dory_dpf.specs.PointKey.{IsKeyOf};
ghost use Rattle.dory_wire.specs.Spelling.{AreKeys, IsRequest, IsWant};
ghost use Rattle.dory_shared.specs.Reading.{IsReading};

use crate::fault::Fault;
use crate::folder::FOLDER;
use dory_base::{AskId, Found, MemberId, Shape};
use dory_dpf::{Key, Keys, gen_short};
use dory_wire::{Request, Want};
use std::alloc::Global;

/// A request of member 0 for the folder.
pub fn request(want: Want) -> Request
    requires { IsWant want }
    ensures range { IsRequest result }
    ensures want { result.want ≡ want }
{
    Request {
        ask: AskId {
            member: MemberId(0),
            serial: 1,
            step: 0,
        },
        folder: FOLDER,
        want,
    }
}

/// The lead's key for a column.
fn key(shape: Shape, column: u16) -> Result<Key, Fault>
    ensures { IfOk result (IsKeyOf 2 shape.depth) }
{
    if column as usize >= shape.columns() {
        return Err(Fault::Unexpected);
    }
    let (lead, _follow) = gen_short(shape, column, [3; 16], [5; 16]);
    let _depth = lead.depth();
    Ok(lead)
}

/// The lead's keys for eight columns.
pub fn keys(alloc: Global, shape: Shape) -> Result<Keys, Fault>
    ensures { IfOk result (AreKeys shape) }
{
    if shape.probes() != 8 {
        return Err(Fault::Unexpected);
    }
    let mut keys = Vec::new(alloc);
    keys.push(key(shape, 1)?)?;
    keys.push(key(shape, 2)?)?;
    keys.push(key(shape, 3)?)?;
    keys.push(key(shape, 5)?)?;
    keys.push(key(shape, 8)?)?;
    keys.push(key(shape, 13)?)?;
    keys.push(key(shape, 21)?)?;
    keys.push(key(shape, 34)?)?;
    Ok(Keys::of(keys))
}

/// A search of a version.
pub fn search(alloc: Global, shape: Shape, version: u32) -> Result<Request, Fault>
    ensures range { IfOk result IsRequest }
    ensures reading { IfOk result (λ r. IsReading r.want) }
{
    if version > 1_048_576 {
        return Err(Fault::Unexpected);
    }
    let _columns = shape.columns();
    let keys = keys(alloc, shape)?;
    Ok(request(Want::Search {
        version,
        shape,
        keys,
    }))
}

/// Whether the two found the same.
pub fn is_same(one: &Found, other: &Found) -> bool {
    let (lines, others) = (one.manifest.items(), other.manifest.items());
    if one.version != other.version || lines.len() != others.len() {
        return false;
    }
    for (line, other) in lines.iter().zip(others) {
        if line != other {
            return false;
        }
    }
    let (sums, others) = (one.sums.items(), other.sums.items());
    if sums.len() != others.len() {
        return false;
    }
    for (sum, other) in sums.iter().zip(others) {
        if !sum.bits.same(&other.bits) || sum.tag != other.tag {
            return false;
        }
    }
    true
}
