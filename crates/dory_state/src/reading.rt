//! The reading of a kept state, in either form.
ghost use Rattle.std.specs.Prelude.{◌≡◌, ◌≤◌, ◌<◌, ◌^◌, Ok, IfOk};
ghost use Rattle.dory_fields.specs.Reading.{Reads};
ghost use Rattle.dory_state.specs.Spelling.{IsKeptState, Spells};
ghost use Rattle.dory_state.specs.Reading.{Gives, counts_at, field_fault, first_at, head_at, kept, owner_at, pending_at, row_at, second_at, shape_at, state_of, update_at, whole};
ghost use Rattle.dory_state.specs.declared.kept.KeptState.{KeptState};

use crate::fault::StateFault;
use crate::kept::{Head, KeptState, Pending};
use dory_base::{Bits, DocId, FolderId, MemberId, Shape};
use dory_fields::{FieldFault, Reader};
use std::alloc::Global;

#[tactic(auto, unfolding(crate::specs::Reading::owner_at))]
fn owner_in(reader: &mut Reader<'_>) -> Result<(FolderId, MemberId), FieldFault>
    ensures { Reads (λ x. x) result owner_at reader.old reader.new }
{
    let folder = reader.u32()?;
    let member = reader.u32_in(0, 63)?;
    Ok((FolderId(folder), MemberId(member)))
}

#[tactic(auto, unfolding(crate::specs::Reading::shape_at))]
fn shape_in(reader: &mut Reader<'_>) -> Result<Shape, FieldFault>
    ensures { Reads (λ x. x) result shape_at reader.old reader.new }
{
    let depth = reader.u8_in(8, 11)?;
    let probes = reader.u8_in(1, 8)?;
    Ok(Shape::of(depth, probes))
}

#[tactic(auto, unfolding(crate::specs::Reading::counts_at))]
fn counts_in(latest: u64, reader: &mut Reader<'_>) -> Result<(u64, u32), FieldFault>
    ensures value { Reads (λ x. x) result (counts_at latest) reader.old reader.new }
    ensures some { IfOk result (λ x. 1 ≤ x.0) }
{
    let next_serial = reader.u64_in(1, latest)?;
    let seen = reader.u32_in(0, 1_048_576)?;
    Ok((next_serial, seen))
}

#[tactic(auto, unfolding(crate::specs::Reading::head_at))]
fn head_in(latest: u64, reader: &mut Reader<'_>) -> Result<Head, FieldFault>
    ensures value { Reads (λ x. x) result (head_at latest) reader.old reader.new }
    ensures some { IfOk result (λ x. 1 ≤ x.next_serial) }
{
    let (folder, member) = owner_in(reader)?;
    let shape = shape_in(reader)?;
    let master = reader.array::<32>()?;
    let (next_serial, seen) = counts_in(latest, reader)?;
    Ok(Head {
        folder,
        member,
        shape,
        master,
        next_serial,
        seen,
    })
}

#[tactic(auto, unfolding(crate::specs::Reading::row_at))]
fn row_in(
    alloc: Global,
    shape: Shape,
    kind: u8,
    reader: &mut Reader<'_>,
) -> Result<Option<Bits>, FieldFault>
    ensures { Reads (λ x. x) result (row_at shape kind) reader.old reader.new }
{
    if kind == 1 {
        let row = reader.bits(alloc, shape.columns())?;
        Ok(Some(row))
    } else {
        Ok(None)
    }
}

#[tactic(auto, unfolding(crate::specs::Reading::update_at))]
fn update_in(
    alloc: Global,
    shape: Shape,
    next: u64,
    kind: u8,
    reader: &mut Reader<'_>,
) -> Result<Pending, FieldFault>
    requires { 1 ≤ next }
    ensures { Reads (λ x. x) result (update_at shape next kind) reader.old reader.new }
{
    let serial = reader.u64_in(1, next - 1)?;
    let doc = DocId(reader.u32()?);
    let row = row_in(alloc, shape, kind, reader)?;
    Ok(Pending { serial, doc, row })
}

#[tactic(auto, unfolding(crate::specs::Reading::pending_at))]
fn pending_in(
    alloc: Global,
    shape: Shape,
    next: u64,
    reader: &mut Reader<'_>,
) -> Result<Option<Pending>, FieldFault>
    requires { 1 ≤ next }
    ensures { Reads (λ x. x) result (pending_at shape next) reader.old reader.new }
{
    let kind = reader.u8_in(0, 2)?;
    if kind == 0 {
        return Ok(None);
    }
    let update = update_in(alloc, shape, next, kind, reader)?;
    Ok(Some(update))
}

/// The state of these fields.
fn kept(head: Head, used: u32, pending: Option<Pending>) -> KeptState
    ensures { result ≡ kept head used pending }
{
    let Head {
        folder,
        member,
        shape,
        master,
        next_serial,
        seen,
    } = head;
    KeptState {
        folder,
        member,
        shape,
        master,
        next_serial,
        seen,
        used,
        pending,
    }
}

/// The fields behind the first eight bytes, in the second form.
#[tactic(auto, unfolding(crate::specs::Reading::second_at))]
fn second(alloc: Global, reader: &mut Reader<'_>) -> Result<KeptState, FieldFault>
    ensures { Reads (λ x. x) result second_at reader.old reader.new }
{
    let head = head_in(u64::MAX, reader)?;
    let used = reader.u32_in(0, 65_536)?;
    let pending = pending_in(alloc, head.shape, head.next_serial, reader)?;
    Ok(kept(head, used, pending))
}

/// The fields behind the first eight bytes, in the first form.
#[tactic(auto, unfolding(crate::specs::Reading::first_at))]
fn first(alloc: Global, reader: &mut Reader<'_>) -> Result<KeptState, FieldFault>
    ensures { Reads (λ x. x) result first_at reader.old reader.new }
{
    let head = head_in(72_057_594_037_927_936, reader)?;
    let pending = pending_in(alloc, head.shape, head.next_serial, reader)?;
    Ok(kept(head, 0, pending))
}

/// The fault that a field's fault is of bytes that are so many in all.
fn field_fault(total: usize, fault: FieldFault) -> StateFault
    ensures { result ≡ field_fault total fault }
{
    match fault {
        FieldFault::CutShort { .. } => StateFault::Length { got: total },
        FieldFault::OutOfRange { at } => StateFault::Field { at },
        FieldFault::NoMemory => StateFault::NoMemory,
    }
}

/// The state that the bytes are. It stands apart from `read_state`, whose further clauses are proved of this exact one.
#[tactic(auto, unfolding(crate::specs::Reading::state_of))]
fn state_in(alloc: Global, bytes: &[u8]) -> Result<KeptState, StateFault>
    ensures { Gives result (state_of bytes.now) }
{
    let total = bytes.len();
    let mut reader = Reader::new(bytes);
    let Ok(name) = reader.slice(8) else {
        return Err(StateFault::Header);
    };
    let read = if name == b"dorystt2".as_slice() {
        second(alloc, &mut reader)
    } else if name == b"dorystt1".as_slice() {
        first(alloc, &mut reader)
    } else {
        return Err(StateFault::Header);
    };
    match read {
        Ok(state) if reader.is_empty() => Ok(state),
        Ok(_) => Err(StateFault::Length { got: total }),
        Err(fault) => Err(field_fault(total, fault)),
    }
}

/// The state that the bytes are, in either form.
pub fn read_state(alloc: Global, bytes: &[u8]) -> Result<KeptState, StateFault>
    // The state, or the first fault from the left.
    ensures exact { Gives result (state_of bytes.now) }
    ensures range { IfOk result IsKeptState }
    // What is read is spelled so, each byte of it.
    ensures only { IfOk result (Spells bytes.now) }
    // What is spelled so is read, unless memory runs out.
    ensures every { (s : KeptState) → IsKeptState s → Spells bytes.now s → Gives result (Ok s) }
{
    state_in(alloc, bytes)
}
