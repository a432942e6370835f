//! The writing of a kept state, always in the second form.
ghost use Rattle.std.specs.Prelude.{◌≡◌, ◌++◌, Ok, OnOk, IfOk};
ghost use Rattle.dory_fields.specs.Bytes.{eight, four};
ghost use Rattle.dory_state.specs.Spelling.{IsKeptState, head, pending as pending_bytes, spelling_of_state};
ghost use Rattle.dory_state.specs.Reading.{state_of};

use crate::kept::{KeptState, Pending};
use dory_base::NoMemory;
use dory_fields::{put_bits, put_u32, put_u64};
use std::alloc::Global;

fn put_name(out: &mut Vec<u8>, update: &Pending) -> Result<(), NoMemory>
    ensures { OnOk result (out.new.items ≡ out.old.items ++ (eight update.now.serial ++ four update.now.doc.0)) }
{
    put_u64(out, update.serial)?;
    put_u32(out, update.doc.0)
}

fn put_pending(out: &mut Vec<u8>, pending: &Option<Pending>) -> Result<(), NoMemory>
    ensures { OnOk result (out.new.items ≡ out.old.items ++ pending_bytes pending.now) }
{
    match pending {
        None => out.push(0)?,
        Some(update) => match &update.row {
            Some(row) => {
                out.push(1)?;
                put_name(out, update)?;
                put_bits(out, row)?;
            }
            None => {
                out.push(2)?;
                put_name(out, update)?;
            }
        },
    }
    Ok(())
}

fn put_head(out: &mut Vec<u8>, state: &KeptState) -> Result<(), NoMemory>
    ensures { OnOk result (out.new.items ≡ out.old.items ++ head state.now) }
{
    put_u32(out, state.folder.0)?;
    put_u32(out, state.member.0)?;
    out.push(state.shape.depth())?;
    out.push(state.shape.probes())?;
    out.extend_from_slice(&state.master)?;
    put_u64(out, state.next_serial)?;
    put_u32(out, state.seen)
}

fn spelled(alloc: Global, state: &KeptState) -> Result<Vec<u8>, NoMemory>
    ensures { IfOk result (λ bytes. bytes.items ≡ spelling_of_state state.now) }
{
    let mut out = Vec::new(alloc);
    out.extend_from_slice(b"dorystt2")?;
    put_head(&mut out, state)?;
    put_u32(&mut out, state.used)?;
    put_pending(&mut out, &state.pending)?;
    Ok(out)
}

/// The state's bytes, in the second form.
pub fn write_state(alloc: Global, state: &KeptState) -> Result<Vec<u8>, NoMemory>
    requires { IsKeptState state.now }
    ensures spelled { IfOk result (λ bytes. bytes.items ≡ spelling_of_state state.now) }
    // What is written is read as the same state.
    ensures read_back { IfOk result (λ bytes. state_of bytes.items ≡ Ok state.now) }
{
    match spelled(alloc, state) {
        Ok(bytes) => Ok(bytes),
        Err(fault) => Err(fault),
    }
}
