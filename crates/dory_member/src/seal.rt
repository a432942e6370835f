//! The entry of a pending update.
ghost use Rattle.std.specs.Prelude.{◌≡◌, ◌^◌, ◌<◌, length, IfOk};
ghost use Rattle.dory_state.specs.Spelling.{IsKeptState, IsPending};
ghost use Rattle.dory_wire.specs.Spelling.{IsEntry};
ghost use Rattle.dory_member.specs.Course.{entry_of, folder_keys, sealed_row};

use dory_base::{Bits, DocId, Entry, NoMemory, UpdateId};
use dory_hmac::FolderKeys;
use dory_seal::{seal_post, seal_remove};
use dory_state::{KeptState, Pending};
use std::alloc::Global;

/// A sealed post.
fn sealed(
    alloc: Global,
    state: &KeptState,
    id: UpdateId,
    doc: DocId,
    row: &Bits,
) -> Result<Entry, NoMemory>
    requires { length row.now ≡ 2 ^ state.now.shape.depth }
    ensures { IfOk result (λ e. e ≡ record { id = id; doc = doc; change = sealed_row (folder_keys state.now) state.now.shape id doc row.now }) }
{
    let keys = FolderKeys::derive(&state.master, state.folder.0);
    match seal_post(alloc, &keys, state.shape, id, doc, row) {
        Ok(entry) => Ok(entry),
        Err(fault) => Err(fault),
    }
}

/// The entry of a member's update.
fn made(alloc: Global, state: &KeptState, update: &Pending) -> Result<Entry, NoMemory>
    requires { IsPending state.now.shape (2 ^ 64) update.now }
    ensures { IfOk result (λ e. e ≡ entry_of state.now update.now) }
{
    let id = UpdateId {
        member: state.member,
        serial: update.serial,
    };
    match &update.row {
        Some(row) => sealed(alloc, state, id, update.doc, row),
        None => Ok(seal_remove(id, update.doc)),
    }
}

/// The entry of a member's update, sealed under its folder's keys.
pub fn entry_of(alloc: Global, state: &KeptState, update: &Pending) -> Result<Entry, NoMemory>
    requires state { IsKeptState state.now }
    requires update { IsPending state.now.shape (2 ^ 64) update.now }
    ensures exact { IfOk result (λ e. e ≡ entry_of state.now update.now) }
    ensures range { IfOk result IsEntry }
{
    match made(alloc, state, update) {
        Ok(entry) => Ok(entry),
        Err(fault) => Err(fault),
    }
}
