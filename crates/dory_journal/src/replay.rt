//! A recorded operation, put into a log again.
ghost use Rattle.std.specs.Prelude.{◌≡◌, true, false, ◌≤◌, Some, Ok, IfOk, OnErr};
ghost use Rattle.dory_wire.specs.Spelling.{IsWant, IsEntry, IsId, IsNumber};
ghost use Rattle.dory_journal.specs.Ops.Op.{Stages, Appends};
ghost use Rattle.dory_journal.specs.Ops.{fresh_number, Op, op_of_want, may, log_after_op, look_append as look_append_of};

use dory_base::{Entry, NoMemory, Side, UpdateId};
use dory_log::{FolderLog, Plan, StagePlan};
use dory_wire::Want;
use std::alloc::Global;
use std::sync::Arc;

/// Stages an update again, where that is lawful.
fn stage_again(alloc: Global, log: &mut FolderLog, entry: Entry) -> Result<bool, NoMemory>
    requires { IsEntry entry }
    ensures role { log.new.log.role ≡ log.old.log.role }
    ensures shape { log.new.log.shape ≡ log.old.log.shape }
    ensures lawful { IfOk result (λ done. done ≡ may log.old.log (Stages entry)) }
    ensures done { IfOk result (λ done. done ≡ true → log.new.log ≡ log_after_op log.old.log (Stages entry)) }
{
    match log.look_stage(&entry) {
        Ok(StagePlan::New) => {
            let entry = Arc::new(alloc, entry)?;
            log.reserve(alloc)?;
            log.put_staged(entry);
            Ok(true)
        }
        _ => Ok(false),
    }
}

/// What committing an update at a number comes to, in a log of this role.
fn look_append(role: Side, log: &FolderLog, number: u32, id: UpdateId) -> Option<u32>
    requires { 1 ≤ number }
    ensures { result ≡ fresh_number (look_append_of role log.now.log number id) }
{
    let plan = match role {
        Side::Lead => log.look_order(id),
        Side::Follow => log.look_follow(number, id),
    };
    match plan {
        Ok(Plan::Fresh { number }) => Some(number),
        _ => None,
    }
}

/// Commits an update again, where that is lawful.
fn append_again(
    alloc: Global,
    role: Side,
    log: &mut FolderLog,
    number: u32,
    id: UpdateId,
) -> Result<bool, NoMemory>
    requires same_role { role ≡ log.old.log.role }
    requires number { IsNumber number }
    ensures role { log.new.log.role ≡ log.old.log.role }
    ensures shape { log.new.log.shape ≡ log.old.log.shape }
    ensures lawful { IfOk result (λ done. done ≡ may log.old.log (Appends number id)) }
    ensures done { IfOk result (λ done. done ≡ true → log.new.log ≡ log_after_op log.old.log (Appends number id)) }
{
    if look_append(role, log, number, id) == Some(number) {
        log.reserve(alloc)?;
        log.put_commit(number, id);
        Ok(true)
    } else {
        Ok(false)
    }
}

/// Puts an operation into a log again, where that is lawful.
pub fn replay(alloc: Global, role: Side, log: &mut FolderLog, want: Want) -> Result<bool, NoMemory>
    requires same_role { role ≡ log.old.log.role }
    requires range { IsWant want }
    ensures role { log.new.log.role ≡ log.old.log.role }
    ensures shape { log.new.log.shape ≡ log.old.log.shape }
    ensures lawful { (op : Op) → op_of_want want ≡ Some op → IfOk result (λ done. done ≡ may log.old.log op) }
    ensures done { (op : Op) → op_of_want want ≡ Some op → IfOk result (λ done. done ≡ true → log.new.log ≡ log_after_op log.old.log op) }
{
    match want {
        Want::Stage { entry } => stage_again(alloc, log, entry),
        Want::Follow { number, id } => append_again(alloc, role, log, number, id),
        _ => Ok(false),
    }
}
