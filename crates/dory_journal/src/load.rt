//! The operations of a disk, read into a log.
ghost use Rattle.std.specs.Prelude.{◌≡◌, ◌<◌, ◌≤◌, ◌*◌, Some, Option, List, ℕ, IfOk, IfSome, IsErrOf, length as length_all};
ghost use Rattle.dory_base.specs.Log.{empty_log};
ghost use Rattle.dory_io.specs.Causes.{HasCause};
ghost use Rattle.dory_journal.specs.Reading.{LoadsAs, StepsAs, IsLoaded};
ghost use Rattle.dory_journal.specs.Runs.{Quiet};

use crate::JournalFault;
use crate::look::look;
use crate::replay::replay;
use dory_base::{FolderId, Side};
use dory_disk::Disk;
use dory_log::FolderLog;
use std::alloc::Global;

/// Reads the operation at a gate into the log, and answers the place of the next gate, or that this one is shut.
fn step<D: Disk>(
    alloc: Global,
    disk: &mut D,
    folder: FolderId,
    role: Side,
    log: &mut FolderLog,
    gate: u64,
    length: u64,
) -> Result<Option<u64>, JournalFault>
    requires length { (b : List ℕ) → D.told disk.old ≡ Some b → length ≡ length_all b }
    requires same_role { role ≡ log.old.log.role }
    ensures steps { (b : List ℕ) → D.told disk.old ≡ Some b → IsLoaded folder.0 role log.old.log.shape log.old.log gate b → StepsAs folder.0 role log.old.log.shape log.new.log gate b result }
    ensures next { IfOk result (λ found. IfSome found (λ next. (gate < next) × (next ≤ length))) }
    ensures role { log.new.log.role ≡ log.old.log.role }
    ensures shape { log.new.log.shape ≡ log.old.log.shape }
    ensures quiet { Quiet D.told D.may_leave D.moment D.left_since disk.old disk.new }
    ensures cause { HasCause (D.faults disk.old) (D.faults disk.new) (IsErrOf result JournalFault.DiskFault) }
    ensures not_broken { IsErrOf result JournalFault.Broken → ⊥ }
{
    match look(alloc, disk, folder, gate, length) {
        Err(fault) => Err(fault),
        Ok(None) => Ok(None),
        Ok(Some((request, next))) => {
            if replay(alloc, role, log, request.want)? {
                Ok(Some(next))
            } else {
                Err(JournalFault::Damaged { at: gate })
            }
        }
    }
}

/// Reads all operations into an empty log, and answers the place of the shut gate behind them.
pub fn load<D: Disk>(
    alloc: Global,
    disk: &mut D,
    folder: FolderId,
    role: Side,
    log: &mut FolderLog,
    length: u64,
) -> Result<u64, JournalFault>
    requires length { (b : List ℕ) → D.told disk.old ≡ Some b → length ≡ length_all b }
    requires empty { log.old.log ≡ empty_log role log.old.log.shape }
    ensures loads { (b : List ℕ) → D.told disk.old ≡ Some b → LoadsAs folder.0 role log.old.log.shape log.new.log b result }
    ensures within { IfOk result (λ gate. gate ≤ length) }
    ensures role { log.new.log.role ≡ role }
    ensures shape { log.new.log.shape ≡ log.old.log.shape }
    ensures quiet { Quiet D.told D.may_leave D.moment D.left_since disk.old disk.new }
    ensures cause { HasCause (D.faults disk.old) (D.faults disk.new) (IsErrOf result JournalFault.DiskFault) }
    ensures not_broken { IsErrOf result JournalFault.Broken → ⊥ }
{
    let mut gate = 0;
    while gate < length {
        match step(alloc, disk, folder, role, log, gate, length) {
            Err(fault) => return Err(fault),
            Ok(None) => return Ok(gate),
            Ok(Some(next)) => gate = next,
        }
    }
    Err(JournalFault::Damaged { at: gate })
}
