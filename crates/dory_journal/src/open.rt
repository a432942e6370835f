//! A journal, opened on a disk that a crash may have left.
ghost use Rattle.std.specs.Prelude.{◌≡◌, ◌*◌, Some, Option, List, ℕ, IfOk, IfErr, OnOk, IsErrOf, true, false};
ghost use Rattle.dory_base.specs.Log.{empty_log};
ghost use Rattle.dory_io.specs.Causes.{HasCause, Rose};
ghost use Rattle.dory_disk.specs.Disk.{IsOnDisk};
ghost use Rattle.dory_journal.specs.Ops.{AreLawful};
ghost use Rattle.dory_journal.specs.Bytes.{scan_of, ops_of, Keeps};
ghost use Rattle.dory_journal.specs.Reading.{OpensAs, IsDamagedAt};
ghost use Rattle.dory_journal.specs.Runs.{LeavesOnly, Quiet};

use crate::load::load;
use crate::{Journal, JournalFault};
use dory_base::{FolderId, Shape, Side};
use dory_disk::Disk;
use dory_log::FolderLog;
use std::alloc::Global;

/// A disk that was not opened, and why.
#[derive(Drop)]
pub struct Unopened<D: Drop> {
    pub disk: D,
    pub fault: JournalFault,
}

/// Syncs and reads a disk: the log after its operations, and the place of the shut gate behind them.
fn start<D: Disk>(
    alloc: Global,
    disk: &mut D,
    folder: FolderId,
    role: Side,
    shape: Shape,
) -> Result<(FolderLog, u64), JournalFault>
    ensures opens { (b : List ℕ) → D.told disk.old ≡ Some b → OpensAs folder.0 role shape b result }
    ensures log { IfOk result (λ r. (r.0.log.role ≡ role) × (r.0.log.shape ≡ shape)) }
    ensures durable { OnOk result (IsOnDisk (D.told disk.new) (D.may_leave disk.new)) }
    ensures quiet { Quiet D.told D.may_leave D.moment D.left_since disk.old disk.new }
    ensures cause { HasCause (D.faults disk.old) (D.faults disk.new) (IsErrOf result JournalFault.DiskFault) }
    ensures not_broken { IsErrOf result JournalFault.Broken → ⊥ }
{
    disk.sync()?;
    let length = disk.length()?;
    let mut log = FolderLog::new(alloc, role, shape)?;
    match load(alloc, disk, folder, role, &mut log, length) {
        Ok(gate) => Ok((log, gate)),
        Err(fault) => Err(fault),
    }
}

impl<D: Disk + Drop> Journal<D> {
    /// The journal of a folder on a disk. It writes nothing, so what a crash may leave meanwhile it might have left before.
    pub fn open(
        alloc: Global,
        disk: D,
        folder: FolderId,
        role: Side,
        shape: Shape,
    ) -> Result<Journal<D>, Unopened<D>>
        ensures journal { IfOk result (λ j. (j.folder ≡ folder) × (j.role ≡ role) × (j.log.log.shape ≡ shape) × (j.broken ≡ false)) }
        // The bytes stay, they are whole, and the log is the one after their operations.
        ensures opened { (b : List ℕ) → D.told disk ≡ Some b → IfOk result (λ j. (D.told j.disk ≡ Some b) × ((scan_of folder.0 role shape b).whole ≡ true) × (j.log.log ≡ (scan_of folder.0 role shape b).log)) }
        ensures damaged { (b : List ℕ) (at : ℕ) → D.told disk ≡ Some b → IfErr result (λ u. u.fault ≡ JournalFault.Damaged at → IsDamagedAt folder.0 role shape b at) }
        ensures any_moment { IfOk result (λ j. Quiet D.told D.may_leave D.moment D.left_since disk j.disk) }
        ensures any_moment_err { IfErr result (λ u. Quiet D.told D.may_leave D.moment D.left_since disk u.disk) }
        // Where a crash just before would leave the bytes as read, and no place in them is damaged, a crash at any moment leaves their operations.
        ensures survives { (b : List ℕ) → D.told disk ≡ Some b → IsOnDisk (D.told disk) (D.may_leave disk) → (scan_of folder.0 role shape b).whole ≡ true → IfOk result (λ j. LeavesOnly D.moment D.left_since disk j.disk (Keeps folder.0 role shape (ops_of folder.0 role shape b))) }
        ensures survives_err { (b : List ℕ) → D.told disk ≡ Some b → IsOnDisk (D.told disk) (D.may_leave disk) → (scan_of folder.0 role shape b).whole ≡ true → IfErr result (λ u. LeavesOnly D.moment D.left_since disk u.disk (Keeps folder.0 role shape (ops_of folder.0 role shape b))) }
        // The operations that bytes keep are lawful: each is one that the folder makes after those before it.
        ensures lawful { (b : List ℕ) → AreLawful (empty_log role shape) (ops_of folder.0 role shape b) }
        ensures cause { IfErr result (λ u. u.fault ≡ JournalFault.DiskFault → Rose (D.faults disk) (D.faults u.disk)) }
        ensures not_broken { IfErr result (λ u. u.fault ≡ JournalFault.Broken → ⊥) }
    {
        let mut disk = disk;
        match start(alloc, &mut disk, folder, role, shape) {
            Ok((log, gate)) => Ok(Journal {
                disk,
                folder,
                role,
                log,
                gate: gate.min(1 << 63),
                broken: false,
            }),
            Err(fault) => Err(Unopened { disk, fault }),
        }
    }
}
