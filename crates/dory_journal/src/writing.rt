//! Writes that are on the disk before the next one begins.
ghost use Rattle.std.specs.Prelude.{◌≡◌, ◌+◌, ◌<◌, ◌^◌, Some, List, ℕ, length, option_map, OnOk, IsErr};
ghost use Rattle.dory_io.specs.Causes.{HasCause};
ghost use Rattle.dory_disk.specs.Disk.{IsWithin, IsOnDisk, Torn, overwritten};
ghost use Rattle.dory_journal.specs.Runs.{LeavesOnly};
ghost use Rattle.dory_journal.specs.Writing.{opened, IsLeft, IsStillTold};

use dory_base::Failed;
use dory_disk::Disk;

/// Writes a piece and waits until the disk has it.
fn write_synced<D: Disk>(disk: &mut D, place: u64, piece: &[u8]) -> Result<(), Failed>
    requires { IsWithin (D.told disk.old) place }
    ensures bytes { OnOk result (D.told disk.new ≡ option_map (overwritten place piece.now) (D.told disk.old)) }
    ensures durable { OnOk result (IsOnDisk (D.told disk.new) (D.may_leave disk.new)) }
    ensures told { IsStillTold (D.told disk.old) (D.told disk.new) }
    ensures any_moment { (b : List ℕ) → D.told disk.old ≡ Some b → IsOnDisk (D.told disk.old) (D.may_leave disk.old)
        → LeavesOnly D.moment D.left_since disk.old disk.new (Torn place (length piece.now) b) }
    ensures cause { HasCause (D.faults disk.old) (D.faults disk.new) (IsErr result) }
{
    disk.write_at(place, piece)?;
    disk.sync()
}

/// Writes a piece behind a shut gate, and opens the gate once the disk has the piece.
pub fn write_behind<D: Disk>(disk: &mut D, gate: u64, piece: &[u8]) -> Result<(), Failed>
    requires within { IsWithin (D.told disk.old) (gate + 1) }
    requires fits { gate + 1 < 2 ^ 64 }
    ensures bytes { OnOk result (D.told disk.new ≡ option_map (opened gate piece.now) (D.told disk.old)) }
    ensures durable { OnOk result (IsOnDisk (D.told disk.new) (D.may_leave disk.new)) }
    ensures told { IsStillTold (D.told disk.old) (D.told disk.new) }
    ensures any_moment { (b : List ℕ) → D.told disk.old ≡ Some b → IsOnDisk (D.told disk.old) (D.may_leave disk.old)
        → LeavesOnly D.moment D.left_since disk.old disk.new (IsLeft gate piece.now b) }
    ensures cause { HasCause (D.faults disk.old) (D.faults disk.new) (IsErr result) }
{
    write_synced(disk, gate + 1, piece)?;
    write_synced(disk, gate, &[1])
}
