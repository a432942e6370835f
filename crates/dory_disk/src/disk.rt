//! A disk as a journal sees it: what a read gives, and what a crash may leave.
ghost use Rattle.std.specs.Prelude.{◌≡◌, ◌≤◌, ◌<◌, ◌+◌, ◌^◌, Option, Some, List, ℕ, length, IfOk, OnOk, IsErr};
ghost use Rattle.dory_io.specs.Causes.{HasCause};
ghost use Rattle.dory_disk.specs.Disk.{IsWithin, ReadsAt, Counts, WritesAt, Follows, Within, IsOnDisk, Elapses};

use dory_base::Failed;

/// A disk that holds bytes. An honest one tells them, and what a crash may leave of them.
pub trait Disk {
    /// The bytes that a read gives, where the disk is honest.
    ghost told: { Self → Option (List ℕ) };

    /// What a crash now may leave.
    ghost may_leave: { Self → List ℕ → Type 0 };

    /// The moment, as a number that doesn't fall.
    ghost moment: { Self → ℕ };

    /// What a crash at some moment from that one on might have left.
    ghost left_since: { Self → ℕ → List ℕ → Type 0 };

    ghost faults: { Self → ℕ };

    /// How many bytes it holds.
    fn length(&mut self) -> Result<u64, Failed>
        ensures value { IfOk result (λ n. Counts (told self.old) n) }
        ensures same { told self.new ≡ told self.old }
        ensures crash { Within (may_leave self.old) (may_leave self.new) }
        ensures time { Elapses (moment self.old) (moment self.new) (left_since self.old) (left_since self.new) (may_leave self.new) }
        ensures cause { HasCause (faults self.old) (faults self.new) (IsErr result) };

    /// Reads the bytes from a place on.
    fn read_at(&mut self, place: u64, into: &mut [u8]) -> Result<(), Failed>
        requires { IsWithin (told self.old) (place + length into.old) }
        ensures bytes { OnOk result (ReadsAt (told self.old) place into.new) }
        ensures same { told self.new ≡ told self.old }
        ensures crash { Within (may_leave self.old) (may_leave self.new) }
        ensures time { Elapses (moment self.old) (moment self.new) (left_since self.old) (left_since self.new) (may_leave self.new) }
        ensures cause { HasCause (faults self.old) (faults self.new) (IsErr result) };

    /// Writes over what is there, and past the end. Until a sync, a crash may leave any bytes in the range.
    fn write_at(&mut self, place: u64, piece: &[u8]) -> Result<(), Failed>
        requires { IsWithin (told self.old) place }
        ensures bytes { WritesAt place piece.now (told self.old) (told self.new) result }
        ensures crash { Follows place (length piece.now) (may_leave self.old) (may_leave self.new) }
        ensures time { Elapses (moment self.old) (moment self.new) (left_since self.old) (left_since self.new) (may_leave self.new) }
        ensures cause { HasCause (faults self.old) (faults self.new) (IsErr result) };

    /// After it, a crash leaves what a read gives.
    fn sync(&mut self) -> Result<(), Failed>
        ensures durable { OnOk result (IsOnDisk (told self.old) (may_leave self.new)) }
        ensures same { told self.new ≡ told self.old }
        ensures crash { Within (may_leave self.old) (may_leave self.new) }
        ensures time { Elapses (moment self.old) (moment self.new) (left_since self.old) (left_since self.new) (may_leave self.new) }
        ensures cause { HasCause (faults self.old) (faults self.new) (IsErr result) };

    /// What a read gives is among what a crash now may leave.
    ghost reads_now: { (disk : Self) (c : List ℕ) → told disk ≡ Some c → may_leave disk c };

    /// An honest disk holds fewer than 2^63 bytes.
    ghost few: { (disk : Self) (c : List ℕ) → told disk ≡ Some c → length c < 2 ^ 63 };

    /// This moment is one of those since an earlier one.
    ghost counts_now: { (disk : Self) (t : ℕ) (c : List ℕ) → t ≤ moment disk → may_leave disk c → left_since disk t c };

    /// Since this moment there is no other.
    ghost only_now: { (disk : Self) (c : List ℕ) → left_since disk (moment disk) c → may_leave disk c };
}
