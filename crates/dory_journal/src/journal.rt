//! The journal of one folder.
ghost use Rattle.std.specs.Prelude.{◌≡◌, ◌↔◌, ◌*◌, ◌+◌, ◌<◌, ◌≤◌, ◌^◌, false, true, Some, None, Ok, Option, List, ℕ, length, option_map, OnOk, OnErr, IfOk, IfErr, IfSome, IsErr, IsErrOf};
ghost use Rattle.std.specs.Arc.{arc_value};
ghost use Rattle.dory_base.specs.declared.plan.StagePlan.TheVariants.{New};
ghost use Rattle.dory_base.specs.Log.{look_stage, number_of};
ghost use Rattle.dory_base.specs.Step.{IsSerial};
ghost use Rattle.dory_wire.specs.declared.message.Want.TheVariants.{Stage, Order, Follow};
ghost use Rattle.dory_wire.specs.Spelling.{IsEntry, IsId, IsNumber, IsWant, IsRequest};
ghost use Rattle.dory_log.specs.Spared.{MayCommit};
ghost use Rattle.dory_io.specs.Causes.{HasCause};
ghost use Rattle.dory_disk.specs.Disk.{IsOnDisk};
ghost use Rattle.dory_journal.specs.Ops.Op.{Stages, Appends};
ghost use Rattle.dory_journal.specs.Ops.{Op, Has, may, log_after_op};
ghost use Rattle.dory_journal.specs.Made.{log_after_made, op_made, refusal_of, IsKept};
ghost use Rattle.dory_journal.specs.Bytes.{ops_of, scan_of, is_own};
ghost use Rattle.dory_journal.specs.Runs.{LeavesOnly, Quiet};
ghost use Rattle.dory_journal.specs.Writing.{opened};
ghost use Rattle.dory_journal.specs.Recording.{IsAt, IsPiece, IsPut, Records, StaysTold, LeavesRecord, IsAcknowledged, FailsAs, IsWithOrWithout};
ghost use Rattle.dory_journal.specs.Reading.{LooksAs, WalksAs, IsGate};

use crate::JournalFault;
use crate::look::look;
use crate::number::number_in;
use crate::piece::{piece_of, staged_piece};
use crate::writing::write_behind;
use dory_base::{Entry, Failed, FolderId, Refusal, Side, UpdateId};
use dory_disk::Disk;
use dory_log::{FolderLog, Plan, StagePlan};
use dory_wire::{Request, Want};
use std::alloc::Global;
use std::sync::Arc;

/// The operations of a folder on a disk, and the log after them. It is broken once a record failed, or once it is spoiled.
#[derive(Drop)]
pub struct Journal<D: Disk + Drop> {
    pub(crate) disk: D,
    pub(crate) folder: FolderId,
    pub(crate) role: Side,
    pub(crate) log: FolderLog,
    /// The place of the last gate, which is shut.
    pub(crate) gate: u64,
    pub(crate) broken: bool,
    ghost same_role: { role ≡ log.log.role },
    ghost at: { (b : List ℕ) → broken ≡ false → D.told disk ≡ Some b → IsAt folder.0 log.log.role log.log.shape log.log gate b },
    ghost durable: { broken ≡ false → IsOnDisk (D.told disk) (D.may_leave disk) },
    ghost few: { gate ≤ 2 ^ 63 },
}

impl<D: Disk + Drop> Journal<D> {
    /// Puts a record behind the last gate. The journal is broken until the log knows of it.
    fn write(&mut self, piece: &[u8]) -> Result<(), Failed>
        requires { self.old.broken ≡ false }
        ensures folder { (self.new.folder ≡ self.old.folder) × (self.new.role ≡ self.old.role) }
        ensures log { self.new.log ≡ self.old.log }
        ensures gate { self.new.gate ≡ self.old.gate }
        ensures broken { self.new.broken ≡ true }
        ensures bytes { OnOk result (D.told self.new.disk ≡ option_map (opened self.old.gate piece.now) (D.told self.old.disk)) }
        ensures durable { OnOk result (IsOnDisk (D.told self.new.disk) (D.may_leave self.new.disk)) }
        ensures told { (op : Op) → IsPiece self.old.folder.0 op piece.now → may self.old.log.log op ≡ true → StaysTold (D.told self.old.disk) (D.told self.new.disk) self.old.folder.0 self.old.log.log (Some op) }
        ensures any_moment { (op : Op) → IsPiece self.old.folder.0 op piece.now → may self.old.log.log op ≡ true → LeavesRecord D.told D.moment D.left_since self.old.disk self.new.disk self.old.folder.0 self.old.log.log (Some op) }
        ensures cause { HasCause (D.faults self.old.disk) (D.faults self.new.disk) (IsErr result) }
    {
        self.broken = true;
        write_behind(&mut self.disk, self.gate, piece)
    }

    /// The log knows of the record that was written, of so many bytes.
    fn settle(&mut self, len: usize)
        requires at { (b : List ℕ) → D.told self.old.disk ≡ Some b → IsAt self.old.folder.0 self.old.log.log.role self.old.log.log.shape self.old.log.log (self.old.gate + len) b }
        requires durable { IsOnDisk (D.told self.old.disk) (D.may_leave self.old.disk) }
        ensures disk { self.new.disk ≡ self.old.disk }
        ensures folder { (self.new.folder ≡ self.old.folder) × (self.new.role ≡ self.old.role) }
        ensures log { self.new.log ≡ self.old.log }
        ensures broken { self.new.broken ≡ false }
    {
        self.gate = place_of(self.gate, len);
        self.broken = false;
    }

    /// Keeps a new update: on the disk, and then in the log.
    fn keep_staged(&mut self, piece: &[u8], entry: Arc<Entry>) -> Result<(), Failed>
        requires open { self.old.broken ≡ false }
        requires fresh { look_stage self.old.log.log (arc_value entry) ≡ Ok New }
        requires serial { IsSerial (arc_value entry).id.serial }
        requires spare { 1 ≤ self.old.log.spare }
        requires piece { IsPiece self.old.folder.0 (Stages (arc_value entry)) piece.now }
        ensures folder { (self.new.folder ≡ self.old.folder) × (self.new.role ≡ self.old.role) }
        ensures log { OnOk result (self.new.log.log ≡ log_after_op self.old.log.log (Stages (arc_value entry))) }
        ensures open { OnOk result (self.new.broken ≡ false) }
        ensures broken { OnErr result (self.new.broken ≡ true) }
        ensures bytes { OnOk result (IsPut self.old.folder.0 self.old.gate (Some (Stages (arc_value entry))) (D.told self.old.disk) (D.told self.new.disk)) }
        ensures kept { OnOk result (Records (D.told self.old.disk) (D.told self.new.disk) self.old.folder.0 self.old.log.log (Some (Stages (arc_value entry)))) }
        ensures told { StaysTold (D.told self.old.disk) (D.told self.new.disk) self.old.folder.0 self.old.log.log (Some (Stages (arc_value entry))) }
        ensures any_moment { LeavesRecord D.told D.moment D.left_since self.old.disk self.new.disk self.old.folder.0 self.old.log.log (Some (Stages (arc_value entry))) }
        ensures cause { HasCause (D.faults self.old.disk) (D.faults self.new.disk) (IsErr result) }
    {
        self.write(piece)?;
        self.log.put_staged(entry);
        self.settle(piece.len());
        Ok(())
    }

    /// Keeps a commit: on the disk, and then in the log.
    fn keep_appended(&mut self, piece: &[u8], number: u32, id: UpdateId) -> Result<(), Failed>
        requires open { self.old.broken ≡ false }
        requires fresh { MayCommit self.old.log.log number id }
        requires lawful { may self.old.log.log (Appends number id) ≡ true }
        requires spare { 1 ≤ self.old.log.spare }
        requires piece { IsPiece self.old.folder.0 (Appends number id) piece.now }
        ensures folder { (self.new.folder ≡ self.old.folder) × (self.new.role ≡ self.old.role) }
        ensures log { OnOk result (self.new.log.log ≡ log_after_op self.old.log.log (Appends number id)) }
        ensures open { OnOk result (self.new.broken ≡ false) }
        ensures broken { OnErr result (self.new.broken ≡ true) }
        ensures bytes { OnOk result (IsPut self.old.folder.0 self.old.gate (Some (Appends number id)) (D.told self.old.disk) (D.told self.new.disk)) }
        ensures kept { OnOk result (Records (D.told self.old.disk) (D.told self.new.disk) self.old.folder.0 self.old.log.log (Some (Appends number id))) }
        ensures told { StaysTold (D.told self.old.disk) (D.told self.new.disk) self.old.folder.0 self.old.log.log (Some (Appends number id)) }
        ensures any_moment { LeavesRecord D.told D.moment D.left_since self.old.disk self.new.disk self.old.folder.0 self.old.log.log (Some (Appends number id)) }
        ensures cause { HasCause (D.faults self.old.disk) (D.faults self.new.disk) (IsErr result) }
    {
        self.write(piece)?;
        self.log.put_commit(number, id);
        self.settle(piece.len());
        Ok(())
    }

    /// Records that an update is staged, where that is new.
    fn stage(
        &mut self,
        alloc: Global,
        want: &Want,
        entry: &Entry,
    ) -> Result<Option<Refusal>, JournalFault>
        requires open { self.old.broken ≡ false }
        requires range { IsEntry entry.now }
        requires staging { want.now ≡ Stage entry.now }
        ensures answer { IfOk result (λ r. r ≡ refusal_of self.old.log.log (Stage entry.now)) }
        ensures folder { (self.new.folder ≡ self.old.folder) × (self.new.role ≡ self.old.role) }
        ensures log { OnOk result (self.new.log.log ≡ log_after_made self.old.log.log (op_made self.old.log.log (Stage entry.now))) }
        ensures untouched { op_made self.old.log.log (Stage entry.now) ≡ None → self.new.disk ≡ self.old.disk }
        ensures open { OnOk result (self.new.broken ≡ false) }
        ensures bytes { OnOk result (IsPut self.old.folder.0 self.old.gate (op_made self.old.log.log (Stage entry.now)) (D.told self.old.disk) (D.told self.new.disk)) }
        ensures kept { OnOk result (Records (D.told self.old.disk) (D.told self.new.disk) self.old.folder.0 self.old.log.log (op_made self.old.log.log (Stage entry.now))) }
        ensures told { StaysTold (D.told self.old.disk) (D.told self.new.disk) self.old.folder.0 self.old.log.log (op_made self.old.log.log (Stage entry.now)) }
        ensures any_moment { LeavesRecord D.told D.moment D.left_since self.old.disk self.new.disk self.old.folder.0 self.old.log.log (op_made self.old.log.log (Stage entry.now)) }
        ensures fails { IfErr result (FailsAs (self.new.disk ≡ self.old.disk) (self.new.log.log ≡ self.old.log.log) self.new.broken) }
        ensures cause { HasCause (D.faults self.old.disk) (D.faults self.new.disk) (IsErrOf result JournalFault.DiskFault) }
    {
        match self.log.look_stage(entry) {
            Err(code) => Ok(Some(code)),
            Ok(StagePlan::New) => {
                let (piece, kept) = staged_piece(alloc, self.folder, want, entry)?;
                self.log.reserve(alloc)?;
                self.keep_staged(&piece, kept)?;
                Ok(None)
            }
            Ok(_) => Ok(None),
        }
    }

    /// Records that an update is committed at this number.
    fn append(&mut self, alloc: Global, number: u32, id: UpdateId) -> Result<(), JournalFault>
        requires open { self.old.broken ≡ false }
        requires fresh { MayCommit self.old.log.log number id }
        requires lawful { may self.old.log.log (Appends number id) ≡ true }
        requires range { IsId id }
        requires number { IsNumber number }
        ensures folder { (self.new.folder ≡ self.old.folder) × (self.new.role ≡ self.old.role) }
        ensures log { OnOk result (self.new.log.log ≡ log_after_op self.old.log.log (Appends number id)) }
        ensures open { OnOk result (self.new.broken ≡ false) }
        ensures bytes { OnOk result (IsPut self.old.folder.0 self.old.gate (Some (Appends number id)) (D.told self.old.disk) (D.told self.new.disk)) }
        ensures kept { OnOk result (Records (D.told self.old.disk) (D.told self.new.disk) self.old.folder.0 self.old.log.log (Some (Appends number id))) }
        ensures told { StaysTold (D.told self.old.disk) (D.told self.new.disk) self.old.folder.0 self.old.log.log (Some (Appends number id)) }
        ensures any_moment { LeavesRecord D.told D.moment D.left_since self.old.disk self.new.disk self.old.folder.0 self.old.log.log (Some (Appends number id)) }
        ensures fails { IfErr result (FailsAs (self.new.disk ≡ self.old.disk) (self.new.log.log ≡ self.old.log.log) self.new.broken) }
        ensures cause { HasCause (D.faults self.old.disk) (D.faults self.new.disk) (IsErrOf result JournalFault.DiskFault) }
    {
        let piece = piece_of(alloc, self.folder, &Want::Follow { number, id })?;
        self.log.reserve(alloc)?;
        self.keep_appended(&piece, number, id)?;
        Ok(())
    }

    /// Records that an update is given the next number, where that is new.
    fn order(&mut self, alloc: Global, id: UpdateId) -> Result<Option<Refusal>, JournalFault>
        requires open { self.old.broken ≡ false }
        requires range { IsId id }
        ensures answer { IfOk result (λ r. r ≡ refusal_of self.old.log.log (Order id)) }
        ensures folder { (self.new.folder ≡ self.old.folder) × (self.new.role ≡ self.old.role) }
        ensures log { OnOk result (self.new.log.log ≡ log_after_made self.old.log.log (op_made self.old.log.log (Order id))) }
        ensures untouched { op_made self.old.log.log (Order id) ≡ None → self.new.disk ≡ self.old.disk }
        ensures open { OnOk result (self.new.broken ≡ false) }
        ensures bytes { OnOk result (IsPut self.old.folder.0 self.old.gate (op_made self.old.log.log (Order id)) (D.told self.old.disk) (D.told self.new.disk)) }
        ensures kept { OnOk result (Records (D.told self.old.disk) (D.told self.new.disk) self.old.folder.0 self.old.log.log (op_made self.old.log.log (Order id))) }
        ensures told { StaysTold (D.told self.old.disk) (D.told self.new.disk) self.old.folder.0 self.old.log.log (op_made self.old.log.log (Order id)) }
        ensures any_moment { LeavesRecord D.told D.moment D.left_since self.old.disk self.new.disk self.old.folder.0 self.old.log.log (op_made self.old.log.log (Order id)) }
        ensures fails { IfErr result (FailsAs (self.new.disk ≡ self.old.disk) (self.new.log.log ≡ self.old.log.log) self.new.broken) }
        ensures cause { HasCause (D.faults self.old.disk) (D.faults self.new.disk) (IsErrOf result JournalFault.DiskFault) }
    {
        match self.log.look_order(id) {
            Err(code) => Ok(Some(code)),
            Ok(Plan::Fresh { number }) => {
                self.append(alloc, number, id)?;
                Ok(None)
            }
            Ok(Plan::Again { .. }) => Ok(None),
        }
    }

    /// Records that an update is given this number, where that is new.
    fn follow(
        &mut self,
        alloc: Global,
        number: u32,
        id: UpdateId,
    ) -> Result<Option<Refusal>, JournalFault>
        requires open { self.old.broken ≡ false }
        requires range { IsId id }
        requires number { IsNumber number }
        ensures answer { IfOk result (λ r. r ≡ refusal_of self.old.log.log (Follow number id)) }
        ensures folder { (self.new.folder ≡ self.old.folder) × (self.new.role ≡ self.old.role) }
        ensures log { OnOk result (self.new.log.log ≡ log_after_made self.old.log.log (op_made self.old.log.log (Follow number id))) }
        ensures untouched { op_made self.old.log.log (Follow number id) ≡ None → self.new.disk ≡ self.old.disk }
        ensures open { OnOk result (self.new.broken ≡ false) }
        ensures bytes { OnOk result (IsPut self.old.folder.0 self.old.gate (op_made self.old.log.log (Follow number id)) (D.told self.old.disk) (D.told self.new.disk)) }
        ensures kept { OnOk result (Records (D.told self.old.disk) (D.told self.new.disk) self.old.folder.0 self.old.log.log (op_made self.old.log.log (Follow number id))) }
        ensures told { StaysTold (D.told self.old.disk) (D.told self.new.disk) self.old.folder.0 self.old.log.log (op_made self.old.log.log (Follow number id)) }
        ensures any_moment { LeavesRecord D.told D.moment D.left_since self.old.disk self.new.disk self.old.folder.0 self.old.log.log (op_made self.old.log.log (Follow number id)) }
        ensures fails { IfErr result (FailsAs (self.new.disk ≡ self.old.disk) (self.new.log.log ≡ self.old.log.log) self.new.broken) }
        ensures cause { HasCause (D.faults self.old.disk) (D.faults self.new.disk) (IsErrOf result JournalFault.DiskFault) }
    {
        match self.log.look_follow(number, id) {
            Err(code) => Ok(Some(code)),
            Ok(Plan::Fresh { number: next }) => {
                self.append(alloc, next, id)?;
                Ok(None)
            }
            Ok(Plan::Again { .. }) => Ok(None),
        }
    }

    /// Records what is asked of a journal that isn't broken.
    fn keep(&mut self, alloc: Global, want: &Want) -> Result<Option<Refusal>, JournalFault>
        requires open { self.old.broken ≡ false }
        requires range { IsWant want.now }
        requires kept { IsKept want.now }
        ensures answer { IfOk result (λ r. r ≡ refusal_of self.old.log.log want.now) }
        ensures folder { (self.new.folder ≡ self.old.folder) × (self.new.role ≡ self.old.role) }
        ensures log { OnOk result (self.new.log.log ≡ log_after_made self.old.log.log (op_made self.old.log.log want.now)) }
        ensures untouched { op_made self.old.log.log want.now ≡ None → self.new.disk ≡ self.old.disk }
        ensures open { OnOk result (self.new.broken ≡ false) }
        ensures bytes { OnOk result (IsPut self.old.folder.0 self.old.gate (op_made self.old.log.log want.now) (D.told self.old.disk) (D.told self.new.disk)) }
        ensures kept { OnOk result (Records (D.told self.old.disk) (D.told self.new.disk) self.old.folder.0 self.old.log.log (op_made self.old.log.log want.now)) }
        ensures told { StaysTold (D.told self.old.disk) (D.told self.new.disk) self.old.folder.0 self.old.log.log (op_made self.old.log.log want.now) }
        ensures any_moment { LeavesRecord D.told D.moment D.left_since self.old.disk self.new.disk self.old.folder.0 self.old.log.log (op_made self.old.log.log want.now) }
        ensures fails { IfErr result (FailsAs (self.new.disk ≡ self.old.disk) (self.new.log.log ≡ self.old.log.log) self.new.broken) }
        ensures cause { HasCause (D.faults self.old.disk) (D.faults self.new.disk) (IsErrOf result JournalFault.DiskFault) }
    {
        match want {
            Want::Stage { entry } => self.stage(alloc, want, entry),
            Want::Order { id } => self.order(alloc, *id),
            Want::Follow { number, id } => self.follow(alloc, *number, *id),
            _ => unreachable!(),
        }
    }

    /// Records what a request to stage or to commit makes, or answers why it is refused. Once it has answered None, every
    /// crash leaves bytes that keep what was asked. After a fault of the disk the journal is broken.
    pub fn record(
        &mut self,
        alloc: Global,
        request: &Request,
    ) -> Result<Option<Refusal>, JournalFault>
        requires range { IsRequest request.now }
        requires folder { request.now.folder ≡ self.old.folder }
        requires kept { IsKept request.now.want }
        ensures answer { IfOk result (λ r. r ≡ refusal_of self.old.log.log request.now.want) }
        ensures folder { (self.new.folder ≡ self.old.folder) × (self.new.role ≡ self.old.role) }
        ensures log { OnOk result (self.new.log.log ≡ log_after_made self.old.log.log (op_made self.old.log.log request.now.want)) }
        // What makes nothing writes nothing.
        ensures untouched { op_made self.old.log.log request.now.want ≡ None → self.new.disk ≡ self.old.disk }
        ensures open { OnOk result (self.new.broken ≡ false) }
        // What makes an operation writes its frame and a shut gate behind the last gate, which it opens, and nothing else.
        ensures bytes { OnOk result (IsPut self.old.folder.0 self.old.gate (op_made self.old.log.log request.now.want) (D.told self.old.disk) (D.told self.new.disk)) }
        ensures kept { OnOk result (Records (D.told self.old.disk) (D.told self.new.disk) self.old.folder.0 self.old.log.log (op_made self.old.log.log request.now.want)) }
        // Once it has answered None, what a crash may leave has what was asked.
        ensures acknowledged { result ≡ Ok None → IsAcknowledged (D.told self.old.disk) (D.may_leave self.new.disk) self.old.folder.0 self.old.log.log request.now.want }
        ensures told { self.old.broken ≡ false → StaysTold (D.told self.old.disk) (D.told self.new.disk) self.old.folder.0 self.old.log.log (op_made self.old.log.log request.now.want) }
        // A crash at any moment of the call leaves what was kept before, with what the request makes or without it.
        ensures any_moment { self.old.broken ≡ false → LeavesRecord D.told D.moment D.left_since self.old.disk self.new.disk self.old.folder.0 self.old.log.log (op_made self.old.log.log request.now.want) }
        ensures fails { self.old.broken ≡ false → IfErr result (FailsAs (self.new.disk ≡ self.old.disk) (self.new.log.log ≡ self.old.log.log) self.new.broken) }
        // A broken journal writes nothing.
        ensures broken { self.old.broken ≡ true → IsErrOf result JournalFault.Broken × (self.new.disk ≡ self.old.disk) × (self.new.broken ≡ true) }
        ensures cause { HasCause (D.faults self.old.disk) (D.faults self.new.disk) (IsErrOf result JournalFault.DiskFault) }
    {
        if self.broken {
            return Err(JournalFault::Broken);
        }
        self.keep(alloc, &request.want)
    }

    /// The record at a gate of the list, and the next gate, or None at the last one. It writes nothing.
    pub fn op_at(
        &mut self,
        alloc: Global,
        gate: u64,
    ) -> Result<Option<(Request, u64)>, JournalFault>
        // What stands there, where the disk tells its bytes.
        ensures looks { (b : List ℕ) → D.told self.old.disk ≡ Some b → LooksAs self.old.folder.0 gate b result }
        // At a gate of a whole list: the list's next operation and the gate behind it, or that this gate is the last one.
        ensures walks { (b : List ℕ) (ops : List Op) → D.told self.old.disk ≡ Some b → (scan_of self.old.folder.0 self.old.log.log.role self.old.log.log.shape b).whole ≡ true → IsGate self.old.folder.0 self.old.log.log.role self.old.log.log.shape ops gate b → WalksAs self.old.folder.0 self.old.log.log.role self.old.log.log.shape ops b result }
        ensures range { IfOk result (λ found. IfSome found (λ r. IsRequest r.0 × (is_own self.old.folder.0 r.0 ≡ true) × (gate < r.1))) }
        ensures place { (at : ℕ) → IsErrOf result (JournalFault.Damaged at) → at ≡ gate }
        ensures not_broken { IsErrOf result JournalFault.Broken → ⊥ }
        ensures same { (self.new.folder ≡ self.old.folder) × (self.new.role ≡ self.old.role) × (self.new.log ≡ self.old.log) × (self.new.gate ≡ self.old.gate) × (self.new.broken ≡ self.old.broken) }
        ensures quiet { Quiet D.told D.may_leave D.moment D.left_since self.old.disk self.new.disk }
        ensures cause { HasCause (D.faults self.old.disk) (D.faults self.new.disk) (IsErrOf result JournalFault.DiskFault) }
    {
        let length = self.disk.length()?;
        look(alloc, &mut self.disk, self.folder, gate, length)
    }

    /// The folder that it was opened for.
    pub fn folder(&self) -> FolderId
        ensures { result ≡ self.now.folder }
    {
        self.folder
    }

    /// The role that it was opened with.
    pub fn role(&self) -> Side
        ensures value { result ≡ self.now.role }
        ensures log { result ≡ self.now.log.log.role }
    {
        self.role
    }

    /// The number of an id, where its update is committed.
    pub fn number_of(&self, id: UpdateId) -> Option<u32>
        ensures value { result ≡ number_of self.now.log.log.ids id }
        // It is the number at which the bytes of an honest disk say that the id was appended, or there is none.
        ensures appended { (b : List ℕ) → D.told self.now.disk ≡ Some b → self.now.broken ≡ false → (n : ℕ) → result ≡ Some n ↔ Has (Appends n id) (ops_of self.now.folder.0 self.now.log.log.role self.now.log.log.shape b) }
    {
        number_in(&self.log, id)
    }

    /// Makes the journal broken. It writes nothing.
    pub fn spoil(&mut self)
        ensures broken { self.new.broken ≡ true }
        ensures disk { self.new.disk ≡ self.old.disk }
        ensures folder { (self.new.folder ≡ self.old.folder) × (self.new.role ≡ self.old.role) }
        ensures log { self.new.log ≡ self.old.log }
    {
        self.broken = true;
    }

    /// The disk, of which another journal may be opened.
    pub fn into_disk(self) -> D
        ensures { result ≡ self.disk }
    {
        self.disk
    }
}

/// The place of the gate behind a record.
fn place_of(gate: u64, len: usize) -> u64
    ensures exact { gate + len < 2 ^ 63 → result ≡ gate + len }
    ensures few { result ≤ 2 ^ 63 }
{
    gate.saturating_add(len as u64).min(1 << 63)
}
