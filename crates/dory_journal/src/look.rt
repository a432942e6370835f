//! What stands at a gate on a disk.
ghost use Rattle.std.specs.Prelude.{◌≡◌, ◌+◌, ◌<◌, ◌≤◌, ◌*◌, ◌∷◌, [], true, false, Some, None, Ok, Option, List, ℕ, IfOk, IfSome, IfNone, IfErr, IsErr, IsErrOf, length, length as length_all, drop, take};
ghost use Rattle.dory_io.specs.Causes.{HasCause};
ghost use Rattle.dory_wire.specs.Spelling.{IsRequest};
ghost use Rattle.dory_wire.specs.Reading.{request_of};
ghost use Rattle.std.specs.Int.{w32, from_be_bytes};
ghost use Rattle.dory_disk.specs.Disk.{IsWithin, ReadsAt};
ghost use Rattle.dory_journal.specs.Bytes.{op_of_request, is_own as is_own_of};
ghost use Rattle.dory_journal.specs.Ops.{op_of_want, has_op as op_is_there};
ghost use Rattle.dory_journal.specs.Reading.{LooksAs, FindsAs, IsReading};
ghost use Rattle.dory_journal.specs.Runs.{Quiet};

use crate::JournalFault;
use dory_base::{Failed, FolderId, NoMemory};
use dory_disk::Disk;
use dory_wire::{Request, Want, WireFault, decode_request};
use std::alloc::Global;

/// Whether it has the ask of a record, and is of this folder.
fn is_own(folder: FolderId, request: &Request) -> bool
    ensures { result ≡ is_own_of folder.0 request.now }
{
    let ask = &request.ask;
    ask.member.0 == 0 && ask.serial == 0 && ask.step == 0 && request.folder == folder
}

/// Whether it is an operation.
fn has_op(want: &Want) -> bool
    ensures { result ≡ op_is_there (op_of_want want.now) }
{
    match want {
        Want::Stage { .. } | Want::Follow { .. } => true,
        _ => false,
    }
}

/// Whether a record may have this request.
fn is_record(folder: FolderId, request: &Request) -> bool
    ensures yes { result ≡ true → op_of_request folder.0 (Ok request.now) ≡ op_of_want request.now.want }
    ensures own { result ≡ true → is_own_of folder.0 request.now ≡ true }
    ensures some { result ≡ true → op_is_there (op_of_want request.now.want) ≡ true }
    ensures no { result ≡ false → op_of_request folder.0 (Ok request.now) ≡ None }
{
    is_own(folder, request) && has_op(&request.want)
}

/// The request of a record's message, if a record may have it.
fn request_in(alloc: Global, folder: FolderId, message: &[u8]) -> Result<Option<Request>, NoMemory>
    ensures found { IfOk result (λ found. IfSome found (λ r. IsRequest r × (op_of_request folder.0 (request_of message.now) ≡ op_of_want r.want) × (op_is_there (op_of_want r.want) ≡ true) × (is_own_of folder.0 r ≡ true))) }
    ensures none { IfOk result (λ found. IfNone found (op_of_request folder.0 (request_of message.now) ≡ None)) }
{
    match decode_request(alloc, message) {
        Ok(request) => {
            if is_record(folder, &request) {
                Ok(Some(request))
            } else {
                Ok(None)
            }
        }
        Err(WireFault::NoMemory) => Err(NoMemory),
        Err(_) => Ok(None),
    }
}

/// Reads so many bytes.
fn read<D: Disk, const N: usize>(disk: &mut D, place: u64) -> Result<[u8; N], Failed>
    requires { IsWithin (D.told disk.old) (place + N) }
    ensures bytes { (b : List ℕ) → D.told disk.old ≡ Some b → IfOk result (λ bytes. bytes ≡ take N (drop place b)) }
    ensures quiet { Quiet D.told D.may_leave D.moment D.left_since disk.old disk.new }
    ensures cause { HasCause (D.faults disk.old) (D.faults disk.new) (IsErr result) }
{
    let mut bytes = [0; N];
    disk.read_at(place, &mut bytes)?;
    Ok(bytes)
}

/// Reads a message of so many bytes.
fn read_message<D: Disk>(
    alloc: Global,
    disk: &mut D,
    place: u64,
    len: usize,
) -> Result<Vec<u8>, JournalFault>
    requires { IsWithin (D.told disk.old) (place + len) }
    ensures bytes { (b : List ℕ) → D.told disk.old ≡ Some b → IfOk result (λ bytes. bytes.items ≡ take len (drop place b)) }
    ensures quiet { Quiet D.told D.may_leave D.moment D.left_since disk.old disk.new }
    ensures cause { HasCause (D.faults disk.old) (D.faults disk.new) (IsErrOf result JournalFault.DiskFault) }
    ensures faults { IfErr result (λ fault. IsReading fault) }
    ensures undamaged { (at : ℕ) → IsErrOf result (JournalFault.Damaged at) → ⊥ }
    ensures not_broken { IsErrOf result JournalFault.Broken → ⊥ }
{
    let mut bytes = vec![in alloc; 0; len]?;
    disk.read_at(place, &mut bytes)?;
    Ok(bytes)
}

/// The length of a message, in the four bytes before it.
fn length_of(size: [u8; 4]) -> u32
    ensures { result ≡ from_be_bytes w32 size }
{
    u32::from_be_bytes(size)
}

/// The record behind an open gate, and the place of the next gate.
fn record_behind<D: Disk>(
    alloc: Global,
    disk: &mut D,
    folder: FolderId,
    gate: u64,
    length: u64,
) -> Result<Option<(Request, u64)>, JournalFault>
    requires length { (b : List ℕ) → D.told disk.old ≡ Some b → length ≡ length_all b }
    requires within { gate < length }
    ensures found { (b : List ℕ) → D.told disk.old ≡ Some b → FindsAs folder.0 gate b result }
    ensures next { IfOk result (λ found. IfSome found (λ r. (gate < r.1) × (r.1 ≤ length) × IsRequest r.0 × (is_own_of folder.0 r.0 ≡ true))) }
    ensures quiet { Quiet D.told D.may_leave D.moment D.left_since disk.old disk.new }
    ensures cause { HasCause (D.faults disk.old) (D.faults disk.new) (IsErrOf result JournalFault.DiskFault) }
    ensures undamaged { (at : ℕ) → IsErrOf result (JournalFault.Damaged at) → ⊥ }
    ensures not_broken { IsErrOf result JournalFault.Broken → ⊥ }
{
    let rest = length - gate - 1;
    if rest < 4 {
        return Ok(None);
    }
    let n = length_of(read(disk, gate + 1)?);
    if n < 1 || n > 1_048_576 || (n as u64) > rest - 4 {
        return Ok(None);
    }
    let message = read_message(alloc, disk, gate + 5, n as usize)?;
    match request_in(alloc, folder, &message)? {
        None => Ok(None),
        Some(request) => Ok(Some((request, gate + 5 + n as u64))),
    }
}

/// What stands at a gate: nothing where it is shut, or the record behind it and the place of the next gate.
pub fn look<D: Disk>(
    alloc: Global,
    disk: &mut D,
    folder: FolderId,
    gate: u64,
    length: u64,
) -> Result<Option<(Request, u64)>, JournalFault>
    requires length { (b : List ℕ) → D.told disk.old ≡ Some b → length ≡ length_all b }
    ensures looks { (b : List ℕ) → D.told disk.old ≡ Some b → LooksAs folder.0 gate b result }
    ensures next { IfOk result (λ found. IfSome found (λ r. (gate < r.1) × (r.1 ≤ length) × IsRequest r.0 × (is_own_of folder.0 r.0 ≡ true))) }
    ensures quiet { Quiet D.told D.may_leave D.moment D.left_since disk.old disk.new }
    ensures cause { HasCause (D.faults disk.old) (D.faults disk.new) (IsErrOf result JournalFault.DiskFault) }
    ensures place { (at : ℕ) → IsErrOf result (JournalFault.Damaged at) → at ≡ gate }
    ensures not_broken { IsErrOf result JournalFault.Broken → ⊥ }
{
    if gate >= length {
        return Err(JournalFault::Damaged { at: gate });
    }
    let bytes: [u8; 1] = read(disk, gate)?;
    if bytes[0] != 1 {
        return Ok(None);
    }
    match record_behind(alloc, disk, folder, gate, length)? {
        None => Err(JournalFault::Damaged { at: gate }),
        Some(record) => Ok(Some(record)),
    }
}
