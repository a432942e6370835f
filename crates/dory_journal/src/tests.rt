//! A journal over a disk in memory: its bytes, a stop after each call, torn writes, and what is no journal of this folder.
ghost use Rattle.std.specs.Prelude.{◌≡◌, ◌≤◌};
ghost use Rattle.dory_wire.specs.Spelling.{IsId, IsWant};
ghost use Rattle.dory_journal.specs.Made.{IsKept};

use super::*;
use dory_base::{AskId, Change, DocId, Entry, FolderId, MemberId, Shape, Side, UpdateId};
use dory_disk::{Disk, MemDisk};
use dory_wire::{Request, Want};
use std::alloc::{AllocError, Global};
use std::test::Fail;

/// How many calls, and bytes written, a disk of these tests has room for.
const ROOM: usize = 4000;

fn id(member: u32, serial: u64) -> UpdateId
    requires { 1 ≤ serial }
    ensures { IsId result }
{
    UpdateId {
        member: MemberId(member),
        serial,
    }
}

fn removal(member: u32, serial: u64, doc: u32) -> Want
    requires { 1 ≤ serial }
    ensures range { IsWant result }
    ensures kept { IsKept result }
{
    Want::Stage {
        entry: Entry {
            id: id(member, serial),
            doc: DocId(doc),
            change: Change::Remove,
        },
    }
}

/// What commits an update: a lead orders it, and a follower follows with its number.
fn commit(role: Side, number: u32, member: u32, serial: u64) -> Want
    requires number { (1 ≤ number) × (number ≤ 1048576) }
    requires serial { 1 ≤ serial }
    ensures range { IsWant result }
    ensures kept { IsKept result }
{
    let id = id(member, serial);
    match role {
        Side::Lead => Want::Order { id },
        Side::Follow => Want::Follow { number, id },
    }
}

/// The requests of a run, one after the other. The first two are the removal of 7 and its commit.
fn wanted(role: Side, step: u32) -> Want
    ensures range { IsWant result }
    ensures kept { IsKept result }
{
    match step {
        0 => removal(0, 2, 7),
        1 => commit(role, 1, 0, 2),
        2 => removal(1, 5, 9),
        3 => removal(2, 1, 9),
        4 => commit(role, 2, 2, 1),
        _ => commit(role, 3, 1, 5),
    }
}

/// Records the first requests of the run, up to a fault, and answers how many there were.
fn play(alloc: Global, journal: &mut Journal<MemDisk>, steps: u32) -> u32 {
    let mut done: u32 = 0;
    for step in 0..steps {
        let request = Request {
            ask: AskId {
                member: MemberId(3),
                serial: 4,
                step: 5,
            },
            folder: journal.folder(),
            want: wanted(journal.role(), step),
        };
        if journal.record(alloc, &request).is_err() {
            return done;
        }
        done = done.saturating_add(1);
    }
    done
}

fn shape() -> Result<Shape, Fail> {
    match Shape::new(8, 2) {
        Some(shape) => Ok(shape),
        None => Err(Fail::from(AllocError)),
    }
}

/// A disk with these bytes, whose listed calls fail, the third on being the first of the test.
fn disk_of(alloc: Global, bytes: &[u8], fails: &[u64]) -> Result<MemDisk, Fail> {
    let Ok(mut disk) = MemDisk::new(alloc, ROOM, fails) else {
        return Err(Fail::from(AllocError));
    };
    if disk.write_at(0, bytes).is_err() || disk.sync().is_err() {
        return Err(Fail::from(AllocError));
    }
    Ok(disk)
}

fn opened(
    alloc: Global,
    disk: MemDisk,
    folder: u32,
    role: Side,
) -> Result<Result<Journal<MemDisk>, Unopened<MemDisk>>, Fail> {
    Ok(Journal::open(alloc, disk, FolderId(folder), role, shape()?))
}

/// How many operations the bytes keep, read gate by gate, or none where they can't be opened.
fn operations(alloc: Global, bytes: &[u8], role: Side) -> Result<Option<u32>, Fail> {
    let Ok(mut journal) = opened(alloc, disk_of(alloc, bytes, &[])?, 1, role)? else {
        return Ok(None);
    };
    let mut gate = 0;
    for n in 0..64u32 {
        match journal.op_at(alloc, gate) {
            Ok(Some((_, next))) => gate = next,
            Ok(None) => return Ok(Some(n)),
            Err(_) => return Ok(None),
        }
    }
    Ok(None)
}

/// The bytes after the run was stopped behind so many calls, and how many of its requests were acknowledged.
fn stopped_after(alloc: Global, role: Side, calls: u64) -> Result<(Vec<u8>, u32), Fail> {
    let mut fails = Vec::new(alloc);
    for call in 0..60u64 {
        fails.push(calls.saturating_add(3).saturating_add(call))?;
    }
    match opened(alloc, disk_of(alloc, &[0], &fails)?, 1, role)? {
        Ok(mut journal) => {
            let done = play(alloc, &mut journal, 6);
            Ok((journal.into_disk().bytes().to_vec(alloc)?, done))
        }
        Err(unopened) => Ok((unopened.disk.bytes().to_vec(alloc)?, 0)),
    }
}

/// The first place at which the two differ, or at which one has ended.
fn first_difference(before: &[u8], after: &[u8]) -> usize {
    let mut at: usize = 0;
    for (a, b) in before.iter().zip(after.iter()) {
        if a != b {
            return at;
        }
        at = at.saturating_add(1);
    }
    at
}

/// What a crash may leave of a write from one place to another: the bytes after it, or others, and from there on those before it.
fn torn(
    alloc: Global,
    before: &[u8],
    after: &[u8],
    places: (usize, usize),
    fill: Option<u8>,
) -> Result<Vec<u8>, Fail> {
    let (from, to) = places;
    let mut bytes = Vec::new(alloc);
    for (place, byte) in after.iter().enumerate() {
        if place < to {
            bytes.push(match fill {
                Some(other) if place >= from => other,
                _ => *byte,
            })?;
        }
    }
    for (place, byte) in before.iter().enumerate() {
        if place >= to {
            bytes.push(*byte)?;
        }
    }
    Ok(bytes)
}

/// Whether each image of a write that a crash tears has the operations before it or those after it, and all that were acknowledged.
fn survives(alloc: Global, role: Side, calls: u64) -> Result<bool, Fail> {
    let (before, acknowledged) = stopped_after(alloc, role, calls)?;
    let (after, _) = stopped_after(alloc, role, calls.saturating_add(1))?;
    let (Some(fewer), Some(more)) = (
        operations(alloc, &before, role)?,
        operations(alloc, &after, role)?,
    ) else {
        return Ok(false);
    };
    if fewer < acknowledged || more > fewer.saturating_add(1) {
        return Ok(false);
    }
    let from = first_difference(&before, &after);
    for to in from..after.len() {
        for fill in [None, Some(0), Some(255)] {
            let image = torn(alloc, &before, &after, (from, to.saturating_add(1)), fill)?;
            match operations(alloc, &image, role)? {
                Some(n) if n == fewer || n == more => {}
                _ => return Ok(false),
            }
        }
    }
    Ok(true)
}

#[test]
fn a_staging_and_its_order_take_86_bytes(rt: HostRuntime) -> Result<(), Fail> {
    let alloc = rt.alloc();
    let Ok(mut journal) = opened(alloc, disk_of(alloc, &[0], &[])?, 1, Side::Lead)? else {
        return Err(Fail::from(AllocError));
    };
    assert_eq!(rt; play(alloc, &mut journal, 2), 2);
    assert!(rt; journal.folder() == FolderId(1) && journal.role() == Side::Lead);
    assert_eq!(rt; journal.number_of(id(0, 2)), Some(1));
    assert_eq!(rt; journal.number_of(id(1, 5)), None);
    let disk = journal.into_disk();
    assert_eq!(rt; disk.bytes().len(), 86);
    let gates = (
        disk.bytes().first().copied(),
        disk.bytes().get(43).copied(),
        disk.bytes().last().copied(),
    );
    assert_eq!(rt; gates, (Some(1), Some(1), Some(0)));
    Ok(())
}

#[test]
fn a_stop_keeps_the_second_record_or_not(rt: HostRuntime) -> Result<(), Fail> {
    let alloc = rt.alloc();
    // To open takes three calls, and a record four.
    for (calls, kept) in [(7, 1), (8, 1), (9, 1), (10, 2), (11, 2)] {
        let (bytes, _) = stopped_after(alloc, Side::Lead, calls)?;
        assert_eq!(rt; operations(alloc, &bytes, Side::Lead)?, Some(kept));
    }
    Ok(())
}

#[test]
fn each_torn_write_keeps_the_operations_with_the_new_one_or_without(
    rt: HostRuntime,
) -> Result<(), Fail> {
    let alloc = rt.alloc();
    for role in [Side::Lead, Side::Follow] {
        for calls in 0..28u64 {
            assert!(rt; survives(alloc, role, calls)?);
        }
        let (bytes, acknowledged) = stopped_after(alloc, role, 27)?;
        assert_eq!(rt; acknowledged, 6);
        assert_eq!(rt; operations(alloc, &bytes, role)?, Some(6));
    }
    Ok(())
}

#[test]
fn damage_is_named_by_its_gate(rt: HostRuntime) -> Result<(), Fail> {
    let alloc = rt.alloc();
    let (bytes, _) = stopped_after(alloc, Side::Lead, 11)?;
    let no_bytes: &[u8] = &[];
    let cut = torn(alloc, no_bytes, &bytes, (0, 60), None)?;
    let no_gate = torn(alloc, no_bytes, &bytes, (0, 85), None)?;
    let open_gate = [1u8];
    let cases = [
        (open_gate.as_slice(), 1, 0),
        (cut.as_slice(), 1, 43),
        (no_gate.as_slice(), 1, 85),
        (bytes.as_slice(), 2, 0),
    ];
    for (image, folder, at) in cases {
        let fault = match opened(alloc, disk_of(alloc, image, &[])?, folder, Side::Lead)? {
            Ok(_) => None,
            Err(unopened) => Some(unopened.fault),
        };
        assert_eq!(rt; fault, Some(JournalFault::Damaged { at }));
    }
    Ok(())
}

#[test]
fn a_record_that_failed_breaks_the_journal(rt: HostRuntime) -> Result<(), Fail> {
    let alloc = rt.alloc();
    // The ninth call is the second sync of the first record.
    let Ok(mut journal) = opened(alloc, disk_of(alloc, &[0], &[9])?, 1, Side::Lead)? else {
        return Err(Fail::from(AllocError));
    };
    let mut staging = Request {
        ask: AskId {
            member: MemberId(0),
            serial: 2,
            step: 0,
        },
        folder: journal.folder(),
        want: wanted(Side::Lead, 0),
    };
    assert!(rt; journal.record(alloc, &staging) == Err(JournalFault::DiskFault));
    staging.folder = journal.folder();
    assert!(rt; journal.record(alloc, &staging) == Err(JournalFault::Broken));
    // The bytes have it, since the write before that sync was done.
    let bytes = journal.into_disk().bytes().to_vec(alloc)?;
    assert_eq!(rt; operations(alloc, &bytes, Side::Lead)?, Some(1));
    Ok(())
}

#[test]
fn a_spoiled_journal_takes_no_record(rt: HostRuntime) -> Result<(), Fail> {
    let alloc = rt.alloc();
    let Ok(mut journal) = opened(alloc, disk_of(alloc, &[0], &[])?, 1, Side::Follow)? else {
        return Err(Fail::from(AllocError));
    };
    assert_eq!(rt; play(alloc, &mut journal, 3), 3);
    journal.spoil();
    assert_eq!(rt; play(alloc, &mut journal, 1), 0);
    assert_eq!(rt; journal.number_of(id(0, 2)), Some(1));
    assert!(rt;
        matches!(
            journal.op_at(alloc, 1),
            Err(JournalFault::Damaged { at: 1 }) | Ok(None)
        )
    );
    Ok(())
}
