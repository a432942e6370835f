//! The log at values worked by hand, and at its full length.
ghost use Rattle.std.specs.Prelude.{◌≡◌, ◌≤◌, IfOk, IfSome};
ghost use Rattle.std.specs.Arc.{arc_value};
ghost use Rattle.dory_base.specs.Step.{IsSerial};

use crate::{FolderLog, Plan, StagePlan};
use dory_base::{
    Bits, Change, DocId, Entry, MemberId, NoMemory, Refusal, Shape, Side, Tag, Tags, UpdateId,
};
use std::alloc::Global;
use std::sync::Arc;
use std::test::*;

fn id(member: u32, serial: u64) -> UpdateId
    ensures { result ≡ record { member = record { 0 = member }; serial = serial } }
{
    UpdateId {
        member: MemberId(member),
        serial,
    }
}

/// A removal of a document.
fn removal(alloc: Global, member: u32, serial: u64, doc: u32) -> Result<Arc<Entry>, NoMemory>
    ensures { IfOk result (λ e. (arc_value e).id.serial ≡ serial) }
{
    let entry = Entry {
        id: id(member, serial),
        doc: DocId(doc),
        change: Change::Remove,
    };
    Ok(Arc::new(alloc, entry)?)
}

/// A post of a document, at depth 8, with one set cell.
fn post(
    alloc: Global,
    probes: u8,
    serial: u64,
    cell: u8,
    byte: u8,
) -> Result<Option<Arc<Entry>>, NoMemory>
    ensures { IfOk result (λ o. IfSome o (λ e. (arc_value e).id.serial ≡ serial)) }
{
    let Some(shape) = Shape::new(8, probes) else {
        return Ok(None);
    };
    let mut row = Bits::zero(alloc, 256)?;
    row.put(cell as usize, true);
    let tags = vec![in alloc; Tag([byte; 16]); 256]?;
    let entry = Entry {
        id: id(1, serial),
        doc: DocId(7),
        change: Change::Post {
            shape,
            row,
            tags: Tags::of(tags),
        },
    };
    Ok(Some(Arc::new(alloc, entry)?))
}

/// Stages an update as a caller does.
fn stage(
    log: &mut FolderLog,
    alloc: Global,
    entry: Arc<Entry>,
) -> Result<Result<StagePlan, Refusal>, NoMemory>
    requires { IsSerial (arc_value entry).id.serial }
{
    log.reserve(alloc)?;
    let plan = log.look_stage(&entry);
    if let Ok(StagePlan::New) = plan {
        log.put_staged(entry);
    }
    Ok(plan)
}

/// Orders an update as a caller does.
fn order(
    log: &mut FolderLog,
    alloc: Global,
    id: UpdateId,
) -> Result<Result<Plan, Refusal>, NoMemory> {
    log.reserve(alloc)?;
    let plan = log.look_order(id);
    if let Ok(Plan::Fresh { number }) = plan {
        log.put_commit(number, id);
    }
    Ok(plan)
}

/// Follows with an update as a caller does.
fn follow(
    log: &mut FolderLog,
    alloc: Global,
    number: u32,
    id: UpdateId,
) -> Result<Result<Plan, Refusal>, NoMemory>
    requires low { 1 ≤ number }
    requires high { number ≤ 1048576 }
{
    log.reserve(alloc)?;
    let plan = log.look_follow(number, id);
    if let Ok(Plan::Fresh { number }) = plan {
        log.put_commit(number, id);
    }
    Ok(plan)
}

#[test]
fn the_first_update_of_an_id_stays(rt: HostRuntime) -> Result<(), NoMemory> {
    let alloc = rt.alloc();
    let shape = Shape::new(8, 2).expect(&rt, "a shape in range");
    let mut log = FolderLog::new(alloc, Side::Lead, shape)?;
    let first = id(0, 1);
    for (doc, want) in [
        (7, Ok(StagePlan::New)),
        (8, Err(Refusal::Clash { id: first })),
        (7, Ok(StagePlan::Same)),
    ] {
        let found = stage(&mut log, alloc, removal(alloc, 0, 1, doc)?)?;
        assert_eq!(rt; found, want);
    }
    assert_eq!(rt;
        order(&mut log, alloc, first)?,
        Ok(Plan::Fresh { number: 1 })
    );
    for (member, want) in [
        (0, Ok(StagePlan::Done { number: 1 })),
        (
            64,
            Err(Refusal::BadMember {
                member: MemberId(64),
            }),
        ),
    ] {
        let found = stage(&mut log, alloc, removal(alloc, member, 1, 8)?)?;
        assert_eq!(rt; found, want);
    }
    Ok(())
}

#[test]
fn a_member_has_one_update_staged(rt: HostRuntime) -> Result<(), NoMemory> {
    let alloc = rt.alloc();
    let shape = Shape::new(8, 2).expect(&rt, "a shape in range");
    let mut log = FolderLog::new(alloc, Side::Lead, shape)?;
    for (serial, want) in [
        (5, Ok(StagePlan::New)),
        (4, Err(Refusal::Past { last: 5 })),
        (6, Err(Refusal::Unfinished { id: id(0, 5) })),
    ] {
        let found = stage(&mut log, alloc, removal(alloc, 0, serial, 8)?)?;
        assert_eq!(rt; found, want);
    }
    for (serial, want) in [
        (6, Err(Refusal::Unstaged { id: id(0, 6) })),
        (5, Ok(Plan::Fresh { number: 1 })),
        (5, Ok(Plan::Again { number: 1 })),
    ] {
        assert_eq!(rt; order(&mut log, alloc, id(0, serial))?, want);
    }
    let found = stage(&mut log, alloc, removal(alloc, 0, 4, 8)?)?;
    assert_eq!(rt; found, Err(Refusal::Past { last: 5 }));
    Ok(())
}

#[test]
fn a_staged_update_is_shown(rt: HostRuntime) -> Result<(), NoMemory> {
    let alloc = rt.alloc();
    let shape = Shape::new(8, 2).expect(&rt, "a shape in range");
    let mut log = FolderLog::new(alloc, Side::Lead, shape)?;
    stage(&mut log, alloc, removal(alloc, 0, 1, 7)?)?.ok();
    for (serial, want) in [(1, Some(DocId(7))), (2, None)] {
        let doc = log.staged(id(0, serial)).map(|entry| entry.doc);
        assert_eq!(rt; doc, want);
    }
    Ok(())
}

#[test]
fn posts_are_compared_whole(rt: HostRuntime) -> Result<(), NoMemory> {
    let alloc = rt.alloc();
    let shape = Shape::new(8, 2).expect(&rt, "a shape in range");
    let mut log = FolderLog::new(alloc, Side::Lead, shape)?;
    for (probes, cell, byte, want) in [
        (
            3,
            5,
            1,
            Err(Refusal::ShapeWrong {
                depth: 8,
                probes: 2,
            }),
        ),
        (2, 5, 1, Ok(StagePlan::New)),
        (2, 5, 1, Ok(StagePlan::Same)),
        (2, 6, 1, Err(Refusal::Clash { id: id(1, 1) })),
        (2, 5, 2, Err(Refusal::Clash { id: id(1, 1) })),
    ] {
        if let Some(entry) = post(alloc, probes, 1, cell, byte)? {
            let found = stage(&mut log, alloc, entry)?;
            assert_eq!(rt; found, want);
        }
    }
    Ok(())
}

#[test]
fn a_follower_takes_numbers_in_turn(rt: HostRuntime) -> Result<(), NoMemory> {
    let alloc = rt.alloc();
    let shape = Shape::new(8, 2).expect(&rt, "a shape in range");
    let mut log = FolderLog::new(alloc, Side::Follow, shape)?;
    let first = id(0, 1);
    let second = id(1, 1);
    stage(&mut log, alloc, removal(alloc, 0, 1, 7)?)?.ok();
    for (number, asked, want) in [
        (2, first, Err(Refusal::Gap { length: 0 })),
        (1, second, Err(Refusal::Unstaged { id: second })),
        (1, first, Ok(Plan::Fresh { number: 1 })),
        (1, first, Ok(Plan::Again { number: 1 })),
        (
            1,
            second,
            Err(Refusal::Taken {
                number: 1,
                id: first,
            }),
        ),
        (
            5,
            first,
            Err(Refusal::Taken {
                number: 1,
                id: first,
            }),
        ),
        (3, second, Err(Refusal::Gap { length: 1 })),
    ] {
        assert_eq!(rt; follow(&mut log, alloc, number, asked)?, want);
    }
    for (number, want) in [(1, Ok(first)), (2, Err(Refusal::NoEntry { length: 1 }))] {
        assert_eq!(rt; log.which(number), want);
    }
    Ok(())
}

#[test]
fn a_lead_orders_and_a_follower_follows(rt: HostRuntime) -> Result<(), NoMemory> {
    let alloc = rt.alloc();
    let shape = Shape::new(8, 2).expect(&rt, "a shape in range");
    for role in [Side::Lead, Side::Follow] {
        let mut log = FolderLog::new(alloc, role, shape)?;
        let refused = match role {
            Side::Lead => follow(&mut log, alloc, 1, id(0, 1))?,
            Side::Follow => order(&mut log, alloc, id(0, 1))?,
        };
        assert_eq!(rt; refused, Err(Refusal::WrongRole { role }));
    }
    Ok(())
}

/// A log to which 64 members have posted so many updates each.
fn filled(alloc: Global, shape: Shape, each: u64) -> Result<FolderLog, NoMemory>
    requires { each ≤ 16384 }
{
    let mut log = FolderLog::new(alloc, Side::Lead, shape)?;
    for serial in 1..=each {
        for member in 0..64 {
            stage(&mut log, alloc, removal(alloc, member, serial, 7)?)?.ok();
            order(&mut log, alloc, id(member, serial))?.ok();
        }
    }
    Ok(log)
}

#[test]
fn a_full_history_takes_no_more(rt: HostRuntime) -> Result<(), NoMemory> {
    let alloc = rt.alloc();
    let shape = Shape::new(8, 2).expect(&rt, "a shape in range");
    let mut log = filled(alloc, shape, 16_384)?;
    for (number, want) in [(1, id(0, 1)), (65, id(0, 2)), (1_048_576, id(63, 16_384))] {
        assert_eq!(rt; log.which(number), Ok(want));
        assert_eq!(rt; order(&mut log, alloc, want)?, Ok(Plan::Again { number }));
    }
    stage(&mut log, alloc, removal(alloc, 3, 16_385, 7)?)?.ok();
    assert_eq!(rt;
        order(&mut log, alloc, id(3, 16_385))?,
        Err(Refusal::HistoryFull)
    );
    assert_eq!(rt; log.length(), 1_048_576);
    Ok(())
}
