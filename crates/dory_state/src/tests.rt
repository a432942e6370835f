//! States whose bytes are known, and the first fault of bytes that are no state.
use super::*;
use dory_base::{DocId, FolderId, MemberId, Shape};
use std::alloc::{AllocError, Global};
use std::test::*;

// The state that begins: folder 1, member 0, depth 8, 2 probes, a master key of zeros, next serial 1, nothing seen, and
// nothing pending.
const FIRST: [u8; 63] = [
    0x64, 0x6f, 0x72, 0x79, 0x73, 0x74, 0x74, 0x31, 0, 0, 0, 1, 0, 0, 0, 0, 8, 2, // to the probes
    0, 0, 0, 0, 0, 0, 0, 0, 0, 0, 0, 0, 0, 0, 0, 0, 0, 0, 0, 0, 0, 0, 0, 0, 0, 0, 0, 0, 0, 0, 0, 0, // the master key
    0, 0, 0, 0, 0, 0, 0, 1, 0, 0, 0, 0, 0,
];

const SECOND: [u8; 67] = [
    0x64, 0x6f, 0x72, 0x79, 0x73, 0x74, 0x74, 0x32, 0, 0, 0, 1, 0, 0, 0, 0, 8, 2, // to the probes
    0, 0, 0, 0, 0, 0, 0, 0, 0, 0, 0, 0, 0, 0, 0, 0, 0, 0, 0, 0, 0, 0, 0, 0, 0, 0, 0, 0, 0, 0, 0, 0, // the master key
    0, 0, 0, 0, 0, 0, 0, 1, 0, 0, 0, 0, 0, 0, 0, 0, 0,
];

fn joined(alloc: Global, parts: &[&[u8]]) -> Result<Vec<u8>, AllocError> {
    let mut bytes = Vec::new(alloc);
    for part in parts {
        bytes.extend_from_slice(part)?;
    }
    Ok(bytes)
}

fn fault(alloc: Global, parts: &[&[u8]]) -> Result<Option<StateFault>, AllocError> {
    let bytes = joined(alloc, parts)?;
    match read_state(alloc, &bytes) {
        Ok(_) => Ok(None),
        Err(found) => Ok(Some(found)),
    }
}

#[test]
fn the_state_that_begins_has_these_bytes(rt: HostRuntime) -> Result<(), Fail> {
    let alloc = rt.alloc();
    let shape = Shape::new(8, 2).ok_or("a shape")?;
    let state = KeptState {
        folder: FolderId(1),
        member: MemberId(0),
        shape,
        master: [0; 32],
        next_serial: 1,
        seen: 0,
        used: 0,
        pending: None,
    };
    let bytes = write_state(alloc, &state).ok().ok_or("memory")?;
    assert_eq!(rt; bytes.as_slice(), SECOND.as_slice());
    let copy = state.copy(alloc).ok().ok_or("memory")?;
    let again = write_state(alloc, &copy).ok().ok_or("memory")?;
    assert_eq!(rt; again.as_slice(), SECOND.as_slice());
    Ok(())
}

#[test]
fn both_forms_are_read_and_the_second_is_written(rt: HostRuntime) -> Result<(), Fail> {
    let alloc = rt.alloc();
    for bytes in [FIRST.as_slice(), SECOND.as_slice()] {
        let state = read_state(alloc, bytes).ok().ok_or("a state")?;
        assert_eq!(rt; state.folder, FolderId(1));
        assert_eq!(rt; state.member, MemberId(0));
        assert_eq!(rt; state.shape.depth(), 8);
        assert_eq!(rt; state.shape.probes(), 2);
        assert_eq!(rt; state.master, [0; 32]);
        assert_eq!(rt; state.next_serial, 1);
        assert_eq!(rt; state.seen, 0);
        assert_eq!(rt; state.used, 0);
        assert!(rt; state.pending.is_none());
        let written = write_state(alloc, &state).ok().ok_or("memory")?;
        assert_eq!(rt; written.as_slice(), SECOND.as_slice());
    }
    Ok(())
}

#[test]
fn each_field_out_of_range_is_named_by_its_first_byte(rt: HostRuntime) -> Result<(), Fail> {
    let alloc = rt.alloc();
    for (at, field, after) in [
        (12usize, [0u8, 0, 0, 64].as_slice(), 16usize),
        (12, [1, 0, 0, 0].as_slice(), 16),
        (16, [7].as_slice(), 17),
        (16, [12].as_slice(), 17),
        (17, [0].as_slice(), 18),
        (17, [9].as_slice(), 18),
        (50, [0, 0, 0, 0, 0, 0, 0, 0].as_slice(), 58),
        (58, [0, 16, 0, 1].as_slice(), 62),
    ] {
        if at <= 63 && after <= 63 {
            let parts = [&FIRST[..at], field, &FIRST[after..]];
            assert_eq!(rt; fault(alloc, &parts)?, Some(StateFault::Field { at }));
            let parts = [&SECOND[..at], field, &SECOND[after..]];
            assert_eq!(rt; fault(alloc, &parts)?, Some(StateFault::Field { at }));
        }
    }
    let used = [&SECOND[..62], &[0, 1, 0, 1], &SECOND[66..]];
    assert_eq!(rt; fault(alloc, &used)?, Some(StateFault::Field { at: 62 }));
    let kind = [&SECOND[..66], [3u8].as_slice()];
    assert_eq!(rt; fault(alloc, &kind)?, Some(StateFault::Field { at: 66 }));
    let kind = [&FIRST[..62], [3u8].as_slice()];
    assert_eq!(rt; fault(alloc, &kind)?, Some(StateFault::Field { at: 62 }));
    Ok(())
}

#[test]
fn other_headers_and_lengths_are_refused(rt: HostRuntime) -> Result<(), Fail> {
    let alloc = rt.alloc();
    assert_eq!(rt; fault(alloc, &[])?, Some(StateFault::Header));
    assert_eq!(rt; fault(alloc, &[&SECOND[..7]])?, Some(StateFault::Header));
    let third = [&SECOND[..7], b"3".as_slice(), &SECOND[8..]];
    assert_eq!(rt; fault(alloc, &third)?, Some(StateFault::Header));
    for got in [8usize, 11, 17, 49, 57, 61, 65, 66] {
        if got <= 67 {
            assert_eq!(rt;
                fault(alloc, &[&SECOND[..got]])?,
                Some(StateFault::Length { got })
            );
        }
    }
    assert_eq!(rt;
        fault(alloc, &[&FIRST[..62]])?,
        Some(StateFault::Length { got: 62 })
    );
    let more = [SECOND.as_slice(), [0u8].as_slice()];
    assert_eq!(rt; fault(alloc, &more)?, Some(StateFault::Length { got: 68 }));
    let more = [FIRST.as_slice(), [0u8].as_slice()];
    assert_eq!(rt; fault(alloc, &more)?, Some(StateFault::Length { got: 64 }));
    Ok(())
}

#[test]
fn the_first_form_has_serials_of_the_first_epoch_and_the_first_after_it(
    rt: HostRuntime,
) -> Result<(), Fail> {
    let alloc = rt.alloc();
    let past = [1u8, 0, 0, 0, 0, 0, 0, 1];
    let parts = [&FIRST[..50], past.as_slice(), &FIRST[58..]];
    assert_eq!(rt; fault(alloc, &parts)?, Some(StateFault::Field { at: 50 }));
    let parts = [&SECOND[..50], past.as_slice(), &SECOND[58..]];
    assert_eq!(rt; fault(alloc, &parts)?, None);
    let last = [1u8, 0, 0, 0, 0, 0, 0, 0];
    let bytes = joined(alloc, &[&FIRST[..50], last.as_slice(), &FIRST[58..]])?;
    let state = read_state(alloc, &bytes).ok().ok_or("a state")?;
    assert_eq!(rt; state.next_serial, 72_057_594_037_927_936);
    assert_eq!(rt; state.used, 0);
    Ok(())
}

// Next serial 9, version 5 seen, and in the second form 3 posts used.
const COUNTS: [u8; 12] = [0, 0, 0, 0, 0, 0, 0, 9, 0, 0, 0, 5];

const USED: [u8; 4] = [0, 0, 0, 3];

// Update 8, of document 7.
const UPDATE: [u8; 12] = [0, 0, 0, 0, 0, 0, 0, 8, 0, 0, 0, 7];

/// The second form of a state of this depth, with an update of this kind and row.
fn with_pending(
    alloc: Global,
    depth: u8,
    kind: u8,
    update: &[u8],
    row: &[u8],
) -> Result<Vec<u8>, AllocError> {
    let shape = [depth, 2];
    let kind = [kind];
    joined(
        alloc,
        &[
            &SECOND[..16],
            shape.as_slice(),
            &SECOND[18..50],
            COUNTS.as_slice(),
            USED.as_slice(),
            kind.as_slice(),
            update,
            row,
        ],
    )
}

#[test]
fn posts_and_removals_that_are_pending_are_read_copied_and_written(
    rt: HostRuntime,
) -> Result<(), Fail> {
    let alloc = rt.alloc();
    let mut small = [0u8; 32];
    small[0] = 0x08;
    small[31] = 0x80;
    let mut large = [0u8; 256];
    large[0] = 0x08;
    large[255] = 0x80;
    for (depth, kind, row, columns, length) in [
        (8u8, 1u8, small.as_slice(), Some(256usize), 111usize),
        (11, 1, large.as_slice(), Some(2048), 335),
        (8, 2, [].as_slice(), None, 79),
        (11, 2, [].as_slice(), None, 79),
    ] {
        let bytes = with_pending(alloc, depth, kind, UPDATE.as_slice(), row)?;
        assert_eq!(rt; bytes.len(), length);
        let state = read_state(alloc, &bytes).ok().ok_or("a state")?;
        assert_eq!(rt; state.next_serial, 9);
        assert_eq!(rt; state.seen, 5);
        assert_eq!(rt; state.used, 3);
        let copy = state.copy(alloc).ok().ok_or("memory")?;
        let written = write_state(alloc, &copy).ok().ok_or("memory")?;
        assert_eq!(rt; written.as_slice(), bytes.as_slice());
        let update = state.pending.ok_or("an update")?;
        assert_eq!(rt; update.serial, 8);
        assert_eq!(rt; update.doc, DocId(7));
        let mut found = None;
        if let Some(cells) = update.row {
            found = Some(cells.len());
            for place in 0..cells.len() {
                assert_eq!(rt; cells.get(place), place == 3 || place + 1 == cells.len());
            }
        }
        assert_eq!(rt; found, columns);
    }
    Ok(())
}

#[test]
fn a_first_form_with_a_post_is_the_second_form_with_none_used(rt: HostRuntime) -> Result<(), Fail> {
    let alloc = rt.alloc();
    let row = [0xa5u8; 32];
    let post = [1u8];
    let none = [0u8; 4];
    let first = joined(
        alloc,
        &[
            &FIRST[..50],
            COUNTS.as_slice(),
            post.as_slice(),
            UPDATE.as_slice(),
            row.as_slice(),
        ],
    )?;
    let second = joined(
        alloc,
        &[
            &SECOND[..50],
            COUNTS.as_slice(),
            none.as_slice(),
            post.as_slice(),
            UPDATE.as_slice(),
            row.as_slice(),
        ],
    )?;
    let state = read_state(alloc, &first).ok().ok_or("a state")?;
    let written = write_state(alloc, &state).ok().ok_or("memory")?;
    assert_eq!(rt; written.as_slice(), second.as_slice());
    Ok(())
}

#[test]
fn a_pending_update_has_a_serial_below_the_next_and_a_whole_row(
    rt: HostRuntime,
) -> Result<(), Fail> {
    let alloc = rt.alloc();
    let row = [0u8; 33];
    let zero = [0u8, 0, 0, 0, 0, 0, 0, 0, 0, 0, 0, 7];
    let next = [0u8, 0, 0, 0, 0, 0, 0, 9, 0, 0, 0, 7];
    for (kind, update, row, wrong) in [
        (
            2u8,
            zero.as_slice(),
            [].as_slice(),
            StateFault::Field { at: 67 },
        ),
        (
            2,
            next.as_slice(),
            [].as_slice(),
            StateFault::Field { at: 67 },
        ),
        (
            1,
            next.as_slice(),
            [].as_slice(),
            StateFault::Field { at: 67 },
        ),
        (
            1,
            UPDATE.as_slice(),
            &row[..31],
            StateFault::Length { got: 110 },
        ),
        (
            1,
            UPDATE.as_slice(),
            row.as_slice(),
            StateFault::Length { got: 112 },
        ),
        (
            2,
            UPDATE.as_slice(),
            &row[..1],
            StateFault::Length { got: 80 },
        ),
        (
            0,
            UPDATE.as_slice(),
            [].as_slice(),
            StateFault::Length { got: 79 },
        ),
    ] {
        let bytes = with_pending(alloc, 8, kind, update, row)?;
        assert_eq!(rt; read_state(alloc, &bytes).err(), Some(wrong));
    }
    Ok(())
}
