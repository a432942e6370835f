//! Messages whose bytes are known, and the first fault of bytes that are no message.
ghost use Rattle.std.specs.Prelude.{◌≤◌, IfOk, if◌then◌else◌};
ghost use Rattle.dory_dpf.specs.PointKey.{IsKeyOf};
ghost use Rattle.dory_wire.specs.Spelling.{IsId, IsRefusal, IsReply, IsRequest};

use super::*;
use dory_base::{
    AskId, Change, DocId, Entry, FolderId, MemberId, NoMemory, Refusal, Shape, Side, UpdateId,
};
use dory_dpf::{Key, Keys, gen_long, gen_short};
use std::alloc::Global;
use std::test::*;

const LATEST: [u8; 25] = [
    0, 0, 0, 0x15, 1, 0, 0, 0, 3, 0, 0, 0, 0, 0, 0, 0, 2, 0, 0, 0, 0, 0, 0, 0, 1,
];

const AT: [u8; 25] = [
    0, 0, 0, 0x15, 0x81, 0, 0, 0, 3, 0, 0, 0, 0, 0, 0, 0, 2, 0, 0, 0, 0, 0, 0, 0, 5,
];

// One line and two probes.
const FOUND: [u8; 80] = [
    0, 0, 0, 76, 0x82, 0, 0, 0, 3, 0, 0, 0, 0, 0, 0, 0, 2, 0, 0, 0, 0, // to the ask
    0, 0, 0, 6, 0, 1, // the version, and the count of lines
    0x0f, 0xff, 0, 0, 0, 7, 0, 0, 0, 1, 1, 2, 3, 4, 5, 6, 7, 8, // the line
    2, // the count of sums
    1, // the bits of probe 0, and its tag
    0xaa, 0xaa, 0xaa, 0xaa, 0xaa, 0xaa, 0xaa, 0xaa, 0xaa, 0xaa, 0xaa, 0xaa, 0xaa, 0xaa, 0xaa, 0xaa,
    0, // the bits of probe 1, and its tag
    0xbb, 0xbb, 0xbb, 0xbb, 0xbb, 0xbb, 0xbb, 0xbb, 0xbb, 0xbb, 0xbb, 0xbb, 0xbb, 0xbb, 0xbb, 0xbb,
];

// Which 1, ask 1.1.4.
const WHICH: [u8; 29] = [
    0, 0, 0, 0x19, 3, 0, 0, 0, 1, 0, 0, 0, 0, 0, 0, 0, 1, 0, 0, 0, 4, 0, 0, 0, 1, 0, 0, 0, 1,
];

// Stage of a removal of 7, id 0.2, ask 0.2.0.
const STAGE: [u8; 42] = [
    0, 0, 0, 0x26, 4, 0, 0, 0, 0, 0, 0, 0, 0, 0, 0, 0, 2, 0, 0, 0, 0, 0, 0, 0, 1, 0, 0, 0, 0, 0, 0,
    0, 0, 0, 0, 0, 2, 0, 0, 0, 7, 2,
];

// Order 1.1, ask 1.1.2.
const ORDER: [u8; 37] = [
    0, 0, 0, 0x21, 5, 0, 0, 0, 1, 0, 0, 0, 0, 0, 0, 0, 1, 0, 0, 0, 2, 0, 0, 0, 1, 0, 0, 0, 1, 0, 0,
    0, 0, 0, 0, 0, 1,
];

// Follow 2, id 1.1, ask 1.1.3.
const FOLLOW: [u8; 41] = [
    0, 0, 0, 0x25, 6, 0, 0, 0, 1, 0, 0, 0, 0, 0, 0, 0, 1, 0, 0, 0, 3, 0, 0, 0, 1, 0, 0, 0, 2, 0, 0,
    0, 1, 0, 0, 0, 0, 0, 0, 0, 1,
];

// Refused Gap 0 to it.
const GAP: [u8; 26] = [
    0, 0, 0, 0x16, 0x86, 0, 0, 0, 1, 0, 0, 0, 0, 0, 0, 0, 1, 0, 0, 0, 3, 0xa, 0, 0, 0, 0,
];

// At 0, ask 1.2.1.
const AT_0: [u8; 25] = [
    0, 0, 0, 0x15, 0x81, 0, 0, 0, 1, 0, 0, 0, 0, 0, 0, 0, 2, 0, 0, 0, 1, 0, 0, 0, 0,
];

// Committed 1 with 1.1, ask 1.1.2.
const COMMITTED: [u8; 37] = [
    0, 0, 0, 0x21, 0x85, 0, 0, 0, 1, 0, 0, 0, 0, 0, 0, 0, 1, 0, 0, 0, 2, 0, 0, 0, 1, 0, 0, 0, 1, 0,
    0, 0, 0, 0, 0, 0, 1,
];

// Staged 1.1, ask 1.1.2.
const STAGED: [u8; 33] = [
    0, 0, 0, 0x1d, 0x84, 0, 0, 0, 1, 0, 0, 0, 0, 0, 0, 0, 1, 0, 0, 0, 2, 0, 0, 0, 1, 0, 0, 0, 0, 0,
    0, 0, 1,
];

fn ask() -> AskId {
    AskId {
        member: MemberId(3),
        serial: 2,
        step: 0,
    }
}

#[test]
fn latest_is_these_bytes_both_ways(rt: HostRuntime) -> Result<(), Fail> {
    let request = Request {
        ask: ask(),
        folder: FolderId(1),
        want: Want::Latest,
    };
    let frame = encode_request(rt.alloc(), &request).ok().ok_or("a frame")?;
    assert_eq!(rt; frame.as_slice(), LATEST.as_slice());
    let message = whole_message(&LATEST).ok_or("a message")?;
    let read = decode_request(rt.alloc(), message).ok().ok_or("a request")?;
    assert_eq!(rt; read.ask, ask());
    assert_eq!(rt; read.folder, FolderId(1));
    assert!(rt; matches!(read.want, Want::Latest));
    Ok(())
}

#[test]
fn at_5_is_these_bytes_both_ways(rt: HostRuntime) -> Result<(), Fail> {
    let reply = Reply {
        ask: ask(),
        what: What::At { length: 5 },
    };
    let frame = encode_reply(rt.alloc(), &reply).ok().ok_or("a frame")?;
    assert_eq!(rt; frame.as_slice(), AT.as_slice());
    let message = whole_message(&AT).ok_or("a message")?;
    let read = decode_reply(rt.alloc(), message).ok().ok_or("a reply")?;
    assert_eq!(rt; read.ask, ask());
    assert!(rt; matches!(read.what, What::At { length: 5 }));
    Ok(())
}

// The lead's key for a column of a row of depth 8, whose trees begin with zeros.
fn key(short: bool, column: u8) -> Key
    ensures { IsKeyOf (if short then 2 else 1) 8 result }
{
    let shape = Shape::of(8, 2);
    let (lead, _) = if short {
        gen_short(shape, column as u16, [0; 16], [0; 16])
    } else {
        gen_long(shape, column as u16, [0; 16], [0; 16])
    };
    let _depth = lead.depth();
    lead
}

// A search at version 9 for columns 7 and 255.
fn search(alloc: Global, short: bool) -> Result<Request, NoMemory>
    ensures { IfOk result IsRequest }
{
    let mut keys = Vec::new(alloc);
    keys.push(key(short, 7))?;
    keys.push(key(short, 255))?;
    Ok(Request {
        ask: ask(),
        folder: FolderId(1),
        want: Want::Search {
            version: 9,
            shape: Shape::of(8, 2),
            keys: Keys::of(keys),
        },
    })
}

#[test]
fn a_search_is_read_back_in_both_forms(rt: HostRuntime) -> Result<(), Fail> {
    for (short, form, len) in [(true, 2, 130), (false, 1, 336)] {
        let request = search(rt.alloc(), short).ok().ok_or("memory")?;
        let frame = encode_request(rt.alloc(), &request).ok().ok_or("a frame")?;
        let message = whole_message(&frame).ok_or("a message")?;
        assert_eq!(rt; message.len(), len);
        assert_eq!(rt;
            message.get(21..28),
            Some([0, 0, 0, 9, 8, 2, form].as_slice())
        );
        let read = decode_request(rt.alloc(), message).ok().ok_or("a request")?;
        match read.want {
            Want::Search { version, keys, .. } => {
                assert_eq!(rt; version, 9);
                assert!(rt; keys.items().iter().all(|key| key.form() == form));
                assert!(rt; keys.items().len() == 2);
            }
            _ => return Err("a search is no other request".into()),
        }
    }
    Ok(())
}

#[test]
fn the_first_fault_is_named(rt: HostRuntime) -> Result<(), Fail> {
    let mut longer = [0u8; 22];
    longer[..21].copy_from_slice(&LATEST[4..]);
    assert!(rt;
        matches!(
            decode_request(rt.alloc(), &longer),
            Err(WireFault::Trailing { at: 21 })
        )
    );
    let mut search = [0u8; 30];
    search[0] = 2;
    search[25] = 12;
    assert!(rt;
        matches!(
            decode_request(rt.alloc(), &search),
            Err(WireFault::Body { at: 25 })
        )
    );
    assert!(rt;
        matches!(
            decode_request(rt.alloc(), &[0x7f]),
            Err(WireFault::Kind { b: 127 })
        )
    );
    assert!(rt;
        matches!(
            decode_reply(rt.alloc(), &[0x7f]),
            Err(WireFault::Kind { b: 127 })
        )
    );
    assert!(rt;
        matches!(
            decode_reply(rt.alloc(), &LATEST[4..]),
            Err(WireFault::Kind { b: 1 })
        )
    );
    assert!(rt;
        matches!(
            decode_request(rt.alloc(), &[]),
            Err(WireFault::Body { at: 0 })
        )
    );
    assert!(rt;
        matches!(
            decode_reply(rt.alloc(), &[]),
            Err(WireFault::Body { at: 0 })
        )
    );
    Ok(())
}

#[test]
fn a_fault_in_a_key_is_named_at_the_part_that_has_it(rt: HostRuntime) -> Result<(), Fail> {
    let request = search(rt.alloc(), true).ok().ok_or("memory")?;
    let frame = encode_request(rt.alloc(), &request).ok().ok_or("a frame")?;
    let message = whole_message(&frame).ok_or("a message")?;
    // The second key begins at 79, its correction at 97, and its last word at 114.
    for (place, byte) in [
        (27, 0xf1),
        (27, 3),
        (28, 9),
        (29, 2),
        (62, 4),
        (79, 11),
        (80, 128),
        (113, 255),
    ] {
        let mut bent = message.to_vec(rt.alloc()).ok().ok_or("memory")?;
        if let Some(b) = bent.get_mut(place) {
            *b = byte;
        }
        let fault = decode_request(rt.alloc(), &bent).err().ok_or("a fault")?;
        assert!(rt;
            matches!(fault, WireFault::Body { at } if at == place),
            "at {place}"
        );
    }
    for (len, place) in [
        (28, 28),
        (29, 29),
        (45, 30),
        (61, 46),
        (62, 62),
        (78, 63),
        (129, 114),
    ] {
        let cut = message.get(..len).ok_or("a front")?;
        let fault = decode_request(rt.alloc(), cut).err().ok_or("a fault")?;
        assert!(rt;
            matches!(fault, WireFault::Body { at } if at == place),
            "cut to {len}"
        );
    }
    Ok(())
}

#[test]
fn bytes_that_are_no_whole_frame_have_no_message(rt: HostRuntime) {
    assert!(rt; whole_message(&[]).is_none());
    assert!(rt; whole_message(&[0, 0, 0, 0]).is_none());
    assert!(rt; whole_message(&[0, 0, 0, 2, 1]).is_none());
    assert!(rt; whole_message(&[0, 0, 0, 1, 1, 1]).is_none());
}

#[test]
fn a_found_lies_in_its_frame_as_said(rt: HostRuntime) -> Result<(), Fail> {
    let mut frame = FOUND;
    let message = whole_message(&frame).ok_or("a message")?;
    let reply = match decode_reply(rt.alloc(), message) {
        Ok(reply) => reply,
        Err(_) => return Err("these bytes are a reply".into()),
    };
    match &reply.what {
        What::Found { found } => {
            assert_eq!(rt; found.version, 6);
            let serial = 0x0102_0304_0506_0708;
            assert!(rt;
                found
                    .manifest
                    .items()
                    .iter()
                    .all(|p| p.slot == 4095 && p.id.serial == serial)
            );
            assert_eq!(rt; found.manifest.items().len(), 1);
            let sums = found.sums.items();
            assert_eq!(rt; sums.len(), 2);
            assert_eq!(rt; sums.first().map(|s| s.tag.bytes()), Some([0xaa; 16]));
            assert_eq!(rt; sums.last().map(|s| s.tag.bytes()), Some([0xbb; 16]));
        }
        _ => return Err("a found is no other reply".into()),
    }
    let again = encode_reply(rt.alloc(), &reply).ok().ok_or("a frame")?;
    assert_eq!(rt; again.as_slice(), frame.as_slice());
    frame[63] = 2;
    let padded = whole_message(&frame).ok_or("a message")?;
    assert!(rt;
        matches!(
            decode_reply(rt.alloc(), padded),
            Err(WireFault::Body { at: 59 })
        )
    );
    Ok(())
}

fn by(member: u32, serial: u64, step: u32) -> AskId {
    AskId {
        member: MemberId(member),
        serial,
        step,
    }
}

fn update(member: u32, serial: u64) -> UpdateId
    requires { 1 ≤ serial }
    ensures { IsId result }
{
    UpdateId {
        member: MemberId(member),
        serial,
    }
}

// The request is written as this frame, and the frame is read and written again.
fn is_request(alloc: Global, request: &Request, frame: &[u8]) -> bool
    requires { IsRequest request.now }
{
    let Ok(written) = encode_request(alloc, request) else {
        return false;
    };
    written.as_slice() == frame && is_request_frame(alloc, frame)
}

fn is_request_frame(alloc: Global, frame: &[u8]) -> bool {
    let Some(message) = whole_message(frame) else {
        return false;
    };
    let Ok(read) = decode_request(alloc, message) else {
        return false;
    };
    match encode_request(alloc, &read) {
        Ok(again) => again.as_slice() == frame,
        Err(NoMemory) => false,
    }
}

fn is_reply(alloc: Global, reply: &Reply, frame: &[u8]) -> bool
    requires { IsReply reply.now }
{
    let Ok(written) = encode_reply(alloc, reply) else {
        return false;
    };
    let Some(message) = whole_message(frame) else {
        return false;
    };
    let Ok(read) = decode_reply(alloc, message) else {
        return false;
    };
    match encode_reply(alloc, &read) {
        Ok(again) => written.as_slice() == frame && again.as_slice() == frame,
        Err(NoMemory) => false,
    }
}

#[test]
fn each_request_of_the_update_log_is_these_bytes_both_ways(rt: HostRuntime) {
    let which = Request {
        ask: by(1, 1, 4),
        folder: FolderId(1),
        want: Want::Which { number: 1 },
    };
    assert!(rt; is_request(rt.alloc(), &which, &WHICH));
    let entry = Entry {
        id: update(0, 2),
        doc: DocId(7),
        change: Change::Remove,
    };
    let stage = Request {
        ask: by(0, 2, 0),
        folder: FolderId(1),
        want: Want::Stage { entry },
    };
    assert!(rt; is_request(rt.alloc(), &stage, &STAGE));
    let order = Request {
        ask: by(1, 1, 2),
        folder: FolderId(1),
        want: Want::Order { id: update(1, 1) },
    };
    assert!(rt; is_request(rt.alloc(), &order, &ORDER));
    let follow = Request {
        ask: by(1, 1, 3),
        folder: FolderId(1),
        want: Want::Follow {
            number: 2,
            id: update(1, 1),
        },
    };
    assert!(rt; is_request(rt.alloc(), &follow, &FOLLOW));
}

#[test]
fn each_reply_of_the_update_log_is_these_bytes_both_ways(rt: HostRuntime) {
    let gap = Reply {
        ask: by(1, 1, 3),
        what: What::Refused {
            code: Refusal::Gap { length: 0 },
        },
    };
    assert!(rt; is_reply(rt.alloc(), &gap, &GAP));
    let none = Reply {
        ask: by(1, 2, 1),
        what: What::At { length: 0 },
    };
    assert!(rt; is_reply(rt.alloc(), &none, &AT_0));
    let mut committed = COMMITTED;
    let what = What::Committed {
        number: 1,
        id: update(1, 1),
    };
    let reply = Reply {
        ask: by(1, 1, 2),
        what,
    };
    assert!(rt; is_reply(rt.alloc(), &reply, &committed));
    committed[4] = 0x83;
    let what = What::Id {
        number: 1,
        id: update(1, 1),
    };
    let reply = Reply {
        ask: by(1, 1, 2),
        what,
    };
    assert!(rt; is_reply(rt.alloc(), &reply, &committed));
    let what = What::Staged { id: update(1, 1) };
    let reply = Reply {
        ask: by(1, 1, 2),
        what,
    };
    assert!(rt; is_reply(rt.alloc(), &reply, &STAGED));
}

fn zeros(alloc: Global, n: usize) -> Result<Vec<u8>, NoMemory> {
    Ok(vec![in alloc; 0u8; n]?)
}

fn put(bytes: &mut [u8], at: usize, byte: u8) {
    if let Some(b) = bytes.get_mut(at) {
        *b = byte;
    }
}

#[test]
fn a_post_of_depth_8_takes_4168_bytes(rt: HostRuntime) -> Result<(), Fail> {
    let mut frame = zeros(rt.alloc(), 4172).ok().ok_or("memory")?;
    for (at, byte) in STAGE.iter().enumerate() {
        put(&mut frame, at, *byte);
    }
    put(&mut frame, 2, 0x10);
    put(&mut frame, 3, 0x48);
    put(&mut frame, 41, 1);
    put(&mut frame, 42, 8);
    put(&mut frame, 43, 2);
    put(&mut frame, 45, 2); // bit 9 of the row
    put(&mut frame, 75, 0x80); // bit 255
    put(&mut frame, 4171, 5); // the lowest byte of the last tag
    assert!(rt; is_request_frame(rt.alloc(), &frame));
    let message = whole_message(&frame).ok_or("a message")?;
    let read = decode_request(rt.alloc(), message).ok().ok_or("a request")?;
    let Want::Stage { entry } = &read.want else {
        return Err("a stage is no other request".into());
    };
    let Change::Post { row, tags, .. } = &entry.change else {
        return Err("a post is no removal".into());
    };
    assert_eq!(rt;
        row.words(),
        [0x200, 0, 0, 0x8000_0000_0000_0000].as_slice()
    );
    assert_eq!(rt; tags.items().len(), 256);
    assert_eq!(rt; tags.items().last().map(|t| t.bytes()[15]), Some(5));
    // One byte short: the last tag is the field that is cut short.
    assert!(rt;
        matches!(
            decode_request(rt.alloc(), message.get(..4167).ok_or("a part")?),
            Err(WireFault::Body { at: 4152 })
        )
    );
    Ok(())
}

// A message with one byte changed has its first fault at this place.
fn faults_at(alloc: Global, frame: &[u8], at: usize, byte: u8, place: usize) -> bool {
    let Ok(mut bytes) = frame.to_vec(alloc) else {
        return false;
    };
    put(&mut bytes, at, byte);
    let Some(message) = whole_message(&bytes) else {
        return false;
    };
    let is_asked = match message.first() {
        Some(kind) => *kind < 0x80,
        None => false,
    };
    let found = if is_asked {
        decode_request(alloc, message).err()
    } else {
        decode_reply(alloc, message).err()
    };
    match found {
        Some(WireFault::Body { at }) => at == place,
        _ => false,
    }
}

#[test]
fn a_number_a_serial_a_change_and_a_code_are_held_to_their_ranges(rt: HostRuntime) {
    assert!(rt; faults_at(rt.alloc(), &WHICH, 28, 0, 21));
    assert!(rt; faults_at(rt.alloc(), &WHICH, 26, 0x11, 21));
    assert!(rt; faults_at(rt.alloc(), &STAGE, 36, 0, 21));
    assert!(rt; faults_at(rt.alloc(), &STAGE, 41, 3, 37));
    assert!(rt; faults_at(rt.alloc(), &ORDER, 36, 0, 21));
    assert!(rt; faults_at(rt.alloc(), &FOLLOW, 28, 0, 21));
    assert!(rt; faults_at(rt.alloc(), &FOLLOW, 40, 0, 25));
    assert!(rt; faults_at(rt.alloc(), &COMMITTED, 24, 0, 17));
    assert!(rt; faults_at(rt.alloc(), &COMMITTED, 36, 0, 21));
    assert!(rt; faults_at(rt.alloc(), &STAGED, 32, 0, 17));
    assert!(rt; faults_at(rt.alloc(), &GAP, 21, 15, 17));
    assert!(rt; faults_at(rt.alloc(), &GAP, 23, 0x11, 18));
}

// Whether a refusal's message has so many bytes after the ask, and is read back.
fn is_refusal(alloc: Global, code: Refusal, len: usize) -> bool
    requires { IsRefusal code }
{
    let reply = Reply {
        ask: by(3, 2, 0),
        what: What::Refused { code },
    };
    let Ok(frame) = encode_reply(alloc, &reply) else {
        return false;
    };
    let Some(message) = whole_message(&frame) else {
        return false;
    };
    match decode_reply(alloc, message) {
        Ok(read) => match read.what {
            What::Refused { code: back } => back == code && message.len().saturating_sub(17) == len,
            _ => false,
        },
        Err(_) => false,
    }
}

#[test]
fn each_refusal_is_read_back(rt: HostRuntime) {
    let alloc = rt.alloc();
    let id = update(63, 1);
    let (depth, probes) = (8, 2);
    let (oldest, newest) = (0, 5);
    let member = MemberId(u32::MAX);
    assert!(rt; is_refusal(alloc, Refusal::NoFolder, 1));
    assert!(rt; is_refusal(alloc, Refusal::ShapeWrong { depth, probes }, 3));
    assert!(rt; is_refusal(alloc, Refusal::Unretained { oldest, newest }, 9));
    assert!(rt; is_refusal(alloc, Refusal::BadMember { member }, 5));
    assert!(rt; is_refusal(alloc, Refusal::Past { last: 0 }, 9));
    assert!(rt; is_refusal(alloc, Refusal::Clash { id }, 13));
    assert!(rt; is_refusal(alloc, Refusal::Unfinished { id }, 13));
    assert!(rt; is_refusal(alloc, Refusal::Unstaged { id }, 13));
}

#[test]
fn each_later_refusal_is_read_back(rt: HostRuntime) {
    let alloc = rt.alloc();
    let id = update(63, 1);
    let number = 1_048_576;
    let length = 1_048_576;
    assert!(rt; is_refusal(alloc, Refusal::Taken { number, id }, 17));
    assert!(rt; is_refusal(alloc, Refusal::Gap { length }, 5));
    assert!(rt; is_refusal(alloc, Refusal::WrongRole { role: Side::Lead }, 2));
    assert!(rt; is_refusal(alloc, Refusal::WrongRole { role: Side::Follow }, 2));
    assert!(rt; is_refusal(alloc, Refusal::HistoryFull, 1));
    assert!(rt; is_refusal(alloc, Refusal::NoEntry { length: 0 }, 5));
    assert!(rt; is_refusal(alloc, Refusal::NoMemory, 1));
}
