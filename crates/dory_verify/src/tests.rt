//! Pairs of replies, and what the checks find of them.
ghost use Rattle.std.specs.Prelude.{◌≤◌};

use super::*;
use dory_base::{AskId, Change, DocId, Entry, MemberId, Refusal, Shape, Side, Tag, UpdateId, Word};
use dory_bloom::plain_row;
use dory_dpf::{Key, eval_at};
use dory_hmac::FolderKeys;
use dory_query::Query;
use dory_seal::{cell_tag, seal_post};
use dory_wire::{Reply, What, encode_reply};
use std::alloc::Global;
use std::test::*;

// The lines of documents 7 and 8 at version 2, as an answer to the ask 0.2.0, with empty sums of two probes.
const FOUND: [u8; 98] = [
    0, 0, 0, 94, 0x82, 0, 0, 0, 0, 0, 0, 0, 0, 0, 0, 0, 2, 0, 0, 0, 0, // to the ask
    0, 0, 0, 2, 0, 2, // the version, and the count of lines
    0, 0, 0, 0, 0, 7, 0, 0, 0, 0, 0, 0, 0, 0, 0, 0, 0, 1, // the first line
    0, 1, 0, 0, 0, 8, 0, 0, 0, 0, 0, 0, 0, 0, 0, 0, 0, 2, // the second line
    2, // the count of sums
    0, 0, 0, 0, 0, 0, 0, 0, 0, 0, 0, 0, 0, 0, 0, 0, 0, // the bits of probe 0, and its tag
    0, 0, 0, 0, 0, 0, 0, 0, 0, 0, 0, 0, 0, 0, 0, 0, 0, // the bits of probe 1, and its tag
];

fn ask(step: u32) -> AskId {
    AskId {
        member: MemberId(0),
        serial: 2,
        step,
    }
}

fn update(serial: u64) -> UpdateId {
    UpdateId {
        member: MemberId(0),
        serial,
    }
}

fn at(rt: HostRuntime, step: u32, length: u32) -> Result<Vec<u8>, Fail>
    requires { length ≤ 1048576 }
{
    let reply = Reply {
        ask: ask(step),
        what: What::At { length },
    };
    Ok(encode_reply(rt.alloc(), &reply).ok().ok_or("a frame")?)
}

#[test]
fn two_lengths_are_given_or_the_first_fault_is(rt: HostRuntime) -> Result<(), Fail> {
    let alloc = rt.alloc();
    let asks = [ask(0), ask(0)];
    let one = at(rt, 0, 1)?;
    let two = at(rt, 0, 2)?;
    let three = at(rt, 0, 3)?;
    let other = at(rt, 1, 1)?;
    assert_eq!(rt; check_latest(alloc, 1, asks, &one, &two), Ok((1, 2)));
    assert_eq!(rt;
        check_latest(alloc, 0, asks, &one, &other),
        Err(VerifyError::Check(CheckFault::Echo {
            side: Side::Follow,
            asked: ask(0),
            got: ask(1),
        }))
    );
    assert_eq!(rt;
        check_latest(alloc, 0, asks, &[0, 0, 0], &other),
        Err(VerifyError::Check(CheckFault::Form {
            side: Side::Lead,
            at: 0
        }))
    );
    assert_eq!(rt;
        check_latest(alloc, 0, asks, &one, &FOUND),
        Err(VerifyError::Check(CheckFault::Form {
            side: Side::Follow,
            at: 4
        }))
    );
    assert_eq!(rt;
        check_latest(alloc, 3, asks, &three, &two),
        Err(VerifyError::Check(CheckFault::Stale {
            side: Side::Follow,
            latest: 2,
            seen: 3,
        }))
    );
    Ok(())
}

/// A folder with two sealed rows, and a search for the word of the first, with what both domains answer honestly.
#[derive(Drop)]
struct Setting {
    keys: FolderKeys,
    query: Query,
    lead: [u8; 98],
    follow: [u8; 98],
}

/// What a domain adds up of one entry: the parity of its selected cells, and the XOR of their tags.
#[derive(Drop)]
struct Added {
    parity: u8,
    tag: Tag,
}

fn sealed(
    alloc: Global,
    keys: &FolderKeys,
    shape: Shape,
    serial: u64,
    doc: u32,
    word: &[u8],
) -> Result<Entry, Fail> {
    let words = [Word::read(word)?];
    let row = plain_row(alloc, keys, shape, &words).ok().ok_or("a row")?;
    if row.len() == shape.columns() {
        let entry = seal_post(alloc, keys, shape, update(serial), DocId(doc), &row);
        Ok(entry.ok().ok_or("an entry")?)
    } else {
        Err("the row".into())
    }
}

fn sum_up(key: &Key, entry: &Entry) -> Added {
    let mut parity = 0;
    let mut sum = Tag::zero();
    if let Change::Post { row, tags, .. } = &entry.change {
        for column in 0..256u16 {
            if eval_at(key, column) {
                let place = column as usize;
                if place < row.len() && row.get(place) {
                    parity ^= 1;
                }
                if let Some(tag) = tags.items().get(place) {
                    sum = sum.xor(tag);
                }
            }
        }
    }
    Added { parity, tag: sum }
}

/// The frame of what a domain found under two keys.
fn found(step: u8, keys: &[Key], first: &Entry, second: &Entry) -> Result<[u8; 98], Fail> {
    let one = keys.first().ok_or("a key")?;
    let two = keys.get(1).ok_or("a key")?;
    let mut bytes = FOUND;
    bytes[20] = step;
    let (a, b) = (sum_up(one, first), sum_up(one, second));
    bytes[64] = a.parity | b.parity << 1;
    bytes[65..81].copy_from_slice(&a.tag.xor(&b.tag).bytes());
    let (a, b) = (sum_up(two, first), sum_up(two, second));
    bytes[81] = a.parity | b.parity << 1;
    bytes[82..].copy_from_slice(&a.tag.xor(&b.tag).bytes());
    Ok(bytes)
}

fn prepared(alloc: Global) -> Result<Setting, Fail> {
    let keys = FolderKeys::derive(&[7; 32], 1);
    let shape = Shape::new(8, 2).ok_or("shape")?;
    let first = sealed(alloc, &keys, shape, 1, 7, b"alpha")?;
    let second = sealed(alloc, &keys, shape, 2, 8, b"beta")?;
    let word = Word::read(b"alpha")?;
    let asks = [ask(0), ask(1)];
    let query = Query::make(alloc, &keys, shape, &word, 2, asks, &[5; 32]);
    let query = query.ok().ok_or("a query")?;
    let lead = found(0, query.lead_keys.items(), &first, &second)?;
    let follow = found(1, query.follow_keys.items(), &first, &second)?;
    Ok(Setting {
        keys,
        query,
        lead,
        follow,
    })
}

#[test]
fn two_honest_replies_list_the_documents_of_the_word(rt: HostRuntime) -> Result<(), Fail> {
    let s = prepared(rt.alloc())?;
    let answer = verify(rt.alloc(), &s.keys, &s.query, 2, &s.lead, &s.follow)
        .ok()
        .ok_or("an answer")?;
    assert_eq!(rt; answer.version, 2);
    assert_eq!(rt; answer.docs.items().len(), 1);
    assert_eq!(rt; answer.docs.items().first().map(|doc| doc.0), Some(7));
    Ok(())
}

/// The tag of probe 0 in a frame.
fn tag_in(frame: &[u8; 98]) -> Tag {
    let mut bytes = [0; 16];
    bytes.copy_from_slice(&frame[65..81]);
    Tag::of(bytes)
}

/// A frame whose tag of probe 0 is XORed with another.
fn shifted(frame: &[u8; 98], shift: &Tag) -> [u8; 98] {
    let mut bytes = *frame;
    let shift = shift.bytes();
    for i in 0..16 {
        bytes[65 + i] ^= shift[i];
    }
    bytes
}

#[test]
fn a_flipped_bit_is_seen_unless_the_tag_is_shifted_by_both_cell_tags(
    rt: HostRuntime,
) -> Result<(), Fail> {
    let s = prepared(rt.alloc())?;
    let mut follow = s.follow;
    follow[64] ^= 1;
    let doc = DocId(7);
    let both = cell_tag(&s.keys, doc, update(1), 2, false).xor(&cell_tag(
        &s.keys,
        doc,
        update(1),
        2,
        true,
    ));
    let got = tag_in(&s.lead).xor(&tag_in(&s.follow));
    assert_eq!(rt;
        verify(rt.alloc(), &s.keys, &s.query, 2, &s.lead, &follow).err(),
        Some(VerifyError::Check(CheckFault::TagSum {
            probe: 0,
            got,
            want: got.xor(&both),
        }))
    );
    // The forgery: nothing shows that document 7 was left out.
    let follow = shifted(&follow, &both);
    let answer = verify(rt.alloc(), &s.keys, &s.query, 2, &s.lead, &follow)
        .ok()
        .ok_or("an answer")?;
    assert_eq!(rt; answer.docs.items().len(), 0);
    Ok(())
}

/// A frame without its second sum.
fn front(frame: &[u8; 98]) -> &[u8] {
    &frame[..81]
}

#[test]
fn the_first_fault_of_a_search_is_named(rt: HostRuntime) -> Result<(), Fail> {
    let s = prepared(rt.alloc())?;
    // a byte of the follower's frame, what it becomes, what was seen, and the fault
    let rows = [
        (
            20usize,
            0u8,
            0u32,
            CheckFault::Echo {
                side: Side::Follow,
                asked: ask(1),
                got: ask(0),
            },
        ),
        (
            24,
            3,
            3,
            CheckFault::Version {
                side: Side::Follow,
                asked: 2,
                got: 3,
            },
        ),
        (
            44,
            3,
            3,
            CheckFault::Stale {
                side: Side::Lead,
                latest: 2,
                seen: 3,
            },
        ),
        (44, 3, 0, CheckFault::Manifest { place: 0 }),
        (50, 9, 0, CheckFault::Manifest { place: 1 }),
        (
            64,
            4,
            0,
            CheckFault::Form {
                side: Side::Follow,
                at: 64,
            },
        ),
    ];
    for (place, byte, seen, fault) in rows {
        let mut follow = s.follow;
        if place < follow.len() {
            follow[place] = byte;
        }
        assert_eq!(rt;
            verify(rt.alloc(), &s.keys, &s.query, seen, &s.lead, &follow).err(),
            Some(VerifyError::Check(fault))
        );
    }
    let mut short = s.follow;
    short[3] = 77;
    short[63] = 1;
    assert_eq!(rt;
        verify(rt.alloc(), &s.keys, &s.query, 0, &s.lead, front(&short)).err(),
        Some(VerifyError::Check(CheckFault::Count {
            side: Side::Follow,
            got: 1,
            want: 2,
        }))
    );
    Ok(())
}

#[test]
fn each_fault_has_its_text(rt: HostRuntime) -> Result<(), Fail> {
    let texts = [
        (
            CheckFault::Form {
                side: Side::Follow,
                at: 0,
            },
            "form follow 0",
        ),
        (
            CheckFault::Echo {
                side: Side::Follow,
                asked: ask(1),
                got: ask(0),
            },
            "echo follow 0.2.1 0.2.0",
        ),
        (
            CheckFault::Refused {
                side: Side::Lead,
                code: Refusal::Unretained {
                    oldest: 4,
                    newest: 5,
                },
            },
            "refused lead unretained 4 5",
        ),
        (
            CheckFault::Version {
                side: Side::Follow,
                asked: 1,
                got: 2,
            },
            "version follow 1 2",
        ),
        (
            CheckFault::Stale {
                side: Side::Follow,
                latest: 0,
                seen: 1,
            },
            "stale follow 0 1",
        ),
        (CheckFault::Manifest { place: 0 }, "manifest 0"),
        (
            CheckFault::Count {
                side: Side::Follow,
                got: 1,
                want: 2,
            },
            "count follow 1 2",
        ),
        (
            CheckFault::TagSum {
                probe: 0,
                got: Tag([0xa9; 16]),
                want: Tag::zero(),
            },
            "tagsum 0 a9a9a9a9a9a9a9a9a9a9a9a9a9a9a9a9 00000000000000000000000000000000",
        ),
    ];
    for (fault, text) in texts {
        let printed = format!(in rt.alloc(); "{fault}")?;
        assert_eq!(rt; printed.as_str(), text);
    }
    Ok(())
}
