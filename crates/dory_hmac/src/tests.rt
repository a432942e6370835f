//! The vectors of RFC 4231, long keys, messages in pieces, many messages under one key, and the keys
//! of a folder: values from outside, and that the forms of HMAC agree.

use crate::{FolderKeys, KeyedMac, Mac, mac};
use sha2::{Digest, Sha256};

// RFC 4231, case 1.
const HI_THERE: [u8; 32] = [
    0xb0, 0x34, 0x4c, 0x61, 0xd8, 0xdb, 0x38, 0x53, 0x5c, 0xa8, 0xaf, 0xce, 0xaf, 0x0b, 0xf1, 0x2b,
    0x88, 0x1d, 0xc2, 0x00, 0xc9, 0x83, 0x3d, 0xa7, 0x26, 0xe9, 0x37, 0x6c, 0x2e, 0x32, 0xcf, 0xf7,
];

// RFC 4231, case 2.
const JEFE: [u8; 32] = [
    0x5b, 0xdc, 0xc1, 0x46, 0xbf, 0x60, 0x75, 0x4e, 0x6a, 0x04, 0x24, 0x26, 0x08, 0x95, 0x75, 0xc7,
    0x5a, 0x00, 0x3f, 0x08, 0x9d, 0x27, 0x39, 0x83, 0x9d, 0xec, 0x58, 0xb9, 0x64, 0xec, 0x38, 0x43,
];

const QUESTION: &[u8] = b"what do ya want for nothing?";

#[test]
fn vectors_of_rfc_4231(rt: HostRuntime) {
    assert!(rt; mac(&[0x0b; 20], b"Hi There") == HI_THERE);
    assert!(rt; mac(b"Jefe", QUESTION) == JEFE);
    assert!(rt; KeyedMac::new(b"Jefe").tag(QUESTION) == JEFE);
}

#[test]
fn a_key_longer_than_a_block_stands_for_its_digest(rt: HostRuntime) {
    let key = [7u8; 65];
    assert!(rt; mac(&key, b"x") == mac(&Sha256::digest(&key), b"x"));
    assert!(rt; mac(&key[..64], b"x") != mac(&Sha256::digest(&key[..64]), b"x"));
}

#[test]
fn pieces_give_the_tag_of_the_joined_message(rt: HostRuntime) {
    let mut running = Mac::new(b"Jefe");
    for byte in QUESTION {
        running.update(&[*byte]);
    }
    assert!(rt; running.finish() == JEFE);
    let mut begun = KeyedMac::new(b"Jefe").begin();
    begun.update(b"what do ya want");
    begun.update(b"");
    begun.update(b" for nothing?");
    assert!(rt; begun.finish() == JEFE);
}

fn numbered<const N: usize>() -> [[u8; N]; 9] {
    let mut messages = [[0x61; N]; 9];
    for i in 0..9u8 {
        for byte in messages[i as usize].iter_mut().take(3) {
            *byte = i;
        }
    }
    messages
}

#[test]
fn tags_of_short_messages_are_those_one_by_one(rt: HostRuntime) {
    let keyed = KeyedMac::new(b"Jefe");
    let messages = numbered::<25>();
    for count in 0..10usize {
        let mut tags = [[0; 32]; 9];
        keyed.tags(&messages[..count], &mut tags[..count]);
        for i in 0..9usize {
            let expected = if i < count {
                mac(b"Jefe", &messages[i])
            } else {
                [0; 32]
            };
            assert!(rt; tags[i] == expected);
        }
    }
}

#[test]
fn tags_at_the_border_of_a_block_are_those_one_by_one(rt: HostRuntime) {
    let keyed = KeyedMac::new(b"Jefe");
    let longest = numbered::<55>();
    let longer = numbered::<56>();
    let mut tags = [[0; 32]; 9];
    keyed.tags(&longest, &mut tags);
    for i in 0..9usize {
        assert!(rt; tags[i] == keyed.tag(&longest[i]));
    }
    keyed.tags(&longer, &mut tags);
    for i in 0..9usize {
        assert!(rt; tags[i] == keyed.tag(&longer[i]));
    }
}

// A key that is kept in another struct and borrowed.
#[derive(Drop)]
struct Sealer {
    mask: KeyedMac,
    tag: KeyedMac,
}

fn sealed(sealer: &Sealer, cell: &[u8; 5]) -> [u8; 32] {
    let mut tag = [[0; 32]];
    sealer.tag.tags(&[sealer.mask.tag(cell)], &mut tag);
    tag[0]
}

#[test]
fn keys_of_a_folder_have_their_own_labels(rt: HostRuntime) {
    let keys = FolderKeys::derive(&[9; 32], 0x0102_0304);
    assert!(rt; keys.word == mac(&[9; 32], b"dory word\x01\x02\x03\x04"));
    assert!(rt; keys.mask == mac(&[9; 32], b"dory mask\x01\x02\x03\x04"));
    assert!(rt; keys.tag == mac(&[9; 32], b"dory tag\x01\x02\x03\x04"));
    let copied = keys;
    let sealer = Sealer {
        mask: KeyedMac::new(&keys.mask),
        tag: KeyedMac::new(&copied.tag),
    };
    assert!(rt; sealed(&sealer, b"cell1") == mac(&keys.tag, &mac(&keys.mask, b"cell1")));
}
