//! Values of an independent program, the faults of bytes, and that each call answers.

ghost use Rattle.std.specs.Prelude.{◌<◌};

use crate::{Key, KeyFault, Keys, double, eval_at, gen_long, gen_short, stream_words};
use dory_base::Shape;
use std::alloc::Global;

const ZERO: [u8; 16] = [0; 16];

const LOW: [u8; 16] = [
    0x00, 0x01, 0x02, 0x03, 0x04, 0x05, 0x06, 0x07, 0x08, 0x09, 0x0a, 0x0b, 0x0c, 0x0d, 0x0e, 0x0f,
];

const HIGH: [u8; 16] = [
    0x10, 0x11, 0x12, 0x13, 0x14, 0x15, 0x16, 0x17, 0x18, 0x19, 0x1a, 0x1b, 0x1c, 0x1d, 0x1e, 0x1f,
];

// The key of party 0 for position 201 at depth 8 in form 1, with the seeds LOW and HIGH.
const LONG: [u8; 154] = [
    0x08, 0x00, 0x00, 0x01, 0x02, 0x03, 0x04, 0x05, 0x06, 0x07, 0x08, 0x09, 0x0a, 0x0b, 0x0c, 0x0d,
    0x0e, 0x0f, 0xe8, 0xad, 0x2a, 0xa8, 0xc7, 0x04, 0x3c, 0x01, 0x38, 0x35, 0x2a, 0xd6, 0x76, 0x9c,
    0x93, 0x82, 0x02, 0x41, 0xe9, 0x26, 0xda, 0x50, 0x03, 0x7e, 0xc2, 0x77, 0x2d, 0x6e, 0x8e, 0x60,
    0x44, 0x39, 0xe3, 0x03, 0x7f, 0x50, 0x74, 0xd4, 0xa7, 0xdb, 0x90, 0x67, 0x8e, 0xf7, 0xe7, 0xb1,
    0x18, 0xc6, 0xe3, 0xd3, 0x00, 0xd5, 0xd8, 0x87, 0x7f, 0x29, 0xc7, 0x9d, 0xd3, 0xb5, 0x02, 0xc7,
    0x22, 0x52, 0x08, 0xdd, 0xf0, 0x02, 0x49, 0xe5, 0x0b, 0x65, 0xb5, 0xd5, 0x39, 0xc4, 0x6e, 0x15,
    0xed, 0xda, 0x28, 0x48, 0x20, 0x8a, 0x03, 0x3f, 0x47, 0x49, 0x37, 0xa1, 0x24, 0x2d, 0xbe, 0x67,
    0x37, 0x94, 0xdf, 0x81, 0x44, 0x71, 0x6c, 0x02, 0x74, 0xa8, 0xfd, 0x64, 0x55, 0xae, 0x93, 0xc5,
    0x24, 0xd4, 0x83, 0xae, 0x76, 0xa3, 0xbc, 0x2d, 0x00, 0xed, 0x16, 0xd1, 0x59, 0x48, 0x3d, 0xa8,
    0xa1, 0xd5, 0xac, 0x36, 0x31, 0xb3, 0x08, 0x74, 0xe2, 0x02,
];

// The key of party 1 for position 300 at depth 9 in form 2, with the same seeds.
const SHORT: [u8; 68] = [
    0x09, 0x01, 0x10, 0x11, 0x12, 0x13, 0x14, 0x15, 0x16, 0x17, 0x18, 0x19, 0x1a, 0x1b, 0x1c, 0x1d,
    0x1e, 0x1f, 0xe8, 0xad, 0x2a, 0xa8, 0xc7, 0x04, 0x3c, 0x01, 0x38, 0x35, 0x2a, 0xd6, 0x76, 0x9c,
    0x93, 0x82, 0x02, 0x76, 0x26, 0x23, 0x24, 0xc8, 0x2c, 0x18, 0x92, 0xb8, 0x94, 0x75, 0x79, 0xbf,
    0x60, 0x82, 0xf2, 0x00, 0x37, 0xcf, 0x05, 0xfe, 0x98, 0x3f, 0x66, 0x50, 0xcf, 0xb9, 0x1b, 0xf7,
    0xdf, 0x24, 0xbb, 0x11,
];

#[test]
fn a_seed_gives_the_words_of_its_block(rt: HostRuntime) {
    let rows: [([u8; 16], [u8; 16], bool, [u8; 16], bool); 2] = [
        (
            ZERO,
            [
                0x76, 0xb8, 0xe0, 0xad, 0xa0, 0xf1, 0x3d, 0x90, 0x40, 0x5d, 0x6a, 0xe5, 0x53, 0x86,
                0xbd, 0x28,
            ],
            false,
            [
                0xbd, 0xd2, 0x19, 0xb8, 0xa0, 0x8d, 0xed, 0x1a, 0xa8, 0x36, 0xef, 0xcc, 0x8b, 0x77,
                0x0d, 0xc7,
            ],
            true,
        ),
        (
            HIGH,
            [
                0x6a, 0x8e, 0x10, 0x08, 0x0d, 0x0e, 0x28, 0x56, 0x06, 0xc8, 0x1e, 0x3f, 0xde, 0xc1,
                0x35, 0x15,
            ],
            false,
            [
                0x03, 0xf5, 0xd4, 0x48, 0xd9, 0xf0, 0x00, 0x7d, 0x32, 0xdf, 0x89, 0x6f, 0x75, 0x16,
                0xa7, 0x59,
            ],
            true,
        ),
    ];
    for (seed, left, left_bit, right, right_bit) in rows.iter() {
        let doubled = double(seed);
        assert!(rt; doubled.left == *left && doubled.left_bit == *left_bit);
        assert!(rt; doubled.right == *right && doubled.right_bit == *right_bit);
    }
}

#[test]
fn words_of_a_stream_go_on_over_blocks(rt: HostRuntime) {
    let mut key = [0u8; 32];
    for i in 0..32u8 {
        key[i as usize] = i;
    }
    let mut words = [0u32; 20];
    stream_words(&key, 0x0123_4567_89ab_cdef, &mut words);
    let expected = [
        0xc141f42e, 0x930922f0, 0xc8563029, 0x5390c59f, 0x43273bbc, 0x9cc435e4, 0xcd9eefe1,
        0x50a37081, 0x4366d644, 0x1fa0d595, 0x1f2fb884, 0x1170870c, 0x7cd8ef86, 0x661332fe,
        0x6715e898, 0x856e4ab5, 0x0763a16a, 0x96611ee9, 0x62464d1f, 0xa4f753f5,
    ];
    assert!(rt; words == expected);
}

/// Whether the key is written so.
fn spells(alloc: Global, key: &Key, bytes: &[u8]) -> bool {
    match key.encode(alloc) {
        Ok(written) => written.as_slice() == bytes,
        Err(_) => false,
    }
}

/// The bytes of a key of form 1 at depth 8 with a zero seed, whose control bytes are all this one.
fn long_of_zeros(party: u8, control: u8) -> [u8; 154] {
    let mut bytes = [0u8; 154];
    bytes[0] = 8;
    bytes[1] = party;
    for level in 0..8usize {
        bytes[34 + 17 * level] = control;
    }
    bytes
}

/// The same in form 2, where the last word has one byte that isn't zero.
fn short_of_zeros(party: u8, control: u8, at: usize, last: u8) -> [u8; 51]
    requires { at < 51 }
{
    let mut bytes = [0u8; 51];
    bytes[0] = 8;
    bytes[1] = party;
    bytes[34] = control;
    bytes[at] = last;
    bytes
}

#[test]
fn keys_of_zero_seeds_hold_the_position_alone(rt: HostRuntime) {
    let shape = Shape::new(8, 2).expect(&rt, "a shape");
    let (lead, follow) = gen_long(shape, 0, ZERO, ZERO);
    assert!(rt; spells(rt.alloc(), &lead, &long_of_zeros(0, 1)));
    assert!(rt; spells(rt.alloc(), &follow, &long_of_zeros(1, 1)));
    let (lead, follow) = gen_long(shape, 255, ZERO, ZERO);
    assert!(rt; spells(rt.alloc(), &lead, &long_of_zeros(0, 2)));
    assert!(rt; spells(rt.alloc(), &follow, &long_of_zeros(1, 2)));
    let (lead, follow) = gen_short(shape, 0, ZERO, ZERO);
    assert!(rt; spells(rt.alloc(), &lead, &short_of_zeros(0, 1, 35, 1)));
    assert!(rt; spells(rt.alloc(), &follow, &short_of_zeros(1, 1, 35, 1)));
    let (lead, follow) = gen_short(shape, 255, ZERO, ZERO);
    assert!(rt; spells(rt.alloc(), &lead, &short_of_zeros(0, 2, 50, 0x80)));
    assert!(rt; spells(rt.alloc(), &follow, &short_of_zeros(1, 2, 50, 0x80)));
}

#[test]
fn keys_of_other_seeds_have_the_bytes_that_another_program_made(rt: HostRuntime) {
    let (lead, _follow) = gen_long(Shape::new(8, 2).expect(&rt, "a shape"), 201, LOW, HIGH);
    assert!(rt; spells(rt.alloc(), &lead, &LONG));
    let (_lead, follow) = gen_short(Shape::new(9, 2).expect(&rt, "a shape"), 300, LOW, HIGH);
    assert!(rt; spells(rt.alloc(), &follow, &SHORT));
}

#[test]
fn a_decoded_key_shows_its_parts(rt: HostRuntime) {
    match Key::decode(2, 9, &SHORT) {
        Ok(key) => {
            assert!(rt; key.form() == 2 && key.depth() == 9 && key.party() == 1);
            assert!(rt; *key.seed() == HIGH && key.levels() == 2 && key.corrections().len() == 2);
            assert!(rt; !key.correction(0).left_bit && key.correction(0).right_bit);
            assert!(rt; key.last().is_some());
            assert!(rt; spells(rt.alloc(), &key, &SHORT));
        }
        Err(_) => assert!(rt; false),
    }
    match Key::decode(1, 8, &LONG) {
        Ok(key) => assert!(rt; key.form() == 1 && key.last().is_none()),
        Err(_) => assert!(rt; false),
    }
}

fn is_fault(decoded: Result<Key, KeyFault>, fault: KeyFault) -> bool {
    match decoded {
        Ok(_) => false,
        Err(found) => found == fault,
    }
}

#[test]
fn the_first_fault_is_named(rt: HostRuntime) {
    let mut bytes = [0u8; 155];
    bytes[0] = 9;
    bytes[1] = 2;
    bytes[34] = 4;
    bytes[153] = 0x80;
    let long = KeyFault::KeyLength {
        got: 153,
        want: 154,
    };
    assert!(rt; is_fault(Key::decode(1, 8, &bytes[..153]), long));
    assert!(rt;
        is_fault(
            Key::decode(1, 8, &bytes),
            KeyFault::KeyLength {
                got: 155,
                want: 154
            }
        )
    );
    assert!(rt;
        is_fault(
            Key::decode(2, 8, &bytes[..50]),
            KeyFault::KeyLength { got: 50, want: 51 }
        )
    );
    assert!(rt;
        is_fault(
            Key::decode(1, 8, &bytes[..154]),
            KeyFault::KeyDepth { got: 9 }
        )
    );
    bytes[0] = 8;
    assert!(rt;
        is_fault(
            Key::decode(1, 8, &bytes[..154]),
            KeyFault::KeyPadding { at: 1 }
        )
    );
    assert!(rt;
        is_fault(
            Key::decode(2, 8, &bytes[..51]),
            KeyFault::KeyPadding { at: 1 }
        )
    );
    bytes[1] = 1;
    assert!(rt;
        is_fault(
            Key::decode(1, 8, &bytes[..154]),
            KeyFault::KeyPadding { at: 34 }
        )
    );
    bytes[34] = 3;
    assert!(rt;
        is_fault(
            Key::decode(1, 8, &bytes[..154]),
            KeyFault::KeyPadding { at: 153 }
        )
    );
    assert!(rt; Key::decode(2, 8, &bytes[..51]).is_ok());
}

#[test]
fn two_shares_differ_at_the_position_alone(rt: HostRuntime) {
    let shape = Shape::new(9, 2).expect(&rt, "a shape");
    let (lead, follow) = gen_long(shape, 300, LOW, HIGH);
    let (near, far) = gen_short(shape, 300, LOW, HIGH);
    for place in [0u16, 172, 299, 300, 301, 428, 511].iter() {
        assert!(rt; (eval_at(&lead, *place) ^ eval_at(&follow, *place)) == (*place == 300));
        assert!(rt; (eval_at(&near, *place) ^ eval_at(&far, *place)) == (*place == 300));
    }
}

#[test]
fn a_search_has_its_keys_in_order(rt: HostRuntime) {
    let (lead, follow) = gen_short(Shape::new(8, 2).expect(&rt, "a shape"), 7, LOW, HIGH);
    let mut keys = Vec::new(rt.alloc());
    assert!(rt; keys.push(lead).is_ok() && keys.push(follow).is_ok());
    let keys = Keys::of(keys);
    assert!(rt; keys.items().len() == 2 && keys.items()[1].party() == 1);
}
