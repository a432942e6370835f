//! Values of an independent program, and that in both orders the shares of a pair differ at one place.
ghost use Rattle.std.specs.Prelude.{◌≡◌};

use crate::{expand, expand_into};
use dory_base::Shape;
use dory_dpf::{Key, gen_long, gen_short};
use std::alloc::Global;

const LOW: [u8; 16] = [0, 1, 2, 3, 4, 5, 6, 7, 8, 9, 10, 11, 12, 13, 14, 15];

const HIGH: [u8; 16] = [
    16, 17, 18, 19, 20, 21, 22, 23, 24, 25, 26, 27, 28, 29, 30, 31,
];

// The shares of party 0 for position 201 at depth 8 in form 1, with the seeds LOW and HIGH, and those of form 2.
const LONG: [u64; 4] = [
    0xaa149fbdfc38b508,
    0xb4e432228a96fa9f,
    0xd6fa84c11bf52245,
    0x335d8243a4bcb9c0,
];

const SHORT: [u64; 4] = [
    0x57140acaa03a2382,
    0x97a65da8e934fd3e,
    0x7c3cf41ee0fe58eb,
    0xdb348a03b9a3e80a,
];

fn narrow(key: &Key) -> [u64; 4]
    requires { key.now.depth ≡ 8 }
{
    let mut words = [0; 4];
    expand_into(key, &mut words);
    words
}

fn wide(key: &Key) -> [u64; 32]
    requires { key.now.depth ≡ 11 }
{
    let mut words = [0; 32];
    expand_into(key, &mut words);
    words
}

/// Whether the expansion level by level gives these words.
fn expands_to(alloc: Global, key: &Key, words: &[u64]) -> bool {
    match expand(alloc, key) {
        Ok(bits) => bits.words() == words,
        Err(_) => false,
    }
}

/// Whether two lists of words differ in the one bit of a place.
fn differ_at(lead: &[u64], follow: &[u64], place: usize) -> bool {
    let mut same = true;
    for (j, (one, other)) in lead.iter().zip(follow).enumerate() {
        let expected = if j == place / 64 {
            1 << (place % 64)
        } else {
            0
        };
        same = same && one ^ other == expected;
    }
    same
}

#[test]
fn shares_of_a_key_are_those_that_another_program_made(rt: HostRuntime) {
    match Shape::new(8, 2) {
        Some(shape) => {
            let (lead, _follow) = gen_long(shape, 201, LOW, HIGH);
            assert!(rt; narrow(&lead) == LONG && expands_to(rt.alloc(), &lead, &LONG));
            let (lead, _follow) = gen_short(shape, 201, LOW, HIGH);
            assert!(rt; narrow(&lead) == SHORT && expands_to(rt.alloc(), &lead, &SHORT));
        }
        None => assert!(rt; false),
    }
}

#[test]
fn shares_of_a_narrow_pair_differ_at_the_position_alone(rt: HostRuntime) {
    match Shape::new(8, 2) {
        Some(shape) => {
            for place in [0u16, 255].iter() {
                let (lead, follow) = gen_long(shape, *place, LOW, HIGH);
                let (one, other) = (narrow(&lead), narrow(&follow));
                assert!(rt; differ_at(&one, &other, *place as usize));
                assert!(rt;
                    expands_to(rt.alloc(), &lead, &one) && expands_to(rt.alloc(), &follow, &other)
                );
                let (lead, follow) = gen_short(shape, *place, LOW, HIGH);
                let (one, other) = (narrow(&lead), narrow(&follow));
                assert!(rt; differ_at(&one, &other, *place as usize));
                assert!(rt;
                    expands_to(rt.alloc(), &lead, &one) && expands_to(rt.alloc(), &follow, &other)
                );
            }
        }
        None => assert!(rt; false),
    }
}

#[test]
fn shares_of_a_wide_pair_differ_at_the_position_alone(rt: HostRuntime) {
    match Shape::new(11, 2) {
        Some(shape) => {
            for place in [0u16, 2047].iter() {
                let (lead, follow) = gen_long(shape, *place, LOW, HIGH);
                let (one, other) = (wide(&lead), wide(&follow));
                assert!(rt; differ_at(&one, &other, *place as usize));
                assert!(rt;
                    expands_to(rt.alloc(), &lead, &one) && expands_to(rt.alloc(), &follow, &other)
                );
                let (lead, follow) = gen_short(shape, *place, LOW, HIGH);
                let (one, other) = (wide(&lead), wide(&follow));
                assert!(rt; differ_at(&one, &other, *place as usize));
                assert!(rt;
                    expands_to(rt.alloc(), &lead, &one) && expands_to(rt.alloc(), &follow, &other)
                );
            }
        }
        None => assert!(rt; false),
    }
}
