//! Both bodies on lists of many lengths, and a kernel of each.
ghost use Rattle.std.specs.Prelude.{◌≡◌, ◌≤◌, length};

use crate::{RowKernel, lane_parity, plain_parity, xor_tags};

// Whether both bodies, and a kernel of each, answer this for a row and a selector.
fn all_answer(want: bool, row: &[u64], selector: &[u64]) -> bool
    requires same { length row.now ≡ length selector.now }
    requires few { length row.now ≤ 32 }
{
    plain_parity(row, selector) == want
        && lane_parity(row, selector) == want
        && RowKernel::new(plain_parity).parity(row, selector) == want
        && RowKernel::new(lane_parity).again().parity(row, selector) == want
}

#[test]
fn both_bodies_agree_on_every_length(rt: HostRuntime) {
    // 7 and 5 have two ones in common, 7 and 4 one, and 2^63 its own.
    assert!(rt; all_answer(false, &[], &[]));
    assert!(rt; all_answer(false, &[7], &[5]));
    assert!(rt; all_answer(true, &[7], &[4]));
    assert!(rt; all_answer(true, &[1, 2, 4], &[1, 2, 4]));
    assert!(rt; all_answer(false, &[1 << 63, 0, 0, 1], &[1 << 63, 9, 9, 1]));
    assert!(rt; all_answer(true, &[7; 9], &[4; 9]));
    assert!(rt; all_answer(true, &[7; 31], &[4; 31]));
    assert!(rt; all_answer(false, &[7; 32], &[4; 32]));
    assert!(rt; all_answer(false, &[u64::MAX; 32], &[u64::MAX; 32]));
}

#[test]
fn tags_are_xored_to_their_last_byte(rt: HostRuntime) {
    let mut into = [0x5Au8; 48];
    xor_tags(&mut into, &[0xFF; 48]);
    assert!(rt; into == [0xA5; 48]);
    xor_tags(&mut into, &[0xA5; 48]);
    assert!(rt; into == [0; 48]);
    let mut none: [u8; 0] = [];
    xor_tags(&mut none, &[]);
    assert!(rt; none.is_empty());
}
