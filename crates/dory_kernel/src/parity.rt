//! The two ways to count: a word at a time, and eight words at a time.
ghost use Rattle.std.specs.Prelude.{◌≡◌, ◌+◌, ◌%◌, ◌≤◌, length, count_ones, bit_and, bit_xor};
ghost use Rattle.std.specs.Simd.Lanes.{zip2, chunk, fold_l};
ghost use Rattle.dory_kernel.specs.Parity.{common_ones, is_odd_common};

use std::simd::prelude::*;

/// The XOR of `start` and of the ANDs of each two words.
fn folded(row: &[u64], selector: &[u64], start: u64) -> u64
    requires { length row.now ≡ length selector.now }
    ensures { count_ones result % 2 ≡ (count_ones start + common_ones row.now selector.now) % 2 }
{
    let mut all = start;
    for i in 0..row.len() {
        all ^= row[i] & selector[i];
    }
    all
}

/// The parity of the common ones, a word at a time.
pub fn plain_parity(row: &[u64], selector: &[u64]) -> bool
    requires { length row.now ≡ length selector.now }
    ensures { result ≡ is_odd_common row.now selector.now }
{
    folded(row, selector, 0).count_ones() % 2 == 1
}

// The ANDs of eight words of each, from `at` on.
#[inline(always)]
fn both_at(row: &[u64], selector: &[u64], at: usize) -> u64x8
    requires row { at + 8 ≤ length row.now }
    requires selector { at + 8 ≤ length selector.now }
    ensures { result ≡ zip2 bit_and (chunk at 8 row.now) (chunk at 8 selector.now) }
{
    u64x8::from_slice(&row[at..]) & u64x8::from_slice(&selector[at..])
}

#[inline(always)]
fn xor_lanes(a: u64x8, b: u64x8) -> u64x8
    ensures { result ≡ zip2 bit_xor a b }
{
    a ^ b
}

#[inline(always)]
fn xor_of(a: u64x8) -> u64
    ensures { result ≡ fold_l bit_xor 0 a }
{
    a.reduce_xor()
}

/// The parity of the common ones, eight words at a time.
pub fn lane_parity(row: &[u64], selector: &[u64]) -> bool
    requires { length row.now ≡ length selector.now }
    ensures { result ≡ is_odd_common row.now selector.now }
{
    let mut all = u64x8::splat(0);
    let mut at = 0;
    while row.len() - at >= 8 {
        let both = both_at(row, selector, at);
        all = xor_lanes(all, both);
        at += 8;
    }
    let rest = folded(&row[at..], &selector[at..], xor_of(all));
    rest.count_ones() % 2 == 1
}
