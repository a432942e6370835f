//! The XOR of two rows of tags, byte by byte and many bytes at a time.
ghost use Rattle.std.specs.Prelude.{◌≡◌, ◌+◌, ◌≤◌, length, bit_xor};
ghost use Rattle.std.specs.Simd.Lanes.{zip2, chunk, put_chunk};

use std::simd::prelude::*;

// XORs 32 bytes of `from` into `into`, from `at` on.
#[inline(always)]
fn xor_block(into: &mut [u8], from: &[u8], at: usize)
    requires into { at + 32 ≤ length into.old }
    requires from { at + 32 ≤ length from.now }
    ensures { into.new ≡ put_chunk at into.old (zip2 bit_xor (chunk at 32 into.old) (chunk at 32 from.now)) }
{
    let both = u8x32::from_slice(&into[at..]) ^ u8x32::from_slice(&from[at..]);
    both.copy_to_slice(&mut into[at..]);
}

/// XORs each byte of `from` into that of `into`, 32 bytes at a time.
pub fn xor_tags(into: &mut [u8], from: &[u8])
    requires { length into.old ≡ length from.now }
    ensures { into.new ≡ zip2 bit_xor into.old from.now }
{
    let mut at = 0;
    'vectors: while into.len() - at >= 32 {
        xor_block(into, from, at);
        at += 32;
    }
    'rest: for i in at..into.len() {
        into[i] ^= from[i];
    }
}
