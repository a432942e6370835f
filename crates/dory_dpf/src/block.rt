//! The ChaCha20 block of a key, one block at a time: a seed of the tree needs ten words, where the kit's generator
//! always makes four blocks.
ghost use Rattle.std.specs.Prelude.{◌≡◌, ℕ, ◌<◌, ◌++◌, replicate, slice_index};
ghost use Rattle.dory_dpf.specs.Block.{block_word, block_state};

use crate::rounds::{column_round, diagonal_round};
use rand_core::utils::read_u32;

/// The state before the rounds: four constants, the key of sixteen bytes and sixteen zero bytes, block 0, stream 0.
#[inline(always)]
fn state_of(seed: &[u8; 16]) -> [u32; 16]
    ensures { result ≡ block_state (seed.now ++ replicate 16 0) 0 0 }
{
    [
        0x6170_7865,
        0x3320_646e,
        0x7962_2d32,
        0x6b20_6574,
        read_u32(seed, 0),
        read_u32(seed, 1),
        read_u32(seed, 2),
        read_u32(seed, 3),
        0,
        0,
        0,
        0,
        0,
        0,
        0,
        0,
    ]
}

/// The words of the first block of a seed with sixteen zero bytes after it.
#[inline(always)]
pub fn seed_block(seed: &[u8; 16]) -> [u32; 16]
    ensures { (k : ℕ) → k < 16 → slice_index result k ≡ block_word (seed.now ++ replicate 16 0) 0 0 k }
{
    let first = state_of(seed);
    let mut x = first;
    'rounds: for _round in 0..10u32 {
        x = diagonal_round(&column_round(&x));
    }
    let mut out = [0u32; 16];
    'words: for k in 0..16 {
        out[k] = x[k].wrapping_add(first[k]);
    }
    out
}
