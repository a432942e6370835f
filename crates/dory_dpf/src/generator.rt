//! The function that doubles a seed: two seeds, each with a bit, from one ChaCha20 block.
ghost use Rattle.std.specs.Prelude.{◌≡◌, ◌++◌};
ghost use Rattle.std.specs.Int.{w32, to_le_bytes};
ghost use Rattle.dory_dpf.specs.Block.{doubled_of};

use crate::block::seed_block;

/// What a seed gives: a seed and a bit on each side.
#[derive(Clone, Copy, Debug)]
pub struct Doubled {
    pub left: [u8; 16],
    pub left_bit: bool,
    pub right: [u8; 16],
    pub right_bit: bool,
}

/// The two sides of a seed.
pub fn double(seed: &[u8; 16]) -> Doubled
    ensures { result ≡ doubled_of seed.now }
{
    let words = seed_block(seed);
    Doubled {
        left: bytes_of(words[0], words[1], words[2], words[3]),
        left_bit: words[8] % 2 == 1,
        right: bytes_of(words[4], words[5], words[6], words[7]),
        right_bit: words[9] % 2 == 1,
    }
}

/// The bytes of four words, each with its lowest byte first.
#[inline(always)]
fn bytes_of(a: u32, b: u32, c: u32, d: u32) -> [u8; 16]
    ensures { result ≡ to_le_bytes w32 a ++ to_le_bytes w32 b ++ to_le_bytes w32 c ++ to_le_bytes w32 d }
{
    let mut bytes = [0u8; 16];
    bytes[..4].copy_from_slice(&a.to_le_bytes());
    bytes[4..8].copy_from_slice(&b.to_le_bytes());
    bytes[8..12].copy_from_slice(&c.to_le_bytes());
    bytes[12..].copy_from_slice(&d.to_le_bytes());
    bytes
}
