//! The key as one block of the hash function, and the two pads that it is joined with: what every
//! form of HMAC here begins with.

ghost use Rattle.std.specs.Prelude.{◌≡◌, ◌≤◌, ◌-◌, ◌++◌, length, replicate};
ghost use Rattle.dory_hmac.specs.Hmac.{block_key, xor_pad};

use sha2::{Digest, Sha256};

/// The length of SHA-256's block, in bytes.
pub(crate) const BLOCK_LEN: usize = 64;

/// The byte that the key's block is joined with for the inner digest.
pub(crate) const INNER_PAD: u8 = 0x36;

/// The byte that the key's block is joined with for the outer digest.
pub(crate) const OUTER_PAD: u8 = 0x5c;

/// The bytes with zero bytes after them, as one block.
#[inline(always)]
pub(crate) fn padded(part: &[u8]) -> [u8; 64]
    requires { length part.now ≤ 64 }
    ensures { result ≡ part.now ++ replicate (64 - length part.now) 0 }
{
    let mut block = [0u8; 64];
    block[..part.len()].copy_from_slice(part);
    block
}

/// The key as one block: itself, or its digest if it is longer than a block, and zero bytes after it.
pub(crate) fn block_key(key: &[u8]) -> [u8; 64]
    ensures { result ≡ block_key key.now }
{
    if key.len() <= BLOCK_LEN {
        padded(key)
    } else {
        padded(&Sha256::digest(key))
    }
}

/// Each byte of the block XOR the pad.
pub(crate) fn xor_pad(pad: u8, block: &[u8; 64]) -> [u8; 64]
    ensures { result ≡ xor_pad pad block.now }
{
    let mut out = *block;
    for byte in out.iter_mut() {
        *byte ^= pad;
    }
    out
}
