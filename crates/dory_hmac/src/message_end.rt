//! The block that ends a short message: the message and SHA-256's padding (FIPS 180-4, section 5.1.1),
//! where one block, that of the key, has gone before.

ghost use Rattle.std.specs.Prelude.{◌≡◌, ◌≤◌, ◌+◌, ◌-◌, ◌++◌, ◌∷◌, length, replicate};
ghost use Rattle.sha2.specs.Sha256.{padding};

use crate::key_block::padded;

/// The length of the longest message that ends in the block after the key's: nine bytes of the block
/// are the padding's at least.
pub(crate) const SHORT_LEN: usize = 55;

// The padding's first bytes: a bit 1, then zeros.
const PADDING: [u8; 56] = [
    0x80, 0, 0, 0, 0, 0, 0, 0, 0, 0, 0, 0, 0, 0, 0, 0, 0, 0, 0, 0, 0, 0, 0, 0, 0, 0, 0, 0, 0, 0, 0,
    0, 0, 0, 0, 0, 0, 0, 0, 0, 0, 0, 0, 0, 0, 0, 0, 0, 0, 0, 0, 0, 0, 0, 0, 0,
];

// The padding after the message, up to the length that ends the block.
#[inline(always)]
fn marked(used: usize) -> &'static [u8]
    requires { used ≤ 55 }
    ensures { result.now ≡ 0x80 ∷ replicate (55 - used) 0 }
{
    &PADDING[..56 - used]
}

/// The last block of a message that is a whole block and then `message`.
#[inline(always)]
pub(crate) fn last_block(message: &[u8]) -> [u8; 64]
    requires { length message.now ≤ 55 }
    ensures { result ≡ message.now ++ padding (64 + length message.now) }
{
    let used = message.len();
    let mut block = padded(message);
    block[used..56].copy_from_slice(marked(used));
    let bits = 8 * (64 + used as u64);
    block[56..].copy_from_slice(&bits.to_be_bytes());
    block
}
