//! The positions of one word, under the folder's keys or under a word key whose blocks are hashed already.
ghost use Rattle.std.specs.Prelude.{◌≡◌, ◌<◌, ◌-◌, ◌++◌, replicate};
ghost use Rattle.dory_hmac.specs.Hmac.{hmac_of_block};
ghost use Rattle.dory_bloom.specs.Positions.{column_at, columns_of, positions_of};

use dory_base::{Shape, Word};
use dory_hmac::{FolderKeys, KeyedMac};

/// Writes the positions of a word, and zeros after them.
pub fn positions(keys: &FolderKeys, shape: Shape, word: &Word, into: &mut [u16; 8])
    ensures { into.new ≡ positions_of keys.now shape word.now ++ replicate (8 - shape.probes) 0 }
{
    keyed_positions(&KeyedMac::new(&keys.word), shape, word, into);
}

/// The same under a word key that is kept for many words.
pub fn keyed_positions(word_key: &KeyedMac, shape: Shape, word: &Word, into: &mut [u16; 8])
    ensures { into.new ≡ columns_of (hmac_of_block word_key.now word.now) shape ++ replicate (8 - shape.probes) 0 }
{
    let tag = word_key.tag(word.bytes());
    *into = [0; 8];
    for p in 0..shape.probes() as usize {
        into[p] = column_at(&tag, shape, p);
    }
}

/// The column that the four bytes at 4p of a tag name.
fn column_at(tag: &[u8; 32], shape: Shape, p: usize) -> u16
    requires { p < 8 }
    ensures { result ≡ column_at tag.now shape.depth p }
{
    let at = 4 * p;
    let number = u32::from_be_bytes([tag[at], tag[at + 1], tag[at + 2], tag[at + 3]]);
    (number % shape.columns() as u32) as u16
}
