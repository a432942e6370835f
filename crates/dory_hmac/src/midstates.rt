//! The two hash values that each tag under a key begins with, and from them the tags of four short
//! messages in one pass.

ghost use Rattle.std.specs.Prelude.{◌≡◌, ◌<◌, ◌≤◌, ◌++◌, ℕ, List, [], ◌∷◌, length};
ghost use Rattle.sha2.specs.Sha256.{compress, digest_bytes, initial_hash_256, padding};
ghost use Rattle.dory_hmac.specs.Hmac.{hmac_of_block, xor_pad};
ghost use Rattle.dory_hmac.specs.Lanes.{HasBlock, lane};
ghost use Rattle.dory_hmac.specs.Midstate.{midstate};

use crate::compression::compress4;
use crate::constants::INITIAL_HASH;
use crate::four_lanes::{digest_block, digests, hash_value, loaded, spread};
use crate::key_block::{INNER_PAD, OUTER_PAD, xor_pad};
use crate::message_end::last_block;
use std::marker::Model;

/// A key's block, and the hash values after it under the two pads. Its value in contracts is the block.
#[derive(Drop)]
pub(crate) struct Midstates {
    block: [u8; 64],
    inner: [u32; 8],
    outer: [u32; 8],
}

impl Model for Midstates {
    ghost use Rattle.std.specs.Prelude.{◌≡◌, List, ℕ};
    ghost use Rattle.dory_hmac.specs.Midstate.{midstate};

    ghost Value = { List ℕ };

    ghost view = { λ k. k.block };

    ghost invariant = { λ k. (k.inner ≡ midstate 0x36 k.block) × (k.outer ≡ midstate 0x5c k.block) };
}

impl Midstates {
    /// Hashes a key's block under the two pads.
    pub(crate) fn new(block: [u8; 64]) -> Midstates
        ensures { result ≡ block }
    {
        let inner = xor_pad(INNER_PAD, &block);
        let outer = xor_pad(OUTER_PAD, &block);
        let states = compress4(
            spread(&INITIAL_HASH),
            &loaded(&[inner, outer, inner, outer]),
        );
        Midstates {
            block,
            inner: hash_value(states, 0),
            outer: hash_value(states, 1),
        }
    }

    /// The tags of four messages of up to 55 bytes.
    pub(crate) fn tags_of_four(
        &self,
        first: &[u8],
        second: &[u8],
        third: &[u8],
        fourth: &[u8],
    ) -> [[u8; 32]; 4]
        requires first { length first.now ≤ 55 }
        requires second { length second.now ≤ 55 }
        requires third { length third.now ≤ 55 }
        requires fourth { length fourth.now ≤ 55 }
        ensures { result ≡ hmac_of_block self.now first.now ∷ hmac_of_block self.now second.now ∷ hmac_of_block self.now third.now ∷ hmac_of_block self.now fourth.now ∷ [] }
    {
        let blocks = [
            last_block(first),
            last_block(second),
            last_block(third),
            last_block(fourth),
        ];
        let inside = compress4(spread(&self.inner), &loaded(&blocks));
        let outside = compress4(spread(&self.outer), &digest_block(inside));
        digests(outside)
    }
}
