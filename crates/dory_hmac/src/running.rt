//! HMAC of a message that comes piece by piece, so that its pieces need not be joined first.

ghost use Rattle.std.specs.Prelude.{◌≡◌, ℕ, ◌<◌, ◌^◌, [], ◌++◌, List, length, ⊤};
ghost use Rattle.dory_hmac.specs.Hmac.{block_key, hmac_of_block};
ghost use Rattle.dory_hmac.specs.Holds.{Holds};

use crate::key_block::{INNER_PAD, OUTER_PAD, block_key, xor_pad};
use sha2::{Digest, Sha256};
use std::alloc::AllocError;

/// HMAC-SHA-256 of a message that comes piece by piece.
#[derive(Drop)]
pub struct Mac {
    inner: Sha256,
    outer: Sha256,
}

impl Mac {
    /// Begins an empty message under `key`.
    pub fn new(key: &[u8]) -> Mac
        requires { length key.now < 2 ^ 60 }
        ensures { Holds result (block_key key.now) [] }
    {
        let block = block_key(key);
        let mut inner = Sha256::new();
        inner.update(&xor_pad(INNER_PAD, &block));
        let mut outer = Sha256::new();
        outer.update(&xor_pad(OUTER_PAD, &block));
        Mac { inner, outer }
    }

    /// Adds `piece` to the end of the message.
    pub fn update(&mut self, piece: &[u8])
        ensures { (block message : List ℕ) → Holds self.old block message → Holds self.new block (message ++ piece.now) }
    {
        self.inner.update(piece);
    }

    /// The tag of the message, which is the pieces joined in the order that they came in.
    pub fn finish(self) -> [u8; 32]
        ensures { (block message : List ℕ) → Holds self block message → result ≡ hmac_of_block block message }
    {
        let Mac { inner, mut outer } = self;
        outer.update(&inner.finalize());
        outer.finalize()
    }
}

impl Clone for Mac {
    ghost is_clone = { λ x y. y ≡ x };

    ghost is_infallible = { λ _. ⊤ };

    fn clone(&self) -> Result<Mac, AllocError> {
        Ok(Mac {
            inner: self.inner.clone()?,
            outer: self.outer.clone()?,
        })
    }
}
