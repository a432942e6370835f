//! A key whose two first blocks are hashed once, for the many messages that come under it.

ghost use Rattle.std.specs.Prelude.{◌≡◌, ℕ, ◌<◌, ◌≤◌, ◌+◌, ◌*◌, ◌^◌, List, [], ◌++◌, length, map, slice_set};
ghost use Rattle.dory_hmac.specs.Hmac.{block_key, hmac_of_block};
ghost use Rattle.dory_hmac.specs.Holds.{Holds};

use crate::key_block::block_key;
use crate::message_end::SHORT_LEN;
use crate::midstates::Midstates;
use crate::running::Mac;
use std::marker::Model;

/// A key for many messages. Its value in contracts is the key's block.
#[derive(Drop)]
pub struct KeyedMac {
    start: Mac,
    midstates: Midstates,
}

impl Model for KeyedMac {
    ghost Value = { List ℕ };

    ghost view = { λ k. k.midstates };

    ghost invariant = { λ k. Holds k.start k.midstates [] };
}

impl KeyedMac {
    /// Hashes the two blocks that each message of `key` begins with.
    pub fn new(key: &[u8]) -> KeyedMac
        requires { length key.now < 2 ^ 60 }
        ensures { result ≡ block_key key.now }
    {
        KeyedMac {
            start: Mac::new(key),
            midstates: Midstates::new(block_key(key)),
        }
    }

    /// Begins an empty message under the key.
    pub fn begin(&self) -> Mac
        ensures { Holds result self.now [] }
    {
        self.start.clone().unwrap()
    }

    /// The tag of `message`.
    pub fn tag(&self, message: &[u8]) -> [u8; 32]
        ensures { result ≡ hmac_of_block self.now message.now }
    {
        let mut mac = self.begin();
        mac.update(message);
        mac.finish()
    }

    /// Writes the tag of each message to its place in `tags`. Messages of up to 55 bytes are hashed
    /// four at a time.
    pub fn tags<const N: usize>(&self, messages: &[[u8; N]], tags: &mut [[u8; 32]])
        requires { length tags.old ≡ length messages.now }
        ensures { tags.new ≡ map (hmac_of_block self.now) messages.now }
    {
        if N <= SHORT_LEN {
            self.tags_by_lanes(messages, tags);
        } else {
            self.tags_one_by_one(messages, tags);
        }
    }

    // Four messages at a time, and the last few one by one.
    fn tags_by_lanes<const N: usize>(&self, messages: &[[u8; N]], tags: &mut [[u8; 32]])
        requires short { N ≤ 55 }
        requires room { length tags.old ≡ length messages.now }
        ensures { tags.new ≡ map (hmac_of_block self.now) messages.now }
    {
        let groups = messages.len() / 4;
        'groups: for group in 0..groups {
            let at = 4 * group;
            let [a, b, c, d] = self.midstates.tags_of_four(
                &messages[at],
                &messages[at + 1],
                &messages[at + 2],
                &messages[at + 3],
            );
            tags[at] = a;
            tags[at + 1] = b;
            tags[at + 2] = c;
            tags[at + 3] = d;
        }
        'rest: for i in 4 * groups..messages.len() {
            tags[i] = self.tag(&messages[i]);
        }
    }

    // One message after the other.
    fn tags_one_by_one<const N: usize>(&self, messages: &[[u8; N]], tags: &mut [[u8; 32]])
        requires { length tags.old ≡ length messages.now }
        ensures { tags.new ≡ map (hmac_of_block self.now) messages.now }
    {
        for i in 0..messages.len() {
            tags[i] = self.tag(&messages[i]);
        }
    }
}
