//! Tags of cells, one by one and by runs.
ghost use Rattle.std.specs.Prelude.{◌≡◌, ◌≤◌, length, map, take};
ghost use Rattle.dory_base.specs.TagBytes.{tag_number};
ghost use Rattle.dory_hmac.specs.Hmac.{hmac_of_block};
ghost use Rattle.dory_seal.specs.Seal.{cell_tag_of};

use crate::epoch::{epoch_of, key_in};
use crate::message::cell_message;
use dory_base::{DocId, Tag, UpdateId};
use dory_hmac::{FolderKeys, KeyedMac, mac};

/// The number of messages that are hashed in one go, on the stack.
pub(crate) const RUN: usize = 64;

/// A sealed cell of an update of a document.
#[derive(Clone, Copy, Debug)]
pub struct Cell {
    pub doc: DocId,
    pub id: UpdateId,
    pub column: u16,
    pub cell: bool,
}

/// The tag of a cell.
#[tactic(auto, unfolding(crate::specs::Seal::cell_tag_of))]
pub fn cell_tag(keys: &FolderKeys, doc: DocId, id: UpdateId, column: u16, cell: bool) -> Tag
    ensures { result ≡ cell_tag_of keys.now doc id column cell }
{
    let key = key_in(epoch_of(id), &keys.tag);
    leading(&mac(&key, &cell_message(doc, id, column as u32, cell)))
}

/// The tag that an HMAC begins with.
pub(crate) fn leading(digest: &[u8; 32]) -> Tag
    ensures { result ≡ tag_number (take 16 digest.now) }
{
    let mut bytes = [0; 16];
    bytes.copy_from_slice(&digest[..16]);
    Tag::of(bytes)
}

/// Writes the tags of at most 64 messages.
pub(crate) fn run_of_tags(tag_key: &KeyedMac, messages: &[[u8; 21]], into: &mut [Tag])
    requires few { length messages.now ≤ 64 }
    requires room { length into.old ≡ length messages.now }
    ensures { into.new ≡ map (λ message. tag_number (take 16 (hmac_of_block tag_key.now message))) messages.now }
{
    let mut digests = [[0; 32]; RUN];
    let run = &mut digests[..messages.len()];
    tag_key.tags(messages, run);
    leading_tags(run, into);
}

/// Writes the tag that each HMAC begins with.
fn leading_tags(digests: &[[u8; 32]], into: &mut [Tag])
    requires { length into.old ≡ length digests.now }
    ensures { into.new ≡ map (λ digest. tag_number (take 16 digest)) digests.now }
{
    for i in 0..digests.len() {
        into[i] = leading(&digests[i]);
    }
}
