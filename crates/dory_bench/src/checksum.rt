//! The checksum of what a piece of work made: 64-bit FNV-1a over bytes.

use dory_base::{Bits, Change, Entry, Found, Tag, UpdateId};
use dory_dpf::Key;
use dory_seal::MaskBlock;
use dory_verify::Answer;
use dory_wire::{Want, What};

/// What the checksum of no bytes is.
const OFFSET: u64 = 0xcbf2_9ce4_8422_2325;

/// What each byte multiplies by.
const PRIME: u64 = 0x0100_0000_01b3;

/// A checksum of all bytes, or, where time is taken, of the last byte of each part alone: enough to use what was
/// made, and little beside the making.
#[derive(Clone, Copy)]
pub struct Checksum {
    value: u64,
    whole: bool,
}

impl Checksum {
    pub fn new(whole: bool) -> Checksum {
        Checksum {
            value: OFFSET,
            whole,
        }
    }

    pub fn value(&self) -> u64 {
        self.value
    }

    fn byte(&mut self, byte: u8) {
        self.value = (self.value ^ u64::from(byte)).wrapping_mul(PRIME);
    }

    pub fn bytes(&mut self, bytes: &[u8]) {
        if self.whole {
            for byte in bytes {
                self.byte(*byte);
            }
        } else if let Some(byte) = bytes.last() {
            self.byte(*byte);
        }
    }

    pub fn number(&mut self, number: u64) {
        self.bytes(&number.to_be_bytes());
    }

    pub fn words(&mut self, words: &[u64]) {
        if self.whole {
            for word in words {
                self.number(*word);
            }
        } else if let Some(word) = words.last() {
            self.number(*word);
        }
    }

    pub fn bit(&mut self, bit: bool) {
        self.byte(u8::from(bit));
    }

    pub fn tags(&mut self, tags: &[Tag]) {
        if self.whole {
            for tag in tags {
                self.bytes(&tag.bytes());
            }
        } else if let Some(tag) = tags.last() {
            self.bytes(&tag.bytes());
        }
    }

    /// The bits of a block's columns, or the last of them.
    pub fn mask(&mut self, mask: &MaskBlock) {
        if self.whole {
            for column in 0..256u16 {
                self.bit(mask.bit(column));
            }
        } else {
            self.bit(mask.bit(255));
        }
    }

    /// The row and the tags of a post.
    pub fn entry(&mut self, entry: &Entry) {
        if let Change::Post { row, tags, .. } = &entry.change {
            self.words(row.words());
            self.tags(tags.items());
        }
    }

    /// A seed and its bit, or the two in one byte.
    pub fn node(&mut self, seed: &[u8; 16], bit: bool) {
        if self.whole {
            self.bytes(seed);
            self.bit(bit);
        } else {
            self.byte(seed[15] ^ u8::from(bit));
        }
    }

    /// The seed and the corrections of a key, and the last word of one in form 2.
    pub fn key(&mut self, key: &Key) {
        self.bytes(key.seed());
        for correction in key.corrections() {
            self.node(&correction.seed, correction.left_bit);
            self.bit(correction.right_bit);
        }
        if let Some(last) = key.last() {
            self.bytes(last);
        }
    }

    pub fn row(&mut self, row: &Bits) {
        self.words(row.words());
    }

    /// The serial of an id.
    fn id(&mut self, id: UpdateId) {
        self.number(id.serial);
    }

    /// The entry of a request to stage, and nothing of another.
    pub fn wanted(&mut self, want: &Want) {
        if let Want::Stage { entry } = want {
            self.id(entry.id);
            self.entry(entry);
        }
    }

    /// The numbers of a reply.
    pub fn answered(&mut self, what: &What) {
        match what {
            What::At { length } => self.number(u64::from(*length)),
            What::Found { found } => self.found(found),
            What::Id { number, id } | What::Committed { number, id } => {
                self.number(u64::from(*number));
                self.id(*id);
            }
            What::Staged { id } => self.id(*id),
            What::Refused { .. } => self.byte(0),
        }
    }

    /// The version and the documents of an accepted search.
    pub fn answer(&mut self, answer: &Answer) {
        self.number(u64::from(answer.version));
        for doc in answer.docs.items() {
            self.number(u64::from(doc.0));
        }
    }

    /// The lines and the sums, or the sums alone.
    pub fn found(&mut self, found: &Found) {
        if self.whole {
            for place in found.manifest.items() {
                self.number(u64::from(place.slot));
                self.number(u64::from(place.doc.0));
                self.id(place.id);
            }
        }
        for sum in found.sums.items() {
            self.row(&sum.bits);
            self.bytes(&sum.tag.bytes());
        }
    }
}
