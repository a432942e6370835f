//! Bits in bytes, a word at a time: bit j is bit j mod 8 of byte j div 8.
ghost use Rattle.std.specs.Prelude.{◌≡◌, ℕ, true, ◌++◌, ◌<◌, ◌≤◌, ◌+◌, ◌/◌, ◌%◌, IfOk, OnOk, length, take, drop, slice_index};
ghost use Rattle.std.specs.Int.{w64, bit_at, from_le_bytes};
ghost use Rattle.dory_base.specs.Packed.{word_bit};
ghost use Rattle.dory_fields.specs.Packing.{bits_in, is_clear, packed, packed_len};

use dory_base::{Bits, NoMemory};
use std::alloc::Global;

fn word_of(bytes: &[u8]) -> u64
    requires { length bytes.now ≡ 8 }
    ensures { result ≡ from_le_bytes w64 bytes.now }
{
    u64::from_le_bytes([
        bytes[0], bytes[1], bytes[2], bytes[3], bytes[4], bytes[5], bytes[6], bytes[7],
    ])
}

/// The word of less than eight bytes, with zeros after them.
fn last_word(bytes: &[u8]) -> u64
    requires { length bytes.now < 8 }
    ensures { result ≡ from_le_bytes w64 bytes.now }
{
    let mut eight = [0u8; 8];
    eight[..bytes.len()].copy_from_slice(bytes);
    u64::from_le_bytes(eight)
}

/// The words that show the bits of these bytes.
fn words_in(alloc: Global, packed: &[u8]) -> Result<Vec<u64>, NoMemory>
    ensures len { IfOk result (λ words. length words.items ≡ (length packed.now + 7) / 8) }
    ensures bits { IfOk result (λ words. (j : ℕ) → word_bit words.items j ≡ bit_at (slice_index packed.now (j / 8)) (j % 8)) }
{
    let mut words = Vec::with_capacity(alloc, (packed.len() + 7) / 8)?;
    let mut rest = packed;
    while rest.len() >= 8 {
        let (front, after) = rest.split_at(8);
        words.push(word_of(front))?;
        rest = after;
    }
    if rest.is_empty() {
        return Ok(words);
    }
    words.push(last_word(rest))?;
    Ok(words)
}

/// Whether all bits from this one on are zero.
pub fn is_padded(packed: &[u8], count: usize) -> bool
    requires { length packed.now ≡ packed_len count }
    ensures { result ≡ is_clear (drop count (bits_in packed.now)) }
{
    count % 8 == 0 || packed[count / 8] >> (count % 8) == 0
}

/// The first bits, where those after them are zero.
pub fn unpacked(alloc: Global, packed: &[u8], count: usize) -> Result<Bits, NoMemory>
    requires few { count ≤ 4096 }
    requires len { length packed.now ≡ packed_len count }
    requires clear { is_clear (drop count (bits_in packed.now)) ≡ true }
    ensures { IfOk result (λ bits. bits ≡ take count (bits_in packed.now)) }
{
    let words = words_in(alloc, packed)?;
    Ok(Bits::of_words(words, count))
}

/// Adds bits, and zeros up to the end of the last byte.
pub fn put_bits(out: &mut Vec<u8>, bits: &Bits) -> Result<(), NoMemory>
    ensures { OnOk result (out.new.items ≡ out.old.items ++ packed bits.now) }
{
    let mut left = (bits.len() + 7) / 8;
    for word in bits.words() {
        let piece = left.min(8);
        out.extend_from_slice(&word.to_le_bytes()[..piece])?;
        left -= piece;
    }
    Ok(())
}
