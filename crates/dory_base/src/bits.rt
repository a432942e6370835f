//! A list of bits, kept in words of 64 so that a scan goes over whole words.
ghost use Rattle.std.specs.Prelude.{◌≡◌, ℕ, Bool, false, ◌+◌, ◌/◌, ◌%◌, ◌^◌, ◌<◌, ◌≤◌, cond, length, replicate, slice_index_or, slice_set, vec_len, IfOk, ◌≢◌, ◌*◌, ◌↔◌, IsTrue, bit_xor};
ghost use Rattle.std.specs.Int.{bit_at};
ghost use Rattle.std.specs.Simd.Lanes.{zip2};
ghost use Rattle.dory_base.specs.Packed.{word_bit, bits_of};
ghost use Rattle.dory_base.specs.Xor.{xor as xor_of};

use crate::NoMemory;
use std::alloc::Global;
use std::marker::Model;

/// At most 4,096 bits: a row, a selector, or one bit for each live slot.
#[derive(Debug, Drop)]
pub struct Bits {
    words: Vec<u64>,
    len: usize,
}

impl Model for Bits {
    ghost use Rattle.std.specs.Prelude.{List, Bool};
    ghost use Rattle.dory_base.specs.Packed.{bits_of, IsPacked};

    ghost Value = { List Bool };

    ghost view = { λ b. bits_of b.len b.words.items };

    ghost invariant = { λ b. IsPacked b.len b.words.items };
}

impl Bits {
    /// Zero bits.
    pub fn zero(alloc: Global, len: usize) -> Result<Bits, NoMemory>
        requires { len ≤ 4096 }
        ensures { IfOk result (λ bits. bits ≡ replicate len false) }
    {
        let words = vec![in alloc; 0; (len + 63) / 64]?;
        Ok(Bits { words, len })
    }

    /// An equal list.
    pub fn copy(&self, alloc: Global) -> Result<Bits, NoMemory>
        ensures { IfOk result (λ bits. bits ≡ self.now) }
    {
        let words = self.words.as_slice().to_vec(alloc)?;
        Ok(Bits {
            words,
            len: self.len,
        })
    }

    /// Whether the two lists are equal.
    pub fn same(&self, other: &Bits) -> bool
        ensures { IsTrue result ↔ (self.now ≡ other.now) }
    {
        self.len == other.len && same_words(&self.words, &other.words)
    }

    /// The number of bits.
    pub fn len(&self) -> usize
        ensures value { result ≡ length self.now }
        ensures few { result ≤ 4096 }
    {
        self.len
    }

    /// The bit at a place.
    pub fn get(&self, place: usize) -> bool
        requires { place < length self.now }
        ensures { result ≡ slice_index_or self.now place false }
    {
        (self.words[place / 64] >> (place % 64)) & 1 == 1
    }

    /// Sets the bit at a place.
    pub fn put(&mut self, place: usize, bit: bool)
        requires { place < length self.old }
        ensures { self.new ≡ slice_set self.old place bit }
    {
        let word = self.words[place / 64];
        self.words[place / 64] = with_bit(word, place % 64, bit);
    }

    /// XORs another list into this one.
    pub fn xor_with(&mut self, other: &Bits)
        requires { length self.old ≡ length other.now }
        ensures { self.new ≡ zip2 xor_of self.old other.now }
    {
        xor_words(&mut self.words, &other.words);
    }

    /// The words: bit j is bit j mod 64 of word j div 64, and the bits after the last are zero.
    pub fn words(&self) -> &[u64]
        ensures len { length result.now ≡ (length self.now + 63) / 64 }
        ensures bits { (j : ℕ) → word_bit result.now j ≡ cond (slice_index_or self.now j false) 1 0 }
    {
        self.words.as_slice()
    }

    /// The bits that these words show.
    pub fn of_words(words: Vec<u64>, len: usize) -> Bits
        requires few { len ≤ 4096 }
        requires exact { vec_len words ≡ (len + 63) / 64 }
        requires clear { (j : ℕ) → len ≤ j → word_bit words.items j ≡ 0 }
        ensures { result ≡ bits_of len words.items }
    {
        Bits { words, len }
    }
}

/// One of two bits, and not both.
pub fn xor(a: bool, b: bool) -> bool
    ensures { result ≡ xor_of a b }
{
    if a { !b } else { b }
}

/// Whether the two words have the same bits.
fn same_word(a: u64, b: u64) -> bool
    ensures { IsTrue result ↔ ((k : ℕ) → k < 64 → bit_at a k ≡ bit_at b k) }
{
    a == b
}

/// Whether two lists of as many words show the same bits.
fn same_words(a: &Vec<u64>, b: &Vec<u64>) -> bool
    requires { length a.now.items ≡ length b.now.items }
    ensures { IsTrue result ↔ ((j : ℕ) → word_bit a.now.items j ≡ word_bit b.now.items j) }
{
    for i in 0..a.len() {
        if !same_word(a[i], b[i]) {
            return false;
        }
    }
    true
}

fn with_bit(word: u64, k: usize, bit: bool) -> u64
    requires { k < 64 }
    ensures same { bit_at result k ≡ cond bit 1 0 }
    ensures others { (i : ℕ) → i < 64 → i ≢ k → bit_at result i ≡ bit_at word i }
{
    if bit {
        word | (1 << k)
    } else {
        word & !(1 << k)
    }
}

fn xor_words(into: &mut Vec<u64>, from: &Vec<u64>)
    requires { vec_len into.old ≡ vec_len from.now }
    ensures { into.new.items ≡ zip2 bit_xor into.old.items from.now.items }
{
    for i in 0..from.len() {
        into[i] ^= from[i];
    }
}
