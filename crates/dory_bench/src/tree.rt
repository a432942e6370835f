//! Doubling a seed, making the keys of a position, and the shares of a key at all columns.
ghost use Rattle.std.specs.Prelude.{◌≡◌, ◌≤◌, ◌<◌, ◌+◌, ◌^◌};

use crate::fault::Fault;
use crate::names::shape;
use crate::run::Run;
use crate::work::{Depth, Form};
use dory_base::Shape;
use dory_dpf::{Key, double, gen_long, gen_short};
use dory_expand::expand_into;
use rand_chacha::ChaCha20Rng;
use rand_core::SeedableRng;
use rand_core::utils::NextWord;
use std::rt::Clock;

/// A seed that begins with this byte and a number, lowest byte first.
pub fn seed(first: u8, number: u32) -> [u8; 16] {
    let mut seed = [0; 16];
    seed[0] = first;
    seed[1..5].copy_from_slice(&number.to_le_bytes());
    seed
}

/// One seed at a time.
pub fn doubled<R: Clock>(run: &mut Run<R>) -> Result<(), Fault> {
    let start = run.start()?;
    for turn in 0..run.turns {
        let doubled = double(&seed(0, turn));
        run.sum.node(&doubled.left, doubled.left_bit);
        run.sum.node(&doubled.right, doubled.right_bit);
    }
    run.stop(start)
}

/// Four words of a stream as bytes, the lowest byte of each first.
fn sixteen(words: &[u32; 10], from: usize) -> [u8; 16]
    requires { from + 4 ≤ 10 }
{
    let mut bytes = [0; 16];
    bytes[..4].copy_from_slice(&words[from].to_le_bytes());
    bytes[4..8].copy_from_slice(&words[from + 1].to_le_bytes());
    bytes[8..12].copy_from_slice(&words[from + 2].to_le_bytes());
    bytes[12..].copy_from_slice(&words[from + 3].to_le_bytes());
    bytes
}

/// The first ten words of a seed's stream, by the toolchain's generator.
fn drawn(seed: &[u8; 16]) -> [u32; 10] {
    let mut key = [0; 32];
    key[..16].copy_from_slice(seed);
    let mut generator = ChaCha20Rng::from_seed(key);
    let mut words = [0; 10];
    for word in words.iter_mut() {
        *word = generator.next_word();
    }
    words
}

/// One seed at a time, through the toolchain's generator, which makes four blocks at once.
pub fn doubled_by_generator<R: Clock>(run: &mut Run<R>) -> Result<(), Fault> {
    let start = run.start()?;
    for turn in 0..run.turns {
        let words = drawn(&seed(0, turn));
        run.sum.node(&sixteen(&words, 0), words[8] & 1 == 1);
        run.sum.node(&sixteen(&words, 4), words[9] & 1 == 1);
    }
    run.stop(start)
}

/// A column of the shape, by a number.
fn column(shape: Shape, number: u32) -> u16
    ensures { result < 2 ^ shape.depth }
{
    match shape.depth() {
        8 => (number % 256) as u16,
        9 => (number % 512) as u16,
        10 => (number % 1024) as u16,
        _ => (number % 2048) as u16,
    }
}

/// The two keys of a column that a number gives, from two seeds that it gives.
fn pair(form: Form, shape: Shape, number: u32) -> (Key, Key)
    ensures { result.0.depth ≡ shape.depth }
{
    let column = column(shape, number.wrapping_mul(77));
    let (lead, follow) = (seed(1, number), seed(2, number));
    match form {
        Form::Long => gen_long(shape, column, lead, follow),
        Form::Short => gen_short(shape, column, lead, follow),
    }
}

/// The two keys of one column at a time.
pub fn keys<R: Clock>(run: &mut Run<R>, form: Form, depth: Depth) -> Result<(), Fault> {
    let shape = shape(depth);
    let start = run.start()?;
    for turn in 0..run.turns {
        let (lead, follow) = pair(form, shape, turn);
        run.sum.key(&lead);
        run.sum.key(&follow);
    }
    run.stop(start)
}

/// The shares of one key at a time.
pub fn shares<R: Clock>(run: &mut Run<R>, form: Form, depth: Depth) -> Result<(), Fault> {
    let shape = shape(depth);
    let (key, _follow) = pair(form, shape, 5);
    let mut words = [0; 32];
    let start = run.start()?;
    for _ in 0..run.turns {
        fill(&key, &mut words);
        run.sum.words(&words);
    }
    run.stop(start)
}

/// Writes the shares of a key to the first words.
fn fill(key: &Key, words: &mut [u64; 32]) {
    match key.depth() {
        8 => expand_into(key, &mut words[..4]),
        9 => expand_into(key, &mut words[..8]),
        10 => expand_into(key, &mut words[..16]),
        _ => expand_into(key, words),
    }
}
