//! The seeds of the trees, out of the words that are drawn for a search.
ghost use Rattle.std.specs.Prelude.{◌≡◌, ◌≤◌, ◌+◌, ◌++◌, length, slice_index, EachIndex};
ghost use Rattle.std.specs.Int.{w32, to_le_bytes};
ghost use Rattle.dory_dpf.specs.Block.{stream_word};

use dory_dpf::stream_words;

/// The number of words that eight probes take.
pub const WORDS: usize = 64;

/// The words of a seed and a stream.
pub fn drawn(seed: &[u8; 32], stream: u64) -> [u32; 64]
    ensures { EachIndex result (λ place. slice_index result place ≡ stream_word seed.now stream place) }
{
    let mut words = [0; WORDS];
    stream_words(seed, stream, &mut words);
    words
}

/// Four words from one place on, each with its lowest byte first.
pub fn seed_at(words: &[u32; 64], at: usize) -> [u8; 16]
    requires { at + 4 ≤ 64 }
    ensures { result ≡ to_le_bytes w32 (slice_index words.now at) ++ to_le_bytes w32 (slice_index words.now (at + 1))
        ++ to_le_bytes w32 (slice_index words.now (at + 2)) ++ to_le_bytes w32 (slice_index words.now (at + 3)) }
{
    let mut bytes = [0u8; 16];
    bytes[..4].copy_from_slice(&words[at].to_le_bytes());
    bytes[4..8].copy_from_slice(&words[at + 1].to_le_bytes());
    bytes[8..12].copy_from_slice(&words[at + 2].to_le_bytes());
    bytes[12..].copy_from_slice(&words[at + 3].to_le_bytes());
    bytes
}
