//! The ChaCha20 words that the seeds of a search are drawn from.
ghost use Rattle.std.specs.Prelude.{◌≡◌, ◌≤◌, length, slice_index, EachIndex};
ghost use Rattle.dory_dpf.specs.Block.{stream_word};

use rand_chacha::ChaCha20Rng;
use rand_core::SeedableRng;
use rand_core::utils::NextWord;

/// Writes the words of a key and a stream, from place 0 on.
pub fn stream_words(key: &[u8; 32], stream: u64, into: &mut [u32])
    requires { length into.old ≤ 1024 }
    ensures len { length into.new ≡ length into.old }
    ensures words { EachIndex into.new (λ place. slice_index into.new place ≡ stream_word key.now stream place) }
{
    let mut rng = ChaCha20Rng::from_seed(*key);
    rng.set_stream(stream);
    for word in into.iter_mut() {
        *word = rng.next_word();
    }
}
