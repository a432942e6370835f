//! The words that leaves fill: 64 leaves a word in form 1, two words a leaf in form 2.
ghost use Rattle.std.specs.Prelude.{◌≡◌, ◌≤◌, ◌+◌, ◌<◌, ℕ, length, map, slice_index, take, drop};
ghost use Rattle.std.specs.Int.{w64, from_le_bytes};
ghost use Rattle.dory_expand.specs.Leaves.{leaf_bits, node_bit};
ghost use Rattle.dory_expand.specs.Shown.{all_bits, number_of_bits};

use dory_dpf::Node;

/// The word whose bits are those of up to 64 leaves.
pub fn word_of_leaves(leaves: &[Node]) -> u64
    requires some { 1 ≤ length leaves.now }
    requires few { length leaves.now ≤ 64 }
    ensures { result ≡ number_of_bits (map node_bit leaves.now) }
{
    if leaves.len() == 1 {
        return u64::from(leaves[0].bit);
    }
    let half = leaves.len() / 2;
    let low = word_of_leaves(&leaves[..half]);
    let high = word_of_leaves(&leaves[half..]);
    low + (high << half)
}

/// The two words of a leaf, under a last word.
pub fn words_of_leaf(leaf: &Node, last: &[u8; 16]) -> [u64; 2]
    ensures { all_bits result ≡ leaf_bits last.now leaf.now }
{
    let bytes = leaf.leaf_bits(last);
    [word_at(&bytes, 0), word_at(&bytes, 8)]
}

/// The word that eight bytes are, the lowest byte first.
fn word_at(bytes: &[u8; 16], at: usize) -> u64
    requires { at + 8 ≤ 16 }
    ensures value { result ≡ from_le_bytes w64 (take 8 (drop at bytes.now)) }
    ensures bytes { (i : ℕ) → slice_index bytes.now i < 256 }
{
    u64::from_le_bytes([
        bytes[at],
        bytes[at + 1],
        bytes[at + 2],
        bytes[at + 3],
        bytes[at + 4],
        bytes[at + 5],
        bytes[at + 6],
        bytes[at + 7],
    ])
}
