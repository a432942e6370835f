//! One step of the tree: the child of a node, and the correction of two nodes.
ghost use Rattle.std.specs.Prelude.{◌≡◌, false, true, if◌then◌else◌};
ghost use Rattle.dory_dpf.specs.Tree.{child_of, child_under, correction_under};

use crate::generator::{Doubled, double};
use crate::sixteen::{corrected, xor16};

/// What makes the two parties' nodes agree off the path.
#[derive(Clone, Copy, Debug, PartialEq, Eq)]
pub struct Correction {
    pub seed: [u8; 16],
    pub left_bit: bool,
    pub right_bit: bool,
}

/// A seed and its control bit.
#[derive(Clone, Copy, Debug, PartialEq, Eq)]
pub struct Node {
    pub seed: [u8; 16],
    pub bit: bool,
}

impl Node {
    ghost use Rattle.dory_dpf.specs.Tree.{child_of};
    ghost use Rattle.dory_dpf.specs.Sixteen.{xor_bytes};

    /// The left and the right child under a correction.
    pub fn children(&self, correction: &Correction) -> (Node, Node)
        ensures left { result.0 ≡ child_of false self.now correction.now }
        ensures right { result.1 ≡ child_of true self.now correction.now }
    {
        let doubled = double(&self.seed);
        (
            child(false, self.bit, &doubled, correction),
            child(true, self.bit, &doubled, correction),
        )
    }

    /// The seed of a leaf, XORed with the last word where the bit is set: the shares at the leaf's 128 places.
    pub fn leaf_bits(&self, last: &[u8; 16]) -> [u8; 16]
        ensures { result ≡ if self.now.bit then xor_bytes self.now.seed last.now else self.now.seed }
    {
        corrected(self.bit, &self.seed, last)
    }
}

/// The child on a side of a node with this bit, whose seed was doubled.
pub fn child(right: bool, bit: bool, doubled: &Doubled, correction: &Correction) -> Node
    ensures { result ≡ child_under right bit doubled.now correction.now }
{
    if right {
        Node {
            seed: corrected(bit, &doubled.right, &correction.seed),
            bit: doubled.right_bit ^ (bit & correction.right_bit),
        }
    } else {
        Node {
            seed: corrected(bit, &doubled.left, &correction.seed),
            bit: doubled.left_bit ^ (bit & correction.left_bit),
        }
    }
}

/// The correction of two doubled seeds, where the path goes on to the right or to the left.
pub fn correct(right: bool, lead: &Doubled, follow: &Doubled) -> Correction
    ensures { result ≡ correction_under right lead.now follow.now }
{
    let seed = if right {
        xor16(&lead.left, &follow.left)
    } else {
        xor16(&lead.right, &follow.right)
    };
    Correction {
        seed,
        left_bit: lead.left_bit ^ follow.left_bit ^ right ^ true,
        right_bit: lead.right_bit ^ follow.right_bit ^ right,
    }
}
