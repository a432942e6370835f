//! Making the two keys of a position.
ghost use Rattle.std.specs.Prelude.{◌≡◌, ◌≤◌, ◌<◌, ◌^◌, take};
ghost use Rattle.dory_base.specs.PointPair.{IsPointPair};
ghost use Rattle.dory_dpf.specs.Tree.{corrections_of, walk};
ghost use Rattle.dory_dpf.specs.PointKey.{long_key_of, path_of, root_of, short_key_of, shares_of};

use crate::generator::double;
use crate::key::Key;
use crate::path::goes_right;
use crate::sixteen::{only_bit, xor16};
use crate::tree::{Correction, Node, child, correct};
use dory_base::Shape;

/// The two keys of a position in form 1.
pub fn gen_long(shape: Shape, position: u16, seed0: [u8; 16], seed1: [u8; 16]) -> (Key, Key)
    requires { position < 2 ^ shape.depth }
    ensures lead { result.0 ≡ long_key_of 0 shape.depth position seed0 seed1 }
    ensures follow { result.1 ≡ long_key_of 1 shape.depth position seed0 seed1 }
    ensures pair { IsPointPair (2 ^ shape.depth) position (shares_of result.0) (shares_of result.1) }
{
    let depth = shape.depth();
    let grown = grow(depth as usize, position, &seed0, &seed1);
    (
        Key::of_parts(depth, 0, &seed0, &grown.corrections, None),
        Key::of_parts(depth, 1, &seed1, &grown.corrections, None),
    )
}

/// The two keys of a position in form 2.
pub fn gen_short(shape: Shape, position: u16, seed0: [u8; 16], seed1: [u8; 16]) -> (Key, Key)
    requires { position < 2 ^ shape.depth }
    ensures lead { result.0 ≡ short_key_of 0 shape.depth position seed0 seed1 }
    ensures follow { result.1 ≡ short_key_of 1 shape.depth position seed0 seed1 }
    ensures pair { IsPointPair (2 ^ shape.depth) position (shares_of result.0) (shares_of result.1) }
{
    let depth = shape.depth();
    let grown = grow(depth as usize - 7, position / 128, &seed0, &seed1);
    let ends = xor16(&grown.lead.seed, &grown.follow.seed);
    let last = xor16(&ends, &only_bit(position as usize % 128));
    (
        Key::of_parts(depth, 0, &seed0, &grown.corrections, Some(last)),
        Key::of_parts(depth, 1, &seed1, &grown.corrections, Some(last)),
    )
}

/// The corrections along a path, and the two parties' nodes at its end.
#[derive(Drop)]
struct Grown {
    corrections: [Correction; 11],
    lead: Node,
    follow: Node,
}

/// Goes along the path to a leaf with both parties' nodes.
fn grow(levels: usize, leaf: u16, seed0: &[u8; 16], seed1: &[u8; 16]) -> Grown
    requires { levels ≤ 11 }
    ensures corrections { take levels result.corrections ≡ corrections_of (path_of levels leaf) (root_of 0 seed0.now) (root_of 1 seed1.now) }
    ensures lead { result.lead ≡ walk (root_of 0 seed0.now) (take levels result.corrections) (path_of levels leaf) }
    ensures follow { result.follow ≡ walk (root_of 1 seed1.now) (take levels result.corrections) (path_of levels leaf) }
{
    let none = Correction {
        seed: [0; 16],
        left_bit: false,
        right_bit: false,
    };
    let mut corrections = [none; 11];
    let mut lead = Node {
        seed: *seed0,
        bit: false,
    };
    let mut follow = Node {
        seed: *seed1,
        bit: true,
    };
    for level in 0..levels {
        let right = goes_right(leaf, levels - 1 - level);
        let one = double(&lead.seed);
        let two = double(&follow.seed);
        let correction = correct(right, &one, &two);
        lead = child(right, lead.bit, &one, &correction);
        follow = child(right, follow.bit, &two, &correction);
        corrections[level] = correction;
    }
    Grown {
        corrections,
        lead,
        follow,
    }
}
