//! The share of a key at one place.
ghost use Rattle.std.specs.Prelude.{◌≡◌};
ghost use Rattle.dory_dpf.specs.PointKey.{key_walk_end, share_at, share_of};

use crate::generator::double;
use crate::key::Key;
use crate::path::{goes_right, leaf_of};
use crate::sixteen::bit_of;
use crate::tree::{Node, child};

/// The share at a place. The shares of the two keys of a position differ there and nowhere else.
pub fn eval_at(key: &Key, place: u16) -> bool
    ensures { result ≡ share_of key.now place }
{
    let end = end_of(key, place);
    share_at(key, &end, place)
}

/// The end of the walk to a place.
fn end_of(key: &Key, place: u16) -> Node
    ensures { result ≡ key_walk_end key.now place }
{
    let levels = key.levels();
    let leaf = leaf_of(key.form(), place);
    let mut node = key.root();
    for level in 0..levels {
        let right = goes_right(leaf, levels - 1 - level);
        let doubled = double(&node.seed);
        node = child(right, node.bit, &doubled, key.correction(level));
    }
    node
}

/// The share at a place, from the end of the walk.
fn share_at(key: &Key, end: &Node, place: u16) -> bool
    ensures { result ≡ share_at key.now.last end.now place }
{
    match key.last() {
        None => end.bit,
        Some(word) => {
            let r = place as usize % 128;
            bit_of(&end.seed, r) ^ (end.bit & bit_of(word, r))
        }
    }
}
