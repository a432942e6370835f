//! Expansion level by level: all nodes of a level, then all of the next.
ghost use Rattle.std.specs.Prelude.{◌≡◌, ◌≤◌, ◌*◌, ◌%◌, ◌^◌, ◌++◌, IfOk, OnOk, length, map, flat_map};
ghost use Rattle.dory_base.specs.Packed.{bits_of};
ghost use Rattle.dory_dpf.specs.PointKey.{IsKey, root_of, shares_of};
ghost use Rattle.dory_expand.specs.Leaves.{children_of, leaf_bits, leaves_of, node_bit};
ghost use Rattle.dory_expand.specs.Shown.{all_bits};

use crate::leaf_words::{word_of_leaves, words_of_leaf};
use dory_base::{Bits, NoMemory};
use dory_dpf::{Correction, Key, Node};
use std::alloc::Global;

/// The shares of a key at all places.
pub fn expand(alloc: Global, key: &Key) -> Result<Bits, NoMemory>
    ensures { IfOk result (λ bits. bits ≡ shares_of key.now) }
{
    let columns = columns(key);
    let leaves = leaves_below_root(alloc, key)?;
    let words = words_of(alloc, key, &leaves)?;
    Ok(Bits::of_words(words, columns))
}

/// The number of places.
fn columns(key: &Key) -> usize
    ensures value { result ≡ 2 ^ key.now.depth }
    ensures few { result ≤ 4096 }
    ensures key { IsKey key.now }
{
    match key.depth() {
        8 => 256,
        9 => 512,
        10 => 1024,
        _ => 2048,
    }
}

/// The leaves of the tree.
fn leaves_below_root(alloc: Global, key: &Key) -> Result<Vec<Node>, NoMemory>
    ensures { IfOk result (λ nodes. nodes.items ≡ leaves_of (root_of key.now.party key.now.seed) key.now.corrections) }
{
    let mut nodes = Vec::new(alloc);
    nodes.push(key.root())?;
    for correction in key.corrections() {
        nodes = next_level(alloc, &nodes, correction)?;
    }
    Ok(nodes)
}

/// The children of all nodes of a level.
fn next_level(alloc: Global, nodes: &[Node], correction: &Correction) -> Result<Vec<Node>, NoMemory>
    ensures { IfOk result (λ next. next.items ≡ flat_map (children_of correction.now) nodes.now) }
{
    let mut next = Vec::with_capacity(alloc, nodes.len() * 2)?;
    for node in nodes {
        push_children(&mut next, node, correction)?;
    }
    Ok(next)
}

fn push_children(out: &mut Vec<Node>, node: &Node, correction: &Correction) -> Result<(), NoMemory>
    ensures { OnOk result (out.new.items ≡ out.old.items ++ children_of correction.now node.now) }
{
    let (left, right) = node.children(correction);
    out.push(left)?;
    out.push(right)?;
    Ok(())
}

/// The words that the leaves fill.
fn words_of(alloc: Global, key: &Key, leaves: &[Node]) -> Result<Vec<u64>, NoMemory>
    requires key { IsKey key.now }
    requires whole { leaves.now ≡ leaves_of (root_of key.now.party key.now.seed) key.now.corrections }
    ensures len { IfOk result (λ words. 64 * length words.items ≡ 2 ^ key.now.depth) }
    ensures bits { IfOk result (λ words. bits_of (2 ^ key.now.depth) words.items ≡ shares_of key.now) }
{
    match key.last() {
        None => long_words(alloc, leaves),
        Some(word) => short_words(alloc, leaves, word),
    }
}

/// Each word from 64 leaves.
fn long_words(alloc: Global, leaves: &[Node]) -> Result<Vec<u64>, NoMemory>
    requires { length leaves.now % 64 ≡ 0 }
    ensures { IfOk result (λ words. all_bits words.items ≡ map node_bit leaves.now) }
{
    let mut words = Vec::with_capacity(alloc, leaves.len() / 64)?;
    for i in 0..leaves.len() / 64 {
        words.push(word_of_leaves(&leaves[64 * i..64 * i + 64]))?;
    }
    Ok(words)
}

/// Two words from each leaf.
fn short_words(alloc: Global, leaves: &[Node], last: &[u8; 16]) -> Result<Vec<u64>, NoMemory>
    ensures { IfOk result (λ words. all_bits words.items ≡ flat_map (leaf_bits last.now) leaves.now) }
{
    let mut words = Vec::with_capacity(alloc, leaves.len() * 2)?;
    for leaf in leaves {
        words.extend_from_slice(&words_of_leaf(leaf, last))?;
    }
    Ok(words)
}
