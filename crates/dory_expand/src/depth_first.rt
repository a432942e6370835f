//! Expansion depth first: only the nodes on the way down to one leaf are held at a time.
ghost use Rattle.std.specs.Prelude.{◌≡◌, ◌≤◌, ◌*◌, ◌/◌, ◌^◌, length, map, flat_map};
ghost use Rattle.dory_base.specs.Packed.{bits_of};
ghost use Rattle.dory_dpf.specs.PointKey.{shares_of};
ghost use Rattle.dory_expand.specs.Leaves.{leaf_bits, leaves_of, node_bit};
ghost use Rattle.dory_expand.specs.Shown.{all_bits, number_of_bits};

use crate::leaf_words::words_of_leaf;
use dory_dpf::{Correction, Key, Node};

/// Writes the shares of a key at all places: bit j is bit j mod 64 of word j div 64.
pub fn expand_into(key: &Key, into: &mut [u64])
    requires { length into.old ≡ 2 ^ key.now.depth / 64 }
    ensures len { length into.new ≡ length into.old }
    ensures bits { bits_of (2 ^ key.now.depth) into.new ≡ shares_of key.now }
{
    match key.last() {
        None => fill_long(&key.root(), key.corrections(), into),
        Some(word) => fill_short(&key.root(), key.corrections(), word, into),
    }
}

/// Writes the bits of the leaves below a node, where 64 of them fill a word.
fn fill_long(node: &Node, corrections: &[Correction], into: &mut [u64])
    requires levels { 6 ≤ length corrections.now }
    requires whole { 64 * length into.old ≡ 2 ^ length corrections.now }
    ensures len { length into.new ≡ length into.old }
    ensures bits { all_bits into.new ≡ map node_bit (leaves_of node.now corrections.now) }
{
    if corrections.len() == 6 {
        into[0] = word_below(node, corrections);
        return;
    }
    let (left, right) = node.children(&corrections[0]);
    let rest = &corrections[1..];
    let half = into.len() / 2;
    let (low, high) = into.split_at_mut(half);
    fill_long(&left, rest, low);
    fill_long(&right, rest, high);
}

/// The word whose bits are those of the leaves below a node, up to 64 of them.
fn word_below(node: &Node, corrections: &[Correction]) -> u64
    requires { length corrections.now ≤ 6 }
    ensures { result ≡ number_of_bits (map node_bit (leaves_of node.now corrections.now)) }
{
    if corrections.is_empty() {
        return u64::from(node.bit);
    }
    let (left, right) = node.children(&corrections[0]);
    let rest = &corrections[1..];
    let low = word_below(&left, rest);
    let high = word_below(&right, rest);
    low + (high << leaves_below(rest.len()))
}

/// How many leaves are below a node with so many levels below it.
#[inline(always)]
fn leaves_below(levels: usize) -> usize
    requires { levels ≤ 5 }
    ensures value { result ≡ 2 ^ levels }
    ensures few { result ≤ 32 }
{
    match levels {
        0 => 1,
        1 => 2,
        2 => 4,
        3 => 8,
        4 => 16,
        _ => 32,
    }
}

/// Writes the bits of the leaves below a node, where each fills two words.
fn fill_short(node: &Node, corrections: &[Correction], last: &[u8; 16], into: &mut [u64])
    requires { length into.old ≡ 2 * 2 ^ length corrections.now }
    ensures len { length into.new ≡ length into.old }
    ensures bits { all_bits into.new ≡ flat_map (leaf_bits last.now) (leaves_of node.now corrections.now) }
{
    if corrections.is_empty() {
        into.copy_from_slice(&words_of_leaf(node, last));
        return;
    }
    let (left, right) = node.children(&corrections[0]);
    let rest = &corrections[1..];
    let half = into.len() / 2;
    let (low, high) = into.split_at_mut(half);
    fill_short(&left, rest, last, low);
    fill_short(&right, rest, last, high);
}
