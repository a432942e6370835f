//! The shares of a key at all places, as the selector that a domain scans with: level by level, and depth first
//! without memory.
#![tactic(auto)]

mod depth_first;
mod leaf_words;
mod level_order;
#[cfg(test)]
mod tests;

pub use depth_first::expand_into;
pub use level_order::expand;
