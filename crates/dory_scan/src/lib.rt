//! What a domain answers to a search, by one pass over the rows of a version: for each selector a parity for each live slot, and one tag.
#![tactic(auto)]

mod block;
mod blocks;
mod parity;
mod scans;
mod sums;
mod tags;
#[cfg(test)]
mod tests;

pub use scans::{scan, scan_parallel};
