//! Where a word's bits lie in a row, and the row of a document's words.
#![tactic(auto)]

mod probes;
mod recent;
mod row;
#[cfg(test)]
mod tests;

pub use probes::{keyed_positions, positions};
pub use row::plain_row;
