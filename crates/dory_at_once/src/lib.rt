//! What a seat of a shared domain reads and publishes while others do so too, and tests of that by several threads.
#![tactic(auto)]

mod reading;
#[cfg(test)]
mod tests;
mod writing;

pub use reading::{Lengths, length, read_until};
pub use writing::publish;
