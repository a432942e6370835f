//! The innermost loops of a scan: whether a row and a selector have an odd number of ones in common, and the XOR of rows of tags.
#![tactic(auto)]

mod parity;
mod row_kernel;
mod tags;
#[cfg(test)]
mod tests;

pub use parity::{lane_parity, plain_parity};
pub use row_kernel::RowKernel;
pub use tags::xor_tags;
