//! Fields of bytes, read from left to right and written one after the other: numbers with the highest byte first, single
//! bytes, so many bytes, and packed bits.
#![tactic(auto)]

mod fault;
mod packed;
mod reader;
#[cfg(test)]
mod tests;
mod writing;

pub use fault::FieldFault;
pub use packed::put_bits;
pub use reader::{Reader, u32_of, u64_of};
pub use writing::{put_u16, put_u32, put_u64};
