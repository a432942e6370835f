//! A folder's operations on a disk, each of them there before it is acknowledged.
#![tactic(auto)]

mod fault;
mod journal;
mod load;
mod look;
mod number;
mod open;
mod piece;
mod replay;
mod writing;

pub use fault::JournalFault;
pub use journal::Journal;
pub use open::Unopened;

#[cfg(test)]
mod tests;
