//! Real files, for every program: a state that is kept in one, a file that its owner alone may read, the lock beside it,
//! and the three standard descriptors.
#![tactic(auto)]

mod descriptors;
mod file_keeper;
mod own;
mod place;
#[cfg(test)]
mod tests;

pub use descriptors::{Descriptors, occupied};
pub use file_keeper::FileKeeper;
pub use own::{held_lock, open_own, replace};
