//! A folder's log: it decides what may be staged and committed, and puts it without taking memory.
#![tactic(auto)]

mod log;
mod numbers;
mod own;
mod places;
#[cfg(test)]
mod tests;

pub use dory_base::{Plan, StagePlan};
pub use log::FolderLog;

/// How many members a folder has.
pub(crate) const MEMBERS: usize = 64;
