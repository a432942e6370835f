//! A folder's documents at one version, kept plainly as a list of slots.
#![tactic(auto)]

mod slots;
mod table;
#[cfg(test)]
mod tests;

pub use table::Table;
