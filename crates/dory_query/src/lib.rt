//! The keys of one search: for each position of the word a pair of point function keys, one for each domain.
#![tactic(auto)]

mod query;
mod seeds;

pub use query::Query;

#[cfg(test)]
mod tests;
