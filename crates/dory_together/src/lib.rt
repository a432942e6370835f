//! Members at two shared domains: each turn of a member, at its seats; and tests of members and the domains that they ask,
//! each proved in a crate that knows nothing of the other.
#![tactic(auto)]

mod seats;
#[cfg(test)]
mod tests;
mod turns;

pub use seats::answer;
pub use turns::{Seats, turn};
