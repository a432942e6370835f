//! What a member keeps between two commands, as bytes.
#![tactic(auto)]

mod fault;
mod kept;
mod reading;
mod writing;

pub use fault::StateFault;
pub use kept::{KeptState, Pending};
pub use reading::read_state;
pub use writing::write_state;

#[cfg(test)]
mod tests;
