//! Command lines: the words that a person types are read as one command with its values, or the first thing that is wrong with them is told.
#![tactic(auto)]

mod checked;
mod fault;
mod init;
mod line;
mod reading;
mod values;
mod word;

pub use fault::{NumberField, UsageFault};
pub use line::Line;
pub use reading::read_line;

#[cfg(test)]
mod tests;
