//! The words of a text, in order.
#![tactic(auto)]

#[cfg(test)]
mod tests;
mod text;

pub use text::words_of;
