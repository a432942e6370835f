//! Sessions at a seat of a shared domain.
#![tactic(auto)]

mod at_seat;
mod crew;
mod named_seat;
#[cfg(test)]
mod tests;

pub use at_seat::{AtSeat, serve_seat};
pub use named_seat::NamedSeat;
