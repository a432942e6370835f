//! A world that is played: real members and the real cores of two domains, and any list of events, whose lines are those of
//! the definition.
#![tactic(auto)]

mod answering;
mod asking;
mod copying;
mod lines;
mod lying;
mod note;
mod place;
mod playing;
mod seeds;
mod starting;
mod stepping;
mod taking;
mod world;

pub use dory_run::{Bytes, Event, Honest, Setup, WorldLine};
pub use lines::Lines;
pub use playing::{Played, play};

#[cfg(test)]
mod tests;
