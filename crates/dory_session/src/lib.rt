//! One connection to a domain: messages are read, each request is answered in order, and the first fault ends it.
#![tactic(auto)]

mod answers;
mod end;
mod intake;
mod reply;
mod serve;
#[cfg(test)]
mod tests;

pub use answers::Answers;
pub use end::{How, SessionEnd};
pub use serve::{serve_core, serve_session};
