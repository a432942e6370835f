//! Several ports served at once, each by a thread of its own, and each with what answers its connections; and whether as many
//! threads can be made.
#![tactic(auto)]

mod lane;
mod serving;
#[cfg(test)]
mod tests;
mod trial;

pub use lane::Lane;
pub use serving::serve_lanes;
pub use trial::{FailingThreads, SystemThreads, ThreadMaker};
