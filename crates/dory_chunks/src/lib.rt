//! A folder's documents at one version, in chunks of slots that versions share: what a server scans.
#![tactic(auto)]

mod chunk;
mod columns;
mod marks;
mod parts;
mod steps;
#[cfg(test)]
mod tests;
mod version;

pub use steps::Steps;
pub use version::Version;
