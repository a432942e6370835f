//! Ways to a domain: the trait of a link, what it tells, and its forms in memory.
#![tactic(auto)]

mod answer;
mod domain_link;
mod exchange;
mod link;
mod script_link;
#[cfg(test)]
mod tests;

pub use domain_link::DomainLink;
pub use exchange::Exchange;
pub use link::{Link, LinkError};
pub use script_link::ScriptLink;
