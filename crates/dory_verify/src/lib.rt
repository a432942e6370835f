//! What a member checks of two domains' replies before it believes them.
#![tactic(auto)]

mod answer;
mod epochs;
mod fault;
mod latest;
mod law;
mod listing;
mod pair;
mod reply;
mod search;
mod tags;

pub use answer::Answer;
pub use fault::{CheckFault, VerifyError};
pub use latest::check_latest;
pub use law::{
    both_honest_pass, honest_is_no_forgery, right_beside_an_honest_domain, tags_decide, verified,
};
pub use reply::{Allowed, echoed, formed};
pub use search::verify;
pub use tags::check_tags;

#[cfg(test)]
mod tests;
