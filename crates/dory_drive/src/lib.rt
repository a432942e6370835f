//! One drive for every conversation with the two domains, over all that stands outside it as one value.
#![tactic(auto)]

mod broken;
mod conversation;
mod driving;
mod law;
mod member;
mod outside;
mod save;
#[cfg(test)]
mod tests;

pub use broken::Broken;
pub use conversation::Conversation;
pub use driving::drive;
pub use law::{came_in_turn, right_beside_a_told_link};
pub use outside::{Borrowed, Outside};
pub use save::keep;
