//! A member's command as a machine over replies: what it asks, what it checks of each reply, what it keeps and how it
//! ends.
#![tactic(auto)]

mod begin;
mod checks;
mod command;
mod draw;
mod frame;
mod framing;
mod law;
mod member;
mod next;
mod outcome;
mod phase;
mod seal;
mod text;
mod turn;

pub use begin::post_fault;
pub use command::Command;
pub use law::{answers, confirmed_replies, memory_is_never_wanted, reply_by_reply, whole_commands};
pub use member::{Member, Parts};
pub use next::Next;
pub use outcome::{Fault, Mark, Outcome};
pub use text::outcome_text;

#[cfg(test)]
mod tests;
