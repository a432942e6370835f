//! A domain that several callers use at once: each has a seat, which reads what is published without waiting; updates are made under a lock for each folder.
#![tactic(auto)]

mod cabinet;
mod desk;
mod domain;
mod held;
mod locks;
mod names;
mod note;
mod opened;
mod place;
mod seat;
#[cfg(test)]
mod tests;

pub use domain::Domain;
pub use held::Held;
pub use names::Names;
pub use note::Note;
pub use opened::{OpenError, Opened, open_domain};
pub use seat::Seat;
