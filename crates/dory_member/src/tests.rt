//! A member's first asks, how commands begin, what they draw and every text of an outcome.

mod asked;
mod begun;
mod drawn;
mod members;
mod parts;
mod texts;
