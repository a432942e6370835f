//! What a run of a world is: members and the two domains of one folder, their messages and what may happen to them in any
//! order; and the law of every run. The crate has definitions and laws alone: what plays a world stands on it.
#![tactic(auto)]

mod bytes;
mod event;
mod law;
mod line;
mod setup;

pub use bytes::Bytes;
pub use event::{Event, Honest};
pub use law::{every_run, worked_runs};
pub use line::WorldLine;
pub use setup::Setup;
