//! What stands outside the program, as traits with counted faults, and their forms in memory.
#![tactic(auto)]

mod address;
mod binder;
mod fails;
mod keeper;
mod numbers;
mod output;
mod port;
mod sink;
mod source;
#[cfg(test)]
mod tests;

pub use address::{Address, between_colons};
pub use binder::{Binder, MemBinder};
pub use dory_base::Failed;
pub use fails::Fails;
pub use keeper::{KeepError, Keeper, MemKeeper};
pub use numbers::{number, number_in_bytes};
pub use output::write_all;
pub use port::{MemPort, Port};
pub use sink::{Sink, VecSink};
pub use source::{Source, VecSource};
