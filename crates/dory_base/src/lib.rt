//! The types that every crate speaks of, and the definitions of histories, tables and sums.
#![tactic(auto)]

mod bits;
mod display;
mod docs;
mod entry;
mod event;
mod found;
mod ids;
mod plan;
mod refusal;
mod shape;
mod slot_table;
mod tag;
mod word;

pub use bits::{Bits, xor};
pub use docs::Docs;
pub use entry::{Change, Entries, Entry, Tags};
pub use event::Event;
pub use found::{Found, Manifest, Place, Sum, Sums};
pub use ids::{AskId, DocId, Failed, FolderId, MemberId, NoMemory, Side, UpdateId};
pub use plan::{Plan, StagePlan};
pub use refusal::Refusal;
pub use shape::Shape;
pub use slot_table::SlotTable;
pub use tag::Tag;
pub use word::{Word, WordFault};

#[cfg(test)]
mod tests;
