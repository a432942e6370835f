//! A shelf: a history of operations that one writer publishes, and the last versions of its folder, which readers take without waiting.
#![tactic(auto)]

mod book;
mod front;
mod op;
mod open;
mod places;
mod reader;
mod rule;
mod store;
#[cfg(test)]
mod tests;
mod told;
mod writer;

pub use op::ShelfOp;
pub use open::open_shelf;
pub use places::{FailingPlaces, PlaceMaker, Places};
pub use reader::ShelfReader;
pub use told::Told;
pub use writer::ShelfWriter;
