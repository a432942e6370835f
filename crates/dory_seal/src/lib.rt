//! Sealed rows: the mask over a row's cells, the tag of each cell, and the check of a sealed entry.
#![tactic(auto)]

mod audit;
mod cell;
mod epoch;
mod epoch_keys;
mod mask;
mod message;
mod post;
#[cfg(test)]
mod tests;

pub use audit::{BadCell, check_sealed};
pub use cell::{Cell, cell_tag};
pub use epoch::epoch_of;
pub use epoch_keys::EpochKeys;
pub use mask::{Block, MaskBlock, mask_bit};
pub use post::{seal_post, seal_remove};
