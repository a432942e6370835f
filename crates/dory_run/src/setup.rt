//! How a world begins.

use dory_base::{FolderId, Shape};

/// One folder, so many members from number 0 on, and the seed that all their keys are made of.
#[derive(Clone, Copy, Debug, PartialEq, Eq)]
pub struct Setup {
    pub folder: FolderId,
    pub shape: Shape,
    /// How many of its last versions each domain retains: 1 to 256.
    pub retained: u32,
    /// How many members there are: 1 to 64.
    pub members: u32,
    pub seed: u64,
}
