//! What is published.
use dory_base::{Entry, UpdateId};
use dory_chunks::Version;
use std::sync::Arc;

/// An operation: an update is staged, or the staged update of an id is appended, which makes a version.
#[derive(Drop)]
pub enum ShelfOp {
    Staged(Arc<Entry>),
    Appended(UpdateId, Arc<Version>),
}
