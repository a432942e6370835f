//! What happens to a folder, as histories of operations have it.
use crate::{Entry, UpdateId};

/// This update is staged, or the staged update of this id joins the history. Contracts alone have values of it: it is a
/// type of the language since a history that is shared between threads is kept by the type of what it lists.
pub enum Event {
    Staged(Entry),
    Appended(UpdateId),
}
