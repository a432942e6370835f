//! What a member can do.

use dory_base::{Bits, DocId, Word};

/// One command of a member.
#[derive(Debug, Drop)]
pub enum Command {
    /// To give a document this plain row.
    Post { doc: DocId, row: Bits },
    Remove { doc: DocId },
    Search { word: Word },
    /// To finish the pending update.
    Resume,
    /// To learn how long both histories are.
    Latest,
    /// To begin a new epoch of keys.
    Rotate,
}
