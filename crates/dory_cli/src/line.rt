//! What a command line says.

use dory_base::{DocId, FolderId, MemberId, Shape, Word};

/// A command with its values.
#[derive(Clone, Copy)]
pub enum Line {
    /// Begin a member's state, whose next serial is `serial`.
    Init {
        folder: FolderId,
        member: MemberId,
        shape: Shape,
        master: [u8; 32],
        serial: u64,
    },
    /// Post the document whose text is the input.
    Post {
        doc: DocId,
    },
    Remove {
        doc: DocId,
    },
    Search {
        word: Word,
    },
    /// Finish the update that is pending.
    Resume,
    /// Compare how far the two domains are.
    Latest,
    /// Begin a new epoch of keys.
    Rotate,
}
