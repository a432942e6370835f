//! What a member asks, and what a domain answers.
use dory_base::{AskId, Entry, FolderId, Found, Refusal, Shape, UpdateId};
use dory_dpf::Keys;

/// What is asked of a folder.
#[derive(Debug, Drop)]
pub enum Want {
    /// The length of the history.
    Latest,
    /// What a version holds, with a sum for each key. There is a key for each probe, and all are of one form.
    Search {
        version: u32,
        shape: Shape,
        keys: Keys,
    },
    /// The id of the update of this number, where the first has number 1.
    Which {
        number: u32,
    },
    /// To keep an update until it is ordered.
    Stage {
        entry: Entry,
    },
    /// To give a staged update the next number.
    Order {
        id: UpdateId,
    },
    /// To give a staged update the number that the lead gave it.
    Follow {
        number: u32,
        id: UpdateId,
    },
}

/// What is asked of a folder, where another holds the keys or the entry.
#[derive(Clone, Copy, Debug)]
pub enum WantRef<'a> {
    Latest,
    Search {
        version: u32,
        shape: Shape,
        keys: &'a Keys,
    },
    Which {
        number: u32,
    },
    Stage {
        entry: &'a Entry,
    },
    Order {
        id: UpdateId,
    },
    Follow {
        number: u32,
        id: UpdateId,
    },
}

#[derive(Debug, Drop)]
pub struct Request {
    pub ask: AskId,
    pub folder: FolderId,
    pub want: Want,
}

/// What is answered to an ask.
#[derive(Debug, Drop)]
pub enum What {
    At { length: u32 },
    Found { found: Found },
    Id { number: u32, id: UpdateId },
    Staged { id: UpdateId },
    Committed { number: u32, id: UpdateId },
    Refused { code: Refusal },
}

#[derive(Debug, Drop)]
pub struct Reply {
    pub ask: AskId,
    pub what: What,
}
