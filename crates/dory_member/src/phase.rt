//! Where a command stands.

use crate::frame::Frame;
use crate::outcome::Outcome;
use dory_base::{Entry, UpdateId, Word};
use dory_query::Query;
use dory_state::KeptState;

/// What an update asks next. The last two repair a follower that is behind: each number that it misses is asked of the
/// lead, and followed.
#[derive(Clone, Copy, Debug, PartialEq, Eq)]
pub enum UpdateStep {
    StageFollow,
    StageLead,
    OrderLead,
    /// To follow at the number that the lead gave, before or after the repair.
    FollowOn { number: u32, repaired: bool },
    WhichOther { number: u32, at: u32 },
    FollowOther { number: u32, at: u32, id: UpdateId },
}

/// An ask whose reply is checked by itself, and what it names.
#[derive(Clone, Copy, Debug, PartialEq, Eq)]
pub enum Single {
    Which { number: u32 },
    Stage { id: UpdateId },
    Order { id: UpdateId },
    Follow { number: u32, id: UpdateId },
}

/// What is asked next, with what it needs.
#[derive(Debug, Drop)]
pub enum Phase {
    Updating {
        entry: Entry,
        at: UpdateStep,
    },
    /// The two lengths are asked, for a word's search where there is one. The lead's reply is held until the follower's.
    Measuring {
        word: Option<Word>,
        lead: Option<Frame>,
    },
    /// The keys are asked, and the lead's reply is held until the follower's.
    Searching {
        query: Query,
        lead: Option<Frame>,
    },
    Ended {
        outcome: Outcome,
    },
}

/// A command as far as it has come: what is kept, the seed of its keys, the serial of its asks, the step of the next one
/// and the phase.
#[derive(Drop)]
pub struct Run {
    pub kept: KeptState,
    pub seed: [u8; 32],
    pub serial: u64,
    pub step: u32,
    pub phase: Phase,
}
