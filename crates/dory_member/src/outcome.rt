//! How a command ends.
ghost use Rattle.std.specs.Prelude.{◌≡◌};
ghost use Rattle.dory_member.specs.declared.outcome.Fault.TheVariants as fault;

use dory_base::{DocId, Side, UpdateId};
use dory_verify::{Answer, CheckFault};

/// A number and an update, as a reply confirms them.
#[derive(Clone, Copy, Debug, PartialEq, Eq)]
pub struct Mark {
    pub number: u32,
    pub id: UpdateId,
}

/// Why a command ends without its end.
#[derive(Clone, Copy, Debug, PartialEq, Eq)]
pub enum Fault {
    /// The first check that fails.
    Check(CheckFault),
    /// The reply confirms another update, or another number, than the one that was asked.
    Unconfirmed {
        side: Side,
        want: Mark,
        got: Mark,
    },
    /// The two domains have different updates at one number.
    Diverged {
        number: u32,
        lead_id: UpdateId,
        follow_id: UpdateId,
    },
    /// This update has to be finished first.
    Unfinished {
        id: UpdateId,
    },
    /// No serial is left.
    SerialEnd,
    /// No epoch is left.
    EpochEnd,
    NoMemory,
}

impl From<dory_base::NoMemory> for Fault {
    ghost from_gives = { λ _ e. e ≡ fault.NoMemory };

    fn from(_error: dory_base::NoMemory) -> Fault {
        Fault::NoMemory
    }
}

/// How a command ends.
#[derive(Debug, Drop)]
pub enum Outcome {
    /// The document has its row in both histories, at this number.
    Posted { doc: DocId, number: u32 },
    /// The document is removed in both histories, at this number.
    Removed { doc: DocId, number: u32 },
    Accepted { answer: Answer },
    NothingPending,
    /// How long the two histories are, and which version was seen.
    Lengths { lead: u32, follow: u32, seen: u32 },
    /// Serials are of this epoch from now on.
    Rotated { epoch: u8 },
    Failed(Fault),
}
