//! Why a domain refuses a request.

use crate::{MemberId, Side, UpdateId};

/// A refusal leaves the domain as it was, and carries what the member has to know.
#[derive(Clone, Copy, Debug, PartialEq, Eq)]
pub enum Refusal {
    NoFolder,
    ShapeWrong { depth: u8, probes: u8 },
    Unretained { oldest: u32, newest: u32 },
    BadMember { member: MemberId },
    Past { last: u64 },
    Clash { id: UpdateId },
    Unfinished { id: UpdateId },
    Unstaged { id: UpdateId },
    Taken { number: u32, id: UpdateId },
    Gap { length: u32 },
    WrongRole { role: Side },
    HistoryFull,
    NoEntry { length: u32 },
    NoMemory,
}
