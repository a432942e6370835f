//! What is told of an event.

use dory_base::{MemberId, Refusal, Side};
use dory_member::Outcome;

/// The line of an event that was played. A kind is the first byte of a message.
#[derive(Debug, Drop)]
pub enum WorldLine {
    /// A member's ask was put.
    Ask {
        message: u32,
        side: Side,
        kind: u8,
    },
    /// A domain's reply was put. A refusal is there where it is one.
    Reply {
        message: u32,
        side: Side,
        kind: u8,
        refusal: Option<Refusal>,
    },
    /// Other bytes were put in a domain's name.
    Lied {
        message: u32,
        side: Side,
    },
    /// A command ended.
    Ended {
        member: MemberId,
        outcome: Outcome,
    },
    /// A member gave its command up.
    Quit {
        member: MemberId,
    },
}
