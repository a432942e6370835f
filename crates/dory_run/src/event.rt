//! What may happen in a world, and which of its domains are honest.

use crate::bytes::Bytes;
use dory_base::{MemberId, Side};
use dory_member::Command;

/// The domains that answer as they should. Of one that doesn't, any bytes may come.
#[derive(Clone, Copy, Debug, PartialEq, Eq)]
pub enum Honest {
    Both,
    Lead,
    Follow,
}

/// One event. Messages are numbered from 0 in the order in which they were put.
#[derive(Debug, Drop)]
pub enum Event {
    /// An idle member begins a command.
    Begin {
        member: MemberId,
        command: Command,
    },
    /// An ask comes to its domain, which answers it. It may come again, at any time.
    Carry {
        message: u32,
    },
    /// A reply comes to its member, which waits for one of that domain.
    Return {
        message: u32,
    },
    /// A domain that isn't honest puts any bytes to a member.
    Lie {
        side: Side,
        member: MemberId,
        bytes: Bytes,
    },
    /// A domain that isn't honest puts a reply again, with its bytes from one place on XORed by a mask.
    Bend {
        message: u32,
        at: u32,
        mask: Bytes,
    },
    /// A member gives its command up.
    Quit {
        member: MemberId,
    },
}
