//! What breaks a conversation off.

use dory_base::Side;

/// Why a conversation came to no outcome.
#[derive(Clone, Copy, Debug, PartialEq, Eq)]
pub enum Broken {
    KeeperFault,
    LinkFault { side: Side },
    NoMemory,
}
