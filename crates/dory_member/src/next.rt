//! What a member does next.

use dory_base::Side;

/// What has to be done for a command before it goes on.
#[derive(Clone, Copy, Debug, PartialEq, Eq)]
pub enum Next<'a> {
    /// Its state has to be saved.
    Save,
    /// This frame is to be sent to a domain.
    Ask { side: Side, frame: &'a [u8] },
    End,
}
