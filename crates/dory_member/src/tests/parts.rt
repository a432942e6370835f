//! What is left of a command.

use super::members::{begun, kept, posting, save};
use crate::{Command, Outcome, Parts};
use std::alloc::Global;
use std::test::*;

/// Whether a rotation leaves its epoch's state, from which a search begins with the epoch's first serial.
fn goes_on(alloc: Global) -> Option<bool> {
    let mut rotation = begun(alloc, kept(0, 9, 7), Command::Rotate)?;
    save(&mut rotation);
    let Parts { state, outcome } = rotation.into_parts();
    let ended = match outcome {
        Some(Outcome::Rotated { epoch }) => epoch == 1,
        _ => false,
    };
    let first = state.next_serial;
    let next = begun(alloc, state, Command::Latest)?;
    Some(ended && next.state().next_serial.checked_sub(first) == Some(1))
}

/// Whether a post that hasn't ended leaves what it has kept, and no outcome.
fn stays_pending(alloc: Global) -> Option<bool> {
    let post = posting(alloc, kept(0, 1, 0), 7, b"alpha")?;
    let Parts { state, outcome } = post.into_parts();
    Some(outcome.is_none() && state.pending.is_some() && state.next_serial == 2)
}

#[test]
fn a_command_leaves_its_state_and_its_outcome(rt: HostRuntime) {
    assert_eq!(rt; goes_on(rt.alloc()), Some(true));
    assert_eq!(rt; stays_pending(rt.alloc()), Some(true));
}
