//! First asks whose frames are known.

use super::members::{begun, kept, removing, save};
use crate::{Command, Member, Next};
use dory_base::Side;
use std::test::*;

// Latest of folder 1 under the ask 3.2.0.
const LATEST: [u8; 25] = [
    0, 0, 0, 21, 1, 0, 0, 0, 3, 0, 0, 0, 0, 0, 0, 0, 2, 0, 0, 0, 0, 0, 0, 0, 1,
];

// The removal 0.2 of document 7, staged under the ask 0.2.0.
const REMOVAL: [u8; 42] = [
    0, 0, 0, 38, 4, 0, 0, 0, 0, 0, 0, 0, 0, 0, 0, 0, 2, 0, 0, 0, 0, 0, 0, 0, 1, 0, 0, 0, 0, 0, 0,
    0, 0, 0, 0, 0, 2, 0, 0, 0, 7, 2,
];

/// Whether a member saves, and then asks a domain by this frame.
fn asks(member: Option<Member>, side: Side, frame: &[u8]) -> Option<bool> {
    let mut member = member?;
    let saves = member.next() == Next::Save && member.outcome().is_none();
    save(&mut member);
    Some(saves && member.next() == Next::Ask { side, frame })
}

#[test]
fn a_member_saves_and_then_asks_by_these_frames(rt: HostRuntime) {
    let latest = begun(rt.alloc(), kept(3, 2, 0), Command::Latest);
    assert_eq!(rt; asks(latest, Side::Lead, &LATEST), Some(true));
    let removal = removing(rt.alloc(), kept(0, 2, 0), 7);
    assert_eq!(rt; asks(removal, Side::Follow, &REMOVAL), Some(true));
}
