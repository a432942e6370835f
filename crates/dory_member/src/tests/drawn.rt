//! The serials that commands draw, and the epochs that they are of.
ghost use Rattle.std.specs.Prelude.{◌≤◌};

use super::members::{begun, ends, kept, posting, removing, save};
use crate::{Command, Member, Next};
use std::alloc::Global;
use std::test::*;

const EPOCH: u64 = 72_057_594_037_927_936;

/// The serial of a member's update, the next one, and how many posts are counted.
fn drawn(member: &Member) -> Option<(u64, u64, u32)> {
    let state = member.state();
    let update = state.pending.as_ref()?;
    Some((update.serial, state.next_serial, state.used))
}

/// What a post draws.
fn by_post(alloc: Global, next_serial: u64, used: u32) -> Option<(u64, u64, u32)>
    requires some { 1 ≤ next_serial }
    requires used { used ≤ 65536 }
{
    let member = posting(alloc, kept(0, next_serial, used), 7, b"alpha")?;
    drawn(&member)
}

/// What a removal draws.
fn by_removal(alloc: Global, next_serial: u64, used: u32) -> Option<(u64, u64, u32)>
    requires some { 1 ≤ next_serial }
    requires used { used ≤ 65536 }
{
    let member = removing(alloc, kept(0, next_serial, used), 7)?;
    drawn(&member)
}

#[test]
fn a_post_begins_an_epoch_where_its_posts_are_used_up(rt: HostRuntime) {
    let alloc = rt.alloc();
    assert_eq!(rt; by_post(alloc, 9, 65_536), Some((EPOCH, EPOCH + 1, 1)));
    assert_eq!(rt; by_post(alloc, 9, 65_535), Some((9, 10, 65_536)));
    assert_eq!(rt; by_post(alloc, EPOCH - 1, 7), Some((EPOCH - 1, EPOCH, 0)));
}

#[test]
fn a_removal_counts_no_post(rt: HostRuntime) {
    let alloc = rt.alloc();
    assert_eq!(rt; by_removal(alloc, 9, 65_536), Some((9, 10, 65_536)));
    assert_eq!(rt;
        by_removal(alloc, EPOCH - 1, 7),
        Some((EPOCH - 1, EPOCH, 0))
    );
}

/// Whether a rotation saves, ends with the epoch that begins, and counts no post.
fn rotates(alloc: Global) -> Option<bool> {
    let mut member = begun(alloc, kept(0, 9, 7), Command::Rotate)?;
    let saves = member.next() == Next::Save && member.outcome().is_none();
    save(&mut member);
    let ended = member.next() == Next::End && ends(alloc, &member, "epoch 1");
    let state = member.state();
    Some(saves && ended && state.next_serial == EPOCH && state.used == 0)
}

#[test]
fn a_rotation_begins_an_epoch_and_asks_nothing(rt: HostRuntime) {
    assert_eq!(rt; rotates(rt.alloc()), Some(true));
}
