//! Posts at an honest follower and at a lead that says what it likes.

use super::kept;
use super::members::{ends, hand_over, posting, save};
use super::served::{answer, config};
use dory_base::Side;
use dory_domain::DomainCore;
use dory_kernel::{RowKernel, plain_parity};
use dory_member::{Member, Next};
use std::alloc::Global;
use std::test::*;

/// Staged with a member's first update, to its second ask.
fn staged(member: u8) -> [u8; 33] {
    [
        0, 0, 0, 29, 0x84, 0, 0, 0, member, 0, 0, 0, 0, 0, 0, 0, 1, 0, 0, 0, 1, 0, 0, 0, member, 0,
        0, 0, 0, 0, 0, 0, 1,
    ]
}

/// Committed 1 with the update `of.serial`, to a member's third ask.
fn committed(member: u8, of: u8, serial: u8) -> [u8; 37] {
    [
        0, 0, 0, 33, 0x85, 0, 0, 0, member, 0, 0, 0, 0, 0, 0, 0, 1, 0, 0, 0, 2, 0, 0, 0, 1, 0, 0,
        0, of, 0, 0, 0, 0, 0, 0, 0, serial,
    ]
}

/// The reply to what a member asks: the follower's own, or what the lead is told to say.
fn replied(
    alloc: Global,
    member: &Member,
    follow: &mut DomainCore,
    lead: &[u8],
) -> Option<Vec<u8>> {
    match member.next() {
        Next::Ask {
            side: Side::Follow,
            frame,
        } => answer(alloc, follow, frame),
        Next::Ask {
            side: Side::Lead,
            ..
        } => lead.to_vec(alloc).ok(),
        _ => None,
    }
}

/// An ask with its reply.
fn exchange(alloc: Global, member: &mut Member, follow: &mut DomainCore, lead: &[u8]) {
    if let Some(reply) = replied(alloc, member, follow, lead) {
        hand_over(alloc, member, &reply);
    }
}

/// A member's post up to its end, where the lead says so to the second and to the third ask.
fn plays(
    alloc: Global,
    member: &mut Member,
    follow: &mut DomainCore,
    staged: &[u8],
    ordered: &[u8],
) {
    save(member);
    exchange(alloc, member, follow, staged);
    exchange(alloc, member, follow, staged);
    exchange(alloc, member, follow, ordered);
    exchange(alloc, member, follow, ordered);
    save(member);
}

/// Whether member 0's post of document 7 stands at 1 at the follower.
fn posted(alloc: Global, follow: &mut DomainCore) -> Option<bool> {
    let mut first = posting(alloc, kept(0, 1), 7, b"alpha")?;
    plays(alloc, &mut first, follow, &staged(0), &committed(0, 0, 1));
    Some(ends(alloc, &first, "posted 7 at 1"))
}

/// Whether member 1's post, whose Order is answered by Committed 1 with this update, ends so and stays pending.
fn refused(alloc: Global, follow: &mut DomainCore, of: u8, serial: u8, text: &str) -> Option<bool> {
    let mut second = posting(alloc, kept(1, 1), 9, b"beta")?;
    plays(
        alloc,
        &mut second,
        follow,
        &staged(1),
        &committed(1, of, serial),
    );
    Some(ends(alloc, &second, text) && second.state().pending.is_some())
}

/// Whether the two posts, one after the other, end so.
fn course(alloc: Global, of: u8, serial: u8, text: &str) -> Option<[bool; 2]> {
    let kernel = RowKernel::new(plain_parity);
    let mut follow = DomainCore::new(alloc, Side::Follow, &[config()], kernel).ok()?;
    let first = posted(alloc, &mut follow)?;
    let second = refused(alloc, &mut follow, of, serial, text)?;
    Some([first, second])
}

#[test]
fn a_number_that_the_follower_has_for_another_update_is_told(rt: HostRuntime) {
    let ends = course(rt.alloc(), 1, 1, "diverged 1 1.1 0.1");
    assert_eq!(rt; ends, Some([true; 2]));
}

#[test]
fn another_update_than_the_one_ordered_is_told(rt: HostRuntime) {
    let ends = course(rt.alloc(), 9, 9, "unconfirmed lead 1 1.1 1 9.9");
    assert_eq!(rt; ends, Some([true; 2]));
}
