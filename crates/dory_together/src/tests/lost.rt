//! A post whose Order is carried and whose reply is lost: another member's post repairs the follower, and then the first
//! post is resumed.

use super::kept;
use super::members::{begun, ends, hand_over, posting};
use super::served::{Domains, FOLLOW, ORDER, SAVE, STAGE, config, does, ends_by, replied};
use dory_base::Side;
use dory_domain::DomainCore;
use dory_kernel::{RowKernel, plain_parity};
use dory_member::{Command, Member, Next};
use std::alloc::Global;
use std::test::*;

/// Member 0 with its post of document 7, which the lead has at 1.
fn lost(alloc: Global, domains: &mut Domains) -> Option<Member> {
    let mut member = posting(alloc, kept(0, 1), 7, b"alpha")?;
    if !does(alloc, &mut member, domains, &[SAVE, STAGE, STAGE]) {
        return None;
    }
    replied(alloc, &member, domains)?;
    Some(member)
}

/// Member 1's post of document 9, staged at both domains.
fn staged(alloc: Global, domains: &mut Domains) -> Option<Member> {
    let mut member = posting(alloc, kept(1, 1), 9, b"beta")?;
    match does(alloc, &mut member, domains, &[SAVE, STAGE, STAGE]) {
        true => Some(member),
        false => None,
    }
}

/// Whether a member asks a domain by this frame. If so, it is handed the reply.
fn told(
    alloc: Global,
    member: &mut Member,
    domains: &mut Domains,
    side: Side,
    frame: &[u8],
) -> Option<bool> {
    let asked = member.next() == Next::Ask { side, frame };
    let reply = replied(alloc, member, domains)?;
    hand_over(alloc, member, &reply);
    Some(asked)
}

// Order 1.1 under the ask 1.1.2.
const ORDERED: [u8; 37] = [
    0, 0, 0, 33, 5, 0, 0, 0, 1, 0, 0, 0, 0, 0, 0, 0, 1, 0, 0, 0, 2, 0, 0, 0, 1, 0, 0, 0, 1, 0, 0,
    0, 0, 0, 0, 0, 1,
];

/// Follow a number with an update of serial 1, under an ask of member 1.
fn followed(step: u8, number: u8, member: u8) -> [u8; 41] {
    [
        0, 0, 0, 37, 6, 0, 0, 0, 1, 0, 0, 0, 0, 0, 0, 0, 1, 0, 0, 0, step, 0, 0, 0, 1, 0, 0, 0,
        number, 0, 0, 0, member, 0, 0, 0, 0, 0, 0, 0, 1,
    ]
}

// Which 1 under the ask 1.1.4.
const NAMED: [u8; 29] = [
    0, 0, 0, 25, 3, 0, 0, 0, 1, 0, 0, 0, 0, 0, 0, 0, 1, 0, 0, 0, 4, 0, 0, 0, 1, 0, 0, 0, 1,
];

/// Whether what member 1 asks from its Order on is these frames: the follower's first reply is a gap, since it misses 1.
fn repairs(alloc: Global, member: &mut Member, domains: &mut Domains) -> Option<bool> {
    let mut asked = told(alloc, member, domains, Side::Lead, &ORDERED)?;
    asked &= told(alloc, member, domains, Side::Follow, &followed(3, 2, 1))?;
    asked &= told(alloc, member, domains, Side::Lead, &NAMED)?;
    asked &= told(alloc, member, domains, Side::Follow, &followed(5, 1, 0))?;
    asked &= told(alloc, member, domains, Side::Follow, &followed(6, 2, 1))?;
    Some(asked)
}

/// Whether member 0 finishes its post, which both domains have by now.
fn resumes(alloc: Global, first: &Member, domains: &mut Domains) -> Option<bool> {
    let state = first.state().copy(alloc).ok()?;
    let mut member = begun(alloc, state, Command::Resume)?;
    let asked = [SAVE, STAGE, STAGE, ORDER, FOLLOW, SAVE];
    let ended = ends_by(alloc, &mut member, domains, &asked);
    Some(ended && ends(alloc, &member, "posted 7 at 1") && is_settled(&member))
}

/// Whether a member drew serials 1 and 2, one post is counted, version 1 is seen, and nothing is pending.
fn is_settled(member: &Member) -> bool {
    let state = member.state();
    state.next_serial == 3 && state.used == 1 && state.seen == 1 && state.pending.is_none()
}

/// The whole course: whether the frames of the repair, both ends and both lengths are right.
fn course(alloc: Global) -> Option<[bool; 4]> {
    let kernel = RowKernel::new(plain_parity);
    let lead = DomainCore::new(alloc, Side::Lead, &[config()], kernel).ok()?;
    let kernel = RowKernel::new(plain_parity);
    let follow = DomainCore::new(alloc, Side::Follow, &[config()], kernel).ok()?;
    let mut domains = Domains { lead, follow };
    let first = lost(alloc, &mut domains)?;
    let mut second = staged(alloc, &mut domains)?;
    let repaired = repairs(alloc, &mut second, &mut domains)?;
    let saved = does(alloc, &mut second, &mut domains, &[SAVE]);
    let posted = saved && ends(alloc, &second, "posted 9 at 2");
    let resumed = resumes(alloc, &first, &mut domains)?;
    let even = domains.lengths() == (Some(2), Some(2));
    Some([repaired, posted, resumed, even])
}

#[test]
fn a_post_repairs_the_follower_and_the_lost_post_is_resumed(rt: HostRuntime) {
    assert_eq!(rt; course(rt.alloc()), Some([true; 4]));
}
