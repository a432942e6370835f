//! Runs in which one domain isn't honest.

use super::scripts::{
    bend, carry, ends, first_post, give_back, lie, played, post, search, turn, turns,
};
use crate::{Event, Honest};
use dory_base::Side;
use dory_kernel::{RowKernel, plain_parity};
use std::alloc::Global;
use std::test::*;

/// Member 0 posts document 7, and member 1 searches up to the follower's reply, which is message 15.
fn searched(alloc: Global) -> Option<Vec<Event>> {
    let mut events = first_post(alloc, b"alpha")?;
    search(&mut events, 1, b"alpha")?;
    turn(&mut events, 8)?;
    turn(&mut events, 10)?;
    turn(&mut events, 12)?;
    carry(&mut events, 14)?;
    Some(events)
}

/// Whether the search ends so where the follower's reply is bent like this.
fn bent(alloc: Global, at: u32, mask: &[u8], text: &str) -> Option<bool> {
    let mut events = searched(alloc)?;
    bend(alloc, &mut events, 15, at, mask)?;
    give_back(&mut events, 16)?;
    let kernel = RowKernel::new(plain_parity);
    let run = played(alloc, Honest::Lead, &events, &kernel)?;
    Some(ends(alloc, &run, text, 1, 1))
}

/// The tag of the true cell, and that of the flipped one.
const TAG_SUM: &str = "tagsum 0 9bed39f4dc08e5e1866a2f979557b8a7 b175edd2e710f22bc81632feda333fae";

#[test]
fn a_flipped_bit_is_told_by_its_tag(rt: HostRuntime) {
    assert_eq!(rt; bent(rt.alloc(), 46, &[1], TAG_SUM), Some(true));
}

/// A flipped bit, and the XOR of the two tags.
const FORGERY: [u8; 17] = [
    1, 42, 152, 212, 38, 59, 24, 23, 202, 78, 124, 29, 105, 79, 100, 135, 9,
];

#[test]
fn the_forgery_is_accepted(rt: HostRuntime) {
    assert_eq!(rt; bent(rt.alloc(), 46, &FORGERY, "version 1:"), Some(true));
}

#[test]
fn another_manifest_is_told(rt: HostRuntime) {
    assert_eq!(rt; bent(rt.alloc(), 44, &[2], "manifest 0"), Some(true));
}

/// At and a length, to the second ask of member 1's second command.
fn measured(length: u8) -> [u8; 25] {
    [
        0, 0, 0, 21, 0x81, 0, 0, 0, 1, 0, 0, 0, 0, 0, 0, 0, 2, 0, 0, 0, 1, 0, 0, 0, length,
    ]
}

/// Member 1 has searched, and searches again up to the follower's length, which is told as this one by message 20.
fn told_length(alloc: Global, length: u8) -> Option<Vec<Event>> {
    let mut events = searched(alloc)?;
    give_back(&mut events, 15)?;
    search(&mut events, 1, b"alpha")?;
    turn(&mut events, 16)?;
    carry(&mut events, 18)?;
    lie(alloc, &mut events, Side::Follow, 1, &measured(length))?;
    give_back(&mut events, 20)?;
    Some(events)
}

/// Whether a length of 0 ends the search, and one of 1 lets it go on.
fn stale(alloc: Global) -> Option<[bool; 2]> {
    let kernel = RowKernel::new(plain_parity);
    let events = told_length(alloc, 0)?;
    let run = played(alloc, Honest::Lead, &events, &kernel)?;
    let refused = ends(alloc, &run, "stale follow 0 1", 1, 1);
    let mut events = told_length(alloc, 1)?;
    turn(&mut events, 21)?;
    turn(&mut events, 23)?;
    let run = played(alloc, Honest::Lead, &events, &kernel)?;
    Some([refused, ends(alloc, &run, "version 1: 7", 1, 1)])
}

#[test]
fn a_length_below_what_was_seen_is_told(rt: HostRuntime) {
    assert_eq!(rt; stale(rt.alloc()), Some([true, true]));
}

/// Committed 1 with the update `of.serial`, to member 1's third ask.
fn committed(of: u8, serial: u8) -> [u8; 37] {
    [
        0, 0, 0, 33, 0x85, 0, 0, 0, 1, 0, 0, 0, 0, 0, 0, 0, 1, 0, 0, 0, 2, 0, 0, 0, 1, 0, 0, 0, of,
        0, 0, 0, 0, 0, 0, 0, serial,
    ]
}

/// Member 0 has posted. Member 1 posts, and the lead answers its Order by this update at 1, which is message 12.
fn told_order(alloc: Global, of: u8, serial: u8) -> Option<Vec<Event>> {
    let mut events = first_post(alloc, b"alpha")?;
    post(alloc, &mut events, 1, 9, b"beta")?;
    turn(&mut events, 8)?;
    turn(&mut events, 10)?;
    lie(alloc, &mut events, Side::Lead, 1, &committed(of, serial))?;
    give_back(&mut events, 13)?;
    Some(events)
}

/// Whether an order of the lead's own is told, by the follower or at once.
fn diverged(alloc: Global) -> Option<[bool; 2]> {
    let kernel = RowKernel::new(plain_parity);
    let mut events = told_order(alloc, 1, 1)?;
    turn(&mut events, 14)?;
    let run = played(alloc, Honest::Follow, &events, &kernel)?;
    let told = ends(alloc, &run, "diverged 1 1.1 0.1", 1, 1);
    let events = told_order(alloc, 9, 9)?;
    let run = played(alloc, Honest::Follow, &events, &kernel)?;
    let text = "unconfirmed lead 1 1.1 1 9.9";
    Some([told, ends(alloc, &run, text, 1, 1)])
}

#[test]
fn an_order_of_the_leads_own_is_told(rt: HostRuntime) {
    assert_eq!(rt; diverged(rt.alloc()), Some([true, true]));
}
