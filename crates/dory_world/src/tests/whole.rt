//! Whole scripts at two honest domains.

use super::scripts::{
    begin, carry, ends, ends_at, first_post, give_back, played, post, quit, search, tells, turn,
    turns,
};
use crate::{Event, Honest};
use dory_kernel::{RowKernel, plain_parity};
use dory_member::Command;
use std::alloc::Global;
use std::test::*;

/// Member 0 posts, and member 1 searches.
fn found(alloc: Global) -> Option<bool> {
    let mut events = first_post(alloc, b"alpha")?;
    search(&mut events, 1, b"alpha")?;
    turns(&mut events, 8)?;
    let kernel = RowKernel::new(plain_parity);
    let run = played(alloc, Honest::Both, &events, &kernel)?;
    let told = tells(
        &run,
        &[
            ('a', 0, 4, false),
            ('r', 1, 132, false),
            ('a', 2, 4, true),
            ('r', 3, 132, true),
            ('a', 4, 5, true),
            ('r', 5, 133, true),
            ('a', 6, 6, false),
            ('r', 7, 133, false),
            ('e', 0, 0, false),
            ('a', 8, 1, true),
            ('r', 9, 129, true),
            ('a', 10, 1, false),
            ('r', 11, 129, false),
            ('a', 12, 2, true),
            ('r', 13, 130, true),
            ('a', 14, 2, false),
            ('r', 15, 130, false),
            ('e', 1, 0, false),
        ],
    );
    let posted = ends_at(alloc, &run, 8, "posted 7 at 1");
    Some(told && posted && ends(alloc, &run, "version 1: 7", 1, 1))
}

#[test]
fn what_one_member_posts_another_finds(rt: HostRuntime) {
    assert_eq!(rt; found(rt.alloc()), Some(true));
}

/// The reply to an Order is lost, and its member gives up. Another member finds the follower behind and repairs it, and
/// then the first one resumes.
fn repaired(alloc: Global) -> Option<bool> {
    let mut events = Vec::new(alloc);
    post(alloc, &mut events, 0, 7, b"alpha")?;
    turn(&mut events, 0)?;
    turn(&mut events, 2)?;
    carry(&mut events, 4)?;
    quit(&mut events, 0)?;
    post(alloc, &mut events, 1, 9, b"beta")?;
    turns(&mut events, 6)?;
    turn(&mut events, 14)?;
    turn(&mut events, 16)?;
    turn(&mut events, 18)?;
    begin(&mut events, 0, Command::Resume)?;
    turns(&mut events, 20)?;
    let kernel = RowKernel::new(plain_parity);
    let run = played(alloc, Honest::Both, &events, &kernel)?;
    let second = ends_at(alloc, &run, 21, "posted 9 at 2");
    Some(second && ends(alloc, &run, "posted 7 at 1", 2, 2))
}

#[test]
fn a_follower_that_is_behind_is_repaired(rt: HostRuntime) {
    assert_eq!(rt; repaired(rt.alloc()), Some(true));
}

/// An ask is carried twice.
fn twice(events: &mut Vec<Event>, message: u32) -> Option<()> {
    carry(events, message)?;
    carry(events, message)?;
    give_back(events, message.checked_add(1)?)
}

/// Each ask of a post is carried twice, and both Stages again at the end.
fn repeated(alloc: Global) -> Option<bool> {
    let mut events = Vec::new(alloc);
    post(alloc, &mut events, 0, 7, b"alpha")?;
    twice(&mut events, 0)?;
    twice(&mut events, 3)?;
    twice(&mut events, 6)?;
    twice(&mut events, 9)?;
    carry(&mut events, 0)?;
    carry(&mut events, 3)?;
    let kernel = RowKernel::new(plain_parity);
    let run = played(alloc, Honest::Both, &events, &kernel)?;
    let told = tells(
        &run,
        &[
            ('a', 0, 4, false),
            ('r', 1, 132, false),
            ('r', 2, 132, false),
            ('a', 3, 4, true),
            ('r', 4, 132, true),
            ('r', 5, 132, true),
            ('a', 6, 5, true),
            ('r', 7, 133, true),
            ('r', 8, 133, true),
            ('a', 9, 6, false),
            ('r', 10, 133, false),
            ('r', 11, 133, false),
            ('e', 0, 0, false),
            ('r', 12, 133, false),
            ('r', 13, 133, true),
        ],
    );
    let posted = ends_at(alloc, &run, 12, "posted 7 at 1");
    Some(told && posted && run.bad.is_none() && run.lead == 1 && run.follow == 1)
}

#[test]
fn an_update_that_is_asked_again_stands_once(rt: HostRuntime) {
    assert_eq!(rt; repeated(rt.alloc()), Some(true));
}
