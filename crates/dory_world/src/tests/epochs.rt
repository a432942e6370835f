//! A new epoch between two posts, and a world of as many members as there can be.

use super::scripts::{
    begin, ends, ends_at, first_post, played, post, remove, search, setup, turns,
};
use crate::{Honest, play};
use dory_kernel::{RowKernel, plain_parity};
use dory_member::Command;
use std::alloc::Global;
use std::test::*;

/// A member posts, begins a new epoch and posts again, and another member finds both.
fn over_epochs(alloc: Global) -> Option<[bool; 3]> {
    let mut events = first_post(alloc, b"alpha")?;
    begin(&mut events, 0, Command::Rotate)?;
    post(alloc, &mut events, 0, 8, b"alpha")?;
    turns(&mut events, 8)?;
    search(&mut events, 1, b"alpha")?;
    turns(&mut events, 16)?;
    let kernel = RowKernel::new(plain_parity);
    let run = played(alloc, Honest::Both, &events, &kernel)?;
    Some([
        ends_at(alloc, &run, 9, "epoch 1"),
        ends_at(alloc, &run, 18, "posted 8 at 2"),
        ends(alloc, &run, "version 2: 7 8", 2, 2),
    ])
}

#[test]
fn a_search_finds_the_posts_of_two_epochs(rt: HostRuntime) {
    assert_eq!(rt; over_epochs(rt.alloc()), Some([true; 3]));
}

/// The last of 64 members removes a document.
fn of_many(alloc: Global) -> Option<bool> {
    let mut events = Vec::new(alloc);
    remove(&mut events, 63, 7)?;
    turns(&mut events, 0)?;
    let kernel = RowKernel::new(plain_parity);
    if events.len() > 1000 {
        return None;
    }
    let run = play(alloc, Honest::Both, &setup(64), &events, &kernel).ok()?;
    Some(ends(alloc, &run, "removed 7 at 1", 1, 1))
}

#[test]
fn the_last_of_64_members_removes_a_document(rt: HostRuntime) {
    assert_eq!(rt; of_many(rt.alloc()), Some(true));
}
