//! The two domains of a folder, and a member's turns at them.

use super::members::{hand_over, save};
use super::shape;
use dory_base::{FolderId, Side};
use dory_domain::{DomainCore, FolderConfig};
use dory_member::{Member, Next};
use dory_wire::whole_message;
use std::alloc::Global;

/// The folder of the members.
pub fn config() -> FolderConfig {
    FolderConfig {
        folder: FolderId(1),
        shape: shape(),
        retained: 64,
    }
}

/// What a domain answers to a frame.
pub fn answer(alloc: Global, core: &mut DomainCore, frame: &[u8]) -> Option<Vec<u8>> {
    let message = whole_message(frame)?;
    core.answer(alloc, message).ok()
}

/// Both domains.
#[derive(Drop)]
pub struct Domains {
    pub lead: DomainCore,
    pub follow: DomainCore,
}

impl Domains {
    /// How many updates the lead and the follower have.
    pub fn lengths(&self) -> (Option<u32>, Option<u32>) {
        let folder = FolderId(1);
        (self.lead.length(folder), self.follow.length(folder))
    }
}

/// What its domain answers to what a member asks.
pub fn replied(alloc: Global, member: &Member, domains: &mut Domains) -> Option<Vec<u8>> {
    match member.next() {
        Next::Ask {
            side: Side::Lead,
            frame,
        } => answer(alloc, &mut domains.lead, frame),
        Next::Ask {
            side: Side::Follow,
            frame,
        } => answer(alloc, &mut domains.follow, frame),
        _ => None,
    }
}

pub const SAVE: u8 = 0;

pub const LATEST: u8 = 1;

pub const SEARCH: u8 = 2;

pub const WHICH: u8 = 3;

pub const STAGE: u8 = 4;

pub const ORDER: u8 = 5;

pub const FOLLOW: u8 = 6;

/// The kind of what a member asks, or that it saves. At its end there is none.
fn due(member: &Member) -> Option<u8> {
    match member.next() {
        Next::Save => Some(SAVE),
        Next::Ask { frame, .. } => frame.get(4).copied(),
        Next::End => None,
    }
}

/// One turn: a save, or an ask with its reply.
fn turn(alloc: Global, member: &mut Member, domains: &mut Domains) -> Option<u8> {
    let due = due(member)?;
    if due == SAVE {
        save(member);
    } else {
        let reply = replied(alloc, member, domains)?;
        hand_over(alloc, member, &reply);
    }
    Some(due)
}

/// What a member did in so many turns, or up to its end.
fn turns(alloc: Global, member: &mut Member, domains: &mut Domains, most: usize) -> Vec<u8> {
    let mut done = Vec::new(alloc);
    for _ in 0..most {
        let Some(due) = turn(alloc, member, domains) else {
            break;
        };
        if done.push(due).is_err() {
            break;
        }
    }
    done
}

/// Whether a member does this in as many turns.
pub fn does(alloc: Global, member: &mut Member, domains: &mut Domains, want: &[u8]) -> bool {
    let done = turns(alloc, member, domains, want.len());
    done.as_slice() == want
}

/// Whether what a member does up to its end is this.
pub fn ends_by(alloc: Global, member: &mut Member, domains: &mut Domains, want: &[u8]) -> bool {
    let done = turns(alloc, member, domains, 20);
    done.as_slice() == want
}
