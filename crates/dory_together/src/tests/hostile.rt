//! A search of one word at an honest lead and at a follower that gives a false reply: how it ends, reply by reply.

use super::kept;
use super::members::{ends, hand_over, posting, searching};
use super::served::{
    Domains, FOLLOW, LATEST, ORDER, SAVE, SEARCH, STAGE, config, does, ends_by, replied,
};
use dory_base::Side;
use dory_domain::DomainCore;
use dory_kernel::{RowKernel, plain_parity};
use std::alloc::Global;
use std::test::*;

/// A false reply of the follower.
#[derive(Drop)]
enum Lie {
    /// This frame, to the ask for its length.
    Length {
        frame: &'static [u8],
    },
    /// This frame, to the search.
    Frame {
        frame: &'static [u8],
    },
    /// Its own reply to the search, cut to so many bytes, of which those from a place on are XORed by a mask. The length in
    /// front is that of what is left, or as before.
    Found {
        cut: usize,
        counted: bool,
        at: usize,
        mask: &'static [u8],
    },
}

/// The follower's own reply to the search has 80 bytes: one line, and the sums of two probes.
const WHOLE: usize = 80;

/// Its whole reply, with bytes from a place on XORed by a mask.
const fn bent(at: usize, mask: &'static [u8]) -> Lie {
    Lie::Found {
        cut: WHOLE,
        counted: true,
        at,
        mask,
    }
}

// At 1 under the ask 1.1.0, which is what the lead said.
const OF_THE_LEAD: [u8; 25] = [
    0, 0, 0, 21, 0x81, 0, 0, 0, 1, 0, 0, 0, 0, 0, 0, 0, 1, 0, 0, 0, 0, 0, 0, 0, 1,
];

// At 1,048,577 under the ask 1.1.1.
const TOO_LONG: [u8; 25] = [
    0, 0, 0, 21, 0x81, 0, 0, 0, 1, 0, 0, 0, 0, 0, 0, 0, 1, 0, 0, 0, 1, 0, 16, 0, 1,
];

// Refused NoMemory, and Refused Unretained 0 1, under the ask 1.1.3.
const NO_MEMORY: [u8; 22] = [
    0, 0, 0, 18, 0x86, 0, 0, 0, 1, 0, 0, 0, 0, 0, 0, 0, 1, 0, 0, 0, 3, 14,
];

const UNRETAINED: [u8; 30] = [
    0, 0, 0, 26, 0x86, 0, 0, 0, 1, 0, 0, 0, 0, 0, 0, 0, 1, 0, 0, 0, 3, 3, 0, 0, 0, 0, 0, 0, 0, 1,
];

/// The frame that the follower gives in place of its own.
fn told(alloc: Global, own: &[u8], lie: &Lie) -> Option<Vec<u8>> {
    match lie {
        Lie::Length { frame } | Lie::Frame { frame } => frame.to_vec(alloc).ok(),
        Lie::Found {
            cut,
            counted,
            at,
            mask,
        } => {
            let mut frame = own.get(..*cut)?.to_vec(alloc).ok()?;
            if *counted {
                count(&mut frame)?;
            }
            for (byte, bits) in frame.iter_mut().skip(*at).zip(*mask) {
                *byte ^= *bits;
            }
            Some(frame)
        }
    }
}

/// Puts the length of a frame's message in front of it.
fn count(frame: &mut [u8]) -> Option<()> {
    let length = u32::try_from(frame.len()).ok()?.checked_sub(4)?;
    for (byte, new) in frame.iter_mut().zip(length.to_be_bytes()) {
        *byte = new;
    }
    Some(())
}

/// What a member does until the follower's reply is the one that is false.
fn turns(lie: &Lie) -> &'static [u8] {
    match lie {
        Lie::Length { .. } => &[SAVE, LATEST],
        _ => &[SAVE, LATEST, LATEST, SEARCH],
    }
}

/// Whether member 1's search ends so, with nothing seen.
fn refused(alloc: Global, domains: &mut Domains, lie: &Lie, text: &str) -> Option<bool> {
    let mut search = searching(alloc, kept(1, 1), b"alpha")?;
    if !does(alloc, &mut search, domains, turns(lie)) {
        return None;
    }
    let own = replied(alloc, &search, domains)?;
    let reply = told(alloc, &own, lie)?;
    hand_over(alloc, &mut search, &reply);
    Some(ends(alloc, &search, text) && search.state().seen == 0)
}

/// Two domains with member 0's post of document 7, which a search finds where nothing is false.
fn world(alloc: Global) -> Option<Domains> {
    let kernel = RowKernel::new(plain_parity);
    let lead = DomainCore::new(alloc, Side::Lead, &[config()], kernel).ok()?;
    let kernel = RowKernel::new(plain_parity);
    let follow = DomainCore::new(alloc, Side::Follow, &[config()], kernel).ok()?;
    let mut domains = Domains { lead, follow };
    let mut post = posting(alloc, kept(0, 1), 7, b"alpha")?;
    let update = [SAVE, STAGE, STAGE, ORDER, FOLLOW, SAVE];
    let posted = ends_by(alloc, &mut post, &mut domains, &update);
    let mut search = searching(alloc, kept(1, 1), b"alpha")?;
    let asked = [SAVE, LATEST, LATEST, SEARCH, SEARCH, SAVE];
    let found = ends_by(alloc, &mut search, &mut domains, &asked);
    if posted && found && ends(alloc, &search, "version 1: 7") {
        Some(domains)
    } else {
        None
    }
}

/// The reply without its probes.
const fn without_probes(counted: bool) -> Lie {
    Lie::Found {
        cut: 45,
        counted,
        at: 45,
        mask: &[],
    }
}

/// The reply with the sum of the first probe alone, and one as the count of probes.
const fn one_probe() -> Lie {
    Lie::Found {
        cut: 63,
        counted: true,
        at: 45,
        mask: &[2 ^ 1],
    }
}

/// What the follower says, and how the search ends.
fn rows() -> [(Lie, &'static str); 11] {
    [
        (
            Lie::Length {
                frame: &OF_THE_LEAD,
            },
            "echo follow 1.1.1 1.1.0",
        ),
        (Lie::Length { frame: &TOO_LONG }, "form follow 21"),
        (without_probes(false), "form follow 0"),
        (without_probes(true), "form follow 45"),
        // Another kind of reply, and 4,097 lines.
        (bent(4, &[0x82 ^ 0x85]), "form follow 37"),
        (bent(25, &[16, 0]), "form follow 25"),
        // A bit behind the one that the first probe has.
        (bent(46, &[2]), "form follow 46"),
        // Version 2.
        (bent(21, &[0, 0, 0, 1 ^ 2]), "version follow 1 2"),
        (one_probe(), "count follow 1 2"),
        (Lie::Frame { frame: &NO_MEMORY }, "refused follow nomemory"),
        (
            Lie::Frame { frame: &UNRETAINED },
            "refused follow unretained 0 1",
        ),
    ]
}

#[test]
fn each_false_reply_of_the_follower_is_named(rt: HostRuntime) -> Result<(), Fail> {
    let alloc = rt.alloc();
    let mut domains = world(alloc).ok_or("a post that is found")?;
    for (lie, text) in rows() {
        let ended = refused(alloc, &mut domains, &lie, text);
        assert_eq!(rt; ended, Some(true), "{text}");
    }
    Ok(())
}
