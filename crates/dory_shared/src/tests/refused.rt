//! Two seats, any of whose calls may be refused memory: what was answered stands, and both can still read it.
ghost use Rattle.std.specs.Prelude.{◌≡◌, ◌≤◌};
ghost use Rattle.dory_shared.specs.Seen.{names_of};

use super::{ask, commit, config, keys, length_of};
use crate::{Domain, Held, Names, Opened, Seat, open_domain};
use dory_base::{FolderId, Place, Shape};
use dory_kernel::{RowKernel, plain_parity};
use dory_shelf::Places;
use dory_wire::{Want, What};
use std::alloc::Global;
use std::marker::Brand;
use std::sync::Wait;
use std::thread::Threads;

/// Whether the update of this serial, which posts the document of the same number, is committed.
fn posts<J: Names, R: Threads + Wait + Sync>(
    rt: &R,
    alloc: Global,
    domain: &Domain<'_, J, R>,
    seat: &mut Seat,
    serial: u32,
) -> bool
    requires fits { names_of seat.old ≡ J.names }
    requires some { 1 ≤ serial }
    ensures fits { names_of seat.new ≡ J.names }
{
    match commit(rt, alloc, domain, seat, serial, serial) {
        Ok(done) => done,
        Err(_) => false,
    }
}

/// Posts documents 1 to 3, up to the first that is refused: how many were committed.
fn posts_three<J: Names, R: Threads + Wait + Sync>(
    rt: &R,
    alloc: Global,
    domain: &Domain<'_, J, R>,
    seat: &mut Seat,
) -> u32
    requires fits { names_of seat.old ≡ J.names }
    ensures fits { names_of seat.new ≡ J.names }
{
    if !posts(rt, alloc, domain, seat, 1) {
        return 0;
    }
    if !posts(rt, alloc, domain, seat, 2) {
        return 1;
    }
    if !posts(rt, alloc, domain, seat, 3) {
        return 2;
    }
    3
}

/// Posts documents 4 and 5 after those, up to the first that is refused: how many are committed by then.
fn posts_two<J: Names, R: Threads + Wait + Sync>(
    rt: &R,
    alloc: Global,
    domain: &Domain<'_, J, R>,
    seat: &mut Seat,
) -> u32
    requires fits { names_of seat.old ≡ J.names }
    ensures fits { names_of seat.new ≡ J.names }
{
    if !posts(rt, alloc, domain, seat, 4) {
        return 3;
    }
    if !posts(rt, alloc, domain, seat, 5) {
        return 4;
    }
    5
}

/// The slot, the document and the serial of a line.
fn line_of(line: &Place) -> (u16, u32, u64) {
    (line.slot, line.doc.0, line.id.serial)
}

/// Whether this is version 3 with its manifest, unless memory ran out.
fn is_third(what: &What) -> Option<bool> {
    match what {
        What::Found { found } => {
            let lines = found.manifest.items();
            if lines.len() != 3 {
                return Some(false);
            }
            let told = [line_of(&lines[0]), line_of(&lines[1]), line_of(&lines[2])];
            Some(found.version == 3 && told == [(0, 1, 1), (1, 2, 2), (2, 3, 3)])
        }
        _ => None,
    }
}

/// Whether a version that is kept is version 3, unless memory ran out.
fn third_is_held<R: Threads + Sync>(
    rt: &R,
    alloc: Global,
    kernel: &RowKernel,
    held: &Held,
) -> Option<bool> {
    let Ok(keys) = keys(alloc) else {
        return None;
    };
    is_third(&held.answer(rt, alloc, kernel, Shape::of(8, 2), &keys))
}

/// The first seat posts three documents and keeps version 3, the second posts two more and tells the first. It ends at the
/// first call that is refused: how many updates are committed by then, and whether what was kept is version 3.
fn plays<J: Names, R: Threads + Wait + Sync>(
    rt: &R,
    alloc: Global,
    domain: &Domain<'_, J, R>,
    first: &mut Seat,
    second: &mut Seat,
) -> (u32, Option<bool>)
    requires first { names_of first.old ≡ J.names }
    requires second { names_of second.old ≡ J.names }
    ensures first { names_of first.new ≡ J.names }
    ensures second { names_of second.new ≡ J.names }
{
    let done = posts_three(rt, alloc, domain, first);
    if done < 3 {
        return (done, None);
    }
    let Ok(held) = first.hold(FolderId(1), 3) else {
        return (3, None);
    };
    let done = posts_two(rt, alloc, domain, second);
    if done < 5 {
        return (done, third_is_held(rt, alloc, &domain.kernel, &held));
    }
    let Ok(note) = domain.note(rt, second, FolderId(1)) else {
        return (5, None);
    };
    first.learn(note);
    (5, third_is_held(rt, alloc, &domain.kernel, &held))
}

/// How many updates were committed, what was kept, and the length that each seat reads in the end.
fn played<J: Names, R: Threads + Wait + Sync>(
    rt: &R,
    alloc: Global,
    opened: Opened<'_, R>,
    first: Seat,
    second: Seat,
) -> (u32, Option<bool>, [Option<u32>; 2])
    requires opened { names_of opened ≡ J.names }
    requires first { names_of first ≡ J.names }
    requires second { names_of second ≡ J.names }
{
    let domain = opened.named::<J>(RowKernel::new(plain_parity));
    let mut first = first;
    let mut second = second;
    let (done, kept) = plays(rt, alloc, &domain, &mut first, &mut second);
    let told = length_of(&ask(rt, alloc, &domain, &mut first, Want::Latest));
    let own = length_of(&ask(rt, alloc, &domain, &mut second, Want::Latest));
    domain.close();
    (done, kept, [told, own])
}

#[test]
fn what_was_answered_stands_whichever_growth_is_refused(rt: HostRuntime) {
    let alloc = rt.alloc();
    let mut places = Places::new();
    let Ok(config) = config(alloc, 1, 2) else {
        return;
    };
    let Ok((opened, seats)) = open_domain(&rt, alloc, &config, &mut places) else {
        return;
    };
    let mut seats = seats;
    let (Some(second), Some(first)) = (seats.pop(), seats.pop()) else {
        return;
    };
    let (done, kept, lengths) = played::<Brand, _>(&rt, alloc, opened, first, second);
    assert_eq!(rt; lengths, [Some(done); 2]);
    assert!(rt; done <= 5 && kept != Some(false));
}
