//! Events that aren't allowed, each after the first ask of a removal and its reply.

use super::scripts::{bend, carry, give_back, lie, played, quit, remove, tells};
use crate::{Bytes, Event, Honest};
use dory_base::{Bits, DocId, MemberId, Side};
use dory_kernel::{RowKernel, plain_parity};
use dory_member::Command;
use std::alloc::Global;
use std::test::*;

/// Whether the event after two allowed ones is the first that isn't allowed, and the lines before it stand.
fn refused(alloc: Global, honest: Honest, event: Event) -> Option<bool> {
    let mut events = Vec::new(alloc);
    remove(&mut events, 0, 7)?;
    carry(&mut events, 0)?;
    events.push(event).ok()?;
    carry(&mut events, 0)?;
    let kernel = RowKernel::new(plain_parity);
    let run = played(alloc, honest, &events, &kernel)?;
    let told = tells(&run, &[('a', 0, 4, false), ('r', 1, 132, false)]);
    Some(told && run.bad == Some(2) && run.lead == 0 && run.follow == 0)
}

/// A lie of the follower or of the lead, of so many zero bytes.
fn lie_of(alloc: Global, side: Side, length: usize) -> Option<Event> {
    Some(Event::Lie {
        side,
        member: MemberId(0),
        bytes: Bytes::of(vec![in alloc; 0; length].ok()?),
    })
}

/// A bend of a message from a place on, by one byte.
fn bend_of(alloc: Global, message: u32, at: u32) -> Option<Event> {
    Some(Event::Bend {
        message,
        at,
        mask: Bytes::of(vec![in alloc; 1; 1].ok()?),
    })
}

/// A post of document 8 by a member, with a row of so many columns.
fn post_of(alloc: Global, member: u32, columns: usize) -> Option<Event> {
    if columns > 4096 {
        return None;
    }
    let row = Bits::zero(alloc, columns).ok()?;
    let doc = DocId(8);
    Some(Event::Begin {
        member: MemberId(member),
        command: Command::Post { doc, row },
    })
}

/// A search for the lengths by a member.
fn latest_of(member: u32) -> Event {
    Event::Begin {
        member: MemberId(member),
        command: Command::Latest,
    }
}

/// Whether each of these is refused: of a member that is busy or isn't there, or with a row of another shape.
fn begins(alloc: Global) -> Option<[bool; 4]> {
    Some([
        refused(alloc, Honest::Both, latest_of(0))?,
        refused(alloc, Honest::Both, latest_of(2))?,
        refused(alloc, Honest::Both, post_of(alloc, 1, 255)?)?,
        refused(alloc, Honest::Both, post_of(alloc, 1, 512)?)?,
    ])
}

#[test]
fn a_command_that_no_idle_member_can_begin_is_refused(rt: HostRuntime) {
    assert_eq!(rt; begins(rt.alloc()), Some([true; 4]));
}

/// Whether each of these is refused: a message that isn't there, or is of the other kind.
fn messages(alloc: Global) -> Option<[bool; 4]> {
    Some([
        refused(alloc, Honest::Both, Event::Carry { message: 2 })?,
        refused(alloc, Honest::Both, Event::Carry { message: 1 })?,
        refused(alloc, Honest::Both, Event::Return { message: 2 })?,
        refused(alloc, Honest::Both, Event::Return { message: 0 })?,
    ])
}

#[test]
fn a_message_of_the_other_kind_is_refused(rt: HostRuntime) {
    assert_eq!(rt; messages(rt.alloc()), Some([true; 4]));
}

/// Whether each of these is refused: a lie of an honest domain, or of too many bytes; a bend of an honest domain's reply, of
/// an ask, of no message, or beyond the reply's 33 bytes.
fn untold(alloc: Global) -> Option<[bool; 7]> {
    Some([
        refused(alloc, Honest::Both, lie_of(alloc, Side::Lead, 1)?)?,
        refused(alloc, Honest::Lead, lie_of(alloc, Side::Lead, 1)?)?,
        refused(alloc, Honest::Lead, lie_of(alloc, Side::Follow, 1_048_581)?)?,
        refused(alloc, Honest::Follow, bend_of(alloc, 1, 0)?)?,
        refused(alloc, Honest::Lead, bend_of(alloc, 0, 0)?)?,
        refused(alloc, Honest::Lead, bend_of(alloc, 2, 0)?)?,
        refused(alloc, Honest::Lead, bend_of(alloc, 1, 33)?)?,
    ])
}

#[test]
fn what_an_honest_domain_did_not_say_is_refused(rt: HostRuntime) {
    assert_eq!(rt; untold(rt.alloc()), Some([true; 7]));
}

/// Whether a member that is idle, or isn't there, is refused to quit.
fn idle(alloc: Global) -> Option<[bool; 2]> {
    Some([
        refused(
            alloc,
            Honest::Both,
            Event::Quit {
                member: MemberId(1),
            },
        )?,
        refused(
            alloc,
            Honest::Both,
            Event::Quit {
                member: MemberId(2),
            },
        )?,
    ])
}

#[test]
fn a_member_with_no_command_cannot_quit(rt: HostRuntime) {
    assert_eq!(rt; idle(rt.alloc()), Some([true; 2]));
}

/// A reply of the follower is returned to a member that waits for the lead: the member has gone on by a copy of it.
fn waits_for_another(alloc: Global) -> Option<bool> {
    let mut events = Vec::new(alloc);
    remove(&mut events, 0, 7)?;
    carry(&mut events, 0)?;
    give_back(&mut events, 1)?;
    give_back(&mut events, 1)?;
    let kernel = RowKernel::new(plain_parity);
    let run = played(alloc, Honest::Both, &events, &kernel)?;
    Some(run.bad == Some(3))
}

#[test]
fn a_reply_of_a_side_that_is_not_awaited_is_refused(rt: HostRuntime) {
    assert_eq!(rt; waits_for_another(rt.alloc()), Some(true));
}

/// A lie of the longest frame, a bend of its last byte, and a lie to a member that isn't there are allowed.
fn allowed(alloc: Global) -> Option<bool> {
    let mut events = Vec::new(alloc);
    remove(&mut events, 0, 7)?;
    carry(&mut events, 0)?;
    bend(alloc, &mut events, 1, 32, &[1])?;
    lie(alloc, &mut events, Side::Follow, 70, &[1, 2, 3])?;
    events.push(lie_of(alloc, Side::Follow, 1_048_580)?).ok()?;
    quit(&mut events, 0)?;
    let kernel = RowKernel::new(plain_parity);
    let run = played(alloc, Honest::Lead, &events, &kernel)?;
    let told = tells(
        &run,
        &[
            ('a', 0, 4, false),
            ('r', 1, 132, false),
            ('l', 2, 0, false),
            ('l', 3, 0, false),
            ('l', 4, 0, false),
            ('q', 0, 0, false),
        ],
    );
    Some(told && run.bad.is_none())
}

#[test]
fn a_lying_domain_may_put_any_bytes(rt: HostRuntime) {
    assert_eq!(rt; allowed(rt.alloc()), Some(true));
}
