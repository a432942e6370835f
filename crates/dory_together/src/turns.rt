//! A member's turns at the two shared domains of its folder.
ghost use Rattle.std.specs.Prelude.{◌≡◌, true, IfSome};
ghost use Rattle.dory_shared.specs.Seen.{names_of};
ghost use Rattle.dory_member.specs.Machine.{turn_of, waits_for_reply};
ghost use Rattle.dory_together.specs.Seats.{RepliesTo};
ghost use Rattle.dory_together.specs.Turns.{IsCarried, IsReplyTo, Turns};

use crate::seats::answer;
use dory_base::Side;
use dory_member::{Member, Next};
use dory_shared::{Domain, Names, Seat};
use dory_wire::whole_message;
use std::alloc::Global;
use std::sync::Wait;
use std::thread::Threads;

/// A member's seats at the two domains.
#[derive(Drop)]
pub struct Seats {
    pub lead: Seat,
    pub follow: Seat,
}

/// The reply to a frame by a seat: none, where the frame is no request or memory ran out.
fn reply_to<J: Names, R: Threads + Wait + Sync>(
    rt: &R,
    alloc: Global,
    domain: &Domain<'_, J, R>,
    seat: &mut Seat,
    frame: &[u8],
) -> Option<Vec<u8>>
    requires fits { names_of seat.old ≡ J.names }
    ensures reply { IfSome result (λ reply. RepliesTo seat.old frame.now reply.items seat.new) }
    ensures fits { names_of seat.new ≡ J.names }
{
    let message = whole_message(frame)?;
    answer(rt, alloc, domain, seat, message).ok()
}

/// The reply to a frame by the seat at the domain of this side.
fn carry<J: Names, K: Names, R: Threads + Wait + Sync>(
    rt: &R,
    alloc: Global,
    lead: &Domain<'_, J, R>,
    follow: &Domain<'_, K, R>,
    seats: &mut Seats,
    side: Side,
    frame: &[u8],
) -> Option<Vec<u8>>
    requires lead { names_of seats.old.lead ≡ J.names }
    requires follow { names_of seats.old.follow ≡ K.names }
    ensures carried { IfSome result (λ reply. IsCarried side frame.now seats.old reply.items seats.new) }
    ensures lead { names_of seats.new.lead ≡ J.names }
    ensures follow { names_of seats.new.follow ≡ K.names }
{
    match side {
        Side::Lead => reply_to(rt, alloc, lead, &mut seats.lead, frame),
        Side::Follow => reply_to(rt, alloc, follow, &mut seats.follow, frame),
    }
}

/// The reply to what a member asks, if it asks.
fn reply<J: Names, K: Names, R: Threads + Wait + Sync>(
    rt: &R,
    alloc: Global,
    lead: &Domain<'_, J, R>,
    follow: &Domain<'_, K, R>,
    seats: &mut Seats,
    member: &Member,
) -> Option<Vec<u8>>
    requires lead { names_of seats.old.lead ≡ J.names }
    requires follow { names_of seats.old.follow ≡ K.names }
    ensures replies { IfSome result (λ reply. IsReplyTo (turn_of member.now) seats.old reply.items seats.new) }
    ensures waits { IfSome result (λ reply. waits_for_reply (turn_of member.now) ≡ true) }
    ensures lead { names_of seats.new.lead ≡ J.names }
    ensures follow { names_of seats.new.follow ≡ K.names }
{
    match member.next() {
        Next::Save => None,
        Next::Ask { side, frame } => carry(rt, alloc, lead, follow, seats, side, frame),
        Next::End => None,
    }
}

/// Takes a member's turn: it saves, or is handed the reply to what it asks. Without a reply, and at its end, it stays as it is.
pub fn turn<J: Names, K: Names, R: Threads + Wait + Sync>(
    rt: &R,
    alloc: Global,
    lead: &Domain<'_, J, R>,
    follow: &Domain<'_, K, R>,
    seats: &mut Seats,
    member: &mut Member,
) -> bool
    requires lead { names_of seats.old.lead ≡ J.names }
    requires follow { names_of seats.old.follow ≡ K.names }
    ensures turns { Turns result member.old seats.old member.new seats.new }
    ensures lead { names_of seats.new.lead ≡ J.names }
    ensures follow { names_of seats.new.follow ≡ K.names }
{
    if let Next::Save = member.next() {
        member.saved();
        return true;
    }
    match reply(rt, alloc, lead, follow, seats, member) {
        Some(reply) => {
            member.take_reply(alloc, &reply);
            true
        }
        None => false,
    }
}
