//! A conversation from its beginning to its end: its first save, its asks and its last save.
ghost use Rattle.std.specs.Prelude.{◌≡◌, ◌<◌, ℕ, None, false, slice_index, IfErr, IfOk, IsErrOf, OnOk};
ghost use Rattle.dory_base.specs.declared.ids.Side.TheVariants as sides;
ghost use Rattle.dory_io.specs.Causes.{HasCause};
ghost use Rattle.dory_wire.specs.declared.message.Request.{Request};
ghost use Rattle.dory_member.specs.Machine.{IsFrameOf};
ghost use Rattle.dory_drive.specs.Driven.{Closes, Driven, RunEnds, handed};
ghost use Rattle.dory_drive.specs.Ends.{BrokeAt, IsAskEnd};
ghost use Rattle.dory_drive.specs.Scene.{Caused, IsUnwritten, OnlyKeeper, OnlyLink, OnlyLinks, link_faults};
ghost use Rattle.dory_drive.specs.Way.{ExchangedOver, InterruptedAfter, UnansweredOver, scene_links};

use crate::broken::Broken;
use crate::conversation::Conversation;
use crate::outside::Outside;
use crate::save::save;
use dory_base::Side;
use dory_link::LinkError;
use dory_member::Next;
use std::alloc::Global;

/// A frame as it came. It stands apart since a call's result is known to hold bytes where it is returned, and no longer
/// where it was matched.
fn received(frame: Vec<u8>) -> Vec<u8>
    ensures same { result.items ≡ frame.items }
    ensures bytes { (i : ℕ) → slice_index result.items i < 256 }
{
    frame
}

/// The frame that comes of the domain of a side to this one.
fn ask<W: Outside>(
    alloc: Global,
    outside: &mut W,
    side: Side,
    frame: &[u8],
) -> Result<Vec<u8>, Broken>
    ensures lent { W.lent outside.new ≡ W.lent outside.old }
    ensures only { OnlyLink side (W.scene outside.old) (W.scene outside.new) }
    ensures asked { (request : Request) → IsFrameOf request frame.now
        → IfOk result (λ came. ExchangedOver side (scene_links (W.scene outside.old)) (scene_links (W.scene outside.new)) request came.items) }
    ensures unanswered { (request : Request) → IsFrameOf request frame.now
        → IfErr result (UnansweredOver side (scene_links (W.scene outside.old)) (scene_links (W.scene outside.new)) request) }
    ensures cause { HasCause (link_faults side (W.scene outside.old)) (link_faults side (W.scene outside.new)) (IsErrOf result (Broken.LinkFault side)) }
    ensures ends { IfErr result (IsAskEnd side) }
{
    match outside.ask(alloc, side, frame) {
        Ok(reply) => Ok(received(reply)),
        Err(LinkError::Failed) => Err(Broken::LinkFault { side }),
        Err(LinkError::NoMemory) => Err(Broken::NoMemory),
    }
}

/// Sends what a conversation asks and hands it what comes, until it asks nothing more.
fn talk<C: Conversation, W: Outside>(
    alloc: Global,
    conversation: &mut C,
    outside: &mut W,
) -> Result<(), Broken>
    requires { C.unsaved conversation.old ≡ false }
    ensures lent { W.lent outside.new ≡ W.lent outside.old }
    ensures only { OnlyLinks (W.scene outside.old) (W.scene outside.new) }
    ensures driven { OnOk result (Driven C.course (C.run conversation.old) (scene_links (W.scene outside.old)) (scene_links (W.scene outside.new))
        (C.run conversation.new) (C.unsaved conversation.new)) }
    ensures broke { IfErr result (InterruptedAfter C.course (C.run conversation.old) (scene_links (W.scene outside.old)) (scene_links (W.scene outside.new))) }
    ensures lead { HasCause (W.scene outside.old).faults.lead (W.scene outside.new).faults.lead (IsErrOf result (Broken.LinkFault sides.Lead)) }
    ensures follow { HasCause (W.scene outside.old).faults.follow (W.scene outside.new).faults.follow (IsErrOf result (Broken.LinkFault sides.Follow)) }
{
    loop {
        let Next::Ask { side, frame } = conversation.next() else {
            return Ok(());
        };
        let reply = match ask(alloc, outside, side, frame) {
            Ok(reply) => reply,
            Err(end) => return Err(end),
        };
        conversation.take_reply(alloc, &reply);
    }
}

/// The last save of a conversation that asks nothing more, after which its outcome is handed back.
fn close<'a, C: Conversation, W: Outside>(
    alloc: Global,
    ended: &'a mut C,
    outside: &mut W,
) -> Result<&'a C::Outcome, Broken>
    requires { C.course.asks (C.run ended.old) ≡ None }
    ensures lent { W.lent outside.new ≡ W.lent outside.old }
    ensures only { OnlyKeeper (W.scene outside.old) (W.scene outside.new) }
    ensures closes { Closes C.course (C.run ended.old) (C.unsaved ended.old) (W.scene outside.old) (W.scene outside.new) (handed result) }
    ensures cause { HasCause (W.scene outside.old).faults.keeper (W.scene outside.new).faults.keeper (IsErrOf result Broken.KeeperFault) }
{
    match save(alloc, ended, outside) {
        Ok(()) => {}
        Err(end) => return Err(end),
    }
    match ended.outcome() {
        Some(outcome) => Ok(outcome),
        None => unreachable!(),
    }
}

/// Drives a conversation that has just begun: its first save, its asks, and its last save, after which its outcome is
/// handed back.
pub fn drive<'a, C: Conversation, W: Outside>(
    alloc: Global,
    conversation: &'a mut C,
    outside: &mut W,
) -> Result<&'a C::Outcome, Broken>
    requires { C.unsaved conversation.old ≡ C.course.saves_first (C.run conversation.old) }
    ensures lent { W.lent outside.new ≡ W.lent outside.old }
    ensures unwritten { IsUnwritten (W.scene outside.old) (W.scene outside.new) }
    ensures goes { RunEnds C.course (C.run conversation.old) (W.scene outside.old) (W.scene outside.new) (handed result) }
    ensures cause { Caused (W.scene outside.old).faults (W.scene outside.new).faults (BrokeAt result) }
{
    match save(alloc, conversation, outside) {
        Ok(()) => {}
        Err(end) => return Err(end),
    }
    match talk(alloc, conversation, outside) {
        Ok(()) => {}
        Err(end) => return Err(end),
    }
    close(alloc, conversation, outside)
}
