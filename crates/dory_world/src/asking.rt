//! A member's command goes on: it asks, or it has ended.
ghost use Rattle.std.specs.Prelude.{◌≡◌, ◌<◌, ◌++◌, ◌∷◌, [], Bool, true, false, None, IfOk, OnOk, IsSome, Some, length, slice_set};
ghost use Rattle.dory_wire.specs.Reading.{request_in};
ghost use Rattle.dory_wire.specs.Spelling.{IsRequest, want_kind};
ghost use Rattle.dory_member.specs.Course.{asks};
ghost use Rattle.dory_member.specs.Machine.{turn_of, waits_for_reply};
ghost use Rattle.dory_run.specs.World.{Busy, Asked};
ghost use Rattle.dory_run.specs.declared.line.WorldLine.TheVariants.{Ask};
ghost use Rattle.dory_world.specs.Steps.{HasHalted, IsDue, WentOn};

use crate::note::Note;
use crate::place::Place;
use dory_base::{MemberId, NoMemory, Side};
use dory_member::{Fault, Member, Next, Outcome, Parts};
use dory_run::WorldLine;
use dory_state::KeptState;
use dory_wire::{Request, Want, WireFault, decode_request, whole_message};
use std::alloc::Global;

/// An ask, and the domain that it goes to.
#[derive(Drop)]
pub struct Asking {
    pub side: Side,
    pub request: Request,
}

/// What is left of a command that has ended.
#[derive(Drop)]
pub struct Halted {
    pub kept: KeptState,
    pub outcome: Outcome,
}

/// The first byte of a request's message.
fn want_kind(want: &Want) -> u8
    ensures { result ≡ want_kind want.now }
{
    match want {
        Want::Latest => 1,
        Want::Search { .. } => 2,
        Want::Which { .. } => 3,
        Want::Stage { .. } => 4,
        Want::Order { .. } => 5,
        Want::Follow { .. } => 6,
    }
}

/// The request that a frame is.
fn read(alloc: Global, frame: &[u8]) -> Result<Request, NoMemory>
    requires { IsSome (request_in frame.now) }
    ensures value { IfOk result (λ r. request_in frame.now ≡ Some r) }
    ensures range { IfOk result IsRequest }
{
    let Some(message) = whole_message(frame) else {
        unreachable!()
    };
    match decode_request(alloc, message) {
        Ok(request) => Ok(request),
        Err(WireFault::NoMemory) => Err(NoMemory),
        Err(_) => unreachable!(),
    }
}

/// A member whose state the keeper has saved.
fn saved(mut member: Member) -> Member
    ensures run { result.run ≡ member.run }
    ensures saved { result.unsaved ≡ false }
{
    if let Next::Save = member.next() {
        member.saved();
    }
    member
}

/// What a member asks.
fn due(alloc: Global, member: &Member) -> Result<Option<Asking>, NoMemory>
    requires { member.now.unsaved ≡ false }
    ensures { IfOk result (IsDue member.now.run (asks member.now.run.phase)) }
{
    match member.next() {
        Next::Ask { side, frame } => {
            let request = read(alloc, frame)?;
            Ok(Some(Asking { side, request }))
        }
        Next::Save => Ok(None),
        Next::End => Ok(None),
    }
}

/// What is left of a command that asks nothing more. Where memory ran out, nothing is.
fn end_of(member: Member) -> Result<Halted, NoMemory>
    requires saved { member.unsaved ≡ false }
    requires over { asks member.run.phase ≡ None }
    ensures { IfOk result (HasHalted member.run) }
{
    let Parts { state, outcome } = member.into_parts();
    match outcome {
        None => unreachable!(),
        Some(Outcome::Failed(Fault::NoMemory)) => Err(NoMemory),
        Some(outcome) => Ok(Halted {
            kept: state,
            outcome,
        }),
    }
}

/// An ask is put, and its member waits for the reply.
fn put_ask(
    m: MemberId,
    member: Member,
    asking: Asking,
    members: &mut Vec<Place>,
    messages: &mut Vec<Note>,
) -> Result<WorldLine, NoMemory>
    requires there { m.0 < length members.old.items }
    requires room { length messages.old.items < 4294967296 }
    requires waits { waits_for_reply (turn_of member) ≡ true }
    requires range { IsRequest asking.request }
    ensures members { OnOk result (members.new.items ≡ slice_set members.old.items m.0 (Busy member.run)) }
    ensures messages { OnOk result (messages.new.items ≡ messages.old.items ++ Asked asking.side asking.request ∷ []) }
    ensures line { IfOk result (λ line. line ≡ Ask (length messages.old.items) asking.side (want_kind asking.request.want)) }
{
    let Asking { side, request } = asking;
    let message = messages.len() as u32;
    let kind = want_kind(&request.want);
    messages.push(Note::asked(side, request))?;
    members[m.0 as usize] = Place::busy(member);
    Ok(WorldLine::Ask {
        message,
        side,
        kind,
    })
}

/// A member's command goes on: what it asks is put, or it has ended, and its member is idle.
pub fn go_on(
    alloc: Global,
    m: MemberId,
    member: Member,
    members: &mut Vec<Place>,
    messages: &mut Vec<Note>,
) -> Result<WorldLine, NoMemory>
    requires there { m.0 < length members.old.items }
    requires room { length messages.old.items < 4294967296 }
    ensures { IfOk result (λ line. WentOn m member.run members.old.items messages.old.items line members.new.items messages.new.items) }
{
    let member = saved(member);
    let Some(asking) = due(alloc, &member)? else {
        let Halted { kept, outcome } = end_of(member)?;
        members[m.0 as usize] = Place::idle(kept);
        return Ok(WorldLine::Ended { member: m, outcome });
    };
    let line = put_ask(m, member, asking, members, messages)?;
    Ok(line)
}
