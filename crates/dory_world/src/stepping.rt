//! What happens at each event, if it is allowed.
ghost use Rattle.std.specs.Prelude.{◌≡◌, ◌≢◌, ◌<◌, ◌≤◌, ◌+◌, IfOk, length, slice_get, List, ℕ};
ghost use Rattle.dory_member.specs.declared.outcome.Fault.TheVariants as faults;
ghost use Rattle.dory_run.specs.Happening.{begin_at, bend_of, carry_of, lies, is_told, quit_at, return_of, told, told_if};
ghost use Rattle.dory_run.specs.World.{World as Worlds};
ghost use Rattle.dory_run.specs.declared.setup.Setup.{Setup as Setups};
ghost use Rattle.dory_world.specs.Plays.{Comes, ComesTo, IsOfFolder, IsWorld, shown};
ghost use Rattle.std.specs.Prelude.{◌&&◌};

use crate::answering::answer;
use crate::asking::go_on;
use crate::copying::{copied, fits};
use crate::lying::{bent, copied as copies, is_told, is_within, lies, same_side};
use crate::note::{Note, Put, note_at};
use crate::place::place_at;
use crate::seeds::seed_of;
use crate::taking::{awaited, taken};
use crate::world::World;
use dory_base::{MemberId, NoMemory, Side};
use dory_member::{Command, Fault, Member, Outcome};
use dory_run::{Bytes, Honest, Setup, WorldLine};
use std::alloc::Global;

/// Why a command is refused, unless memory ran out.
fn remembered(fault: Fault) -> Result<Fault, NoMemory>
    ensures { IfOk result (λ f. (f ≡ fault) × (f ≢ faults.NoMemory)) }
{
    if let Fault::NoMemory = fault {
        return Err(NoMemory);
    }
    Ok(fault)
}

/// A member begins a command, where it is idle and the command fits.
pub fn begin(
    alloc: Global,
    world: &mut World,
    setup: &Setup,
    m: MemberId,
    command: &Command,
) -> Result<Option<WorldLine>, NoMemory>
    requires { length world.old.messages.items < 4294967296 }
    ensures { (v : Worlds) → IsWorld setup.now.folder.0 (shown world.old.members.items world.old.lead.folders world.old.follow.folders world.old.messages.items) v → IfOk result (λ line. ComesTo setup.now.folder.0 (begin_at setup.now v m command.now (slice_get v.members m.0)) v line (shown world.new.members.items world.new.lead.folders world.new.follow.folders world.new.messages.items)) }
{
    let Some(place) = place_at(&world.members, m) else {
        return Ok(None);
    };
    let Some(kept) = place.kept() else {
        return Ok(None);
    };
    if !fits(kept.shape, command) {
        return Ok(None);
    }
    let kept = kept.copy(alloc)?;
    let command = copied(alloc, command)?;
    match Member::begin(alloc, kept, seed_of(setup, m), command) {
        Ok(member) => {
            let line = go_on(alloc, m, member, &mut world.members, &mut world.messages)?;
            Ok(Some(line))
        }
        Err(fault) => {
            let fault = remembered(fault)?;
            Ok(Some(WorldLine::Ended {
                member: m,
                outcome: Outcome::Failed(fault),
            }))
        }
    }
}

/// An ask comes to its domain, which answers it.
pub fn carry(alloc: Global, world: &mut World, number: u32) -> Result<Option<WorldLine>, NoMemory>
    requires { length world.old.messages.items < 4294967296 }
    ensures { (s : Setups) (v : Worlds) → IsWorld s.folder.0 (shown world.old.members.items world.old.lead.folders world.old.follow.folders world.old.messages.items) v → IsOfFolder s v → IfOk result (λ line. ComesTo s.folder.0 (carry_of v (slice_get v.messages number)) v line (shown world.new.members.items world.new.lead.folders world.new.follow.folders world.new.messages.items)) }
{
    let message = world.messages.len() as u32;
    let Some(note) = note_at(&world.messages, number) else {
        return Ok(None);
    };
    let Put::Asked { side, request } = &note.put else {
        return Ok(None);
    };
    let side = *side;
    let member = request.ask.member;
    let answered = match side {
        Side::Lead => answer(alloc, &mut world.lead, request)?,
        Side::Follow => answer(alloc, &mut world.follow, request)?,
    };
    let frame = Bytes::of(answered.frame);
    world.messages.push(Note::replied(side, member, frame))?;
    Ok(Some(WorldLine::Reply {
        message,
        side,
        kind: answered.kind,
        refusal: answered.refusal,
    }))
}

/// A reply comes to its member, where it waits for one of that domain.
pub fn give_back(
    alloc: Global,
    world: &mut World,
    number: u32,
) -> Result<Option<WorldLine>, NoMemory>
    requires { length world.old.messages.items < 4294967296 }
    ensures { (folder : ℕ) (v : Worlds) → IsWorld folder (shown world.old.members.items world.old.lead.folders world.old.follow.folders world.old.messages.items) v → IfOk result (λ line. ComesTo folder (return_of v (slice_get v.messages number)) v line (shown world.new.members.items world.new.lead.folders world.new.follow.folders world.new.messages.items)) }
{
    let Some(note) = note_at(&world.messages, number) else {
        return Ok(None);
    };
    let Put::Replied {
        side,
        member,
        frame,
    } = &note.put
    else {
        return Ok(None);
    };
    let m = *member;
    let Some(waited) = awaited(&world.members, m) else {
        return Ok(None);
    };
    if !same_side(waited, *side) {
        return Ok(None);
    }
    let Some(mut member) = taken(alloc, &mut world.members, m)? else {
        return Ok(None);
    };
    member.take_reply(alloc, frame.items());
    let line = go_on(alloc, m, member, &mut world.members, &mut world.messages)?;
    Ok(Some(line))
}

/// A frame is put in a domain's name.
fn tell(
    world: &mut World,
    side: Side,
    member: MemberId,
    frame: Bytes,
) -> Result<WorldLine, NoMemory>
    requires { length world.old.messages.items < 4294967296 }
    ensures { (folder : ℕ) (v : Worlds) → IsWorld folder (shown world.old.members.items world.old.lead.folders world.old.follow.folders world.old.messages.items) v → IfOk result (λ line. Comes folder (told v side member frame) v line (shown world.new.members.items world.new.lead.folders world.new.follow.folders world.new.messages.items)) }
{
    let message = world.messages.len() as u32;
    world.messages.push(Note::replied(side, member, frame))?;
    Ok(WorldLine::Lied { message, side })
}

/// A domain that isn't honest puts any bytes.
pub fn lie(
    alloc: Global,
    world: &mut World,
    honest: Honest,
    side: Side,
    member: MemberId,
    bytes: &Bytes,
) -> Result<Option<WorldLine>, NoMemory>
    requires { length world.old.messages.items < 4294967296 }
    ensures { (folder : ℕ) (v : Worlds) → IsWorld folder (shown world.old.members.items world.old.lead.folders world.old.follow.folders world.old.messages.items) v → IfOk result (λ line. ComesTo folder (told_if (lies honest side && is_told bytes.now) v side member bytes.now) v line (shown world.new.members.items world.new.lead.folders world.new.follow.folders world.new.messages.items)) }
{
    if !lies(honest, side) || !is_told(bytes.items()) {
        return Ok(None);
    }
    let frame = copies(alloc, bytes.items())?;
    let line = tell(world, side, member, Bytes::of(frame))?;
    Ok(Some(line))
}

/// A domain that isn't honest puts a reply again, with a part of it XORed.
pub fn bend(
    alloc: Global,
    world: &mut World,
    honest: Honest,
    number: u32,
    at: u32,
    mask: &Bytes,
) -> Result<Option<WorldLine>, NoMemory>
    requires { length world.old.messages.items < 4294967296 }
    ensures { (folder : ℕ) (v : Worlds) → IsWorld folder (shown world.old.members.items world.old.lead.folders world.old.follow.folders world.old.messages.items) v → IfOk result (λ line. ComesTo folder (bend_of honest v at mask.now (slice_get v.messages number)) v line (shown world.new.members.items world.new.lead.folders world.new.follow.folders world.new.messages.items)) }
{
    let Some(note) = note_at(&world.messages, number) else {
        return Ok(None);
    };
    let Put::Replied {
        side,
        member,
        frame,
    } = &note.put
    else {
        return Ok(None);
    };
    if !lies(honest, *side) || !is_within(at, mask.items(), frame.items()) {
        return Ok(None);
    }
    let frame = bent(alloc, at, mask.items(), frame.items())?;
    let (side, member) = (*side, *member);
    let line = tell(world, side, member, Bytes::of(frame))?;
    Ok(Some(line))
}

/// A member gives its command up.
pub fn quit(alloc: Global, world: &mut World, m: MemberId) -> Result<Option<WorldLine>, NoMemory>
    ensures { (folder : ℕ) (v : Worlds) → IsWorld folder (shown world.old.members.items world.old.lead.folders world.old.follow.folders world.old.messages.items) v → IfOk result (λ line. ComesTo folder (quit_at v m (slice_get v.members m.0)) v line (shown world.new.members.items world.new.lead.folders world.new.follow.folders world.new.messages.items)) }
{
    match taken(alloc, &mut world.members, m)? {
        Some(_) => Ok(Some(WorldLine::Quit { member: m })),
        None => Ok(None),
    }
}
