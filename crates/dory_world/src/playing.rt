//! A run is played, event by event, up to the first that isn't allowed.
ghost use Rattle.std.specs.Prelude.{◌≡◌, ◌<◌, ◌≤◌, ◌+◌, ℕ, List, false, IfOk, length, slice_get};
ghost use Rattle.std.specs.List.{AllByRecursion};
ghost use Rattle.dory_base.specs.Step.{State};
ghost use Rattle.dory_base.specs.declared.ids.MemberId.{MemberId as Member};
ghost use Rattle.dory_base.specs.declared.ids.Side.{Side as Sides};
ghost use Rattle.dory_verify.specs.declared.answer.Answer.{Answer};
ghost use Rattle.dory_run.specs.Happening.{happens, lies};
ghost use Rattle.dory_run.specs.Law.{AreWhole, HaveSeen};
ghost use Rattle.dory_run.specs.Run.{run_of, telling_of};
ghost use Rattle.dory_run.specs.Start.{IsSetup, start};
ghost use Rattle.dory_run.specs.World.{World as Worlds};
ghost use Rattle.dory_member.specs.declared.outcome.Outcome.TheVariants.{Accepted};
ghost use Rattle.dory_run.specs.declared.line.WorldLine.TheVariants.{Ended};
ghost use Rattle.dory_world.specs.Steps.{only};
ghost use Rattle.dory_world.specs.Plays.{AcceptsAt, ComesTo, HasPlayed, IsOfFolder, IsWorld, shown};

use crate::lines::Lines;
use crate::starting::started;
use crate::stepping::{begin, bend, carry, give_back, lie, quit};
use crate::world::World;
use dory_base::{FolderId, NoMemory};
use dory_domain::DomainCore;
use dory_kernel::RowKernel;
use dory_run::{Event, Honest, Setup, WorldLine};
use std::alloc::Global;

/// What is told of a run: a line for each event, the place of the first that isn't allowed, and how many updates the two
/// domains then have.
#[derive(Debug, Drop)]
pub struct Played {
    pub lines: Lines,
    pub bad: Option<usize>,
    pub lead: u32,
    pub follow: u32,
}

/// One event, and its line, if it is allowed.
fn happen(
    alloc: Global,
    world: &mut World,
    honest: Honest,
    setup: &Setup,
    event: &Event,
) -> Result<Option<WorldLine>, NoMemory>
    requires { length world.old.messages.items < 4294967296 }
    ensures { (v : Worlds) → IsWorld setup.now.folder.0 (shown world.old.members.items world.old.lead.folders world.old.follow.folders world.old.messages.items) v → IsOfFolder setup.now v → IfOk result (λ line. ComesTo setup.now.folder.0 (happens honest setup.now v event.now) v line (shown world.new.members.items world.new.lead.folders world.new.follow.folders world.new.messages.items)) }
{
    match event {
        Event::Begin { member, command } => begin(alloc, world, setup, *member, command),
        Event::Carry { message } => carry(alloc, world, *message),
        Event::Return { message } => give_back(alloc, world, *message),
        Event::Lie {
            side,
            member,
            bytes,
        } => lie(alloc, world, honest, *side, *member, bytes),
        Event::Bend { message, at, mask } => bend(alloc, world, honest, *message, *at, mask),
        Event::Quit { member } => quit(alloc, world, *member),
    }
}

/// How many updates a domain has.
fn length_at(core: &DomainCore, folder: FolderId) -> u32
    requires { (f : State) × (core.now.folders ≡ only folder.0 f) }
    ensures { (f : State) → core.now.folders ≡ only folder.0 f → result ≡ length f.history }
{
    match core.length(folder) {
        Some(length) => length,
        None => unreachable!(),
    }
}

/// The events are played in a world, up to the first that isn't allowed.
fn run(
    alloc: Global,
    world: &mut World,
    honest: Honest,
    setup: &Setup,
    events: &[Event],
) -> Result<(Lines, Option<usize>), NoMemory>
    requires setup { IsSetup setup.now }
    requires few { length events.now ≤ 4294967295 }
    requires start { IsWorld setup.now.folder.0 (shown world.old.members.items world.old.lead.folders world.old.follow.folders world.old.messages.items) (start setup.now) }
    ensures { IfOk result (λ told. HasPlayed honest setup.now events.now told.0 told.1 (shown world.new.members.items world.new.lead.folders world.new.follow.folders world.new.messages.items)) }
{
    let mut lines = Lines::new(alloc);
    for i in 0..events.len() {
        match happen(alloc, world, honest, setup, &events[i])? {
            Some(line) => lines.push(line)?,
            None => return Ok((lines, Some(i))),
        }
    }
    Ok((lines, None))
}

/// Plays a run: whatever members begin, carry, lose, repeat and give up, in any order, and whatever bytes a domain that
/// isn't honest puts.
pub fn play(
    alloc: Global,
    honest: Honest,
    setup: &Setup,
    events: &[Event],
    kernel: &RowKernel,
) -> Result<Played, NoMemory>
    requires setup { IsSetup setup.now }
    requires few { length events.now ≤ 4294967295 }
    // What is told is what the definition tells: a line for each event that was allowed, and the first that wasn't.
    ensures lines { IfOk result (λ p. p.lines ≡ (telling_of honest setup.now events.now).lines) }
    ensures bad { IfOk result (λ p. p.bad ≡ (telling_of honest setup.now events.now).bad) }
    ensures lead { IfOk result (λ p. p.lead ≡ length (telling_of honest setup.now events.now).world.lead.history) }
    ensures follow { IfOk result (λ p. p.follow ≡ length (telling_of honest setup.now events.now).world.follow.history) }
    // Each search that ended accepted is right by each honest domain's history, or the other domain's frame is the forgery.
    ensures accepted { IfOk result (λ p. (place : ℕ) (m : Member) (answer : Answer) → slice_get p.lines place ≡ Some (Ended m (Accepted answer)) → AcceptsAt honest setup.now events.now place m answer) }
    // At each moment each history has each update at most once and whole, and no member has seen more than an honest domain has.
    ensures whole { AllByRecursion (AreWhole setup.now) (run_of honest setup.now events.now) }
    ensures seen { (side : Sides) → lies honest side ≡ false → AllByRecursion (HaveSeen side) (run_of honest setup.now events.now) }
{
    let mut world = started(alloc, setup, kernel)?;
    let (lines, bad) = run(alloc, &mut world, honest, setup, events)?;
    Ok(Played {
        lines,
        bad,
        lead: length_at(&world.lead, setup.folder),
        follow: length_at(&world.follow, setup.folder),
    })
}
