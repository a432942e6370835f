//! A member's command, reply by reply.
ghost use Rattle.std.specs.Prelude.{◌≡◌, ◌⊎◌, ◌<◌, ◌≤◌, ◌+◌, ◌^◌, true, false, Ok, option_map};
ghost use Rattle.dory_state.specs.Spelling.{IsKeptState};
ghost use Rattle.dory_wire.specs.Spelling.{IsAsk};
ghost use Rattle.dory_member.specs.declared.outcome.Fault.TheVariants as fault;
ghost use Rattle.dory_member.specs.Course.{Ask as AskOf, asks, fails, finished, kept_at, name, outcome_at, phase_after, ask_request, settled};
ghost use Rattle.dory_member.specs.Machine.{AsksBy, BeginsBy, IsFramed, began, just_begun, waits_for_reply, is_saving, keeps, outcome_of, ran_out, saves_first, saves_last, seen, reply_taken, turn_of};
ghost use Rattle.dory_member.specs.Within.{FitsCommand, AsksNamed, RunInRange, IsSeen, Within};

use crate::begin::begun;
use crate::command::Command;
use crate::frame::Frame;
use crate::framing::{Asked, frame_of};
use crate::next::Next;
use crate::outcome::{Fault, Outcome};
use crate::phase::{Phase, Run};
use crate::turn::{failed, name, phase_after, side_of};
use dory_base::{NoMemory, Side};
use dory_state::KeptState;
use std::alloc::Global;
use std::marker::Model;
use std::mem;

/// Whether an outcome keeps something new.
fn keeps(outcome: &Outcome) -> bool
    ensures { result ≡ keeps outcome.now }
{
    match outcome {
        Outcome::Posted { .. } => true,
        Outcome::Removed { .. } => true,
        Outcome::Accepted { .. } => true,
        Outcome::NothingPending => false,
        Outcome::Lengths { .. } => false,
        Outcome::Rotated { .. } => true,
        Outcome::Failed(_) => false,
    }
}

/// Whether a command saves before it goes on.
fn saves_first(phase: &Phase) -> bool
    ensures { result ≡ saves_first phase.now }
{
    match phase {
        Phase::Updating { .. } => true,
        Phase::Measuring { .. } => true,
        Phase::Searching { .. } => true,
        Phase::Ended { outcome } => keeps(outcome),
    }
}

/// Whether it saves after a reply.
fn saves_last(phase: &Phase) -> bool
    ensures { result ≡ saves_last phase.now }
{
    match phase {
        Phase::Updating { .. } => false,
        Phase::Measuring { .. } => false,
        Phase::Searching { .. } => false,
        Phase::Ended { outcome } => keeps(outcome),
    }
}

/// An update stands in both histories.
fn settle(state: &mut KeptState, number: u32)
    ensures { state.new ≡ settled state.old number }
{
    state.seen = if state.seen < number {
        number
    } else {
        state.seen
    };
    state.pending = None;
}

/// What a phase keeps.
fn keep(state: &mut KeptState, phase: &Phase)
    ensures { state.new ≡ kept_at state.old phase.now }
{
    let Phase::Ended { outcome } = phase else {
        return;
    };
    match outcome {
        Outcome::Posted { number, .. } => settle(state, *number),
        Outcome::Removed { number, .. } => settle(state, *number),
        Outcome::Accepted { answer } => state.seen = answer.version,
        Outcome::NothingPending => {}
        Outcome::Lengths { .. } => {}
        Outcome::Rotated { .. } => {}
        Outcome::Failed(_) => {}
    }
}

/// The domain that a phase asks.
fn asked_side(phase: &Phase) -> Option<Side>
    ensures { result ≡ option_map (λ ask. ask.side) (asks phase.now) }
{
    match phase {
        Phase::Updating { at, .. } => Some(side_of(*at)),
        Phase::Measuring { lead: None, .. } => Some(Side::Lead),
        Phase::Measuring { lead: Some(_), .. } => Some(Side::Follow),
        Phase::Searching { lead: None, .. } => Some(Side::Lead),
        Phase::Searching { lead: Some(_), .. } => Some(Side::Follow),
        Phase::Ended { .. } => None,
    }
}

/// The ask of a run at a step, and its folder.
fn asked(run: &Run, step: u32) -> Asked
    requires kept { IsKeptState run.now.kept }
    requires serial { run.now.serial < 2 ^ 64 }
    ensures ask { result.ask ≡ name run.now step }
    ensures folder { result.folder ≡ run.now.kept.folder }
    ensures range { IsAsk result.ask }
    ensures few { result.folder.0 < 2 ^ 32 }
{
    Asked {
        ask: name(run, step),
        folder: run.kept.folder,
    }
}

/// A phase, with the frame of what it asks.
#[derive(Drop)]
struct Framed {
    phase: Phase,
    frame: Frame,
}

/// A command that ran out of memory.
fn out_of_memory(alloc: Global) -> Framed
    ensures phase { result.phase ≡ fails fault.NoMemory }
{
    Framed {
        phase: failed(Fault::NoMemory),
        frame: Frame::empty(alloc),
    }
}

/// The phase after a reply, with the frame of what it asks.
fn turned(alloc: Global, run: &Run, phase: Phase, reply: &[u8]) -> Framed
    requires kept { IsKeptState run.now.kept }
    requires serial { run.now.serial < 2 ^ 64 }
    requires named { AsksNamed run.now phase }
    requires within { Within phase run.now.step }
    requires steps { run.now.step ≤ 2097157 }
    ensures phase { (result.phase ≡ phase_after run.now phase reply.now) ⊎ (result.phase ≡ fails fault.NoMemory) }
    ensures named { AsksNamed run.now result.phase }
    ensures within { Within result.phase (run.now.step + 1) }
    ensures frame { IsFramed (name run.now (run.now.step + 1)) run.now.kept.folder (asks result.phase) result.frame }
{
    let Ok(next) = phase_after(alloc, run, phase, reply) else {
        return out_of_memory(alloc);
    };
    match frame_of(alloc, asked(run, run.step + 1), &next) {
        Ok(frame) => Framed { phase: next, frame },
        Err(NoMemory) => out_of_memory(alloc),
    }
}

/// A member's command. It asks and keeps nothing by itself: whoever runs it saves its state and sends its frames, each
/// when it is due, and hands it the replies.
#[derive(Drop)]
pub struct Member {
    run: Run,
    frame: Frame,
    unsaved: bool,
}

impl Model for Member {
    ghost use Rattle.dory_member.specs.Machine.{Machine};

    ghost Value = { Machine };

    ghost use Rattle.dory_member.specs.Stands.{Stands};

    ghost view = { λ a. record { run = a.run; unsaved = a.unsaved } };

    ghost invariant = { λ a. Stands a.run a.frame };
}

/// What is left of a command: what it has kept, and its outcome.
#[derive(Drop)]
pub struct Parts {
    pub state: KeptState,
    pub outcome: Option<Outcome>,
}

/// How a phase has ended, if it has.
fn ended(phase: Phase) -> Option<Outcome>
    ensures { result ≡ outcome_at phase }
{
    match phase {
        Phase::Updating { .. } => None,
        Phase::Measuring { .. } => None,
        Phase::Searching { .. } => None,
        Phase::Ended { outcome } => Some(outcome),
    }
}

/// A run that begins.
fn first(alloc: Global, run: Run) -> Result<Member, Fault>
    requires { RunInRange run }
    ensures { BeginsBy result (Ok (just_begun run)) }
{
    match frame_of(alloc, asked(&run, run.step), &run.phase) {
        Ok(frame) => {
            let unsaved = saves_first(&run.phase);
            Ok(Member {
                run,
                frame,
                unsaved,
            })
        }
        Err(NoMemory) => Err(Fault::NoMemory),
    }
}

impl Member {
    /// A command begins. The seed draws the keys of its search, and may be used once with each serial.
    pub fn begin(
        alloc: Global,
        state: KeptState,
        seed: [u8; 32],
        command: Command,
    ) -> Result<Member, Fault>
        requires state { IsKeptState state }
        requires row { FitsCommand state.shape command }
        ensures { BeginsBy result (began state seed command) }
    {
        match begun(alloc, state, &seed, command) {
            Ok(run) => first(alloc, run),
            Err(fault) => Err(fault),
        }
    }

    /// What has to be done before the command goes on.
    pub fn next(&self) -> Next<'_>
        ensures turn { seen result ≡ turn_of self.now }
        // What is asked is read as the request.
        ensures request { (ask : AskOf) → asks self.now.run.phase ≡ Some ask → AsksBy (ask_request self.now.run ask) result }
        // A command asks this often at most.
        ensures few { waits_for_reply (seen result) ≡ true → self.now.run.step ≤ 2097157 }
    {
        if self.unsaved {
            return Next::Save;
        }
        match asked_side(&self.run.phase) {
            Some(side) => Next::Ask {
                side,
                frame: self.frame.bytes(),
            },
            None => Next::End,
        }
    }

    /// The state was saved.
    pub fn saved(&mut self)
        requires { is_saving (turn_of self.old) ≡ true }
        ensures { self.new ≡ record self.old { unsaved = false } }
    {
        self.unsaved = false;
    }

    /// A reply came to the last ask, as these bytes. Where memory runs out, that is how the command ends.
    pub fn take_reply(&mut self, alloc: Global, frame: &[u8])
        requires { waits_for_reply (turn_of self.old) ≡ true }
        ensures { (self.new ≡ reply_taken self.old frame.now) ⊎ (self.new ≡ ran_out self.old) }
    {
        let phase = mem::replace(&mut self.run.phase, failed(Fault::NoMemory));
        let Framed { phase, frame } = turned(alloc, &self.run, phase, frame);
        keep(&mut self.run.kept, &phase);
        self.unsaved = saves_last(&phase);
        self.run.step += 1;
        self.run.phase = phase;
        self.frame = frame;
    }

    /// What a save keeps.
    pub fn state(&self) -> &KeptState
        ensures value { result.now ≡ self.now.run.kept }
        ensures range { IsKeptState result.now }
    {
        &self.run.kept
    }

    /// How the command ended, at its end.
    pub fn outcome(&self) -> Option<&Outcome>
        ensures { option_map (λ outcome. outcome.now) result ≡ outcome_of self.now }
    {
        if self.unsaved {
            return None;
        }
        match &self.run.phase {
            Phase::Ended { outcome } => Some(outcome),
            _ => None,
        }
    }

    /// Takes a command apart: its state, from which the next command of the same member begins, and its outcome, which it
    /// has at its end.
    pub fn into_parts(self) -> Parts
        ensures state { result.state ≡ self.run.kept }
        ensures range { IsKeptState result.state }
        ensures outcome { result.outcome ≡ outcome_of self }
    {
        let Member { run, unsaved, .. } = self;
        let Run { kept, phase, .. } = run;
        Parts {
            state: kept,
            outcome: if unsaved { None } else { ended(phase) },
        }
    }
}
