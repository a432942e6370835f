//! A command from its beginning to its end: its drive, and what is written of it.
ghost use Rattle.std.specs.Prelude.{◌≡◌};
ghost use Rattle.dory_io.specs.Causes.{HasCause};
ghost use Rattle.dory_state.specs.Spelling.{IsKeptState};
ghost use Rattle.dory_member.specs.Machine.{just_begun};
ghost use Rattle.dory_member.specs.Within.{FitsCommand};
ghost use Rattle.dory_client.specs.CommandEnds.{OutcomePrints, CommandEnds, CommandEndsFrom};
ghost use Rattle.dory_client.specs.Ends.{FailedAt, broken_end as end_at};
ghost use Rattle.dory_drive.specs.Scene.{Caused, OnlyOutput};

use crate::command::end_of;
use crate::end::ClientEnd;
use crate::said::say_outcome;
use dory_drive::{Broken, Outside, drive};
use dory_member::{Command, Member, Outcome};
use dory_state::KeptState;
use std::alloc::Global;

/// How a call ends where its conversation broke off.
pub fn broken_end(broken: Broken) -> ClientEnd
    ensures { result ≡ end_at broken }
{
    match broken {
        Broken::KeeperFault => ClientEnd::KeeperFault,
        Broken::LinkFault { side } => ClientEnd::LinkFault { side },
        Broken::NoMemory => ClientEnd::NoMemory,
    }
}

/// Writes what a command came to, or answers its fault.
fn tell<W: Outside>(alloc: Global, outcome: &Outcome, outside: &mut W) -> ClientEnd
    ensures lent { W.lent outside.new ≡ W.lent outside.old }
    ensures only { OnlyOutput (W.scene outside.old) (W.scene outside.new) }
    ensures comes { OutcomePrints outcome.now (W.scene outside.old).written (W.scene outside.new).written result }
    ensures cause { HasCause (W.scene outside.old).faults.output (W.scene outside.new).faults.output (result ≡ ClientEnd.OutputFault) }
{
    match outcome {
        Outcome::Posted { .. } => say_outcome(alloc, outcome, outside),
        Outcome::Removed { .. } => say_outcome(alloc, outcome, outside),
        Outcome::Accepted { .. } => say_outcome(alloc, outcome, outside),
        Outcome::NothingPending => say_outcome(alloc, outcome, outside),
        Outcome::Lengths { .. } => say_outcome(alloc, outcome, outside),
        Outcome::Rotated { .. } => say_outcome(alloc, outcome, outside),
        Outcome::Failed(fault) => end_of(*fault),
    }
}

/// Drives a member that has just begun, and tells what it came to.
fn run_member<W: Outside>(alloc: Global, member: &mut Member, outside: &mut W) -> ClientEnd
    requires { member.old ≡ just_begun member.old.run }
    ensures lent { W.lent outside.new ≡ W.lent outside.old }
    ensures goes { CommandEnds member.old.run (W.scene outside.old) (W.scene outside.new) result }
    ensures cause { Caused (W.scene outside.old).faults (W.scene outside.new).faults (FailedAt result) }
{
    match drive(alloc, member, outside) {
        Ok(outcome) => tell(alloc, outcome, outside),
        Err(broken) => broken_end(broken),
    }
}

/// Runs a command in a state.
pub fn go<W: Outside>(
    alloc: Global,
    state: KeptState,
    seed: [u8; 32],
    command: Command,
    outside: &mut W,
) -> ClientEnd
    requires state { IsKeptState state }
    requires row { FitsCommand state.shape command }
    ensures lent { W.lent outside.new ≡ W.lent outside.old }
    ensures goes { CommandEndsFrom state seed command (W.scene outside.old) (W.scene outside.new) result }
    ensures cause { Caused (W.scene outside.old).faults (W.scene outside.new).faults (FailedAt result) }
{
    match Member::begin(alloc, state, seed, command) {
        Ok(mut member) => run_member(alloc, &mut member, outside),
        Err(fault) => end_of(fault),
    }
}
