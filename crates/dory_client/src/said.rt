//! What is written.
ghost use Rattle.std.specs.Prelude.{◌≡◌, ◌++◌, ◌∷◌, [], Some, codes, string_bytes};
ghost use Rattle.dory_io.specs.Causes.{HasCause};
ghost use Rattle.dory_member.specs.declared.outcome.Outcome.{Outcome as OutcomeOf};
ghost use Rattle.dory_client.specs.CommandEnds.{Prints, outcome_line};
ghost use Rattle.dory_drive.specs.Scene.{OnlyOutput};

use crate::end::ClientEnd;
use dory_base::NoMemory;
use dory_drive::Outside;
use dory_member::{Outcome, outcome_text};
use std::alloc::Global;

/// Writes a text and a line end.
fn say<W: Outside>(alloc: Global, text: &str, outside: &mut W) -> ClientEnd
    ensures lent { W.lent outside.new ≡ W.lent outside.old }
    ensures only { OnlyOutput (W.scene outside.old) (W.scene outside.new) }
    ensures says { Prints (text.now ++ 10 ∷ []) (W.scene outside.old).written (W.scene outside.new).written result }
    ensures cause { HasCause (W.scene outside.old).faults.output (W.scene outside.new).faults.output (result ≡ ClientEnd.OutputFault) }
{
    let Ok(line) = format!(in alloc; "{text}\n") else {
        return ClientEnd::NoMemory;
    };
    match outside.write(line.as_bytes()) {
        Ok(()) => ClientEnd::Done,
        Err(_) => ClientEnd::OutputFault,
    }
}

/// Writes that a first state is kept.
pub fn say_ready<W: Outside>(alloc: Global, outside: &mut W) -> ClientEnd
    ensures lent { W.lent outside.new ≡ W.lent outside.old }
    ensures only { OnlyOutput (W.scene outside.old) (W.scene outside.new) }
    ensures says { Prints (codes "ready" ++ 10 ∷ []) (W.scene outside.old).written (W.scene outside.new).written result }
    ensures cause { HasCause (W.scene outside.old).faults.output (W.scene outside.new).faults.output (result ≡ ClientEnd.OutputFault) }
{
    say(alloc, "ready", outside)
}

/// Writes what a command came to.
pub fn say_outcome<W: Outside>(alloc: Global, outcome: &Outcome, outside: &mut W) -> ClientEnd
    ensures lent { W.lent outside.new ≡ W.lent outside.old }
    ensures only { OnlyOutput (W.scene outside.old) (W.scene outside.new) }
    ensures says { Prints (outcome_line outcome.now) (W.scene outside.old).written (W.scene outside.new).written result }
    ensures cause { HasCause (W.scene outside.old).faults.output (W.scene outside.new).faults.output (result ≡ ClientEnd.OutputFault) }
{
    match outcome_text(alloc, outcome) {
        Ok(text) => say(alloc, text.as_str(), outside),
        Err(NoMemory) => ClientEnd::NoMemory,
    }
}
