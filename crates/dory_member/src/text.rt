//! The text of an outcome.
ghost use Rattle.std.specs.Prelude.{◌≡◌, IfOk, Some, string_bytes};
ghost use Rattle.dory_member.specs.declared.outcome.Outcome.TheVariants.{Accepted};
ghost use Rattle.dory_member.specs.Texts.{command_fault_text, mark_text, text_of_outcome};

use crate::outcome::{Fault, Mark, Outcome};
use dory_base::NoMemory;
use dory_verify::Answer;
use std::alloc::Global;
use std::fmt;

impl fmt::Display for Mark {
    ghost output = { λ mark. Some (mark_text mark) };

    fn fmt<W: fmt::Write>(&self, f: &mut fmt::Formatter<W>) -> fmt::Result {
        let number = self.number;
        let id = self.id;
        write!(f, "{number} {id}")
    }
}

impl fmt::Display for Fault {
    ghost output = { λ fault. Some (command_fault_text fault) };

    fn fmt<W: fmt::Write>(&self, f: &mut fmt::Formatter<W>) -> fmt::Result {
        match self {
            Fault::Check(fault) => write!(f, "{fault}"),
            Fault::Unconfirmed { side, want, got } => write!(f, "unconfirmed {side} {want} {got}"),
            Fault::Diverged {
                number,
                lead_id,
                follow_id,
            } => write!(f, "diverged {number} {lead_id} {follow_id}"),
            Fault::Unfinished { id } => write!(f, "unfinished {id}"),
            Fault::SerialEnd => write!(f, "serialend"),
            Fault::EpochEnd => write!(f, "epochend"),
            Fault::NoMemory => write!(f, "nomemory"),
        }
    }
}

/// The version, and each document after a space.
#[tactic(auto, unfolding(crate::specs::Texts::text_of_outcome))]
fn answer_text(alloc: Global, answer: &Answer) -> Result<String, NoMemory>
    ensures { IfOk result (λ text. string_bytes text ≡ text_of_outcome (Accepted answer.now)) }
{
    let version = answer.version;
    let mut line = format!(in alloc; "version {version}:")?;
    for doc in answer.docs.items() {
        let number = doc.0;
        write!(line, " {number}")?;
    }
    Ok(line)
}

/// The text of an outcome, without a line end.
#[tactic(auto, unfolding(crate::specs::Texts::text_of_outcome))]
pub fn outcome_text(alloc: Global, outcome: &Outcome) -> Result<String, NoMemory>
    ensures { IfOk result (λ text. string_bytes text ≡ text_of_outcome outcome.now) }
{
    match outcome {
        Outcome::Posted { doc, number } => {
            let doc = doc.0;
            Ok(format!(in alloc; "posted {doc} at {number}")?)
        }
        Outcome::Removed { doc, number } => {
            let doc = doc.0;
            Ok(format!(in alloc; "removed {doc} at {number}")?)
        }
        Outcome::Accepted { answer } => answer_text(alloc, answer),
        Outcome::NothingPending => Ok(format!(in alloc; "nothing pending")?),
        Outcome::Lengths { lead, follow, seen } => {
            Ok(format!(in alloc; "lead {lead} follow {follow} seen {seen}")?)
        }
        Outcome::Rotated { epoch } => Ok(format!(in alloc; "epoch {epoch}")?),
        Outcome::Failed(fault) => Ok(format!(in alloc; "{fault}")?),
    }
}
