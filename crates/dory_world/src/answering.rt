//! A domain answers an ask: what its reply puts.
ghost use Rattle.std.specs.Prelude.{◌≡◌, IfOk};
ghost use Rattle.dory_base.specs.Step.{State};
ghost use Rattle.dory_wire.specs.Spelling.{IsRequest, what_kind};
ghost use Rattle.dory_run.specs.Happening.{refusal_in};
ghost use Rattle.dory_world.specs.Steps.{Answers, only};

use dory_base::{NoMemory, Refusal};
use dory_domain::DomainCore;
use dory_wire::{Request, What, encode_reply};
use std::alloc::Global;

/// The frame of a reply, its kind, and the refusal that it is.
#[derive(Drop)]
pub struct Answered {
    pub frame: Vec<u8>,
    pub kind: u8,
    pub refusal: Option<Refusal>,
}

/// The first byte of a reply's message.
fn what_kind(what: &What) -> u8
    ensures { result ≡ what_kind what.now }
{
    match what {
        What::At { .. } => 129,
        What::Found { .. } => 130,
        What::Id { .. } => 131,
        What::Staged { .. } => 132,
        What::Committed { .. } => 133,
        What::Refused { .. } => 134,
    }
}

/// The refusal that an answer is.
fn refusal_in(what: &What) -> Option<Refusal>
    ensures { result ≡ refusal_in what.now }
{
    match what {
        What::Refused { code } => Some(*code),
        _ => None,
    }
}

/// The reply of a domain to an ask. Where memory runs out, there is none.
pub fn answer(alloc: Global, core: &mut DomainCore, request: &Request) -> Result<Answered, NoMemory>
    requires { IsRequest request.now }
    ensures { (f : State) → core.old.folders ≡ only request.now.folder.0 f → IfOk result (λ a. Answers f request.now a core.new.folders) }
{
    let reply = core.step(alloc, request);
    let refusal = refusal_in(&reply.what);
    if let Some(Refusal::NoMemory) = refusal {
        return Err(NoMemory);
    }
    let kind = what_kind(&reply.what);
    let frame = encode_reply(alloc, &reply)?;
    Ok(Answered {
        frame,
        kind,
        refusal,
    })
}
