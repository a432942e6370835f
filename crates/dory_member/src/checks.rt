//! The checks of a reply that is checked by itself: Form, Echo, Refused, and what it confirms.
ghost use Rattle.std.specs.Prelude.{◌≡◌, IfOk};
ghost use Rattle.dory_base.specs.Log.{same_id};
ghost use Rattle.dory_wire.specs.Spelling.{IsId, IsNumber, IsWhat};
ghost use Rattle.dory_wire.specs.declared.message.What.TheVariants.{Committed};
ghost use Rattle.dory_member.specs.Single.{allowed, confirmed, refused, said, taken_by, wanted};
ghost use Rattle.dory_member.specs.Within.{IsMarkOf};

use crate::outcome::{Fault, Mark};
use crate::phase::Single;
use dory_base::{AskId, NoMemory, Refusal, Side, UpdateId};
use dory_verify::{Allowed, CheckFault, VerifyError, echoed, formed};
use dory_wire::What;
use std::alloc::Global;

/// The replies that an ask allows.
fn allowed(ask: Single) -> Allowed
    ensures { result ≡ allowed ask }
{
    match ask {
        Single::Which { .. } => Allowed::Id,
        Single::Stage { .. } => Allowed::StagedOrCommitted,
        Single::Order { .. } => Allowed::Committed,
        Single::Follow { .. } => Allowed::Committed,
    }
}

fn is_same_id(a: &UpdateId, b: &UpdateId) -> bool
    ensures { result ≡ same_id a.now b.now }
{
    a.member.0 == b.member.0 && a.serial == b.serial
}

/// That the mark got is the one wanted.
fn wanted(side: Side, want: Mark, got: Mark) -> Result<Mark, Fault>
    ensures { result ≡ wanted side want got }
{
    if want.number == got.number && is_same_id(&want.id, &got.id) {
        Ok(got)
    } else {
        Err(Fault::Unconfirmed { side, want, got })
    }
}

/// A number that another update has at the follower.
fn taken_by(side: Side, n: u32, i: UpdateId, number: u32, id: UpdateId) -> Fault
    ensures { result ≡ taken_by side n i number id }
{
    if n == number && !is_same_id(&i, &id) {
        Fault::Diverged {
            number: n,
            lead_id: i,
            follow_id: id,
        }
    } else {
        let code = Refusal::Taken { number, id };
        Fault::Check(CheckFault::Refused { side, code })
    }
}

/// What a refusal comes to.
fn refused(side: Side, ask: Single, code: Refusal) -> Fault
    ensures { result ≡ refused side ask code }
{
    match (ask, code) {
        (Single::Follow { number: n, id: i }, Refusal::Taken { number, id }) => {
            taken_by(side, n, i, number, id)
        }
        _ => Fault::Check(CheckFault::Refused { side, code }),
    }
}

/// What a reply confirms.
fn said(side: Side, ask: Single, what: &What) -> Result<Mark, Fault>
    requires { IsWhat what.now }
    ensures exact { result ≡ said side ask what.now }
    ensures range { IfOk result (IsMarkOf ask) }
{
    match what {
        What::Refused { code } => Err(refused(side, ask, *code)),
        What::Id { number, id } => match ask {
            Single::Which { number: n } => wanted(
                side,
                Mark { number: n, id: *id },
                Mark {
                    number: *number,
                    id: *id,
                },
            ),
            _ => Err(Fault::Check(CheckFault::Form { side, at: 4 })),
        },
        What::Staged { id } => match ask {
            Single::Stage { id: i } => {
                wanted(side, Mark { number: 0, id: i }, Mark { number: 0, id: *id })
            }
            _ => Err(Fault::Check(CheckFault::Form { side, at: 4 })),
        },
        What::Committed { number, id } => committed(side, ask, *number, *id),
        _ => Err(Fault::Check(CheckFault::Form { side, at: 4 })),
    }
}

/// What a Committed confirms.
fn committed(side: Side, ask: Single, number: u32, id: UpdateId) -> Result<Mark, Fault>
    requires number { IsNumber number }
    requires id { IsId id }
    ensures exact { result ≡ said side ask (Committed number id) }
    ensures range { IfOk result (IsMarkOf ask) }
{
    let got = Mark { number, id };
    match ask {
        Single::Which { .. } => Err(Fault::Check(CheckFault::Form { side, at: 4 })),
        Single::Stage { id } => wanted(side, Mark { number, id }, got),
        Single::Order { id } => wanted(side, Mark { number, id }, got),
        Single::Follow { number, id } => wanted(side, Mark { number, id }, got),
    }
}

/// What a frame confirms that came to an ask, or the first fault.
#[tactic(auto, unfolding(crate::specs::Single::confirmed))]
pub fn confirmed(
    alloc: Global,
    side: Side,
    ask: Single,
    asked: AskId,
    frame: &[u8],
) -> Result<Result<Mark, Fault>, NoMemory>
    ensures exact { IfOk result (λ r. r ≡ confirmed side ask asked frame.now) }
    ensures range { IfOk result (λ r. IfOk r (IsMarkOf ask)) }
{
    let reply = match formed(alloc, side, allowed(ask), frame) {
        Ok(reply) => reply,
        Err(VerifyError::Check(fault)) => return Ok(Err(Fault::Check(fault))),
        Err(VerifyError::NoMemory) => return Err(NoMemory),
    };
    match echoed(side, asked, &reply) {
        Ok(()) => Ok(said(side, ask, &reply.what)),
        Err(fault) => Ok(Err(Fault::Check(fault))),
    }
}
