//! The checks of one reply: Form, Echo, Refused and Stale.
ghost use Rattle.std.specs.Prelude.{◌≡◌, ◌≤◌, IfOk};
ghost use Rattle.dory_wire.specs.Spelling.{IsReply, IsWhat, IsFound};
ghost use Rattle.dory_verify.specs.Checks.{Finds, form, echo, is_allowed, same_ask, length_of, found_given, not_stale};

use crate::fault::{CheckFault, VerifyError};
use dory_base::{AskId, Found, Side};
use dory_wire::{Reply, What, WireFault, decode_reply, whole_message};
use std::alloc::Global;

/// Which replies an ask allows. Each allows a refusal too.
#[derive(Clone, Copy, Debug, PartialEq, Eq)]
pub enum Allowed {
    /// At, to a Latest.
    At,
    /// Found, to a Search.
    Found,
    /// Id, to a Which.
    Id,
    /// Staged and Committed, to a Stage.
    StagedOrCommitted,
    /// Committed, to an Order or a Follow.
    Committed,
}

/// Whether such a reply is allowed.
fn allows(allowed: Allowed, what: &What) -> bool
    ensures { result ≡ is_allowed allowed what.now }
{
    match allowed {
        Allowed::At => matches!(what, What::At { .. } | What::Refused { .. }),
        Allowed::Found => matches!(what, What::Found { .. } | What::Refused { .. }),
        Allowed::Id => matches!(what, What::Id { .. } | What::Refused { .. }),
        Allowed::StagedOrCommitted => matches!(
            what,
            What::Staged { .. } | What::Committed { .. } | What::Refused { .. }
        ),
        Allowed::Committed => matches!(what, What::Committed { .. } | What::Refused { .. }),
    }
}

/// The reply that a frame is, of a kind that is allowed.
pub fn formed(
    alloc: Global,
    side: Side,
    allowed: Allowed,
    frame: &[u8],
) -> Result<Reply, VerifyError>
    ensures exact { Finds result (form side allowed frame.now) }
    ensures range { IfOk result (λ r. IsWhat r.what) }
{
    let Some(message) = whole_message(frame) else {
        return Err(VerifyError::Check(CheckFault::Form { side, at: 0 }));
    };
    match decode_reply(alloc, message) {
        Ok(reply) => {
            if allows(allowed, &reply.what) {
                Ok(reply)
            } else {
                Err(VerifyError::Check(CheckFault::Form { side, at: 4 }))
            }
        }
        Err(WireFault::Kind { .. }) => Err(VerifyError::Check(CheckFault::Form { side, at: 4 })),
        Err(WireFault::Body { at }) => {
            Err(VerifyError::Check(CheckFault::Form { side, at: at + 4 }))
        }
        Err(WireFault::Trailing { at }) => {
            Err(VerifyError::Check(CheckFault::Form { side, at: at + 4 }))
        }
        Err(WireFault::NoMemory) => Err(VerifyError::NoMemory),
    }
}

fn is_same_ask(a: &AskId, b: &AskId) -> bool
    ensures { result ≡ same_ask a.now b.now }
{
    a.member.0 == b.member.0 && a.serial == b.serial && a.step == b.step
}

/// That a reply answers the ask that was put.
pub fn echoed(side: Side, asked: AskId, reply: &Reply) -> Result<(), CheckFault>
    ensures { result ≡ echo side asked reply.now }
{
    if is_same_ask(&reply.ask, &asked) {
        Ok(())
    } else {
        Err(CheckFault::Echo {
            side,
            asked,
            got: reply.ask,
        })
    }
}

/// The length that a reply to Latest gives.
pub fn length(side: Side, what: &What) -> Result<u32, VerifyError>
    requires { IsWhat what.now }
    ensures exact { Finds result (length_of side what.now) }
    ensures range { IfOk result (λ n. n ≤ 1048576) }
{
    match what {
        What::At { length } => Ok(*length),
        What::Refused { code } => Err(VerifyError::Check(CheckFault::Refused {
            side,
            code: *code,
        })),
        _ => Err(VerifyError::Check(CheckFault::Form { side, at: 4 })),
    }
}

/// What a reply to Search found.
pub fn found(side: Side, what: What) -> Result<Found, VerifyError>
    requires { IsWhat what }
    ensures exact { Finds result (found_given side what) }
    ensures range { IfOk result (λ f. IsFound f) }
{
    match what {
        What::Found { found } => Ok(found),
        What::Refused { code } => Err(VerifyError::Check(CheckFault::Refused { side, code })),
        _ => Err(VerifyError::Check(CheckFault::Form { side, at: 4 })),
    }
}

/// That a length or a version isn't older than what was seen.
pub fn fresh(side: Side, seen: u32, latest: u32) -> Result<(), VerifyError>
    ensures { Finds result (not_stale side seen latest) }
{
    if latest < seen {
        Err(VerifyError::Check(CheckFault::Stale { side, latest, seen }))
    } else {
        Ok(())
    }
}
