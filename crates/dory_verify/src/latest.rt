//! The check of a pair of replies to Latest.
ghost use Rattle.std.specs.Prelude.{◌≡◌, ◌≤◌, ◌∷◌, [], IfOk};
ghost use Rattle.dory_base.specs.declared.ids.AskId.{AskId as AskOf};
ghost use Rattle.dory_verify.specs.Checks.{Finds, lengths_of};

use crate::fault::VerifyError;
use crate::reply::{Allowed, echoed, formed, fresh, length};
use dory_base::{AskId, Side};
use std::alloc::Global;

/// The two lengths, of two whole frames as received to the asks of the lead and of the follower.
pub fn check_latest(
    alloc: Global,
    seen: u32,
    asks: [AskId; 2],
    lead: &[u8],
    follow: &[u8],
) -> Result<(u32, u32), VerifyError>
    ensures exact { (first second : AskOf) → asks ≡ first ∷ second ∷ [] → Finds result (lengths_of seen first second lead.now follow.now) }
    ensures range { IfOk result (λ n. (n.0 ≤ 1048576) × (n.1 ≤ 1048576)) }
{
    lengths(alloc, seen, asks[0], asks[1], lead, follow)
}

/// The same of two asks. It stands apart from `check_latest`, whose array shows no elements to what unfolds here.
#[tactic(auto, unfolding(crate::specs::Checks::lengths_of))]
fn lengths(
    alloc: Global,
    seen: u32,
    first: AskId,
    second: AskId,
    lead: &[u8],
    follow: &[u8],
) -> Result<(u32, u32), VerifyError>
    ensures exact { Finds result (lengths_of seen first second lead.now follow.now) }
    ensures range { IfOk result (λ n. (n.0 ≤ 1048576) × (n.1 ≤ 1048576)) }
{
    let lead = formed(alloc, Side::Lead, Allowed::At, lead)?;
    let follow = formed(alloc, Side::Follow, Allowed::At, follow)?;
    echoed(Side::Lead, first, &lead)?;
    echoed(Side::Follow, second, &follow)?;
    let lead = length(Side::Lead, &lead.what)?;
    let follow = length(Side::Follow, &follow.what)?;
    fresh(Side::Lead, seen, lead)?;
    fresh(Side::Follow, seen, follow)?;
    Ok((lead, follow))
}
