//! What two replies to a search found, and that it is of one version.
ghost use Rattle.std.specs.Prelude.{◌≡◌, IfOk};
ghost use Rattle.dory_wire.specs.Spelling.{IsFound};
ghost use Rattle.dory_verify.specs.Checks.{Finds, both_found, of_one_version, same_version, same_place, same_manifest, counted};

use crate::fault::{CheckFault, VerifyError};
use crate::reply::{Allowed, echoed, formed, found, fresh};
use dory_base::{AskId, Found, Place, Side};
use std::alloc::Global;

/// What both replies found.
#[tactic(auto, unfolding(crate::specs::Checks::both_found))]
pub fn both_found(
    alloc: Global,
    first: AskId,
    second: AskId,
    lead: &[u8],
    follow: &[u8],
) -> Result<(Found, Found), VerifyError>
    ensures exact { Finds result (both_found first second lead.now follow.now) }
    ensures range { IfOk result (λ both. IsFound both.0 × IsFound both.1) }
{
    let l = formed(alloc, Side::Lead, Allowed::Found, lead)?;
    let f = formed(alloc, Side::Follow, Allowed::Found, follow)?;
    echoed(Side::Lead, first, &l)?;
    echoed(Side::Follow, second, &f)?;
    let lead = found(Side::Lead, l.what)?;
    let follow = found(Side::Follow, f.what)?;
    Ok((lead, follow))
}

/// That the two are of the version asked, which isn't older than what was seen, and have its lines and a sum for each
/// probe.
#[tactic(auto, unfolding(crate::specs::Checks::of_one_version))]
pub fn of_one_version(
    probes: usize,
    version: u32,
    seen: u32,
    lead: &Found,
    follow: &Found,
) -> Result<(), VerifyError>
    ensures { Finds result (of_one_version probes version seen lead.now follow.now) }
{
    named(Side::Lead, version, lead)?;
    named(Side::Follow, version, follow)?;
    fresh(Side::Lead, seen, version)?;
    same_lines(lead.manifest.items(), follow.manifest.items())?;
    counted(Side::Lead, probes, lead)?;
    let got = follow.sums.items().len();
    if got == probes {
        Ok(())
    } else {
        Err(VerifyError::Check(CheckFault::Count {
            side: Side::Follow,
            got,
            want: probes,
        }))
    }
}

/// That what was found names the version asked.
fn named(side: Side, asked: u32, found: &Found) -> Result<(), VerifyError>
    ensures { Finds result (same_version side asked found.now) }
{
    let got = found.version;
    if got == asked {
        Ok(())
    } else {
        Err(VerifyError::Check(CheckFault::Version { side, asked, got }))
    }
}

fn is_same_place(a: &Place, b: &Place) -> bool
    ensures { result ≡ same_place a.now b.now }
{
    a.slot == b.slot
        && a.doc.0 == b.doc.0
        && (a.id.member.0 == b.id.member.0 && a.id.serial == b.id.serial)
}

/// That two manifests are alike.
fn same_lines(lead: &[Place], follow: &[Place]) -> Result<(), VerifyError>
    ensures { Finds result (same_manifest 0 lead.now follow.now) }
{
    let shorter = lead.len().min(follow.len());
    for place in 0..shorter {
        if !is_same_place(&lead[place], &follow[place]) {
            return Err(VerifyError::Check(CheckFault::Manifest { place }));
        }
    }
    if lead.len() == follow.len() {
        Ok(())
    } else {
        Err(VerifyError::Check(CheckFault::Manifest { place: shorter }))
    }
}

/// That there is a sum for each probe.
fn counted(side: Side, want: usize, found: &Found) -> Result<(), VerifyError>
    ensures { Finds result (counted side want found.now) }
{
    let got = found.sums.items().len();
    if got == want {
        Ok(())
    } else {
        Err(VerifyError::Check(CheckFault::Count { side, got, want }))
    }
}
