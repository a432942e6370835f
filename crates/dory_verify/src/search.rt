//! The check of a pair of replies to Search, and the answer.
ghost use Rattle.std.specs.Prelude.{◌≡◌, ◌∷◌, [], ℕ, Bool, List, length, IfOk};
ghost use Rattle.std.specs.List.{AllByRecursion};
ghost use Rattle.dory_base.specs.Dims.{Dims};
ghost use Rattle.dory_base.specs.declared.entry.Entry.{Entry};
ghost use Rattle.dory_base.specs.declared.ids.AskId.{AskId as AskOf};
ghost use Rattle.dory_query.specs.Columns.{asked_columns};
ghost use Rattle.dory_wire.specs.Spelling.{IsSum};
ghost use Rattle.dory_verify.specs.Checks.{Finds, adds_up, all_add_up, first_fault_of, Verifies};
ghost use Rattle.dory_verify.specs.Honest.{IsFoundIn, found_by, IsSearch, IsRightOrForged};
ghost use Rattle.dory_verify.specs.Listing.{crossed};
ghost use Rattle.dory_verify.specs.Tags.{xor_bits};

use crate::answer::Answer;
use crate::fault::{CheckFault, VerifyError};
use crate::listing::{crossed, rising};
use crate::pair::{both_found, of_one_version};
use crate::tags::check_tags;
use dory_base::{AskId, Bits, Manifest, Sum};
use dory_hmac::FolderKeys;
use dory_query::Query;
use std::alloc::Global;

/// That the tags add up at one probe.
fn adds_up(
    keys: &FolderKeys,
    column: u16,
    manifest: &Manifest,
    probe: usize,
    lead: &Sum,
    follow: &Sum,
    bits: &Bits,
) -> Result<(), CheckFault>
    requires crossed { bits.now ≡ xor_bits lead.now.bits follow.now.bits }
    requires many { length bits.now ≡ length manifest.now }
    ensures { result ≡ adds_up keys.now manifest.now probe column lead.now follow.now }
{
    let got = lead.tag.xor(&follow.tag);
    match check_tags(keys, column, manifest, bits, &got) {
        Ok(()) => Ok(()),
        Err(want) => Err(CheckFault::TagSum { probe, got, want }),
    }
}

/// That the tags add up at every probe.
fn all_add_up(
    keys: &FolderKeys,
    columns: &[u16],
    manifest: &Manifest,
    lead: &[Sum],
    follow: &[Sum],
    bits: &[Bits],
) -> Result<(), VerifyError>
    requires lead { length lead.now ≡ length columns.now }
    requires follow { length follow.now ≡ length columns.now }
    requires crossed { bits.now ≡ crossed lead.now follow.now }
    requires lead_sums { AllByRecursion (IsSum (length manifest.now)) lead.now }
    requires follow_sums { AllByRecursion (IsSum (length manifest.now)) follow.now }
    ensures { Finds result (all_add_up keys.now manifest.now 0 columns.now lead.now follow.now) }
{
    for probe in 0..columns.len() {
        let (l, f) = (&lead[probe], &follow[probe]);
        if let Err(fault) = adds_up(keys, columns[probe], manifest, probe, l, f, &bits[probe]) {
            return Err(VerifyError::Check(fault));
        }
    }
    Ok(())
}

/// What two whole frames, as received from the lead and from the follower, answer to a search.
pub fn verify(
    alloc: Global,
    keys: &FolderKeys,
    query: &Query,
    seen: u32,
    lead: &[u8],
    follow: &[u8],
) -> Result<Answer, VerifyError>
    ensures exact { (first second : AskOf) → query.now.asks ≡ first ∷ second ∷ [] →
        Verifies keys.now (asked_columns query.now) query.now.version result (first_fault_of keys.now (asked_columns query.now) query.now.version seen first second lead.now follow.now) }
    ensures right_beside_lead { (shape : Dims) (history : List Entry) (word : List ℕ) (mine other : List (List Bool)) →
        IsSearch keys.now shape history query.now.version word (asked_columns query.now) mine other → IsFoundIn lead.now (found_by history query.now.version mine) →
        IfOk result (λ answer. IsRightOrForged keys.now shape history query.now.version word (asked_columns query.now) other follow.now answer.docs) }
    ensures right_beside_follow { (shape : Dims) (history : List Entry) (word : List ℕ) (other mine : List (List Bool)) →
        IsSearch keys.now shape history query.now.version word (asked_columns query.now) other mine → IsFoundIn follow.now (found_by history query.now.version mine) →
        IfOk result (λ answer. IsRightOrForged keys.now shape history query.now.version word (asked_columns query.now) other lead.now answer.docs) }
{
    let probes = query.shape.probes() as usize;
    let columns = &query.word_columns[..probes];
    let [first, second] = query.asks;
    answered(
        alloc,
        keys,
        columns,
        query.version,
        seen,
        first,
        second,
        lead,
        follow,
    )
}

/// What two replies to a search at these columns answer. It stands apart from `verify`, whose further clauses are proved of
/// this exact one.
#[tactic(auto, unfolding(crate::specs::Checks::first_fault_of))]
fn answered(
    alloc: Global,
    keys: &FolderKeys,
    columns: &[u16],
    version: u32,
    seen: u32,
    first: AskId,
    second: AskId,
    lead: &[u8],
    follow: &[u8],
) -> Result<Answer, VerifyError>
    ensures { Verifies keys.now columns.now version result (first_fault_of keys.now columns.now version seen first second lead.now follow.now) }
{
    let (l, f) = both_found(alloc, first, second, lead, follow)?;
    of_one_version(columns.len(), version, seen, &l, &f)?;
    let bits = crossed(alloc, l.sums.items(), f.sums.items())?;
    all_add_up(
        keys,
        columns,
        &l.manifest,
        l.sums.items(),
        f.sums.items(),
        &bits,
    )?;
    let docs = rising(alloc, keys, columns, &bits, l.manifest.items())?;
    Ok(Answer { version, docs })
}
