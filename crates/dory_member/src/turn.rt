//! Where a reply leads: from one phase to the next.
ghost use Rattle.std.specs.Prelude.{◌≡◌, ◌<◌, ◌≤◌, ◌+◌, ◌∷◌, [], ◌^◌, ℕ, None, IfOk};
ghost use Rattle.dory_state.specs.Spelling.{IsKeptState};
ghost use Rattle.dory_wire.specs.Spelling.{IsEntry, IsId, IsNumber};
ghost use Rattle.dory_verify.specs.Checks.{Finds, Verifies, first_fault_of, lengths_of};
ghost use Rattle.dory_query.specs.Columns.{asked_columns};
ghost use Rattle.dory_member.specs.declared.phase.Phase.TheVariants.{Searching, Updating};
ghost use Rattle.dory_member.specs.Course.{after_fault, after_lengths, after_mark, after_refused, after_search, fails, folder_keys, name, phase_after, query_of, side_of, single_of, updated};
ghost use Rattle.dory_member.specs.Within.{IsInRange, IsMarkOf, AsksNamed, IsQuery, IsSeen, Within, asks_before};

use crate::checks::confirmed;
use crate::frame::Frame;
use crate::outcome::{Fault, Mark, Outcome};
use crate::phase::{Phase, Run, Single, UpdateStep};
use dory_base::{AskId, Change, Entry, NoMemory, Refusal, Side, UpdateId, Word};
use dory_hmac::FolderKeys;
use dory_query::Query;
use dory_verify::{Answer, CheckFault, VerifyError, check_latest, verify};
use std::alloc::Global;

/// The ask of a run at a step.
pub fn name(run: &Run, step: u32) -> AskId
    ensures { result ≡ name run.now step }
{
    AskId {
        member: run.kept.member,
        serial: run.serial,
        step,
    }
}

/// The domain that an update's step asks.
pub fn side_of(at: UpdateStep) -> Side
    ensures { result ≡ side_of at }
{
    match at {
        UpdateStep::StageFollow => Side::Follow,
        UpdateStep::StageLead => Side::Lead,
        UpdateStep::OrderLead => Side::Lead,
        UpdateStep::FollowOn { .. } => Side::Follow,
        UpdateStep::WhichOther { .. } => Side::Lead,
        UpdateStep::FollowOther { .. } => Side::Follow,
    }
}

/// What an update's step asks.
pub fn single_of(id: UpdateId, at: UpdateStep) -> Single
    ensures { result ≡ single_of id at }
{
    match at {
        UpdateStep::StageFollow => Single::Stage { id },
        UpdateStep::StageLead => Single::Stage { id },
        UpdateStep::OrderLead => Single::Order { id },
        UpdateStep::FollowOn { number, .. } => Single::Follow { number, id },
        UpdateStep::WhichOther { at, .. } => Single::Which { number: at },
        UpdateStep::FollowOther { at, id, .. } => Single::Follow { number: at, id },
    }
}

/// A command that fails.
pub fn failed(fault: Fault) -> Phase
    ensures { result ≡ fails fault }
{
    Phase::Ended {
        outcome: Outcome::Failed(fault),
    }
}

/// A first Follow with the number that the lead gave has failed.
fn after_refused(entry: Entry, number: u32, fault: Fault) -> Phase
    requires entry { IsEntry entry }
    requires number { IsNumber number }
    ensures value { result ≡ after_refused entry number fault }
    ensures within { (step : ℕ) → step ≤ 4 → Within result step }
{
    match fault {
        Fault::Check(
            CheckFault::Refused {
                side: Side::Follow,
                code: Refusal::Gap { length },
            },
        ) => {
            if u64::from(length) + 1 < u64::from(number) {
                let at = length + 1;
                Phase::Updating {
                    entry,
                    at: UpdateStep::WhichOther { number, at },
                }
            } else {
                failed(fault)
            }
        }
        _ => failed(fault),
    }
}

/// Where a fault of an update's step leads.
fn after_fault(entry: Entry, at: UpdateStep, fault: Fault) -> Phase
    requires entry { IsEntry entry }
    requires range { IsInRange at }
    ensures value { result ≡ after_fault entry at fault }
    ensures within { (step : ℕ) → step ≤ asks_before at → Within result (step + 1) }
{
    match at {
        UpdateStep::FollowOn {
            number,
            repaired: false,
        } => after_refused(entry, number, fault),
        UpdateStep::FollowOn { .. } => failed(fault),
        UpdateStep::StageFollow => failed(fault),
        UpdateStep::StageLead => failed(fault),
        UpdateStep::OrderLead => failed(fault),
        UpdateStep::WhichOther { .. } => failed(fault),
        UpdateStep::FollowOther { .. } => failed(fault),
    }
}

/// An update that stands in both histories.
fn updated(entry: &Entry, number: u32) -> Outcome
    requires { number ≤ 1048576 }
    ensures value { result ≡ updated entry.now.change entry.now.doc number }
    ensures seen { IsSeen result }
{
    let doc = entry.doc;
    match &entry.change {
        Change::Post { .. } => Outcome::Posted { doc, number },
        Change::Remove => Outcome::Removed { doc, number },
    }
}

/// A number of the repair has been followed.
fn after_other(entry: Entry, number: u32, at: u32, id: UpdateId) -> Phase
    requires entry { IsEntry entry }
    requires range { IsInRange (UpdateStep.FollowOther number at id) }
    ensures value { result ≡ after_mark entry (UpdateStep.FollowOther number at id) (record { number = at; id = id }) }
    ensures within { (step : ℕ) → step ≤ asks_before (UpdateStep.FollowOther number at id) → Within result (step + 1) }
{
    if at + 1 < number {
        Phase::Updating {
            entry,
            at: UpdateStep::WhichOther { number, at: at + 1 },
        }
    } else {
        Phase::Updating {
            entry,
            at: UpdateStep::FollowOn {
                number,
                repaired: true,
            },
        }
    }
}

/// Where what a reply confirms leads.
fn after_mark(entry: Entry, at: UpdateStep, mark: Mark) -> Phase
    requires entry { IsEntry entry }
    requires range { IsInRange at }
    requires mark { IsMarkOf (single_of entry.id at) mark }
    ensures value { result ≡ after_mark entry at mark }
    ensures within { (step : ℕ) → step ≤ asks_before at → Within result (step + 1) }
{
    match at {
        UpdateStep::StageFollow => Phase::Updating {
            entry,
            at: UpdateStep::StageLead,
        },
        UpdateStep::StageLead => Phase::Updating {
            entry,
            at: UpdateStep::OrderLead,
        },
        UpdateStep::OrderLead => Phase::Updating {
            entry,
            at: UpdateStep::FollowOn {
                number: mark.number,
                repaired: false,
            },
        },
        UpdateStep::FollowOn { number, .. } => Phase::Ended {
            outcome: updated(&entry, number),
        },
        UpdateStep::WhichOther { number, at } => Phase::Updating {
            entry,
            at: UpdateStep::FollowOther {
                number,
                at,
                id: mark.id,
            },
        },
        UpdateStep::FollowOther { number, at, id } => after_other(entry, number, at, id),
    }
}

/// The two lengths that replies to Latest give.
fn lengths(alloc: Global, run: &Run, lead: &[u8], follow: &[u8]) -> Result<(u32, u32), VerifyError>
    ensures exact { Finds result (lengths_of run.now.kept.seen (name run.now 0) (name run.now 1) lead.now follow.now) }
    ensures range { IfOk result (λ n. (n.0 ≤ 1048576) × (n.1 ≤ 1048576)) }
{
    let asks = [name(run, 0), name(run, 1)];
    check_latest(alloc, run.kept.seen, asks, lead, follow)
}

/// A search at a version, whose keys are drawn.
fn searching(alloc: Global, run: &Run, word: &Word, version: u32) -> Result<Phase, NoMemory>
    requires kept { IsKeptState run.now.kept }
    requires version { version ≤ 1048576 }
    ensures value { IfOk result (λ p. p ≡ Searching (query_of run.now word.now version) None) }
    ensures within { IfOk result (λ p. (step : ℕ) → step ≤ 2 → Within p step) }
{
    let keys = FolderKeys::derive(&run.kept.master, run.kept.folder.0);
    let asks = [name(run, 2), name(run, 3)];
    let query = Query::make(alloc, &keys, run.kept.shape, word, version, asks, &run.seed)?;
    Ok(Phase::Searching { query, lead: None })
}

/// Where two replies to Latest lead.
fn after_lengths(
    alloc: Global,
    run: &Run,
    word: Option<Word>,
    lead: &[u8],
    follow: &[u8],
) -> Result<Phase, NoMemory>
    requires kept { IsKeptState run.now.kept }
    requires steps { run.now.step ≤ 1 }
    ensures value { IfOk result (λ p. p ≡ after_lengths run.now word (lengths_of run.now.kept.seen (name run.now 0) (name run.now 1) lead.now follow.now)) }
    ensures named { IfOk result (λ p. AsksNamed run.now p) }
    ensures within { IfOk result (λ p. Within p (run.now.step + 1)) }
{
    match lengths(alloc, run, lead, follow) {
        Ok((lead, follow)) => match word {
            None => Ok(Phase::Ended {
                outcome: Outcome::Lengths {
                    lead,
                    follow,
                    seen: run.kept.seen,
                },
            }),
            Some(word) => {
                let version = if lead < follow { lead } else { follow };
                match searching(alloc, run, &word, version) {
                    Ok(phase) => Ok(phase),
                    Err(fault) => Err(fault),
                }
            }
        },
        Err(VerifyError::Check(fault)) => Ok(failed(Fault::Check(fault))),
        Err(VerifyError::NoMemory) => Err(NoMemory),
    }
}

/// What two replies to a search answer.
fn found(
    alloc: Global,
    run: &Run,
    query: &Query,
    lead: &[u8],
    follow: &[u8],
) -> Result<Answer, VerifyError>
    requires { query.now.asks ≡ name run.now 2 ∷ name run.now 3 ∷ [] }
    ensures { Verifies (folder_keys run.now.kept) (asked_columns query.now) query.now.version result (first_fault_of (folder_keys run.now.kept) (asked_columns query.now) query.now.version run.now.kept.seen (name run.now 2) (name run.now 3) lead.now follow.now) }
{
    let keys = FolderKeys::derive(&run.kept.master, run.kept.folder.0);
    verify(alloc, &keys, query, run.kept.seen, lead, follow)
}

/// Where two replies to a search lead.
fn after_search(
    alloc: Global,
    run: &Run,
    query: &Query,
    lead: &[u8],
    follow: &[u8],
) -> Result<Phase, NoMemory>
    requires named { query.now.asks ≡ name run.now 2 ∷ name run.now 3 ∷ [] }
    requires version { query.now.version ≤ 1048576 }
    ensures value { IfOk result (λ p. p ≡ after_search (folder_keys run.now.kept) query.now (first_fault_of (folder_keys run.now.kept) (asked_columns query.now) query.now.version run.now.kept.seen (name run.now 2) (name run.now 3) lead.now follow.now)) }
    ensures named { IfOk result (λ p. AsksNamed run.now p) }
    ensures within { IfOk result (λ p. Within p (run.now.step + 1)) }
{
    match found(alloc, run, query, lead, follow) {
        Ok(answer) => Ok(Phase::Ended {
            outcome: Outcome::Accepted { answer },
        }),
        Err(VerifyError::Check(fault)) => Ok(failed(Fault::Check(fault))),
        Err(VerifyError::NoMemory) => Err(NoMemory),
    }
}

/// Where a reply to an update's step leads.
fn after_update(
    alloc: Global,
    run: &Run,
    entry: Entry,
    at: UpdateStep,
    frame: &[u8],
) -> Result<Phase, NoMemory>
    requires entry { IsEntry entry }
    requires range { IsInRange at }
    requires steps { run.now.step ≤ asks_before at }
    ensures value { IfOk result (λ p. p ≡ phase_after run.now (Updating entry at) frame.now) }
    ensures named { IfOk result (λ p. AsksNamed run.now p) }
    ensures within { IfOk result (λ p. Within p (run.now.step + 1)) }
{
    let ask = single_of(entry.id, at);
    match confirmed(alloc, side_of(at), ask, name(run, run.step), frame) {
        Ok(Ok(mark)) => Ok(after_mark(entry, at, mark)),
        Ok(Err(fault)) => Ok(after_fault(entry, at, fault)),
        Err(NoMemory) => Err(NoMemory),
    }
}

/// The phase after a reply. The lead's reply of a pair is held.
pub fn phase_after(alloc: Global, run: &Run, phase: Phase, frame: &[u8]) -> Result<Phase, NoMemory>
    requires kept { IsKeptState run.now.kept }
    requires named { AsksNamed run.now phase }
    requires within { Within phase run.now.step }
    ensures value { IfOk result (λ p. p ≡ phase_after run.now phase frame.now) }
    ensures named { IfOk result (λ p. AsksNamed run.now p) }
    ensures within { IfOk result (λ p. Within p (run.now.step + 1)) }
{
    match phase {
        Phase::Updating { entry, at } => after_update(alloc, run, entry, at, frame),
        Phase::Measuring { word, lead } => match lead {
            None => {
                let lead = Some(Frame::copied(alloc, frame)?);
                Ok(Phase::Measuring { word, lead })
            }
            Some(lead) => after_lengths(alloc, run, word, lead.bytes(), frame),
        },
        Phase::Searching { query, lead } => match lead {
            None => {
                let lead = Some(Frame::copied(alloc, frame)?);
                Ok(Phase::Searching { query, lead })
            }
            Some(lead) => after_search(alloc, run, &query, lead.bytes(), frame),
        },
        Phase::Ended { outcome } => Ok(Phase::Ended { outcome }),
    }
}
