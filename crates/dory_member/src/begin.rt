//! How a command begins, or why it is refused.
ghost use Rattle.std.specs.Prelude.{◌≡◌, ◌&&◌, ◌<◌, ◌≤◌, ◌^◌, Bool, List, ℕ, false, length, None, Ok, IfOk};
ghost use Rattle.dory_state.specs.Spelling.{IsKeptState, IsPending};
ghost use Rattle.dory_member.specs.declared.command.Command.TheVariants.{Latest, Post, Remove, Resume, Rotate, Search};
ghost use Rattle.dory_state.specs.declared.kept.KeptState.{KeptState as KeptOf};
ghost use Rattle.dory_member.specs.declared.phase.Phase.TheVariants.{Measuring};
ghost use Rattle.dory_base.specs.declared.ids.DocId.{DocId as DocOf};
ghost use Rattle.dory_member.specs.Course.{asking, begun, ended_with, id_of, if_serial, or_fault, posting, removing, update_run};
ghost use Rattle.dory_member.specs.Draw.{is_last_epoch, is_used_up, ready};
ghost use Rattle.dory_member.specs.Machine.{BeginsBy};
ghost use Rattle.dory_member.specs.Within.{FitsCommand, AsksNamed, RunInRange, IsSeen, Within};

use crate::command::Command;
use crate::draw::{draw, epoch_in, is_last_epoch, is_last_serial, is_spent, is_used_up, turn};
use crate::outcome::{Fault, Outcome};
use crate::phase::{Phase, Run, UpdateStep};
use crate::seal::entry_of;
use dory_base::{Bits, DocId, MemberId, NoMemory, UpdateId, Word};
use dory_state::{KeptState, Pending};
use std::alloc::Global;

/// A command after its serial was drawn.
fn drawn_run(mut kept: KeptState, seed: &[u8; 32], phase: Phase) -> Run
    requires { kept.next_serial < 18446744073709551615 }
    ensures { result ≡ asking kept seed.now kept.used phase }
{
    let serial = kept.next_serial;
    let used = kept.used;
    draw(&mut kept, used);
    Run {
        kept,
        seed: *seed,
        serial,
        step: 0,
        phase,
    }
}

/// A command that draws the serial of its asks.
fn asking(kept: KeptState, seed: &[u8; 32], phase: Phase) -> Run
    requires state { IsKeptState kept }
    requires left { kept.next_serial < 18446744073709551615 }
    requires named { AsksNamed (asking kept seed.now kept.used phase) phase }
    requires within { Within phase 0 }
    ensures value { result ≡ asking kept seed.now kept.used phase }
    ensures range { RunInRange result }
{
    drawn_run(kept, seed, phase)
}

/// A command that asks nothing.
fn ended(kept: KeptState, seed: &[u8; 32], outcome: Outcome) -> Run
    requires state { IsKeptState kept }
    requires seen { IsSeen outcome }
    ensures value { result ≡ ended_with kept seed.now outcome }
    ensures range { RunInRange result }
{
    Run {
        kept,
        seed: *seed,
        serial: 0,
        step: 0,
        phase: Phase::Ended { outcome },
    }
}

/// A new update, which is kept as pending.
fn pending_run(
    alloc: Global,
    mut kept: KeptState,
    seed: &[u8; 32],
    used: u32,
    update: Pending,
) -> Result<Run, NoMemory>
    requires state { IsKeptState kept }
    requires left { kept.next_serial < 18446744073709551615 }
    requires update { IsPending kept.shape (2 ^ 64) update }
    ensures { IfOk result (λ run. run ≡ update_run kept seed.now used update) }
{
    let entry = entry_of(alloc, &kept, &update)?;
    let serial = kept.next_serial;
    draw(&mut kept, used);
    kept.pending = Some(update);
    Ok(Run {
        kept,
        seed: *seed,
        serial,
        step: 0,
        phase: Phase::Updating {
            entry,
            at: UpdateStep::StageFollow,
        },
    })
}

/// A new update under the serial that is drawn, with so many posts counted.
fn update_run(
    alloc: Global,
    kept: KeptState,
    seed: &[u8; 32],
    used: u32,
    update: Pending,
) -> Result<Run, NoMemory>
    requires state { IsKeptState kept }
    requires left { kept.next_serial < 18446744073709551615 }
    requires used { used ≤ 65536 }
    requires serial { update.serial ≡ kept.next_serial }
    requires update { IsPending kept.shape (2 ^ 64) update }
    ensures value { IfOk result (λ run. run ≡ update_run kept seed.now used update) }
    ensures range { IfOk result RunInRange }
{
    match pending_run(alloc, kept, seed, used, update) {
        Ok(run) => Ok(run),
        Err(fault) => Err(fault),
    }
}

/// A post in a state that is ready for it.
fn posting(
    alloc: Global,
    kept: KeptState,
    seed: &[u8; 32],
    doc: DocId,
    row: Bits,
) -> Result<Run, NoMemory>
    requires state { IsKeptState kept }
    requires left { kept.next_serial < 18446744073709551615 }
    requires few { kept.used < 65536 }
    requires doc { doc.0 < 2 ^ 32 }
    requires row { length row ≡ 2 ^ kept.shape.depth }
    ensures value { IfOk result (λ run. run ≡ posting kept seed.now doc row) }
    ensures range { IfOk result RunInRange }
{
    let used = kept.used + 1;
    let update = Pending {
        serial: kept.next_serial,
        doc,
        row: Some(row),
    };
    update_run(alloc, kept, seed, used, update)
}

/// A removal.
fn removing(alloc: Global, kept: KeptState, seed: &[u8; 32], doc: DocId) -> Result<Run, NoMemory>
    requires state { IsKeptState kept }
    requires left { kept.next_serial < 18446744073709551615 }
    requires doc { doc.0 < 2 ^ 32 }
    ensures value { IfOk result (λ run. run ≡ removing kept seed.now doc) }
    ensures range { IfOk result RunInRange }
{
    let counted = kept.used;
    let update = Pending {
        serial: kept.next_serial,
        doc,
        row: None,
    };
    update_run(alloc, kept, seed, counted, update)
}

/// The id of a member's update.
fn id_of(member: MemberId, update: &Pending) -> UpdateId
    ensures { (kept : KeptOf) → kept.member ≡ member → result ≡ id_of kept update.now }
{
    UpdateId {
        member,
        serial: update.serial,
    }
}

/// The state in which a post draws its serial: in a new epoch where the posts of this one are used up.
fn readied(mut state: KeptState) -> KeptState
    requires state { IsKeptState state }
    requires left { state.next_serial < 18446744073709551615 }
    requires epoch { (is_used_up state && is_last_epoch state) ≡ false }
    ensures value { result ≡ ready state }
    ensures kept { IsKeptState result }
    ensures left { result.next_serial < 18446744073709551615 }
    ensures few { result.used < 65536 }
{
    if is_used_up(&state) {
        turn(&mut state);
    }
    state
}

/// A number of four bytes.
fn doc(number: u32) -> DocId
    ensures same { result.0 ≡ number }
    ensures range { result.0 < 2 ^ 32 }
{
    DocId(number)
}

fn begin_post(
    alloc: Global,
    state: KeptState,
    seed: &[u8; 32],
    number: u32,
    row: Bits,
) -> Result<Run, Fault>
    requires state { IsKeptState state }
    requires row { length row ≡ 2 ^ state.shape.depth }
    ensures value { BeginsBy result (begun state seed.now (Post (record { 0 = number }) row)) }
    ensures range { IfOk result RunInRange }
{
    if let Some(update) = &state.pending {
        let id = id_of(state.member, update);
        return Err(Fault::Unfinished { id });
    }
    if is_last_serial(&state) {
        return Err(Fault::SerialEnd);
    }
    if is_spent(&state) {
        return Err(Fault::EpochEnd);
    }
    let state = readied(state);
    match posting(alloc, state, seed, doc(number), row) {
        Ok(run) => Ok(run),
        Err(NoMemory) => Err(Fault::NoMemory),
    }
}

fn begin_removal(
    alloc: Global,
    state: KeptState,
    seed: &[u8; 32],
    number: u32,
) -> Result<Run, Fault>
    requires { IsKeptState state }
    ensures value { BeginsBy result (begun state seed.now (Remove (record { 0 = number }))) }
    ensures range { IfOk result RunInRange }
{
    if let Some(update) = &state.pending {
        let id = id_of(state.member, update);
        return Err(Fault::Unfinished { id });
    }
    if is_last_serial(&state) {
        return Err(Fault::SerialEnd);
    }
    match removing(alloc, state, seed, doc(number)) {
        Ok(run) => Ok(run),
        Err(NoMemory) => Err(Fault::NoMemory),
    }
}

/// The two lengths are asked, for a word's search or for themselves.
fn begin_measuring(state: KeptState, seed: &[u8; 32], word: Option<Word>) -> Result<Run, Fault>
    requires { IsKeptState state }
    ensures value { result ≡ if_serial state (Ok (asking state seed.now state.used (Measuring word None))) }
    ensures range { IfOk result RunInRange }
{
    if is_last_serial(&state) {
        return Err(Fault::SerialEnd);
    }
    let phase = Phase::Measuring { word, lead: None };
    Ok(asking(state, seed, phase))
}

fn begin_resumption(alloc: Global, state: KeptState, seed: &[u8; 32]) -> Result<Run, Fault>
    requires { IsKeptState state }
    ensures value { BeginsBy result (begun state seed.now Resume) }
    ensures range { IfOk result RunInRange }
{
    let Some(update) = &state.pending else {
        return Ok(ended(state, seed, Outcome::NothingPending));
    };
    if is_last_serial(&state) {
        return Err(Fault::SerialEnd);
    }
    let Ok(entry) = entry_of(alloc, &state, update) else {
        return Err(Fault::NoMemory);
    };
    let at = UpdateStep::StageFollow;
    Ok(asking(state, seed, Phase::Updating { entry, at }))
}

fn begin_rotation(mut state: KeptState, seed: &[u8; 32]) -> Result<Run, Fault>
    requires { IsKeptState state }
    ensures value { result ≡ begun state seed.now Rotate }
    ensures range { IfOk result RunInRange }
{
    if is_last_epoch(&state) {
        return Err(Fault::EpochEnd);
    }
    turn(&mut state);
    let epoch = epoch_in(state.next_serial);
    Ok(ended(state, seed, Outcome::Rotated { epoch }))
}

/// How a command begins, or why it is refused.
pub fn begun(
    alloc: Global,
    state: KeptState,
    seed: &[u8; 32],
    command: Command,
) -> Result<Run, Fault>
    requires state { IsKeptState state }
    requires row { FitsCommand state.shape command }
    ensures value { BeginsBy result (begun state seed.now command) }
    ensures range { IfOk result RunInRange }
{
    match command {
        Command::Post { doc, row } => begin_post(alloc, state, seed, doc.0, row),
        Command::Remove { doc } => begin_removal(alloc, state, seed, doc.0),
        Command::Search { word } => begin_measuring(state, seed, Some(word)),
        Command::Resume => begin_resumption(alloc, state, seed),
        Command::Latest => begin_measuring(state, seed, None),
        Command::Rotate => begin_rotation(state, seed),
    }
}

/// Why a post is refused in this state, whatever its row is.
pub fn post_fault(state: &KeptState) -> Option<Fault>
    requires { IsKeptState state.now }
    ensures { (seed : List ℕ) (doc : DocOf) (row : List Bool) → begun state.now seed (Post doc row) ≡ or_fault result (posting (ready state.now) seed doc row) }
{
    if let Some(update) = &state.pending {
        return Some(Fault::Unfinished {
            id: UpdateId {
                member: state.member,
                serial: update.serial,
            },
        });
    }
    if is_last_serial(state) {
        return Some(Fault::SerialEnd);
    }
    if is_spent(state) {
        return Some(Fault::EpochEnd);
    }
    None
}
