//! Steps of a domain whose folder has 64 documents, or is full.
ghost use Rattle.std.specs.Prelude.{◌≡◌, ◌≤◌, IfOk};
ghost use Rattle.dory_wire.specs.Spelling.{IsRequest, IsWant};

use crate::checksum::Checksum;
use crate::coding::staging;
use crate::fault::Fault;
use crate::names::{FOLDER, ask, folder_keys, update};
use crate::run::Run;
use crate::searching::wanted;
use crate::work::Filling;
use dory_base::{DocId, Entry, FolderId, Side, UpdateId, Word};
use dory_domain::{DomainCore, FolderConfig, OpenFault};
use dory_query::Query;
use dory_wire::{Request, Want, What};
use std::alloc::Global;
use std::rt::Clock;

/// The members who stage at once, each a document of its own.
const MANY: u32 = 64;

/// How often each member has posted.
pub fn rounds<R: Clock>(run: &Run<R>, filling: Filling) -> u32
    ensures { result ≤ 64 }
{
    match filling {
        Filling::Part => 1,
        Filling::Whole => { if run.is_full() { 64 } else { 3 } }
    }
}

/// A domain whose one folder has no update, rows as wide as those staged at this scale, and so many versions retained.
pub fn empty<R: Clock>(run: &Run<R>, role: Side, retained: u32) -> Result<DomainCore, Fault>
    requires some { 1 ≤ retained }
    requires few { retained ≤ 256 }
{
    let configs = [FolderConfig {
        folder: FolderId(FOLDER),
        shape: run.shape(),
        retained,
    }];
    match DomainCore::new(run.alloc, role, &configs, run.kernel.again()) {
        Ok(core) => Ok(core),
        Err(OpenFault::BadConfig(_)) => unreachable!(),
        Err(OpenFault::NoMemory) => Err(Fault::NoMemory),
    }
}

/// What a domain answers to a request.
pub fn answer(alloc: Global, core: &mut DomainCore, want: Want) -> What
    requires { IsWant want }
{
    let request = Request {
        ask: ask(0),
        folder: FolderId(FOLDER),
        want,
    };
    core.step(alloc, &request).what
}

/// A request to stage an entry, with another id and another document in it.
fn renamed(request: Request, id: UpdateId, doc: DocId) -> Result<Request, Fault>
    requires request { IsRequest request }
    requires some { 1 ≤ id.serial }
    ensures { IfOk result IsRequest }
{
    let Request { ask, folder, want } = request;
    match want {
        Want::Stage { entry } => {
            let Entry { change, .. } = entry;
            let entry = Entry { id, doc, change };
            let want = Want::Stage { entry };
            Ok(Request { ask, folder, want })
        }
        _ => Err(Fault::Unexpected),
    }
}

/// Each member stages a post of a document of its own, and of another one in each of so many rounds, after which they come
/// again. The request is given back.
fn stage_all(
    alloc: Global,
    core: &mut DomainCore,
    request: Request,
    round: u32,
    rounds: u32,
    sum: &mut Checksum,
) -> Result<Request, Fault>
    requires { IsRequest request }
    ensures { IfOk result IsRequest }
{
    let mut request = request;
    let first = round.checked_rem(rounds).unwrap_or(0).saturating_mul(MANY);
    for member in 0..MANY {
        let id = update(member, u64::from(round) + 1);
        request = renamed(request, id, DocId(first.saturating_add(member)))?;
        sum.answered(&core.step(alloc, &request).what);
    }
    Ok(request)
}

/// Each member's update is ordered.
fn order_all(alloc: Global, core: &mut DomainCore, round: u32, sum: &mut Checksum) {
    for member in 0..MANY {
        let id = update(member, u64::from(round) + 1);
        sum.answered(&answer(alloc, core, Want::Order { id }));
    }
}

/// Each member's update is followed.
fn follow_all(
    alloc: Global,
    core: &mut DomainCore,
    round: u32,
    sum: &mut Checksum,
) -> Result<(), Fault> {
    for member in 0..MANY {
        let number = round.saturating_mul(MANY).saturating_add(member + 1);
        if number > 1_048_576 {
            return Err(Fault::Unexpected);
        }
        let id = update(member, u64::from(round) + 1);
        sum.answered(&answer(alloc, core, Want::Follow { number, id }));
    }
    Ok(())
}

/// Each member's update is ordered at a lead, or followed at a follower.
fn commit_all(
    alloc: Global,
    core: &mut DomainCore,
    role: Side,
    round: u32,
    sum: &mut Checksum,
) -> Result<(), Fault> {
    match role {
        Side::Lead => {
            order_all(alloc, core, round, sum);
            Ok(())
        }
        Side::Follow => follow_all(alloc, core, round, sum),
    }
}

/// A domain to whose folder each member has posted so often, each time another document.
fn filled<R: Clock>(run: &mut Run<R>, role: Side, rounds: u32) -> Result<DomainCore, Fault>
    requires { rounds ≤ 64 }
{
    let mut core = empty(run, role, 64)?;
    for round in 0..rounds {
        let request = staging(run)?;
        stage_all(run.alloc, &mut core, request, round, rounds, &mut run.sum)?;
        commit_all(run.alloc, &mut core, role, round, &mut run.sum)?;
    }
    Ok(core)
}

/// One request for the length at a time.
pub fn latest<R: Clock>(run: &mut Run<R>, rounds: u32) -> Result<(), Fault>
    requires { rounds ≤ 64 }
{
    let mut core = filled(run, Side::Lead, rounds)?;
    let start = run.start()?;
    for _ in 0..run.turns {
        run.sum
            .answered(&answer(run.alloc, &mut core, Want::Latest));
    }
    run.stop(start)
}

/// One request for the id of an update at a time.
pub fn which<R: Clock>(run: &mut Run<R>, rounds: u32) -> Result<(), Fault>
    requires { rounds ≤ 64 }
{
    let mut core = filled(run, Side::Lead, rounds)?;
    let many = (rounds * MANY).max(1);
    let start = run.start()?;
    for turn in 0..run.turns {
        let number = turn % many + 1;
        run.sum
            .answered(&answer(run.alloc, &mut core, Want::Which { number }));
    }
    run.stop(start)
}

/// One search of all documents at a time, by the lead's keys.
pub fn search<R: Clock>(run: &mut Run<R>, rounds: u32) -> Result<(), Fault>
    requires { rounds ≤ 64 }
{
    let mut core = filled(run, Side::Lead, rounds)?;
    let Ok(word) = Word::read(b"alpha") else {
        return Err(Fault::Unexpected);
    };
    let version = rounds * MANY;
    let (keys, shape) = (folder_keys(), run.shape());
    let query = Query::make(
        run.alloc,
        &keys,
        shape,
        &word,
        version,
        [ask(0); 2],
        &[5; 32],
    )?;
    let start = run.start()?;
    for _ in 0..run.turns {
        let want = wanted(run.alloc, version, shape, &query.lead_keys)?;
        run.sum.answered(&answer(run.alloc, &mut core, want));
    }
    run.stop(start)
}

/// One staging by each member at a time. The orders between them aren't timed.
pub fn stages<R: Clock>(run: &mut Run<R>, rounds: u32) -> Result<(), Fault>
    requires { rounds ≤ 64 }
{
    let mut core = filled(run, Side::Lead, rounds)?;
    for turn in 0..run.turns {
        let request = staging(run)?;
        let round = turn.saturating_add(rounds);
        let start = run.start()?;
        stage_all(run.alloc, &mut core, request, round, rounds, &mut run.sum)?;
        run.stop(start)?;
        order_all(run.alloc, &mut core, round, &mut run.sum);
    }
    Ok(())
}

/// One order for each member at a time. The stagings between them aren't timed.
pub fn orders<R: Clock>(run: &mut Run<R>, rounds: u32) -> Result<(), Fault>
    requires { rounds ≤ 64 }
{
    commits(run, Side::Lead, rounds)
}

/// One follow for each member at a time. The stagings between them aren't timed.
pub fn follows<R: Clock>(run: &mut Run<R>, rounds: u32) -> Result<(), Fault>
    requires { rounds ≤ 64 }
{
    commits(run, Side::Follow, rounds)
}

/// One order or follow for each member at a time.
fn commits<R: Clock>(run: &mut Run<R>, role: Side, rounds: u32) -> Result<(), Fault>
    requires { rounds ≤ 64 }
{
    let mut core = filled(run, role, rounds)?;
    for turn in 0..run.turns {
        let request = staging(run)?;
        let round = turn.saturating_add(rounds);
        stage_all(run.alloc, &mut core, request, round, rounds, &mut run.sum)?;
        let start = run.start()?;
        commit_all(run.alloc, &mut core, role, round, &mut run.sum)?;
        run.stop(start)?;
    }
    Ok(())
}
