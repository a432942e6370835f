//! A search end to end: the keys, two domains behind links in memory, and the checks.
ghost use Rattle.std.specs.Prelude.{◌≡◌, ◌≤◌, ◌^◌, length, IfOk};
ghost use Rattle.std.specs.List.{AllByRecursion};
ghost use Rattle.dory_dpf.specs.PointKey.{IsKeyOf};
ghost use Rattle.dory_wire.specs.Spelling.{IsRequest, IsWant};

use crate::checking::cell;
use crate::coding::request_in;
use crate::fault::Fault;
use crate::frames::Frame;
use crate::names::{FOLDER, ask, folder_keys, update};
use crate::run::Run;
use crate::stepping::{answer, empty};
use dory_base::{AskId, FolderId, Shape, Side, Tag, Word};
use dory_bloom::positions;
use dory_domain::DomainCore;
use dory_dpf::Keys;
use dory_hmac::FolderKeys;
use dory_link::{DomainLink, Link, LinkError};
use dory_query::Query;
use dory_seal::EpochKeys;
use dory_verify::{Answer, VerifyError, check_latest, verify};
use dory_wire::{Request, Want, encode_request};
use std::alloc::Global;
use std::rt::Clock;

/// The Stage of a document whose cells are sealed at the columns of a word. The others are zero, and so are their tags,
/// which go out of the sums of two domains.
fn stage(
    alloc: Global,
    keys: &EpochKeys,
    shape: Shape,
    columns: &[u16; 8],
    line: u16,
) -> Result<Vec<u8>, Fault> {
    let mut row = vec![in alloc; 0u8; shape.columns() / 8]?;
    let mut tags = vec![in alloc; [0u8; 16]; shape.columns()]?;
    for probe in 0..8u16 {
        let column = columns[probe as usize];
        let mut tag = Tag::zero();
        let set = cell(keys, line, probe, column, &mut tag)?;
        if let Some(byte) = row.get_mut(column as usize / 8) {
            *byte |= u8::from(set) << (column % 8);
        }
        if let Some(place) = tags.get_mut(column as usize) {
            *place = tag.bytes();
        }
    }
    let mut frame = Frame::begin(alloc, 4, 0)?;
    frame.four(FOLDER)?;
    frame.update(u64::from(line) + 1)?;
    frame.four(u32::from(line) + 1)?;
    frame.some(&[1, shape.depth(), shape.probes()])?;
    frame.some(&row)?;
    for tag in &tags {
        frame.some(tag)?;
    }
    Ok(frame.end())
}

/// Two domains.
#[derive(Drop)]
struct Domains {
    lead: DomainCore,
    follow: DomainCore,
}

/// Stages an update at both domains, orders it at the lead and follows it at the other.
fn commit(alloc: Global, domains: &mut Domains, request: &Request, line: u16)
    requires { IsRequest request.now }
{
    let id = update(3, u64::from(line) + 1);
    let number = u32::from(line) + 1;
    domains.lead.step(alloc, request);
    domains.follow.step(alloc, request);
    answer(alloc, &mut domains.lead, Want::Order { id });
    answer(alloc, &mut domains.follow, Want::Follow { number, id });
}

/// Two domains that have as many documents.
fn filled<R: Clock>(run: &Run<R>, shape: Shape, word: &Word, lines: u16) -> Result<Domains, Fault>
    requires { lines ≤ 4096 }
{
    let keys = folder_keys();
    let mut columns = [0; 8];
    positions(&keys, shape, word, &mut columns);
    let keys = EpochKeys::new(&keys, 0);
    let mut domains = Domains {
        lead: empty(run, Side::Lead, 64)?,
        follow: empty(run, Side::Follow, 64)?,
    };
    for line in 0..lines {
        let frame = stage(run.alloc, &keys, shape, &columns, line)?;
        let request = request_in(run.alloc, &frame)?;
        commit(run.alloc, &mut domains, &request, line);
    }
    Ok(domains)
}

/// What comes over a link to a request.
fn asked<L: Link>(alloc: Global, link: &mut L, ask: AskId, want: Want) -> Result<Vec<u8>, Fault>
    requires { IsWant want }
{
    let request = Request {
        ask,
        folder: FolderId(FOLDER),
        want,
    };
    let frame = encode_request(alloc, &request)?;
    match link.ask(alloc, &frame) {
        Ok(reply) => Ok(reply),
        Err(LinkError::NoMemory) => Err(Fault::NoMemory),
        Err(LinkError::Failed) => Err(Fault::Unexpected),
    }
}

/// The search at a version by one domain's keys.
pub fn wanted(alloc: Global, version: u32, shape: Shape, keys: &Keys) -> Result<Want, Fault>
    requires version { version ≤ 1048576 }
    requires many { length keys.now ≡ shape.probes }
    requires keys { AllByRecursion (IsKeyOf 2 shape.depth) keys.now }
    ensures { IfOk result IsWant }
{
    let _columns = shape.columns();
    match keys.copy(alloc) {
        Ok(keys) => Ok(Want::Search {
            version,
            shape,
            keys,
        }),
        Err(_) => Err(Fault::NoMemory),
    }
}

/// The fault of a check that fails.
fn refused(error: VerifyError) -> Fault {
    match error {
        VerifyError::NoMemory => Fault::NoMemory,
        VerifyError::Check(_) => Fault::Unexpected,
    }
}

/// One search of a word over two links, as a member makes it.
fn search<L0: Link, L1: Link>(
    alloc: Global,
    shape: Shape,
    word: &Word,
    lead: &mut L0,
    follow: &mut L1,
) -> Result<Answer, Fault> {
    let keys = folder_keys();
    let asks = [ask(0), ask(1)];
    let first = asked(alloc, lead, asks[0], Want::Latest)?;
    let second = asked(alloc, follow, asks[1], Want::Latest)?;
    match check_latest(alloc, 0, asks, &first, &second) {
        Ok((version, _)) => found(alloc, &keys, shape, word, version, lead, follow),
        Err(error) => Err(refused(error)),
    }
}

/// What both find at a version.
fn found<L0: Link, L1: Link>(
    alloc: Global,
    keys: &FolderKeys,
    shape: Shape,
    word: &Word,
    version: u32,
    lead: &mut L0,
    follow: &mut L1,
) -> Result<Answer, Fault>
    requires { version ≤ 1048576 }
{
    let asks = [ask(2), ask(3)];
    let query = Query::make(alloc, keys, shape, word, version, asks, &[5; 32])?;
    let want = wanted(alloc, version, shape, &query.lead_keys)?;
    let first = asked(alloc, lead, asks[0], want)?;
    let want = wanted(alloc, version, shape, &query.follow_keys)?;
    let second = asked(alloc, follow, asks[1], want)?;
    match verify(alloc, keys, &query, 0, &first, &second) {
        Ok(answer) => Ok(answer),
        Err(error) => Err(refused(error)),
    }
}

/// One search of so many documents at a time.
pub fn searches<R: Clock>(run: &mut Run<R>, lines: u16) -> Result<(), Fault>
    requires { lines ≤ 4096 }
{
    let Ok(word) = Word::read(b"alpha") else {
        return Err(Fault::Unexpected);
    };
    let shape = run.shape();
    let Domains { lead, follow } = filled(run, shape, &word, lines)?;
    let mut lead = DomainLink::new(run.alloc, lead, &[])?;
    let mut follow = DomainLink::new(run.alloc, follow, &[])?;
    let start = run.start()?;
    for _ in 0..run.turns {
        let answer = search(run.alloc, shape, &word, &mut lead, &mut follow)?;
        run.sum.answer(&answer);
    }
    run.stop(start)
}
