//! The checks of a pair of replies over sealed rows.
ghost use Rattle.std.specs.Prelude.{◌≡◌};

use crate::fault::Fault;
use crate::frames::Frame;
use crate::names::{ask, folder_keys, shape, update};
use crate::run::Run;
use crate::work::Depth;
use dory_base::{DocId, Tag, Word, xor};
use dory_hmac::FolderKeys;
use dory_query::Query;
use dory_seal::{EpochKeys, epoch_of};
use dory_verify::{VerifyError, verify};
use std::alloc::Global;
use std::rt::Clock;

/// A share of a tag.
const SHARE: [u8; 16] = [9; 16];

/// The frames of two domains.
#[derive(Drop)]
struct Replies {
    lead: Vec<u8>,
    follow: Vec<u8>,
}

/// The plain cell of a line at a probe: each 64th line has the word, and others have some of its positions.
fn plain(line: u16, probe: u16) -> bool {
    line % 64 == 0 || line % 3 == probe % 3
}

/// The sealed cell of a line at a probe, whose tag is added to the sum.
pub fn cell(
    keys: &EpochKeys,
    line: u16,
    probe: u16,
    column: u16,
    sum: &mut Tag,
) -> Result<bool, Fault> {
    let id = update(3, u64::from(line) + 1);
    let doc = DocId(u32::from(line) + 1);
    if epoch_of(id) != keys.epoch() {
        return Err(Fault::Unexpected);
    }
    let mask = keys
        .mask_block(doc, id, u32::from(column / 256))
        .bit(column);
    let cell = xor(plain(line, probe), mask);
    *sum = sum.xor(&keys.cell_tag(doc, id, column, cell));
    Ok(cell)
}

/// A Found of as many lines, before its eight sums.
fn begun(alloc: Global, step: u32, lines: u16) -> Result<Frame, Fault> {
    let mut frame = Frame::begin(alloc, 0x82, step)?;
    frame.lines(lines)?;
    frame.byte(8)?;
    Ok(frame)
}

/// The replies of two domains over as many lines, a multiple of eight.
fn honest_pair(
    alloc: Global,
    keys: &FolderKeys,
    columns: &[u16; 8],
    lines: u16,
) -> Result<Replies, Fault> {
    let keys = EpochKeys::new(keys, 0);
    let mut lead = begun(alloc, 0, lines)?;
    let mut follow = begun(alloc, 1, lines)?;
    for probe in 0..8u16 {
        put_sums(
            &keys,
            &mut lead,
            &mut follow,
            probe,
            columns[probe as usize],
            lines,
        )?;
    }
    Ok(Replies {
        lead: lead.end(),
        follow: follow.end(),
    })
}

/// Writes the two domains' sums for one probe.
fn put_sums(
    keys: &EpochKeys,
    lead: &mut Frame,
    follow: &mut Frame,
    probe: u16,
    column: u16,
    lines: u16,
) -> Result<(), Fault> {
    let mut sum = Tag::zero();
    for group in 0..lines / 8 {
        let mut cells = 0;
        for place in 0..8u16 {
            if cell(keys, 8 * group + place, probe, column, &mut sum)? {
                cells |= 1u8 << place;
            }
        }
        let share = (group % 251) as u8;
        lead.byte(share)?;
        follow.byte(share ^ cells)?;
    }
    lead.some(&SHARE)?;
    follow.some(&Tag::of(SHARE).xor(&sum).bytes())
}

/// The checks of one pair of replies at a time, and the documents that they list.
pub fn verified<R: Clock>(run: &mut Run<R>) -> Result<(), Fault> {
    let lines = if run.is_full() { 4096 } else { 96 };
    let keys = folder_keys();
    let Ok(word) = Word::read(b"alpha") else {
        return Err(Fault::Unexpected);
    };
    let shape = shape(Depth::Eleven);
    let asks = [ask(0), ask(1)];
    let version = u32::from(lines);
    let query = Query::make(run.alloc, &keys, shape, &word, version, asks, &[5; 32])?;
    let both = honest_pair(run.alloc, &keys, &query.word_columns, lines)?;
    let start = run.start()?;
    for _ in 0..run.turns {
        match verify(run.alloc, &keys, &query, 0, &both.lead, &both.follow) {
            Ok(answer) => run.sum.answer(&answer),
            Err(VerifyError::NoMemory) => return Err(Fault::NoMemory),
            Err(VerifyError::Check(_)) => return Err(Fault::Unexpected),
        }
    }
    run.stop(start)
}
