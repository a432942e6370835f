//! The world of the tests, its events, and how what is told of a run is compared.
ghost use Rattle.std.specs.Prelude.{◌≤◌};
ghost use Rattle.dory_run.specs.Start.{IsSetup};

use crate::{Bytes, Event, Honest, Played, Setup, WorldLine, play};
use dory_base::{Bits, DocId, FolderId, MemberId, Shape, Side, Word};
use dory_bloom::plain_row;
use dory_hmac::FolderKeys;
use dory_kernel::RowKernel;
use dory_member::{Command, outcome_text};
use std::alloc::Global;

/// Folder 1 with 256 columns and two positions for a word, 64 versions, and seed 5.
pub fn setup(members: u32) -> Setup
    requires some { 1 ≤ members }
    requires few { members ≤ 64 }
    ensures { IsSetup result }
{
    Setup {
        folder: FolderId(1),
        shape: Shape::of(8, 2),
        retained: 64,
        members,
        seed: 5,
    }
}

/// The plain row of these words, by the world's keys.
fn row_of(alloc: Global, words: &[Word]) -> Option<Bits> {
    let mut master = [0; 32];
    master[31] = 5;
    let keys = FolderKeys::derive(&master, 1);
    plain_row(alloc, &keys, Shape::of(8, 2), words).ok()
}

/// A member begins a command.
pub fn begin(events: &mut Vec<Event>, member: u32, command: Command) -> Option<()> {
    let member = MemberId(member);
    events.push(Event::Begin { member, command }).ok()
}

/// A member begins a post of a document with one word.
pub fn post(
    alloc: Global,
    events: &mut Vec<Event>,
    member: u32,
    doc: u32,
    word: &[u8],
) -> Option<()> {
    let row = row_of(alloc, &[Word::read(word).ok()?])?;
    let doc = DocId(doc);
    begin(events, member, Command::Post { doc, row })
}

/// A member begins the removal of a document.
pub fn remove(events: &mut Vec<Event>, member: u32, doc: u32) -> Option<()> {
    let doc = DocId(doc);
    begin(events, member, Command::Remove { doc })
}

/// A member begins a search.
pub fn search(events: &mut Vec<Event>, member: u32, word: &[u8]) -> Option<()> {
    let word = Word::read(word).ok()?;
    begin(events, member, Command::Search { word })
}

pub fn carry(events: &mut Vec<Event>, message: u32) -> Option<()> {
    events.push(Event::Carry { message }).ok()
}

pub fn give_back(events: &mut Vec<Event>, message: u32) -> Option<()> {
    events.push(Event::Return { message }).ok()
}

pub fn quit(events: &mut Vec<Event>, member: u32) -> Option<()> {
    let member = MemberId(member);
    events.push(Event::Quit { member }).ok()
}

/// A lie of these bytes.
pub fn lie(
    alloc: Global,
    events: &mut Vec<Event>,
    side: Side,
    member: u32,
    bytes: &[u8],
) -> Option<()> {
    let bytes = Bytes::of(bytes.to_vec(alloc).ok()?);
    let member = MemberId(member);
    let lie = Event::Lie {
        side,
        member,
        bytes,
    };
    events.push(lie).ok()
}

/// A reply bent from a place on.
pub fn bend(
    alloc: Global,
    events: &mut Vec<Event>,
    message: u32,
    at: u32,
    mask: &[u8],
) -> Option<()> {
    let mask = Bytes::of(mask.to_vec(alloc).ok()?);
    events.push(Event::Bend { message, at, mask }).ok()
}

/// The message of this number is carried, and the next one returned.
pub fn turn(events: &mut Vec<Event>, message: u32) -> Option<()> {
    carry(events, message)?;
    give_back(events, message.checked_add(1)?)
}

/// Four turns from this message on.
pub fn turns(events: &mut Vec<Event>, first: u32) -> Option<()> {
    turn(events, first)?;
    turn(events, first.checked_add(2)?)?;
    turn(events, first.checked_add(4)?)?;
    turn(events, first.checked_add(6)?)
}

/// The first post of these worlds: member 0 posts document 7, with messages 0 to 7.
pub fn first_post(alloc: Global, word: &[u8]) -> Option<Vec<Event>> {
    let mut events = Vec::new(alloc);
    post(alloc, &mut events, 0, 7, word)?;
    turns(&mut events, 0)?;
    Some(events)
}

/// A run of these events by two members.
pub fn played(
    alloc: Global,
    honest: Honest,
    events: &[Event],
    kernel: &RowKernel,
) -> Option<Played> {
    if events.len() > 1000 {
        return None;
    }
    play(alloc, honest, &setup(2), events, kernel).ok()
}

/// A line in short: what it is, the message or the member, the kind, and whether it is of the lead.
pub fn short(line: &WorldLine) -> (char, u32, u8, bool) {
    match line {
        WorldLine::Ask {
            message,
            side,
            kind,
        } => ('a', *message, *kind, *side == Side::Lead),
        WorldLine::Reply {
            message,
            side,
            kind,
            ..
        } => ('r', *message, *kind, *side == Side::Lead),
        WorldLine::Lied { message, side } => ('l', *message, 0, *side == Side::Lead),
        WorldLine::Ended { member, .. } => ('e', member.0, 0, false),
        WorldLine::Quit { member } => ('q', member.0, 0, false),
    }
}

/// Whether the run is told by these lines in short.
pub fn tells(played: &Played, want: &[(char, u32, u8, bool)]) -> bool {
    let lines = played.lines.items();
    if lines.len() != want.len() {
        return false;
    }
    for i in 0..lines.len() {
        if short(&lines[i]) != want[i] {
            return false;
        }
    }
    true
}

/// Whether the line of this place ends a command with this text.
pub fn ends_at(alloc: Global, played: &Played, place: usize, text: &str) -> bool {
    match played.lines.items().get(place) {
        Some(WorldLine::Ended { outcome, .. }) => match outcome_text(alloc, outcome) {
            Ok(line) => line.as_str() == text,
            Err(_) => false,
        },
        _ => false,
    }
}

/// Whether all events were allowed, the last one ends a command with this text, and the domains have so many updates.
pub fn ends(alloc: Global, played: &Played, text: &str, lead: u32, follow: u32) -> bool {
    let lines = played.lines.items();
    played.bad.is_none()
        && played.lead == lead
        && played.follow == follow
        && lines.len() > 0
        && ends_at(alloc, played, lines.len() - 1, text)
}
