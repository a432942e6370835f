//! Members of one folder, and how a test takes them on.
ghost use Rattle.std.specs.Prelude.{◌≡◌, ◌≤◌};
ghost use Rattle.dory_state.specs.Spelling.{IsKeptState};
ghost use Rattle.dory_member.specs.Within.{FitsCommand};

use super::{MASTER, shape};
use dory_base::{Bits, DocId, Word};
use dory_bloom::plain_row;
use dory_hmac::FolderKeys;
use dory_member::{Command, Member, Next, outcome_text};
use dory_state::KeptState;
use std::alloc::Global;

/// A member at a command, with a seed of zeros.
pub fn begun(alloc: Global, state: KeptState, command: Command) -> Option<Member>
    requires state { IsKeptState state }
    requires row { FitsCommand state.shape command }
{
    Member::begin(alloc, state, [0; 32], command).ok()
}

/// The plain row of one word.
fn row_of(alloc: Global, word: &[u8]) -> Option<Bits> {
    let keys = FolderKeys::derive(&MASTER, 1);
    let words = [Word::read(word).ok()?];
    plain_row(alloc, &keys, shape(), &words).ok()
}

/// A member that posts a document with one word.
pub fn posting(alloc: Global, state: KeptState, doc: u32, word: &[u8]) -> Option<Member>
    requires state { IsKeptState state }
    requires shape { state.shape ≡ record { depth = 8; probes = 2 } }
{
    let row = row_of(alloc, word)?;
    if row.len() != 256 {
        return None;
    }
    let doc = DocId(doc);
    begun(alloc, state, Command::Post { doc, row })
}

/// A member that removes a document.
pub fn removing(alloc: Global, state: KeptState, doc: u32) -> Option<Member>
    requires { IsKeptState state }
{
    let doc = DocId(doc);
    begun(alloc, state, Command::Remove { doc })
}

/// A member that searches a word.
pub fn searching(alloc: Global, state: KeptState, word: &[u8]) -> Option<Member>
    requires { IsKeptState state }
{
    let word = Word::read(word).ok()?;
    begun(alloc, state, Command::Search { word })
}

/// Saves, where that is due.
pub fn save(member: &mut Member) {
    match member.next() {
        Next::Save => member.saved(),
        _ => {}
    }
}

/// Hands over a reply, where one is awaited.
pub fn hand_over(alloc: Global, member: &mut Member, reply: &[u8]) {
    match member.next() {
        Next::Ask { .. } => member.take_reply(alloc, reply),
        _ => {}
    }
}

/// Whether a member has ended with this text.
pub fn ends(alloc: Global, member: &Member, text: &str) -> bool {
    match member.outcome() {
        Some(outcome) => match outcome_text(alloc, outcome) {
            Ok(line) => line.as_str() == text,
            Err(_) => false,
        },
        None => false,
    }
}
