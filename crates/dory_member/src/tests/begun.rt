//! How a command begins, and why it is refused.
ghost use Rattle.std.specs.Prelude.{◌≡◌, ◌^◌, length, IfSome};
ghost use Rattle.dory_state.specs.Spelling.{IsKeptState};

use super::members::{begun, ends, kept, posting, removing};
use crate::{Command, Fault, Member, Next};
use dory_base::{Bits, DocId, MemberId, Shape, UpdateId, Word};
use dory_state::{KeptState, read_state};
use std::alloc::Global;
use std::test::*;

/// The plain row of no words.
fn no_words(alloc: Global, shape: Shape) -> Option<Bits>
    ensures { IfSome result (λ row. length row ≡ 2 ^ shape.depth) }
{
    let columns = shape.columns();
    if columns > 4096 {
        return None;
    }
    Bits::zero(alloc, columns).ok()
}

/// Why a post of document 7 is refused, if it is.
fn post_fault(alloc: Global, state: KeptState) -> Option<Fault>
    requires { IsKeptState state }
{
    let row = no_words(alloc, state.shape)?;
    let doc = DocId(7);
    Member::begin(alloc, state, [0; 32], Command::Post { doc, row }).err()
}

/// Why a removal of document 7 is refused, if it is.
fn removal_fault(alloc: Global, state: KeptState) -> Option<Fault>
    requires { IsKeptState state }
{
    let doc = DocId(7);
    Member::begin(alloc, state, [0; 32], Command::Remove { doc }).err()
}

/// Why a search is refused, if it is.
fn search_fault(alloc: Global, state: KeptState) -> Option<Fault>
    requires { IsKeptState state }
{
    let word = Word::read(b"alpha").ok()?;
    Member::begin(alloc, state, [0; 32], Command::Search { word }).err()
}

/// Why a rotation is refused, if it is.
fn rotation_fault(alloc: Global, state: KeptState) -> Option<Fault>
    requires { IsKeptState state }
{
    Member::begin(alloc, state, [0; 32], Command::Rotate).err()
}

const LAST: u64 = u64::MAX;

// The last epoch but for its last serial.
const LATE: u64 = u64::MAX - 1;

#[test]
fn a_post_is_refused_without_serials_and_then_without_epochs(rt: HostRuntime) {
    let alloc = rt.alloc();
    for (serial, used, fault) in [
        (LAST, 65_536, Some(Fault::SerialEnd)),
        (LATE, 65_536, Some(Fault::EpochEnd)),
        (LATE, 65_535, None),
    ] {
        assert_eq!(rt; post_fault(alloc, kept(0, serial, used)), fault);
    }
}

#[test]
fn other_commands_count_no_posts(rt: HostRuntime) {
    let alloc = rt.alloc();
    assert_eq!(rt; removal_fault(alloc, kept(0, LATE, 65_536)), None);
    assert_eq!(rt; search_fault(alloc, kept(0, LATE, 65_536)), None);
    let ended = Some(Fault::SerialEnd);
    assert_eq!(rt; removal_fault(alloc, kept(0, LAST, 0)), ended);
    assert_eq!(rt; search_fault(alloc, kept(0, LAST, 0)), ended);
}

#[test]
fn a_rotation_is_refused_in_the_last_epoch(rt: HostRuntime) {
    let alloc = rt.alloc();
    for (serial, fault) in [
        (LAST, Some(Fault::EpochEnd)),
        (LATE, Some(Fault::EpochEnd)),
        (255 << 56, Some(Fault::EpochEnd)),
        ((255 << 56) - 1, None),
    ] {
        assert_eq!(rt; rotation_fault(alloc, kept(0, serial, 0)), fault);
    }
}

/// The state of a member whose post 0.1 is pending.
fn pending(alloc: Global) -> Option<KeptState>
    ensures { IfSome result IsKeptState }
{
    let member = posting(alloc, kept(0, 1, 0), 7, b"alpha")?;
    member.state().copy(alloc).ok()
}

/// Why a post is refused while one is pending.
fn second_post_fault(alloc: Global) -> Option<Fault> {
    let state = pending(alloc)?;
    post_fault(alloc, state)
}

/// Why a removal is refused while a post is pending.
fn early_removal_fault(alloc: Global) -> Option<Fault> {
    let state = pending(alloc)?;
    removal_fault(alloc, state)
}

#[test]
fn an_update_is_refused_while_one_is_pending(rt: HostRuntime) {
    let alloc = rt.alloc();
    let member = MemberId(0);
    let id = UpdateId { member, serial: 1 };
    let unfinished = Some(Fault::Unfinished { id });
    assert_eq!(rt; second_post_fault(alloc), unfinished);
    assert_eq!(rt; early_removal_fault(alloc), unfinished);
}

// The second form of a state with the last serial as its next one.
const AT_THE_END: [u8; 67] = [
    0x64, 0x6f, 0x72, 0x79, 0x73, 0x74, 0x74, 0x32, 0, 0, 0, 1, 0, 0, 0, 0, 8, 2, // to the probes
    0, 0, 0, 0, 0, 0, 0, 0, 0, 0, 0, 0, 0, 0, 0, 0, 0, 0, 0, 0, 0, 0, 0, 0, 0, 0, 0, 0, 0, 0, 0, 0, // the master key
    255, 255, 255, 255, 255, 255, 255, 255, 0, 0, 0, 0, 0, 0, 0, 0, 0,
];

/// The state that these bytes are.
fn at_the_end(alloc: Global) -> Option<KeptState>
    ensures { IfSome result IsKeptState }
{
    read_state(alloc, &AT_THE_END).ok()
}

/// Why a search is refused where no serial is left.
fn late_search_fault(alloc: Global) -> Option<Fault> {
    let state = at_the_end(alloc)?;
    search_fault(alloc, state)
}

/// Whether there is nothing to resume where no serial is left.
fn late_resume_is_idle(alloc: Global) -> Option<bool> {
    let state = at_the_end(alloc)?;
    let member = begun(alloc, state, Command::Resume)?;
    let ended = member.next() == Next::End;
    Some(ended && ends(alloc, &member, "nothing pending"))
}

#[test]
fn at_the_last_serial_nothing_is_asked(rt: HostRuntime) {
    let alloc = rt.alloc();
    assert_eq!(rt; late_search_fault(alloc), Some(Fault::SerialEnd));
    assert_eq!(rt; late_resume_is_idle(alloc), Some(true));
}
