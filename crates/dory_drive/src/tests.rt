//! A member's commands over two links, a keeper and a sink in memory.
ghost use Rattle.dory_state.specs.Spelling.{IsKeptState};

use crate::{Borrowed, Broken, drive};
use dory_base::{FolderId, MemberId, Shape, Side};
use dory_io::{Keeper, MemKeeper, VecSink};
use dory_link::ScriptLink;
use dory_member::{Command, Member, Outcome};
use dory_state::{KeptState, read_state};
use std::alloc::Global;
use std::test::Fail;

/// A state of member 0 with nothing seen and nothing pending.
fn kept() -> KeptState
    ensures { IsKeptState result }
{
    KeptState {
        folder: FolderId(1),
        member: MemberId(0),
        shape: match Shape::new(8, 2) {
            Some(shape) => shape,
            None => unreachable!(),
        },
        master: [0; 32],
        next_serial: 2,
        seen: 0,
        used: 0,
        pending: None,
    }
}

/// The next serial of the state that a keeper has.
fn next_serial(alloc: Global, keeper: &mut MemKeeper) -> Option<u64> {
    let bytes = keeper.load(alloc).ok()??;
    Some(read_state(alloc, &bytes).ok()?.next_serial)
}

#[test]
fn an_ask_that_is_lost_has_its_state_kept(rt: HostRuntime) -> Result<(), Fail> {
    let alloc = rt.alloc();
    let mut lead = ScriptLink::new(alloc, Vec::new(alloc), &[])?;
    let mut follow = ScriptLink::new(alloc, Vec::new(alloc), &[])?;
    let mut keeper = MemKeeper::new(None, Vec::new(alloc));
    let mut out = VecSink::new(alloc, 10, Vec::new(alloc))?;
    let mut member = Member::begin(alloc, kept(), [0; 32], Command::Latest)
        .ok()
        .ok_or("a member")?;
    let mut outside = Borrowed {
        lead: &mut lead,
        follow: &mut follow,
        keeper: &mut keeper,
        out: &mut out,
    };
    let end = drive(alloc, &mut member, &mut outside).err();
    assert!(rt; end == Some(Broken::LinkFault { side: Side::Lead }));
    assert!(rt; lead.exchanges().len() == 1 && follow.exchanges().is_empty());
    assert!(rt; next_serial(alloc, &mut keeper) == Some(3));
    Ok(())
}

#[test]
fn a_command_that_asks_nothing_hands_its_outcome_back(rt: HostRuntime) -> Result<(), Fail> {
    let alloc = rt.alloc();
    let mut lead = ScriptLink::new(alloc, Vec::new(alloc), &[])?;
    let mut follow = ScriptLink::new(alloc, Vec::new(alloc), &[])?;
    let mut keeper = MemKeeper::new(None, Vec::new(alloc));
    let mut out = VecSink::new(alloc, 10, Vec::new(alloc))?;
    let mut member = Member::begin(alloc, kept(), [0; 32], Command::Resume)
        .ok()
        .ok_or("a member")?;
    let mut outside = Borrowed {
        lead: &mut lead,
        follow: &mut follow,
        keeper: &mut keeper,
        out: &mut out,
    };
    let done = match drive(alloc, &mut member, &mut outside) {
        Ok(Outcome::NothingPending) => true,
        _ => false,
    };
    assert!(rt; done && lead.exchanges().is_empty() && follow.exchanges().is_empty());
    assert!(rt; next_serial(alloc, &mut keeper).is_none());
    Ok(())
}
