//! A command is taken from its member, to go on or to be given up.
ghost use Rattle.std.specs.Prelude.{◌≡◌, Some, IfOk, slice_get};
ghost use Rattle.dory_world.specs.Places.{awaited_in};
ghost use Rattle.dory_world.specs.Steps.{TakenFrom};

use crate::place::{Place, place_at};
use dory_base::{MemberId, NoMemory, Side};
use dory_member::Member;
use std::alloc::Global;

/// The domain of which a member waits for a reply, if there is such a member and it is busy.
pub fn awaited(members: &[Place], m: MemberId) -> Option<Side>
    ensures { result ≡ awaited_in (slice_get members.now m.0) }
{
    match place_at(members, m) {
        Some(place) => place.awaited(),
        None => None,
    }
}

/// The command of a member, if there is such a member and it is busy. The member is left idle with what it has kept.
pub fn taken(
    alloc: Global,
    members: &mut Vec<Place>,
    m: MemberId,
) -> Result<Option<Member>, NoMemory>
    ensures { IfOk result (λ member. TakenFrom (slice_get members.old.items m.0) members.old.items m.0 member members.new.items) }
{
    let at = m.0 as usize;
    if at >= members.len() {
        return Ok(None);
    }
    members[at].give_up(alloc)
}
