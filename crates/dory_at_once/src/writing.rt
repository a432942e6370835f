//! How a seat publishes an update.
ghost use Rattle.std.specs.Prelude.{◌≡◌};
ghost use Rattle.dory_wire.specs.Spelling.{IsEntry};
ghost use Rattle.dory_shared.specs.Seen.{names_of};
ghost use Rattle.dory_at_once.specs.Growing.{HaveGrown, WasOrdered, committed_in};

use crate::reading::asked;
use dory_base::{Entry, FolderId};
use dory_shared::{Domain, Names, Seat};
use dory_wire::{Want, What};
use std::alloc::Global;
use std::sync::Wait;

/// The number at which a reply says that an update is committed.
fn told(what: &What) -> Option<u32>
    ensures { result ≡ committed_in what.now }
{
    match what {
        What::Committed { number, .. } => Some(*number),
        _ => None,
    }
}

/// Stages an update and orders it, while others may publish: the number at which it is committed, if it is.
pub fn publish<J: Names, R: Wait>(
    rt: &R,
    alloc: Global,
    domain: &Domain<'_, J, R>,
    seat: &mut Seat,
    folder: FolderId,
    entry: Entry,
) -> Option<u32>
    requires fits { names_of seat.old ≡ J.names }
    requires entry { IsEntry entry }
    ensures fits { names_of seat.new ≡ J.names }
    ensures grown { HaveGrown seat.old seat.new }
    ensures ordered { WasOrdered seat.old folder.0 entry.id result seat.new }
{
    let id = entry.id;
    domain.write(rt, alloc, seat, &asked(folder, Want::Stage { entry }));
    let reply = domain.write(rt, alloc, seat, &asked(folder, Want::Order { id }));
    told(&reply.what)
}
