//! A shared domain answers a message by a caller's seat.
ghost use Rattle.std.specs.Prelude.{◌≡◌};
ghost use Rattle.dory_domain.specs.Answered.{Responds};
ghost use Rattle.dory_shared.specs.Seen.{names_of};
ghost use Rattle.dory_together.specs.Seats.{IsSeated};

use dory_base::NoMemory;
use dory_shared::{Domain, Names, Seat};
use dory_wire::{WireFault, decode_request, encode_reply};
use std::alloc::Global;
use std::sync::Wait;
use std::thread::Threads;

/// The frame that answers a message, by a read of the seat or by a write of the domain.
pub fn answer<J: Names, R: Threads + Wait + Sync>(
    rt: &R,
    alloc: Global,
    domain: &Domain<'_, J, R>,
    seat: &mut Seat,
    message: &[u8],
) -> Result<Vec<u8>, WireFault>
    requires fits { names_of seat.old ≡ J.names }
    ensures responds { Responds IsSeated seat.old message.now result seat.new }
    ensures fits { names_of seat.new ≡ J.names }
{
    let request = decode_request(alloc, message)?;
    let reply = domain.answer(rt, alloc, seat, &request);
    match encode_reply(alloc, &reply) {
        Ok(frame) => Ok(frame),
        Err(NoMemory) => Err(WireFault::NoMemory),
    }
}
