//! A seat of the domain with these names.
ghost use Rattle.std.specs.Prelude.{◌≡◌};
ghost use Rattle.dory_wire.specs.Cut.{IsMessage};
ghost use Rattle.dory_domain.specs.Answered.{Responds};
ghost use Rattle.dory_shared.specs.Seen.{names_of};
ghost use Rattle.dory_seats.specs.Answered.{IsAnswered};

use dory_base::NoMemory;
use dory_shared::{Domain, Names, Seat};
use dory_wire::{WireFault, decode_request, encode_reply};
use std::alloc::Global;
use std::marker::{Model, PhantomData};
use std::sync::Wait;
use std::thread::Threads;

/// A seat whose folders have the names of a domain. Contracts see what was seen of each.
#[derive(Drop)]
pub struct NamedSeat<J: Names> {
    seat: Seat,
    of: PhantomData<J>,
}

impl<J: Names> Model for NamedSeat<J> {
    ghost use Rattle.std.specs.Prelude.{◌≡◌, List};
    ghost use Rattle.dory_shared.specs.Seen.{Seen, names_of};

    ghost Value = { List Seen };

    ghost view = { λ n. n.seat };

    ghost invariant = { λ n. names_of n.seat ≡ J.names };
}

impl<J: Names> NamedSeat<J> {
    pub fn new(seat: Seat) -> NamedSeat<J>
        requires { names_of seat ≡ J.names }
        ensures { result ≡ seat }
    {
        NamedSeat {
            seat,
            of: PhantomData,
        }
    }

    /// The seat alone.
    pub fn into_seat(self) -> Seat
        ensures seat { result ≡ self }
        ensures fits { names_of result ≡ J.names }
    {
        self.seat
    }

    /// The frame that answers a message, at one point of the published history of its folder.
    pub fn answer<T: Threads + Wait + Sync, R: Wait>(
        &mut self,
        rt: &T,
        alloc: Global,
        domain: &Domain<'_, J, R>,
        message: &[u8],
    ) -> Result<Vec<u8>, WireFault>
        requires { IsMessage message.now }
        ensures { Responds IsAnswered self.old message.now result self.new }
    {
        let request = decode_request(alloc, message)?;
        let reply = domain.answer(rt, alloc, &mut self.seat, &request);
        match encode_reply(alloc, &reply) {
            Ok(frame) => Ok(frame),
            Err(NoMemory) => Err(WireFault::NoMemory),
        }
    }
}
