//! A seat at its domain, which a session needs to answer.
ghost use Rattle.std.specs.Prelude.{◌≡◌};
ghost use Rattle.dory_io.specs.Causes.{HasCause, Rose};
ghost use Rattle.dory_session.specs.Ends.{IsLimited};
ghost use Rattle.dory_session.specs.Session.{around, IsSession, IsWell, EndsWell};
ghost use Rattle.dory_session.specs.declared.end.How.TheVariants.{InputFault, OutputFault};
ghost use Rattle.dory_seats.specs.Answered.{IsAnswered, HaveGrown};

use crate::crew::Crew;
use crate::named_seat::NamedSeat;
use dory_io::{Sink, Source};
use dory_session::{Answers, SessionEnd, serve_session};
use dory_shared::{Domain, Names};
use dory_wire::WireFault;
use std::alloc::Global;
use std::sync::Wait;
use std::thread::Threads;

/// A seat at its domain. Each request is answered through the seat, and others may use the domain meanwhile by theirs.
#[derive(Drop)]
pub struct AtSeat<'d, 'a, J: Names, R: Threads + Wait + Sync> {
    pub rt: &'a R,
    pub domain: &'d Domain<'a, J, R>,
    pub seat: NamedSeat<J>,
}

impl<'d, 'a, J: Names, R: Threads + Wait + Sync> Answers for AtSeat<'d, 'a, J, R> {
    ghost use Rattle.std.specs.Prelude.{List};
    ghost use Rattle.dory_shared.specs.Seen.{Seen as OfFolder};
    ghost use Rattle.dory_seats.specs.Answered.{IsAnswered};

    ghost Seen = { List OfFolder };

    ghost seen = { λ a. a.seat };

    ghost steps = { IsAnswered };

    fn answer(&mut self, alloc: Global, message: &[u8]) -> Result<Vec<u8>, WireFault> {
        let crew = Crew::new(self.rt);
        self.seat.answer(&crew, alloc, self.domain, message)
    }
}

/// Answers each request of the input through a seat, as `serve_session` does.
pub fn serve_seat<J: Names, R: Threads + Wait + Sync, S: Source, O: Sink>(
    alloc: Global,
    at: &mut AtSeat<'_, '_, J, R>,
    input: &mut S,
    out: &mut O,
) -> SessionEnd
    // What came, what was written, and what the seat has seen, by the end.
    ensures session { IsSession IsAnswered (around at.old.seat (S.left input.old) (S.given input.old) (O.written out.old)) (around at.new.seat (S.left input.new) (S.given input.new) (O.written out.new)) result }
    // Of each folder the history that it then has seen begins with the one that it had seen.
    ensures grown { HaveGrown at.old.seat at.new.seat }
    ensures input_fault { HasCause (S.faults input.old) (S.faults input.new) (result.how ≡ InputFault) }
    ensures output_fault { HasCause (O.faults out.old) (O.faults out.new) (result.how ≡ OutputFault) }
    // The limit ends it exactly where as many messages were answered as a session answers.
    ensures limited { IsLimited result }
    // An input of requests, fewer than the limit, is answered whole where nothing outside failed and memory didn't run out.
    ensures complete { IsWell (S.left input.old) → ¬ Rose (S.faults input.old) (S.faults input.new) → ¬ Rose (O.faults out.old) (O.faults out.new) → EndsWell result.how }
{
    serve_session(alloc, at, input, out)
}
