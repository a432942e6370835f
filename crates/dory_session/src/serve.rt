//! A session over one domain.
ghost use Rattle.std.specs.Prelude.{◌≡◌};
ghost use Rattle.dory_io.specs.Causes.{HasCause, Rose};
ghost use Rattle.dory_domain.specs.Answered.{IsAnswered};
ghost use Rattle.dory_session.specs.Ends.{IsLimited};
ghost use Rattle.dory_session.specs.Session.{around, IsSession, IsWell, EndsWell};

use crate::answers::Answers;
use crate::end::{How, SessionEnd};
use crate::intake::next_message;
use crate::reply::reply_to;
use dory_domain::DomainCore;
use dory_io::{Sink, Source};
use dory_wire::Framer;
use std::alloc::Global;

/// How many bytes are read at a time.
const ROOM: usize = 16_384;

/// Answers each request of the input by the domain, in order, up to the first fault, the end of the input, or the limit of
/// 4,294,967,295 messages.
pub fn serve_session<D: Answers, S: Source, O: Sink>(
    alloc: Global,
    domain: &mut D,
    input: &mut S,
    out: &mut O,
) -> SessionEnd
    // What came, what was written, and what was seen of the domain, by the end.
    ensures session { IsSession D.steps (around (D.seen domain.old) (S.left input.old) (S.given input.old) (O.written out.old)) (around (D.seen domain.new) (S.left input.new) (S.given input.new) (O.written out.new)) result }
    ensures input_fault { HasCause (S.faults input.old) (S.faults input.new) (result.how ≡ How.InputFault) }
    ensures output_fault { HasCause (O.faults out.old) (O.faults out.new) (result.how ≡ How.OutputFault) }
    // The limit ends it exactly where as many messages were answered as a session answers.
    ensures limited { IsLimited result }
    // An input of requests, fewer than the limit, is answered whole where nothing outside failed and memory didn't run out.
    ensures complete { IsWell (S.left input.old) → ¬ Rose (S.faults input.old) (S.faults input.new) → ¬ Rose (O.faults out.old) (O.faults out.new) → EndsWell result.how }
{
    let Ok(mut framer) = Framer::new(alloc) else {
        return SessionEnd {
            answered: 0,
            how: How::NoMemory,
        };
    };
    let Ok(mut room) = Vec::from_elem(alloc, 0, ROOM) else {
        return SessionEnd {
            answered: 0,
            how: How::NoMemory,
        };
    };
    for answered in 0..u32::MAX {
        let message = match next_message(alloc, &mut framer, &mut room, input) {
            Ok(message) => message,
            Err(how) => return SessionEnd { answered, how },
        };
        match reply_to(alloc, domain, &message, out) {
            Ok(()) => {}
            Err(how) => return SessionEnd { answered, how },
        }
    }
    SessionEnd {
        answered: u32::MAX,
        how: How::Limit,
    }
}

/// Answers each request of the input by the core of a domain that no other writes, as `serve_session` does.
pub fn serve_core<S: Source, O: Sink>(
    alloc: Global,
    core: &mut DomainCore,
    input: &mut S,
    out: &mut O,
) -> SessionEnd
    // What came, what was written, and what the domain became, by the end.
    ensures session { IsSession IsAnswered (around core.old.folders (S.left input.old) (S.given input.old) (O.written out.old)) (around core.new.folders (S.left input.new) (S.given input.new) (O.written out.new)) result }
    ensures input_fault { HasCause (S.faults input.old) (S.faults input.new) (result.how ≡ How.InputFault) }
    ensures output_fault { HasCause (O.faults out.old) (O.faults out.new) (result.how ≡ How.OutputFault) }
    // The limit ends it exactly where as many messages were answered as a session answers.
    ensures limited { IsLimited result }
    // An input of requests, fewer than the limit, is answered whole where nothing outside failed and memory didn't run out.
    ensures complete { IsWell (S.left input.old) → ¬ Rose (S.faults input.old) (S.faults input.new) → ¬ Rose (O.faults out.old) (O.faults out.new) → EndsWell result.how }
{
    serve_session(alloc, core, input, out)
}
