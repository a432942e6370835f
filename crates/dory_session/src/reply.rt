//! The reply to a message.
ghost use Rattle.std.specs.Prelude.{◌≡◌, IsErrOf, List, ℕ};
ghost use Rattle.std.specs.Io.KnownBytes.{Appends};
ghost use Rattle.dory_wire.specs.Cut.{IsMessage};
ghost use Rattle.dory_io.specs.Causes.{HasCause};
ghost use Rattle.dory_session.specs.Ends.{WritesReply, end_of_fault};

use crate::answers::Answers;
use crate::end::How;
use dory_io::{Sink, write_all};
use dory_wire::WireFault;
use std::alloc::Global;

/// The end that a fault of a message is.
fn fault_end(fault: WireFault) -> How
    ensures { result ≡ end_of_fault fault }
{
    match fault {
        WireFault::Kind { b } => How::Kind { b },
        WireFault::Body { at } => How::Body { at },
        WireFault::Trailing { at } => How::Trailing { at },
        WireFault::NoMemory => How::NoMemory,
    }
}

/// Writes the whole reply to a message. Nothing is written for one that is no request.
pub fn reply_to<D: Answers, O: Sink>(
    alloc: Global,
    domain: &mut D,
    message: &[u8],
    out: &mut O,
) -> Result<(), How>
    requires { IsMessage message.now }
    ensures replies { (part : List ℕ) × Appends (O.written out.old) (O.written out.new) part × WritesReply D.steps (D.seen domain.old) message.now part (D.seen domain.new) result }
    ensures cause { HasCause (O.faults out.old) (O.faults out.new) (IsErrOf result How.OutputFault) }
{
    let frame = match domain.answer(alloc, message) {
        Ok(frame) => frame,
        Err(fault) => return Err(fault_end(fault)),
    };
    match write_all(out, &frame) {
        Ok(()) => Ok(()),
        Err(_) => Err(How::OutputFault),
    }
}
