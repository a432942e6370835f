//! The next message of an input.
ghost use Rattle.std.specs.Prelude.{◌≡◌, ◌≢◌, ◌≤◌, List, ℕ, length, IsErrOf, Option, Ok, None};
ghost use Rattle.dory_wire.specs.Cut.{front_of};
ghost use Rattle.dory_io.specs.Causes.{HasCause};
ghost use Rattle.dory_io.specs.Bytes.{BytesRead, IsOver};
ghost use Rattle.dory_session.specs.Ends.{Stops};
ghost use Rattle.dory_session.specs.Session.{IsNext, IsMore};

use crate::end::How;
use dory_io::Source;
use dory_wire::{FrameFault, Framer};
use std::alloc::Global;

/// Reads a piece into the room, and feeds it.
fn read_on<S: Source>(
    alloc: Global,
    framer: &mut Framer,
    room: &mut [u8],
    input: &mut S,
) -> Result<(), How>
    requires partial { front_of framer.old ≡ Ok None }
    requires some { 1 ≤ length room.old }
    requires few { length room.old ≤ 65536 }
    ensures more { (came : List ℕ) × BytesRead (S.left input.old) (S.left input.new) (S.given input.old) (S.given input.new) came × IsMore framer.old framer.new came (S.left input.old) (S.left input.new) result }
    ensures cause { HasCause (S.faults input.old) (S.faults input.new) (IsErrOf result How.InputFault) }
{
    let n = match input.read(room) {
        Ok(n) => n,
        Err(_) => return Err(How::InputFault),
    };
    if n == 0 {
        return Err(end_at(framer));
    }
    match framer.feed(alloc, &room[..n]) {
        Ok(()) => Ok(()),
        Err(_) => Err(How::NoMemory),
    }
}

/// The end of the input, where no whole message is held.
fn end_at(framer: &Framer) -> How
    requires { front_of framer.now ≡ Ok None }
    ensures stops { (before : Option (List ℕ)) (left : Option (List ℕ)) → IsOver before left → Stops result framer.now before left }
    ensures no_fault { result ≢ How.InputFault }
{
    match framer.held() {
        0 => How::Ended,
        held => How::Cut { held },
    }
}

/// The next whole message. The input is read on only where none is held.
pub fn next_message<S: Source>(
    alloc: Global,
    framer: &mut Framer,
    room: &mut [u8],
    input: &mut S,
) -> Result<Vec<u8>, How>
    requires some { 1 ≤ length room.old }
    requires few { length room.old ≤ 65536 }
    ensures next { (came : List ℕ) × BytesRead (S.left input.old) (S.left input.new) (S.given input.old) (S.given input.new) came × IsNext framer.old framer.new came (S.left input.old) (S.left input.new) result }
    ensures cause { HasCause (S.faults input.old) (S.faults input.new) (IsErrOf result How.InputFault) }
{
    loop {
        match framer.next_message(alloc) {
            Ok(Some(message)) => return Ok(message),
            Ok(None) => {}
            Err(FrameFault::Length { n }) => return Err(How::Length { n }),
            Err(FrameFault::NoMemory) => return Err(How::NoMemory),
        }
        match read_on(alloc, framer, room, input) {
            Ok(()) => {}
            Err(how) => return Err(how),
        }
    }
}
