//! The command that a member runs, where a post's row comes of the input.
ghost use Rattle.std.specs.Prelude.{◌≡◌, ◌^◌, length, IfOk, IsErrOf};
ghost use Rattle.dory_io.specs.Causes.{HasCause};
ghost use Rattle.dory_state.specs.Spelling.{IsKeptState};
ghost use Rattle.dory_member.specs.Within.{FitsCommand};
ghost use Rattle.dory_client.specs.Ends.{fault_end, input_end};
ghost use Rattle.dory_client.specs.Input.{AreTooMany};
ghost use Rattle.dory_client.specs.Scene.{input_at};
ghost use Rattle.dory_client.specs.Start.{IsTodo};
ghost use Rattle.dory_client.specs.Command.{HasRow, HasCommand};

use crate::end::ClientEnd;
use crate::input::{InputEnd, read_text, text_row};
use crate::start::Todo;
use dory_base::{Bits, NoMemory};
use dory_hmac::FolderKeys;
use dory_io::Source;
use dory_member::{Command, Fault, post_fault};
use dory_state::KeptState;
use std::alloc::Global;

/// How a call ends at a command's fault.
pub fn end_of(fault: Fault) -> ClientEnd
    ensures { result ≡ fault_end fault }
{
    match fault {
        Fault::Check(fault) => ClientEnd::Check(fault),
        Fault::Unconfirmed { side, want, got } => ClientEnd::Unconfirmed { side, want, got },
        Fault::Diverged {
            number,
            lead_id,
            follow_id,
        } => ClientEnd::Diverged {
            number,
            lead_id,
            follow_id,
        },
        Fault::Unfinished { id } => ClientEnd::Unfinished { id },
        Fault::SerialEnd => ClientEnd::SerialEnd,
        Fault::EpochEnd => ClientEnd::EpochEnd,
        Fault::NoMemory => ClientEnd::NoMemory,
    }
}

/// How a call ends where its text wasn't read.
fn input_end(end: InputEnd) -> ClientEnd
    ensures { result ≡ input_end end }
{
    match end {
        InputEnd::Fault => ClientEnd::InputFault,
        InputEnd::Long => ClientEnd::InputLong,
        InputEnd::NoMemory => ClientEnd::NoMemory,
    }
}

/// The row of the text that the input has.
fn read_row<S: Source>(alloc: Global, state: &KeptState, input: &mut S) -> Result<Bits, ClientEnd>
    ensures row { HasRow state.now (input_at (S.left input.old) (S.given input.old) (S.faults input.old))
        (input_at (S.left input.new) (S.given input.new) (S.faults input.new)) result }
    ensures cause { HasCause (S.faults input.old) (S.faults input.new) (IsErrOf result ClientEnd.InputFault) }
    ensures long { IsErrOf result ClientEnd.InputLong → AreTooMany (S.left input.old) }
    ensures len { IfOk result (λ row. length row ≡ 2 ^ state.now.shape.depth) }
{
    let text = match read_text(alloc, input) {
        Ok(text) => text,
        Err(end) => return Err(input_end(end)),
    };
    let keys = FolderKeys::derive(&state.master, state.folder.0);
    match text_row(alloc, &keys, state.shape, &text) {
        Ok(row) => Ok(row),
        Err(NoMemory) => Err(ClientEnd::NoMemory),
    }
}

/// The command in this state. A post that is refused whatever its text is doesn't read the input.
pub fn command_of<S: Source>(
    alloc: Global,
    todo: Todo,
    state: &KeptState,
    input: &mut S,
) -> Result<Command, ClientEnd>
    requires state { IsKeptState state.now }
    requires todo { IsTodo todo }
    ensures command { HasCommand state.now todo (input_at (S.left input.old) (S.given input.old) (S.faults input.old))
        (input_at (S.left input.new) (S.given input.new) (S.faults input.new)) result }
    ensures cause { HasCause (S.faults input.old) (S.faults input.new) (IsErrOf result ClientEnd.InputFault) }
    ensures long { IsErrOf result ClientEnd.InputLong → AreTooMany (S.left input.old) }
    ensures fits { IfOk result (FitsCommand state.now.shape) }
{
    let doc = match todo {
        Todo::Plain(command) => return Ok(command),
        Todo::Post(doc) => doc,
    };
    if let Some(fault) = post_fault(state) {
        return Err(end_of(fault));
    }
    match read_row(alloc, state, input) {
        Ok(row) => Ok(Command::Post { doc, row }),
        Err(end) => Err(end),
    }
}
