//! The top call.
ghost use Rattle.std.specs.Prelude.{◌≡◌, map, string_bytes};
ghost use Rattle.dory_io.specs.Causes.{HasCause};
ghost use Rattle.dory_state.specs.Spelling.{IsKeptState};
ghost use Rattle.dory_state.specs.Reading.{state_of};
ghost use Rattle.dory_client.specs.Call.{IsCall};
ghost use Rattle.dory_client.specs.Ends.{FailedAt};
ghost use Rattle.dory_client.specs.Input.{AreTooMany};
ghost use Rattle.dory_client.specs.Run.{StateBegins, IsRun, MayAct};
ghost use Rattle.dory_client.specs.Scene.{input_at, met};
ghost use Rattle.dory_client.specs.Start.{IsTodo};
ghost use Rattle.dory_drive.specs.Scene.{AskedNothing, Caused, faults, scene};

use crate::command::command_of;
use crate::end::ClientEnd;
use crate::go::{broken_end, go};
use crate::said::say_ready;
use crate::start::{Start, Todo, start_of};
use dory_cli::{UsageFault, read_line};
use dory_drive::{Borrowed, Outside, keep};
use dory_io::{KeepError, Keeper, Sink, Source};
use dory_link::Link;
use dory_state::{KeptState, StateFault, read_state};
use std::alloc::Global;

/// Keeps a first state.
fn begin<W: Outside>(alloc: Global, first: &KeptState, outside: &mut W) -> ClientEnd
    requires { IsKeptState first.now }
    ensures lent { W.lent outside.new ≡ W.lent outside.old }
    ensures asked { AskedNothing (W.scene outside.old) (W.scene outside.new) }
    ensures begins { StateBegins first.now (W.scene outside.old).kept (W.scene outside.new).kept
        (W.scene outside.old).written (W.scene outside.new).written result }
    ensures cause { Caused (W.scene outside.old).faults (W.scene outside.new).faults (FailedAt result) }
{
    match keep(alloc, first, outside) {
        Ok(()) => say_ready(alloc, outside),
        Err(broken) => broken_end(broken),
    }
}

/// Acts in the state that the kept bytes are.
fn act<W: Outside, S: Source>(
    alloc: Global,
    todo: Todo,
    bytes: &[u8],
    seed: [u8; 32],
    input: &mut S,
    outside: &mut W,
) -> ClientEnd
    requires { IsTodo todo }
    ensures lent { W.lent outside.new ≡ W.lent outside.old }
    ensures acts { MayAct (state_of bytes.now) seed todo (met (input_at (S.left input.old) (S.given input.old) (S.faults input.old)) (W.scene outside.old))
        (met (input_at (S.left input.new) (S.given input.new) (S.faults input.new)) (W.scene outside.new)) result }
    ensures cause { Caused (W.scene outside.old).faults (W.scene outside.new).faults (FailedAt result) }
    ensures input { HasCause (S.faults input.old) (S.faults input.new) (result ≡ ClientEnd.InputFault) }
    ensures long { result ≡ ClientEnd.InputLong → AreTooMany (S.left input.old) }
{
    let state = match read_state(alloc, bytes) {
        Ok(state) => state,
        Err(StateFault::NoMemory) => return ClientEnd::NoMemory,
        Err(fault) => return ClientEnd::StateForm(fault),
    };
    let command = match command_of(alloc, todo, &state, input) {
        Ok(command) => command,
        Err(end) => return end,
    };
    go(alloc, state, seed, command, outside)
}

/// Reads the words and what is kept, and begins a state or acts in the one there is.
fn run_words<W: Outside, S: Source>(
    alloc: Global,
    words: &[String],
    seed: [u8; 32],
    input: &mut S,
    outside: &mut W,
) -> ClientEnd
    ensures lent { W.lent outside.new ≡ W.lent outside.old }
    ensures run { IsRun (map string_bytes words.now) seed (met (input_at (S.left input.old) (S.given input.old) (S.faults input.old)) (W.scene outside.old))
        (met (input_at (S.left input.new) (S.given input.new) (S.faults input.new)) (W.scene outside.new)) result }
    ensures cause { Caused (W.scene outside.old).faults (W.scene outside.new).faults (FailedAt result) }
    ensures input { HasCause (S.faults input.old) (S.faults input.new) (result ≡ ClientEnd.InputFault) }
    ensures long { result ≡ ClientEnd.InputLong → AreTooMany (S.left input.old) }
{
    let line = match read_line(alloc, words) {
        Ok(line) => line,
        Err(UsageFault::NoMemory) => return ClientEnd::NoMemory,
        Err(fault) => return ClientEnd::Usage(fault),
    };
    let kept = match outside.load(alloc) {
        Ok(kept) => kept,
        Err(KeepError::Failed) => return ClientEnd::KeeperFault,
        Err(KeepError::NoMemory) => return ClientEnd::NoMemory,
    };
    match start_of(line) {
        Start::Init(first) => match kept {
            None => begin(alloc, &first, outside),
            Some(_) => ClientEnd::HasState,
        },
        Start::Act(todo) => match kept {
            None => ClientEnd::NoState,
            Some(bytes) => act(alloc, todo, &bytes, seed, input, outside),
        },
    }
}

/// The same, with all that is promised of a call.
fn promised<W: Outside, S: Source>(
    alloc: Global,
    words: &[String],
    seed: [u8; 32],
    input: &mut S,
    outside: &mut W,
) -> ClientEnd
    ensures lent { W.lent outside.new ≡ W.lent outside.old }
    ensures call { IsCall (map string_bytes words.now) seed (met (input_at (S.left input.old) (S.given input.old) (S.faults input.old)) (W.scene outside.old))
        (met (input_at (S.left input.new) (S.given input.new) (S.faults input.new)) (W.scene outside.new)) result }
{
    run_words(alloc, words, seed, input, outside)
}

/// Does all that the program does: reads the words and the kept state, runs the command over the two links, of which one
/// may answer anything, checks the replies, keeps the state and writes what the command came to. Only a post reads the
/// input, to its end. What is promised of it stands in `specs/Call.antt`, part by part.
pub fn client_run<L0: Link, L1: Link, K: Keeper, S: Source, O: Sink>(
    alloc: Global,
    words: &[String],
    seed: [u8; 32],
    lead: &mut L0,
    follow: &mut L1,
    keeper: &mut K,
    input: &mut S,
    out: &mut O,
) -> ClientEnd
    ensures call { IsCall (map string_bytes words.now) seed
        (met (input_at (S.left input.old) (S.given input.old) (S.faults input.old))
        (scene (K.kept keeper.old) (L0.heard lead.old) (L1.heard follow.old) (O.written out.old)
        (faults (K.faults keeper.old) (L0.faults lead.old) (L1.faults follow.old) (O.faults out.old))))
        (met (input_at (S.left input.new) (S.given input.new) (S.faults input.new))
        (scene (K.kept keeper.new) (L0.heard lead.new) (L1.heard follow.new) (O.written out.new)
        (faults (K.faults keeper.new) (L0.faults lead.new) (L1.faults follow.new) (O.faults out.new))))
        result }
{
    let mut outside = Borrowed {
        lead,
        follow,
        keeper,
        out,
    };
    promised(alloc, words, seed, input, &mut outside)
}
