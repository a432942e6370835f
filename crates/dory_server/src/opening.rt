//! A server opens: its words are read, its domain is opened, threads are tried, and its address is bound.
ghost use Rattle.std.specs.Prelude.{◌≡◌, IfErr, IfOk, None, Ok, map, string_bytes, IsErrOf};
ghost use Rattle.dory_io.specs.Causes.{HasCause};
ghost use Rattle.dory_domain.specs.Setup.{setup_fault};
ghost use Rattle.dory_server.specs.Line.{server_line_of};
ghost use Rattle.dory_server.specs.Opening.{EndsUnbound, EndsUnopened, IsOpen, OpensBy, fault_of};

use crate::end::ServerEnd;
use crate::line::{ServerLine, ServerWords, read_server};
use dory_io::{Address, Binder, Failed};
use dory_lanes::ThreadMaker;
use dory_shared::{OpenError, Opened, Seat, open_domain};
use dory_shelf::PlaceMaker;
use std::alloc::Global;
use std::sync::Wait;
use std::thread::Threads;

/// The line that the words say, or the end that they or the configuration have.
fn read_line(alloc: Global, words: &[String]) -> Result<ServerLine, ServerEnd>
    ensures line { IfOk result (λ line. server_line_of (map string_bytes words.now) ≡ Ok line) }
    ensures right { IfOk result (λ line. setup_fault line.config.folders line.config.seats ≡ None) }
    ensures fault { IfErr result (OpensBy (fault_of (server_line_of (map string_bytes words.now)))) }
    ensures only { IfErr result EndsUnopened }
{
    let line = match read_server(alloc, words) {
        Ok(line) => line,
        Err(ServerWords::At { at }) => return Err(ServerEnd::Usage { at }),
        Err(ServerWords::NoMemory) => return Err(ServerEnd::NoMemory),
    };
    match line.config.fault() {
        Some(fault) => Err(ServerEnd::BadConfig(fault)),
        None => Ok(line),
    }
}

/// Opens a server by its words: its folders, its seats, and the address that was bound. Nothing is written, and where it
/// refuses, what was opened is closed.
pub fn server_open<'a, R: Threads + Wait + Sync, M: PlaceMaker, T: ThreadMaker, B: Binder>(
    rt: &'a R,
    alloc: Global,
    words: &[String],
    places: &mut M,
    threads: &mut T,
    binder: &mut B,
) -> Result<(Opened<'a, R>, Vec<Seat>, Address), ServerEnd>
    ensures open { IfOk result (λ t. IsOpen (server_line_of (map string_bytes words.now)) (T.made threads.new) (B.bound binder.new) t.0 t.1.items t.2) }
    // Faulty words come first and a faulty configuration second, exactly.
    ensures fault { IfErr result (OpensBy (fault_of (server_line_of (map string_bytes words.now)))) }
    ensures only { IfErr result EndsUnbound }
    ensures place_refused { HasCause (M.faults places.old) (M.faults places.new) (IsErrOf result ServerEnd.PlaceRefused) }
    ensures no_threads { HasCause (T.faults threads.old) (T.faults threads.new) (IsErrOf result ServerEnd.NoThreads) }
    ensures bind_fault { HasCause (B.faults binder.old) (B.faults binder.new) (IsErrOf result ServerEnd.BindFault) }
{
    let line = read_line(alloc, words)?;
    let (opened, seats) = match open_domain(rt, alloc, &line.config, places) {
        Ok(opened) => opened,
        Err(OpenError::BadConfig(_)) => unreachable!(),
        Err(OpenError::PlaceRefused) => return Err(ServerEnd::PlaceRefused),
        Err(OpenError::NoMemory) => return Err(ServerEnd::NoMemory),
    };
    // As many threads as the seats need beside the one that there is.
    match threads.try_threads(rt, line.config.seats.saturating_sub(1)) {
        Ok(()) => {}
        Err(Failed) => return Err(ServerEnd::NoThreads),
    }
    match binder.bind(&line.address) {
        Ok(bound) => Ok((opened, seats, bound)),
        Err(Failed) => Err(ServerEnd::BindFault),
    }
}
