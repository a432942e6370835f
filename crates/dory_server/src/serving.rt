//! A server serves: each seat gets a port and is a lane, a line says where the server is found, and all lanes serve at once.
ghost use Rattle.std.specs.Prelude.{◌≡◌, ◌⊎◌, All, IfErr, IfOk, length, map, string_bytes, IsErrOf};
ghost use Rattle.dory_io.specs.Causes.{HasCause};
ghost use Rattle.dory_shared.specs.Seen.{names_of};
ghost use Rattle.dory_server.specs.Line.{server_line_of};
ghost use Rattle.dory_server.specs.Opening.{EndsBound, OpensBy, SaysReady, Tried, Wrote, fault_of};
ghost use Rattle.dory_server.specs.Served.{Served, ServedThen};

use crate::end::ServerEnd;
use crate::opening::server_open;
use dory_io::{Address, Binder, Failed, Sink, write_all};
use dory_kernel::RowKernel;
use dory_lanes::{Lane, ThreadMaker, serve_lanes};
use dory_net::ServeEnd;
use dory_seats::{AtSeat, NamedSeat};
use dory_shared::{Domain, Names, Opened, Seat};
use dory_shelf::PlaceMaker;
use std::alloc::Global;
use std::marker::Brand;
use std::sync::Wait;
use std::thread::Threads;

/// A lane for each seat, each with a port of its own.
fn lanes_of<'d, 'a, J: Names, R: Threads + Wait + Sync, B: Binder>(
    rt: &'a R,
    alloc: Global,
    domain: &'d Domain<'a, J, R>,
    seats: Vec<Seat>,
    binder: &mut B,
) -> Result<Vec<Lane<AtSeat<'d, 'a, J, R>, B::Door>>, ServerEnd>
    requires { All (λ s. names_of s ≡ J.names) seats.items }
    ensures seats { IfOk result (λ all. map (λ l. l.answers.seat) all.items ≡ seats.items) }
    ensures only { IfErr result (λ end. (end ≡ ServerEnd.BindFault) ⊎ (end ≡ ServerEnd.NoMemory)) }
    ensures bound { B.bound binder.new ≡ B.bound binder.old }
    ensures cause { HasCause (B.faults binder.old) (B.faults binder.new) (IsErrOf result ServerEnd.BindFault) }
{
    let mut lanes = Vec::new(alloc);
    for seat in seats {
        let Ok(port) = binder.port() else {
            return Err(ServerEnd::BindFault);
        };
        let seat = NamedSeat::new(seat);
        let lane = Lane::new(AtSeat { rt, domain, seat }, port);
        match lanes.push(lane) {
            Ok(()) => {}
            Err(_) => return Err(ServerEnd::NoMemory),
        }
    }
    Ok(lanes)
}

/// Writes the line that says where the server is found.
fn say_ready<O: Sink>(alloc: Global, out: &mut O, address: Address) -> Result<(), ServerEnd>
    ensures said { SaysReady address (O.written out.old) (O.written out.new) result }
    ensures cause { HasCause (O.faults out.old) (O.faults out.new) (IsErrOf result ServerEnd.OutputFault) }
{
    let Ok(line) = format!(in alloc; "ready {address}\n") else {
        return Err(ServerEnd::NoMemory);
    };
    match write_all(out, line.as_bytes()) {
        Ok(()) => Ok(()),
        Err(Failed) => Err(ServerEnd::OutputFault),
    }
}

/// Puts the folders of a domain behind their locks, makes a port for each seat, says where the server is found, and serves at
/// all seats at once: at each one connection after another, as many as are asked for, or for good. Then it closes the domain.
fn serve_at<'a, J: Names + Send + Sync, R: Threads + Wait + Sync, B: Binder, O: Sink>(
    rt: &'a R,
    alloc: Global,
    opened: Opened<'a, R>,
    seats: Vec<Seat>,
    kernel: RowKernel,
    binder: &mut B,
    bound: Address,
    out: &mut O,
    sessions: Option<u32>,
) -> ServerEnd
    requires opened { names_of opened ≡ J.names }
    requires seats { All (λ s. s ≡ opened) seats.items }
    ensures ends { EndsBound bound (O.written out.old) (O.written out.new) result }
    ensures served { ServedThen (record { tell = record { left = λ s. B.Door.From.left s; given = λ s. B.Door.From.given s; written = λ o. B.Door.To.written o }; given = λ p. B.Door.given p; faults = λ p. B.Door.faults p }) opened.entry (length seats.items) sessions result }
    ensures bound { B.bound binder.new ≡ B.bound binder.old }
    ensures bind_fault { HasCause (B.faults binder.old) (B.faults binder.new) (result ≡ ServerEnd.BindFault) }
    ensures output_fault { HasCause (O.faults out.old) (O.faults out.new) (result ≡ ServerEnd.OutputFault) }
{
    let domain = opened.named::<J>(kernel);
    let mut lanes = match lanes_of(rt, alloc, &domain, seats, binder) {
        Ok(lanes) => lanes,
        Err(end) => return end,
    };
    match say_ready(alloc, out, bound) {
        Ok(()) => {}
        Err(end) => return end,
    }
    let end = serve_lanes(rt, alloc, lanes.as_mut_slice(), sessions);
    drop(lanes);
    domain.close();
    match end {
        ServeEnd::Sessions => ServerEnd::Sessions,
        ServeEnd::AcceptFault => ServerEnd::AcceptFault,
    }
}

/// Opens a server by its words, says where it is found, and serves at all its seats at once: at each one connection after
/// another, as many as are asked for, or for good.
pub fn serve_seats<R: Threads + Wait + Sync, M: PlaceMaker, T: ThreadMaker, B: Binder, O: Sink>(
    rt: &R,
    alloc: Global,
    words: &[String],
    kernel: RowKernel,
    places: &mut M,
    threads: &mut T,
    binder: &mut B,
    out: &mut O,
    sessions: Option<u32>,
) -> ServerEnd
    // Faulty words come first and a faulty configuration second, exactly.
    ensures opens { OpensBy (fault_of (server_line_of (map string_bytes words.now))) result }
    ensures wrote { Wrote (server_line_of (map string_bytes words.now)) (B.bound binder.new) (O.written out.old) (O.written out.new) result }
    ensures served { Served (record { tell = record { left = λ s. B.Door.From.left s; given = λ s. B.Door.From.given s; written = λ o. B.Door.To.written o }; given = λ p. B.Door.given p; faults = λ p. B.Door.faults p }) (server_line_of (map string_bytes words.now)) sessions result }
    // Before anything is written as many threads were made at once as the seats need beside the one that there is.
    ensures tried { Tried (server_line_of (map string_bytes words.now)) (T.made threads.new) result }
    ensures place_refused { HasCause (M.faults places.old) (M.faults places.new) (result ≡ ServerEnd.PlaceRefused) }
    ensures no_threads { HasCause (T.faults threads.old) (T.faults threads.new) (result ≡ ServerEnd.NoThreads) }
    ensures bind_fault { HasCause (B.faults binder.old) (B.faults binder.new) (result ≡ ServerEnd.BindFault) }
    ensures output_fault { HasCause (O.faults out.old) (O.faults out.new) (result ≡ ServerEnd.OutputFault) }
{
    let (opened, seats, bound) = match server_open(rt, alloc, words, places, threads, binder) {
        Ok(opened) => opened,
        Err(end) => return end,
    };
    serve_at::<Brand, R, B, O>(
        rt, alloc, opened, seats, kernel, binder, bound, out, sessions,
    )
}
