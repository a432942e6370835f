//! How a server ends over a binder in memory, and what it wrote.

use super::{LATEST, LINE, end_with, words};
use crate::end::ServerEnd;
use crate::serving::serve_seats;
use dory_base::NoMemory;
use dory_domain::ConfigFault;
use dory_io::{MemBinder, MemPort, VecSink, VecSource};
use dory_kernel::{RowKernel, plain_parity};
use dory_lanes::FailingThreads;
use dory_shelf::{FailingPlaces, Places};
use std::alloc::Global;
use std::sync::Wait;
use std::thread::Threads;

/// A port in memory, which gives one connection with a request.
fn port(alloc: Global) -> Result<MemPort, NoMemory> {
    let source = VecSource::new(LATEST.to_vec(alloc)?, Vec::new(alloc));
    let sink = VecSink::new(alloc, 64, Vec::new(alloc))?;
    Ok(MemPort::new(vec![in alloc; (source, sink)]?, Vec::new(alloc)))
}

/// A binder of so many ports, whose calls of these numbers fail.
fn binder(alloc: Global, ports: u32, fails: &[u64]) -> Result<MemBinder, NoMemory> {
    let mut all = Vec::new(alloc);
    for _ in 0..ports {
        all.push(port(alloc)?)?;
    }
    Ok(MemBinder::new(all, fails.to_vec(alloc)?))
}

/// The end of a server over such a binder that writes to a sink of so many bytes, and whether it wrote this.
fn end_on<R: Threads + Wait + Sync>(
    rt: &R,
    alloc: Global,
    line: &str,
    ports: u32,
    sessions: u32,
    room: usize,
    written: &[u8],
) -> Result<(ServerEnd, bool), NoMemory> {
    let words = words(alloc, line)?;
    let mut binder = binder(alloc, ports, &[])?;
    let mut out = VecSink::new(alloc, room, Vec::new(alloc))?;
    let end = end_with(rt, alloc, &words, &mut binder, &mut out, sessions);
    Ok((end, out.bytes() == written))
}

/// The line of a server that is found.
const READY: &[u8] = b"ready 127.0.0.1:0\n";

#[test]
fn a_faulty_line_is_refused_before_anything_is_written(rt: HostRuntime) {
    let alloc = rt.alloc();
    for (line, end) in [
        ("", ServerEnd::Usage { at: 0 }),
        (
            "lead 127.0.0.1:0 33 1:8:2",
            ServerEnd::BadConfig(ConfigFault::Seats { n: 33 }),
        ),
        (
            "lead 127.0.0.1:0 0 1:8:2",
            ServerEnd::BadConfig(ConfigFault::Seats { n: 0 }),
        ),
    ] {
        assert_eq!(rt; end_on(&rt, alloc, line, 2, 1, 64, b""), Ok((end, true)));
    }
}

#[test]
fn connections_are_served_at_each_seat_as_far_as_asked_for_and_given(rt: HostRuntime) {
    let alloc = rt.alloc();
    for (sessions, end) in [
        (0, ServerEnd::Sessions),
        (1, ServerEnd::Sessions),
        (2, ServerEnd::AcceptFault),
    ] {
        assert_eq!(rt;
            end_on(&rt, alloc, LINE, 2, sessions, 64, READY),
            Ok((end, true))
        );
    }
}

#[test]
fn a_server_of_two_seats_wants_two_ports(rt: HostRuntime) {
    let alloc = rt.alloc();
    for ports in [0, 1] {
        assert_eq!(rt;
            end_on(&rt, alloc, LINE, ports, 1, 64, b""),
            Ok((ServerEnd::BindFault, true))
        );
    }
    let one = "lead 127.0.0.1:0 1 1:8:2";
    assert_eq!(rt;
        end_on(&rt, alloc, one, 1, 1, 64, READY),
        Ok((ServerEnd::Sessions, true))
    );
}

#[test]
fn a_line_that_finds_no_room_is_an_output_fault(rt: HostRuntime) {
    let ended = end_on(&rt, rt.alloc(), LINE, 2, 1, 7, b"ready 1");
    assert_eq!(rt; ended, Ok((ServerEnd::OutputFault, true)));
}

/// The end of a server of two seats, of whose places, threads and calls of the binder these are to fail, and whether it wrote
/// nothing.
fn end_failing<R: Threads + Wait + Sync>(
    rt: &R,
    alloc: Global,
    places: &[u64],
    threads: &[u64],
    binding: &[u64],
) -> Result<(ServerEnd, bool), NoMemory> {
    let words = words(alloc, LINE)?;
    let mut places = FailingPlaces::new(Places::new(), places.to_vec(alloc)?);
    let mut threads = FailingThreads::new(threads.to_vec(alloc)?);
    let mut binder = binder(alloc, 2, binding)?;
    let mut out = VecSink::new(alloc, 64, Vec::new(alloc))?;
    let end = serve_seats(
        rt,
        alloc,
        &words,
        RowKernel::new(plain_parity),
        &mut places,
        &mut threads,
        &mut binder,
        &mut out,
        Some(1),
    );
    Ok((end, out.bytes().is_empty()))
}

#[test]
fn what_the_outside_refuses_ends_a_server_before_it_writes(rt: HostRuntime) {
    let alloc = rt.alloc();
    for (places, threads, binding, end) in [
        (&[2u64][..], &[][..], &[][..], ServerEnd::PlaceRefused),
        (&[], &[1], &[], ServerEnd::NoThreads),
        (&[2], &[1], &[1], ServerEnd::PlaceRefused),
        (&[], &[1], &[1], ServerEnd::NoThreads),
        (&[], &[], &[1], ServerEnd::BindFault),
        (&[], &[], &[3], ServerEnd::BindFault),
    ] {
        assert_eq!(rt;
            end_failing(&rt, alloc, places, threads, binding),
            Ok((end, true))
        );
    }
}

#[test]
fn an_end_has_its_text_and_its_status(rt: HostRuntime) {
    let alloc = rt.alloc();
    for (end, text, status) in [
        (ServerEnd::PlaceRefused, "placerefused", 5),
        (ServerEnd::NoThreads, "nothreads", 12),
        (ServerEnd::AcceptFault, "acceptfault", 4),
    ] {
        assert_eq!(rt; end.status(), status);
        assert!(rt; matches!(&format!(in alloc; "{end}"), Ok(said) if said.as_str() == text));
    }
}
