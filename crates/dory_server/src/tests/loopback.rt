//! Servers over loopback.

use super::{ANY, AT_0, Bound, LATEST, end_at, words};
use crate::end::ServerEnd;
use dory_io::Binder;
use dory_link::Link;
use dory_net::{TcpBinder, TcpLink, TcpPort};
use std::alloc::{AllocError, Global};
use std::io::{ErrorKind, Read};
use std::net::{Net, TcpListener, TcpStream};
use std::sync::Wait;
use std::test::Fail;
use std::thread::Threads;
use std::{io, thread};

/// A free address of this machine, bound, with so many ports.
fn bind_anywhere<R: Net<Listener = TcpListener, Stream = TcpStream>>(
    rt: &R,
    alloc: Global,
    many: u32,
) -> Result<Bound<TcpPort>, Fail> {
    let refused = || io::Error::from(ErrorKind::AddrInUse);
    let mut binder = TcpBinder::new(rt, alloc);
    let address = binder.bind(&ANY).map_err(|_| refused())?;
    let mut ports = Vec::new(alloc);
    for _ in 0..many {
        ports.push(binder.port().map_err(|_| refused())?)?;
    }
    Ok(Bound::of(alloc, address, ports))
}

/// Whether the server at this address says that its folder's history is empty.
fn is_empty<R: Net<Stream = TcpStream>>(rt: &R, alloc: Global, address: String) -> bool {
    let mut link = TcpLink::new(rt, alloc, address);
    matches!(&link.ask(alloc, &LATEST), Ok(frame) if frame.as_slice() == AT_0.as_slice())
}

/// The ends of two servers that serve one connection each.
fn ends_of_both<R: Wait + Threads + Sync>(
    rt: &R,
    alloc: Global,
    lead: &mut Bound<TcpPort>,
    follow: &mut Bound<TcpPort>,
) -> (Option<ServerEnd>, Option<ServerEnd>) {
    thread::join(
        rt,
        || end_as(rt, alloc, "lead 127.0.0.1:0 1 1:8:2", lead),
        || end_as(rt, alloc, "follow 127.0.0.1:0 1 1:8:2", follow),
    )
}

/// The end of the server that a line names, which serves one connection at each seat.
fn end_as<R: Wait + Threads + Sync>(
    rt: &R,
    alloc: Global,
    line: &str,
    binder: &mut Bound<TcpPort>,
) -> Option<ServerEnd> {
    match words(alloc, line) {
        Ok(words) => Some(end_at(rt, alloc, &words, binder, 1)),
        Err(AllocError) => None,
    }
}

#[test]
fn two_servers_answer_over_loopback(rt: HostRuntime) -> Result<(), Fail> {
    let alloc = rt.alloc();
    let mut lead = bind_anywhere(&rt, alloc, 1)?;
    let mut follow = bind_anywhere(&rt, alloc, 1)?;
    let (lead_at, follow_at) = (lead.address, follow.address);
    let lead_at = format!(in alloc; "{lead_at}")?;
    let follow_at = format!(in alloc; "{follow_at}")?;
    let (ends, empty) = thread::join(
        &rt,
        || ends_of_both(&rt, alloc, &mut lead, &mut follow),
        || is_empty(&rt, alloc, lead_at) && is_empty(&rt, alloc, follow_at),
    );
    assert!(rt; empty);
    assert_eq!(rt;
        ends,
        (Some(ServerEnd::Sessions), Some(ServerEnd::Sessions))
    );
    Ok(())
}

/// Whether a server is asked and answers while an earlier connection to it stands and says nothing.
fn is_answered_beside_a_silent_peer<R: Net<Stream = TcpStream>>(
    rt: &R,
    alloc: Global,
    silent: TcpStream,
    address: String,
) -> bool {
    let answered = is_empty(rt, alloc, address);
    drop(silent);
    answered
}

#[test]
fn a_silent_peer_holds_no_other_than_its_seat(rt: HostRuntime) -> Result<(), Fail> {
    let alloc = rt.alloc();
    let mut lead = bind_anywhere(&rt, alloc, 2)?;
    let at = lead.address;
    let address = format!(in alloc; "{at}")?;
    let silent = TcpStream::connect(&rt, address.as_str())?;
    let (end, answered) = thread::join(
        &rt,
        || end_as(&rt, alloc, "lead 127.0.0.1:0 2 1:8:2", &mut lead),
        || is_answered_beside_a_silent_peer(&rt, alloc, silent, address),
    );
    assert!(rt; answered);
    assert_eq!(rt; end, Some(ServerEnd::Sessions));
    Ok(())
}
