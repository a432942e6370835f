//! Two servers and their members in one process, over TCP.

use super::folder::{INIT, core, words_of};
use crate::end::ClientEnd;
use crate::run::client_run;
use dory_base::{NoMemory, Side};
use dory_domain::DomainCore;
use dory_io::{Address, Binder, MemKeeper, VecSink, VecSource};
use dory_kernel::{RowKernel, lane_parity};
use dory_net::{ServeEnd, TcpBinder, TcpLink, TcpPort, serve_port};
use std::alloc::Global;
use std::io::ErrorKind;
use std::net::{Net, TcpListener, TcpStream};
use std::sync::Wait;
use std::test::Fail;
use std::thread::Threads;
use std::{io, thread};

/// The state of member 1 begins.
const INIT_OTHER: &str =
    "init --folder 1 --member 1 --depth 8 --probes 2 --master 0000000000000000000000000000000000000000000000000000000000000000";

/// Any free port of this machine.
const ANY: Address = Address {
    ip: [127, 0, 0, 1],
    port: 0,
};

/// A port that was bound, and where.
#[derive(Drop)]
struct Bound {
    address: String,
    port: TcpPort,
}

fn bind_anywhere<R: Net<Listener = TcpListener, Stream = TcpStream>>(
    rt: &R,
    alloc: Global,
) -> Result<Bound, Fail> {
    let refused = || io::Error::from(ErrorKind::AddrInUse);
    let mut binder = TcpBinder::new(rt, alloc);
    let address = binder.bind(&ANY).map_err(|_| refused())?;
    let port = binder.port().map_err(|_| refused())?;
    let address = format!(in alloc; "{address}")?;
    Ok(Bound { address, port })
}

/// A domain, its port and how many connections it serves.
#[derive(Drop)]
struct Server {
    core: DomainCore,
    port: TcpPort,
    sessions: u32,
}

fn served<R: Wait>(rt: &R, alloc: Global, server: &mut Server) -> ServeEnd {
    let sessions = Some(server.sessions);
    serve_port(rt, alloc, &mut server.core, &mut server.port, sessions)
}

/// Both servers at once.
fn both_served<R: Wait + Threads + Sync>(
    rt: &R,
    alloc: Global,
    lead: &mut Server,
    follow: &mut Server,
) -> (ServeEnd, ServeEnd) {
    thread::join(rt, || served(rt, alloc, lead), || served(rt, alloc, follow))
}

/// A call, the text of its input, and the two lines of which it is to write one.
#[derive(Drop)]
struct Case {
    line: &'static str,
    text: &'static [u8],
    written: [&'static [u8]; 2],
}

/// A member's calls, each over links of its own, and whether each wrote what it should.
fn lived<R: Net<Stream = TcpStream>>(
    rt: &R,
    alloc: Global,
    lead: &str,
    follow: &str,
    calls: &[Case],
) -> Result<bool, NoMemory> {
    let mut keeper = MemKeeper::new(None, Vec::new(alloc));
    for call in calls {
        let words = words_of(alloc, call.line)?;
        let mut out = VecSink::new(alloc, 100, Vec::new(alloc))?;
        let end = client_run(
            alloc,
            &words,
            [0; 32],
            &mut TcpLink::new(rt, alloc, lead.to_string(alloc)?),
            &mut TcpLink::new(rt, alloc, follow.to_string(alloc)?),
            &mut keeper,
            &mut VecSource::new(call.text.to_vec(alloc)?, Vec::new(alloc)),
            &mut out,
        );
        let [one, other] = call.written;
        if end != ClientEnd::Done || (out.bytes() != one && out.bytes() != other) {
            return Ok(false);
        }
    }
    Ok(true)
}

/// A call that writes one line.
const fn call(line: &'static str, text: &'static [u8], written: &'static [u8]) -> Case {
    Case {
        line,
        text,
        written: [written, written],
    }
}

/// One member's day, and whether it wrote what it should.
fn lived_alone<R: Net<Stream = TcpStream>>(
    rt: &R,
    alloc: Global,
    lead: &str,
    follow: &str,
) -> bool {
    let calls = [
        call(INIT, b"", b"ready\n"),
        call("post 7", b"alpha beta", b"posted 7 at 1\n"),
        call("search alpha", b"", b"version 1: 7\n"),
        call("remove 7", b"", b"removed 7 at 2\n"),
        call("search alpha", b"", b"version 2:\n"),
    ];
    lived(rt, alloc, lead, follow, &calls) == Ok(true)
}

/// A member that posts.
fn posted<R: Net<Stream = TcpStream>>(rt: &R, alloc: Global, lead: &str, follow: &str) -> bool {
    let calls = [
        call(INIT, b"", b"ready\n"),
        call("post 7", b"alpha", b"posted 7 at 1\n"),
    ];
    lived(rt, alloc, lead, follow, &calls) == Ok(true)
}

/// Another that searches, before the post or after it.
fn searched<R: Net<Stream = TcpStream>>(rt: &R, alloc: Global, lead: &str, follow: &str) -> bool {
    let calls = [
        call(INIT_OTHER, b"", b"ready\n"),
        Case {
            line: "search alpha",
            text: b"",
            written: [b"version 0:\n", b"version 1: 7\n"],
        },
    ];
    lived(rt, alloc, lead, follow, &calls) == Ok(true)
}

/// Where a server is found, and the server, which is to serve so many connections.
fn opened<R: Net<Listener = TcpListener, Stream = TcpStream>>(
    rt: &R,
    alloc: Global,
    kernel: RowKernel,
    role: Side,
    sessions: u32,
) -> Result<(String, Server), Fail> {
    let Bound { address, port } = bind_anywhere(rt, alloc)?;
    let core = core(alloc, kernel, role, 8, 2)?;
    let server = Server {
        core,
        port,
        sessions,
    };
    Ok((address, server))
}

#[test]
fn a_member_lives_with_two_servers(rt: HostRuntime) -> Result<(), Fail> {
    let alloc = rt.alloc();
    let (lead_at, mut lead) = opened(&rt, alloc, RowKernel::new(lane_parity), Side::Lead, 8)?;
    let (follow_at, mut follow) = opened(&rt, alloc, RowKernel::new(lane_parity), Side::Follow, 8)?;
    let (ends, lived) = thread::join(
        &rt,
        || both_served(&rt, alloc, &mut lead, &mut follow),
        || lived_alone(&rt, alloc, lead_at.as_str(), follow_at.as_str()),
    );
    assert!(rt; lived);
    assert_eq!(rt; ends, (ServeEnd::Sessions, ServeEnd::Sessions));
    Ok(())
}

#[test]
fn a_member_posts_while_another_searches(rt: HostRuntime) -> Result<(), Fail> {
    let alloc = rt.alloc();
    let (lead_at, mut lead) = opened(&rt, alloc, RowKernel::new(lane_parity), Side::Lead, 4)?;
    let (follow_at, mut follow) = opened(&rt, alloc, RowKernel::new(lane_parity), Side::Follow, 4)?;
    let (ends, lived) = thread::join(
        &rt,
        || both_served(&rt, alloc, &mut lead, &mut follow),
        || {
            thread::join(
                &rt,
                || posted(&rt, alloc, lead_at.as_str(), follow_at.as_str()),
                || searched(&rt, alloc, lead_at.as_str(), follow_at.as_str()),
            )
        },
    );
    assert_eq!(rt; lived, (true, true));
    assert_eq!(rt; ends, (ServeEnd::Sessions, ServeEnd::Sessions));
    Ok(())
}
