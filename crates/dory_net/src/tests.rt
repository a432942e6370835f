//! The adapters over the loopback of this machine, and over streams in memory; and words as a shell hands them over.

mod shell;

use crate::{ServeEnd, StdSink, StdSource, TcpBinder, TcpLink, TcpPort, serve_port};
use dory_base::{FolderId, NoMemory, Shape, Side};
use dory_domain::{DomainCore, FolderConfig};
use dory_io::{
    Address, Binder, Failed, MemPort, Port, Sink, Source, VecSink, VecSource, write_all,
};
use dory_kernel::{RowKernel, plain_parity};
use dory_link::{Link, LinkError};
use std::alloc::Global;
use std::io::ErrorKind;
use std::net::{Net, TcpListener, TcpStream};
use std::test::Fail;
use std::{io, thread};

const ANY: Address = Address {
    ip: [127, 0, 0, 1],
    port: 0,
};

// To stage a removal, and to order it, each in a frame.
const STAGE: [u8; 42] = [
    0, 0, 0, 0x26, 4, 0, 0, 0, 0, 0, 0, 0, 0, 0, 0, 0, 2, 0, 0, 0, 0, 0, 0, 0, 1, 0, 0, 0, 0, 0, 0,
    0, 0, 0, 0, 0, 2, 0, 0, 0, 7, 2,
];

const ORDER: [u8; 37] = [
    0, 0, 0, 0x21, 5, 0, 0, 0, 0, 0, 0, 0, 0, 0, 0, 0, 2, 0, 0, 0, 1, 0, 0, 0, 1, 0, 0, 0, 0, 0, 0,
    0, 0, 0, 0, 0, 2,
];

/// A port at a free address, and the address as it is written.
fn port_anywhere<R: Net<Listener = TcpListener, Stream = TcpStream>>(
    rt: &R,
    alloc: Global,
) -> Result<(TcpPort, String), Fail> {
    let refused = || io::Error::from(ErrorKind::AddrInUse);
    let mut binder = TcpBinder::new(rt, alloc);
    let bound = binder.bind(&ANY).map_err(|_| refused())?;
    let port = binder.port().map_err(|_| refused())?;
    Ok((port, format!(in alloc; "{bound}")?))
}

/// Gives back the first bytes that come of each of two connections, and then ends it.
fn give_back_twice(port: &mut TcpPort) -> Result<(), Failed> {
    for _ in 0..2 {
        let (mut input, mut out) = port.accept()?;
        let mut piece = [0u8; 64];
        let n = input.read(&mut piece)?;
        write_all(&mut out, &piece[..n])?;
    }
    Ok(())
}

/// Whether the bytes come back as far as the length in front says, and a length out of range alone.
fn asks_twice<R: Net<Stream = TcpStream>>(rt: &R, alloc: Global, address: String) -> bool {
    let mut link = TcpLink::new(rt, alloc, address);
    let frame = link.ask(alloc, b"\0\0\0\x02hi and more");
    let front = link.ask(alloc, b"\0\0\0\0more");
    matches!(&frame, Ok(frame) if frame.as_slice() == b"\0\0\0\x02hi".as_slice())
        && matches!(&front, Ok(front) if front.as_slice() == b"\0\0\0\0".as_slice())
}

#[test]
fn a_link_asks_a_port_over_loopback(rt: HostRuntime) -> Result<(), Fail> {
    let alloc = rt.alloc();
    let (mut port, address) = port_anywhere(&rt, alloc)?;
    let (served, asked) = thread::join(
        &rt,
        || give_back_twice(&mut port),
        || asks_twice(&rt, alloc, address),
    );
    assert_eq!(rt; served, Ok(()));
    assert!(rt; asked);
    Ok(())
}

#[test]
fn what_is_no_address_of_ipv4_fails_each_ask(rt: HostRuntime) -> Result<(), Fail> {
    let alloc = rt.alloc();
    let mut nowhere = TcpLink::new(&rt, alloc, "localhost:1".to_string(alloc)?);
    assert!(rt; matches!(nowhere.ask(alloc, b"\0\0\0\x01x"), Err(LinkError::Failed)));
    Ok(())
}

/// A connection in memory of which these bytes come.
fn connection(alloc: Global, bytes: &[u8]) -> Result<(VecSource, VecSink), NoMemory> {
    let source = VecSource::new(bytes.to_vec(alloc)?, Vec::new(alloc));
    let sink = VecSink::new(alloc, 64, Vec::new(alloc))?;
    Ok((source, sink))
}

#[test]
fn each_connection_that_a_port_gives_is_served(rt: HostRuntime) -> Result<(), NoMemory> {
    let alloc = rt.alloc();
    let staged = connection(alloc, &STAGE)?;
    let ordered = connection(alloc, &ORDER)?;
    let mut port = MemPort::new(vec![in alloc; staged, ordered]?, Vec::new(alloc));
    let configs = [FolderConfig {
        folder: FolderId(1),
        shape: Shape::new(8, 2).expect(&rt, "a shape in range"),
        retained: 2,
    }];
    let kernel = RowKernel::new(plain_parity);
    let mut core = DomainCore::new(alloc, Side::Lead, &configs, kernel).expect(
        &rt,
        "folders in range",
    );
    let first = serve_port(&rt, alloc, &mut core, &mut port, Some(1));
    assert_eq!(rt;
        (first, core.length(FolderId(1))),
        (ServeEnd::Sessions, Some(0))
    );
    // What the second connection orders was staged by the first.
    let second = serve_port(&rt, alloc, &mut core, &mut port, Some(1));
    assert_eq!(rt;
        (second, core.length(FolderId(1))),
        (ServeEnd::Sessions, Some(1))
    );
    let third = serve_port(&rt, alloc, &mut core, &mut port, None);
    assert_eq!(rt; third, ServeEnd::AcceptFault);
    Ok(())
}

#[test]
fn a_source_gives_what_its_reader_does(rt: HostRuntime) {
    let mut source = StdSource::new(rt.alloc(), b"abc".as_slice());
    let mut piece = [0u8; 2];
    assert_eq!(rt; source.read(&mut piece), Ok(2));
    assert_eq!(rt; source.read(&mut piece), Ok(1));
    assert_eq!(rt; piece, [b'c', b'b']);
    assert_eq!(rt; source.read(&mut piece), Ok(0));
}

#[test]
fn a_sink_takes_what_its_writer_does_and_fails_where_it_takes_nothing(rt: HostRuntime) {
    let mut room = [0u8; 2];
    let mut sink = StdSink::new(rt.alloc(), room.as_mut_slice());
    assert_eq!(rt; sink.write(b"abc"), Ok(2));
    assert!(rt; sink.write(b"c").is_err());
}
