//! The forms in memory at calls that are listed, at calls that are not, and where room runs out.
use crate::{
    Address, Binder, Keeper, MemBinder, MemKeeper, MemPort, Port, Sink, Source, VecSink, VecSource,
    number, number_in_bytes,
};
use std::test::Fail;

/// Texts that are no IPv4 address and port.
const BAD_ADDRESSES: [&str; 8] = [
    "127.0.0.1",
    "127.0.0.1:65536",
    "127.0.0.1:07",
    "127.0.0.1:7:1",
    "127.0.0.256:7",
    "127.0.0.1.1:7",
    "localhost:7",
    "[::1]:7",
];

#[test]
fn listed_calls_fail_and_leave_what_was_there(rt: HostRuntime) -> Result<(), Fail> {
    let alloc = rt.alloc();
    let mut source = VecSource::new(vec![in alloc; 1, 2, 3]?, vec![in alloc; 2]?);
    let mut into = [0u8; 2];
    assert_eq!(rt; source.read(&mut into), Ok(2));
    assert!(rt; source.read(&mut into).is_err());
    assert_eq!(rt; source.read(&mut into), Ok(1));
    assert_eq!(rt; into, [3, 2]);
    assert_eq!(rt; source.read(&mut into), Ok(0));

    let mut keeper = MemKeeper::new(None, vec![in alloc; 2]?);
    assert!(rt; keeper.load(alloc).is_ok_and(|kept| kept.is_none()));
    assert!(rt; keeper.save(alloc, b"old").is_err());
    assert!(rt; keeper.save(alloc, b"new").is_ok());
    let kept = keeper.load(alloc);
    assert!(rt;
        kept.is_ok_and(|kept| kept.is_some_and(|bytes| bytes.as_slice() == b"new".as_slice()))
    );
    Ok(())
}

#[test]
fn numbers_are_read_of_bytes_that_are_no_text(rt: HostRuntime) {
    assert_eq!(rt;
        number_in_bytes(b"18446744073709551615", 0, u64::MAX),
        Some(u64::MAX)
    );
    assert_eq!(rt; number_in_bytes(b"18446744073709551616", 0, u64::MAX), None);
    assert_eq!(rt; number_in_bytes(&[b'7', 0xff], 0, u64::MAX), None);
    assert_eq!(rt; number_in_bytes(b"", 0, u64::MAX), None);
    assert_eq!(rt; number("256", 0, 256), Some(256));
    assert_eq!(rt; number("256", 0, 255), None);
    assert_eq!(rt; number("+7", 0, 255), None);
}

#[test]
fn a_sink_takes_what_fits(rt: HostRuntime) -> Result<(), Fail> {
    let alloc = rt.alloc();
    let Ok(mut sink) = VecSink::new(alloc, 5, vec![in alloc; 3]?) else {
        return Err(Fail::from(std::alloc::AllocError));
    };
    assert_eq!(rt; sink.write(b"abc"), Ok(3));
    assert_eq!(rt; sink.write(b""), Ok(0));
    assert!(rt; sink.write(b"de").is_err());
    assert_eq!(rt; sink.write(b"defg"), Ok(2));
    assert!(rt; sink.write(b"g").is_err());
    assert_eq!(rt; sink.bytes(), b"abcde".as_slice());
    Ok(())
}

#[test]
fn ports_and_their_connections_come_in_turn(rt: HostRuntime) -> Result<(), Fail> {
    let alloc = rt.alloc();
    let address = Address {
        ip: [127, 0, 0, 1],
        port: 7001,
    };
    let text = format!(in alloc; "{address}")?;
    assert_eq!(rt; text.as_str(), "127.0.0.1:7001");
    assert_eq!(rt; Address::read("127.0.0.1:7001"), Some(address));
    for bad in BAD_ADDRESSES {
        assert_eq!(rt; Address::read(bad), None);
    }
    let source = VecSource::new(vec![in alloc; 7]?, Vec::new(alloc));
    let Ok(sink) = VecSink::new(alloc, 1, Vec::new(alloc)) else {
        return Err(Fail::from(std::alloc::AllocError));
    };
    let port = MemPort::new(vec![in alloc; (source, sink)]?, vec![in alloc; 1]?);
    let mut binder = MemBinder::new(vec![in alloc; port]?, vec![in alloc; 1]?);
    assert!(rt; binder.bind(&address).is_err());
    assert_eq!(rt; binder.bind(&address), Ok(address));
    let Ok(mut port) = binder.port() else {
        return Err(Fail::from(std::alloc::AllocError));
    };
    assert!(rt; binder.port().is_err());
    assert!(rt; port.accept().is_err());
    let Ok((mut input, mut out)) = port.accept() else {
        return Err(Fail::from(std::alloc::AllocError));
    };
    let mut byte = [0u8; 1];
    assert_eq!(rt; input.read(&mut byte), Ok(1));
    assert_eq!(rt; byte, [7]);
    assert_eq!(rt; out.write(&byte), Ok(1));
    assert!(rt; port.accept().is_err());
    Ok(())
}
