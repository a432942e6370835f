//! Two lanes at once, in memory, each with a domain and a port of its own; and threads that are tried.

use crate::{FailingThreads, Lane, SystemThreads, ThreadMaker, serve_lanes};
use dory_base::{FolderId, NoMemory, Shape, Side};
use dory_domain::{DomainCore, FolderConfig};
use dory_io::{Failed, MemPort, VecSink, VecSource};
use dory_kernel::{RowKernel, plain_parity};
use dory_net::ServeEnd;
use std::alloc::{AllocError, Global};
use std::test::Fail;

// To stage a removal, and to order it, each in a frame.
const STAGE: [u8; 42] = [
    0, 0, 0, 0x26, 4, 0, 0, 0, 0, 0, 0, 0, 0, 0, 0, 0, 2, 0, 0, 0, 0, 0, 0, 0, 1, 0, 0, 0, 0, 0, 0,
    0, 0, 0, 0, 0, 2, 0, 0, 0, 7, 2,
];

const ORDER: [u8; 37] = [
    0, 0, 0, 0x21, 5, 0, 0, 0, 0, 0, 0, 0, 0, 0, 0, 0, 2, 0, 0, 0, 1, 0, 0, 0, 1, 0, 0, 0, 0, 0, 0,
    0, 0, 0, 0, 0, 2,
];

/// A port of two connections, of which the first stages a removal and the second orders it, and whose calls of these numbers
/// fail.
fn port(alloc: Global, fails: &[u64]) -> Result<MemPort, NoMemory> {
    let mut pairs = Vec::new(alloc);
    for bytes in [STAGE.as_slice(), ORDER.as_slice()] {
        let source = VecSource::new(bytes.to_vec(alloc)?, Vec::new(alloc));
        let sink = VecSink::new(alloc, 64, Vec::new(alloc))?;
        pairs.push((source, sink))?;
    }
    Ok(MemPort::new(pairs, fails.to_vec(alloc)?))
}

/// A lane over a domain with folder 1.
fn lane(alloc: Global, fails: &[u64]) -> Result<Lane<DomainCore, MemPort>, NoMemory> {
    let Some(shape) = Shape::new(8, 2) else {
        return Err(NoMemory);
    };
    let config = FolderConfig {
        folder: FolderId(1),
        shape,
        retained: 2,
    };
    let kernel = RowKernel::new(plain_parity);
    let Ok(core) = DomainCore::new(alloc, Side::Lead, &[config], kernel) else {
        return Err(NoMemory);
    };
    Ok(Lane::new(core, port(alloc, fails)?))
}

/// How many updates the lane's domain has, and how its serving ended.
fn left(lane: &Lane<DomainCore, MemPort>) -> (Option<u32>, ServeEnd) {
    (lane.answers.length(FolderId(1)), lane.end)
}

#[test]
fn each_lane_serves_as_many_connections_as_are_asked_for(rt: HostRuntime) -> Result<(), Fail> {
    let alloc = rt.alloc();
    let (Ok(first), Ok(second)) = (lane(alloc, &[]), lane(alloc, &[])) else {
        return Err(Fail::from(AllocError));
    };
    let mut lanes = [first, second];
    let one = serve_lanes(&rt, alloc, &mut lanes, Some(1));
    assert_eq!(rt; one, ServeEnd::Sessions);
    assert_eq!(rt; left(&lanes[0]), (Some(0), ServeEnd::Sessions));
    assert_eq!(rt; left(&lanes[1]), (Some(0), ServeEnd::Sessions));
    // What the second connection orders was staged by the first.
    let more = serve_lanes(&rt, alloc, &mut lanes, Some(1));
    assert_eq!(rt; more, ServeEnd::Sessions);
    assert_eq!(rt; left(&lanes[0]), (Some(1), ServeEnd::Sessions));
    assert_eq!(rt; left(&lanes[1]), (Some(1), ServeEnd::Sessions));
    Ok(())
}

#[test]
fn a_fault_of_one_port_ends_its_lane_alone(rt: HostRuntime) -> Result<(), Fail> {
    let alloc = rt.alloc();
    let (Ok(first), Ok(second)) = (lane(alloc, &[1]), lane(alloc, &[])) else {
        return Err(Fail::from(AllocError));
    };
    let mut lanes = [first, second];
    let end = serve_lanes(&rt, alloc, &mut lanes, Some(2));
    assert_eq!(rt; end, ServeEnd::AcceptFault);
    assert_eq!(rt; left(&lanes[0]), (Some(0), ServeEnd::AcceptFault));
    assert_eq!(rt; left(&lanes[1]), (Some(1), ServeEnd::Sessions));
    Ok(())
}

#[test]
fn lanes_serve_for_good_until_their_ports_give_no_more(rt: HostRuntime) -> Result<(), Fail> {
    let alloc = rt.alloc();
    let (Ok(first), Ok(second)) = (lane(alloc, &[2]), lane(alloc, &[])) else {
        return Err(Fail::from(AllocError));
    };
    let mut lanes = [first, second];
    let end = serve_lanes(&rt, alloc, &mut lanes, None);
    assert_eq!(rt; end, ServeEnd::AcceptFault);
    assert_eq!(rt; left(&lanes[0]), (Some(0), ServeEnd::AcceptFault));
    assert_eq!(rt; left(&lanes[1]), (Some(1), ServeEnd::AcceptFault));
    Ok(())
}

#[test]
fn threads_are_tried_at_once_and_counted_where_they_fail(rt: HostRuntime) -> Result<(), Fail> {
    let alloc = rt.alloc();
    let mut system = SystemThreads::new();
    for many in [0, 1, 31] {
        assert_eq!(rt; system.try_threads(&rt, many), Ok(()));
    }
    let mut failing = FailingThreads::new(Vec::from_slice(alloc, &[2])?);
    assert_eq!(rt; failing.try_threads(&rt, 3), Ok(()));
    assert_eq!(rt; failing.try_threads(&rt, 3), Err(Failed));
    assert_eq!(rt; failing.try_threads(&rt, 3), Ok(()));
    Ok(())
}
