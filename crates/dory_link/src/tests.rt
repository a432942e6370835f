//! A link to a core by worked examples: calls that are listed, whose replies are lost, or both, and frames that are no
//! request.
use crate::{DomainLink, Link, LinkError};
use dory_base::{FolderId, NoMemory, Shape, Side};
use dory_domain::{DomainCore, FolderConfig};
use dory_kernel::{RowKernel, plain_parity};
use std::alloc::Global;
use std::test::Fail;

/// A lead with folder 1.
fn core(alloc: Global) -> Result<DomainCore, Fail> {
    let configs = [FolderConfig {
        folder: FolderId(1),
        shape: Shape::new(8, 2).ok_or("a shape in range")?,
        retained: 2,
    }];
    Ok(
        DomainCore::new(alloc, Side::Lead, &configs, RowKernel::new(plain_parity))
            .ok()
            .ok_or("a core")?,
    )
}

#[test]
fn what_is_no_request_is_a_fault_and_is_kept(rt: HostRuntime) -> Result<(), Fail> {
    let alloc = rt.alloc();
    let mut link = DomainLink::new(alloc, core(alloc)?, &[1])?;
    let failed = link.ask(alloc, &[0, 0, 0, 1, 1]);
    assert!(rt; matches!(failed, Err(LinkError::Failed)));
    let short = link.ask(alloc, &[0, 0, 0, 2, 1]);
    assert!(rt; matches!(short, Err(LinkError::Failed)));
    let kept = link.exchanges();
    assert_eq!(rt; kept.len(), 2);
    assert!(rt;
        kept[0].request.as_slice() == [0, 0, 0, 1, 1].as_slice() && kept[0].reply.is_none()
    );
    assert!(rt;
        kept[1].request.as_slice() == [0, 0, 0, 2, 1].as_slice() && kept[1].reply.is_none()
    );
    Ok(())
}

// To stage a removal of document 7 as update 0.2, to order it, and the order without its last byte.
const STAGE: [u8; 42] = [
    0, 0, 0, 0x26, 4, 0, 0, 0, 0, 0, 0, 0, 0, 0, 0, 0, 2, 0, 0, 0, 0, 0, 0, 0, 1, 0, 0, 0, 0, 0, 0,
    0, 0, 0, 0, 0, 2, 0, 0, 0, 7, 2,
];

const ORDER: [u8; 37] = [
    0, 0, 0, 0x21, 5, 0, 0, 0, 0, 0, 0, 0, 0, 0, 0, 0, 2, 0, 0, 0, 1, 0, 0, 0, 1, 0, 0, 0, 0, 0, 0,
    0, 0, 0, 0, 0, 2,
];

const SHORT: [u8; 36] = [
    0, 0, 0, 0x20, 5, 0, 0, 0, 0, 0, 0, 0, 0, 0, 0, 0, 2, 0, 0, 0, 1, 0, 0, 0, 1, 0, 0, 0, 0, 0, 0,
    0, 0, 0, 0, 0,
];

// Latest, under the ask 3.2.0.
const LATEST: [u8; 25] = [
    0, 0, 0, 0x15, 1, 0, 0, 0, 3, 0, 0, 0, 0, 0, 0, 0, 2, 0, 0, 0, 0, 0, 0, 0, 1,
];

/// The reply to it, that the history has so many updates.
fn at(length: u8) -> [u8; 25] {
    [
        0, 0, 0, 0x15, 0x81, 0, 0, 0, 3, 0, 0, 0, 0, 0, 0, 0, 2, 0, 0, 0, 0, 0, 0, 0, length,
    ]
}

/// Whether these two asks come to these ends, where the first and the second may fail, and Latest then gives this length.
fn plays(
    alloc: Global,
    link: &mut DomainLink,
    second: &[u8],
    failed: [bool; 2],
    length: u8,
) -> Result<bool, Fail> {
    let staged = link.ask(alloc, &STAGE);
    let ordered = link.ask(alloc, second);
    let ends = [
        matches!(staged, Err(LinkError::Failed)),
        matches!(ordered, Err(LinkError::Failed)),
    ];
    let latest = link.ask(alloc, &LATEST).ok().ok_or("a reply to Latest")?;
    let kept = link.exchanges();
    Ok(
        ends == failed
            && staged.is_ok() != failed[0]
            && ordered.is_ok() != failed[1]
            && latest.as_slice() == at(length).as_slice()
            && kept.len() == 3
            && kept[0].reply.is_none() == failed[0]
            && kept[1].reply.is_none() == failed[1],
    )
}

#[test]
fn a_call_whose_reply_is_lost_is_answered_and_a_listed_one_is_not(
    rt: HostRuntime,
) -> Result<(), Fail> {
    let alloc = rt.alloc();
    let rows: [(&[u64], &[u64], &[u8], [bool; 2], u8); 8] = [
        (&[], &[], &ORDER, [false, false], 1),
        (&[2], &[], &ORDER, [false, true], 0),
        (&[], &[2], &ORDER, [false, true], 1),
        (&[2], &[2], &ORDER, [false, true], 0),
        (&[], &[2], &SHORT, [false, true], 0),
        (&[], &[], &SHORT, [false, true], 0),
        (&[], &[1], &ORDER, [true, false], 1),
        (&[], &[1, 2], &ORDER, [true, true], 1),
    ];
    for (fails, lost, second, failed, length) in rows {
        let mut link = DomainLink::losing(alloc, core(alloc)?, fails, lost)?;
        assert!(rt; plays(alloc, &mut link, second, failed, length)?);
    }
    Ok(())
}
