//! Lines and states that are refused before anything is asked.

use super::folder::{INIT, called, called_with, empty_folder, says, state};
use crate::end::{ClientEnd, client_text};
use dory_cli::UsageFault;
use dory_io::MemKeeper;
use dory_kernel::{RowKernel, lane_parity};
use std::test::Fail;

#[test]
fn a_line_that_is_none_is_refused(rt: HostRuntime) -> Result<(), Fail> {
    let alloc = rt.alloc();
    let mut folder = empty_folder(alloc, RowKernel::new(lane_parity), 2)?;
    let cases = [
        ("", "usage nocommand"),
        ("find alpha", "usage unknown"),
        ("search a-b", "usage word"),
        ("search", "usage words"),
        ("post 07", "usage number doc"),
    ];
    for (line, text) in cases {
        let came = called(alloc, &mut folder, line, b"")?;
        assert!(rt; client_text(alloc, &came.end)?.as_str() == text, "{line}");
        assert!(rt;
            came.end.status() == 2 && came.out.bytes().is_empty(),
            "{line}"
        );
    }
    Ok(())
}

#[test]
fn a_state_that_is_missing_or_there_is_refused(rt: HostRuntime) -> Result<(), Fail> {
    let alloc = rt.alloc();
    let mut folder = empty_folder(alloc, RowKernel::new(lane_parity), 2)?;
    assert!(rt; called(alloc, &mut folder, "search alpha", b"")?.end == ClientEnd::NoState);
    assert!(rt; says(alloc, &mut folder, INIT, b"", b"ready\n")?);
    assert!(rt; called(alloc, &mut folder, INIT, b"")?.end == ClientEnd::HasState);
    Ok(())
}

#[test]
fn a_state_with_one_byte_more_is_refused(rt: HostRuntime) -> Result<(), Fail> {
    let alloc = rt.alloc();
    let mut folder = empty_folder(alloc, RowKernel::new(lane_parity), 2)?;
    let mut bytes = state(alloc, 1, 0, 0)?;
    bytes.push(0)?;
    folder.keeper = MemKeeper::new(Some(bytes), Vec::new(alloc));
    let came = called(alloc, &mut folder, "latest", b"")?;
    assert!(rt; client_text(alloc, &came.end)?.as_str() == "stateform length 68");
    assert!(rt; came.end.status() == 3);
    Ok(())
}

#[test]
fn a_command_that_asks_is_refused_at_the_last_serial(rt: HostRuntime) -> Result<(), Fail> {
    let alloc = rt.alloc();
    let mut folder = empty_folder(alloc, RowKernel::new(lane_parity), 2)?;
    folder.keeper = MemKeeper::new(Some(state(alloc, u64::MAX, 0, 0)?), Vec::new(alloc));
    let came = called(alloc, &mut folder, "search alpha", b"")?;
    assert!(rt; came.end == ClientEnd::SerialEnd && came.end.status() == 11);
    assert!(rt; folder.lead.exchanges().is_empty() && folder.follow.exchanges().is_empty());
    assert!(rt; says(alloc, &mut folder, "resume", b"", b"nothing pending\n")?);
    Ok(())
}

#[test]
fn a_post_at_the_last_serial_reads_nothing(rt: HostRuntime) -> Result<(), Fail> {
    let alloc = rt.alloc();
    let mut folder = empty_folder(alloc, RowKernel::new(lane_parity), 2)?;
    folder.keeper = MemKeeper::new(Some(state(alloc, u64::MAX, 0, 0)?), Vec::new(alloc));
    // An input that fails at its first read, and one that is too long.
    let came = called_with(alloc, &mut folder, "post 7", b"alpha", &[1], &[])?;
    assert!(rt; came.end == ClientEnd::SerialEnd);
    let long = vec![in alloc; b'a'; 8_388_609]?;
    let came = called(alloc, &mut folder, "post 7", &long)?;
    assert!(rt; came.end == ClientEnd::SerialEnd);
    Ok(())
}

#[test]
fn an_unknown_usage_has_its_text(rt: HostRuntime) -> Result<(), Fail> {
    let end = ClientEnd::Usage(UsageFault::Unknown);
    assert!(rt; client_text(rt.alloc(), &end)?.as_str() == "usage unknown");
    Ok(())
}
