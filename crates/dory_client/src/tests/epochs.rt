//! Key epochs, and states of both forms.

use super::folder::{Folder, INIT, called, empty_folder, says, state};
use crate::end::ClientEnd;
use dory_io::{Keeper, MemKeeper};
use dory_kernel::{RowKernel, lane_parity};
use dory_state::StateFault;
use std::alloc::Global;
use std::test::Fail;

/// A state of the first form of member 0 with this next serial.
fn first_form(alloc: Global, next_serial: u64) -> Result<Vec<u8>, Fail> {
    let mut bytes = Vec::new(alloc);
    bytes.extend_from_slice(b"dorystt1")?;
    bytes.extend_from_slice(&[0, 0, 0, 1, 0, 0, 0, 0, 8, 2])?;
    bytes.extend_from_slice(&[0; 32])?;
    bytes.extend_from_slice(&next_serial.to_be_bytes())?;
    bytes.extend_from_slice(&[0; 5])?;
    Ok(bytes)
}

/// What a member keeps.
fn kept(alloc: Global, folder: &mut Folder) -> Result<Vec<u8>, Fail> {
    let kept = folder.keeper.load(alloc).ok().ok_or("a load")?;
    Ok(kept.ok_or("a state")?)
}

#[test]
fn rows_of_two_epochs_are_found(rt: HostRuntime) -> Result<(), Fail> {
    let alloc = rt.alloc();
    let mut folder = empty_folder(alloc, RowKernel::new(lane_parity), 2)?;
    let calls: [(&str, &[u8], &[u8]); 5] = [
        (INIT, b"", b"ready\n"),
        ("post 7", b"alpha", b"posted 7 at 1\n"),
        ("rotate", b"", b"epoch 1\n"),
        ("post 8", b"alpha", b"posted 8 at 2\n"),
        ("search alpha", b"", b"version 2: 7 8\n"),
    ];
    for (line, text, written) in calls {
        assert!(rt; says(alloc, &mut folder, line, text, written)?, "{line}");
    }
    Ok(())
}

#[test]
fn a_first_state_has_67_bytes(rt: HostRuntime) -> Result<(), Fail> {
    let alloc = rt.alloc();
    let mut folder = empty_folder(alloc, RowKernel::new(lane_parity), 2)?;
    assert!(rt; says(alloc, &mut folder, INIT, b"", b"ready\n")?);
    let kept = kept(alloc, &mut folder)?;
    assert!(rt; kept.len() == 67 && kept.as_slice() == state(alloc, 1, 0, 0)?.as_slice());
    Ok(())
}

#[test]
fn a_state_of_the_first_form_is_kept_in_the_second(rt: HostRuntime) -> Result<(), Fail> {
    let alloc = rt.alloc();
    let mut folder = empty_folder(alloc, RowKernel::new(lane_parity), 2)?;
    folder.keeper = MemKeeper::new(Some(first_form(alloc, 1)?), Vec::new(alloc));
    assert!(rt;
        says(
            alloc,
            &mut folder,
            "latest",
            b"",
            b"lead 0 follow 0 seen 0\n"
        )?
    );
    assert!(rt; kept(alloc, &mut folder)?.as_slice() == state(alloc, 2, 0, 0)?.as_slice());
    Ok(())
}

#[test]
fn a_state_of_the_first_form_ends_with_its_epoch(rt: HostRuntime) -> Result<(), Fail> {
    let alloc = rt.alloc();
    let mut folder = empty_folder(alloc, RowKernel::new(lane_parity), 2)?;
    folder.keeper = MemKeeper::new(
        Some(first_form(alloc, 72_057_594_037_927_937)?),
        Vec::new(alloc),
    );
    let came = called(alloc, &mut folder, "latest", b"")?;
    assert!(rt; came.end == ClientEnd::StateForm(StateFault::Field { at: 50 }));
    Ok(())
}

#[test]
fn a_post_begins_an_epoch_where_the_posts_of_the_last_are_used_up(
    rt: HostRuntime,
) -> Result<(), Fail> {
    let alloc = rt.alloc();
    let mut folder = empty_folder(alloc, RowKernel::new(lane_parity), 2)?;
    folder.keeper = MemKeeper::new(Some(state(alloc, 9, 0, 65_536)?), Vec::new(alloc));
    assert!(rt; says(alloc, &mut folder, "post 7", b"alpha", b"posted 7 at 1\n")?);
    let next = state(alloc, 72_057_594_037_927_937, 1, 1)?;
    assert!(rt; kept(alloc, &mut folder)?.as_slice() == next.as_slice());
    Ok(())
}

#[test]
fn the_last_epoch_has_no_next(rt: HostRuntime) -> Result<(), Fail> {
    let alloc = rt.alloc();
    let mut folder = empty_folder(alloc, RowKernel::new(lane_parity), 2)?;
    folder.keeper = MemKeeper::new(
        Some(state(alloc, 18_446_744_073_709_551_614, 0, 0)?),
        Vec::new(alloc),
    );
    let came = called(alloc, &mut folder, "rotate", b"")?;
    assert!(rt; came.end == ClientEnd::EpochEnd && came.end.status() == 16);
    Ok(())
}
