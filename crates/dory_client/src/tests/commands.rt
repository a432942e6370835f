//! Commands one after another, by worked examples.

use super::folder::{INIT, INIT_ONE, empty_folder, says};
use dory_kernel::{RowKernel, lane_parity, plain_parity};
use std::test::Fail;

#[test]
fn a_document_is_posted_found_and_removed(rt: HostRuntime) -> Result<(), Fail> {
    let alloc = rt.alloc();
    let mut folder = empty_folder(alloc, RowKernel::new(lane_parity), 2)?;
    let calls: [(&str, &[u8], &[u8]); 7] = [
        (INIT, b"", b"ready\n"),
        ("post 7", b"alpha beta", b"posted 7 at 1\n"),
        ("search alpha", b"", b"version 1: 7\n"),
        ("latest", b"", b"lead 1 follow 1 seen 1\n"),
        ("remove 7", b"", b"removed 7 at 2\n"),
        ("search alpha", b"", b"version 2:\n"),
        ("resume", b"", b"nothing pending\n"),
    ];
    for (line, text, written) in calls {
        assert!(rt; says(alloc, &mut folder, line, text, written)?, "{line}");
    }
    Ok(())
}

#[test]
fn an_empty_folder_has_version_0(rt: HostRuntime) -> Result<(), Fail> {
    let alloc = rt.alloc();
    let mut folder = empty_folder(alloc, RowKernel::new(plain_parity), 2)?;
    assert!(rt; says(alloc, &mut folder, INIT, b"", b"ready\n")?);
    assert!(rt; says(alloc, &mut folder, "search alpha", b"", b"version 0:\n")?);
    Ok(())
}

// The positions of `264` are one column.
#[test]
fn a_word_whose_positions_are_one_column_is_found(rt: HostRuntime) -> Result<(), Fail> {
    let alloc = rt.alloc();
    let mut folder = empty_folder(alloc, RowKernel::new(lane_parity), 2)?;
    assert!(rt; says(alloc, &mut folder, INIT, b"", b"ready\n")?);
    assert!(rt; says(alloc, &mut folder, "post 7", b"264", b"posted 7 at 1\n")?);
    assert!(rt; says(alloc, &mut folder, "search 264", b"", b"version 1: 7\n")?);
    Ok(())
}

// With one position a word, that of `90` is that of `alpha`.
#[test]
fn a_word_with_the_position_of_another_is_found(rt: HostRuntime) -> Result<(), Fail> {
    let alloc = rt.alloc();
    let mut folder = empty_folder(alloc, RowKernel::new(lane_parity), 1)?;
    assert!(rt; says(alloc, &mut folder, INIT_ONE, b"", b"ready\n")?);
    assert!(rt; says(alloc, &mut folder, "post 7", b"alpha", b"posted 7 at 1\n")?);
    assert!(rt; says(alloc, &mut folder, "search 90", b"", b"version 1: 7\n")?);
    Ok(())
}

#[test]
fn a_second_post_replaces_the_first(rt: HostRuntime) -> Result<(), Fail> {
    let alloc = rt.alloc();
    let mut folder = empty_folder(alloc, RowKernel::new(lane_parity), 2)?;
    let calls: [(&str, &[u8], &[u8]); 5] = [
        (INIT, b"", b"ready\n"),
        ("post 7", b"alpha", b"posted 7 at 1\n"),
        ("post 7", b"beta", b"posted 7 at 2\n"),
        ("search beta", b"", b"version 2: 7\n"),
        ("search alpha", b"", b"version 2:\n"),
    ];
    for (line, text, written) in calls {
        assert!(rt; says(alloc, &mut folder, line, text, written)?, "{line}");
    }
    Ok(())
}
