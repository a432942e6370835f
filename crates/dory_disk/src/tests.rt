//! A disk in memory at calls that are listed, at calls that are not, and where room runs out.
use crate::{Disk, MemDisk};
use std::test::Fail;

#[test]
fn a_disk_fails_at_a_listed_call_and_beyond_its_room(rt: HostRuntime) -> Result<(), Fail> {
    let alloc = rt.alloc();
    let Ok(mut disk) = MemDisk::new(alloc, 9, &[2, 5]) else {
        return Err(Fail::from(std::alloc::AllocError));
    };
    let mut byte = [7u8; 1];
    assert_eq!(rt; disk.length(), Ok(1));
    assert!(rt; disk.write_at(0, b"never").is_err());
    assert!(rt; disk.read_at(0, &mut byte).is_ok());
    assert_eq!(rt; byte, [0]);
    assert!(rt; disk.write_at(0, b"abcdef").is_ok());
    assert!(rt; disk.sync().is_err());
    assert!(rt; disk.write_at(4, b"wxyz").is_err());
    assert!(rt; disk.write_at(4, b"xyz").is_ok());
    assert_eq!(rt; disk.bytes(), b"abcdxyz".as_slice());
    assert!(rt; disk.sync().is_ok());
    assert_eq!(rt; disk.length(), Ok(7));
    // The tenth call.
    assert!(rt; disk.sync().is_err());
    assert_eq!(rt; disk.bytes(), b"abcdxyz".as_slice());
    Ok(())
}
