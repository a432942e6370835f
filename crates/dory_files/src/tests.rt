//! States that are kept in files: a whole one, one that another keeper holds, one behind a link, and what is no state.

use crate::FileKeeper;
use dory_io::{KeepError, Keeper};
use std::fs;
use std::os::unix::fs::symlink;
use std::test::Fail;

#[test]
fn a_save_puts_the_whole_state_in_place_of_the_old_one(rt: HostRuntime) -> Result<(), Fail> {
    let alloc = rt.alloc();
    let mut keeper = FileKeeper::new(&rt, alloc, "whole".to_string(alloc)?);
    assert!(rt; matches!(keeper.load(alloc), Ok(None)));
    // Where nothing is kept, a load leaves nothing behind.
    assert!(rt; fs::open(&rt, "whole.lock").is_err());
    assert!(rt; keeper.save(alloc, b"the first").is_ok());
    assert!(rt; keeper.save(alloc, b"second").is_ok());
    assert!(rt;
        matches!(keeper.load(alloc), Ok(Some(bytes)) if bytes.as_slice() == b"second".as_slice())
    );
    // The file that was written and renamed is no longer there.
    assert!(rt; fs::open(&rt, "whole.new").is_err());
    Ok(())
}

#[test]
fn a_second_keeper_of_a_state_is_refused(rt: HostRuntime) -> Result<(), Fail> {
    let alloc = rt.alloc();
    fs::write(&rt, "locked", b"kept")?;
    let mut first = FileKeeper::new(&rt, alloc, "locked".to_string(alloc)?);
    assert!(rt; matches!(first.load(alloc), Ok(Some(_))));
    let mut second = FileKeeper::new(&rt, alloc, "locked".to_string(alloc)?);
    assert!(rt; matches!(second.load(alloc), Err(KeepError::Failed)));
    assert!(rt; matches!(second.save(alloc, b"other"), Err(KeepError::Failed)));
    Ok(())
}

#[test]
fn a_first_save_fails_where_a_state_came_in_between(rt: HostRuntime) -> Result<(), Fail> {
    let alloc = rt.alloc();
    let mut keeper = FileKeeper::new(&rt, alloc, "late".to_string(alloc)?);
    assert!(rt; matches!(keeper.load(alloc), Ok(None)));
    fs::write(&rt, "late", b"another's")?;
    assert!(rt; matches!(keeper.save(alloc, b"mine"), Err(KeepError::Failed)));
    assert_eq!(rt; fs::read(&rt, "late")?.as_slice(), b"another's".as_slice());
    Ok(())
}

#[test]
fn a_save_that_fails_leaves_the_old_state(rt: HostRuntime) -> Result<(), Fail> {
    let alloc = rt.alloc();
    let mut keeper = FileKeeper::new(&rt, alloc, "old".to_string(alloc)?);
    assert!(rt; keeper.save(alloc, b"the first").is_ok());
    // A folder stands where the next save would write.
    fs::create_dir(&rt, "old.new")?;
    assert!(rt; matches!(keeper.save(alloc, b"second"), Err(KeepError::Failed)));
    assert!(rt;
        matches!(keeper.load(alloc), Ok(Some(bytes)) if bytes.as_slice() == b"the first".as_slice())
    );
    Ok(())
}

#[test]
fn a_state_behind_a_link_is_replaced_and_the_link_stays(rt: HostRuntime) -> Result<(), Fail> {
    let alloc = rt.alloc();
    fs::write(&rt, "real", b"kept")?;
    symlink(&rt, "real", "link")?;
    let mut keeper = FileKeeper::new(&rt, alloc, "link".to_string(alloc)?);
    assert!(rt;
        matches!(keeper.load(alloc), Ok(Some(bytes)) if bytes.as_slice() == b"kept".as_slice())
    );
    assert!(rt; keeper.save(alloc, b"changed").is_ok());
    assert!(rt; fs::symlink_metadata(&rt, "link")?.is_symlink());
    assert_eq!(rt; fs::read(&rt, "real")?.as_slice(), b"changed".as_slice());
    // By the other name it is the same state, which is held.
    let mut other = FileKeeper::new(&rt, alloc, "real".to_string(alloc)?);
    assert!(rt; matches!(other.load(alloc), Err(KeepError::Failed)));
    Ok(())
}

#[test]
fn what_is_no_state_is_not_read(rt: HostRuntime) -> Result<(), Fail> {
    let alloc = rt.alloc();
    symlink(&rt, "nothing", "dangling")?;
    fs::create_dir(&rt, "folder")?;
    fs::File::create(&rt, "large")?.set_len(65_537)?;
    fs::File::create(&rt, "largest")?.set_len(65_536)?;
    for name in ["dangling", "folder", "large"] {
        let mut keeper = FileKeeper::new(&rt, alloc, name.to_string(alloc)?);
        assert!(rt; matches!(keeper.load(alloc), Err(KeepError::Failed)));
    }
    // Nor is it locked.
    assert!(rt; fs::open(&rt, "folder.lock").is_err() && fs::open(&rt, "large.lock").is_err());
    let mut keeper = FileKeeper::new(&rt, alloc, "largest".to_string(alloc)?);
    assert!(rt; matches!(keeper.load(alloc), Ok(Some(bytes)) if bytes.len() == 65_536));
    Ok(())
}

#[test]
fn a_left_over_goes_and_a_save_of_nothing_new_writes_nothing(rt: HostRuntime) -> Result<(), Fail> {
    let alloc = rt.alloc();
    fs::write(&rt, "same", b"kept")?;
    fs::write(&rt, "same.new", b"half a st")?;
    let mut keeper = FileKeeper::new(&rt, alloc, "same".to_string(alloc)?);
    assert!(rt; matches!(keeper.load(alloc), Ok(Some(_))));
    assert!(rt; fs::open(&rt, "same.new").is_err());
    // Were it written, the file would be there again.
    fs::remove_file(&rt, "same")?;
    assert!(rt; keeper.save(alloc, b"kept").is_ok());
    assert!(rt; fs::open(&rt, "same").is_err());
    assert!(rt; keeper.save(alloc, b"new").is_ok());
    fs::remove_file(&rt, "same")?;
    assert!(rt; keeper.save(alloc, b"new").is_ok());
    assert!(rt; fs::open(&rt, "same").is_err());
    Ok(())
}
