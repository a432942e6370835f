//! A file that its owner alone may read, the lock beside it, and its replacement as a whole.

use std::alloc::Global;
use std::fs::{File, OpenOptions};
use std::io::Write;
use std::os::unix::fs::OpenOptionsExt;
use std::path::Path;
use std::rt::Files;
use std::{fs, io};

/// Who may read such a file: what a member keeps has the folder's master key in it.
const OWNER_ALONE: u32 = 0o600;

/// Opens a file for writing, which its owner alone may read. It is made where it isn't there, or has to be new.
pub fn open_own<R: Files<File = File>>(rt: &R, path: &str, new: bool) -> io::Result<File> {
    OpenOptions::new()
        .write(true)
        .create(true)
        .create_new(new)
        .mode(OWNER_ALONE)
        .open(rt, path)
}

/// Holds the lock of a path, the file `PATH.lock`, or fails where another holds it.
pub fn held_lock<R: Files<File = File>>(rt: &R, alloc: Global, path: &str) -> io::Result<File> {
    let path = format!(in alloc; "{path}.lock")?;
    let file = open_own(rt, path.as_str(), false)?;
    file.try_lock()?;
    Ok(file)
}

/// Writes a whole new file, and waits until the disk has it.
fn write_synced<R: Files<File = File>>(rt: &R, path: &str, bytes: &[u8]) -> io::Result<()> {
    let mut file = open_own(rt, path, true)?;
    file.write_all(bytes)?;
    file.sync_all()
}

/// Waits until the disk has the names of the folder in which this path stands.
fn sync_folder<R: Files<File = File>>(rt: &R, path: &str) -> io::Result<()> {
    let folder = match Path::new(path).parent() {
        Some(parent) if !parent.as_str().is_empty() => parent,
        _ => Path::new("."),
    };
    fs::open(rt, folder)?.sync_all()
}

/// Puts these bytes in place of the file, by way of `temporary`, whose left-over of a run that broke off goes.
pub fn replace<R: Files<File = File>>(
    rt: &R,
    path: &str,
    temporary: &str,
    bytes: &[u8],
) -> io::Result<()> {
    let _ = fs::remove_file(rt, temporary);
    write_synced(rt, temporary, bytes)?;
    fs::rename(rt, temporary, path)?;
    sync_folder(rt, path)
}
