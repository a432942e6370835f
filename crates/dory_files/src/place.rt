//! Where a state's file is.

use std::alloc::Global;
use std::fs::{File, Metadata};
use std::io::{Error, ErrorKind};
use std::rt::Files;
use std::{fs, io};

/// The most bytes that are read as a state, which has far fewer.
const LIMIT: u64 = 65_536;

/// What stands at a path.
#[derive(Drop)]
pub enum Place {
    /// Nothing, not even a link.
    Empty,
    /// A file, at this path without links.
    Found(String),
}

/// What stands at a path, links followed. A link to nothing is an error, since a file that is put in its place would take
/// the link away, and so is what is no regular file or has more than 65,536 bytes.
pub fn place_of<R: Files<File = File>>(rt: &R, alloc: Global, path: &str) -> io::Result<Place> {
    match fs::symlink_metadata(rt, path) {
        Ok(_) => {}
        Err(e) if e.kind() == ErrorKind::NotFound => return Ok(Place::Empty),
        Err(e) => return Err(e),
    }
    let found = fs::canonicalize(&(rt, alloc), path)?.into_string();
    fits(&fs::metadata(rt, found.as_str())?)?;
    Ok(Place::Found(found))
}

/// That what was found is a regular file, and no larger than what is read as a state.
fn fits(found: &Metadata) -> io::Result<()> {
    if found.is_file() && found.len() <= LIMIT {
        Ok(())
    } else {
        Err(Error::from(ErrorKind::InvalidData))
    }
}

/// The bytes of a state's file, or that there is none.
pub fn state_bytes<R: Files<File = File>>(
    rt: &R,
    alloc: Global,
    path: &str,
) -> io::Result<Option<Vec<u8>>> {
    let found = match fs::metadata(rt, path) {
        Ok(found) => found,
        Err(e) if e.kind() == ErrorKind::NotFound => return Ok(None),
        Err(e) => return Err(e),
    };
    fits(&found)?;
    Ok(Some(fs::read(&(rt, alloc), path)?))
}
