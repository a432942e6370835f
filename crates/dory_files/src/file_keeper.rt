//! A file as a keeper.
ghost use Rattle.std.specs.Prelude.{◌≡◌, None};

use crate::own::{held_lock, replace};
use crate::place::{Place, place_of, state_bytes};
use dory_io::{Fails, KeepError, Keeper};
use std::alloc::Global;
use std::fs::File;
use std::io::{Error, ErrorKind};
use std::rt::Files;
use std::{fs, io};

/// Keeps a state in a file. A save writes the file `PATH.new` whole, waits until the disk has it and renames it to the
/// path, so that the path always names a whole state; where the path is a link, that is the path of the file behind it. A
/// lock on the file `PATH.lock` is held from the first load on that finds a state, or else from the first save on, without
/// which both fail, so that two runs at once don't lose an update. A save of the bytes that the file has from this keeper
/// writes nothing. It tells nothing, and counts its failures.
#[derive(Drop)]
pub struct FileKeeper<'a, R> {
    rt: &'a R,
    /// Where it is looked for, and once it is locked the path behind all links.
    path: String,
    lock: Option<File>,
    /// What the file has, where this keeper read or wrote it.
    last: Option<Vec<u8>>,
    fails: Fails,
}

impl<'a, R: Files<File = File>> FileKeeper<'a, R> {
    /// A keeper in the file of this path, which has not failed.
    pub fn new(rt: &'a R, alloc: Global, path: String) -> FileKeeper<'a, R>
        ensures { result.fails.faults ≡ 0 }
    {
        FileKeeper {
            rt,
            path,
            lock: None,
            last: None,
            fails: Fails::new(Vec::new(alloc)),
        }
    }

    /// Holds the lock of this path, and removes what a save that broke off has left.
    fn hold(&mut self, alloc: Global, path: String) -> io::Result<()>
        ensures { self.new.fails ≡ self.old.fails }
    {
        let lock = held_lock(self.rt, alloc, path.as_str())?;
        let temporary = temporary_of(alloc, path.as_str())?;
        let _ = fs::remove_file(self.rt, temporary.as_str());
        self.path = path;
        self.lock = Some(lock);
        Ok(())
    }

    /// The bytes of the file, once its lock is held; nothing is locked where there is none.
    fn loaded(&mut self, alloc: Global) -> io::Result<Option<Vec<u8>>>
        ensures { self.new.fails ≡ self.old.fails }
    {
        if self.lock.is_none() {
            match place_of(self.rt, alloc, self.path.as_str())? {
                Place::Empty => return Ok(None),
                Place::Found(path) => self.hold(alloc, path)?,
            }
        }
        state_bytes(self.rt, alloc, self.path.as_str())
    }

    /// Holds the lock where none is held yet, and fails where a state has come in between.
    fn hold_new(&mut self, alloc: Global) -> io::Result<()>
        ensures { self.new.fails ≡ self.old.fails }
    {
        if self.lock.is_some() {
            return Ok(());
        }
        let path = self.path.as_str().to_string(alloc)?;
        self.hold(alloc, path)?;
        match place_of(self.rt, alloc, self.path.as_str())? {
            Place::Empty => Ok(()),
            Place::Found(_) => Err(Error::from(ErrorKind::AlreadyExists)),
        }
    }

    /// Puts the bytes in place of the file.
    fn saved(&mut self, alloc: Global, bytes: &[u8]) -> io::Result<()>
        ensures { self.new.fails ≡ self.old.fails }
    {
        self.hold_new(alloc)?;
        let temporary = temporary_of(alloc, self.path.as_str())?;
        match replace(self.rt, self.path.as_str(), temporary.as_str(), bytes) {
            Ok(()) => Ok(()),
            Err(e) => {
                let _ = fs::remove_file(self.rt, temporary.as_str());
                Err(e)
            }
        }
    }

    /// Whether the file has these bytes, by what this keeper last read or wrote.
    fn has(&self, bytes: &[u8]) -> bool {
        match &self.last {
            Some(last) => last.as_slice() == bytes,
            None => false,
        }
    }
}

/// The path of the file that is written before it takes another's place.
fn temporary_of(alloc: Global, path: &str) -> io::Result<String> {
    Ok(format!(in alloc; "{path}.new")?)
}

/// A copy of these bytes, where there is memory for one.
fn copy_of(alloc: Global, bytes: &[u8]) -> Option<Vec<u8>> {
    bytes.to_vec(alloc).ok()
}

impl<'a, R: Files<File = File>> Keeper for FileKeeper<'a, R> {
    ghost kept = { λ _. None };

    ghost faults = { λ k. k.fails.faults };

    fn load(&mut self, alloc: Global) -> Result<Option<Vec<u8>>, KeepError> {
        match self.loaded(alloc) {
            Ok(Some(bytes)) => {
                self.last = copy_of(alloc, &bytes);
                Ok(Some(bytes))
            }
            Ok(None) => Ok(None),
            Err(e) if e.kind() == ErrorKind::OutOfMemory => Err(KeepError::NoMemory),
            Err(_) => {
                self.fails.count();
                Err(KeepError::Failed)
            }
        }
    }

    fn save(&mut self, alloc: Global, bytes: &[u8]) -> Result<(), KeepError> {
        if self.has(bytes) {
            return Ok(());
        }
        self.last = None;
        match self.saved(alloc, bytes) {
            Ok(()) => {
                self.last = copy_of(alloc, bytes);
                Ok(())
            }
            Err(e) if e.kind() == ErrorKind::OutOfMemory => Err(KeepError::NoMemory),
            Err(_) => {
                self.fails.count();
                Err(KeepError::Failed)
            }
        }
    }
}
