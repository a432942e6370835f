//! The names of folders, documents, members, updates and asks.

use std::alloc::{AllocError, AllocFailed};

/// Memory ran out: the one answer that may come at any call which allocates.
#[derive(Clone, Copy, Debug, PartialEq, Eq)]
pub struct NoMemory;

impl From<AllocError> for NoMemory {
    fn from(_error: AllocError) -> NoMemory {
        NoMemory
    }
}

impl<T: Drop> From<AllocFailed<T>> for NoMemory {
    fn from(_error: AllocFailed<T>) -> NoMemory {
        NoMemory
    }
}

/// Something outside failed, which its count of faults shows.
#[derive(Clone, Copy, Debug, PartialEq, Eq)]
pub struct Failed;

#[derive(Clone, Copy, Debug, PartialEq, Eq)]
pub struct FolderId(pub u32);

#[derive(Clone, Copy, Debug, PartialEq, Eq)]
pub struct DocId(pub u32);

/// A member of a folder, from 0 to 63.
#[derive(Clone, Copy, Debug, PartialEq, Eq)]
pub struct MemberId(pub u32);

/// An update: its member, and a serial from 1 that the member never uses again.
#[derive(Clone, Copy, Debug, PartialEq, Eq)]
pub struct UpdateId {
    pub member: MemberId,
    pub serial: u64,
}

/// One ask of a command: the member, the serial that the command drew, and the step within it.
#[derive(Clone, Copy, Debug, PartialEq, Eq)]
pub struct AskId {
    pub member: MemberId,
    pub serial: u64,
    pub step: u32,
}

/// One of the two domains.
#[derive(Clone, Copy, Debug, PartialEq, Eq)]
pub enum Side {
    Lead,
    Follow,
}
