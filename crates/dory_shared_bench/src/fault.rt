//! Why the program ends before its work is done.

use dory_base::NoMemory;
use std::alloc::{AllocError, AllocFailed};
use std::fmt;

/// What stood in the way.
#[derive(Clone, Copy)]
pub enum Fault {
    /// The words ask for nothing that the program does.
    Words,
    /// A call gave another answer than its work is made for.
    Unexpected,
    /// The domain didn't open.
    Closed,
    /// The clock couldn't be read.
    Clock,
    Output,
    NoMemory,
}

impl Fault {
    /// The program's exit status.
    pub fn status(self) -> u8 {
        match self {
            Fault::Words => 2,
            Fault::Closed => 5,
            Fault::Clock => 6,
            Fault::Output => 7,
            Fault::Unexpected => 8,
            Fault::NoMemory => 12,
        }
    }
}

impl fmt::Display for Fault {
    fn fmt<W: fmt::Write>(&self, f: &mut fmt::Formatter<W>) -> fmt::Result {
        let text = match self {
            Fault::Words => "usage words",
            Fault::Unexpected => "unexpected",
            Fault::Closed => "closed",
            Fault::Clock => "clock",
            Fault::Output => "outputfault",
            Fault::NoMemory => "nomemory",
        };
        write!(f, "{text}")
    }
}

impl From<NoMemory> for Fault {
    fn from(_error: NoMemory) -> Fault {
        Fault::NoMemory
    }
}

impl From<AllocError> for Fault {
    fn from(_error: AllocError) -> Fault {
        Fault::NoMemory
    }
}

impl<T: Drop> From<AllocFailed<T>> for Fault {
    fn from(_error: AllocFailed<T>) -> Fault {
        Fault::NoMemory
    }
}
