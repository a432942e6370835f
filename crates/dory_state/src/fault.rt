//! Why bytes are no kept state.
ghost use Rattle.std.specs.Prelude.{◌≡◌, Some};
ghost use Rattle.dory_state.specs.Texts.{state_fault_text};
ghost use Rattle.dory_state.specs.declared.fault.StateFault.TheVariants.{NoMemory};

use std::alloc::{AllocError, AllocFailed};
use std::fmt;

/// The first thing that is wrong with the bytes. Places count from the first byte.
#[derive(Clone, Copy, Debug, PartialEq, Eq)]
pub enum StateFault {
    /// The first eight bytes are those of neither form.
    Header,
    /// The bytes, so many in all, end in a field, or go on after the last one.
    Length { got: usize },
    /// The field that begins at this byte is out of range.
    Field { at: usize },
    NoMemory,
}

impl From<AllocError> for StateFault {
    ghost from_gives = { λ _ e. e ≡ NoMemory };

    fn from(_error: AllocError) -> StateFault {
        StateFault::NoMemory
    }
}

impl<T: Drop> From<AllocFailed<T>> for StateFault {
    ghost from_gives = { λ _ e. e ≡ NoMemory };

    fn from(_error: AllocFailed<T>) -> StateFault {
        StateFault::NoMemory
    }
}

impl From<dory_base::NoMemory> for StateFault {
    ghost from_gives = { λ _ e. e ≡ NoMemory };

    fn from(_error: dory_base::NoMemory) -> StateFault {
        StateFault::NoMemory
    }
}

impl fmt::Display for StateFault {
    ghost output = { λ fault. Some (state_fault_text fault) };

    fn fmt<W: fmt::Write>(&self, f: &mut fmt::Formatter<W>) -> fmt::Result {
        match self {
            StateFault::Header => write!(f, "header"),
            StateFault::Length { got } => write!(f, "length {got}"),
            StateFault::Field { at } => write!(f, "field {at}"),
            StateFault::NoMemory => write!(f, "nomemory"),
        }
    }
}
