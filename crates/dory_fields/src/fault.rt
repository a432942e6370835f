//! Why bytes are no such field.
ghost use Rattle.std.specs.Prelude.{◌≡◌};
ghost use Rattle.dory_fields.specs.declared.fault.FieldFault.TheVariants.{NoMemory};

use std::alloc::{AllocError, AllocFailed};

/// The first fault from the left. Places count from the first byte of all.
#[derive(Clone, Copy, Debug, PartialEq, Eq)]
pub enum FieldFault {
    /// The bytes end within the field that begins at this one.
    CutShort { at: usize },
    /// The value of the field that begins at this byte is out of range.
    OutOfRange { at: usize },
    NoMemory,
}

impl From<AllocError> for FieldFault {
    ghost from_gives = { λ _ e. e ≡ NoMemory };

    fn from(_error: AllocError) -> FieldFault {
        FieldFault::NoMemory
    }
}

impl<T: Drop> From<AllocFailed<T>> for FieldFault {
    ghost from_gives = { λ _ e. e ≡ NoMemory };

    fn from(_error: AllocFailed<T>) -> FieldFault {
        FieldFault::NoMemory
    }
}

impl From<dory_base::NoMemory> for FieldFault {
    ghost from_gives = { λ _ e. e ≡ NoMemory };

    fn from(_error: dory_base::NoMemory) -> FieldFault {
        FieldFault::NoMemory
    }
}
