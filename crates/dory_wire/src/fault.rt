//! Why bytes are no message: the first fault from the left, and where it is.
ghost use Rattle.std.specs.Prelude.{◌≡◌, ◌==◌, Ok, Err, if◌then◌else◌, length};
ghost use Rattle.dory_fields.specs.Reading.{place};
ghost use Rattle.dory_wire.specs.declared.fault.WireFault.TheVariants.{Trailing};
ghost use Rattle.dory_wire.specs.Reading.{fault_of};

use dory_fields::{FieldFault, Reader};

/// The first fault from the left. Places count the bytes of the message, its kind at 0.
#[derive(Clone, Copy, Debug, PartialEq, Eq)]
pub enum WireFault {
    /// The first byte is no kind of this direction.
    Kind { b: u8 },
    /// The field that begins at this byte is cut short or out of range.
    Body { at: usize },
    /// Bytes follow the last field, from this one on.
    Trailing { at: usize },
    NoMemory,
}

impl From<FieldFault> for WireFault {
    ghost from_gives = { λ fault e. e ≡ fault_of fault };

    fn from(fault: FieldFault) -> WireFault {
        match fault {
            FieldFault::CutShort { at } | FieldFault::OutOfRange { at } => WireFault::Body { at },
            FieldFault::NoMemory => WireFault::NoMemory,
        }
    }
}

/// That no byte follows the last field.
pub fn nothing_after(reader: &Reader<'_>) -> Result<(), WireFault>
    ensures { result ≡ (if length reader.now.rest == 0 then Ok tt else Err (Trailing (place reader.now.total reader.now.rest))) }
{
    if reader.is_empty() {
        Ok(())
    } else {
        Err(WireFault::Trailing { at: reader.place() })
    }
}
