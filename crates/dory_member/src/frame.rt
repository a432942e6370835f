//! A frame as it is sent or as it came, which contracts see as a list of bytes.
ghost use Rattle.std.specs.Prelude.{◌≡◌, IfOk};

use dory_base::NoMemory;
use std::alloc::Global;
use std::marker::Model;

/// The bytes of a frame.
#[derive(Debug, Drop)]
pub struct Frame {
    bytes: Vec<u8>,
}

impl Model for Frame {
    ghost use Rattle.std.specs.Prelude.{List, ℕ};

    ghost Value = { List ℕ };

    ghost view = { λ a. a.bytes.items };
}

impl Frame {
    ghost use Rattle.std.specs.Prelude.{[]};

    pub fn of(bytes: Vec<u8>) -> Frame
        ensures { result ≡ bytes.items }
    {
        Frame { bytes }
    }

    /// No bytes.
    pub fn empty(alloc: Global) -> Frame
        ensures { result ≡ [] }
    {
        Frame {
            bytes: Vec::new(alloc),
        }
    }

    /// A copy of these bytes.
    pub fn copied(alloc: Global, bytes: &[u8]) -> Result<Frame, NoMemory>
        ensures { IfOk result (λ frame. frame ≡ bytes.now) }
    {
        let bytes = bytes.to_vec(alloc)?;
        Ok(Frame { bytes })
    }

    pub fn bytes(&self) -> &[u8]
        ensures { result.now ≡ self.now }
    {
        &self.bytes
    }
}
