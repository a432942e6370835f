//! Frames written field by field, as a member and a domain send them.

use crate::fault::Fault;
use std::alloc::Global;

/// A frame that is being written.
#[derive(Drop)]
pub struct Frame {
    bytes: Vec<u8>,
}

impl Frame {
    /// Begins a message of this kind about an ask of member 0 with serial 2.
    pub fn begin(alloc: Global, kind: u8, step: u32) -> Result<Frame, Fault> {
        let mut frame = Frame {
            bytes: Vec::new(alloc),
        };
        frame.four(0)?;
        frame.byte(kind)?;
        frame.four(0)?;
        frame.eight(2)?;
        frame.four(step)?;
        Ok(frame)
    }

    pub fn byte(&mut self, byte: u8) -> Result<(), Fault> {
        self.bytes.push(byte)?;
        Ok(())
    }

    pub fn two(&mut self, number: u16) -> Result<(), Fault> {
        self.some(&number.to_be_bytes())
    }

    pub fn four(&mut self, number: u32) -> Result<(), Fault> {
        self.some(&number.to_be_bytes())
    }

    pub fn eight(&mut self, number: u64) -> Result<(), Fault> {
        self.some(&number.to_be_bytes())
    }

    pub fn some(&mut self, bytes: &[u8]) -> Result<(), Fault> {
        self.bytes.extend_from_slice(bytes)?;
        Ok(())
    }

    /// The id of an update of member 3.
    pub fn update(&mut self, serial: u64) -> Result<(), Fault> {
        self.four(3)?;
        self.eight(serial)
    }

    /// A version with as many updates, and a line for each: slot i has document i + 1 and update 3.(i + 1).
    pub fn lines(&mut self, count: u16) -> Result<(), Fault> {
        self.four(u32::from(count))?;
        self.two(count)?;
        for line in 0..count {
            self.two(line)?;
            self.four(u32::from(line) + 1)?;
            self.update(u64::from(line) + 1)?;
        }
        Ok(())
    }

    /// As many bytes, by a rule that repeats no sixteen of them soon.
    pub fn filling(&mut self, count: usize) -> Result<(), Fault> {
        let mut state = 1u32;
        for _ in 0..count {
            state = state.wrapping_mul(1_664_525).wrapping_add(1_013_904_223);
            self.byte((state >> 24) as u8)?;
        }
        Ok(())
    }

    /// The whole frame, with its length in front.
    pub fn end(self) -> Vec<u8> {
        let Frame { mut bytes } = self;
        let length = u32::try_from(bytes.len().saturating_sub(4)).unwrap_or(0);
        if bytes.len() >= 4 {
            bytes[..4].copy_from_slice(&length.to_be_bytes());
        }
        bytes
    }
}
