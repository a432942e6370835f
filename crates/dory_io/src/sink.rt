//! Where bytes go.
ghost use Rattle.std.specs.Prelude.{◌≡◌, ◌≤◌, ◌<◌, ◌+◌, ◌-◌, ◌↔◌, ◌⊎◌, Option, Some, List, [], ℕ, IfOk, IsErr, IsTrue, length, take, min, vec_len};
ghost use Rattle.dory_io.specs.Causes.{HasCause, one_more, is_next_listed, after_call};
ghost use Rattle.dory_io.specs.Bytes.{Writes, Takes};

use crate::fails::Fails;
use dory_base::{Failed, NoMemory};
use std::alloc::Global;

/// Takes bytes, some of a piece at a call.
pub trait Sink {
    /// The bytes written, where it tells them.
    ghost written: { Self → Option (List ℕ) };

    ghost faults: { Self → ℕ };

    fn write(&mut self, piece: &[u8]) -> Result<usize, Failed>
        ensures takes { Takes (length piece.now) result }
        ensures bytes { Writes (written self.old) (written self.new) piece.now result }
        ensures cause { HasCause (faults self.old) (faults self.new) (IsErr result) };
}

/// A sink of so many bytes in memory. It takes its room when it is made, and a write takes no memory.
#[derive(Debug, Drop)]
pub struct VecSink {
    room: Vec<u8>,
    len: usize,
    fails: Fails,
    ghost within: { len ≤ vec_len room },
}

impl VecSink {
    /// A sink that has room for so many bytes, and whose listed calls are to fail.
    pub fn new(alloc: Global, room: usize, fails: Vec<u64>) -> Result<VecSink, NoMemory>
        ensures room { IfOk result (λ s. (s.len ≡ 0) × (vec_len s.room ≡ room)) }
        ensures fails { IfOk result (λ s. s.fails ≡ record { calls = 0; listed = fails; faults = 0 }) }
    {
        let room = vec![in alloc; 0; room]?;
        Ok(VecSink {
            room,
            len: 0,
            fails: Fails::new(fails),
        })
    }

    /// The bytes written.
    pub fn bytes(&self) -> &[u8]
        ensures { result.now ≡ take self.now.len self.now.room.items }
    {
        &self.room[..self.len]
    }
}

impl Sink for VecSink {
    ghost written = { λ s. Some (take s.len s.room.items) };

    ghost faults = { λ s. s.fails.faults };

    fn write(&mut self, piece: &[u8]) -> Result<usize, Failed>
        ensures takes { Takes (length piece.now) result }
        ensures bytes { Writes (Some (take self.old.len self.old.room.items)) (Some (take self.new.len self.new.room.items)) piece.now result }
        ensures cause { HasCause self.old.fails.faults self.new.fails.faults (IsErr result) }
        ensures listed { IsErr result ↔ (IsTrue (is_next_listed self.old.fails) ⊎ ((0 < length piece.now) × (self.old.len ≡ vec_len self.old.room))) }
        ensures counts { IfOk result (λ _. self.new.fails ≡ after_call self.old.fails) }
        ensures faults { IsErr result → self.new.fails.faults ≡ one_more self.old.fails.faults }
        ensures calls { (self.new.fails.calls ≡ one_more self.old.fails.calls) × (self.new.fails.listed ≡ self.old.fails.listed) }
        ensures fills { IfOk result (λ n. n ≡ min (vec_len self.old.room - self.old.len) (length piece.now)) }
        ensures room { vec_len self.new.room ≡ vec_len self.old.room }
    {
        if self.fails.call() {
            return Err(Failed);
        }
        if piece.is_empty() {
            return Ok(0);
        }
        let rest = self.room.len() - self.len;
        if rest == 0 {
            self.fails.count();
            return Err(Failed);
        }
        let n = rest.min(piece.len());
        self.room[self.len..self.len + n].copy_from_slice(&piece[..n]);
        self.len += n;
        Ok(n)
    }
}
