//! Where bytes come from.
ghost use Rattle.std.specs.Prelude.{◌≡◌, ◌≤◌, ◌<◌, ◌+◌, ◌-◌, ◌↔◌, Option, Some, List, ℕ, IfOk, IsErr, IsTrue, length, drop, take, min};
ghost use Rattle.dory_io.specs.Causes.{HasCause, Gave, is_next_listed, after_call};
ghost use Rattle.dory_io.specs.Bytes.{Reads};

use crate::fails::Fails;
use dory_base::Failed;

pub trait Source {
    /// The bytes left, where it tells them.
    ghost left: { Self → Option (List ℕ) };

    /// How many bytes it has given, up to the last u64.
    ghost given: { Self → ℕ };

    ghost faults: { Self → ℕ };

    fn read(&mut self, into: &mut [u8]) -> Result<usize, Failed>
        ensures within { IfOk result (λ n. n ≤ length into.new) }
        ensures bytes { Reads (left self.old) (left self.new) (length into.old) result into.new }
        ensures given { Gave (given self.old) (given self.new) result }
        ensures cause { HasCause (faults self.old) (faults self.new) (IsErr result) };
}

#[derive(Debug, Drop)]
pub struct VecSource {
    bytes: Vec<u8>,
    at: usize,
    given: u64,
    fails: Fails,
    ghost within: { at ≤ length bytes.items },
}

impl VecSource {
    /// The source of these bytes, whose listed calls are to fail.
    pub fn new(bytes: Vec<u8>, fails: Vec<u64>) -> VecSource
        ensures bytes { (result.bytes ≡ bytes) × (result.at ≡ 0) × (result.given ≡ 0) }
        ensures fails { result.fails ≡ record { calls = 0; listed = fails; faults = 0 } }
    {
        VecSource {
            bytes,
            at: 0,
            given: 0,
            fails: Fails::new(fails),
        }
    }
}

impl Source for VecSource {
    ghost left = { λ s. Some (drop s.at s.bytes.items) };

    ghost given = { λ s. s.given };

    ghost faults = { λ s. s.fails.faults };

    fn read(&mut self, into: &mut [u8]) -> Result<usize, Failed>
        ensures within { IfOk result (λ n. n ≤ length into.new) }
        ensures bytes { Reads (Some (drop self.old.at self.old.bytes.items)) (Some (drop self.new.at self.new.bytes.items)) (length into.old) result into.new }
        ensures given { Gave self.old.given self.new.given result }
        ensures cause { HasCause self.old.fails.faults self.new.fails.faults (IsErr result) }
        ensures listed { IsErr result ↔ IsTrue (is_next_listed self.old.fails) }
        ensures counts { self.new.fails ≡ after_call self.old.fails }
        ensures fills { IfOk result (λ n. n ≡ min (length self.old.bytes.items - self.old.at) (length into.old)) }
        // It goes on by what it gave, the rest of the room stays, and a failed read changes nothing but the counts of calls.
        ensures goes { IfOk result (λ n. (self.new.at ≡ self.old.at + n) × (drop n into.new ≡ drop n into.old)) }
        ensures stays { IsErr result → (self.new.at ≡ self.old.at) × (into.new ≡ into.old) }
        ensures same { self.new.bytes ≡ self.old.bytes }
    {
        if self.fails.call() {
            return Err(Failed);
        }
        let rest = self.bytes.len() - self.at;
        let n = if rest < into.len() { rest } else { into.len() };
        into[..n].copy_from_slice(&self.bytes[self.at..self.at + n]);
        self.at += n;
        self.given = self.given.saturating_add(n as u64);
        Ok(n)
    }
}
