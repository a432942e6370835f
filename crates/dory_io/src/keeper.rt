//! Where a state is kept between two commands.
ghost use Rattle.std.specs.Prelude.{◌≡◌, ◌↔◌, Option, Some, List, ℕ, IfOk, IsErr, IsErrOf, IsTrue, option_map};
ghost use Rattle.dory_io.specs.Causes.{HasCause, is_next_listed, after_call};
ghost use Rattle.dory_io.specs.Bytes.{Tells, Stays, Saves};

use crate::fails::Fails;
use std::alloc::Global;

#[derive(Clone, Copy, Debug, PartialEq, Eq)]
pub enum KeepError {
    Failed,
    NoMemory,
}

pub trait Keeper {
    /// The bytes that are kept, or that none are, where it tells them.
    ghost kept: { Self → Option (Option (List ℕ)) };

    ghost faults: { Self → ℕ };

    fn load(&mut self, alloc: Global) -> Result<Option<Vec<u8>>, KeepError>
        ensures bytes { IfOk result (λ loaded. Tells (kept self.old) (option_map (λ bytes. bytes.items) loaded)) }
        ensures same { Stays (kept self.old) (kept self.new) }
        ensures cause { HasCause (faults self.old) (faults self.new) (IsErrOf result KeepError.Failed) };

    fn save(&mut self, alloc: Global, bytes: &[u8]) -> Result<(), KeepError>
        ensures bytes { Saves (kept self.old) (kept self.new) bytes.now result }
        ensures cause { HasCause (faults self.old) (faults self.new) (IsErrOf result KeepError.Failed) };
}

#[derive(Debug, Drop)]
pub struct MemKeeper {
    kept: Option<Vec<u8>>,
    fails: Fails,
}

impl MemKeeper {
    /// The keeper of these bytes or of none, whose listed calls are to fail.
    pub fn new(kept: Option<Vec<u8>>, fails: Vec<u64>) -> MemKeeper
        ensures { result ≡ record { kept = kept; fails = record { calls = 0; listed = fails; faults = 0 } } }
    {
        MemKeeper {
            kept,
            fails: Fails::new(fails),
        }
    }
}

impl Keeper for MemKeeper {
    ghost kept = { λ k. Some (option_map (λ bytes. bytes.items) k.kept) };

    ghost faults = { λ k. k.fails.faults };

    fn load(&mut self, alloc: Global) -> Result<Option<Vec<u8>>, KeepError>
        ensures bytes { IfOk result (λ loaded. option_map (λ bytes. bytes.items) self.old.kept ≡ option_map (λ bytes. bytes.items) loaded) }
        ensures same { self.new.kept ≡ self.old.kept }
        ensures cause { HasCause self.old.fails.faults self.new.fails.faults (IsErrOf result KeepError.Failed) }
        ensures listed { IsErrOf result KeepError.Failed ↔ IsTrue (is_next_listed self.old.fails) }
        ensures counts { self.new.fails ≡ after_call self.old.fails }
    {
        if self.fails.call() {
            return Err(KeepError::Failed);
        }
        match &self.kept {
            None => Ok(None),
            Some(bytes) => match bytes.to_vec(alloc) {
                Ok(copy) => Ok(Some(copy)),
                Err(_) => Err(KeepError::NoMemory),
            },
        }
    }

    fn save(&mut self, alloc: Global, bytes: &[u8]) -> Result<(), KeepError>
        ensures bytes { Saves (Some (option_map (λ bytes. bytes.items) self.old.kept)) (Some (option_map (λ bytes. bytes.items) self.new.kept)) bytes.now result }
        ensures cause { HasCause self.old.fails.faults self.new.fails.faults (IsErrOf result KeepError.Failed) }
        ensures listed { IsErrOf result KeepError.Failed ↔ IsTrue (is_next_listed self.old.fails) }
        ensures old { IsErr result → self.new.kept ≡ self.old.kept }
        ensures counts { self.new.fails ≡ after_call self.old.fails }
    {
        if self.fails.call() {
            return Err(KeepError::Failed);
        }
        match bytes.to_vec(alloc) {
            Ok(copy) => {
                self.kept = Some(copy);
                Ok(())
            }
            Err(_) => Err(KeepError::NoMemory),
        }
    }
}
