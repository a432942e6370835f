//! Calls, and the time that they took.

use crate::fault::Fault;
use std::rt::Clock;
use std::time::Instant;

/// How many calls there were, the nanoseconds of them all, and the version of which the last one spoke.
#[derive(Clone, Copy)]
pub struct Timed {
    pub calls: u32,
    pub spent: u64,
    pub last: u32,
}

/// The time now.
pub fn now<C: Clock>(clock: &C) -> Result<Instant, Fault> {
    Instant::now(clock).map_err(|_| Fault::Clock)
}

impl Timed {
    pub fn new() -> Timed {
        Timed {
            calls: 0,
            spent: 0,
            last: 0,
        }
    }

    /// Adds a call that began then and has just ended.
    pub fn add<C: Clock>(&mut self, clock: &C, start: Instant) -> Result<(), Fault> {
        let Ok(time) = start.elapsed(clock) else {
            return Err(Fault::Clock);
        };
        let seconds = time.as_secs().saturating_mul(1_000_000_000);
        let spent = seconds.saturating_add(u64::from(time.subsec_nanos()));
        self.spent = self.spent.saturating_add(spent);
        self.calls = self.calls.saturating_add(1);
        Ok(())
    }

    /// The time of a call, in tenths of a microsecond.
    pub fn tenths(&self) -> u64 {
        let each = self.spent.checked_div(u64::from(self.calls));
        each.unwrap_or(0) / 100
    }
}
