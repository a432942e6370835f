//! One run of a piece of work: how large it is, the clock that it is timed by, and what it made.

use crate::checksum::Checksum;
use crate::fault::Fault;
use crate::names::shape;
use crate::work::Depth;
use dory_base::Shape;
use dory_kernel::RowKernel;
use std::alloc::Global;
use std::rt::Clock;
use std::time::Instant;

/// How large the work is.
#[derive(Clone, Copy)]
pub enum Scale {
    /// Small, and with a checksum of all that it makes.
    Small,
    /// As large as the table says, to be timed.
    Full,
}

/// The scale, the clock, the kernel of scans, and what was spent and made so far.
#[derive(Drop)]
pub struct Run<'a, R> {
    clock: &'a R,
    pub alloc: Global,
    pub kernel: &'a RowKernel,
    scale: Scale,
    /// How often the work is done.
    pub turns: u32,
    pub sum: Checksum,
    spent: u64,
}

impl<'a, R: Clock> Run<'a, R> {
    pub fn new(
        clock: &'a R,
        alloc: Global,
        kernel: &'a RowKernel,
        scale: Scale,
        turns: u32,
    ) -> Run<'a, R> {
        Run {
            clock,
            alloc,
            kernel,
            scale,
            turns,
            sum: Checksum::new(matches!(scale, Scale::Small)),
            spent: 0,
        }
    }

    pub fn is_full(&self) -> bool {
        matches!(self.scale, Scale::Full)
    }

    /// Wide rows where the work is timed, and narrow ones else.
    pub fn shape(&self) -> Shape {
        shape(match self.scale {
            Scale::Small => Depth::Eight,
            Scale::Full => Depth::Eleven,
        })
    }

    /// The nanoseconds between the starts and the stops.
    pub fn spent(&self) -> u64 {
        self.spent
    }

    pub fn start(&self) -> Result<Instant, Fault> {
        Instant::now(self.clock).map_err(|_| Fault::Clock)
    }

    pub fn stop(&mut self, start: Instant) -> Result<(), Fault> {
        let Ok(time) = start.elapsed(self.clock) else {
            return Err(Fault::Clock);
        };
        let seconds = time.as_secs().saturating_mul(1_000_000_000);
        let spent = seconds.saturating_add(u64::from(time.subsec_nanos()));
        self.spent = self.spent.saturating_add(spent);
        Ok(())
    }
}
