//! Whether as many threads can be made as lanes want. Where one can't, lanes would wait for others to end.
ghost use Rattle.std.specs.Prelude.{◌≡◌, ℕ, IfOk, IsErr, IsOk, IsTrue};
ghost use Rattle.dory_io.specs.Causes.{HasCause, is_next_listed};

use dory_io::{Failed, Fails};
use std::sync::Wait;
use std::sync::atomic::{AtomicBool, Ordering};
use std::thread;
use std::thread::Threads;

/// Tries threads before they are needed, and counts its failures.
pub trait ThreadMaker {
    /// How many it made at once, when it last made as many as it was asked for.
    ghost made: { Self → ℕ };

    ghost faults: { Self → ℕ };

    /// Makes so many threads, all at once, and lets them end.
    fn try_threads<R: Threads + Wait>(&mut self, rt: &R, many: u32) -> Result<(), Failed>
        ensures made { IfOk result (λ _. made self.new ≡ many) }
        ensures cause { HasCause (faults self.old) (faults self.new) (IsErr result) };
}

/// Waits until the flag is set.
fn wait_for(flag: &AtomicBool) {
    for _ in 0..u64::MAX {
        if flag.load(Ordering::SeqCst) {
            return;
        }
        thread::yield_now();
    }
}

/// Whether so many threads run at once beside this one. Each is made, and waits until all are.
fn all_start<R: Threads + Wait>(rt: &R, many: u32) -> bool
    ensures { many ≡ 0 → IsTrue result }
{
    if many == 0 {
        return true;
    }
    let tried = AtomicBool::new(false);
    let tried = &tried;
    thread::scope(thread::scope_env(), rt, move |scope| -> bool {
        let mut all = true;
        for _ in 0..many {
            all = scope.spawn(move || wait_for(tried)).is_ok() && all;
        }
        tried.store(true, Ordering::SeqCst);
        all
    })
}

/// Asks the system itself.
#[derive(Debug, Drop)]
pub struct SystemThreads {
    made: u32,
    faults: u64,
}

impl SystemThreads {
    pub fn new() -> SystemThreads
        ensures { result ≡ record { made = 0; faults = 0 } }
    {
        SystemThreads { made: 0, faults: 0 }
    }
}

impl ThreadMaker for SystemThreads {
    ghost made = { λ t. t.made };

    ghost faults = { λ t. t.faults };

    fn try_threads<R: Threads + Wait>(&mut self, rt: &R, many: u32) -> Result<(), Failed>
        ensures made { IfOk result (λ _. self.new.made ≡ many) }
        ensures cause { HasCause self.old.faults self.new.faults (IsErr result) }
        // Where none is wanted it is no fault that none can be made.
        ensures none { many ≡ 0 → IsOk result }
    {
        if all_start(rt, many) {
            self.made = many;
            Ok(())
        } else {
            self.faults = self.faults.saturating_add(1);
            Err(Failed)
        }
    }
}

/// Fails at the listed calls, counted from 1, and where the system does.
#[derive(Debug, Drop)]
pub struct FailingThreads {
    inner: SystemThreads,
    fails: Fails,
}

impl FailingThreads {
    /// Threads of the system, of which the listed calls are to fail.
    pub fn new(fails: Vec<u64>) -> FailingThreads
        ensures { result.fails ≡ record { calls = 0; listed = fails; faults = 0 } }
    {
        FailingThreads {
            inner: SystemThreads::new(),
            fails: Fails::new(fails),
        }
    }
}

impl ThreadMaker for FailingThreads {
    ghost made = { λ t. t.inner.made };

    ghost faults = { λ t. t.fails.faults };

    fn try_threads<R: Threads + Wait>(&mut self, rt: &R, many: u32) -> Result<(), Failed>
        ensures made { IfOk result (λ _. self.new.inner.made ≡ many) }
        ensures cause { HasCause self.old.fails.faults self.new.fails.faults (IsErr result) }
        ensures listed { IsTrue (is_next_listed self.old.fails) → IsErr result }
    {
        if self.fails.call() {
            return Err(Failed);
        }
        let made = self.inner.try_threads(rt, many);
        if made.is_err() {
            self.fails.count();
        }
        made
    }
}
