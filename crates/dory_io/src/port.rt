//! Where connections come from.
ghost use Rattle.std.specs.Prelude.{◌≡◌, ◌∷◌, ◌↔◌, ◌⊎◌, List, [], ℕ, IfOk, IsErr, IsTrue, OnErr};
ghost use Rattle.dory_io.specs.Causes.{HasCause, one_more, is_next_listed, after_call};
ghost use Rattle.dory_io.specs.Given.{GaveOne};

use crate::fails::Fails;
use crate::sink::{Sink, VecSink};
use crate::source::{Source, VecSource};
use dory_base::Failed;
use std::collections::VecDeque;

/// Gives one connection after another, each with what comes of it and what goes to it.
pub trait Port: Send {
    type From: Source + Drop + Send;

    type To: Sink + Drop + Send;

    /// How many connections it has given, up to the last u64.
    ghost given: { Self → ℕ };

    ghost faults: { Self → ℕ };

    fn accept(&mut self) -> Result<(Self::From, Self::To), Failed>
        ensures given { GaveOne (given self.old) (given self.new) result }
        ensures cause { HasCause (faults self.old) (faults self.new) (IsErr result) };
}

/// A port of connections in memory, which it gives in turn.
#[derive(Drop)]
pub struct MemPort {
    pairs: VecDeque<(VecSource, VecSink)>,
    given: u64,
    fails: Fails,
}

impl MemPort {
    /// The port of these connections, whose listed calls are to fail.
    pub fn new(pairs: Vec<(VecSource, VecSink)>, fails: Vec<u64>) -> MemPort
        ensures pairs { (result.pairs.items ≡ pairs.items) × (result.given ≡ 0) }
        ensures fails { result.fails ≡ record { calls = 0; listed = fails; faults = 0 } }
    {
        MemPort {
            pairs: VecDeque::from(pairs),
            given: 0,
            fails: Fails::new(fails),
        }
    }
}

impl Port for MemPort {
    type From = VecSource;

    type To = VecSink;

    ghost given = { λ p. p.given };

    ghost faults = { λ p. p.fails.faults };

    fn accept(&mut self) -> Result<(VecSource, VecSink), Failed>
        ensures given { GaveOne self.old.given self.new.given result }
        ensures cause { HasCause self.old.fails.faults self.new.fails.faults (IsErr result) }
        ensures turn { IfOk result (λ pair. self.old.pairs.items ≡ pair ∷ self.new.pairs.items) }
        ensures same { IsErr result → self.new.pairs.items ≡ self.old.pairs.items }
        ensures listed { IsErr result ↔ (IsTrue (is_next_listed self.old.fails) ⊎ (self.old.pairs.items ≡ [])) }
        ensures counts { IfOk result (λ _. self.new.fails ≡ after_call self.old.fails) }
        ensures faults { IsErr result → self.new.fails.faults ≡ one_more self.old.fails.faults }
        ensures calls { (self.new.fails.calls ≡ one_more self.old.fails.calls) × (self.new.fails.listed ≡ self.old.fails.listed) }
    {
        if self.fails.call() {
            return Err(Failed);
        }
        match self.pairs.pop_front() {
            Some(pair) => {
                self.given = self.given.saturating_add(1);
                Ok(pair)
            }
            None => {
                self.fails.count();
                Err(Failed)
            }
        }
    }
}
