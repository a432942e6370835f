//! What listens at an address, and makes ports of it.
ghost use Rattle.std.specs.Prelude.{◌≡◌, ◌∷◌, ◌↔◌, ◌⊎◌, ◌+◌, List, [], ℕ, Option, Some, IfOk, IsErr, IsTrue};
ghost use Rattle.dory_io.specs.Causes.{HasCause, one_more, is_next_listed, after_call};
ghost use Rattle.dory_io.specs.Given.{Binds};

use crate::address::Address;
use crate::fails::Fails;
use crate::port::{MemPort, Port};
use dory_base::Failed;
use std::collections::VecDeque;

/// Binds an address, answers the one that is bound, and makes ports at which its connections come.
pub trait Binder {
    type Door: Port + Drop;

    ghost use Rattle.dory_io.specs.declared.address.Address.{Address};

    /// The bound address, where it tells it.
    ghost bound: { Self → Option Address };

    ghost faults: { Self → ℕ };

    fn bind(&mut self, address: &Address) -> Result<Address, Failed>
        ensures bound { Binds address.now (bound self.old) (bound self.new) result }
        ensures cause { HasCause (faults self.old) (faults self.new) (IsErr result) };

    fn port(&mut self) -> Result<Self::Door, Failed>
        ensures same { bound self.new ≡ bound self.old }
        ensures cause { HasCause (faults self.old) (faults self.new) (IsErr result) };
}

/// A binder of ports in memory, which it gives in turn. It binds whatever address it is asked for.
#[derive(Drop)]
pub struct MemBinder {
    bound: Option<Address>,
    ports: VecDeque<MemPort>,
    fails: Fails,
}

impl MemBinder {
    /// The binder of these ports, whose listed calls are to fail.
    pub fn new(ports: Vec<MemPort>, fails: Vec<u64>) -> MemBinder
        ensures ports { (result.bound ≡ None) × (result.ports.items ≡ ports.items) }
        ensures fails { result.fails ≡ record { calls = 0; listed = fails; faults = 0 } }
    {
        MemBinder {
            bound: None,
            ports: VecDeque::from(ports),
            fails: Fails::new(fails),
        }
    }
}

impl Binder for MemBinder {
    type Door = MemPort;

    ghost bound = { λ b. b.bound };

    ghost faults = { λ b. b.fails.faults };

    fn bind(&mut self, address: &Address) -> Result<Address, Failed>
        ensures bound { Binds address.now self.old.bound self.new.bound result }
        ensures cause { HasCause self.old.fails.faults self.new.fails.faults (IsErr result) }
        ensures asked { IfOk result (λ bound. (bound ≡ address.now) × (self.new.bound ≡ Some bound)) }
        ensures listed { IsErr result ↔ IsTrue (is_next_listed self.old.fails) }
        ensures counts { self.new.fails ≡ after_call self.old.fails }
        ensures ports { self.new.ports.items ≡ self.old.ports.items }
    {
        if self.fails.call() {
            return Err(Failed);
        }
        self.bound = Some(*address);
        Ok(*address)
    }

    fn port(&mut self) -> Result<MemPort, Failed>
        ensures same { self.new.bound ≡ self.old.bound }
        ensures cause { HasCause self.old.fails.faults self.new.fails.faults (IsErr result) }
        ensures turn { IfOk result (λ port. self.old.ports.items ≡ port ∷ self.new.ports.items) }
        ensures left { IsErr result → self.new.ports.items ≡ self.old.ports.items }
        ensures listed { IsErr result ↔ (IsTrue (is_next_listed self.old.fails) ⊎ (self.old.ports.items ≡ [])) }
        ensures counts { IfOk result (λ _. self.new.fails ≡ after_call self.old.fails) }
        ensures faults { IsErr result → self.new.fails.faults ≡ one_more self.old.fails.faults }
        ensures calls { (self.new.fails.calls ≡ one_more self.old.fails.calls) × (self.new.fails.listed ≡ self.old.fails.listed) }
    {
        if self.fails.call() {
            return Err(Failed);
        }
        match self.ports.pop_front() {
            Some(port) => Ok(port),
            None => {
                self.fails.count();
                Err(Failed)
            }
        }
    }
}
