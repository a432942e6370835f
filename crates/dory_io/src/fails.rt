//! Calls that are to fail, for the forms in memory.
ghost use Rattle.std.specs.Prelude.{◌≡◌, ⊤, false, IsTrue};
ghost use Rattle.dory_io.specs.Causes.{HasCause, one_more, is_listed, is_next_listed, after_call};

/// Counts the calls of an object, of which those on a list are to fail, and its faults.
#[derive(Debug, Drop)]
pub struct Fails {
    pub calls: u64,
    pub listed: Vec<u64>,
    pub faults: u64,
}

impl Fails {
    /// The listed calls, counted from 1, are to fail.
    pub fn new(listed: Vec<u64>) -> Fails
        ensures { result ≡ record { calls = 0; listed = listed; faults = 0 } }
    {
        Fails {
            calls: 0,
            listed,
            faults: 0,
        }
    }

    /// One more fault.
    pub fn count(&mut self)
        ensures faults { self.new ≡ record self.old { faults = one_more self.old.faults } }
        ensures cause { HasCause self.old.faults self.new.faults ⊤ }
    {
        self.faults = self.faults.saturating_add(1);
    }

    /// Counts a call, and says whether it is to fail. The fault is then still to be counted.
    pub fn count_call(&mut self) -> bool
        ensures value { result ≡ is_next_listed self.old }
        ensures calls { self.new ≡ record self.old { calls = one_more self.old.calls } }
    {
        self.calls = self.calls.saturating_add(1);
        self.listed.contains(&self.calls)
    }

    /// Counts a call, and says whether it is to fail, which counts a fault.
    pub fn call(&mut self) -> bool
        ensures value { result ≡ is_listed self.old.listed.items (one_more self.old.calls) }
        ensures calls { self.new.calls ≡ one_more self.old.calls }
        ensures listed { self.new.listed ≡ self.old.listed }
        ensures counts { self.new ≡ after_call self.old }
        ensures cause { HasCause self.old.faults self.new.faults (IsTrue result) }
        ensures only { result ≡ false → self.new.faults ≡ self.old.faults }
    {
        let listed = self.count_call();
        if listed {
            self.count();
        }
        listed
    }
}
