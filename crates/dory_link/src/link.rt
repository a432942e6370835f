//! A way to a domain, which may be honest or not.
ghost use Rattle.std.specs.Prelude.{◌≡◌, ℕ, IsErrOf};
ghost use Rattle.dory_io.specs.Causes.{HasCause};
ghost use Rattle.dory_link.specs.Told.{Heard, IsAsked, frames};

use std::alloc::Global;

#[derive(Clone, Copy, Debug, PartialEq, Eq)]
pub enum LinkError {
    Failed,
    NoMemory,
}

/// Carries one whole frame to a domain, and gives one frame as it came.
pub trait Link {
    /// What was asked and what came, and the domain's folders, each told at every moment or never.
    ghost heard: { Self → Heard };

    ghost faults: { Self → ℕ };

    /// A failed ask leaves its request without a reply. Where the folders are told, a reply to a request is what its
    /// folder answers at a history between those before and after the call, and histories only grow.
    fn ask(&mut self, alloc: Global, request: &[u8]) -> Result<Vec<u8>, LinkError>
        ensures asked { IsAsked (heard self.old) (heard self.new) request.now (frames result) }
        ensures cause { HasCause (faults self.old) (faults self.new) (IsErrOf result LinkError.Failed) };
}
