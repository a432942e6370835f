//! What a session needs of a domain.
ghost use Rattle.dory_wire.specs.Cut.{IsMessage};
ghost use Rattle.dory_domain.specs.Answered.{Steps, IsAnswered, Responds};

use dory_domain::DomainCore;
use dory_wire::WireFault;
use std::alloc::Global;

/// Answers one message after another. What waits for others holds its runtime, as a link or a port does, and its `impl` is
/// bounded by `Wait`.
pub trait Answers {
    /// What is seen of the domain. Others may change the domain between two answers, and not this.
    ghost Seen: { Type 0 };

    ghost seen: { Self → Seen };

    /// How the frame that answers a message leads from what was seen to what is seen.
    ghost steps: { Steps Seen };

    /// The frame that answers a message, by one step.
    fn answer(&mut self, alloc: Global, message: &[u8]) -> Result<Vec<u8>, WireFault>
        requires { IsMessage message.now }
        ensures { Responds steps (seen self.old) message.now result (seen self.new) };
}

impl Answers for DomainCore {
    ghost use Rattle.std.specs.Prelude.{List};
    ghost use Rattle.dory_domain.specs.Held.{Held};

    ghost Seen = { List Held };

    ghost seen = { λ core. core.folders };

    ghost steps = { IsAnswered };

    fn answer(&mut self, alloc: Global, message: &[u8]) -> Result<Vec<u8>, WireFault> {
        DomainCore::answer(self, alloc, message)
    }
}
