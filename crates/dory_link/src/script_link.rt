//! A link that gives scripted frames, whatever is asked: what a domain that isn't honest may do.
ghost use Rattle.std.specs.Prelude.{◌≡◌, ◌≤◌, ◌⊎◌, ◌+◌, [], Some, None, IfOk, IsErr, IsErrOf, IsTrue, map, length, option_map, slice_get};
ghost use Rattle.dory_io.specs.Causes.{HasCause, is_next_listed};
ghost use Rattle.dory_link.specs.InMemory.{after_ask, FailsWhere};
ghost use Rattle.dory_link.specs.Told.{IsAsked, frames};

use crate::exchange::{Exchange, fail, keep};
use crate::link::{Link, LinkError};
use dory_base::NoMemory;
use dory_io::Fails;
use std::alloc::Global;

/// Gives its replies in turn, tells no folders and keeps the exchanges. After its last reply each ask is a fault.
#[derive(Debug, Drop)]
pub struct ScriptLink {
    replies: Vec<Vec<u8>>,
    next: usize,
    exchanges: Vec<Exchange>,
    fails: Fails,
}

impl ScriptLink {
    /// A link with these replies, whose listed calls, counted from 1, are to fail.
    pub fn new(alloc: Global, replies: Vec<Vec<u8>>, fails: &[u64]) -> Result<ScriptLink, NoMemory>
        ensures replies { IfOk result (λ l. (l.replies.items ≡ replies.items) × (l.next ≡ 0)) }
        ensures exchanges { IfOk result (λ l. l.exchanges.items ≡ []) }
        ensures listed { IfOk result (λ l. l.fails.listed.items ≡ fails.now) }
        ensures faults { IfOk result (λ l. (l.fails.calls ≡ 0) × (l.fails.faults ≡ 0)) }
    {
        let fails = fails.to_vec(alloc)?;
        Ok(ScriptLink {
            replies,
            next: 0,
            exchanges: Vec::new(alloc),
            fails: Fails::new(fails),
        })
    }

    /// The exchanges, in order.
    pub fn exchanges(&self) -> &[Exchange]
        ensures { result.now ≡ self.now.exchanges.items }
    {
        &self.exchanges
    }
}

impl Link for ScriptLink {
    ghost use Rattle.dory_link.specs.Told.{told_exchange};

    ghost heard = { λ l. record {
      exchanges = Some (map told_exchange l.exchanges.items);
      folders = None;
    } };

    ghost faults = { λ l. l.fails.faults };

    fn ask(&mut self, alloc: Global, request: &[u8]) -> Result<Vec<u8>, LinkError>
        ensures asked { IsAsked (record { exchanges = Some (map told_exchange self.old.exchanges.items); folders = None }) (record { exchanges = Some (map told_exchange self.new.exchanges.items); folders = None }) request.now (frames result) }
        ensures cause { HasCause self.old.fails.faults self.new.fails.faults (IsErrOf result LinkError.Failed) }
        // It fails where the ask is listed, or no reply is left. Else the next reply comes, whatever was asked.
        ensures failed { FailsWhere (IsTrue (is_next_listed self.old.fails) ⊎ (length self.old.replies.items ≤ self.old.next)) result }
        ensures reply { IfOk result (λ frame. option_map (λ reply. reply.items) (slice_get self.old.replies.items self.old.next) ≡ Some frame.items) }
        ensures next { IfOk result (λ _. self.new.next ≡ self.old.next + 1) }
        ensures again { IsErr result → self.new.next ≡ self.old.next }
        ensures replies { self.new.replies ≡ self.old.replies }
        ensures counts { self.new.fails ≡ after_ask self.old.fails result }
        ensures memory { IsErrOf result LinkError.NoMemory → self.new.exchanges.items ≡ self.old.exchanges.items }
    {
        let listed = self.fails.count_call();
        let asked = request.to_vec(alloc).map_err(|_| LinkError::NoMemory)?;
        if listed {
            return Err(fail(&mut self.exchanges, &mut self.fails, asked));
        }
        let Some(reply) = self.replies.get(self.next) else {
            return Err(fail(&mut self.exchanges, &mut self.fails, asked));
        };
        let frame = reply
            .as_slice()
            .to_vec(alloc)
            .map_err(|_| LinkError::NoMemory)?;
        let copy = reply
            .as_slice()
            .to_vec(alloc)
            .map_err(|_| LinkError::NoMemory)?;
        keep(&mut self.exchanges, asked, Some(copy))?;
        self.next += 1;
        Ok(frame)
    }
}
