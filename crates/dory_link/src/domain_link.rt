//! A link to a domain's core in memory, which answers as a domain that is honest.
ghost use Rattle.std.specs.Prelude.{◌≡◌, ◌⊎◌, [], Some, None, IfOk, IsErrOf, IsTrue, map};
ghost use Rattle.dory_io.specs.Causes.{HasCause, is_next_listed};
ghost use Rattle.dory_wire.specs.Reading.{request_in};
ghost use Rattle.dory_link.specs.InMemory.{after_ask, is_next_lost, is_reached, FailsWhere, FoldersAfter};
ghost use Rattle.dory_link.specs.Told.{IsAsked, frames};
ghost use Rattle.dory_link.specs.Folders.{told_folders};

use crate::answer::{AnswerError, answer};
use crate::exchange::{Exchange, fail, keep};
use crate::link::{Link, LinkError};
use dory_base::NoMemory;
use dory_domain::DomainCore;
use dory_io::Fails;
use std::alloc::Global;

/// Sends each frame through the core, tells the core's folders and keeps the exchanges. A frame that is no request is
/// a fault of the link, and so is an ask whose reply is lost.
#[derive(Drop)]
pub struct DomainLink {
    core: DomainCore,
    exchanges: Vec<Exchange>,
    fails: Fails,
    lost: Vec<u64>,
}

impl DomainLink {
    /// A link to this core, whose listed calls, counted from 1, are to fail.
    pub fn new(alloc: Global, core: DomainCore, fails: &[u64]) -> Result<DomainLink, NoMemory>
        ensures core { IfOk result (λ l. l.core ≡ core) }
        ensures exchanges { IfOk result (λ l. l.exchanges.items ≡ []) }
        ensures calls { IfOk result (λ l. l.fails.calls ≡ 0) }
        ensures listed { IfOk result (λ l. l.fails.listed.items ≡ fails.now) }
        ensures lost { IfOk result (λ l. l.lost.items ≡ []) }
        ensures faults { IfOk result (λ l. l.fails.faults ≡ 0) }
    {
        DomainLink::losing(alloc, core, fails, &[])
    }

    /// The same, where the replies of the calls that `lost` names are lost: the core answers such a call, and no reply
    /// comes. A call on both lists doesn't come to the core.
    pub fn losing(
        alloc: Global,
        core: DomainCore,
        fails: &[u64],
        lost: &[u64],
    ) -> Result<DomainLink, NoMemory>
        ensures core { IfOk result (λ l. l.core ≡ core) }
        ensures exchanges { IfOk result (λ l. l.exchanges.items ≡ []) }
        ensures calls { IfOk result (λ l. l.fails.calls ≡ 0) }
        ensures listed { IfOk result (λ l. l.fails.listed.items ≡ fails.now) }
        ensures lost { IfOk result (λ l. l.lost.items ≡ lost.now) }
        ensures faults { IfOk result (λ l. l.fails.faults ≡ 0) }
    {
        let fails = fails.to_vec(alloc)?;
        let lost = lost.to_vec(alloc)?;
        Ok(DomainLink {
            core,
            exchanges: Vec::new(alloc),
            fails: Fails::new(fails),
            lost,
        })
    }

    /// The exchanges, in order.
    pub fn exchanges(&self) -> &[Exchange]
        ensures { result.now ≡ self.now.exchanges.items }
    {
        &self.exchanges
    }
}

impl Link for DomainLink {
    ghost use Rattle.dory_link.specs.Told.{told_exchange};

    ghost heard = { λ l. record {
      exchanges = Some (map told_exchange l.exchanges.items);
      folders = Some (told_folders l.core.folders);
    } };

    ghost faults = { λ l. l.fails.faults };

    fn ask(&mut self, alloc: Global, request: &[u8]) -> Result<Vec<u8>, LinkError>
        ensures asked { IsAsked (record { exchanges = Some (map told_exchange self.old.exchanges.items); folders = Some (told_folders self.old.core.folders) }) (record { exchanges = Some (map told_exchange self.new.exchanges.items); folders = Some (told_folders self.new.core.folders) }) request.now (frames result) }
        ensures cause { HasCause self.old.fails.faults self.new.fails.faults (IsErrOf result LinkError.Failed) }
        // It fails where the ask is on one of the lists, or the frame is no request. Else the core's answer comes.
        ensures failed { FailsWhere (IsTrue (is_next_listed self.old.fails) ⊎ IsTrue (is_next_lost self.old.fails self.old.lost.items) ⊎ (request_in request.now ≡ None)) result }
        ensures answer { FoldersAfter (is_reached self.old.fails request.now) self.old.core.folders request.now result self.new.core.folders }
        ensures unreached { IsTrue (is_next_listed self.old.fails) → self.new.core.folders ≡ self.old.core.folders }
        ensures lost { self.new.lost ≡ self.old.lost }
        ensures counts { self.new.fails ≡ after_ask self.old.fails result }
        ensures memory { IsErrOf result LinkError.NoMemory → self.new.exchanges.items ≡ self.old.exchanges.items }
    {
        let listed = self.fails.count_call();
        let lost = self.lost.contains(&self.fails.calls);
        let asked = request.to_vec(alloc).map_err(|_| LinkError::NoMemory)?;
        if listed {
            return Err(fail(&mut self.exchanges, &mut self.fails, asked));
        }
        match answer(alloc, &mut self.core, request) {
            Ok(_) if lost => Err(fail(&mut self.exchanges, &mut self.fails, asked)),
            Ok((frame, copy)) => {
                keep(&mut self.exchanges, asked, Some(copy))?;
                Ok(frame)
            }
            Err(AnswerError::NoRequest) => Err(fail(&mut self.exchanges, &mut self.fails, asked)),
            Err(AnswerError::NoMemory) => Err(LinkError::NoMemory),
        }
    }
}
