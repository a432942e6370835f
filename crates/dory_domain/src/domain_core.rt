//! The core of a domain: what it answers, and how an answer leaves it.
ghost use Rattle.std.specs.Prelude.{◌≡◌, length, map, Some, IfOk, option_map};
ghost use Rattle.dory_wire.specs.Cut.{IsMessage};
ghost use Rattle.dory_wire.specs.Spelling.{IsRequest, IsReply};
ghost use Rattle.dory_domain.specs.Answered.{IsAnswered, Responds};
ghost use Rattle.dory_domain.specs.Config.{config_fault_of, IsRefusedBy};
ghost use Rattle.dory_domain.specs.Held.{Held, IsHeld, Serves, KeptIfRefused, opened, folder_in};

use crate::config::{FolderConfig, OpenFault, config_fault};
use crate::folders::Folders;
use dory_base::{FolderId, NoMemory, Side};
use dory_kernel::RowKernel;
use dory_wire::{Reply, Request, WireFault, decode_request, encode_reply};
use std::alloc::Global;

/// A domain's folders, and the kernel by which it scans them. It does nothing but answer requests.
#[derive(Drop)]
pub struct DomainCore {
    pub folders: Folders,
    kernel: RowKernel,
}

impl DomainCore {
    /// A domain of this role with these folders, each with no update.
    pub fn new(
        alloc: Global,
        role: Side,
        folders: &[FolderConfig],
        kernel: RowKernel,
    ) -> Result<DomainCore, OpenFault>
        ensures fault { IsRefusedBy (config_fault_of folders.now) result }
        ensures empty { IfOk result (λ core. core.folders ≡ map (opened role) folders.now) }
    {
        match config_fault(folders) {
            Some(fault) => Err(OpenFault::BadConfig(fault)),
            None => match Folders::new(alloc, role, folders) {
                Ok(folders) => Ok(DomainCore { folders, kernel }),
                Err(NoMemory) => Err(OpenFault::NoMemory),
            },
        }
    }

    /// The reply to a request, by a step of its folder.
    pub fn step(&mut self, alloc: Global, request: &Request) -> Reply
        requires { IsRequest request.now }
        ensures ask { result.ask ≡ request.now.ask }
        ensures serves { Serves self.old.folders request.now.folder.0 request.now.want result.what self.new.folders }
        ensures held { (f : Held) → folder_in self.old.folders request.now.folder.0 ≡ Some f → IsHeld f }
        ensures unchanged { KeptIfRefused self.old.folders self.new.folders result.what }
        ensures reply { IsReply result }
    {
        let what = self
            .folders
            .step(alloc, request.folder, &request.want, &self.kernel);
        Reply {
            ask: request.ask,
            what,
        }
    }

    /// The frame that answers a message, by a step of its folder.
    pub fn answer(&mut self, alloc: Global, message: &[u8]) -> Result<Vec<u8>, WireFault>
        requires { IsMessage message.now }
        ensures { Responds IsAnswered self.old.folders message.now result self.new.folders }
    {
        let request = decode_request(alloc, message)?;
        let reply = self.step(alloc, &request);
        match encode_reply(alloc, &reply) {
            Ok(frame) => Ok(frame),
            Err(NoMemory) => Err(WireFault::NoMemory),
        }
    }

    /// How many updates a folder has had.
    pub fn length(&self, folder: FolderId) -> Option<u32>
        ensures { result ≡ option_map (λ f. length f.state.history) (folder_in self.now.folders folder.0) }
    {
        self.folders.length(folder)
    }
}
