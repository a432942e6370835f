//! The folders of a domain.
ghost use Rattle.std.specs.Prelude.{◌≡◌, map, length, Some, None, IfOk, option_map, position};
ghost use Rattle.dory_wire.specs.Spelling.{IsWant, IsWhat};
ghost use Rattle.dory_domain.specs.Config.{config_fault_of};
ghost use Rattle.dory_domain.specs.Held.{Held, IsHeld, Serves, KeptIfRefused, opened, is_folder, folder_in};

use crate::config::FolderConfig;
use crate::folder::Folder;
use dory_base::{FolderId, NoMemory, Refusal, Side};
use dory_kernel::RowKernel;
use dory_wire::{Want, What};
use std::alloc::Global;
use std::marker::Model;

/// At most 8 folders, no two with one number.
#[derive(Drop)]
pub struct Folders {
    folders: Vec<Folder>,
}

impl Model for Folders {
    ghost use Rattle.std.specs.Prelude.{List};
    ghost use Rattle.dory_domain.specs.Held.{Held, AreHeld};

    ghost Value = { List Held };

    ghost view = { λ f. f.folders.items };

    ghost invariant = { λ f. AreHeld f.folders.items };
}

impl Folders {
    /// Folders with no update.
    pub fn new(alloc: Global, role: Side, configs: &[FolderConfig]) -> Result<Folders, NoMemory>
        requires { config_fault_of configs.now ≡ None }
        ensures { IfOk result (λ f. f ≡ map (opened role) configs.now) }
    {
        let mut folders = Vec::new(alloc);
        for config in configs {
            folders.push(Folder::new(alloc, role, *config)?)?;
        }
        Ok(Folders { folders })
    }

    /// The folder of this number.
    fn find(&self, folder: FolderId) -> Option<&Folder>
        ensures { option_map (λ f. f.now) result ≡ folder_in self.now folder.0 }
    {
        self.folders.iter().find(|each| each.is(folder))
    }

    /// The place of the folder of this number.
    fn place(&self, folder: FolderId) -> Option<usize>
        ensures { result ≡ position (is_folder folder.0) self.now }
    {
        self.folders.iter().position(|each| each.is(folder))
    }

    /// How many updates a folder has had.
    pub fn length(&self, folder: FolderId) -> Option<u32>
        ensures { result ≡ option_map (λ f. length f.state.history) (folder_in self.now folder.0) }
    {
        match self.find(folder) {
            Some(found) => Some(found.length()),
            None => None,
        }
    }

    /// The step of the folder of this number, or that there is no such folder.
    pub fn step(&mut self, alloc: Global, folder: FolderId, want: &Want, kernel: &RowKernel) -> What
        requires { IsWant want.now }
        ensures serves { Serves self.old folder.0 want.now result self.new }
        ensures held { (f : Held) → folder_in self.old folder.0 ≡ Some f → IsHeld f }
        ensures unchanged { KeptIfRefused self.old self.new result }
        ensures range { IsWhat result }
    {
        match self.place(folder) {
            Some(at) => self.folders[at].step(alloc, want, kernel),
            None => What::Refused {
                code: Refusal::NoFolder,
            },
        }
    }
}
