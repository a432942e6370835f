//! What a server is to serve: the role and the folders of its domain, and how many connections at once.
ghost use Rattle.std.specs.Prelude.{◌≡◌, Some};
ghost use Rattle.dory_domain.specs.Setup.{seats_fault, setup_fault, config_fault_text};

use crate::config::{ConfigFault, FolderConfig, config_fault};
use dory_base::Side;
use std::fmt;
use std::marker::Model;

/// Folders that a domain is to serve, in the order in which they were named.
#[derive(Debug, Drop)]
pub struct FolderList {
    folders: Vec<FolderConfig>,
}

impl Model for FolderList {
    ghost use Rattle.std.specs.Prelude.{List};
    ghost use Rattle.dory_domain.specs.declared.config.FolderConfig.{FolderConfig};

    ghost Value = { List FolderConfig };

    ghost view = { λ f. f.folders.items };
}

impl FolderList {
    /// These folders.
    pub fn of(folders: Vec<FolderConfig>) -> FolderList
        ensures { result ≡ folders.items }
    {
        FolderList { folders }
    }

    /// The folders.
    pub fn items(&self) -> &[FolderConfig]
        ensures { result.now ≡ self.now }
    {
        &self.folders
    }
}

/// A domain's role and folders, and its seats: how many connections it is to serve at once.
#[derive(Debug, Drop)]
pub struct Config {
    pub role: Side,
    pub folders: FolderList,
    pub seats: u32,
}

/// The fault of a number of seats.
fn fault_of_seats(n: u32) -> Option<ConfigFault>
    ensures { result ≡ seats_fault n }
{
    if n >= 1 && n <= 32 {
        None
    } else {
        Some(ConfigFault::Seats { n })
    }
}

impl Config {
    /// The first fault: that of the folders, else that of the seats.
    pub fn fault(&self) -> Option<ConfigFault>
        ensures { result ≡ setup_fault self.now.folders self.now.seats }
    {
        match config_fault(self.folders.items()) {
            Some(fault) => Some(fault),
            None => fault_of_seats(self.seats),
        }
    }
}

impl fmt::Display for ConfigFault {
    ghost output = { λ fault. Some (config_fault_text fault) };

    fn fmt<W: fmt::Write>(&self, f: &mut fmt::Formatter<W>) -> fmt::Result {
        match self {
            ConfigFault::Folders { n } => write!(f, "folders {n}"),
            ConfigFault::FolderTwice { place } => write!(f, "foldertwice {place}"),
            ConfigFault::Retained { place, got } => write!(f, "retained {place} {got}"),
            ConfigFault::Seats { n } => write!(f, "seats {n}"),
        }
    }
}
