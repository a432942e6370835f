//! The folders that a domain is to serve, and why a list of them can't be served.
ghost use Rattle.std.specs.Prelude.{◌≡◌, ◌<◌, ◌==◌, length};
ghost use Rattle.std.specs.List.{list_any};
ghost use Rattle.dory_domain.specs.Config.{stands_earlier, first_twice, is_retained, first_unretained, config_fault_of};

use dory_base::{FolderId, Shape};

/// A folder that a domain is to serve, and how many of its last versions a search may ask for.
#[derive(Clone, Copy, Debug, PartialEq, Eq)]
pub struct FolderConfig {
    pub folder: FolderId,
    pub shape: Shape,
    pub retained: u32,
}

/// What is wrong with a list of folders, in the order in which it is checked.
#[derive(Clone, Copy, Debug, PartialEq, Eq)]
pub enum ConfigFault {
    /// The list doesn't have 1 to 8 folders.
    Folders { n: usize },
    /// The folder at this place, counted from 0, stands earlier in the list too.
    FolderTwice { place: usize },
    /// The folder at this place is to retain another number of versions than 1 to 256.
    Retained { place: usize, got: u32 },
    /// There aren't 1 to 32 seats.
    Seats { n: u32 },
}

/// Why a domain doesn't open.
#[derive(Clone, Copy, Debug, PartialEq, Eq)]
pub enum OpenFault {
    BadConfig(ConfigFault),
    NoMemory,
}

/// Whether the folder stands in the list.
fn is_listed(configs: &[FolderConfig], folder: FolderId) -> bool
    ensures { result ≡ list_any (λ c. c.folder.0 == folder.0) configs.now }
{
    configs.iter().any(|config| config.folder == folder)
}

/// Whether the folder at a place stands earlier in the list too.
fn is_again(configs: &[FolderConfig], place: usize) -> bool
    requires { place < length configs.now }
    ensures { result ≡ stands_earlier configs.now place }
{
    let folder = configs[place].folder;
    is_listed(&configs[..place], folder)
}

/// The place of the first folder that stands earlier in the list too.
fn folder_twice(configs: &[FolderConfig]) -> Option<usize>
    ensures { result ≡ first_twice configs.now }
{
    for place in 0..configs.len() {
        if is_again(configs, place) {
            return Some(place);
        }
    }
    None
}

/// Whether a domain may retain as many versions.
fn is_in_range(retained: u32) -> bool
    ensures { result ≡ is_retained retained }
{
    retained >= 1 && retained <= 256
}

/// The place of the first folder whose number of versions is out of range.
fn out_of_range(configs: &[FolderConfig]) -> Option<usize>
    ensures { result ≡ first_unretained configs.now }
{
    configs
        .iter()
        .position(|config| !is_in_range(config.retained))
}

/// The first fault of a list of folders.
pub fn config_fault(configs: &[FolderConfig]) -> Option<ConfigFault>
    ensures { result ≡ config_fault_of configs.now }
{
    let n = configs.len();
    if n < 1 || n > 8 {
        return Some(ConfigFault::Folders { n });
    }
    if let Some(place) = folder_twice(configs) {
        return Some(ConfigFault::FolderTwice { place });
    }
    if let Some(place) = out_of_range(configs) {
        let got = configs[place].retained;
        return Some(ConfigFault::Retained { place, got });
    }
    None
}
