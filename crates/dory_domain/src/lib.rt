//! A domain as a pure core: its folders with their histories and the versions that they retain, and its answer to each request.
#![tactic(auto)]

mod config;
mod domain_core;
mod folder;
mod folders;
mod probes;
mod setup;
#[cfg(test)]
mod tests;
mod updates;
mod versions;

pub use config::{ConfigFault, FolderConfig, OpenFault};
pub use domain_core::DomainCore;
pub use folder::Folder;
pub use folders::Folders;
pub use probes::selectors;
pub use setup::{Config, FolderList};
pub use versions::LastVersions;
