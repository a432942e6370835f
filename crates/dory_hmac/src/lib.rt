//! HMAC-SHA-256 for one message, for a message that comes piece by piece, and for many messages
//! under one key, and the keys that a folder's index, masks and tags are made with.
#![tactic(auto)]

mod compression;
mod constants;
mod folder_keys;
mod four_lanes;
mod key_block;
mod keyed;
mod message_end;
mod midstates;
mod one_shot;
mod running;
#[cfg(test)]
mod tests;

pub use folder_keys::FolderKeys;
pub use keyed::KeyedMac;
pub use one_shot::mac;
pub use running::Mac;
