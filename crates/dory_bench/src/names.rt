//! The folder, the updates and the asks that the pieces of work speak of.
ghost use Rattle.std.specs.Prelude.{◌≡◌};

use crate::work::Depth;
use dory_base::{AskId, MemberId, Shape, UpdateId};
use dory_hmac::FolderKeys;

/// The master key of the folder.
pub const MASTER: [u8; 32] = [7; 32];

/// The folder's number.
pub const FOLDER: u32 = 1;

pub fn folder_keys() -> FolderKeys {
    FolderKeys::derive(&MASTER, FOLDER)
}

/// Rows of this depth, and eight positions for a word.
pub fn shape(depth: Depth) -> Shape {
    let depth = match depth {
        Depth::Eight => 8,
        Depth::Eleven => 11,
    };
    match Shape::new(depth, 8) {
        Some(shape) => shape,
        None => unreachable!(),
    }
}

/// An update of a member.
pub fn update(member: u32, serial: u64) -> UpdateId
    ensures { result ≡ record { member = record { 0 = member }; serial = serial } }
{
    UpdateId {
        member: MemberId(member),
        serial,
    }
}

/// A step of member 0's ask with serial 2.
pub fn ask(step: u32) -> AskId {
    AskId {
        member: MemberId(0),
        serial: 2,
        step,
    }
}
