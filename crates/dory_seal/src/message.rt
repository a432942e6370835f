//! The messages of mask blocks and cells, as bytes.
ghost use Rattle.std.specs.Prelude.{◌≡◌};
ghost use Rattle.dory_seal.specs.Message.{mask_message, cell_message};

use dory_base::{DocId, UpdateId};

/// The message of a block of 256 mask bits.
pub(crate) fn mask_message(doc: DocId, id: UpdateId, block: u32) -> [u8; 20]
    ensures { result ≡ mask_message doc id block }
{
    let mut bytes = [0u8; 20];
    bytes[..4].copy_from_slice(&doc.0.to_be_bytes());
    bytes[4..8].copy_from_slice(&id.member.0.to_be_bytes());
    bytes[8..16].copy_from_slice(&id.serial.to_be_bytes());
    bytes[16..].copy_from_slice(&block.to_be_bytes());
    bytes
}

/// The message of a cell.
pub(crate) fn cell_message(doc: DocId, id: UpdateId, column: u32, cell: bool) -> [u8; 21]
    ensures { result ≡ cell_message doc id column cell }
{
    let mut bytes = [0u8; 21];
    bytes[..4].copy_from_slice(&doc.0.to_be_bytes());
    bytes[4..8].copy_from_slice(&id.member.0.to_be_bytes());
    bytes[8..16].copy_from_slice(&id.serial.to_be_bytes());
    bytes[16..20].copy_from_slice(&column.to_be_bytes());
    bytes[20] = u8::from(cell);
    bytes
}
