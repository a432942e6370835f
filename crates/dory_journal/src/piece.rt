//! The bytes of an operation, written from what asked for it: no entry is copied for them.
ghost use Rattle.std.specs.Prelude.{◌≡◌, ◌*◌, IfOk};
ghost use Rattle.std.specs.Arc.{arc_value};
ghost use Rattle.dory_wire.specs.declared.message.Want.TheVariants.{Stage as Staging};
ghost use Rattle.dory_wire.specs.Frame.{frame_of as frame_of_message};
ghost use Rattle.dory_wire.specs.Spelling.{IsRequest, IsWant, IsEntry, spelling_of_request};
ghost use Rattle.dory_journal.specs.Ops.{Op, want_of_op};
ghost use Rattle.dory_journal.specs.Ops.Op.{Stages};
ghost use Rattle.dory_journal.specs.Bytes.{no_ask};
ghost use Rattle.dory_journal.specs.Recording.{IsPiece};

use dory_base::{AskId, Entry, FolderId, MemberId, NoMemory};
use dory_wire::{Want, WantRef, encode_ask};
use std::alloc::Global;
use std::sync::Arc;

/// The frame of what is asked of a folder, with the ask of a record.
fn frame_of(alloc: Global, folder: FolderId, want: &Want) -> Result<Vec<u8>, NoMemory>
    requires { IsRequest (record { ask = no_ask; folder = folder; want = want.now }) }
    ensures { IfOk result (λ frame. frame.items ≡ frame_of_message (spelling_of_request (record { ask = no_ask; folder = folder; want = want.now }))) }
{
    let ask = AskId {
        member: MemberId(0),
        serial: 0,
        step: 0,
    };
    let lent = match want {
        Want::Latest => WantRef::Latest,
        Want::Search {
            version,
            shape,
            keys,
        } => WantRef::Search {
            version: *version,
            shape: *shape,
            keys,
        },
        Want::Which { number } => WantRef::Which { number: *number },
        Want::Stage { entry } => WantRef::Stage { entry },
        Want::Order { id } => WantRef::Order { id: *id },
        Want::Follow { number, id } => WantRef::Follow {
            number: *number,
            id: *id,
        },
    };
    encode_ask(alloc, ask, folder, &lent)
}

/// The frame of what asks for an operation, and a shut gate behind it.
pub fn piece_of(alloc: Global, folder: FolderId, want: &Want) -> Result<Vec<u8>, NoMemory>
    requires { IsWant want.now }
    ensures { (op : Op) → want_of_op op ≡ want.now → IfOk result (λ piece. IsPiece folder.0 op piece.items) }
{
    let mut piece = frame_of(alloc, folder, want)?;
    piece.push(0)?;
    Ok(piece)
}

/// The bytes of a staging, and the update as a log keeps it.
pub fn staged_piece(
    alloc: Global,
    folder: FolderId,
    want: &Want,
    entry: &Entry,
) -> Result<(Vec<u8>, Arc<Entry>), NoMemory>
    requires range { IsEntry entry.now }
    requires staging { want.now ≡ Staging entry.now }
    ensures { IfOk result (λ made. IsPiece folder.0 (Stages entry.now) made.0.items × (arc_value made.1 ≡ entry.now)) }
{
    let piece = piece_of(alloc, folder, want)?;
    let kept = Arc::new(alloc, entry.copy(alloc)?)?;
    Ok((piece, kept))
}
