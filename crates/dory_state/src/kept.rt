//! What a member keeps between two commands.
ghost use Rattle.std.specs.Prelude.{◌≡◌, IfOk};

use dory_base::{Bits, DocId, FolderId, MemberId, NoMemory, Shape};
use std::alloc::Global;

/// An update that the member has made, and that isn't known to be committed at both domains.
#[derive(Debug, Drop)]
pub struct Pending {
    pub serial: u64,
    pub doc: DocId,
    /// The plain row of a post. A removal has none.
    pub row: Option<Bits>,
}

/// A member's state.
#[derive(Drop)]
pub struct KeptState {
    pub folder: FolderId,
    pub member: MemberId,
    pub shape: Shape,
    pub master: [u8; 32],
    /// The serial that the next command draws.
    pub next_serial: u64,
    /// The newest version that the member has seen.
    pub seen: u32,
    /// How many posts are counted in the epoch of the next serial.
    pub used: u32,
    pub pending: Option<Pending>,
}

/// What both forms of a state begin with.
#[derive(Drop)]
pub struct Head {
    pub folder: FolderId,
    pub member: MemberId,
    pub shape: Shape,
    pub master: [u8; 32],
    pub next_serial: u64,
    pub seen: u32,
}

fn copy_of_row(alloc: Global, row: &Option<Bits>) -> Result<Option<Bits>, NoMemory>
    ensures { IfOk result (λ r. r ≡ row.now) }
{
    match row {
        None => Ok(None),
        Some(bits) => Ok(Some(bits.copy(alloc)?)),
    }
}

fn copy_of_pending(alloc: Global, pending: &Option<Pending>) -> Result<Option<Pending>, NoMemory>
    ensures { IfOk result (λ p. p ≡ pending.now) }
{
    match pending {
        None => Ok(None),
        Some(update) => Ok(Some(Pending {
            serial: update.serial,
            doc: update.doc,
            row: copy_of_row(alloc, &update.row)?,
        })),
    }
}

impl KeptState {
    /// An equal state.
    pub fn copy(&self, alloc: Global) -> Result<KeptState, NoMemory>
        ensures { IfOk result (λ s. s ≡ self.now) }
    {
        let pending = copy_of_pending(alloc, &self.pending)?;
        Ok(KeptState {
            folder: self.folder,
            member: self.member,
            shape: self.shape,
            master: self.master,
            next_serial: self.next_serial,
            seen: self.seen,
            used: self.used,
            pending,
        })
    }
}
