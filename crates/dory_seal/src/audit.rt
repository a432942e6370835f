//! The check of a sealed entry by a holder of the keys.
ghost use Rattle.std.specs.Prelude.{◌≡◌, ◌≤◌, ◌<◌, ◌+◌, ◌%◌, ◌↔◌, ℕ, false, length, slice_index, IfErr, IfNone, IfSome, IsOk};
ghost use Rattle.dory_base.specs.History.{IsWhole};
ghost use Rattle.dory_seal.specs.Epoch.{epoch_of};
ghost use Rattle.dory_seal.specs.Seal.{HasTag, IsFirstBad, IsFirstBadOf, IsSealed};
ghost use Rattle.dory_seal.specs.Runs.{IsFirstOther};

use crate::cell::RUN;
use crate::epoch::epoch_of;
use crate::epoch_keys::EpochKeys;
use dory_base::{Bits, Change, DocId, Entry, Tag, UpdateId};
use dory_hmac::FolderKeys;

/// The first column whose tag isn't the cell tag of its cell.
#[derive(Clone, Copy, Debug, PartialEq, Eq)]
pub struct BadCell {
    pub column: u16,
}

/// Whether an entry is sealed under these keys.
pub fn check_sealed(keys: &FolderKeys, entry: &Entry) -> Result<(), BadCell>
    requires { IsWhole entry.now.change }
    ensures ok { IsOk result ↔ IsSealed keys.now entry.now }
    ensures bad { IfErr result (λ e. IsFirstBadOf keys.now entry.now.doc entry.now.id entry.now.change e.column) }
{
    match &entry.change {
        Change::Post { shape, row, tags } => {
            // A shape's columns are whole blocks, which the check goes by.
            let _columns = shape.columns();
            let epoch_keys = EpochKeys::new(keys, epoch_of(entry.id));
            match first_bad(&epoch_keys, entry.doc, entry.id, row, tags.items()) {
                Some(column) => Err(BadCell { column }),
                None => Ok(()),
            }
        }
        Change::Remove => Ok(()),
    }
}

/// The first column whose tag isn't that of its cell.
fn first_bad(keys: &EpochKeys, doc: DocId, id: UpdateId, row: &Bits, tags: &[Tag]) -> Option<u16>
    requires epoch { epoch_of id ≡ keys.now.epoch }
    requires tagged { length tags.now ≡ length row.now }
    requires blocks { length row.now % 256 ≡ 0 }
    ensures none { IfNone result ((j : ℕ) → j < length row.now → HasTag keys.now.keys doc id row.now tags.now j) }
    ensures some { IfSome result (λ column. IsFirstBad keys.now.keys doc id row.now tags.now column) }
{
    for run in 0..row.len() / RUN {
        let from = RUN * run;
        let right = keys.tags_from(doc, id, row, from);
        if let Some(i) = first_other(&tags[from..from + RUN], &right) {
            return Some((from + i) as u16);
        }
    }
    None
}

/// The first place at which two runs of tags differ.
fn first_other(tags: &[Tag], right: &[Tag; 64]) -> Option<usize>
    requires { length tags.now ≡ 64 }
    ensures none { IfNone result ((i : ℕ) → i < 64 → slice_index tags.now i ≡ slice_index right.now i) }
    ensures some { IfSome result (λ i. IsFirstOther tags.now right.now i) }
{
    for i in 0..RUN {
        if !tags[i].same(&right[i]) {
            return Some(i);
        }
    }
    None
}
