//! Updates of a folder: what a member posts or removes.
ghost use Rattle.std.specs.Prelude.{◌≡◌, ◌↔◌, IfOk, IsTrue};
ghost use Rattle.dory_base.specs.SameUpdate.{is_same_change, is_same_update};

use crate::{Bits, DocId, NoMemory, Shape, Tag, UpdateId};
use std::alloc::Global;
use std::marker::Model;

/// A row's tags, one for each column.
#[derive(Debug, Drop)]
pub struct Tags {
    tags: Vec<Tag>,
}

impl Model for Tags {
    ghost use Rattle.std.specs.Prelude.{List, ℕ};

    ghost Value = { List ℕ };

    ghost view = { λ a. a.tags.items };
}

impl Tags {
    pub fn of(tags: Vec<Tag>) -> Tags
        ensures { result ≡ tags.items }
    {
        Tags { tags }
    }

    pub fn items(&self) -> &[Tag]
        ensures { result.now ≡ self.now }
    {
        &self.tags
    }

    /// Whether the two lists are equal.
    pub fn same(&self, other: &Tags) -> bool
        ensures { IsTrue result ↔ (self.now ≡ other.now) }
    {
        if self.tags.len() != other.tags.len() {
            return false;
        }
        for i in 0..self.tags.len() {
            if !self.tags[i].same(&other.tags[i]) {
                return false;
            }
        }
        true
    }

    /// An equal list.
    pub fn copy(&self, alloc: Global) -> Result<Tags, NoMemory>
        ensures { IfOk result (λ tags. tags ≡ self.now) }
    {
        let tags = self.tags.as_slice().to_vec(alloc)?;
        Ok(Tags { tags })
    }
}

/// What an update does to its document.
#[derive(Debug, Drop)]
pub enum Change {
    /// Gives the document this row, with a tag for each of its cells.
    Post { shape: Shape, row: Bits, tags: Tags },
    Remove,
}

/// An update, as it stands in a history.
#[derive(Debug, Drop)]
pub struct Entry {
    pub id: UpdateId,
    pub doc: DocId,
    pub change: Change,
}

impl Change {
    /// Whether the two changes are equal.
    pub fn same(&self, other: &Change) -> bool
        ensures { result ≡ is_same_change self.now other.now }
    {
        match self {
            Change::Remove => match other {
                Change::Remove => true,
                Change::Post { .. } => false,
            },
            Change::Post { shape, row, tags } => match other {
                Change::Remove => false,
                Change::Post {
                    shape: posted,
                    row: cells,
                    tags: marks,
                } => {
                    if !shape.same(*posted) {
                        return false;
                    }
                    if !row.same(cells) {
                        return false;
                    }
                    tags.same(marks)
                }
            },
        }
    }

    /// An equal change.
    pub fn copy(&self, alloc: Global) -> Result<Change, NoMemory>
        ensures { IfOk result (λ change. change ≡ self.now) }
    {
        match self {
            Change::Post { shape, row, tags } => {
                let row = row.copy(alloc)?;
                let tags = tags.copy(alloc)?;
                Ok(Change::Post {
                    shape: *shape,
                    row,
                    tags,
                })
            }
            Change::Remove => Ok(Change::Remove),
        }
    }
}

impl Entry {
    /// Whether the two updates do the same to one document, whatever their ids.
    pub fn same_update(&self, other: &Entry) -> bool
        ensures { result ≡ is_same_update self.now other.now }
    {
        self.doc == other.doc && self.change.same(&other.change)
    }

    /// An equal entry.
    pub fn copy(&self, alloc: Global) -> Result<Entry, NoMemory>
        ensures { IfOk result (λ entry. entry ≡ self.now) }
    {
        let change = self.change.copy(alloc)?;
        Ok(Entry {
            id: self.id,
            doc: self.doc,
            change,
        })
    }
}

/// Updates in the order in which they were committed.
#[derive(Debug, Drop)]
pub struct Entries {
    entries: Vec<Entry>,
}

impl Model for Entries {
    ghost use Rattle.std.specs.Prelude.{List};
    ghost use Rattle.dory_base.specs.declared.entry.Entry.{Entry};

    ghost Value = { List Entry };

    ghost view = { λ a. a.entries.items };
}

impl Entries {
    pub fn of(entries: Vec<Entry>) -> Entries
        ensures { result ≡ entries.items }
    {
        Entries { entries }
    }

    pub fn items(&self) -> &[Entry]
        ensures { result.now ≡ self.now }
    {
        &self.entries
    }
}
