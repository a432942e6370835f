//! The updates of a history, each shared with whoever holds it.
ghost use Rattle.std.specs.Prelude.{◌≡◌, ◌<◌, ◌++◌, ◌∷◌, [], ℕ, length, slice_index_or, IfOk, OnErr, OnOk};
ghost use Rattle.std.specs.Arc.{arc_value};
ghost use Rattle.dory_base.specs.declared.entry.Entry.{Entry as Update};

use dory_base::{Entry, NoMemory};
use std::alloc::Global;
use std::marker::Model;
use std::sync::Arc;

/// Updates in the order in which they were committed.
#[derive(Drop)]
pub struct Updates {
    updates: Vec<Arc<Entry>>,
}

impl Model for Updates {
    ghost use Rattle.std.specs.Prelude.{List, map};
    ghost use Rattle.std.specs.Arc.{arc_value};
    ghost use Rattle.dory_base.specs.declared.entry.Entry.{Entry};

    ghost Value = { List Entry };

    ghost view = { λ u. map arc_value u.updates.items };
}

impl Updates {
    /// No updates.
    pub fn new(alloc: Global) -> Updates
        ensures { result ≡ [] }
    {
        Updates {
            updates: Vec::new(alloc),
        }
    }

    /// One more update, or no change.
    pub fn push(&mut self, update: Arc<Entry>) -> Result<(), NoMemory>
        ensures done { OnOk result (self.new ≡ self.old ++ arc_value update ∷ []) }
        ensures unchanged { OnErr result (self.new ≡ self.old) }
    {
        self.updates.push(update)?;
        Ok(())
    }
}
