//! The table as a plain list of slots: what every faster table is measured by.
ghost use Rattle.std.specs.Prelude.{◌≡◌, ◌<◌, ◌++◌, ◌∷◌, [], List, IfOk, OnErr};
ghost use Rattle.dory_base.specs.declared.entry.Entry.{Entry};
ghost use Rattle.dory_base.specs.History.{IsChangeOf};
ghost use Rattle.dory_base.specs.TableMeaning.{StandsFor, next_of};

use crate::slots;
use dory_base::{Entry, Manifest, NoMemory, Shape, SlotTable, Tag};
use std::alloc::Global;
use std::marker::Model;

/// At most 4,096 slots, each empty or with a post of the table's shape.
#[derive(Drop)]
pub struct Table {
    shape: Shape,
    number: u32,
    slots: Vec<Option<Entry>>,
}

impl Model for Table {
    ghost use Rattle.dory_base.specs.TableMeaning.{Kept, IsKept};

    ghost Value = { Kept };

    ghost view = { λ t. record { shape = t.shape; number = t.number; slots = t.slots.items } };

    ghost invariant = { λ t. IsKept (record { shape = t.shape; number = t.number; slots = t.slots.items }) };
}

impl Table {
    /// Does one more update in place. Where memory runs out, the table stays as it is.
    pub fn apply(&mut self, _alloc: Global, entry: Entry) -> Result<(), NoMemory>
        requires room { self.old.number < 1048576 }
        requires change { IsChangeOf self.old.shape entry.change }
        ensures done { IfOk result (λ _. self.new ≡ next_of self.old entry) }
        ensures stands { IfOk result (λ _. (entries : List Entry) → StandsFor self.old entries → StandsFor self.new (entries ++ entry ∷ [])) }
        ensures unchanged { OnErr result (self.new ≡ self.old) }
    {
        slots::change(&mut self.slots, entry)?;
        self.number += 1;
        Ok(())
    }
}

impl SlotTable for Table {
    ghost meaning = { λ t. t };

    fn empty(alloc: Global, shape: Shape) -> Result<Table, NoMemory> {
        Ok(Table {
            shape,
            number: 0,
            slots: Vec::new(alloc),
        })
    }

    fn next_version(&self, alloc: Global, entry: &Entry) -> Result<Table, NoMemory> {
        let slots = slots::copy(alloc, &self.slots)?;
        let mut next = Table {
            shape: self.shape,
            number: self.number,
            slots,
        };
        let entry = entry.copy(alloc)?;
        next.apply(alloc, entry)?;
        Ok(next)
    }

    fn number(&self) -> u32 {
        self.number
    }

    fn manifest(&self, alloc: Global) -> Result<Manifest, NoMemory> {
        let places = slots::places(alloc, &self.slots)?;
        Ok(Manifest::of(places))
    }

    fn column_tag(&self, column: usize) -> Tag {
        slots::column_tag(&self.slots, column)
    }

    fn row(&self, slot: usize) -> Option<&[u64]> {
        slots::row(&self.slots, slot)
    }
}
