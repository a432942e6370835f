//! A seat's reader of one folder.
ghost use Rattle.std.specs.Prelude.{◌≡◌, ◌==◌, length, Ok};
ghost use Rattle.dory_dpf.specs.PointKey.{PointKey};
ghost use Rattle.dory_wire.specs.Spelling.{AreKeys, IsWant, IsWhat};
ghost use Rattle.dory_shelf.specs.Published.{IsLawful, Grew};
ghost use Rattle.dory_shared.specs.Seen.{IsKept, knowing};
ghost use Rattle.dory_shared.specs.Reading.{IsLater, IsReading, ReadsAt, KeepsAt};

use crate::cabinet::no_memory;
use crate::held::{Held, shape_fault};
use dory_base::{FolderId, Refusal, Shape, Side};
use dory_dpf::Keys;
use dory_kernel::RowKernel;
use dory_shelf::{ShelfReader, Told};
use dory_wire::{Want, What};
use std::alloc::Global;
use std::marker::Model;
use std::thread::Threads;

/// A folder's number, its domain's role, and a reader of its shelf. Contracts see what was seen of it.
#[derive(Drop)]
pub struct Place {
    folder: FolderId,
    role: Side,
    reader: ShelfReader,
}

impl Model for Place {
    ghost use Rattle.dory_shared.specs.Seen.{Seen, IsKept};

    ghost Value = { Seen };

    ghost view = { λ p. record { number = p.folder.0; role = p.role; known = p.reader } };

    ghost invariant = { λ p. IsKept p.reader };
}

impl Place {
    /// A reader of a folder.
    pub fn of(folder: FolderId, role: Side, reader: ShelfReader) -> Place
        requires { IsKept reader }
        ensures { result ≡ record { number = folder.0; role = role; known = reader } }
    {
        Place {
            folder,
            role,
            reader,
        }
    }

    /// Whether it is of the folder of this number.
    pub fn is(&self, folder: FolderId) -> bool
        ensures { result ≡ (self.now.number == folder.0) }
    {
        self.folder == folder
    }

    /// Enters once: how many operations the history entered has.
    pub fn operations(&mut self) -> u64
        ensures later { IsLater self.old self.new.known }
        ensures value { result ≡ length self.new.known.events }
        ensures same { self.new ≡ knowing self.new.known self.old }
    {
        self.reader.operations()
    }

    /// Takes in what was told. Later histories begin with it.
    pub fn learn(&mut self, told: Told)
        requires { told.shelf ≡ self.old.known.shelf }
        ensures seen { Grew self.old.known self.new.known }
        ensures told { Grew told self.new.known }
        ensures same { self.new ≡ knowing self.new.known self.old }
    {
        self.reader.learn(told);
    }

    /// Reads the length, or what a version holds. It waits for nobody.
    pub fn read<R: Threads + Sync>(
        &mut self,
        rt: &R,
        alloc: Global,
        kernel: &RowKernel,
        want: &Want,
    ) -> What
        requires range { IsWant want.now }
        requires reading { IsReading want.now }
        ensures later { IsLater self.old self.new.known }
        ensures reads { ReadsAt self.new.known want.now result }
        ensures same { self.new ≡ knowing self.new.known self.old }
        ensures range { IsWhat result }
    {
        match want {
            Want::Latest => What::At {
                length: self.reader.length(),
            },
            Want::Search {
                version,
                shape,
                keys,
            } => self.search(rt, alloc, kernel, *version, *shape, keys),
            Want::Which { .. } => unreachable!(),
            Want::Stage { .. } => unreachable!(),
            Want::Order { .. } => unreachable!(),
            Want::Follow { .. } => unreachable!(),
        }
    }

    /// The answer to a search.
    fn search<R: Threads + Sync>(
        &mut self,
        rt: &R,
        alloc: Global,
        kernel: &RowKernel,
        version: u32,
        asked: Shape,
        keys: &Keys,
    ) -> What
        requires { AreKeys asked keys.now }
        ensures later { IsLater self.old self.new.known }
        ensures reads { ReadsAt self.new.known (Want.Search version asked keys.now) result }
        ensures same { self.new ≡ knowing self.new.known self.old }
        ensures range { IsWhat result }
    {
        if let Some(code) = shape_fault(self.reader.shape(), asked) {
            let _ = self.reader.seen();
            return What::Refused { code };
        }
        match self.hold(version) {
            Ok(held) => held.answer(rt, alloc, kernel, asked, keys),
            Err(code) => What::Refused { code },
        }
    }

    /// Keeps a version, if it is among the last. It waits for nobody.
    pub fn hold(&mut self, number: u32) -> Result<Held, Refusal>
        ensures later { IsLater self.old self.new.known }
        ensures keeps { KeepsAt self.new.known number result }
        ensures kept { IsKept self.new.known }
        ensures same { self.new ≡ knowing self.new.known self.old }
    {
        let version = self.reader.version(number)?;
        Ok(Held::of(version, number, self.reader.tell()))
    }
}
