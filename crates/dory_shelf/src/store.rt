//! What readers take: a history, and the last versions, each beside the history that it stands for.
ghost use Rattle.std.specs.Prelude.{◌≡◌, ◌<◌, ◌≤◌, length, map, vec_len, IfOk, IfSome};
ghost use Rattle.std.specs.Option.{ForSome, option_map};
ghost use Rattle.std.specs.Arc.{arc_value};
ghost use Rattle.dory_base.specs.TableMeaning.{kept_of};
ghost use Rattle.dory_shelf.specs.Published.{history_of};
ghost use Rattle.dory_shelf.specs.Versions.{newest_of, table_at};

use crate::front::Front;
use dory_base::NoMemory;
use dory_chunks::Version;
use left_right::Absorb;
use std::alloc::AllocError;
use std::marker::Model;
use std::sync::Arc;

/// A version, and the history that it stands for. It is missing where it had too many owners to be copied.
#[derive(Drop)]
pub struct Stored {
    pub number: u32,
    pub version: Option<Arc<Version>>,
    pub front: Front,
    pub ghost counted: { number ≡ newest_of front },
    pub ghost stands: { ForSome version (λ v. arc_value v ≡ kept_of front.shelf.shape (history_of front)) },
}

impl Stored {
    /// A copy.
    pub fn again(&self) -> Stored
        ensures { (result.front ≡ self.now.front) × (result.number ≡ self.now.number) }
    {
        let version = match &self.version {
            None => None,
            Some(version) => Arc::try_clone(version).ok(),
        };
        Stored {
            number: self.number,
            version,
            front: self.front.again(),
        }
    }

    /// The version, as the one of its number in a history of the shelf that is no shorter than its own.
    fn version_of(&self, front: &Front) -> Result<Arc<Version>, NoMemory>
        requires same { front.now.shelf ≡ self.now.front.shelf }
        requires within { self.now.number ≤ newest_of front.now }
        ensures { IfOk result (λ v. arc_value v ≡ table_at front.now self.now.number) }
    {
        self.front.compare(front);
        let Some(version) = &self.version else {
            return Err(NoMemory);
        };
        match Arc::try_clone(version) {
            Ok(version) => Ok(version),
            Err(_) => Err(NoMemory),
        }
    }
}

/// One of the two copies that a shelf has. Contracts see what it shows.
#[derive(Drop)]
pub struct Store {
    front: Front,
    slots: Vec<Option<Stored>>,
}

impl Model for Store {
    ghost use Rattle.std.specs.Prelude.{◌<◌, vec_len, map};
    ghost use Rattle.std.specs.Option.{option_map};
    ghost use Rattle.dory_shelf.specs.ShelfRule.{Shown};

    ghost Value = { Shown };

    ghost view = { λ s. record { known = s.front; slots = map (λ slot. option_map (λ k. k.front) slot) s.slots.items } };

    ghost invariant = { λ s. 0 < vec_len s.slots };
}

/// What changes at one operation.
#[derive(Drop)]
pub struct Change {
    pub front: Front,
    pub stored: Option<Stored>,
}

impl Store {
    ghost use Rattle.dory_shelf.specs.ShelfRule.{IsShelf};
    ghost use Rattle.dory_shelf.specs.Slots.{slots_with};

    /// A copy with these slots.
    pub fn of(front: Front, slots: Vec<Option<Stored>>) -> Store
        requires { 0 < vec_len slots }
        ensures { result ≡ record { known = front; slots = map (λ slot. option_map (λ k. k.front) slot) slots.items } }
    {
        Store { front, slots }
    }

    /// The history that it shows.
    pub fn front(&self) -> &Front
        ensures { result.now ≡ self.now.known }
    {
        &self.front
    }

    /// The version of this number, if it is here.
    fn stored(&self, number: u32) -> Option<&Stored>
        requires { IsShelf self.now }
        ensures shelf { IfSome result (λ s. s.now.front.shelf ≡ self.now.known.shelf) }
        ensures number { IfSome result (λ s. s.now.number ≡ number) }
    {
        let slot = number as usize % self.slots.len();
        let Some(stored) = &self.slots[slot] else {
            return None;
        };
        if stored.number == number {
            Some(stored)
        } else {
            None
        }
    }

    /// The version of this number of a history, unless it isn't here or has too many owners.
    pub fn version(&self, number: u32, front: &Front) -> Result<Arc<Version>, NoMemory>
        requires shelf { IsShelf self.now }
        requires same { front.now.shelf ≡ self.now.known.shelf }
        requires within { number ≤ newest_of front.now }
        ensures { IfOk result (λ v. arc_value v ≡ table_at front.now number) }
    {
        match self.stored(number) {
            Some(stored) => stored.version_of(front),
            None => Err(NoMemory),
        }
    }

    /// Puts a version into its slot.
    fn put(&mut self, stored: Stored)
        ensures known { self.new.known ≡ self.old.known }
        ensures slots { self.new.slots ≡ slots_with self.old.slots stored }
    {
        let slot = stored.number as usize % self.slots.len();
        self.slots[slot] = Some(stored);
    }
}

impl Absorb<Change> for Store {
    ghost use Rattle.dory_shelf.specs.Slots.{shown_after};

    type State = Store;

    ghost state = { λ s. s };

    ghost applied = { shown_after };

    ghost never_fails = { Unit {0} };

    fn absorb_first(&mut self, operation: &Change, _other: &Store) -> Result<(), AllocError> {
        self.front = operation.front.again();
        if let Some(stored) = &operation.stored {
            self.put(stored.again());
        }
        Ok(())
    }

    fn absorb_second(&mut self, operation: Change, _other: &Store) -> Result<(), Change> {
        let Change { front, stored } = operation;
        self.front = front;
        if let Some(stored) = stored {
            self.put(stored);
        }
        Ok(())
    }
}
