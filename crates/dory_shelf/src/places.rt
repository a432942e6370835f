//! Makers of readers. Each counts its failures.
ghost use Rattle.std.specs.Prelude.{◌≡◌, ℕ, IfOk, IsErr, IsTrue};
ghost use Rattle.dory_io.specs.Causes.{HasCause, is_next_listed};

use crate::reader::ShelfReader;
use crate::writer::ShelfWriter;
use dory_base::Failed;
use dory_io::Fails;
use std::sync::Wait;

/// Makes one more reader of a shelf, which has seen what is published.
pub trait PlaceMaker {
    ghost faults: { Self → ℕ };

    fn place<R: Wait>(&mut self, shelf: &mut ShelfWriter<'_, R>) -> Result<ShelfReader, Failed>
        ensures same { shelf.new ≡ shelf.old }
        ensures reader { IfOk result (λ r. r ≡ shelf.old.known) }
        ensures cause { HasCause (faults self.old) (faults self.new) (IsErr result) };
}

/// Asks the shelf itself, which may refuse a place without a cause that can be named.
#[derive(Debug, Drop)]
pub struct Places {
    faults: u64,
}

impl Places {
    pub fn new() -> Places
        ensures { result.faults ≡ 0 }
    {
        Places { faults: 0 }
    }
}

impl PlaceMaker for Places {
    ghost faults = { λ p. p.faults };

    fn place<R: Wait>(&mut self, shelf: &mut ShelfWriter<'_, R>) -> Result<ShelfReader, Failed> {
        match shelf.reader() {
            Ok(reader) => Ok(reader),
            Err(_) => {
                self.faults = self.faults.saturating_add(1);
                Err(Failed)
            }
        }
    }
}

/// Fails at the listed calls, counted from 1, and where the maker within it fails.
#[derive(Debug, Drop)]
pub struct FailingPlaces {
    inner: Places,
    fails: Fails,
}

impl FailingPlaces {
    /// A maker whose listed calls are to fail.
    pub fn new(inner: Places, fails: Vec<u64>) -> FailingPlaces
        ensures inner { result.inner ≡ inner }
        ensures fails { result.fails ≡ record { calls = 0; listed = fails; faults = 0 } }
    {
        FailingPlaces {
            inner,
            fails: Fails::new(fails),
        }
    }
}

impl PlaceMaker for FailingPlaces {
    ghost faults = { λ p. p.fails.faults };

    fn place<R: Wait>(&mut self, shelf: &mut ShelfWriter<'_, R>) -> Result<ShelfReader, Failed>
        ensures same { shelf.new ≡ shelf.old }
        ensures reader { IfOk result (λ r. r ≡ shelf.old.known) }
        ensures cause { HasCause self.old.fails.faults self.new.fails.faults (IsErr result) }
        ensures listed { IsTrue (is_next_listed self.old.fails) → IsErr result × (self.new.inner ≡ self.old.inner) }
    {
        if self.fails.call() {
            return Err(Failed);
        }
        let place = self.inner.place(shelf);
        if place.is_err() {
            self.fails.count();
        }
        place
    }
}
