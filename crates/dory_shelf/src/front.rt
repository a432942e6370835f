//! What one reader, one writer or one note has seen of a published history.
ghost use Rattle.std.specs.Prelude.{◌≡◌, ◌≤◌, ◌⊎◌, [], length, take, MatchBool};
ghost use Rattle.dory_shelf.specs.Published.{Published, IsLawful, MayFollow, Grew, history_of, with_event};
ghost use Rattle.dory_shelf.specs.Versions.{is_retained, newest_of, oldest_of};
ghost use Rattle.dory_shelf.specs.Ops.{event_of};

use crate::book::{Add, Head, Law, Nothing};
use crate::op::ShelfOp;
use dory_base::{Event, Shape};
use logbook::{Offer, Seen, Start, Word};
use std::marker::Model;

/// A published history, of which only the lengths are kept.
#[derive(Drop)]
pub struct Front {
    shape: Shape,
    retained: u32,
    operations: u64,
    entries: u32,
    seen: Seen<Event, u64, Law>,
}

impl Model for Front {
    ghost use Rattle.dory_shelf.specs.Published.{Published, IsFront, published};

    ghost Value = { Published };

    ghost view = { λ f. published f.seen.book f.shape f.retained f.seen.log };

    ghost invariant = { λ f. IsFront (published f.seen.book f.shape f.retained f.seen.log) f.operations f.entries };
}

/// A new book, with the front that has seen nothing.
pub fn open_book(shape: Shape, retained: u32) -> (Head, Front)
    requires { 1 ≤ retained }
    ensures book { result.0.word.book ≡ result.1.shelf.book }
    ensures shelf { (result.1.shelf.shape ≡ shape) × (result.1.shelf.retained ≡ retained) }
    ensures empty { result.1.events ≡ [] }
{
    let (seen, mut first, _second) = Seen::open(Start::alone(), 0, 0);
    (
        Head {
            word: Word::tracked(0, &mut first),
        },
        Front {
            shape,
            retained,
            operations: 0,
            entries: 0,
            seen,
        },
    )
}

impl Front {
    /// The shape of its folder.
    pub fn shape(&self) -> Shape
        ensures { result ≡ self.now.shelf.shape }
    {
        self.shape
    }

    /// How many operations it has.
    pub fn operations(&self) -> u64
        ensures value { result ≡ length self.now.events }
        ensures lawful { IsLawful self.now }
    {
        self.operations
    }

    /// How many updates it has appended.
    pub fn length(&self) -> u32
        ensures value { result ≡ newest_of self.now }
        ensures lawful { IsLawful self.now }
    {
        self.entries
    }

    /// The oldest version that is retained.
    pub fn oldest(&self) -> u32
        ensures { result ≡ oldest_of self.now }
    {
        (self.entries + 1).saturating_sub(self.retained)
    }

    /// Whether the version of this number is retained.
    pub fn retains(&self, number: u32) -> bool
        ensures { result ≡ is_retained self.now number }
    {
        self.oldest() <= number && number <= self.entries
    }

    /// A copy.
    pub fn again(&self) -> Front
        ensures value { result ≡ self.now }
        ensures lawful { IsLawful result }
        ensures some { 1 ≤ result.shelf.retained }
    {
        Front {
            shape: self.shape,
            retained: self.retained,
            operations: self.operations,
            entries: self.entries,
            seen: self.seen.again(),
        }
    }

    /// The longer of two histories of a shelf, which begins with both.
    pub fn longer(&self, other: &Front) -> Front
        requires { other.now.shelf ≡ self.now.shelf }
        ensures one { (result ≡ self.now) ⊎ (result ≡ other.now) }
        ensures this { Grew self.now result }
        ensures that { Grew other.now result }
    {
        let mut both = self.seen.again();
        both.learn(&other.seen);
        if self.operations < other.operations {
            other.again()
        } else {
            self.again()
        }
    }

    /// Of two histories of a shelf, the one with fewer updates has the first updates of the other.
    pub fn compare(&self, other: &Front)
        requires { other.now.shelf ≡ self.now.shelf }
        ensures { newest_of self.now ≤ newest_of other.now → history_of self.now ≡ take (newest_of self.now) (history_of other.now) }
    {
        let mut both = self.seen.again();
        both.learn(&other.seen);
    }

    /// How many updates it has appended with one operation more.
    fn length_with(&self, op: &ShelfOp) -> u32
        requires { MayFollow self.now (event_of op.now) }
        ensures { result ≡ newest_of (with_event self.now (event_of op.now)) }
    {
        match op {
            ShelfOp::Staged(_) => self.entries,
            ShelfOp::Appended(_, _) => self.entries + 1,
        }
    }

    /// Adds an operation to all that was seen, and says whether it did. It did not where the book has more.
    pub fn add(&mut self, head: &Head, op: &ShelfOp) -> bool
        requires book { head.now.word.book ≡ self.old.shelf.book }
        requires lawful { MayFollow self.old (event_of op.now) }
        ensures { MatchBool result (self.new ≡ with_event self.old (event_of op.now)) (self.new ≡ self.old) }
    {
        let entries = self.length_with(op);
        let mut seen = self.seen.again();
        let mut offer: Offer<Event, u64, Law, Nothing> = seen.plain::<Nothing, ShelfOp, Add>(op);
        let mut pen = seen.no_pen();
        let operations = self.operations;
        let found = head.word.compare_exchange::<Add, Nothing>(
            operations,
            operations + 1,
            &mut seen,
            &mut offer,
            &mut pen,
        );
        if found != operations {
            return false;
        }
        *self = Front {
            shape: self.shape,
            retained: self.retained,
            operations: operations + 1,
            entries,
            seen,
        };
        true
    }
}
