//! The book of a shelf: its history exists in proofs alone, and what threads share of it is the number of operations.
ghost use Rattle.std.specs.Prelude.{◌≡◌, true};

use crate::op::ShelfOp;
use dory_base::Event;
use logbook::{Gain, Plain, Play, Rule, Word};

/// The rule of a book.
pub struct Law;

impl Rule<Event, u64> for Law {
    ghost use Rattle.std.specs.Prelude.{[]};
    ghost use base.Fml.{ftrue};
    ghost use Rattle.dory_shelf.specs.BookRule.{IsKept};

    ghost holds = { λ cells events. IsKept cells events };

    ghost first = { [] };

    ghost hinted = { λ n events. Unit {0} };

    ghost shows = { λ events. [] };

    ghost keeps = { λ names events. ftrue };

    ghost moves = { λ ask before after answer. Unit {0} };
}

/// Callers trade nothing.
pub struct Nothing;

impl Gain<Event, u64> for Nothing {
    ghost use base.Fml.{ftrue};

    ghost after = { λ names about answer. ftrue };
}

/// A step that adds an operation.
pub struct Add;

impl Play<Event, u64> for Add {
    ghost use Rattle.dory_shelf.specs.BookRule.{Adds};

    ghost then = { Adds };
}

impl Plain<ShelfOp, Event, u64> for Add {
    ghost use Rattle.std.specs.Prelude.{None};
    ghost use Rattle.dory_shelf.specs.Ops.{event_of};

    ghost ask = { event_of };

    ghost state = { λ op. None };
}

/// The word of a book: how many operations it has.
#[derive(Drop)]
pub struct Head {
    pub word: Word<Event, u64, Law>,
    pub ghost first: { (word.tracked ≡ true) × (word.key ≡ 0) },
}
