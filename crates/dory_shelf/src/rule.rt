//! The kinds of step of a shelf. A view is what a reader has seen, or nothing.
use crate::store::Store;
use atomic_table::{Join, Split};
use crossbeam_utils::rule::{Outcome, Protocol};

/// The rule of a shelf.
pub struct Shelved;

impl Protocol<Store, Option<Store>> for Shelved {
    ghost use Rattle.std.specs.Prelude.{None};
    ghost use Rattle.dory_shelf.specs.ShelfRule.{Keeps};

    ghost holds = { Keeps };

    ghost first = { None };
}

/// A reader enters, or the writer publishes.
pub struct Sees;

impl Outcome<Store, Option<Store>> for Sees {
    ghost use Rattle.dory_shelf.specs.ShelfRule.{Sees};

    ghost then = { Sees };
}

/// The writer tells a reader that is seated what it has published.
pub struct Tells;

impl Split<Option<Store>> for Tells {
    ghost left = { λ v. v };

    ghost right = { λ v. v };
}

/// The reader that is seated learns it.
pub struct Learns;

impl Join<Option<Store>> for Learns {
    ghost use Rattle.std.specs.Prelude.{None};

    ghost both = { λ v w. w };

    ghost spent = { None };
}
