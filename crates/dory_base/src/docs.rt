//! A list of documents as a search gives it.
ghost use Rattle.std.specs.Prelude.{◌≡◌, map};
ghost use Rattle.std.specs.List.Sorted.{IsStrictlyIncreasing};

use crate::DocId;
use std::marker::Model;

/// Documents whose numbers rise strictly, so none stands twice.
#[derive(Debug, Drop)]
pub struct Docs {
    docs: Vec<DocId>,
}

impl Model for Docs {
    ghost use Rattle.std.specs.Prelude.{List, map};
    ghost use Rattle.std.specs.List.Sorted.{IsStrictlyIncreasing};
    ghost use Rattle.dory_base.specs.declared.ids.DocId.{DocId};

    ghost Value = { List DocId };

    ghost view = { λ a. a.docs.items };

    ghost invariant = { λ a. IsStrictlyIncreasing (map (λ d. d.0) a.docs.items) };
}

impl Docs {
    pub fn of(docs: Vec<DocId>) -> Docs
        requires { IsStrictlyIncreasing (map (λ d. d.0) docs.items) }
        ensures { result ≡ docs.items }
    {
        Docs { docs }
    }

    pub fn items(&self) -> &[DocId]
        ensures value { result.now ≡ self.now }
        ensures rising { IsStrictlyIncreasing (map (λ d. d.0) self.now) }
    {
        &self.docs
    }
}
