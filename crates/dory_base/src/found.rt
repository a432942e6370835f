//! What a domain answers to a search: the documents of a version, and a sum for each probe.
ghost use Rattle.std.specs.Prelude.{◌≡◌, map};
ghost use Rattle.std.specs.List.Sorted.{IsStrictlyIncreasing};

use crate::{Bits, DocId, Tag, UpdateId};
use std::marker::Model;

/// A line of a manifest: a live slot, and the document and the update in it.
#[derive(Clone, Copy, Debug, PartialEq, Eq)]
pub struct Place {
    pub slot: u16,
    pub doc: DocId,
    pub id: UpdateId,
}

/// The live slots of a version, whose numbers rise strictly.
#[derive(Debug, Drop)]
pub struct Manifest {
    places: Vec<Place>,
}

impl Model for Manifest {
    ghost use Rattle.std.specs.Prelude.{List, map};
    ghost use Rattle.std.specs.List.Sorted.{IsStrictlyIncreasing};
    ghost use Rattle.dory_base.specs.declared.found.Place.{Place};

    ghost Value = { List Place };

    ghost view = { λ a. a.places.items };

    ghost invariant = { λ a. IsStrictlyIncreasing (map (λ p. p.slot) a.places.items) };
}

impl Manifest {
    pub fn of(places: Vec<Place>) -> Manifest
        requires { IsStrictlyIncreasing (map (λ p. p.slot) places.items) }
        ensures { result ≡ places.items }
    {
        Manifest { places }
    }

    pub fn items(&self) -> &[Place]
        ensures value { result.now ≡ self.now }
        ensures rising { IsStrictlyIncreasing (map (λ p. p.slot) self.now) }
    {
        &self.places
    }
}

/// A domain's share of the answer to one probe: a parity for each live slot, and the XOR of the tags of the cells
/// that the probe selects.
#[derive(Debug, Drop)]
pub struct Sum {
    pub bits: Bits,
    pub tag: Tag,
}

/// A sum for each probe.
#[derive(Debug, Drop)]
pub struct Sums {
    sums: Vec<Sum>,
}

impl Model for Sums {
    ghost use Rattle.std.specs.Prelude.{List};
    ghost use Rattle.dory_base.specs.declared.found.Sum.{Sum};

    ghost Value = { List Sum };

    ghost view = { λ a. a.sums.items };
}

impl Sums {
    pub fn of(sums: Vec<Sum>) -> Sums
        ensures { result ≡ sums.items }
    {
        Sums { sums }
    }

    pub fn items(&self) -> &[Sum]
        ensures { result.now ≡ self.now }
    {
        &self.sums
    }
}

/// What a version holds, as one domain answers a search.
#[derive(Debug, Drop)]
pub struct Found {
    pub version: u32,
    pub manifest: Manifest,
    pub sums: Sums,
}
