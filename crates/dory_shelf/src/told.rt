//! Notes, by which one reader learns what another has seen.
ghost use Rattle.std.specs.Prelude.{◌≡◌};
ghost use Rattle.dory_shelf.specs.Published.{IsLawful};
ghost use Rattle.dory_shelf.specs.Versions.{newest_of};

use crate::front::Front;
use dory_base::Shape;
use std::marker::Model;

/// A published history that was told. Contracts see it.
#[derive(Drop)]
pub struct Told {
    front: Front,
}

impl Model for Told {
    ghost use Rattle.dory_shelf.specs.Published.{Published};

    ghost Value = { Published };

    ghost view = { λ t. t.front };
}

impl Told {
    pub(crate) fn of(front: &Front) -> Told
        ensures { result ≡ front.now }
    {
        Told {
            front: front.again(),
        }
    }

    pub(crate) fn front(&self) -> &Front
        ensures { result.now ≡ self.now }
    {
        &self.front
    }

    /// The shape of its folder.
    pub fn shape(&self) -> Shape
        ensures { result ≡ self.now.shelf.shape }
    {
        self.front.shape()
    }

    /// How many updates it has appended.
    pub fn length(&self) -> u32
        ensures value { result ≡ newest_of self.now }
        ensures lawful { IsLawful self.now }
    {
        self.front.length()
    }

    /// A copy.
    pub fn again(&self) -> Told
        ensures { result ≡ self.now }
    {
        Told::of(&self.front)
    }
}
