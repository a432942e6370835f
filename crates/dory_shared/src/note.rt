//! Notes, by which one seat learns what another has seen.
ghost use Rattle.std.specs.Prelude.{◌≡◌};

use dory_base::FolderId;
use dory_shelf::Told;
use std::marker::Model;

/// A published history that was told of the folder of a number. Contracts see both.
#[derive(Drop)]
pub struct Note {
    pub(crate) folder: FolderId,
    pub(crate) told: Told,
}

impl Model for Note {
    ghost use Rattle.dory_shared.specs.Reading.{Noted};

    ghost Value = { Noted };

    ghost view = { λ n. record { number = n.folder.0; known = n.told } };
}
