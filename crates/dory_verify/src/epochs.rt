//! Keys of one epoch, kept from line to line.
ghost use Rattle.std.specs.Prelude.{◌≡◌};
ghost use Rattle.dory_seal.specs.Epoch.{epoch_of};

use dory_base::UpdateId;
use dory_hmac::FolderKeys;
use dory_seal::{EpochKeys, epoch_of};

/// Makes the keys those of an update's epoch. Where they are already, nothing is hashed.
pub fn turn_to(recent: &mut EpochKeys, keys: &FolderKeys, id: UpdateId)
    requires { recent.old.keys ≡ keys.now }
    ensures keys { recent.new.keys ≡ keys.now }
    ensures epoch { epoch_of id ≡ recent.new.epoch }
{
    let epoch = epoch_of(id);
    if recent.epoch() != epoch {
        *recent = EpochKeys::new(keys, epoch);
    }
}
