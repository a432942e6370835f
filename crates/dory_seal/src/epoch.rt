//! The epoch of an update, and the keys of an epoch.
ghost use Rattle.std.specs.Prelude.{◌≡◌, ◌/◌, ◌^◌, ◌++◌, ◌∷◌, [], codes};
ghost use Rattle.dory_hmac.specs.Hmac.{hmac};
ghost use Rattle.dory_seal.specs.Epoch.{epoch_of, epoch_key};

use dory_base::UpdateId;
use dory_hmac::Mac;

/// The epoch of an update: the highest byte of its serial.
pub fn epoch_of(id: UpdateId) -> u8
    ensures { result ≡ epoch_of id }
{
    highest_byte(id.serial)
}

fn highest_byte(serial: u64) -> u8
    ensures { result ≡ serial / 2 ^ 56 }
{
    (serial >> 56) as u8
}

/// A key of the folder in an epoch.
#[tactic(auto, unfolding(crate::specs::Epoch::epoch_key))]
pub(crate) fn key_in(epoch: u8, key: &[u8; 32]) -> [u8; 32]
    ensures { result ≡ epoch_key epoch key.now }
{
    if epoch == 0 {
        *key
    } else {
        labelled(epoch, key)
    }
}

/// The HMAC of the label and the epoch.
fn labelled(epoch: u8, key: &[u8; 32]) -> [u8; 32]
    ensures { result ≡ hmac key.now (codes "dory epoch" ++ epoch ∷ []) }
{
    let mut mac = Mac::new(key);
    mac.update(b"dory epoch");
    mac.update(&[epoch]);
    mac.finish()
}
