//! HMAC of a whole message in one call, for a key that is used once.

ghost use Rattle.std.specs.Prelude.{◌≡◌, ◌<◌, ◌^◌, ◌++◌, [], length};
ghost use Rattle.dory_hmac.specs.Hmac.{block_key, hmac, hmac_of_block};

use crate::running::Mac;

/// HMAC-SHA-256 of `message` under `key`.
pub fn mac(key: &[u8], message: &[u8]) -> [u8; 32]
    requires key { length key.now < 2 ^ 60 }
    requires message { length message.now < 2 ^ 60 }
    ensures { result ≡ hmac key.now message.now }
{
    let mut mac = Mac::new(key);
    mac.update(message);
    mac.finish()
}
