//! The keys of one folder, each made from the master key for one use, so that no two uses share one.

ghost use Rattle.std.specs.Prelude.{◌≡◌, ◌++◌};
ghost use Rattle.std.specs.Int.{w32, to_be_bytes};
ghost use Rattle.dory_hmac.specs.Hmac.{hmac_of_block};
ghost use Rattle.dory_hmac.specs.FolderKeys.{keys_of};

use crate::keyed::KeyedMac;

/// The keys that a folder's words, masks and tags are made with.
#[derive(Clone, Copy)]
pub struct FolderKeys {
    /// Chooses the positions of a word.
    pub word: [u8; 32],
    /// Makes the mask bits of a row's cells.
    pub mask: [u8; 32],
    /// Makes the tags of a row's cells.
    pub tag: [u8; 32],
}

impl FolderKeys {
    /// The keys of the folder with the number `folder`, under the key `master`.
    pub fn derive(master: &[u8; 32], folder: u32) -> FolderKeys
        ensures { result ≡ keys_of master.now folder }
    {
        let keyed = KeyedMac::new(master);
        FolderKeys {
            word: labelled(&keyed, b"dory word", folder),
            mask: labelled(&keyed, b"dory mask", folder),
            tag: labelled(&keyed, b"dory tag", folder),
        }
    }
}

// The tag of the label and the folder's number.
fn labelled(master: &KeyedMac, label: &[u8], folder: u32) -> [u8; 32]
    ensures { result ≡ hmac_of_block master.now (label.now ++ to_be_bytes w32 folder) }
{
    let mut mac = master.begin();
    mac.update(label);
    mac.update(&folder.to_be_bytes());
    mac.finish()
}
