//! Members at two domains: replies that are lost, replies that lie, and what is posted, found and removed.
ghost use Rattle.std.specs.Prelude.{◌≡◌, ◌≤◌};
ghost use Rattle.dory_state.specs.Spelling.{IsKeptState};

mod hostile;
mod lies;
mod lost;
mod members;
mod pairs;
mod served;
mod shared;

use dory_base::{FolderId, MemberId, Shape};
use dory_state::KeptState;

/// A folder's master key.
pub const MASTER: [u8; 32] = [0; 32];

/// 256 columns, and two positions for a word.
pub fn shape() -> Shape
    ensures { result ≡ record { depth = 8; probes = 2 } }
{
    Shape::of(8, 2)
}

/// A state with nothing seen and nothing pending.
pub fn kept(member: u32, next_serial: u64) -> KeptState
    requires member { member ≤ 63 }
    requires some { 1 ≤ next_serial }
    ensures state { IsKeptState result }
    ensures shape { result.shape ≡ record { depth = 8; probes = 2 } }
{
    KeptState {
        folder: FolderId(1),
        member: MemberId(member),
        shape: shape(),
        master: MASTER,
        next_serial,
        seen: 0,
        used: 0,
        pending: None,
    }
}
