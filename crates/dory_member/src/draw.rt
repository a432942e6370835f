//! Serials, and the epochs that they are of.
ghost use Rattle.std.specs.Prelude.{◌≡◌, ◌==◌, ◌&&◌, ◌<◌, ◌^◌, ◌+◌, ◌*◌, if◌then◌else◌};
ghost use Rattle.dory_member.specs.Draw.{drawn, epoch_in, turned, is_used_up, is_last_epoch, is_last_serial};

use dory_state::KeptState;

/// How many serials an epoch has.
const EPOCH: u64 = 1 << 56;

/// How many posts an epoch may have.
const MOST: u32 = 65_536;

/// The epoch of a serial.
pub fn epoch_in(serial: u64) -> u8
    ensures { result ≡ epoch_in serial }
{
    (serial / EPOCH) as u8
}

/// The first serial of the epoch after a serial's.
fn next_epoch(serial: u64) -> u64
    requires { epoch_in serial < 255 }
    ensures { result ≡ (epoch_in serial + 1) * 2 ^ 56 }
{
    (serial / EPOCH + 1) * EPOCH
}

/// Whether no serial is left to draw.
pub fn is_last_serial(state: &KeptState) -> bool
    ensures { result ≡ is_last_serial state.now }
{
    state.next_serial == u64::MAX
}

/// Whether no epoch is left to begin.
pub fn is_last_epoch(state: &KeptState) -> bool
    requires { state.now.next_serial < 2 ^ 64 }
    ensures { result ≡ is_last_epoch state.now }
{
    epoch_in(state.next_serial) == 255
}

/// Whether the posts of the epoch are used up.
pub fn is_used_up(state: &KeptState) -> bool
    ensures { result ≡ is_used_up state.now }
{
    state.used == MOST
}

/// Whether a post would have to begin an epoch, and none is left.
pub fn is_spent(state: &KeptState) -> bool
    requires { state.now.next_serial < 2 ^ 64 }
    ensures { result ≡ (is_used_up state.now && is_last_epoch state.now) }
{
    is_used_up(state) && is_last_epoch(state)
}

/// Begins a new epoch.
pub fn turn(state: &mut KeptState)
    requires serial { state.old.next_serial < 2 ^ 64 }
    requires left { epoch_in state.old.next_serial < 255 }
    ensures { state.new ≡ turned state.old }
{
    state.next_serial = next_epoch(state.next_serial);
    state.used = 0;
}

/// The next serial after a drawn one, and how many posts are counted in its epoch.
fn after(serial: u64, used: u32) -> (u64, u32)
    requires { serial < 18446744073709551615 }
    ensures { result ≡ ((serial + 1), (if epoch_in (serial + 1) == epoch_in serial then used else 0)) }
{
    let next = serial + 1;
    if epoch_in(next) == epoch_in(serial) {
        (next, used)
    } else {
        (next, 0)
    }
}

/// Draws a serial, with so many posts counted.
pub fn draw(state: &mut KeptState, used: u32)
    requires { state.old.next_serial < 18446744073709551615 }
    ensures { state.new ≡ drawn state.old used }
{
    let (next, used) = after(state.next_serial, used);
    state.next_serial = next;
    state.used = used;
}
