//! One member's committed updates, in the order of their serials.
ghost use Rattle.std.specs.Prelude.{◌≡◌, ◌<◌, AllPairs};
ghost use Rattle.dory_log.specs.Own.{number_among, serial_after};

/// A committed update of a member: its serial and its number.
#[derive(Clone, Copy, Debug, PartialEq, Eq)]
pub struct Own {
    pub serial: u64,
    pub number: u32,
}

/// The number of the update with this serial.
pub fn find(own: &[Own], serial: u64) -> Option<u32>
    requires { AllPairs (λ a b. a.serial < b.serial) own.now }
    ensures { result ≡ number_among own.now serial }
{
    let mut low = 0;
    let mut high = own.len();
    while low < high {
        let mid = low + (high - low) / 2;
        if own[mid].serial < serial {
            low = mid + 1;
        } else {
            high = mid;
        }
    }
    if low < own.len() && own[low].serial == serial {
        Some(own[low].number)
    } else {
        None
    }
}

/// The serial of the last one, or 0.
pub fn last(own: &[Own]) -> u64
    ensures { result ≡ serial_after 0 own.now }
{
    if own.is_empty() {
        0
    } else {
        own[own.len() - 1].serial
    }
}
