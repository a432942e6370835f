//! Paths to leaves: the leaf of a place, and the sides that lead there.
ghost use Rattle.std.specs.Prelude.{◌≡◌, ◌≤◌, ◌<◌, ◌-◌, ◌==◌};
ghost use Rattle.std.specs.Int.{bit_at};
ghost use Rattle.dory_dpf.specs.PointKey.{leaf_of};

/// The leaf of a place.
pub fn leaf_of(form: u8, place: u16) -> u16
    ensures { result ≡ leaf_of form place }
{
    if form == 1 { place } else { place / 128 }
}

/// Whether the path to a leaf goes right where this bit of its number decides.
pub fn goes_right(leaf: u16, bit: usize) -> bool
    requires { bit < 16 }
    ensures { result ≡ (bit_at leaf bit == 1) }
{
    (leaf >> bit) & 1 == 1
}
