//! Whether a row and a selector have an odd number of columns in common, by the kernel.
ghost use Rattle.std.specs.Prelude.{◌≡◌, ◌+◌, ◌/◌, ◌≤◌, Bool, List, length};
ghost use Rattle.dory_base.specs.Sum.{parity};
ghost use Rattle.dory_base.specs.TableMeaning.{Shows};

use dory_base::Bits;
use dory_kernel::RowKernel;

// The same of the words of both.
fn words_parity(kernel: &RowKernel, cells: &[u64], selector: &[u64]) -> bool
    requires same { length cells.now ≡ length selector.now }
    requires few { length cells.now ≤ 32 }
    ensures { (row chosen : List Bool) → length row ≡ length chosen → Shows cells.now row → Shows selector.now chosen → result ≡ parity chosen row }
{
    let odd = kernel.parity(cells, selector);
    odd
}

/// Whether an odd number of the selected cells is set.
pub fn row_parity(kernel: &RowKernel, cells: &[u64], selector: &Bits) -> bool
    requires wide { length cells.now ≡ (length selector.now + 63) / 64 }
    requires few { length selector.now ≤ 2048 }
    ensures { (row : List Bool) → length row ≡ length selector.now → Shows cells.now row → result ≡ parity selector.now row }
{
    words_parity(kernel, cells, selector.words())
}
