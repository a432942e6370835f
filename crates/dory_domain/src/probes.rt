//! What a search selects: for each of its keys the key's share at each column.
ghost use Rattle.std.specs.Prelude.{◌≡◌, ◌^◌, length, map, IfOk};
ghost use Rattle.dory_dpf.specs.PointKey.{shares_of};
ghost use Rattle.dory_scan.specs.Found.{AreSelectors};
ghost use Rattle.dory_wire.specs.Spelling.{AreKeys};

use dory_base::{Bits, NoMemory, Shape};
use dory_dpf::{Key, Keys};
use dory_expand::expand;
use std::alloc::Global;

/// The selector of a key: its share at each column.
fn selector(alloc: Global, key: &Key) -> Result<Bits, NoMemory>
    ensures value { IfOk result (λ bits. bits ≡ shares_of key.now) }
    ensures len { IfOk result (λ bits. length bits ≡ 2 ^ key.now.depth) }
{
    let bits = expand(alloc, key)?;
    Ok(bits)
}

/// The selectors of these keys, in their order.
pub fn selectors(alloc: Global, shape: Shape, keys: &Keys) -> Result<Vec<Bits>, NoMemory>
    requires { AreKeys shape keys.now }
    ensures value { IfOk result (λ all. all.items ≡ map shares_of keys.now) }
    ensures wide { IfOk result (λ all. AreSelectors (2 ^ shape.depth) all.items) }
{
    let mut all = Vec::with_capacity(alloc, keys.items().len())?;
    for key in keys.items() {
        all.push(selector(alloc, key)?)?;
    }
    Ok(all)
}
