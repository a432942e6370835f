//! What a domain that isn't honest puts.
ghost use Rattle.std.specs.Prelude.{◌≡◌, ◌+◌, ◌≤◌, ◌<◌, IfOk, length};
ghost use Rattle.dory_run.specs.Happening.{bent, is_told, is_within, lies, same_side};

use crate::note::Note;
use dory_base::{MemberId, NoMemory, Side};
use dory_run::{Bytes, Honest};
use std::alloc::Global;

/// Whether the domain isn't honest.
pub fn lies(honest: Honest, side: Side) -> bool
    ensures { result ≡ lies honest side }
{
    match (honest, side) {
        (Honest::Lead, Side::Follow) => true,
        (Honest::Follow, Side::Lead) => true,
        _ => false,
    }
}

/// Whether the two are one side.
pub fn same_side(a: Side, b: Side) -> bool
    ensures { result ≡ same_side a b }
{
    a == b
}

/// Whether bytes are at most as many as the longest frame has.
pub fn is_told(bytes: &[u8]) -> bool
    ensures { result ≡ is_told bytes.now }
{
    bytes.len() <= 1_048_580
}

/// Whether a mask from this place on stays within a frame.
pub fn is_within(at: u32, mask: &[u8], frame: &[u8]) -> bool
    ensures { result ≡ is_within at mask.now frame.now }
{
    at as usize + mask.len() <= frame.len()
}

/// XORs a mask into bytes from one place on.
fn xor_from(bytes: &mut [u8], at: usize, mask: &[u8])
    requires { at + length mask.now ≤ length bytes.old }
    ensures { bytes.new ≡ bent at mask.now bytes.old }
{
    for i in 0..mask.len() {
        bytes[at + i] ^= mask[i];
    }
}

/// Equal bytes.
pub fn copied(alloc: Global, bytes: &[u8]) -> Result<Vec<u8>, NoMemory>
    ensures { IfOk result (λ b. b.items ≡ bytes.now) }
{
    let copy = bytes.to_vec(alloc)?;
    Ok(copy)
}

/// A frame whose bytes from one place on are XORed by a mask.
pub fn bent(alloc: Global, at: u32, mask: &[u8], frame: &[u8]) -> Result<Vec<u8>, NoMemory>
    requires { at + length mask.now ≤ length frame.now }
    ensures { IfOk result (λ b. b.items ≡ bent at mask.now frame.now) }
{
    let mut bytes = copied(alloc, frame)?;
    xor_from(&mut bytes, at as usize, mask);
    Ok(bytes)
}
