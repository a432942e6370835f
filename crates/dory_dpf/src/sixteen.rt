//! Sixteen bytes as a string of bits.
ghost use Rattle.std.specs.Prelude.{◌≡◌, ◌<◌, ◌≤◌, ◌/◌, length, if◌then◌else◌};
ghost use Rattle.dory_dpf.specs.Sixteen.{byte_bit, one_bit, xor_bytes};

/// The XOR byte by byte.
#[inline(always)]
pub fn xor16(a: &[u8; 16], b: &[u8; 16]) -> [u8; 16]
    ensures { result ≡ xor_bytes a.now b.now }
{
    let mut out = *a;
    for i in 0..16 {
        out[i] ^= b[i];
    }
    out
}

/// A seed, XORed with a correction's where the bit is set.
#[inline(always)]
pub fn corrected(bit: bool, seed: &[u8; 16], correction: &[u8; 16]) -> [u8; 16]
    ensures { result ≡ if bit then xor_bytes seed.now correction.now else seed.now }
{
    if bit { xor16(seed, correction) } else { *seed }
}

/// The bit at a place, the lowest of each byte first.
pub fn bit_of(bytes: &[u8; 16], r: usize) -> bool
    requires { r < 128 }
    ensures { result ≡ byte_bit bytes.now r }
{
    (bytes[r / 8] >> (r % 8)) & 1 == 1
}

/// The bytes whose one set bit is this one.
pub fn only_bit(r: usize) -> [u8; 16]
    requires { r < 128 }
    ensures { result ≡ one_bit r }
{
    let mut bytes = [0u8; 16];
    bytes[r / 8] = 1 << (r % 8);
    bytes
}
