//! Values that others have published or fixed, so that the checksums below them can be believed.

use crate::fault::Fault;
use dory_dpf::double;
use dory_hmac::mac;
use std::fmt;

/// Bytes that print as two digits each.
#[derive(Clone, Copy)]
struct Hex<'a>(&'a [u8]);

impl fmt::Display for Hex<'_> {
    fn fmt<W: fmt::Write>(&self, f: &mut fmt::Formatter<W>) -> fmt::Result {
        for byte in self.0 {
            write!(f, "{byte:02x}")?;
        }
        Ok(())
    }
}

/// Prints the HMAC of the second case of RFC 4231, and what a seed of zeros is doubled to.
pub fn print_known<P: Print>(rt: &P) -> Result<(), Fault> {
    let digest = mac(b"Jefe", b"what do ya want for nothing?");
    let doubled = double(&[0; 16]);
    let digest = Hex(&digest);
    let (left, right) = (Hex(&doubled.left), Hex(&doubled.right));
    let (left_bit, right_bit) = (u8::from(doubled.left_bit), u8::from(doubled.right_bit));
    let printed = println!(rt; "rfc-4231-case-2 {digest}");
    printed.map_err(|_| Fault::Output)?;
    let printed = println!(rt; "double-of-zeros {left} {left_bit} {right} {right_bit}");
    printed.map_err(|_| Fault::Output)
}
