//! Why bytes are no key.

/// The first thing that is wrong with the bytes: their number, then the depth, then a bit that must be zero.
#[derive(Clone, Copy, Debug, PartialEq, Eq)]
pub enum KeyFault {
    /// There are `got` bytes, where a key of the form and the depth has `want`.
    KeyLength { got: usize, want: usize },
    /// The first byte isn't the depth.
    KeyDepth { got: u8 },
    /// The byte at this place is the first with a bit set that must be zero.
    KeyPadding { at: usize },
}
