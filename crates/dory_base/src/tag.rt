//! Sixteen bytes that authenticate a cell, which contracts see as a number.
ghost use Rattle.std.specs.Prelude.{◌≡◌, ◌<◌, ◌^◌, ◌↔◌, IsTrue, bit_xor};

use std::marker::Model;

/// The tag of a cell, or the XOR of such tags. The number has the highest byte first.
#[derive(Clone, Copy, Debug)]
pub struct Tag(pub [u8; 16]);

impl Model for Tag {
    ghost use Rattle.std.specs.Prelude.{ℕ};
    ghost use Rattle.std.proofs.Common.{ap};
    ghost use Rattle.dory_base.specs.TagBytes.{IsTagBytes, tag_number, tag_bytes, tag_bytes-tag_number};

    ghost Value = { ℕ };

    ghost view = { λ a. tag_number a.0 };

    ghost invariant = { λ a. IsTagBytes a.0 };

    ghost inverse = { λ n. record { 0 = tag_bytes n } };

    ghost inverse_ok = { λ a h. ap (λ bytes. record { 0 = bytes }) (tag_bytes-tag_number a.0 h) };
}

impl PartialEq for Tag {
    ghost use Rattle.std.specs.Prelude.{◌==◌};
    ghost use Rattle.std.proofs.Common.{rules};
    ghost use Rattle.std.specs.Cmp.Rules.{comparing};

    ghost eq = { λ a b. a == b };

    ghost laws = { Prim.search (comparing, rules) };

    fn eq(&self, other: &Tag) -> bool {
        self.same(other)
    }
}

impl Eq for Tag {
    ghost use Rattle.std.proofs.Common.{rules};
    ghost use Rattle.std.specs.Cmp.Rules.{comparing};

    ghost laws = { Prim.search (comparing, rules) };
}

impl Tag {
    ghost use Rattle.dory_base.specs.TagBytes.{tag_number, tag_bytes};

    /// The tag of sixteen zero bytes.
    pub fn zero() -> Tag
        ensures { result ≡ 0 }
    {
        Tag([0; 16])
    }

    /// The tag that these bytes are.
    pub fn of(bytes: [u8; 16]) -> Tag
        ensures { result ≡ tag_number bytes }
    {
        Tag(bytes)
    }

    pub fn bytes(&self) -> [u8; 16]
        ensures value { tag_number result ≡ self.now }
        ensures bytes { result ≡ tag_bytes self.now }
        ensures few { self.now < 2 ^ 128 }
    {
        self.0
    }

    /// Whether the two are one tag.
    pub fn same(&self, other: &Tag) -> bool
        ensures { IsTrue result ↔ (self.now ≡ other.now) }
    {
        self.bytes() == other.bytes()
    }

    /// The XOR byte by byte.
    pub fn xor(&self, other: &Tag) -> Tag
        ensures { result ≡ bit_xor self.now other.now }
    {
        let a = self.0;
        let b = other.0;
        let high = u64::from_be_bytes([a[0], a[1], a[2], a[3], a[4], a[5], a[6], a[7]])
            ^ u64::from_be_bytes([b[0], b[1], b[2], b[3], b[4], b[5], b[6], b[7]]);
        let low = u64::from_be_bytes([a[8], a[9], a[10], a[11], a[12], a[13], a[14], a[15]])
            ^ u64::from_be_bytes([b[8], b[9], b[10], b[11], b[12], b[13], b[14], b[15]]);
        let h = high.to_be_bytes();
        let l = low.to_be_bytes();
        Tag([
            h[0], h[1], h[2], h[3], h[4], h[5], h[6], h[7], l[0], l[1], l[2], l[3], l[4], l[5],
            l[6], l[7],
        ])
    }
}
