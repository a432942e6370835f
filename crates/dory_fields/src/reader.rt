//! A reader of fields, from left to right.
ghost use Rattle.std.specs.Prelude.{◌≡◌, ◌≢◌, ◌≤◌, ◌==◌, IfErr, IfOk, OnErr, length};
ghost use Rattle.std.specs.Int.{w16, w32, w64, from_be_bytes, is_in_range};
ghost use Rattle.dory_fields.specs.declared.fault.FieldFault.TheVariants.{CutShort, NoMemory, OutOfRange};
ghost use Rattle.dory_fields.specs.Reading.{Reads, bits_at, byte_at, field_at, number_at, place, tested_at};

use crate::fault::FieldFault;
use crate::packed::{is_padded, unpacked};
use dory_base::Bits;
use std::alloc::Global;
use std::marker::Model;

/// What is left of some bytes. A method takes the next field, and after a fault it has taken nothing.
#[derive(Debug, Drop)]
pub struct Reader<'a> {
    total: usize,
    rest: &'a [u8],
}

impl<'a> Model for Reader<'a> {
    ghost use Rattle.dory_fields.specs.Left.{Left};

    ghost Value = { Left };

    ghost view = { λ r. record { total = r.total; rest = r.rest.now } };
}

impl<'a> Reader<'a> {
    /// All of these bytes.
    pub fn new(bytes: &'a [u8]) -> Reader<'a>
        ensures { result ≡ record { total = length bytes.now; rest = bytes.now } }
    {
        Reader {
            total: bytes.len(),
            rest: bytes,
        }
    }

    /// These bytes, with which so many bytes in all end.
    pub fn within(total: usize, rest: &'a [u8]) -> Reader<'a>
        ensures { result ≡ record { total = total; rest = rest.now } }
    {
        Reader { total, rest }
    }

    /// A second reader with as much left.
    pub fn again(&self) -> Reader<'a>
        ensures { result ≡ self.now }
    {
        Reader {
            total: self.total,
            rest: self.rest,
        }
    }

    /// How many bytes were taken: the place of the next field.
    pub fn place(&self) -> usize
        ensures { result ≡ place self.now.total self.now.rest }
    {
        self.total.saturating_sub(self.rest.len())
    }

    /// Whether nothing is left.
    pub fn is_empty(&self) -> bool
        ensures { result ≡ (length self.now.rest == 0) }
    {
        self.rest.is_empty()
    }

    fn cut_short(&self) -> FieldFault
        ensures { result ≡ CutShort (place self.now.total self.now.rest) }
    {
        FieldFault::CutShort { at: self.place() }
    }

    fn out_of_range(&self) -> FieldFault
        ensures { result ≡ OutOfRange (place self.now.total self.now.rest) }
    {
        FieldFault::OutOfRange { at: self.place() }
    }

    /// So many bytes.
    pub fn slice(&mut self, n: usize) -> Result<&'a [u8], FieldFault>
        ensures value { Reads (λ x. x.now) result (field_at n) self.old self.new }
        ensures len { IfOk result (λ x. length x.now ≡ n) }
        ensures stays { OnErr result (self.new ≡ self.old) }
        ensures no_memory { IfErr result (λ e. e ≢ NoMemory) }
    {
        if self.rest.len() < n {
            return Err(self.cut_short());
        }
        let (field, rest) = self.rest.split_at(n);
        self.rest = rest;
        Ok(field)
    }

    /// An array of bytes.
    pub fn array<const N: usize>(&mut self) -> Result<[u8; N], FieldFault>
        ensures value { Reads (λ x. x) result (field_at N) self.old self.new }
        ensures stays { OnErr result (self.new ≡ self.old) }
        ensures no_memory { IfErr result (λ e. e ≢ NoMemory) }
    {
        let field = self.slice(N)?;
        let mut array = [0u8; N];
        array.copy_from_slice(field);
        Ok(array)
    }

    /// A byte from `least` to `most`.
    #[tactic(auto, unfolding(crate::specs::Reading::byte_at))]
    pub fn u8_in(&mut self, least: u8, most: u8) -> Result<u8, FieldFault>
        ensures value { Reads (λ x. x) result (byte_at (is_in_range least most)) self.old self.new }
        ensures range { IfOk result (λ x. (least ≤ x) × (x ≤ most)) }
        ensures stays { OnErr result (self.new ≡ self.old) }
        ensures no_memory { IfErr result (λ e. e ≢ NoMemory) }
    {
        match self.rest {
            [] => Err(self.cut_short()),
            [byte, rest @ ..] => {
                if least <= *byte && *byte <= most {
                    self.rest = rest;
                    Ok(*byte)
                } else {
                    Err(self.out_of_range())
                }
            }
        }
    }

    /// A number of two bytes.
    #[tactic(auto, unfolding(crate::specs::Reading::number_at))]
    pub fn u16(&mut self) -> Result<u16, FieldFault>
        ensures value { Reads (λ x. x) result (number_at w16) self.old self.new }
        ensures stays { OnErr result (self.new ≡ self.old) }
        ensures no_memory { IfErr result (λ e. e ≢ NoMemory) }
    {
        Ok(u16_of(self.slice(2)?))
    }

    /// A number of four bytes.
    #[tactic(auto, unfolding(crate::specs::Reading::number_at))]
    pub fn u32(&mut self) -> Result<u32, FieldFault>
        ensures value { Reads (λ x. x) result (number_at w32) self.old self.new }
        ensures stays { OnErr result (self.new ≡ self.old) }
        ensures no_memory { IfErr result (λ e. e ≢ NoMemory) }
    {
        Ok(u32_of(self.slice(4)?))
    }

    /// A number of eight bytes.
    #[tactic(auto, unfolding(crate::specs::Reading::number_at))]
    pub fn u64(&mut self) -> Result<u64, FieldFault>
        ensures value { Reads (λ x. x) result (number_at w64) self.old self.new }
        ensures stays { OnErr result (self.new ≡ self.old) }
        ensures no_memory { IfErr result (λ e. e ≢ NoMemory) }
    {
        Ok(u64_of(self.slice(8)?))
    }

    /// A number of two bytes, from `least` to `most`.
    #[tactic(auto, unfolding(crate::specs::Reading::tested_at))]
    pub fn u16_in(&mut self, least: u16, most: u16) -> Result<u16, FieldFault>
        ensures value { Reads (λ x. x) result (tested_at w16 (is_in_range least most)) self.old self.new }
        ensures range { IfOk result (λ x. (least ≤ x) × (x ≤ most)) }
        ensures stays { OnErr result (self.new ≡ self.old) }
        ensures no_memory { IfErr result (λ e. e ≢ NoMemory) }
    {
        let field = self.rest;
        let n = self.u16()?;
        if least <= n && n <= most {
            Ok(n)
        } else {
            self.rest = field;
            Err(self.out_of_range())
        }
    }

    /// A number of four bytes, from `least` to `most`.
    #[tactic(auto, unfolding(crate::specs::Reading::tested_at))]
    pub fn u32_in(&mut self, least: u32, most: u32) -> Result<u32, FieldFault>
        ensures value { Reads (λ x. x) result (tested_at w32 (is_in_range least most)) self.old self.new }
        ensures range { IfOk result (λ x. (least ≤ x) × (x ≤ most)) }
        ensures stays { OnErr result (self.new ≡ self.old) }
        ensures no_memory { IfErr result (λ e. e ≢ NoMemory) }
    {
        let field = self.rest;
        let n = self.u32()?;
        if least <= n && n <= most {
            Ok(n)
        } else {
            self.rest = field;
            Err(self.out_of_range())
        }
    }

    /// A number of eight bytes, from `least` to `most`.
    #[tactic(auto, unfolding(crate::specs::Reading::tested_at))]
    pub fn u64_in(&mut self, least: u64, most: u64) -> Result<u64, FieldFault>
        ensures value { Reads (λ x. x) result (tested_at w64 (is_in_range least most)) self.old self.new }
        ensures range { IfOk result (λ x. (least ≤ x) × (x ≤ most)) }
        ensures stays { OnErr result (self.new ≡ self.old) }
        ensures no_memory { IfErr result (λ e. e ≢ NoMemory) }
    {
        let field = self.rest;
        let n = self.u64()?;
        if least <= n && n <= most {
            Ok(n)
        } else {
            self.rest = field;
            Err(self.out_of_range())
        }
    }

    /// So many bits, and zeros up to the end of the last byte.
    #[tactic(auto, unfolding(crate::specs::Reading::bits_at))]
    pub fn bits(&mut self, alloc: Global, count: usize) -> Result<Bits, FieldFault>
        requires { count ≤ 4096 }
        ensures value { Reads (λ x. x) result (bits_at count) self.old self.new }
        ensures stays { OnErr result (self.new ≡ self.old) }
    {
        let field = self.rest;
        let packed = self.slice((count + 7) / 8)?;
        if !is_padded(packed, count) {
            self.rest = field;
            return Err(self.out_of_range());
        }
        match unpacked(alloc, packed, count) {
            Ok(bits) => Ok(bits),
            Err(_) => {
                self.rest = field;
                Err(FieldFault::NoMemory)
            }
        }
    }
}

fn u16_of(bytes: &[u8]) -> u16
    requires { length bytes.now ≡ 2 }
    ensures { result ≡ from_be_bytes w16 bytes.now }
{
    u16::from_be_bytes([bytes[0], bytes[1]])
}

/// The number that four bytes are.
pub fn u32_of(bytes: &[u8]) -> u32
    requires { length bytes.now ≡ 4 }
    ensures { result ≡ from_be_bytes w32 bytes.now }
{
    u32::from_be_bytes([bytes[0], bytes[1], bytes[2], bytes[3]])
}

/// The number that eight bytes are.
pub fn u64_of(bytes: &[u8]) -> u64
    requires { length bytes.now ≡ 8 }
    ensures { result ≡ from_be_bytes w64 bytes.now }
{
    u64::from_be_bytes([
        bytes[0], bytes[1], bytes[2], bytes[3], bytes[4], bytes[5], bytes[6], bytes[7],
    ])
}
