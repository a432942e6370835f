//! Where a server is found.
ghost use Rattle.std.specs.Prelude.{◌≡◌, ◌↔◌, Some, IsTrue, option_map, slice_get};
ghost use Rattle.dory_io.specs.Address.{quad_text, address_text, between_dots as dotted, between_colons as parted, number_at, ip_in, address_of};
ghost use Rattle.dory_io.specs.Given.{IsBoundFor};

use crate::numbers::number;
use std::fmt;

/// An IPv4 address and a port.
#[derive(Clone, Copy, Debug, PartialEq, Eq)]
pub struct Address {
    pub ip: [u8; 4],
    pub port: u16,
}

/// The four numbers of an IPv4 address.
#[derive(Clone, Copy)]
struct Quad(u8, u8, u8, u8);

impl fmt::Display for Quad {
    ghost output = { λ quad. Some (quad_text quad.0 quad.1 quad.2 quad.3) };

    fn fmt<W: fmt::Write>(&self, f: &mut fmt::Formatter<W>) -> fmt::Result {
        let Quad(a, b, c, d) = *self;
        write!(f, "{a}.{b}.{c}.{d}")
    }
}

impl fmt::Display for Address {
    ghost output = { λ address. Some (address_text address) };

    fn fmt<W: fmt::Write>(&self, f: &mut fmt::Formatter<W>) -> fmt::Result {
        let [a, b, c, d] = self.ip;
        let quad = Quad(a, b, c, d);
        let port = self.port;
        write!(f, "{quad}:{port}")
    }
}

/// The text at a place between the dots.
fn between_dots(text: &str, place: usize) -> Option<&str>
    ensures { option_map (λ t. t.now) result ≡ slice_get (dotted text.now) place }
{
    text.split('.').nth(place)
}

/// The text at a place between the colons.
pub fn between_colons(text: &str, place: usize) -> Option<&str>
    ensures { option_map (λ t. t.now) result ≡ slice_get (parted text.now) place }
{
    text.split(':').nth(place)
}

/// The number below 256 at a place between the dots.
fn ip_part(text: &str, place: usize) -> Option<u8>
    ensures { result ≡ number_at place 0 255 (dotted text.now) }
{
    let part = between_dots(text, place)?;
    let n = number(part, 0, 255)?;
    Some(n as u8)
}

/// The four numbers of an IPv4 address.
fn read_ip(text: &str) -> Option<[u8; 4]>
    ensures { result ≡ ip_in (dotted text.now) }
{
    if between_dots(text, 4).is_some() {
        return None;
    }
    let a = ip_part(text, 0)?;
    let b = ip_part(text, 1)?;
    let c = ip_part(text, 2)?;
    let d = ip_part(text, 3)?;
    Some([a, b, c, d])
}

impl Address {
    /// The address that the text writes, as `127.0.0.1:7001`.
    pub fn read(text: &str) -> Option<Address>
        ensures { result ≡ address_of text.now }
    {
        if between_colons(text, 2).is_some() {
            return None;
        }
        let ip = read_ip(between_colons(text, 0)?)?;
        let port = number(between_colons(text, 1)?, 0, 65535)?;
        Some(Address {
            ip,
            port: port as u16,
        })
    }

    /// Whether it may be the bound one where `asked` was asked for, of which port 0 leaves the port open.
    pub fn is_for(&self, asked: &Address) -> bool
        ensures { IsTrue result ↔ IsBoundFor asked.now self.now }
    {
        self.ip == asked.ip && (asked.port == 0 || self.port == asked.port)
    }
}
