//! The shape of a folder's rows, which contracts see as two numbers.
ghost use Rattle.std.specs.Prelude.{◌≡◌, ◌≤◌, ◌^◌, ◌↔◌, IsSome, IfSome, IsTrue};

use std::marker::Model;

/// A row has 2 to the depth columns, and a word has as many positions in it as there are probes.
#[derive(Clone, Copy, Debug, PartialEq, Eq)]
pub struct Shape {
    depth: u8,
    probes: u8,
}

impl Model for Shape {
    ghost use Rattle.dory_base.specs.Dims.{Dims, IsDims};

    ghost Value = { Dims };

    ghost view = { λ a. record { depth = a.depth; probes = a.probes } };

    ghost invariant = { λ a. IsDims (record { depth = a.depth; probes = a.probes }) };

    ghost inverse = { λ d. record { depth = d.depth; probes = d.probes } };
}

impl Shape {
    ghost use Rattle.dory_base.specs.Dims.{Dims, IsDims, same_shape};

    /// A depth of 8 to 11 and 1 to 8 probes.
    pub fn new(depth: u8, probes: u8) -> Option<Shape>
        ensures value { IfSome result (λ s. (s.depth ≡ depth) × (s.probes ≡ probes)) }
        ensures range { IsSome result ↔ ((8 ≤ depth) × (depth ≤ 11) × (1 ≤ probes) × (probes ≤ 8)) }
    {
        if depth >= 8 && depth <= 11 && probes >= 1 && probes <= 8 {
            Some(Shape { depth, probes })
        } else {
            None
        }
    }

    /// The shape of a depth and a number of probes that are in range.
    pub fn of(depth: u8, probes: u8) -> Shape
        requires { IsDims (record { depth = depth; probes = probes }) }
        ensures { result ≡ record { depth = depth; probes = probes } }
    {
        Shape { depth, probes }
    }

    pub fn depth(&self) -> u8
        ensures value { result ≡ self.now.depth }
        ensures range { IsDims self.now }
    {
        self.depth
    }

    pub fn probes(&self) -> u8
        ensures value { result ≡ self.now.probes }
        ensures range { IsDims self.now }
    {
        self.probes
    }

    /// Whether the two are one shape.
    pub fn same(&self, other: Shape) -> bool
        ensures { result ≡ same_shape self.now other }
    {
        self.depth == other.depth && self.probes == other.probes
    }

    /// The number of columns, 256 to 2,048.
    pub fn columns(&self) -> usize
        ensures value { result ≡ 2 ^ self.now.depth }
        ensures few { result ≤ 2048 }
        ensures range { IsDims self.now }
    {
        match self.depth {
            8 => 256,
            9 => 512,
            10 => 1024,
            _ => 2048,
        }
    }
}
