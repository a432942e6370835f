//! The key of a party, which contracts see as a record of lists.
ghost use Rattle.std.specs.Prelude.{◌≡◌, ◌≤◌, ◌<◌, ◌+◌, ◌^◌, IfSome, IfNone, length, None, Some, slice_index_or};
ghost use Rattle.dory_dpf.specs.PointKey.{IsKey, form_of, form_with, kept_key, levels_of, root_of};

use crate::tree::{Correction, Node};
use std::marker::Model;

/// A key of form 1 has a correction for each level of the tree. A key of form 2 has seven fewer and a last word, which
/// stands for the 128 places of a leaf.
#[derive(Debug, Drop)]
pub struct Key {
    depth: u8,
    party: u8,
    seed: [u8; 16],
    corrections: [Correction; 11],
    last: Option<[u8; 16]>,
}

impl Model for Key {
    ghost use Rattle.dory_dpf.specs.PointKey.{PointKey, IsKey, kept_key};

    ghost Value = { PointKey };

    ghost view = { λ k. kept_key k.depth k.party k.seed k.corrections k.last };

    ghost invariant = { λ k. IsKey (kept_key k.depth k.party k.seed k.corrections k.last) };
}

impl Key {
    ghost use Rattle.dory_dpf.specs.PointKey.{IsKey, form_of, kept_key, levels_of, root_of};
    ghost use Rattle.dory_dpf.specs.declared.tree.Correction.{Correction as CorrectionOf};

    /// The key with these parts. A key of form 2 takes the corrections of its levels alone.
    pub fn of_parts(
        depth: u8,
        party: u8,
        seed: &[u8; 16],
        corrections: &[Correction; 11],
        last: Option<[u8; 16]>,
    ) -> Key
        requires { IsKey (kept_key depth party seed.now corrections.now last) }
        ensures { result ≡ kept_key depth party seed.now corrections.now last }
    {
        Key {
            depth,
            party,
            seed: *seed,
            corrections: *corrections,
            last,
        }
    }

    /// An equal key.
    pub fn again(&self) -> Key
        ensures { result ≡ self.now }
    {
        Key {
            depth: self.depth,
            party: self.party,
            seed: self.seed,
            corrections: self.corrections,
            last: self.last,
        }
    }

    /// 1, or 2 for a key with a last word.
    pub fn form(&self) -> u8
        ensures { result ≡ form_of self.now }
    {
        match self.last {
            None => 1,
            Some(_) => 2,
        }
    }

    pub fn depth(&self) -> u8
        ensures value { result ≡ self.now.depth }
        ensures key { IsKey self.now }
    {
        self.depth
    }

    /// 0 for the lead, 1 for the follower.
    pub fn party(&self) -> u8
        ensures value { result ≡ self.now.party }
        ensures few { result ≤ 1 }
    {
        self.party
    }

    pub fn seed(&self) -> &[u8; 16]
        ensures { result.now ≡ self.now.seed }
    {
        &self.seed
    }

    /// How many corrections there are.
    pub fn levels(&self) -> usize
        ensures value { result ≡ levels_of (form_of self.now) self.now.depth }
        ensures len { result ≡ length self.now.corrections }
        ensures few { result ≤ 11 }
    {
        match self.last {
            None => self.depth as usize,
            Some(_) => self.depth as usize - 7,
        }
    }

    /// The correction of a level.
    pub fn correction(&self, level: usize) -> &Correction
        requires { level < length self.now.corrections }
        ensures { (d : CorrectionOf) → result.now ≡ slice_index_or self.now.corrections level d }
    {
        &self.corrections()[level]
    }

    /// All corrections.
    pub fn corrections(&self) -> &[Correction]
        ensures value { result.now ≡ self.now.corrections }
        ensures key { IsKey self.now }
    {
        &self.corrections[..self.levels()]
    }

    /// The last word, where there is one.
    pub fn last(&self) -> Option<&[u8; 16]>
        ensures some { IfSome result (λ word. self.now.last ≡ Some word.now) }
        ensures none { IfNone result (self.now.last ≡ None) }
    {
        self.last.as_ref()
    }

    /// Where the walks begin.
    pub fn root(&self) -> Node
        ensures { result ≡ root_of self.now.party self.now.seed }
    {
        Node {
            seed: self.seed,
            bit: self.party == 1,
        }
    }
}
