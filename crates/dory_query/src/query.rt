//! One search as it is asked of both domains.
ghost use Rattle.std.specs.Prelude.{◌≡◌, ◌≤◌, ◌<◌, ◌-◌, ◌^◌, ◌∷◌, [], ◌++◌, length, map, replicate, IfOk};
ghost use Rattle.std.specs.List.{AllByRecursion};
ghost use Rattle.dory_base.specs.declared.ids.AskId.{AskId as AskOf};
ghost use Rattle.dory_bloom.specs.Positions.{positions_of};
ghost use Rattle.dory_dpf.specs.PointKey.{IsKeyOf, shares_of};
ghost use Rattle.dory_query.specs.Columns.{asked_columns};
ghost use Rattle.dory_query.specs.Drawn.{keys_from};
ghost use Rattle.dory_query.specs.Pairs.{ArePairs};

use crate::seeds::{drawn, seed_at};
use dory_base::{AskId, NoMemory, Shape, Word};
use dory_bloom::positions;
use dory_dpf::{Keys, gen_short};
use dory_hmac::FolderKeys;
use std::alloc::Global;

/// A word's columns with zeros after them, and what is asked of the lead and of the follower.
#[derive(Debug, Drop)]
pub struct Query {
    pub word_columns: [u16; 8],
    pub shape: Shape,
    pub version: u32,
    pub asks: [AskId; 2],
    pub lead_keys: Keys,
    pub follow_keys: Keys,
}

impl Query {
    /// The search for a word at a version. The keys are drawn from the seed, with the serial of the lead's ask as the
    /// stream: a seed may be used for one search of each serial.
    pub fn make(
        alloc: Global,
        keys: &FolderKeys,
        shape: Shape,
        word: &Word,
        version: u32,
        asks: [AskId; 2],
        seed: &[u8; 32],
    ) -> Result<Query, NoMemory>
        ensures columns { IfOk result (λ q. q.word_columns ≡ positions_of keys.now shape word.now ++ replicate (8 - shape.probes) 0) }
        ensures probed { IfOk result (λ q. asked_columns q ≡ positions_of keys.now shape word.now) }
        ensures shape { IfOk result (λ q. q.shape ≡ shape) }
        ensures version { IfOk result (λ q. q.version ≡ version) }
        ensures asks { IfOk result (λ q. q.asks ≡ asks) }
        ensures lead { (first second : AskOf) → asks ≡ first ∷ second ∷ [] →
            IfOk result (λ q. q.lead_keys ≡ keys_from 0 shape.depth seed.now first.serial 0 (positions_of keys.now shape word.now)) }
        ensures follow { (first second : AskOf) → asks ≡ first ∷ second ∷ [] →
            IfOk result (λ q. q.follow_keys ≡ keys_from 1 shape.depth seed.now first.serial 0 (positions_of keys.now shape word.now)) }
        // As many keys as probes for each party, of form 2 and of the row's depth.
        ensures lead_are { IfOk result (λ q. (length q.lead_keys ≡ shape.probes) × AllByRecursion (IsKeyOf 2 shape.depth) q.lead_keys) }
        ensures follow_are { IfOk result (λ q. (length q.follow_keys ≡ shape.probes) × AllByRecursion (IsKeyOf 2 shape.depth) q.follow_keys) }
        ensures pairs { IfOk result (λ q. ArePairs (2 ^ shape.depth) (positions_of keys.now shape word.now) (map shares_of q.lead_keys) (map shares_of q.follow_keys)) }
    {
        let mut word_columns = [0; 8];
        positions(keys, shape, word, &mut word_columns);
        let probes = shape.probes() as usize;
        let drawn = draw(alloc, shape, &word_columns[..probes], asks[0].serial, seed)?;
        let Drawn { lead, follow } = drawn;
        Ok(Query {
            word_columns,
            shape,
            version,
            asks,
            lead_keys: lead,
            follow_keys: follow,
        })
    }
}

/// The keys of both parties.
#[derive(Drop)]
struct Drawn {
    lead: Keys,
    follow: Keys,
}

/// Draws the keys for some columns.
fn draw(
    alloc: Global,
    shape: Shape,
    columns: &[u16],
    stream: u64,
    seed: &[u8; 32],
) -> Result<Drawn, NoMemory>
    requires few { length columns.now ≤ 8 }
    requires within { AllByRecursion (λ c. c < 2 ^ shape.depth) columns.now }
    ensures lead { IfOk result (λ drawn. drawn.lead ≡ keys_from 0 shape.depth seed.now stream 0 columns.now) }
    ensures follow { IfOk result (λ drawn. drawn.follow ≡ keys_from 1 shape.depth seed.now stream 0 columns.now) }
    ensures lead_are { IfOk result (λ drawn. (length drawn.lead ≡ length columns.now) × AllByRecursion (IsKeyOf 2 shape.depth) drawn.lead) }
    ensures follow_are { IfOk result (λ drawn. (length drawn.follow ≡ length columns.now) × AllByRecursion (IsKeyOf 2 shape.depth) drawn.follow) }
{
    let words = drawn(seed, stream);
    let mut lead = Vec::new(alloc);
    let mut follow = Vec::new(alloc);
    for probe in 0..columns.len() {
        let first = seed_at(&words, 8 * probe);
        let second = seed_at(&words, 8 * probe + 4);
        let (l, f) = gen_short(shape, columns[probe], first, second);
        let (_, _) = (l.depth(), f.depth());
        lead.push(l)?;
        follow.push(f)?;
    }
    Ok(Drawn {
        lead: Keys::of(lead),
        follow: Keys::of(follow),
    })
}
