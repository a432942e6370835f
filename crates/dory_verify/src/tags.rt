//! The XOR of the cell tags of a manifest's lines in one column.
ghost use Rattle.std.specs.Prelude.{◌≡◌, ◌≤◌, ◌+◌, ◌==◌, ◌↔◌, true, length, drop, IsOk, IfErr};
ghost use Rattle.std.specs.List.{list_all};
ghost use Rattle.dory_base.specs.Sum.{xor_all};
ghost use Rattle.dory_seal.specs.Epoch.{epoch_of};
ghost use Rattle.dory_verify.specs.Tags.{tag_sum};

use crate::epochs::turn_to;
use dory_base::{Bits, DocId, Manifest, MemberId, Place, Tag, UpdateId};
use dory_hmac::FolderKeys;
use dory_seal::{Cell, EpochKeys, epoch_of};

/// The number of lines whose tags are hashed in one go, on the stack.
const RUN: usize = 64;

/// That a tag is the XOR of the cell tags of these bits over a manifest, in this column. Where it isn't, the XOR is
/// answered.
pub fn check_tags(
    keys: &FolderKeys,
    column: u16,
    manifest: &Manifest,
    bits: &Bits,
    got: &Tag,
) -> Result<(), Tag>
    requires { length bits.now ≡ length manifest.now }
    ensures ok { IsOk result ↔ (got.now ≡ tag_sum keys.now column manifest.now bits.now) }
    ensures want { IfErr result (λ want. want ≡ tag_sum keys.now column manifest.now bits.now) }
{
    let want = tag_sum(keys, column, manifest.items(), bits);
    if got.same(&want) { Ok(()) } else { Err(want) }
}

/// The XOR, run by run.
fn tag_sum(keys: &FolderKeys, column: u16, places: &[Place], bits: &Bits) -> Tag
    requires { length bits.now ≡ length places.now }
    ensures { result ≡ tag_sum keys.now column places.now bits.now }
{
    let runs = bits.len() / RUN;
    let mut recent = EpochKeys::new(keys, 0);
    let mut sum = Tag::zero();
    for run in 0..runs {
        let from = RUN * run;
        let more = run_sum(
            &mut recent,
            keys,
            column,
            &places[from..from + RUN],
            bits,
            from,
        );
        sum = sum.xor(&more);
    }
    let from = RUN * runs;
    let more = run_sum(&mut recent, keys, column, &places[from..], bits, from);
    sum.xor(&more)
}

/// The XOR over at most 64 lines, whose bits begin at `from`.
fn run_sum(
    recent: &mut EpochKeys,
    keys: &FolderKeys,
    column: u16,
    places: &[Place],
    bits: &Bits,
    from: usize,
) -> Tag
    requires kept { recent.old.keys ≡ keys.now }
    requires few { length places.now ≤ 64 }
    requires low { from ≤ 4096 }
    requires near { from + length places.now ≤ length bits.now }
    ensures keys { recent.new.keys ≡ keys.now }
    ensures value { result ≡ tag_sum keys.now column places.now (drop from bits.now) }
{
    let Some(first) = places.first() else {
        return Tag::zero();
    };
    turn_to(recent, keys, first.id);
    if are_in_epoch(places, recent.epoch()) {
        by_lanes(recent, column, places, bits, from)
    } else {
        one_by_one(recent, keys, column, places, bits, from)
    }
}

/// Whether all lines are of one epoch.
fn are_in_epoch(places: &[Place], epoch: u8) -> bool
    ensures { result ≡ list_all (λ p. epoch_of p.id == epoch) places.now }
{
    places.iter().all(|place| epoch_of(place.id) == epoch)
}

/// The XOR over lines of one epoch, hashed several at a time.
fn by_lanes(keys: &EpochKeys, column: u16, places: &[Place], bits: &Bits, from: usize) -> Tag
    requires few { length places.now ≤ 64 }
    requires low { from ≤ 4096 }
    requires near { from + length places.now ≤ length bits.now }
    requires epoch { list_all (λ p. epoch_of p.id == keys.now.epoch) places.now ≡ true }
    ensures { result ≡ tag_sum keys.now.keys column places.now (drop from bits.now) }
{
    let none = Cell {
        doc: DocId(0),
        id: UpdateId {
            member: MemberId(0),
            serial: 0,
        },
        column,
        cell: false,
    };
    let mut cells = [none; RUN];
    for i in 0..places.len() {
        cells[i] = Cell {
            doc: places[i].doc,
            id: places[i].id,
            column,
            cell: bits.get(from + i),
        };
    }
    let mut tags = [Tag::zero(); RUN];
    let run = &mut tags[..places.len()];
    keys.cell_tags(&cells[..places.len()], run);
    xor_all(run)
}

/// The XOR over lines of any epochs.
fn one_by_one(
    recent: &mut EpochKeys,
    keys: &FolderKeys,
    column: u16,
    places: &[Place],
    bits: &Bits,
    from: usize,
) -> Tag
    requires kept { recent.old.keys ≡ keys.now }
    requires few { length places.now ≤ 64 }
    requires low { from ≤ 4096 }
    requires near { from + length places.now ≤ length bits.now }
    ensures keys { recent.new.keys ≡ keys.now }
    ensures value { result ≡ tag_sum keys.now column places.now (drop from bits.now) }
{
    let mut sum = Tag::zero();
    for i in 0..places.len() {
        let place = places[i];
        turn_to(recent, keys, place.id);
        let tag = recent.cell_tag(place.doc, place.id, column, bits.get(from + i));
        sum = sum.xor(&tag);
    }
    sum
}

/// The XOR of all tags.
fn xor_all(tags: &[Tag]) -> Tag
    ensures { result ≡ xor_all tags.now }
{
    let mut sum = Tag::zero();
    for i in 0..tags.len() {
        sum = sum.xor(&tags[i]);
    }
    sum
}
