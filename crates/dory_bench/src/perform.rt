//! From a piece of work to the call that does it.

use crate::fault::Fault;
use crate::run::Run;
use crate::work::{Asked, Filling, Message, Work};
use crate::{
    checking, coding, hashing, scanning, sealing, searching, stepping, texts, tree, versions,
};
use std::rt::Clock;

/// Does a piece of work as often as the run says.
pub fn perform<R: Clock>(run: &mut Run<R>, work: Work) -> Result<(), Fault> {
    match work {
        Work::Mac => hashing::whole(run),
        Work::Tag => hashing::tag(run),
        Work::Tags => hashing::tags(run),
        Work::MaskBlock => hashing::mask_block(run),
        Work::MaskBlocks => hashing::mask_blocks(run),
        Work::Seal(depth) => sealing::seal(run, depth),
        Work::Check(depth) => sealing::check(run, depth),
        Work::Double => tree::doubled(run),
        Work::DoubleByGenerator => tree::doubled_by_generator(run),
        Work::Gen(form, depth) => tree::keys(run, form, depth),
        Work::Expand(form, depth) => tree::shares(run, form, depth),
        Work::Words => texts::words(run),
        Work::Row => texts::row(run),
        Work::Encode(Message::Stage) => coding::encode_stage(run),
        Work::Decode(Message::Stage) => coding::decode_stage(run),
        Work::Encode(Message::Found) => coding::encode_found(run),
        Work::Decode(Message::Found) => coding::decode_found(run),
        Work::NextVersion => versions::updates(run),
        Work::Parity => scanning::parities(run),
        Work::Scan(selectors) => scanning::scans(run, selectors),
        Work::Verify => checking::verified(run),
        Work::Step(asked, filling) => step(run, asked, filling),
        Work::Search => searching::searches(run, if run.is_full() { 4096 } else { 96 }),
    }
}

/// Steps of a domain at one kind of request.
fn step<R: Clock>(run: &mut Run<R>, asked: Asked, filling: Filling) -> Result<(), Fault> {
    let rounds = stepping::rounds(run, filling);
    match asked {
        Asked::Latest => stepping::latest(run, rounds),
        Asked::Search => stepping::search(run, rounds),
        Asked::Which => stepping::which(run, rounds),
        Asked::Stage => stepping::stages(run, rounds),
        Asked::Order => stepping::orders(run, rounds),
        Asked::Follow => stepping::follows(run, rounds),
    }
}
