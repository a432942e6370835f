//! A follower that may answer anything.

use super::folder::{Came, Folder, INIT, empty_folder, says, state, words_of};
use crate::end::{ClientEnd, client_text};
use crate::run::client_run;
use dory_io::{MemKeeper, VecSink, VecSource};
use dory_kernel::{RowKernel, lane_parity};
use dory_link::{Exchange, Link, ScriptLink};
use dory_verify::CheckFault;
use std::alloc::Global;
use std::test::Fail;

/// A folder whose document 7 was posted with the word `alpha`, and one search.
fn posted(alloc: Global, kernel: RowKernel) -> Result<Folder, Fail> {
    let mut folder = empty_folder(alloc, kernel, 2)?;
    says(alloc, &mut folder, INIT, b"", b"ready\n")?;
    says(alloc, &mut folder, "post 7", b"alpha", b"posted 7 at 1\n")?;
    folder.keeper = MemKeeper::new(Some(state(alloc, 2, 1, 0)?), Vec::new(alloc));
    says(alloc, &mut folder, "search alpha", b"", b"version 1: 7\n")?;
    Ok(folder)
}

/// The same search, from the same state, over another follower.
fn searched<L: Link>(alloc: Global, folder: &mut Folder, follow: &mut L) -> Result<Came, Fail> {
    let words = words_of(alloc, "search alpha")?;
    let mut keeper = MemKeeper::new(Some(state(alloc, 2, 1, 0)?), Vec::new(alloc));
    let mut input = VecSource::new(Vec::new(alloc), Vec::new(alloc));
    let mut out = VecSink::new(alloc, 200, Vec::new(alloc))?;
    let end = client_run(
        alloc,
        &words,
        [0; 32],
        &mut folder.lead,
        follow,
        &mut keeper,
        &mut input,
        &mut out,
    );
    Ok(Came { end, out })
}

/// A link that gives these replies, with bytes of the last one from a place on XORed by a mask.
fn bent(
    alloc: Global,
    replies: &[Exchange],
    place: usize,
    mask: &[u8],
) -> Result<ScriptLink, Fail> {
    let mut frames = Vec::new(alloc);
    for exchange in replies {
        if let Some(reply) = &exchange.reply {
            frames.push(reply.as_slice().to_vec(alloc)?)?;
        }
    }
    if let Some(last) = frames.last_mut() {
        for (byte, bits) in last.iter_mut().skip(place).zip(mask) {
            *byte ^= *bits;
        }
    }
    Ok(ScriptLink::new(alloc, frames, &[])?)
}

/// The last two replies of a follower, to the search.
fn last_two(exchanges: &[Exchange]) -> &[Exchange] {
    &exchanges[exchanges.len() - exchanges.len().min(2)..]
}

/// By how much the tag of probe 0 is off, where that is the fault.
fn shift_of(end: &ClientEnd) -> Option<[u8; 16]> {
    match end {
        ClientEnd::Check(
            CheckFault::TagSum {
                probe: 0,
                got,
                want,
            },
        ) => Some(got.xor(want).bytes()),
        _ => None,
    }
}

/// The mask that flips the bit of probe 0, and shifts its tag so.
fn forged(shift: [u8; 16]) -> [u8; 17] {
    let mut mask = [0u8; 17];
    mask[0] = 1;
    mask[1..].copy_from_slice(&shift);
    mask
}

#[test]
fn a_flipped_bit_is_refused_unless_both_tags_are_known(rt: HostRuntime) -> Result<(), Fail> {
    let alloc = rt.alloc();
    let mut folder = posted(alloc, RowKernel::new(lane_parity))?;
    // The bit of the line at probe 0.
    let mut liar = bent(alloc, last_two(folder.follow.exchanges()), 46, &[1])?;
    let came = searched(alloc, &mut folder, &mut liar)?;
    assert!(rt; came.out.bytes().is_empty());
    let shift = shift_of(&came.end).ok_or("a fault of the tags")?;
    // The same flip, and the tag shifted by the tags of both cells.
    let mut forger = bent(
        alloc,
        last_two(folder.follow.exchanges()),
        46,
        &forged(shift),
    )?;
    let came = searched(alloc, &mut folder, &mut forger)?;
    assert!(rt; came.end == ClientEnd::Done && came.out.bytes() == b"version 1:\n".as_slice());
    Ok(())
}

#[test]
fn another_manifest_is_refused(rt: HostRuntime) -> Result<(), Fail> {
    let alloc = rt.alloc();
    let mut folder = posted(alloc, RowKernel::new(lane_parity))?;
    // The serial of the line's update, which is 1, as 3.
    let mut liar = bent(alloc, last_two(folder.follow.exchanges()), 44, &[2])?;
    let came = searched(alloc, &mut folder, &mut liar)?;
    assert!(rt; client_text(alloc, &came.end)?.as_str() == "manifest 0" && came.end.status() == 8);
    Ok(())
}

#[test]
fn a_follower_that_is_behind_or_gives_no_frame_is_refused(rt: HostRuntime) -> Result<(), Fail> {
    let alloc = rt.alloc();
    let behind: [u8; 25] = [
        0, 0, 0, 0x15, 0x81, 0, 0, 0, 0, 0, 0, 0, 0, 0, 0, 0, 2, 0, 0, 0, 1, 0, 0, 0, 0,
    ];
    let cases: [(&[u8], &str); 3] = [
        (&behind, "stale follow 0 1"),
        (b"abc", "form follow 0"),
        (&behind[..24], "form follow 0"),
    ];
    let mut folder = posted(alloc, RowKernel::new(lane_parity))?;
    for (frame, text) in cases {
        let mut frames = Vec::new(alloc);
        frames.push(frame.to_vec(alloc)?)?;
        let mut liar = ScriptLink::new(alloc, frames, &[])?;
        let came = searched(alloc, &mut folder, &mut liar)?;
        assert!(rt; client_text(alloc, &came.end)?.as_str() == text, "{text}");
    }
    Ok(())
}
