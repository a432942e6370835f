//! What fails in turn while a post is under way, what is kept then, and how the member goes on.

use super::folder::{Came, Folder, INIT, called, called_with, empty_folder, link, says};
use crate::end::ClientEnd;
use dory_base::Side;
use dory_io::{Keeper, MemKeeper};
use dory_kernel::{RowKernel, lane_parity};
use std::alloc::Global;
use std::test::Fail;

/// A member that has begun, whose keeper's listed calls are to fail from then on.
fn begun(alloc: Global, kernel: RowKernel, fails: &[u64]) -> Result<Folder, Fail> {
    let mut folder = empty_folder(alloc, kernel, 2)?;
    folder.keeper = MemKeeper::new(
        Some(super::folder::state(alloc, 1, 0, 0)?),
        fails.to_vec(alloc)?,
    );
    Ok(folder)
}

#[test]
fn a_first_save_that_fails_asks_nothing(rt: HostRuntime) -> Result<(), Fail> {
    let alloc = rt.alloc();
    let mut folder = begun(alloc, RowKernel::new(lane_parity), &[2])?;
    let came = called(alloc, &mut folder, "post 7", b"alpha")?;
    assert!(rt; came.end == ClientEnd::KeeperFault && came.end.status() == 4);
    assert!(rt; folder.lead.exchanges().is_empty() && folder.follow.exchanges().is_empty());
    Ok(())
}

#[test]
fn a_last_save_that_fails_leaves_the_update_pending(rt: HostRuntime) -> Result<(), Fail> {
    let alloc = rt.alloc();
    let mut folder = begun(alloc, RowKernel::new(lane_parity), &[3])?;
    let came = called(alloc, &mut folder, "post 7", b"alpha")?;
    assert!(rt; came.end == ClientEnd::KeeperFault && came.out.bytes().is_empty());
    let came = called(alloc, &mut folder, "post 8", b"beta")?;
    assert!(rt; came.end.status() == 10);
    assert!(rt; says(alloc, &mut folder, "resume", b"", b"posted 7 at 1\n")?);
    assert!(rt; says(alloc, &mut folder, "search alpha", b"", b"version 1: 7\n")?);
    Ok(())
}

/// A post over a lead and a follower whose listed asks are to fail.
fn post_over(
    alloc: Global,
    kernel: RowKernel,
    lead: &[u64],
    follow: &[u64],
) -> Result<(Folder, Came), Fail> {
    let again = kernel.again();
    let keeper = MemKeeper::new(Some(super::folder::state(alloc, 1, 0, 0)?), Vec::new(alloc));
    let mut folder = Folder {
        lead: link(alloc, kernel, Side::Lead, 2, lead)?,
        follow: link(alloc, again, Side::Follow, 2, follow)?,
        keeper,
    };
    let came = called(alloc, &mut folder, "post 7", b"alpha")?;
    Ok((folder, came))
}

#[test]
fn a_post_whose_ask_is_lost_is_resumed(rt: HostRuntime) -> Result<(), Fail> {
    let alloc = rt.alloc();
    let cases: [(&[u64], &[u64], Side); 4] = [
        (&[], &[1], Side::Follow),
        (&[1], &[], Side::Lead),
        (&[2], &[], Side::Lead),
        (&[], &[2], Side::Follow),
    ];
    for (lead, follow, side) in cases {
        let (mut folder, came) = post_over(alloc, RowKernel::new(lane_parity), lead, follow)?;
        assert!(rt; came.end == (ClientEnd::LinkFault { side }) && came.out.bytes().is_empty());
        assert!(rt; says(alloc, &mut folder, "resume", b"", b"posted 7 at 1\n")?);
        let both = b"lead 1 follow 1 seen 1\n";
        assert!(rt; says(alloc, &mut folder, "latest", b"", both)?);
    }
    Ok(())
}

/// Whose call is to fail.
#[derive(Clone, Copy, PartialEq)]
enum Object {
    Keeper,
    Lead,
    Follow,
    Source,
    Sink,
}

/// A command of which one call fails, the first or a later one of its object, how it ends, and what is kept then: the next
/// serial, the version seen, how many posts are counted, and whether an update is pending.
#[derive(Drop)]
struct Case {
    object: Object,
    call: u64,
    end: ClientEnd,
    kept: (u64, u32, u32, bool),
}

/// The calls of an object that are to fail.
fn fails(alloc: Global, case: &Case, object: Object) -> Result<Vec<u64>, Fail> {
    let mut listed = Vec::new(alloc);
    if case.object == object {
        listed.push(case.call)?;
    }
    Ok(listed)
}

/// A folder whose links are to fail so, in which a document was posted where that is asked.
fn folder_for(alloc: Global, kernel: RowKernel, case: &Case, posted: bool) -> Result<Folder, Fail> {
    let again = kernel.again();
    let mut folder = Folder {
        lead: link(
            alloc,
            kernel,
            Side::Lead,
            2,
            &fails(alloc, case, Object::Lead)?,
        )?,
        follow: link(
            alloc,
            again,
            Side::Follow,
            2,
            &fails(alloc, case, Object::Follow)?,
        )?,
        keeper: MemKeeper::new(Some(super::folder::state(alloc, 1, 0, 0)?), Vec::new(alloc)),
    };
    if posted && !says(alloc, &mut folder, "post 7", b"alpha", b"posted 7 at 1\n")? {
        return Err("no post".into());
    }
    Ok(folder)
}

/// Whether a state has these numbers, and an update pending or not.
fn is_kept(alloc: Global, bytes: &[u8], kept: (u64, u32, u32, bool)) -> Result<bool, Fail> {
    let (serial, seen, used, pending) = kept;
    let state = super::folder::state(alloc, serial, seen, used)?;
    let Some((_, front)) = state.split_last() else {
        return Ok(false);
    };
    let at = front.len();
    Ok(bytes.len() > at && &bytes[..at] == front && (bytes[at] != 0) == pending)
}

/// Whether a command that begins with these bytes kept ends as the case says, and has written nothing.
fn ends_so(
    alloc: Global,
    folder: &mut Folder,
    line: &str,
    before: Vec<u8>,
    case: &Case,
) -> Result<bool, Fail> {
    folder.keeper = MemKeeper::new(Some(before), fails(alloc, case, Object::Keeper)?);
    let source = fails(alloc, case, Object::Source)?;
    let sink = fails(alloc, case, Object::Sink)?;
    let came = called_with(alloc, folder, line, b"alpha", &source, &sink)?;
    let Ok(Some(bytes)) = folder.keeper.load(alloc) else {
        return Ok(false);
    };
    let silent = came.out.bytes().is_empty();
    Ok(came.end == case.end && silent && is_kept(alloc, &bytes, case.kept)?)
}

/// A command's link that fails.
const fn lost(side: Side) -> ClientEnd {
    ClientEnd::LinkFault { side }
}

const fn failing(object: Object, call: u64, end: ClientEnd, kept: (u64, u32, u32, bool)) -> Case {
    Case {
        object,
        call,
        end,
        kept,
    }
}

#[test]
fn a_post_of_which_one_call_fails_keeps_one_of_three_states(rt: HostRuntime) -> Result<(), Fail> {
    let alloc = rt.alloc();
    let old = (1, 0, 0, false);
    let first = (2, 0, 1, true);
    let cases = [
        failing(Object::Keeper, 1, ClientEnd::KeeperFault, old),
        failing(Object::Source, 1, ClientEnd::InputFault, old),
        failing(Object::Keeper, 2, ClientEnd::KeeperFault, old),
        failing(Object::Follow, 1, lost(Side::Follow), first),
        failing(Object::Lead, 1, lost(Side::Lead), first),
        failing(Object::Lead, 2, lost(Side::Lead), first),
        failing(Object::Follow, 2, lost(Side::Follow), first),
        failing(Object::Keeper, 3, ClientEnd::KeeperFault, first),
        failing(Object::Sink, 1, ClientEnd::OutputFault, (2, 1, 1, false)),
    ];
    for (at, case) in cases.iter().enumerate() {
        let mut folder = folder_for(alloc, RowKernel::new(lane_parity), case, false)?;
        let before = super::folder::state(alloc, 1, 0, 0)?;
        assert!(rt;
            ends_so(alloc, &mut folder, "post 7", before, case)?,
            "{at}"
        );
        let asked = !folder.follow.exchanges().is_empty();
        assert!(rt; asked == (case.kept != old), "{at}");
    }
    Ok(())
}

#[test]
fn a_search_of_which_one_call_fails_keeps_one_of_three_states(rt: HostRuntime) -> Result<(), Fail> {
    let alloc = rt.alloc();
    let old = (2, 0, 1, false);
    let first = (3, 0, 1, false);
    let cases = [
        failing(Object::Keeper, 1, ClientEnd::KeeperFault, old),
        failing(Object::Keeper, 2, ClientEnd::KeeperFault, old),
        failing(Object::Lead, 3, lost(Side::Lead), first),
        failing(Object::Follow, 3, lost(Side::Follow), first),
        failing(Object::Lead, 4, lost(Side::Lead), first),
        failing(Object::Follow, 4, lost(Side::Follow), first),
        failing(Object::Keeper, 3, ClientEnd::KeeperFault, first),
        failing(Object::Sink, 1, ClientEnd::OutputFault, (3, 1, 1, false)),
    ];
    for (at, case) in cases.iter().enumerate() {
        let mut folder = folder_for(alloc, RowKernel::new(lane_parity), case, true)?;
        let before = super::folder::state(alloc, 2, 0, 1)?;
        assert!(rt;
            ends_so(alloc, &mut folder, "search alpha", before, case)?,
            "{at}"
        );
    }
    Ok(())
}

#[test]
fn a_first_state_of_which_one_call_fails_is_kept_or_not(rt: HostRuntime) -> Result<(), Fail> {
    let alloc = rt.alloc();
    let none: [&[u64]; 2] = [&[1], &[2]];
    for listed in none {
        let mut folder = empty_folder(alloc, RowKernel::new(lane_parity), 2)?;
        folder.keeper = MemKeeper::new(None, listed.to_vec(alloc)?);
        assert!(rt; called(alloc, &mut folder, INIT, b"")?.end == ClientEnd::KeeperFault);
        assert!(rt;
            folder
                .keeper
                .load(alloc)
                .ok()
                .is_some_and(|kept| kept.is_none())
        );
    }
    let mut folder = empty_folder(alloc, RowKernel::new(lane_parity), 2)?;
    assert!(rt;
        called_with(alloc, &mut folder, INIT, b"", &[], &[1])?.end == ClientEnd::OutputFault
    );
    assert!(rt;
        says(
            alloc,
            &mut folder,
            "latest",
            b"",
            b"lead 0 follow 0 seen 0\n"
        )?
    );
    Ok(())
}

#[test]
fn an_output_that_fails_leaves_the_post_done(rt: HostRuntime) -> Result<(), Fail> {
    let alloc = rt.alloc();
    let mut folder = begun(alloc, RowKernel::new(lane_parity), &[])?;
    let came = called_with(alloc, &mut folder, "post 7", b"alpha", &[], &[1])?;
    assert!(rt; came.end.status() == 7 && came.out.bytes().is_empty());
    assert!(rt; says(alloc, &mut folder, "search alpha", b"", b"version 1: 7\n")?);
    Ok(())
}
