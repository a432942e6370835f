//! What a seat reads of a folder's length, again and again.
ghost use Rattle.std.specs.Prelude.{◌≡◌, ◌≤◌, true};
ghost use Rattle.dory_wire.specs.Spelling.{IsRequest, IsWant};
ghost use Rattle.dory_shared.specs.Seen.{names_of};
ghost use Rattle.dory_at_once.specs.Growing.{HaveGrown, length_in, updates_seen};

use dory_base::{AskId, FolderId, MemberId};
use dory_kernel::RowKernel;
use dory_shared::Seat;
use dory_wire::{Request, Want, What};
use std::alloc::Global;
use std::thread::Threads;

/// A request of member 0.
pub(crate) fn asked(folder: FolderId, want: Want) -> Request
    requires { IsWant want }
    ensures range { IsRequest result }
    ensures folder { result.folder ≡ folder }
    ensures want { result.want ≡ want }
{
    Request {
        ask: AskId {
            member: MemberId(0),
            serial: 1,
            step: 0,
        },
        folder,
        want,
    }
}

/// The length that a reply tells: none, where it tells another thing.
fn told(what: &What) -> u32
    ensures { result ≡ length_in what.now }
{
    match what {
        What::At { length } => *length,
        _ => 0,
    }
}

/// Reads how many updates a folder has had: none, where there is no such folder.
pub fn length<R: Threads + Sync>(
    rt: &R,
    alloc: Global,
    kernel: &RowKernel,
    seat: &mut Seat,
    folder: FolderId,
) -> u32
    ensures value { result ≡ updates_seen folder.0 seat.new }
    ensures grown { HaveGrown seat.old seat.new }
    ensures names { names_of seat.new ≡ names_of seat.old }
{
    let reply = seat.read(rt, alloc, kernel, &asked(folder, Want::Latest));
    told(&reply.what)
}

/// Whether no length that was read is below the one before it, and the last one.
#[derive(Clone, Copy, Debug, PartialEq, Eq)]
pub struct Lengths {
    pub rising: bool,
    pub last: u32,
}

/// Whether lengths that rose so far still do with the next one.
fn rises(rising: bool, last: u32, next: u32) -> bool
    ensures { rising ≡ true → last ≤ next → result ≡ true }
{
    rising && last <= next
}

/// Reads a folder's length until it is this one or more, while others may publish.
pub fn read_until<R: Threads + Sync>(
    rt: &R,
    alloc: Global,
    kernel: &RowKernel,
    seat: &mut Seat,
    folder: FolderId,
    count: u32,
) -> Lengths
    ensures rising { result.rising ≡ true }
    ensures last { result.last ≡ updates_seen folder.0 seat.new }
    ensures grown { HaveGrown seat.old seat.new }
    ensures names { names_of seat.new ≡ names_of seat.old }
{
    let mut last = length(rt, alloc, kernel, seat, folder);
    let mut rising = true;
    for turn in 0..u32::MAX {
        if last >= count {
            break;
        }
        let next = length(rt, alloc, kernel, seat, folder);
        let still = rises(rising, last, next);
        rising = still;
        last = next;
    }
    Lengths { rising, last }
}
