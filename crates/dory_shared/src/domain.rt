//! The domain: its folders behind their locks, and the kernel by which seats scan them.
ghost use Rattle.std.specs.Prelude.{◌≡◌, IfOk};
ghost use Rattle.dory_wire.specs.Spelling.{IsReply, IsRequest, IsWant, IsWhat};
ghost use Rattle.dory_shared.specs.Seen.{names_of};
ghost use Rattle.dory_shared.specs.Answering.{Answers};
ghost use Rattle.dory_shared.specs.Reading.{IsNoteOf, IsWriting, Tells};

use crate::locks::Locks;
use crate::names::Names;
use crate::note::Note;
use crate::seat::{Seat, no_folder};
use dory_base::{FolderId, Refusal};
use dory_kernel::RowKernel;
use dory_wire::{Reply, Request, Want, What};
use std::alloc::Global;
use std::sync::Wait;
use std::thread::Threads;

/// Folders that several callers use at once, each by a seat of its own.
#[derive(Drop)]
pub struct Domain<'a, J: Names, R: Wait> {
    pub(crate) locks: Locks<'a, J, R>,
    pub kernel: RowKernel,
}

impl<'a, J: Names, R: Wait> Domain<'a, J, R> {
    /// Answers an update, or the question which one has a number, under the folder's lock: at what is published, which begins
    /// with all that the seat had seen. All memory is taken before the publish, and the seat then has seen what it wrote.
    pub fn write(&self, rt: &impl Wait, alloc: Global, seat: &mut Seat, request: &Request) -> Reply
        requires fits { names_of seat.old ≡ J.names }
        requires range { IsRequest request.now }
        requires writing { IsWriting request.now.want }
        ensures ask { result.ask ≡ request.now.ask }
        ensures answers { Answers seat.old request.now.folder.0 request.now.want result.what seat.new }
        ensures fits { names_of seat.new ≡ J.names }
        ensures reply { IsReply result }
    {
        let what = self.what_is_written(rt, alloc, seat, request.folder, &request.want);
        Reply {
            ask: request.ask,
            what,
        }
    }

    /// What is answered at the folder of this number.
    fn what_is_written(
        &self,
        rt: &impl Wait,
        alloc: Global,
        seat: &mut Seat,
        folder: FolderId,
        want: &Want,
    ) -> What
        requires fits { names_of seat.old ≡ J.names }
        requires range { IsWant want.now }
        requires writing { IsWriting want.now }
        ensures answers { Answers seat.old folder.0 want.now result seat.new }
        ensures names { names_of seat.new ≡ names_of seat.old }
        ensures range { IsWhat result }
    {
        match seat.place(folder) {
            Some(at) => self.locks.write(rt, alloc, at, &mut seat.places[at], want),
            None => no_folder(),
        }
    }

    /// Answers a request, by a read or under a lock.
    pub fn answer<T: Threads + Wait + Sync>(
        &self,
        rt: &T,
        alloc: Global,
        seat: &mut Seat,
        request: &Request,
    ) -> Reply
        requires fits { names_of seat.old ≡ J.names }
        requires range { IsRequest request.now }
        ensures ask { result.ask ≡ request.now.ask }
        ensures answers { Answers seat.old request.now.folder.0 request.now.want result.what seat.new }
        ensures fits { names_of seat.new ≡ J.names }
        ensures reply { IsReply result }
    {
        match request.want {
            Want::Latest => seat.read(rt, alloc, &self.kernel, request),
            Want::Search { .. } => seat.read(rt, alloc, &self.kernel, request),
            Want::Which { .. } => self.write(rt, alloc, seat, request),
            Want::Stage { .. } => self.write(rt, alloc, seat, request),
            Want::Order { .. } => self.write(rt, alloc, seat, request),
            Want::Follow { .. } => self.write(rt, alloc, seat, request),
        }
    }

    /// Tells what is published of a folder. The seat then has seen it.
    pub fn note(&self, rt: &impl Wait, seat: &mut Seat, folder: FolderId) -> Result<Note, Refusal>
        requires fits { names_of seat.old ≡ J.names }
        ensures tells { Tells seat.old folder.0 result seat.new }
        ensures of { IfOk result (IsNoteOf J.names) }
        ensures fits { names_of seat.new ≡ J.names }
    {
        match seat.place(folder) {
            Some(at) => {
                let told = self.locks.note(rt, at, &mut seat.places[at]);
                Ok(Note { folder, told })
            }
            None => Err(Refusal::NoFolder),
        }
    }

    /// Waits for the readers of each folder, and ends the domain. A drop does the same.
    pub fn close(self) {
        drop(self);
    }
}
