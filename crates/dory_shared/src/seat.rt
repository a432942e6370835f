//! Seats: what each caller of a domain has seen of its folders.
ghost use Rattle.std.specs.Prelude.{◌≡◌, length, position};
ghost use Rattle.dory_base.specs.declared.refusal.Refusal.TheVariants.{NoFolder};
ghost use Rattle.dory_wire.specs.declared.message.What.TheVariants.{Refused};
ghost use Rattle.dory_wire.specs.Spelling.{IsReply, IsRequest, IsWant, IsWhat};
ghost use Rattle.dory_shared.specs.Seen.{is_folder, names_of};
ghost use Rattle.dory_shared.specs.Reading.{IsNoteOf, IsReading, Keeps, Learns, Reads};

use crate::held::Held;
use crate::note::Note;
use crate::place::Place;
use dory_base::{FolderId, Refusal};
use dory_kernel::RowKernel;
use dory_wire::{Reply, Request, Want, What};
use std::alloc::Global;
use std::marker::Model;
use std::thread::Threads;

/// One caller's readers, one for each folder of its domain. Contracts see what was seen of each.
#[derive(Drop)]
pub struct Seat {
    pub(crate) places: Vec<Place>,
}

impl Model for Seat {
    ghost use Rattle.std.specs.Prelude.{List};
    ghost use Rattle.dory_shared.specs.Seen.{Seen};

    ghost Value = { List Seen };

    ghost view = { λ s. s.places.items };
}

/// There is no folder of the number asked for.
pub(crate) fn no_folder() -> What
    ensures { result ≡ Refused NoFolder }
{
    What::Refused {
        code: Refusal::NoFolder,
    }
}

impl Seat {
    /// The place of the folder of this number.
    pub(crate) fn place(&self, folder: FolderId) -> Option<usize>
        ensures { result ≡ position (is_folder folder.0) self.now }
    {
        self.places.iter().position(|each| each.is(folder))
    }

    /// Answers Latest or Search at the history that the seat then has seen. It waits for nobody.
    pub fn read<R: Threads + Sync>(
        &mut self,
        rt: &R,
        alloc: Global,
        kernel: &RowKernel,
        request: &Request,
    ) -> Reply
        requires range { IsRequest request.now }
        requires reading { IsReading request.now.want }
        ensures ask { result.ask ≡ request.now.ask }
        ensures reads { Reads self.old request.now.folder.0 request.now.want result.what self.new }
        ensures names { names_of self.new ≡ names_of self.old }
        ensures reply { IsReply result }
    {
        let what = self.what_is_read(rt, alloc, kernel, request.folder, &request.want);
        Reply {
            ask: request.ask,
            what,
        }
    }

    /// What is read of the folder of this number.
    fn what_is_read<R: Threads + Sync>(
        &mut self,
        rt: &R,
        alloc: Global,
        kernel: &RowKernel,
        folder: FolderId,
        want: &Want,
    ) -> What
        requires range { IsWant want.now }
        requires reading { IsReading want.now }
        ensures reads { Reads self.old folder.0 want.now result self.new }
        ensures names { names_of self.new ≡ names_of self.old }
        ensures range { IsWhat result }
    {
        match self.place(folder) {
            Some(at) => self.places[at].read(rt, alloc, kernel, want),
            None => no_folder(),
        }
    }

    /// Keeps a version, if it is among the last of the history that the seat then has seen. It waits for nobody.
    pub fn hold(&mut self, folder: FolderId, number: u32) -> Result<Held, Refusal>
        ensures keeps { Keeps self.old folder.0 number result self.new }
        ensures names { names_of self.new ≡ names_of self.old }
    {
        match self.place(folder) {
            Some(at) => self.places[at].hold(number),
            None => Err(Refusal::NoFolder),
        }
    }

    /// Takes in what was told of a folder. It waits for nobody, and takes no memory.
    pub fn learn(&mut self, note: Note)
        requires { IsNoteOf (names_of self.old) note }
        ensures learned { Learns self.old note self.new }
        ensures names { names_of self.new ≡ names_of self.old }
    {
        let Note { folder, told } = note;
        if let Some(at) = self.place(folder) {
            self.places[at].learn(told);
        }
    }
}
