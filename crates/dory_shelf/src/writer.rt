//! The writer of a shelf.
ghost use Rattle.std.specs.Prelude.{◌≡◌, ◌++◌, ◌∷◌, [], drop, length, Some, None, MatchResult, IsSome, IfOk};
ghost use Rattle.std.specs.Arc.{arc_value};
ghost use Rattle.dory_base.specs.TableMeaning.{kept_of};
ghost use Rattle.dory_shelf.specs.Published.{IsLawful, MayFollow, Grew, history_of, with_event};
ghost use Rattle.dory_shelf.specs.Versions.{IsAnswer, newest_of, version_at};
ghost use Rattle.dory_shelf.specs.Ops.{StandsAt, event_of};
ghost use Rattle.dory_shelf.specs.Writing.{Showing, StoredOf, GoesOn};

use crate::book::Head;
use crate::front::Front;
use crate::op::ShelfOp;
use crate::reader::{ShelfReader, found, seated, vacant};
use crate::rule::{Sees, Shelved};
use crate::store::{Change, Store, Stored};
use crate::told::Told;
use dory_base::{NoMemory, Refusal};
use dory_chunks::Version;
use left_right::writer::Writer;
use std::alloc::Global;
use std::marker::Model;
use std::sync::{Arc, Wait};

pub type StoreWriter = Writer<Store, Change, Option<Store>, Shelved>;

/// The writer of a shelf, with the handle by which it waits for readers. Contracts see what it has published, and what is pending.
pub struct ShelfWriter<'a, R: Wait> {
    writer: Option<StoreWriter>,
    rt: &'a R,
    head: Head,
    front: Front,
    next: Option<Change>,
}

impl<'a, R: Wait> Model for ShelfWriter<'a, R> {
    ghost use Rattle.std.specs.Prelude.{◌≡◌, Some};
    ghost use Rattle.std.specs.Option.{option_map};
    ghost use Rattle.dory_shelf.specs.ShelfRule.{Writes};
    ghost use Rattle.dory_shelf.specs.Writing.{Showing, NextOf};

    ghost Value = { Writes };

    ghost view = { λ s. record { known = s.front; pending = option_map (λ c. c.front) s.next } };

    ghost invariant = { λ s. (w : _) × (s.writer ≡ Some w) × Showing w s.front × (s.head.word.book ≡ s.front.shelf.book) × NextOf s.front s.next };
}

/// Puts a change into the log, which has had room since the shelf was opened.
fn appended<R: Wait>(rt: &R, writer: StoreWriter, change: Change) -> StoreWriter
    ensures desk { result.desk ≡ writer.desk }
    ensures pending { drop result.behind result.log.items ≡ drop writer.behind writer.log.items ++ change ∷ [] }
{
    let mut writer = writer;
    let mut left = change;
    for _ in rt.forever() {
        match writer.append(left) {
            Ok(()) => return writer,
            Err(back) => left = back,
        }
    }
    unreachable!()
}

/// A reader that has seen what the writer shows.
fn reader_of(writer: &mut StoreWriter, front: &Front) -> Result<ShelfReader, NoMemory>
    requires { Showing writer.old front.now }
    ensures writer { Showing writer.new front.now }
    ensures reader { IfOk result (λ r. r ≡ front.now) }
{
    let reader = vacant(writer.factory())?;
    Ok(seated(reader, writer, front))
}

/// Publishes one change.
fn published<R: Wait>(rt: &R, writer: StoreWriter, front: &Front, change: Change) -> StoreWriter
    requires shown { Showing writer front.now }
    requires next { GoesOn front.now change }
    ensures { Showing result change.front }
{
    let writer = appended(rt, writer, change);
    let (writer, done) = writer.publish_as::<Sees, R>(rt);
    let _ = done;
    writer
}

impl<'a, R: Wait> ShelfWriter<'a, R> {
    pub(crate) fn over(
        writer: StoreWriter,
        rt: &'a R,
        head: Head,
        front: Front,
    ) -> ShelfWriter<'a, R>
        requires shown { Showing writer front }
        requires book { head.word.book ≡ front.shelf.book }
        ensures { result ≡ record { known = front; pending = None } }
    {
        ShelfWriter {
            writer: Some(writer),
            rt,
            head,
            front,
            next: None,
        }
    }

    /// One more reader, which has seen what is published, unless each place is taken.
    pub fn reader(&mut self) -> Result<ShelfReader, NoMemory>
        ensures same { self.new ≡ self.old }
        ensures reader { IfOk result (λ r. r ≡ self.old.known) }
    {
        match &mut self.writer {
            Some(writer) => reader_of(writer, &self.front),
            None => unreachable!(),
        }
    }

    /// How many operations are published.
    pub fn operations(&self) -> u64
        ensures value { result ≡ length self.now.known.events }
        ensures lawful { IsLawful self.now.known }
    {
        self.front.operations()
    }

    /// How many updates are published.
    pub fn length(&self) -> u32
        ensures value { result ≡ newest_of self.now.known }
        ensures lawful { IsLawful self.now.known }
    {
        self.front.length()
    }

    /// The version of this number, if it is among the last of what is published.
    pub fn version(&self, number: u32) -> Result<Arc<Version>, Refusal>
        ensures { IsAnswer (version_at self.now.known number) result }
    {
        match &self.writer {
            Some(writer) => found(writer.published(), &self.front, number),
            None => unreachable!(),
        }
    }

    /// Tells what is published.
    pub fn tell(&self) -> Told
        ensures { result ≡ self.now.known }
    {
        Told::of(&self.front)
    }

    /// Adds an operation to what is pending, or changes nothing. There has been room for it since the shelf was opened.
    pub fn append(&mut self, _alloc: Global, op: ShelfOp) -> Result<(), NoMemory>
        requires free { self.old.pending ≡ None }
        requires lawful { MayFollow self.old.known (event_of op) }
        requires stands { StandsAt (with_event self.old.known (event_of op)) op }
        ensures known { self.new.known ≡ self.old.known }
        ensures pending { MatchResult result (λ _. self.new.pending ≡ Some (with_event self.old.known (event_of op))) (λ _. self.new.pending ≡ None) }
    {
        let mut front = self.front.again();
        if !front.add(&self.head, &op) {
            return Err(NoMemory);
        }
        self.next = Some(change_of(front, op));
        Ok(())
    }

    /// Publishes what is pending as one operation, once no reader is left in the copy that it shows next.
    pub fn publish(&mut self)
        requires { IsSome self.old.pending }
        ensures known { Some self.new.known ≡ self.old.pending }
        ensures pending { self.new.pending ≡ None }
    {
        let change = self.next.take().unwrap();
        let front = change.front.again();
        let writer = self.writer.take().unwrap();
        let writer = published(self.rt, writer, &self.front, change);
        if let Some(old) = self.writer.replace(writer) {
            drop(old.take(self.rt));
        }
        self.front = front;
    }

    /// Waits for the readers, and ends the shelf. A drop does the same.
    pub fn close(self)
        requires { self.pending ≡ None }
    {
        drop(self);
    }
}

impl<'a, R: Wait> Drop for ShelfWriter<'a, R> {
    fn drop(self) {
        let Self {
            writer,
            rt,
            head: _head,
            front: _front,
            next: _next,
        } = self;
        if let Some(writer) = writer {
            drop(writer.take(rt));
        }
    }
}

/// The change that an operation makes, where the history has it already.
fn change_of(front: Front, op: ShelfOp) -> Change
    requires { StandsAt front op }
    ensures front { result.front ≡ front }
    ensures stored { StoredOf front result.stored }
{
    let stored = match op {
        ShelfOp::Staged(_) => None,
        ShelfOp::Appended(_, version) => Some(stored_at(&front, version)),
    };
    Change { front, stored }
}

fn stored_at(front: &Front, version: Arc<Version>) -> Stored
    requires { arc_value version ≡ kept_of front.now.shelf.shape (history_of front.now) }
    ensures { result.front ≡ front.now }
{
    Stored {
        number: front.length(),
        version: Some(version),
        front: front.again(),
    }
}
