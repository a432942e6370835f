//! Readers: what each has seen, and the versions that it takes.
ghost use Rattle.std.specs.Prelude.{◌≡◌, length, IfOk};
ghost use Rattle.std.specs.Arc.{arc_value};
ghost use Rattle.left_right.specs.Sides.{view};
ghost use Rattle.dory_base.specs.declared.refusal.Refusal.TheVariants.{Unretained};
ghost use Rattle.dory_shelf.specs.Published.{IsLawful, Grew};
ghost use Rattle.dory_shelf.specs.Versions.{IsAnswer, newest_of, oldest_of, version_at};
ghost use Rattle.dory_shelf.specs.ShelfRule.{IsShelf, Seats};
ghost use Rattle.dory_shelf.specs.Writing.{Showing};

use crate::front::Front;
use crate::rule::{Learns, Sees, Shelved, Tells};
use crate::store::Store;
use crate::told::Told;
use crate::writer::StoreWriter;
use dory_base::{NoMemory, Refusal, Shape};
use dory_chunks::Version;
use left_right::reader::{Factory, Reader};
use std::marker::Model;
use std::sync::Arc;

pub type StoreReader = Reader<Store, Option<Store>, Shelved>;

pub type StoreFactory = Factory<Store, Option<Store>, Shelved>;

/// A reader of a shelf, which waits for nobody. Contracts see the history that it has seen.
#[derive(Drop)]
pub struct ShelfReader {
    reader: Option<StoreReader>,
    front: Front,
}

impl Model for ShelfReader {
    ghost use Rattle.std.specs.Prelude.{◌≡◌, Some};
    ghost use Rattle.dory_shelf.specs.Views.{known_at};
    ghost use Rattle.dory_shelf.specs.Published.{Published};
    ghost use Rattle.dory_shelf.specs.ShelfRule.{Seats};

    ghost Value = { Published };

    ghost view = { λ r. r.front };

    ghost invariant = { λ r. (s : _) × (r.reader ≡ Some s) × Seats (known_at s.place) r.front };
}

/// A reader's place, of which the rule knows nothing yet.
pub(crate) fn vacant(factory: &StoreFactory) -> Result<StoreReader, NoMemory>
    ensures { IfOk result (λ r. r.place.table_id ≡ (arc_value factory.now.board).shared.table_id) }
{
    Ok(factory.reader()?)
}

/// The reader that sits at a place, once it has learned what the writer told.
pub(crate) fn seated(reader: StoreReader, writer: &mut StoreWriter, front: &Front) -> ShelfReader
    requires same { reader.place.table_id ≡ writer.old.desk.place.table_id }
    requires shown { Showing writer.old front.now }
    ensures writer { Showing writer.new front.now }
    ensures reader { result ≡ front.now }
{
    let mut reader = reader;
    reader.learn::<Learns>(writer.tell::<Tells>());
    ShelfReader {
        reader: Some(reader),
        front: front.again(),
    }
}

impl ShelfReader {
    /// Enters once: the number of operations of the history entered.
    pub fn operations(&mut self) -> u64
        ensures seen { Grew self.old self.new }
        ensures lawful { IsLawful self.new }
        ensures value { result ≡ length self.new.events }
    {
        let (reader, front) = entered(self.reader.take().unwrap(), &self.front);
        self.reader = Some(reader);
        self.front = front;
        self.front.operations()
    }

    /// Enters once: the number of updates of the history entered.
    pub fn length(&mut self) -> u32
        ensures seen { Grew self.old self.new }
        ensures lawful { IsLawful self.new }
        ensures value { result ≡ newest_of self.new }
    {
        self.operations();
        self.front.length()
    }

    /// The shape of its folder.
    pub fn shape(&self) -> Shape
        ensures { result ≡ self.now.shelf.shape }
    {
        self.front.shape()
    }

    /// The number of operations that it has seen. It doesn't enter.
    pub fn seen(&self) -> u64
        ensures value { result ≡ length self.now.events }
        ensures lawful { IsLawful self.now }
    {
        self.front.operations()
    }

    /// Tells what it has seen.
    pub fn tell(&self) -> Told
        ensures { result ≡ self.now }
    {
        Told::of(&self.front)
    }

    /// Takes in what was told. Later histories begin with it.
    pub fn learn(&mut self, told: Told)
        requires { told.shelf ≡ self.old.shelf }
        ensures seen { Grew self.old self.new }
        ensures told { Grew told self.new }
    {
        self.front = self.front.longer(told.front());
    }

    /// Enters once: the version of this number, if it is among the last of the history entered.
    pub fn version(&mut self, number: u32) -> Result<Arc<Version>, Refusal>
        ensures seen { Grew self.old self.new }
        ensures lawful { IsLawful self.new }
        ensures version { IsAnswer (version_at self.new number) result }
    {
        let (reader, front, version) = version_at_enter(
            self.reader.take().unwrap(),
            &self.front,
            number,
        );
        self.reader = Some(reader);
        self.front = front;
        version
    }
}

/// Enters once, and takes in the history entered.
fn entered(reader: StoreReader, front: &Front) -> (StoreReader, Front)
    requires { Seats (view reader.place) front.now }
    ensures seats { Seats (view result.0.place) result.1 }
    ensures seen { Grew front.now result.1 }
{
    match reader.enter_as::<Sees>() {
        Ok(reading) => {
            let seen = front.longer(reading.get().front());
            (reading.leave(), seen)
        }
        Err(reader) => (reader, front.again()),
    }
}

/// Enters once, and takes the version of this number.
fn version_at_enter(
    reader: StoreReader,
    front: &Front,
    number: u32,
) -> (StoreReader, Front, Result<Arc<Version>, Refusal>)
    requires { Seats (view reader.place) front.now }
    ensures seats { Seats (view result.0.place) result.1 }
    ensures seen { Grew front.now result.1 }
    ensures version { IsAnswer (version_at result.1 number) result.2 }
{
    match reader.enter_as::<Sees>() {
        Ok(reading) => {
            let front = front.longer(reading.get().front());
            let version = found(reading.get(), &front, number);
            (reading.leave(), front, version)
        }
        Err(reader) => {
            let version = unread(front, number);
            (reader, front.again(), version)
        }
    }
}

/// What is answered where the writer is gone.
fn unread(front: &Front, number: u32) -> Result<Arc<Version>, Refusal>
    ensures { IsAnswer (version_at front.now number) result }
{
    if front.retains(number) {
        Err(Refusal::NoMemory)
    } else {
        Err(unretained(front))
    }
}

/// Which versions are retained.
fn unretained(front: &Front) -> Refusal
    ensures { result ≡ Unretained (oldest_of front.now) (newest_of front.now) }
{
    Refusal::Unretained {
        oldest: front.oldest(),
        newest: front.length(),
    }
}

/// The version of this number of a history, of the copy that was entered.
pub(crate) fn found(store: &Store, front: &Front, number: u32) -> Result<Arc<Version>, Refusal>
    requires { IsShelf store.now × (front.now.shelf ≡ store.now.known.shelf) }
    ensures { IsAnswer (version_at front.now number) result }
{
    if !front.retains(number) {
        return Err(unretained(front));
    }
    match store.version(number, front) {
        Ok(version) => Ok(version),
        Err(_) => Err(Refusal::NoMemory),
    }
}
