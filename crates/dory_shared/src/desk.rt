//! What lies under the lock of a place: its folder, which has the name of the place.
ghost use Rattle.std.specs.Prelude.{◌≡◌, length};
ghost use Rattle.dory_wire.specs.Spelling.{IsWant, IsWhat};
ghost use Rattle.dory_shelf.specs.Published.{IsLawful, Grew};
ghost use Rattle.dory_shared.specs.Seen.{IsAt, knowing, named_of};
ghost use Rattle.dory_shared.specs.Answering.{AnswersAt, IsAnswered};
ghost use Rattle.dory_shared.specs.Reading.{IsLater, IsWriting};

use crate::cabinet::Cabinet;
use crate::names::Names;
use crate::place::Place;
use dory_shelf::Told;
use dory_wire::{Want, What};
use std::alloc::Global;
use std::marker::{Model, PhantomData};
use std::sync::Wait;

/// The folder of place I. Contracts see what it has published.
#[derive(Drop)]
pub struct Desk<'a, J: Names, const I: usize, R: Wait> {
    cabinet: Cabinet<'a, R>,
    of: PhantomData<J>,
}

impl<'a, J: Names, const I: usize, R: Wait> Model for Desk<'a, J, I, R> {
    ghost use Rattle.dory_shared.specs.Seen.{Seen, IsAt};

    ghost Value = { Seen };

    ghost view = { λ d. d.cabinet };

    ghost invariant = { λ d. IsAt J.names I d.cabinet };
}

/// Brings a reader to what is published, which begins with all that it had seen.
fn meet<R: Wait>(rt: &impl Wait, place: &mut Place, cabinet: &Cabinet<'_, R>)
    requires { cabinet.now.known.shelf ≡ place.old.known.shelf }
    ensures later { IsLater place.old place.new.known }
    ensures met { place.new.known ≡ cabinet.now.known }
    ensures same { place.new ≡ knowing place.new.known place.old }
{
    place.learn(cabinet.tell());
    for _ in rt.forever() {
        if place.operations() == cabinet.operations() {
            break;
        }
    }
}

impl<'a, J: Names, const I: usize, R: Wait> Desk<'a, J, I, R> {
    pub fn over(cabinet: Cabinet<'a, R>) -> Desk<'a, J, I, R>
        requires { IsAt J.names I cabinet }
    {
        Desk {
            cabinet,
            of: PhantomData,
        }
    }

    /// Answers a request at what is published. The reader then has seen what this leaves.
    pub fn write(&mut self, rt: &impl Wait, alloc: Global, place: &mut Place, want: &Want) -> What
        requires name { IsAt J.names I place.old }
        requires range { IsWant want.now }
        requires writing { IsWriting want.now }
        ensures answered { IsAnswered place.old want.now result place.new.known }
        // It is answered at exactly what is published, which grows by exactly what the step makes.
        ensures exact { AnswersAt self.old.role self.old.known want.now result self.new.known }
        ensures same { place.new ≡ knowing place.new.known place.old }
        ensures range { IsWhat result }
    {
        meet(rt, place, &self.cabinet);
        let what = self.cabinet.step(alloc, want);
        place.learn(self.cabinet.tell());
        what
    }

    /// Tells what is published. The reader then has seen it.
    pub fn note(&self, rt: &impl Wait, place: &mut Place) -> Told
        requires name { IsAt J.names I place.old }
        ensures later { IsLater place.old place.new.known }
        ensures told { result ≡ place.new.known }
        ensures same { place.new ≡ knowing place.new.known place.old }
    {
        meet(rt, place, &self.cabinet);
        self.cabinet.tell()
    }
}
