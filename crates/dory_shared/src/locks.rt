//! The locks of a domain: one for each place that has a folder.
ghost use Rattle.std.specs.Prelude.{◌≡◌, ◌<◌, ◌≤◌, ◌+◌, length, drop, IsSome};
ghost use Rattle.dory_wire.specs.Spelling.{IsWant, IsWhat};
ghost use Rattle.dory_shelf.specs.Published.{Grew};
ghost use Rattle.dory_shared.specs.Seen.{IsAt, knowing, names_of};
ghost use Rattle.dory_shared.specs.Answering.{IsAnswered};
ghost use Rattle.dory_shared.specs.Reading.{IsLater, IsWriting};

use crate::cabinet::Cabinet;
use crate::desk::Desk;
use crate::names::Names;
use crate::place::Place;
use dory_shelf::Told;
use dory_wire::{Want, What};
use std::alloc::Global;
use std::marker::Model;
use std::sync::{Mutex, Wait};

/// A lock for each of the places that have a name.
#[derive(Drop)]
pub struct Locks<'a, J: Names, R: Wait> {
    zero: Option<Mutex<Desk<'a, J, 0, R>>>,
    one: Option<Mutex<Desk<'a, J, 1, R>>>,
    two: Option<Mutex<Desk<'a, J, 2, R>>>,
    three: Option<Mutex<Desk<'a, J, 3, R>>>,
    four: Option<Mutex<Desk<'a, J, 4, R>>>,
    five: Option<Mutex<Desk<'a, J, 5, R>>>,
    six: Option<Mutex<Desk<'a, J, 6, R>>>,
    seven: Option<Mutex<Desk<'a, J, 7, R>>>,
}

impl<'a, J: Names, R: Wait> Model for Locks<'a, J, R> {
    ghost use Rattle.std.specs.Prelude.{◌<◌, ◌≤◌, length, IsSome};

    ghost Value = { Unit {0} };

    ghost view = { λ l. tt };

    ghost invariant = { λ l. (length J.names ≤ 8)
        × (0 < length J.names → IsSome l.zero)
        × (1 < length J.names → IsSome l.one)
        × (2 < length J.names → IsSome l.two)
        × (3 < length J.names → IsSome l.three)
        × (4 < length J.names → IsSome l.four)
        × (5 < length J.names → IsSome l.five)
        × (6 < length J.names → IsSome l.six)
        × (7 < length J.names → IsSome l.seven) };
}

/// Puts the first folder that is left behind the lock of its place.
fn locked<'a, J: Names, const I: usize, R: Wait>(
    cabinets: &mut Vec<Cabinet<'a, R>>,
) -> Option<Mutex<Desk<'a, J, I, R>>>
    requires { names_of cabinets.old.items ≡ drop I J.names }
    ensures rest { names_of cabinets.new.items ≡ drop (I + 1) J.names }
    ensures some { I < length J.names → IsSome result }
{
    if cabinets.is_empty() {
        return None;
    }
    Some(Mutex::new(Desk::over(cabinets.remove(0))))
}

/// Answers a request at the folder of this place.
fn write_at<'a, J: Names, const I: usize, R: Wait>(
    rt: &impl Wait,
    alloc: Global,
    lock: &Option<Mutex<Desk<'a, J, I, R>>>,
    place: &mut Place,
    want: &Want,
) -> What
    requires lock { IsSome lock.now }
    requires name { IsAt J.names I place.old }
    requires range { IsWant want.now }
    requires writing { IsWriting want.now }
    ensures answered { IsAnswered place.old want.now result place.new.known }
    ensures same { place.new ≡ knowing place.new.known place.old }
    ensures range { IsWhat result }
{
    match lock {
        Some(desk) => desk.lock(rt).write(rt, alloc, place, want),
        None => unreachable!(),
    }
}

/// Tells what is published of the folder of this place.
fn note_at<'a, J: Names, const I: usize, R: Wait>(
    rt: &impl Wait,
    lock: &Option<Mutex<Desk<'a, J, I, R>>>,
    place: &mut Place,
) -> Told
    requires lock { IsSome lock.now }
    requires name { IsAt J.names I place.old }
    ensures later { IsLater place.old place.new.known }
    ensures told { result ≡ place.new.known }
    ensures same { place.new ≡ knowing place.new.known place.old }
{
    match lock {
        Some(desk) => desk.lock(rt).note(rt, place),
        None => unreachable!(),
    }
}

impl<'a, J: Names, R: Wait> Locks<'a, J, R> {
    /// Puts these folders behind locks, in their order.
    pub fn of(cabinets: Vec<Cabinet<'a, R>>) -> Locks<'a, J, R>
        requires names { names_of cabinets.items ≡ J.names }
        requires few { length cabinets.items ≤ 8 }
    {
        let mut rest = cabinets;
        Locks {
            zero: locked::<J, 0, R>(&mut rest),
            one: locked::<J, 1, R>(&mut rest),
            two: locked::<J, 2, R>(&mut rest),
            three: locked::<J, 3, R>(&mut rest),
            four: locked::<J, 4, R>(&mut rest),
            five: locked::<J, 5, R>(&mut rest),
            six: locked::<J, 6, R>(&mut rest),
            seven: locked::<J, 7, R>(&mut rest),
        }
    }

    /// Answers a request at the folder of a place.
    pub fn write(
        &self,
        rt: &impl Wait,
        alloc: Global,
        at: usize,
        place: &mut Place,
        want: &Want,
    ) -> What
        requires there { at < length J.names }
        requires name { IsAt J.names at place.old }
        requires range { IsWant want.now }
        requires writing { IsWriting want.now }
        ensures answered { IsAnswered place.old want.now result place.new.known }
        ensures same { place.new ≡ knowing place.new.known place.old }
        ensures range { IsWhat result }
    {
        match at {
            0 => write_at::<J, 0, R>(rt, alloc, &self.zero, place, want),
            1 => write_at::<J, 1, R>(rt, alloc, &self.one, place, want),
            2 => write_at::<J, 2, R>(rt, alloc, &self.two, place, want),
            3 => write_at::<J, 3, R>(rt, alloc, &self.three, place, want),
            4 => write_at::<J, 4, R>(rt, alloc, &self.four, place, want),
            5 => write_at::<J, 5, R>(rt, alloc, &self.five, place, want),
            6 => write_at::<J, 6, R>(rt, alloc, &self.six, place, want),
            7 => write_at::<J, 7, R>(rt, alloc, &self.seven, place, want),
            _ => unreachable!(),
        }
    }

    /// Tells what is published of the folder of a place.
    pub fn note(&self, rt: &impl Wait, at: usize, place: &mut Place) -> Told
        requires there { at < length J.names }
        requires name { IsAt J.names at place.old }
        ensures later { IsLater place.old place.new.known }
        ensures told { result ≡ place.new.known }
        ensures same { place.new ≡ knowing place.new.known place.old }
    {
        match at {
            0 => note_at::<J, 0, R>(rt, &self.zero, place),
            1 => note_at::<J, 1, R>(rt, &self.one, place),
            2 => note_at::<J, 2, R>(rt, &self.two, place),
            3 => note_at::<J, 3, R>(rt, &self.three, place),
            4 => note_at::<J, 4, R>(rt, &self.four, place),
            5 => note_at::<J, 5, R>(rt, &self.five, place),
            6 => note_at::<J, 6, R>(rt, &self.six, place),
            7 => note_at::<J, 7, R>(rt, &self.seven, place),
            _ => unreachable!(),
        }
    }
}
