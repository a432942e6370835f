//! The ids of a history by their numbers, and each member's own beside them, so that no look goes through the history.
ghost use Rattle.std.specs.Prelude.{◌≡◌, ℕ, ◌<◌, ◌≤◌, ◌-◌, ◌+◌, ◌++◌, ◌∷◌, [], vec_len, vec_capacity, slice_get, length, IfOk, OnOk, OnErr};
ghost use Rattle.dory_base.specs.Log.{number_of as number_in, last_of as last_in};
ghost use Rattle.dory_log.specs.Own.{own_at, HasRoom, IsGrown};

use crate::MEMBERS;
use crate::own::{Own, find, last};
use dory_base::{NoMemory, UpdateId};
use std::alloc::Global;
use std::marker::Model;

/// How many commits room is made for at once.
const MORE: usize = 64;

/// Appends to a list that has room.
fn push_within<T: Drop>(list: &mut Vec<T>, value: T)
    requires { vec_len list.old < vec_capacity list.old }
    ensures items { list.new.items ≡ list.old.items ++ value ∷ [] }
    ensures len { vec_len list.new ≡ vec_len list.old + 1 }
    ensures capacity { vec_capacity list.old ≤ vec_capacity list.new }
{
    match list.push(value) {
        Ok(()) => {}
        Err(_) => unreachable!(),
    }
}

/// A member's own updates.
fn own_list(lists: &[Vec<Own>], member: u32) -> &[Own]
    ensures { result.now ≡ own_at lists.now member }
{
    match lists.get(member as usize) {
        None => &[],
        Some(own) => own,
    }
}

/// Makes room in each list. Where memory runs out, some lists have more room than before.
fn reserve_each(lists: &mut Vec<Vec<Own>>, more: usize) -> Result<(), NoMemory>
    ensures grown { IsGrown lists.old.items lists.new.items }
    ensures room { OnOk result (HasRoom lists.new.items more) }
{
    for i in 0..lists.len() {
        lists[i].reserve(more)?;
    }
    Ok(())
}

/// As many empty lists as there are members.
fn empty_lists(alloc: Global) -> Result<Vec<Vec<Own>>, NoMemory>
    ensures len { IfOk result (λ lists. length lists.items ≡ 64) }
    ensures empty { IfOk result (λ lists. (m : ℕ) → own_at lists.items m ≡ []) }
{
    let mut lists = Vec::with_capacity(alloc, MEMBERS)?;
    for _ in 0..MEMBERS {
        lists.push(Vec::new(alloc))?;
    }
    Ok(lists)
}

/// The ids of at most 1,048,576 updates, of which the first has number 1.
#[derive(Drop)]
pub struct Numbers {
    ids: Vec<UpdateId>,
    own: Vec<Vec<Own>>,
    spare: usize,
}

impl Model for Numbers {
    ghost use Rattle.dory_log.specs.Numbered.{Numbered, IsNumbered};

    ghost Value = { Numbered };

    ghost view = { λ a. record { ids = a.ids.items; spare = a.spare } };

    ghost invariant = { λ a. IsNumbered a.ids a.own.items a.spare };
}

impl Numbers {
    ghost use Rattle.dory_log.specs.Numbered.{MayJoin};

    /// No id, and no room.
    pub fn new(alloc: Global) -> Result<Numbers, NoMemory>
        ensures { IfOk result (λ n. n ≡ record { ids = []; spare = 0 }) }
    {
        let own = empty_lists(alloc)?;
        Ok(Numbers {
            ids: Vec::new(alloc),
            own,
            spare: 0,
        })
    }

    /// How many ids there are.
    pub fn length(&self) -> u32
        ensures value { result ≡ length self.now.ids }
        ensures few { result ≤ 1048576 }
    {
        self.ids.len() as u32
    }

    /// How many more there is room for.
    pub fn spare(&self) -> usize
        ensures { result ≡ self.now.spare }
    {
        self.spare
    }

    /// The number of an id.
    pub fn number_of(&self, id: UpdateId) -> Option<u32>
        ensures { result ≡ number_in self.now.ids id }
    {
        find(own_list(&self.own, id.member.0), id.serial)
    }

    /// The last serial of a member, or 0.
    pub fn last_of(&self, member: u32) -> u64
        ensures { result ≡ last_in self.now.ids member }
    {
        last(own_list(&self.own, member))
    }

    /// The id of a number.
    pub fn at(&self, number: u32) -> Option<UpdateId>
        requires { 1 ≤ number }
        ensures { result ≡ slice_get self.now.ids (number - 1) }
    {
        self.ids.get(number as usize - 1).copied()
    }

    /// Makes room for at least one more id, if there is none. Where memory runs out, all stays as it was.
    pub fn reserve(&mut self) -> Result<(), NoMemory>
        ensures ids { self.new.ids ≡ self.old.ids }
        ensures more { self.old.spare ≤ self.new.spare }
        ensures done { OnOk result (1 ≤ self.new.spare) }
        ensures unchanged { OnErr result (self.new ≡ self.old) }
    {
        if self.spare == 0 {
            reserve_each(&mut self.own, MORE)?;
            self.ids.reserve(MORE)?;
            self.spare = MORE;
        }
        Ok(())
    }

    /// The id gets the next number.
    pub fn push(&mut self, number: u32, id: UpdateId)
        requires { MayJoin self.old number id }
        ensures { self.new ≡ record { ids = self.old.ids ++ id ∷ []; spare = self.old.spare - 1 } }
    {
        push_within(&mut self.ids, id);
        push_within(
            &mut self.own[id.member.0 as usize],
            Own {
                serial: id.serial,
                number,
            },
        );
        self.spare -= 1;
    }
}
