//! What each member has staged: a place for each of the 64.
ghost use Rattle.std.specs.Prelude.{◌≡◌, ◌<◌, length, replicate, slice_set, IfOk, Some, None};
ghost use Rattle.std.specs.Option.{option_map, option_copied};
ghost use Rattle.std.specs.Arc.{arc_value};
ghost use Rattle.dory_base.specs.Log.{staged_by};

use crate::MEMBERS;
use dory_base::{Entry, NoMemory};
use std::alloc::Global;
use std::marker::Model;
use std::sync::Arc;

/// Places that are empty or have a staged update. Updates are shared with those who read them.
#[derive(Drop)]
pub struct Places {
    places: Vec<Option<Arc<Entry>>>,
}

impl Model for Places {
    ghost use Rattle.std.specs.Prelude.{List, Option, map};
    ghost use Rattle.std.specs.Option.{option_map};
    ghost use Rattle.std.specs.Arc.{arc_value};
    ghost use Rattle.dory_base.specs.declared.entry.Entry.{Entry};

    ghost Value = { List (Option Entry) };

    ghost view = { λ p. map (option_map arc_value) p.places.items };
}

impl Places {
    /// 64 empty places.
    pub fn new(alloc: Global) -> Result<Places, NoMemory>
        ensures { IfOk result (λ p. p ≡ replicate 64 None) }
    {
        let mut places = Vec::with_capacity(alloc, MEMBERS)?;
        for _ in 0..MEMBERS {
            places.push(None)?;
        }
        Ok(Places { places })
    }

    /// What a member has staged.
    pub fn of(&self, member: u32) -> Option<&Arc<Entry>>
        ensures { option_map arc_value (option_copied result) ≡ staged_by self.now member }
    {
        match self.places.get(member as usize) {
            None => None,
            Some(place) => place.as_ref(),
        }
    }

    /// The member has this update staged.
    pub fn put(&mut self, member: u32, entry: Arc<Entry>)
        requires { member < length self.old }
        ensures { self.new ≡ slice_set self.old member (Some (arc_value entry)) }
    {
        self.places[member as usize] = Some(entry);
    }

    /// The member has nothing staged.
    pub fn clear(&mut self, member: u32)
        requires { member < length self.old }
        ensures { self.new ≡ slice_set self.old member None }
    {
        self.places[member as usize] = None;
    }
}
