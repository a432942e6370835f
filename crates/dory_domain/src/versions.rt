//! The last versions of a history: the newest, and those before it that are retained.
ghost use Rattle.std.specs.Prelude.{◌≡◌, ◌+◌, ◌<◌, ◌≤◌, ◌++◌, ◌∷◌, [], ℕ, List, vec_len, vec_capacity, length, IfOk, IfErr};
ghost use Rattle.dory_base.specs.declared.entry.Entry.{Entry};
ghost use Rattle.dory_base.specs.declared.refusal.Refusal.TheVariants.{Unretained};
ghost use Rattle.dory_base.specs.TableMeaning.{StandsFor};
ghost use Rattle.dory_wire.specs.Read.{oldest_of};
ghost use Rattle.dory_domain.specs.Versions.{IsVersion, AreLast, IsRetained, MayFollow, newest_of, with_next};

use dory_base::{NoMemory, Refusal, Shape, SlotTable};
use dory_chunks::Version;
use std::alloc::Global;
use std::marker::Model;

/// The last versions of a history, oldest first, with room for as many as are retained and one more.
#[derive(Drop)]
pub struct LastVersions {
    shape: Shape,
    retained: u32,
    versions: Vec<Version>,
}

impl Model for LastVersions {
    ghost use Rattle.std.specs.Prelude.{◌≤◌, ◌<◌, List, vec_capacity};
    ghost use Rattle.dory_base.specs.declared.entry.Entry.{Entry};
    ghost use Rattle.dory_domain.specs.Versions.{AreVersions, Last};

    ghost Value = { Last };

    ghost view = { λ l. record { shape = l.shape; retained = l.retained; versions = l.versions.items } };

    ghost invariant = { λ l. (1 ≤ l.retained) × (l.retained < vec_capacity l.versions) × ((history : List Entry) × AreVersions l.shape l.retained history l.versions.items) };
}

/// Appends to a list that has room.
fn push_within(versions: &mut Vec<Version>, next: Version)
    requires { vec_len versions.old < vec_capacity versions.old }
    ensures items { versions.new.items ≡ versions.old.items ++ next ∷ [] }
    ensures len { vec_len versions.new ≡ vec_len versions.old + 1 }
    ensures capacity { vec_capacity versions.old ≤ vec_capacity versions.new }
{
    match versions.push(next) {
        Ok(()) => {}
        Err(_) => unreachable!(),
    }
}

/// One version more, for which the oldest goes where there are more than are retained.
fn keep(versions: &mut Vec<Version>, next: Version, retained: u32)
    requires { vec_len versions.old < vec_capacity versions.old }
    ensures items { versions.new.items ≡ newest_of retained (versions.old.items ++ next ∷ []) }
    ensures capacity { vec_capacity versions.old ≤ vec_capacity versions.new }
{
    push_within(versions, next);
    if versions.len() > retained as usize {
        versions.remove(0);
    }
}

impl LastVersions {
    /// The one version of a history with no update.
    pub fn new(alloc: Global, shape: Shape, retained: u32) -> Result<LastVersions, NoMemory>
        requires { 1 ≤ retained }
        ensures shape { IfOk result (λ l. l.shape ≡ shape) }
        ensures retained { IfOk result (λ l. l.retained ≡ retained) }
        ensures first { IfOk result (λ l. AreLast [] l) }
    {
        let mut versions = Vec::with_capacity(alloc, retained as usize + 1)?;
        push_within(&mut versions, Version::empty(alloc, shape)?);
        Ok(LastVersions {
            shape,
            retained,
            versions,
        })
    }

    /// The shape of each.
    pub fn shape(&self) -> Shape
        ensures { result ≡ self.now.shape }
    {
        self.shape
    }

    /// The newest version.
    pub fn newest(&self) -> &Version
        ensures shape { result.now.shape ≡ self.now.shape }
        ensures stands { (history : List Entry) → AreLast history self.now → StandsFor result.now history }
    {
        &self.versions[self.versions.len() - 1]
    }

    /// The version of a number, or that it isn't retained, with the oldest and the newest that are.
    pub fn get(&self, number: u32) -> Result<&Version, Refusal>
        ensures found { IfOk result (λ v. (history : List Entry) → AreLast history self.now → IsRetained self.now history number × IsVersion self.now.shape history number v.now) }
        ensures unretained { IfErr result (λ code. (history : List Entry) → AreLast history self.now → (IsRetained self.now history number → ⊥) × (code ≡ Unretained (oldest_of self.now.retained (length history)) (length history))) }
    {
        let newest = self.newest().number();
        let oldest = newest - (self.versions.len() - 1) as u32;
        if number < oldest || number > newest {
            return Err(Refusal::Unretained { oldest, newest });
        }
        Ok(&self.versions[(number - oldest) as usize])
    }

    /// Takes the next version, for which the oldest goes where there are more than are retained.
    pub fn push(&mut self, next: Version)
        requires { MayFollow self.old next }
        ensures { self.new ≡ with_next self.old next }
    {
        keep(&mut self.versions, next, self.retained);
    }
}
