//! A member in the world: idle with what it has kept, or busy with a command.
ghost use Rattle.std.specs.Prelude.{◌≡◌, true, IfOk, IfSome, option_map, slice_get};
ghost use Rattle.dory_state.specs.Spelling.{IsKeptState};
ghost use Rattle.dory_member.specs.Machine.{turn_of, waits_for_reply};
ghost use Rattle.dory_run.specs.World.{Idle, Busy};
ghost use Rattle.dory_world.specs.Places.{GivesUp, awaited_at, idle_in};

use dory_base::{MemberId, NoMemory, Side};
use dory_member::{Member, Next};
use dory_state::KeptState;
use std::alloc::Global;
use std::marker::Model;
use std::mem;

/// How a member stands.
#[derive(Drop)]
pub enum Standing {
    Idle { kept: KeptState },
    /// Its command waits for a reply.
    Busy { member: Member },
}

/// A member's place in the world, which contracts see as its station.
#[derive(Drop)]
pub struct Place {
    standing: Standing,
}

impl Model for Place {
    ghost use Rattle.dory_run.specs.World.{Station};

    ghost Value = { Station };

    ghost use Rattle.dory_world.specs.Places.{station_of, Stands};

    ghost view = { λ p. station_of p.standing };

    ghost invariant = { λ p. Stands p.standing };
}

impl Place {
    pub fn idle(kept: KeptState) -> Place
        requires { IsKeptState kept }
        ensures { result ≡ Idle kept }
    {
        Place {
            standing: Standing::Idle { kept },
        }
    }

    pub fn busy(member: Member) -> Place
        requires { waits_for_reply (turn_of member) ≡ true }
        ensures { result ≡ Busy member.run }
    {
        Place {
            standing: Standing::Busy { member },
        }
    }

    /// What an idle member has kept.
    pub fn kept(&self) -> Option<&KeptState>
        ensures value { option_map (λ k. k.now) result ≡ idle_in self.now }
        ensures range { IfSome result (λ k. IsKeptState k.now) }
    {
        match &self.standing {
            Standing::Idle { kept } => Some(kept),
            Standing::Busy { .. } => None,
        }
    }

    /// The domain of which a busy member waits for a reply.
    pub fn awaited(&self) -> Option<Side>
        ensures { result ≡ awaited_at self.now }
    {
        match &self.standing {
            Standing::Idle { .. } => None,
            Standing::Busy { member } => match member.next() {
                Next::Ask { side, .. } => Some(side),
                Next::Save => None,
                Next::End => None,
            },
        }
    }

    /// Takes a busy member's command, and leaves the member idle with what it has kept.
    pub fn give_up(&mut self, alloc: Global) -> Result<Option<Member>, NoMemory>
        ensures { IfOk result (GivesUp self.old self.new) }
    {
        let Standing::Busy { member } = &self.standing else {
            return Ok(None);
        };
        let kept = member.state().copy(alloc)?;
        match mem::replace(&mut self.standing, Standing::Idle { kept }) {
            Standing::Idle { .. } => Ok(None),
            Standing::Busy { member } => Ok(Some(member)),
        }
    }
}

/// The place of a member, if there is such a member.
pub fn place_at(members: &[Place], m: MemberId) -> Option<&Place>
    ensures { option_map (λ p. p.now) result ≡ slice_get members.now m.0 }
{
    members.get(m.0 as usize)
}
