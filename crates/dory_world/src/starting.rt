//! How a world begins: idle members that have done nothing, and two empty domains.
ghost use Rattle.std.specs.Prelude.{◌≡◌, ◌<◌, IfOk};
ghost use Rattle.dory_base.specs.declared.ids.Side.{Side as At};
ghost use Rattle.dory_base.specs.Step.{empty_state};
ghost use Rattle.dory_state.specs.Spelling.{IsKeptState};
ghost use Rattle.dory_run.specs.Start.{IsSetup, fresh, members_from, start};
ghost use Rattle.dory_world.specs.Plays.{IsWorld, shown};
ghost use Rattle.dory_world.specs.Steps.{only};

use crate::place::Place;
use crate::seeds::master_of;
use crate::world::World;
use dory_base::{MemberId, NoMemory, Side};
use dory_domain::{DomainCore, FolderConfig, OpenFault};
use dory_kernel::RowKernel;
use dory_run::Setup;
use dory_state::KeptState;
use std::alloc::Global;

/// A member that has done nothing.
fn fresh(setup: &Setup, number: u32) -> KeptState
    requires setup { IsSetup setup.now }
    requires member { number < setup.now.members }
    ensures value { result ≡ fresh setup.now number }
    ensures range { IsKeptState result }
{
    KeptState {
        folder: setup.folder,
        member: MemberId(number),
        shape: setup.shape,
        master: master_of(setup),
        next_serial: 1,
        seen: 0,
        used: 0,
        pending: None,
    }
}

/// The members, idle.
fn members(alloc: Global, setup: &Setup) -> Result<Vec<Place>, NoMemory>
    requires { IsSetup setup.now }
    ensures { IfOk result (λ members. members.items ≡ members_from setup.now 0 setup.now.members) }
{
    let mut members = Vec::new(alloc);
    for number in 0..setup.members {
        members.push(Place::idle(fresh(setup, number)))?;
    }
    Ok(members)
}

/// A domain with no update.
fn domain(
    alloc: Global,
    setup: &Setup,
    side: Side,
    kernel: &RowKernel,
) -> Result<DomainCore, NoMemory>
    requires { IsSetup setup.now }
    ensures { IfOk result (λ core. core.folders ≡ only setup.now.folder.0 (empty_state side setup.now.shape setup.now.retained)) }
{
    let config = FolderConfig {
        folder: setup.folder,
        shape: setup.shape,
        retained: setup.retained,
    };
    match DomainCore::new(alloc, side, &[config], kernel.again()) {
        Ok(core) => Ok(core),
        Err(OpenFault::NoMemory) => Err(NoMemory),
        Err(OpenFault::BadConfig(_)) => unreachable!(),
    }
}

/// The world in which nothing has happened.
pub fn started(alloc: Global, setup: &Setup, kernel: &RowKernel) -> Result<World, NoMemory>
    requires { IsSetup setup.now }
    ensures { IfOk result (λ w. IsWorld setup.now.folder.0 (shown w.members.items w.lead.folders w.follow.folders w.messages.items) (start setup.now)) }
{
    let members = members(alloc, setup)?;
    let lead = domain(alloc, setup, Side::Lead, kernel)?;
    let follow = domain(alloc, setup, Side::Follow, kernel)?;
    Ok(World {
        members,
        lead,
        follow,
        messages: Vec::new(alloc),
    })
}
