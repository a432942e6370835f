//! How a domain opens: its folders begin, and each seat gets a reader of each.
ghost use Rattle.std.specs.Prelude.{◌≡◌, ◌≤◌, All, Err, None, length, IfOk};
ghost use Rattle.dory_io.specs.Causes.{HasCause};
ghost use Rattle.dory_domain.specs.Setup.{setup_fault};
ghost use Rattle.dory_shared.specs.Seen.{names_of};
ghost use Rattle.dory_shared.specs.Opening.{AreOpened, IsRefusedBy};
ghost use Rattle.dory_shared.specs.declared.opened.OpenError.TheVariants.{PlaceRefused as RefusedPlace};

use crate::cabinet::Cabinet;
use crate::domain::Domain;
use crate::locks::Locks;
use crate::names::Names;
use crate::seat::Seat;
use dory_base::{Failed, NoMemory};
use dory_domain::{Config, ConfigFault};
use dory_kernel::RowKernel;
use dory_shelf::PlaceMaker;
use std::alloc::Global;
use std::marker::Model;
use std::sync::Wait;

/// Why a domain doesn't open.
#[derive(Clone, Copy, Debug, PartialEq, Eq)]
pub enum OpenError {
    BadConfig(ConfigFault),
    /// The maker of places refused one, and counted it.
    PlaceRefused,
    NoMemory,
}

/// The folders of a domain before it is named, each without its lock. Contracts see what each has published.
#[derive(Drop)]
pub struct Opened<'a, R: Wait> {
    cabinets: Vec<Cabinet<'a, R>>,
}

impl<'a, R: Wait> Model for Opened<'a, R> {
    ghost use Rattle.std.specs.Prelude.{◌≤◌, List, length};
    ghost use Rattle.dory_shared.specs.Seen.{Seen};

    ghost Value = { List Seen };

    ghost view = { λ o. o.cabinets.items };

    ghost invariant = { λ o. length o.cabinets.items ≤ 8 };
}

impl<'a, R: Wait> Opened<'a, R> {
    /// Puts each folder behind its lock, under the names that it has. It takes no memory.
    pub fn named<J: Names>(self, kernel: RowKernel) -> Domain<'a, J, R>
        requires { names_of self ≡ J.names }
    {
        let Opened { cabinets } = self;
        Domain {
            locks: Locks::of(cabinets),
            kernel,
        }
    }

    /// Ends each folder. A drop does the same.
    pub fn close(self) {
        drop(self);
    }
}

/// The folders of a configuration, each with no update.
fn begin<'a, R: Wait>(
    rt: &'a R,
    alloc: Global,
    config: &Config,
) -> Result<Vec<Cabinet<'a, R>>, NoMemory>
    requires { setup_fault config.now.folders config.now.seats ≡ None }
    ensures { IfOk result (λ all. AreOpened config.now.role config.now.folders all.items) }
{
    let mut all = Vec::new(alloc);
    for folder in config.folders.items() {
        let cabinet = Cabinet::new(rt, alloc, config.role, *folder, config.seats)?;
        all.push(cabinet)?;
    }
    Ok(all)
}

/// A seat with a reader of each folder, in their order.
fn seat_at<R: Wait, P: PlaceMaker>(
    alloc: Global,
    cabinets: &mut Vec<Cabinet<'_, R>>,
    places: &mut P,
) -> Result<Seat, OpenError>
    ensures same { cabinets.new.items ≡ cabinets.old.items }
    ensures seat { IfOk result (λ s. s ≡ cabinets.old.items) }
    ensures fault { IsRefusedBy None result }
    ensures cause { HasCause (P.faults places.old) (P.faults places.new) (result ≡ Err RefusedPlace) }
{
    let mut all = Vec::new(alloc);
    for at in 0..cabinets.len() {
        let place = match cabinets[at].place(places) {
            Ok(place) => place,
            Err(Failed) => return Err(OpenError::PlaceRefused),
        };
        if all.push(place).is_err() {
            return Err(OpenError::NoMemory);
        }
    }
    Ok(Seat { places: all })
}

/// So many seats.
fn seats_at<R: Wait, P: PlaceMaker>(
    alloc: Global,
    cabinets: &mut Vec<Cabinet<'_, R>>,
    seats: u32,
    places: &mut P,
) -> Result<Vec<Seat>, OpenError>
    ensures same { cabinets.new.items ≡ cabinets.old.items }
    ensures each { IfOk result (λ all. All (λ s. s ≡ cabinets.old.items) all.items) }
    ensures many { IfOk result (λ all. length all.items ≡ seats) }
    ensures fault { IsRefusedBy None result }
    ensures cause { HasCause (P.faults places.old) (P.faults places.new) (result ≡ Err RefusedPlace) }
{
    let mut all = Vec::new(alloc);
    for made in 0..seats {
        let seat = seat_at(alloc, cabinets, places)?;
        if all.push(seat).is_err() {
            return Err(OpenError::NoMemory);
        }
    }
    Ok(all)
}

/// Opens a domain, with as many seats as its configuration says. The maker of places is called once for each seat and folder,
/// seats first to last, and folders in their order within a seat. At a refusal what was made is closed.
pub fn open_domain<'a, R: Wait, P: PlaceMaker>(
    rt: &'a R,
    alloc: Global,
    config: &Config,
    places: &mut P,
) -> Result<(Opened<'a, R>, Vec<Seat>), OpenError>
    ensures fault { IsRefusedBy (setup_fault config.now.folders config.now.seats) result }
    ensures opened { IfOk result (λ t. AreOpened config.now.role config.now.folders t.0) }
    ensures seats { IfOk result (λ t. All (λ s. s ≡ t.0) t.1.items) }
    ensures many { IfOk result (λ t. length t.1.items ≡ config.now.seats) }
    ensures cause { HasCause (P.faults places.old) (P.faults places.new) (result ≡ Err RefusedPlace) }
{
    if let Some(fault) = config.fault() {
        return Err(OpenError::BadConfig(fault));
    }
    let Ok(mut cabinets) = begin(rt, alloc, config) else {
        return Err(OpenError::NoMemory);
    };
    let seats = seats_at(alloc, &mut cabinets, config.seats, places)?;
    Ok((Opened { cabinets }, seats))
}
