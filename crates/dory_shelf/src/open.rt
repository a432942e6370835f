//! How a shelf is opened.
ghost use Rattle.std.specs.Prelude.{◌≡◌, ◌<◌, ◌≤◌, [], replicate, None, IfOk};
ghost use Rattle.std.specs.Arc.{arc_value};
ghost use Rattle.dory_base.specs.TableMeaning.{empty_of};
ghost use Rattle.dory_shelf.specs.ShelfRule.{IsShelf, first_shown};
ghost use Rattle.dory_shelf.specs.Writing.{Standing, Showing};

use crate::front::{Front, open_book};
use crate::rule::Sees;
use crate::store::{Change, Store, Stored};
use crate::writer::{ShelfWriter, StoreWriter};
use dory_base::{NoMemory, Shape, SlotTable};
use dory_chunks::Version;
use std::alloc::Global;
use std::sync::{Arc, Wait};

fn empty_slots(alloc: Global, retained: u32) -> Result<Vec<Option<Stored>>, NoMemory>
    ensures { IfOk result (λ v. v.items ≡ replicate retained None) }
{
    let mut slots = Vec::new(alloc);
    for place in 0..retained {
        slots.push(None)?;
    }
    Ok(slots)
}

/// A copy with version 0 and no other.
fn blank(
    alloc: Global,
    retained: u32,
    front: &Front,
    version: Arc<Version>,
) -> Result<Store, NoMemory>
    requires retained { front.now.shelf.retained ≡ retained }
    requires empty { front.now.events ≡ [] }
    requires version { arc_value version ≡ empty_of front.now.shelf.shape }
    ensures value { IfOk result (λ s. s ≡ first_shown front.now) }
    ensures shelf { IfOk result (λ s. IsShelf s) }
{
    let mut slots = empty_slots(alloc, retained)?;
    slots[0] = Some(Stored {
        number: 0,
        version: Some(version),
        front: front.again(),
    });
    Ok(Store::of(front.again(), slots))
}

/// Opens a shelf with an empty history, with room for so many versions and readers.
#[tactic(auto, using(crate::proofs::Shelving::starts))]
pub fn open_shelf<'a, R: Wait>(
    rt: &'a R,
    alloc: Global,
    shape: Shape,
    retained: u32,
    places: u32,
) -> Result<ShelfWriter<'a, R>, NoMemory>
    requires { (1 ≤ retained) × (1 ≤ places) }
    ensures empty { IfOk result (λ s. s.known.events ≡ []) }
    ensures shelf { IfOk result (λ s. (s.known.shelf.shape ≡ shape) × (s.known.shelf.retained ≡ retained)) }
    ensures pending { IfOk result (λ s. s.pending ≡ None) }
{
    let (head, front) = open_book(shape, retained);
    let version = Arc::new(alloc, Version::empty(alloc, shape)?)?;
    let first = blank(alloc, retained, &front, Arc::try_clone(&version)?)?;
    let second = blank(alloc, retained, &front, version)?;
    let writer = StoreWriter::new(alloc, first, second, places as usize)?;
    let writer = primed(rt, writer, &front)?;
    Ok(ShelfWriter::over(writer, rt, head, front))
}

/// Publishes a change of nothing: it allots the log, and lets the rule know the writer.
fn primed<R: Wait>(rt: &R, writer: StoreWriter, front: &Front) -> Result<StoreWriter, NoMemory>
    requires { Standing writer front.now }
    ensures { IfOk result (λ w. Showing w front.now) }
{
    let mut writer = writer;
    let change = Change {
        front: front.again(),
        stored: None,
    };
    if let Err(_change) = writer.append(change) {
        drop(writer.take(rt));
        return Err(NoMemory);
    }
    let (writer, done) = writer.publish_as::<Sees, R>(rt);
    let _ = done;
    Ok(writer)
}
