//! Readers beside the writer: what is published is seen, and a version goes once it isn't among the last.
ghost use Rattle.std.specs.Prelude.{◌≡◌, [], ◌∷◌, None, IfOk};
ghost use Rattle.std.specs.Arc.{arc_value};
ghost use Rattle.dory_base.specs.declared.entry.Entry.{Entry as Update};
ghost use Rattle.dory_base.specs.declared.entry.Change.TheVariants.{Remove};
ghost use Rattle.dory_base.specs.TableMeaning.{kept_of};
ghost use Rattle.dory_shelf.specs.Published.{Grew};

use crate::{FailingPlaces, PlaceMaker, Places, ShelfOp, ShelfReader, ShelfWriter, open_shelf};
use dory_base::{Change, DocId, Entry, MemberId, NoMemory, Refusal, Shape, SlotTable, UpdateId};
use dory_chunks::Version;
use std::alloc::{AllocError, Global};
use std::sync::{Arc, Wait};
use std::test::Fail;

/// The first update of member 0, which removes document 7.
fn update(alloc: Global) -> Result<Arc<Entry>, NoMemory>
    ensures { IfOk result (λ e. arc_value e ≡ record { id = record { member = record { 0 = 0 }; serial = 1 }; doc = record { 0 = 7 }; change = Remove }) }
{
    let entry = Entry {
        id: UpdateId {
            member: MemberId(0),
            serial: 1,
        },
        doc: DocId(7),
        change: Change::Remove,
    };
    Ok(Arc::new(alloc, entry)?)
}

/// The version of a folder that has had this update alone.
fn version_of(alloc: Global, shape: Shape, entry: Arc<Entry>) -> Result<Arc<Version>, NoMemory>
    requires { (arc_value entry).change ≡ Remove }
    ensures { IfOk result (λ v. arc_value v ≡ kept_of shape (arc_value entry ∷ [])) }
{
    let empty = Version::empty(alloc, shape)?;
    Ok(Arc::new(alloc, empty.next_uncounted(alloc, entry)?)?)
}

/// Stages an update and appends it.
fn publish_one<R: Wait>(
    writer: &mut ShelfWriter<'_, R>,
    alloc: Global,
    shape: Shape,
) -> Result<(), NoMemory>
    requires free { writer.old.pending ≡ None }
    requires empty { writer.old.known.events ≡ [] }
    requires shape { writer.old.known.shelf.shape ≡ shape }
    ensures pending { writer.new.pending ≡ None }
    ensures shelf { writer.new.known.shelf ≡ writer.old.known.shelf }
{
    let entry = update(alloc)?;
    let id = entry.id;
    let version = version_of(alloc, shape, Arc::try_clone(&entry)?)?;
    writer.append(alloc, ShelfOp::Staged(entry))?;
    writer.publish();
    writer.append(alloc, ShelfOp::Appended(id, version))?;
    writer.publish();
    Ok(())
}

/// What a reader answers for a version: its number, or the refusal.
fn number_at(reader: &mut ShelfReader, number: u32) -> Result<u32, Refusal>
    ensures { Grew reader.old reader.new }
{
    match reader.version(number) {
        Ok(version) => Ok(version.number()),
        Err(code) => Err(code),
    }
}

#[test]
fn a_version_goes_once_it_is_not_among_the_last(rt: HostRuntime) -> Result<(), Fail> {
    let alloc: Global = rt.alloc();
    let shape = Shape::of(8, 2);
    let mut places = FailingPlaces::new(Places::new(), vec![in alloc; 2]?);
    let Ok(mut writer) = open_shelf(&rt, alloc, shape, 1, 2) else {
        return Err(Fail::from(AllocError));
    };
    let reader = places.place(&mut writer);
    let refused = places.place(&mut writer).is_err();
    let other = places.place(&mut writer);
    let (Ok(mut reader), Ok(mut other)) = (reader, other) else {
        return Err(Fail::from(AllocError));
    };
    let first = number_at(&mut reader, 0);
    let done = publish_one(&mut writer, alloc, shape).is_ok();
    reader.learn(writer.tell());
    let learned = (reader.seen(), other.seen());
    let newest = (
        number_at(&mut reader, 1),
        number_at(&mut reader, 0),
        reader.length(),
    );
    let own = writer.version(1).map(|version| version.number());
    let count = (writer.operations(), writer.length());
    writer.close();
    let last = (other.operations(), number_at(&mut reader, 1));
    let unretained = Err(Refusal::Unretained {
        oldest: 1,
        newest: 1,
    });
    assert!(rt; refused && done);
    assert_eq!(rt; first, Ok(0));
    assert_eq!(rt; learned, (2, 0));
    assert_eq!(rt; newest, (Ok(1), unretained, 1));
    assert_eq!(rt; (own, count), (Ok(1), (2, 1)));
    assert_eq!(rt; last, (0, Err(Refusal::NoMemory)));
    Ok(())
}
