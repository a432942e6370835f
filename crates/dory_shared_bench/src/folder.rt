//! The folder that is worked on, and its updates.
ghost use Rattle.std.specs.Prelude.{◌≡◌, ◌≤◌, ◌<◌, ◌^◌, length, IfOk};
ghost use Rattle.std.specs.List.{AllByRecursion};
ghost use Rattle.dory_wire.specs.Spelling.{IsEntry};

use crate::fault::Fault;
use dory_base::{
    Bits, Change, DocId, Entry, FolderId, MemberId, NoMemory, Shape, Side, Tag, Tags, UpdateId,
};
use dory_domain::{Config, FolderConfig, FolderList};
use std::alloc::Global;

/// The folder's number.
pub const FOLDER: FolderId = FolderId(1);

/// What is put into the folder: documents 1 and following of this shape, one after the other and then again from the first.
/// With no document each update removes one that isn't there.
#[derive(Drop)]
pub struct Filling {
    pub shape: Shape,
    pub documents: u32,
    /// How many versions are retained.
    pub retained: u32,
}

/// 256 columns, and eight positions for a word.
pub fn narrow() -> Shape {
    Shape::of(8, 8)
}

/// 2,048 columns, and eight positions for a word.
pub fn wide() -> Shape {
    Shape::of(11, 8)
}

/// The folder, empty.
pub fn folder(filling: &Filling) -> FolderConfig {
    FolderConfig {
        folder: FOLDER,
        shape: filling.shape,
        retained: filling.retained,
    }
}

/// A lead with the folder, and so many seats.
pub fn config(alloc: Global, filling: &Filling, seats: u32) -> Result<Config, NoMemory> {
    let mut folders = Vec::new(alloc);
    folders.push(folder(filling))?;
    Ok(Config {
        role: Side::Lead,
        folders: FolderList::of(folders),
        seats,
    })
}

/// A row with one set cell.
fn row(alloc: Global, shape: Shape, doc: u32) -> Result<Bits, NoMemory>
    ensures { IfOk result (λ row. length row ≡ 2 ^ shape.depth) }
{
    let columns = shape.columns();
    let column = (doc % 256) as usize;
    let mut row = Bits::zero(alloc, columns)?;
    if column < columns {
        row.put(column, true);
    }
    Ok(row)
}

/// So many tags, each of the same byte throughout.
fn tags(alloc: Global, columns: usize, doc: u32) -> Result<Tags, NoMemory>
    ensures len { IfOk result (λ tags. length tags ≡ columns) }
    ensures each { IfOk result (AllByRecursion (λ t. t < 2 ^ 128)) }
{
    let tag = Tag([(doc % 256) as u8; 16]);
    let _bytes = tag.bytes();
    let tags = vec![in alloc; tag; columns]?;
    Ok(Tags::of(tags))
}

/// A post of a document with one set cell, and tags of one byte.
fn post(alloc: Global, shape: Shape, id: UpdateId, doc: u32) -> Result<Entry, NoMemory>
    requires { 1 ≤ id.serial }
    ensures { IfOk result IsEntry }
{
    let row = row(alloc, shape, doc)?;
    let tags = tags(alloc, shape.columns(), doc)?;
    Ok(Entry {
        id,
        doc: DocId(doc),
        change: Change::Post { shape, row, tags },
    })
}

/// The update of this serial by member 0, which is the folder's update of this number.
pub fn update(alloc: Global, filling: &Filling, serial: u32) -> Result<Entry, Fault>
    ensures { IfOk result IsEntry }
{
    if serial == 0 {
        return Err(Fault::Unexpected);
    }
    let id = UpdateId {
        member: MemberId(0),
        serial: serial as u64,
    };
    let (shape, documents) = (filling.shape, filling.documents);
    match (serial - 1).checked_rem(documents) {
        None => Ok(Entry {
            id,
            doc: DocId(serial),
            change: Change::Remove,
        }),
        Some(before) => match post(alloc, shape, id, before.saturating_add(1)) {
            Ok(entry) => Ok(entry),
            Err(NoMemory) => Err(Fault::NoMemory),
        },
    }
}
