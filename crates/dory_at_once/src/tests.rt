//! Seats of one folder at once: some read or search while another writes.
ghost use Rattle.std.specs.Prelude.{◌≡◌, ◌≤◌, IfOk};
ghost use Rattle.dory_dpf.specs.PointKey.{IsKeyOf};
ghost use Rattle.dory_wire.specs.Spelling.{AreKeys, IsEntry, IsRequest, IsWant};
ghost use Rattle.dory_shared.specs.Seen.{names_of};

mod growing;
mod many;
mod retained;
mod searched;

use crate::publish;
use dory_base::{
    AskId, Bits, Change, DocId, Entry, FolderId, MemberId, NoMemory, Shape, Side, Tag, Tags,
    UpdateId,
};
use dory_domain::{Config, FolderConfig, FolderList};
use dory_dpf::{Key, Keys, gen_short};
use dory_shared::{Domain, Names, Seat};
use dory_wire::{Request, Want};
use std::alloc::Global;
use std::sync::Wait;

/// 256 columns, and two positions for a word.
pub fn shape() -> Shape
    ensures { result ≡ record { depth = 8; probes = 2 } }
{
    Shape::of(8, 2)
}

/// A lead of folder 1, which retains so many versions, with so many seats.
pub fn config(alloc: Global, retained: u32, seats: u32) -> Result<Config, NoMemory> {
    let mut folders = Vec::new(alloc);
    folders.push(FolderConfig {
        folder: FolderId(1),
        shape: shape(),
        retained,
    })?;
    Ok(Config {
        role: Side::Lead,
        folders: FolderList::of(folders),
        seats,
    })
}

/// A request of member 0 for folder 1.
pub fn request(want: Want) -> Request
    requires { IsWant want }
    ensures range { IsRequest result }
    ensures want { result.want ≡ want }
{
    Request {
        ask: AskId {
            member: MemberId(0),
            serial: 1,
            step: 0,
        },
        folder: FolderId(1),
        want,
    }
}

/// An update of this serial by member 0 that posts a document with two set cells, and with this tag for each column.
pub fn post(
    alloc: Global,
    serial: u32,
    doc: u32,
    cells: (u8, u8),
    tag: Tag,
) -> Result<Entry, NoMemory>
    requires some { 1 ≤ serial }
    ensures { IfOk result IsEntry }
{
    let id = UpdateId {
        member: MemberId(0),
        serial: serial as u64,
    };
    let mut row = Bits::zero(alloc, 256)?;
    row.put(cells.0 as usize, true);
    row.put(cells.1 as usize, true);
    let _few = tag.bytes();
    let tags = Tags::of(vec![in alloc; tag; 256]?);
    Ok(Entry {
        id,
        doc: DocId(doc),
        change: Change::Post {
            shape: shape(),
            row,
            tags,
        },
    })
}

/// The update of this serial by member 0: it removes a document, or posts one with two set cells and zero tags.
pub fn update(alloc: Global, serial: u32, doc: u32, posts: bool) -> Result<Entry, NoMemory>
    requires some { 1 ≤ serial }
    ensures { IfOk result IsEntry }
{
    if posts {
        return post(alloc, serial, doc, (0, 255), Tag::zero());
    }
    let id = UpdateId {
        member: MemberId(0),
        serial: serial as u64,
    };
    Ok(Entry {
        id,
        doc: DocId(doc),
        change: Change::Remove,
    })
}

/// One side's key of a column. The trees begin with zeros and with ones.
fn key(column: u8, follows: bool) -> Key
    ensures { IsKeyOf 2 8 result }
{
    let (lead, follow) = gen_short(shape(), column as u16, [0; 16], [1; 16]);
    if follows {
        let _depth = follow.depth();
        return follow;
    }
    let _depth = lead.depth();
    lead
}

/// One side's keys of two columns.
pub fn keys(alloc: Global, columns: (u8, u8), follows: bool) -> Result<Keys, NoMemory>
    ensures { IfOk result (λ keys. AreKeys (record { depth = 8; probes = 2 }) keys) }
{
    let mut keys = Vec::new(alloc);
    keys.push(key(columns.0, follows))?;
    keys.push(key(columns.1, follows))?;
    Ok(Keys::of(keys))
}

/// Whether an update is committed at this number.
pub fn commit<J: Names, R: Wait>(
    rt: &R,
    alloc: Global,
    domain: &Domain<'_, J, R>,
    seat: &mut Seat,
    entry: Entry,
    want: u32,
) -> bool
    requires fits { names_of seat.old ≡ J.names }
    requires entry { IsEntry entry }
    ensures fits { names_of seat.new ≡ J.names }
{
    publish(rt, alloc, domain, seat, FolderId(1), entry) == Some(want)
}
