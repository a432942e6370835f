//! Writers of the parts of a message. Each adds a part's spelling at the end of what is written so far.
ghost use Rattle.std.specs.Prelude.{◌≡◌, ◌++◌, ◌∷◌, [], OnOk};
ghost use Rattle.std.specs.List.{flat_map};
ghost use Rattle.std.specs.Int.{w16, to_be_bytes};
ghost use Rattle.dory_base.specs.TagBytes.{tag_bytes};
ghost use Rattle.dory_fields.specs.Bytes.{four};
ghost use Rattle.dory_dpf.specs.KeyBytes.{bytes_of_key};
ghost use Rattle.dory_wire.specs.Asked.{want_of};
ghost use Rattle.dory_wire.specs.Spelling.{ask, change, entry, form_of_keys, found, id, line, refusal, refusal_code, refusal_fields, role_byte, sum, want, want_kind, what, what_kind, IsFound, IsWhat};

use crate::message::{WantRef, What};
use dory_base::{AskId, Change, Entry, Found, NoMemory, Place, Refusal, Side, Sum, Tag, UpdateId};
use dory_dpf::Key;
use dory_fields::{put_bits, put_u16, put_u32, put_u64};

pub fn put_ask(out: &mut Vec<u8>, asked: &AskId) -> Result<(), NoMemory>
    ensures { OnOk result (out.new.items ≡ out.old.items ++ ask asked.now) }
{
    put_u32(out, asked.member.0)?;
    put_u64(out, asked.serial)?;
    put_u32(out, asked.step)
}

fn put_id(out: &mut Vec<u8>, name: &UpdateId) -> Result<(), NoMemory>
    ensures { OnOk result (out.new.items ≡ out.old.items ++ id name.now) }
{
    put_u32(out, name.member.0)?;
    put_u64(out, name.serial)
}

fn put_keys(out: &mut Vec<u8>, keys: &[Key]) -> Result<(), NoMemory>
    ensures { OnOk result (out.new.items ≡ out.old.items ++ flat_map bytes_of_key keys.now) }
{
    for key in keys {
        key.put(out)?;
    }
    Ok(())
}

/// The form of these keys, which is that of the first.
fn form_of(keys: &[Key]) -> u8
    ensures { result ≡ form_of_keys keys.now }
{
    match keys {
        [] => 2,
        [key, ..] => key.form(),
    }
}

fn put_tags(out: &mut Vec<u8>, tags: &[Tag]) -> Result<(), NoMemory>
    ensures { OnOk result (out.new.items ≡ out.old.items ++ flat_map tag_bytes tags.now) }
{
    for tag in tags {
        out.extend_from_slice(&tag.bytes())?;
    }
    Ok(())
}

fn put_change(out: &mut Vec<u8>, done: &Change) -> Result<(), NoMemory>
    ensures { OnOk result (out.new.items ≡ out.old.items ++ change done.now) }
{
    match done {
        Change::Post { shape, row, tags } => {
            out.push(1)?;
            out.push(shape.depth())?;
            out.push(shape.probes())?;
            put_bits(out, row)?;
            put_tags(out, tags.items())
        }
        Change::Remove => Ok(out.push(2)?),
    }
}

fn put_entry(out: &mut Vec<u8>, update: &Entry) -> Result<(), NoMemory>
    ensures { OnOk result (out.new.items ≡ out.old.items ++ entry update.now) }
{
    put_id(out, &update.id)?;
    put_u32(out, update.doc.0)?;
    put_change(out, &update.change)
}

fn put_numbered(out: &mut Vec<u8>, number: u32, name: &UpdateId) -> Result<(), NoMemory>
    ensures { OnOk result (out.new.items ≡ out.old.items ++ (four number ++ id name.now)) }
{
    put_u32(out, number)?;
    put_id(out, name)
}

pub fn put_want(out: &mut Vec<u8>, wanted: &WantRef<'_>) -> Result<(), NoMemory>
    ensures { OnOk result (out.new.items ≡ out.old.items ++ want (want_of wanted.now)) }
{
    match wanted {
        WantRef::Latest => Ok(()),
        WantRef::Search {
            version,
            shape,
            keys,
        } => {
            put_u32(out, *version)?;
            out.push(shape.depth())?;
            out.push(shape.probes())?;
            out.push(form_of(keys.items()))?;
            put_keys(out, keys.items())
        }
        WantRef::Which { number } => put_u32(out, *number),
        WantRef::Stage { entry } => put_entry(out, entry),
        WantRef::Order { id } => put_id(out, id),
        WantRef::Follow { number, id } => put_numbered(out, *number, id),
    }
}

pub fn kind_of_want(wanted: &WantRef<'_>) -> u8
    ensures { result ≡ want_kind (want_of wanted.now) }
{
    match wanted {
        WantRef::Latest => 1,
        WantRef::Search { .. } => 2,
        WantRef::Which { .. } => 3,
        WantRef::Stage { .. } => 4,
        WantRef::Order { .. } => 5,
        WantRef::Follow { .. } => 6,
    }
}

fn put_line(out: &mut Vec<u8>, place: &Place) -> Result<(), NoMemory>
    ensures { OnOk result (out.new.items ≡ out.old.items ++ line place.now) }
{
    put_u16(out, place.slot)?;
    put_u32(out, place.doc.0)?;
    put_id(out, &place.id)
}

fn put_lines(out: &mut Vec<u8>, places: &[Place]) -> Result<(), NoMemory>
    ensures { OnOk result (out.new.items ≡ out.old.items ++ flat_map line places.now) }
{
    for place in places {
        put_line(out, place)?;
    }
    Ok(())
}

fn put_sum(out: &mut Vec<u8>, answer: &Sum) -> Result<(), NoMemory>
    ensures { OnOk result (out.new.items ≡ out.old.items ++ sum answer.now) }
{
    put_bits(out, &answer.bits)?;
    out.extend_from_slice(&answer.tag.bytes())?;
    Ok(())
}

fn put_sums(out: &mut Vec<u8>, sums: &[Sum]) -> Result<(), NoMemory>
    ensures { OnOk result (out.new.items ≡ out.old.items ++ flat_map sum sums.now) }
{
    for answer in sums {
        put_sum(out, answer)?;
    }
    Ok(())
}

fn put_found(out: &mut Vec<u8>, holding: &Found) -> Result<(), NoMemory>
    requires { IsFound holding.now }
    ensures { OnOk result (out.new.items ≡ out.old.items ++ found holding.now) }
{
    let places = holding.manifest.items();
    let sums = holding.sums.items();
    put_u32(out, holding.version)?;
    put_u16(out, places.len() as u16)?;
    put_lines(out, places)?;
    out.push(sums.len() as u8)?;
    put_sums(out, sums)
}

fn byte_of_role(role: &Side) -> u8
    ensures { result ≡ role_byte role.now }
{
    match role {
        Side::Lead => 0,
        Side::Follow => 1,
    }
}

fn byte_of_code(code: &Refusal) -> u8
    ensures { result ≡ refusal_code code.now }
{
    match code {
        Refusal::NoFolder => 1,
        Refusal::ShapeWrong { .. } => 2,
        Refusal::Unretained { .. } => 3,
        Refusal::BadMember { .. } => 4,
        Refusal::Past { .. } => 5,
        Refusal::Clash { .. } => 6,
        Refusal::Unfinished { .. } => 7,
        Refusal::Unstaged { .. } => 8,
        Refusal::Taken { .. } => 9,
        Refusal::Gap { .. } => 10,
        Refusal::WrongRole { .. } => 11,
        Refusal::HistoryFull => 12,
        Refusal::NoEntry { .. } => 13,
        Refusal::NoMemory => 14,
    }
}

fn put_pair(out: &mut Vec<u8>, first: u32, second: u32) -> Result<(), NoMemory>
    ensures { OnOk result (out.new.items ≡ out.old.items ++ (four first ++ four second)) }
{
    put_u32(out, first)?;
    put_u32(out, second)
}

fn put_fields(out: &mut Vec<u8>, code: &Refusal) -> Result<(), NoMemory>
    ensures { OnOk result (out.new.items ≡ out.old.items ++ refusal_fields code.now) }
{
    match code {
        Refusal::NoFolder | Refusal::HistoryFull | Refusal::NoMemory => Ok(()),
        Refusal::ShapeWrong { depth, probes } => Ok(out.extend_from_slice(&[*depth, *probes])?),
        Refusal::Unretained { oldest, newest } => put_pair(out, *oldest, *newest),
        Refusal::BadMember { member } => put_u32(out, member.0),
        Refusal::Past { last } => put_u64(out, *last),
        Refusal::Clash { id } => put_id(out, id),
        Refusal::Unfinished { id } => put_id(out, id),
        Refusal::Unstaged { id } => put_id(out, id),
        Refusal::Taken { number, id } => put_numbered(out, *number, id),
        Refusal::WrongRole { role } => Ok(out.push(byte_of_role(role))?),
        Refusal::Gap { length } => put_u32(out, *length),
        Refusal::NoEntry { length } => put_u32(out, *length),
    }
}

fn put_refusal(out: &mut Vec<u8>, code: &Refusal) -> Result<(), NoMemory>
    ensures { OnOk result (out.new.items ≡ out.old.items ++ refusal code.now) }
{
    out.push(byte_of_code(code))?;
    put_fields(out, code)
}

pub fn put_what(out: &mut Vec<u8>, answered: &What) -> Result<(), NoMemory>
    requires { IsWhat answered.now }
    ensures { OnOk result (out.new.items ≡ out.old.items ++ what answered.now) }
{
    match answered {
        What::At { length } => put_u32(out, *length),
        What::Found { found } => put_found(out, found),
        What::Id { number, id } => put_numbered(out, *number, id),
        What::Staged { id } => put_id(out, id),
        What::Committed { number, id } => put_numbered(out, *number, id),
        What::Refused { code } => put_refusal(out, code),
    }
}

pub fn kind_of_what(answered: &What) -> u8
    ensures { result ≡ what_kind answered.now }
{
    match answered {
        What::At { .. } => 0x81,
        What::Found { .. } => 0x82,
        What::Id { .. } => 0x83,
        What::Staged { .. } => 0x84,
        What::Committed { .. } => 0x85,
        What::Refused { .. } => 0x86,
    }
}
