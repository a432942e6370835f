//! A domain by worked examples: lists of folders, reads of a short history, and updates that are staged and committed.
ghost use Rattle.std.specs.Prelude.{◌≡◌, ◌≤◌, ◌+◌, length, IfOk, if◌then◌else◌};
ghost use Rattle.dory_dpf.specs.PointKey.{IsKeyOf};
ghost use Rattle.dory_wire.specs.Spelling.{IsEntry, IsWant};

use crate::{ConfigFault, DomainCore, FolderConfig, OpenFault};
use dory_base::{
    AskId, Bits, Change, DocId, Entry, FolderId, MemberId, NoMemory, Refusal, Shape, Side, Tag,
    Tags, UpdateId,
};
use dory_dpf::{Key, Keys, gen_long, gen_short};
use dory_kernel::{RowKernel, plain_parity};
use dory_wire::{Request, Want, What};
use std::alloc::Global;

// 256 bits, of which those at two places are set.
fn bits_at(alloc: Global, first: u8, second: u8) -> Result<Bits, NoMemory>
    ensures { IfOk result (λ bits. length bits ≡ 256) }
{
    let mut bits = Bits::zero(alloc, 256)?;
    bits.put(first as usize, true);
    bits.put(second as usize, true);
    Ok(bits)
}

fn config(folder: u32, shape: Shape, retained: u32) -> FolderConfig
    ensures { result ≡ record { folder = record { 0 = folder }; shape = shape; retained = retained } }
{
    FolderConfig {
        folder: FolderId(folder),
        shape,
        retained,
    }
}

fn fault_of(alloc: Global, configs: &[FolderConfig]) -> Option<ConfigFault> {
    match DomainCore::new(alloc, Side::Lead, configs, RowKernel::new(plain_parity)) {
        Err(OpenFault::BadConfig(fault)) => Some(fault),
        _ => None,
    }
}

#[test]
fn a_list_of_folders_is_refused_by_its_first_fault(rt: HostRuntime) -> Result<(), NoMemory> {
    let alloc = rt.alloc();
    let shape = Shape::new(8, 2).expect(&rt, "a shape in range");
    assert!(rt; fault_of(alloc, &[]) == Some(ConfigFault::Folders { n: 0 }));
    let nine = [config(1, shape, 0); 9];
    assert!(rt; fault_of(alloc, &nine) == Some(ConfigFault::Folders { n: 9 }));
    let twice = [
        config(1, shape, 2),
        config(2, shape, 2),
        config(1, shape, 0),
    ];
    assert!(rt; fault_of(alloc, &twice) == Some(ConfigFault::FolderTwice { place: 2 }));
    let none = [config(1, shape, 1), config(2, shape, 0)];
    assert!(rt; fault_of(alloc, &none) == Some(ConfigFault::Retained { place: 1, got: 0 }));
    let many = [config(1, shape, 256), config(2, shape, 257)];
    assert!(rt; fault_of(alloc, &many) == Some(ConfigFault::Retained { place: 1, got: 257 }));
    Ok(())
}

// What a domain answers to a request.
fn answer(alloc: Global, core: &mut DomainCore, folder: u32, want: Want) -> What
    requires { IsWant want }
{
    let ask = AskId {
        member: MemberId(0),
        serial: 1,
        step: 0,
    };
    let request = Request {
        ask,
        folder: FolderId(folder),
        want,
    };
    core.step(alloc, &request).what
}

// A post of a row with two set cells and zero tags.
fn post_with(
    alloc: Global,
    shape: Shape,
    serial: u32,
    doc: u32,
    cells: (u8, u8),
) -> Result<Entry, NoMemory>
    requires shape { shape ≡ record { depth = 8; probes = 2 } }
    requires some { 1 ≤ serial }
    ensures { IfOk result IsEntry }
{
    let row = bits_at(alloc, cells.0, cells.1)?;
    let tags = vec![in alloc; Tag::zero(); shape.columns()]?;
    Ok(Entry {
        id: UpdateId {
            member: MemberId(0),
            serial: serial as u64,
        },
        doc: DocId(doc),
        change: Change::Post {
            shape,
            row,
            tags: Tags::of(tags),
        },
    })
}

// Stages and follows an update in folder 1.
fn commit(alloc: Global, core: &mut DomainCore, number: u32, entry: Entry)
    requires some { 1 ≤ number }
    requires few { number ≤ 1000 }
    requires entry { IsEntry entry }
{
    let id = entry.id;
    answer(alloc, core, 1, Want::Stage { entry });
    answer(alloc, core, 1, Want::Follow { number, id });
}

// A domain whose folder 1 has this many versions retained.
fn empty_core(
    alloc: Global,
    role: Side,
    shape: Shape,
    retained: u32,
) -> Result<DomainCore, NoMemory> {
    let configs = [config(1, shape, retained)];
    match DomainCore::new(alloc, role, &configs, RowKernel::new(plain_parity)) {
        Ok(core) => Ok(core),
        Err(_) => Err(NoMemory),
    }
}

// A follower whose folder 1 has so many posts.
fn core_of(alloc: Global, shape: Shape, retained: u32, count: u8) -> Result<DomainCore, NoMemory>
    requires { shape ≡ record { depth = 8; probes = 2 } }
{
    let mut core = empty_core(alloc, Side::Follow, shape, retained)?;
    for number in 1..count as u32 + 1 {
        let entry = post_with(alloc, shape, number, number, (0, 255))?;
        commit(alloc, &mut core, number, entry);
    }
    Ok(core)
}

// How a key is made: for one party or the other, in form 2 or in form 1.
#[derive(Clone, Copy)]
struct Making {
    follow: bool,
    short: bool,
}

// A key for a column, whose tree begins with zeros.
fn key(shape: Shape, making: Making, column: u8) -> Key
    requires low { 8 ≤ shape.depth }
    ensures { IsKeyOf (if making.short then 2 else 1) shape.depth result }
{
    let (lead, follow) = if making.short {
        gen_short(shape, column as u16, [0; 16], [0; 16])
    } else {
        gen_long(shape, column as u16, [0; 16], [0; 16])
    };
    let key = if making.follow { follow } else { lead };
    let _depth = key.depth();
    key
}

// A search of a version for columns 0 and 7.
fn search_by(alloc: Global, version: u8, shape: Shape, making: Making) -> Result<Want, NoMemory>
    requires low { 8 ≤ shape.depth }
    requires high { shape.depth ≤ 11 }
    requires probes { shape.probes ≡ 2 }
    ensures { IfOk result IsWant }
{
    let mut keys = Vec::new(alloc);
    keys.push(key(shape, making, 0))?;
    keys.push(key(shape, making, 7))?;
    Ok(Want::Search {
        version: version as u32,
        shape,
        keys: Keys::of(keys),
    })
}

// The same as the client asks the lead.
fn search(alloc: Global, version: u8, shape: Shape) -> Result<Want, NoMemory>
    requires low { 8 ≤ shape.depth }
    requires high { shape.depth ≤ 11 }
    requires probes { shape.probes ≡ 2 }
    ensures { IfOk result IsWant }
{
    let making = Making {
        follow: false,
        short: true,
    };
    search_by(alloc, version, shape, making)
}

// The first line's bit at each probe, where something was found.
fn first_bits(what: &What) -> Option<(bool, bool)> {
    let What::Found { found } = what else {
        return None;
    };
    match found.sums.items() {
        [first, second] if first.bits.len() > 0 && second.bits.len() > 0 => {
            Some((first.bits.get(0), second.bits.get(0)))
        }
        _ => None,
    }
}

#[test]
fn the_shares_of_both_forms_add_up_to_the_cells(rt: HostRuntime) -> Result<(), NoMemory> {
    let alloc = rt.alloc();
    let shape = Shape::new(8, 2).expect(&rt, "a shape in range");
    let mut core = core_of(alloc, shape, 2, 1)?;
    for short in [true, false] {
        let lead = Making {
            follow: false,
            short,
        };
        let follow = Making {
            follow: true,
            short,
        };
        let lead = answer(alloc, &mut core, 1, search_by(alloc, 1, shape, lead)?);
        let follow = answer(alloc, &mut core, 1, search_by(alloc, 1, shape, follow)?);
        let (a, b) = first_bits(&lead).expect(&rt, "two sums over a line");
        let (c, d) = first_bits(&follow).expect(&rt, "two sums over a line");
        // The row is set at column 0 and not at column 7.
        assert_eq!(rt; (a ^ c, b ^ d), (true, false));
        assert_eq!(rt;
            (outcome(&lead), outcome(&follow)),
            ((true, 1, 1), (true, 1, 1))
        );
    }
    Ok(())
}

// The first line's cells in columns 0 and 7 at a version, by the answers to the lead's keys and to the follower's.
fn cells_at(
    alloc: Global,
    core: &mut DomainCore,
    shape: Shape,
    version: u8,
) -> Result<Option<(bool, bool)>, NoMemory>
    requires low { 8 ≤ shape.depth }
    requires high { shape.depth ≤ 11 }
    requires probes { shape.probes ≡ 2 }
{
    let lead = Making {
        follow: false,
        short: true,
    };
    let follow = Making {
        follow: true,
        short: true,
    };
    let lead = answer(alloc, core, 1, search_by(alloc, version, shape, lead)?);
    let follow = answer(alloc, core, 1, search_by(alloc, version, shape, follow)?);
    match (first_bits(&lead), first_bits(&follow)) {
        (Some((a, b)), Some((c, d))) => Ok(Some((a ^ c, b ^ d))),
        _ => Ok(None),
    }
}

#[test]
fn an_earlier_version_keeps_the_row_that_a_later_one_replaced(
    rt: HostRuntime,
) -> Result<(), NoMemory> {
    let alloc = rt.alloc();
    let shape = Shape::new(8, 2).expect(&rt, "a shape in range");
    let mut core = empty_core(alloc, Side::Follow, shape, 2)?;
    let first = post_with(alloc, shape, 1, 7, (0, 255))?;
    commit(alloc, &mut core, 1, first);
    let second = post_with(alloc, shape, 2, 7, (7, 255))?;
    commit(alloc, &mut core, 2, second);
    assert!(rt; cells_at(alloc, &mut core, shape, 1)? == Some((true, false)));
    assert!(rt; cells_at(alloc, &mut core, shape, 2)? == Some((false, true)));
    Ok(())
}

#[test]
fn each_version_that_is_retained_is_found_with_its_own_row(
    rt: HostRuntime,
) -> Result<(), NoMemory> {
    let alloc = rt.alloc();
    let shape = Shape::new(8, 2).expect(&rt, "a shape in range");
    let mut core = empty_core(alloc, Side::Follow, shape, 3)?;
    for number in 1..5u32 {
        let column = if number % 2 == 1 { 0 } else { 7 };
        let entry = post_with(alloc, shape, number, 7, (column, 255))?;
        commit(alloc, &mut core, number, entry);
    }
    for (version, want) in [(2, (false, true)), (3, (true, false)), (4, (false, true))] {
        let cells = cells_at(alloc, &mut core, shape, version)?;
        assert!(rt; cells == Some(want), "version {version}");
    }
    Ok(())
}

fn is_at(what: &What, want: u32) -> bool {
    match what {
        What::At { length } => *length == want,
        _ => false,
    }
}

fn is_refused(what: &What, want: Refusal) -> bool {
    match what {
        What::Refused { code } => *code == want,
        _ => false,
    }
}

// Whether a version was found, with its number and its lines; else the oldest and the newest version that is retained.
fn outcome(what: &What) -> (bool, u32, usize) {
    match what {
        What::Found { found } => (true, found.version, found.manifest.items().len()),
        What::Refused {
            code: Refusal::Unretained { oldest, newest },
        } => (false, *oldest, *newest as usize),
        _ => (false, 99, 99),
    }
}

#[test]
fn a_search_finds_what_is_retained_and_no_more(rt: HostRuntime) -> Result<(), NoMemory> {
    let alloc = rt.alloc();
    let shape = Shape::new(8, 2).expect(&rt, "a shape in range");
    for (retained, count, version, want) in [
        (2, 5, 4, (true, 4, 4)),
        (2, 5, 3, (false, 4, 5)),
        (1, 5, 5, (true, 5, 5)),
        (1, 5, 4, (false, 5, 5)),
        (1, 0, 0, (true, 0, 0)),
        (1, 0, 1, (false, 0, 0)),
        (256, 5, 0, (true, 0, 0)),
        (256, 5, 3, (true, 3, 3)),
    ] {
        let mut core = core_of(alloc, shape, retained, count)?;
        let what = answer(alloc, &mut core, 1, search(alloc, version, shape)?);
        assert_eq!(rt; outcome(&what), want, "version {version} of {count}");
    }
    Ok(())
}

// A lead whose folder 1 has so many removals.
fn core_with(alloc: Global, shape: Shape, retained: u32, count: u32) -> Result<DomainCore, NoMemory>
    requires { count ≤ 1000 }
{
    let mut core = empty_core(alloc, Side::Lead, shape, retained)?;
    for serial in 1..count + 1 {
        let id = UpdateId {
            member: MemberId(0),
            serial: serial as u64,
        };
        let entry = Entry {
            id,
            doc: DocId(7),
            change: Change::Remove,
        };
        answer(alloc, &mut core, 1, Want::Stage { entry });
        answer(alloc, &mut core, 1, Want::Order { id });
    }
    Ok(core)
}

#[test]
fn the_oldest_of_256_versions_is_found(rt: HostRuntime) -> Result<(), NoMemory> {
    let alloc = rt.alloc();
    let shape = Shape::new(8, 2).expect(&rt, "a shape in range");
    let mut core = core_with(alloc, shape, 256, 258)?;
    for (version, want) in [
        (2, (false, 3, 258)),
        (3, (true, 3, 0)),
        (255, (true, 255, 0)),
    ] {
        let what = answer(alloc, &mut core, 1, search(alloc, version, shape)?);
        assert_eq!(rt; outcome(&what), want, "version {version}");
    }
    Ok(())
}

#[test]
fn a_length_is_told_and_another_folder_or_shape_is_refused(
    rt: HostRuntime,
) -> Result<(), NoMemory> {
    let alloc = rt.alloc();
    let shape = Shape::new(8, 2).expect(&rt, "a shape in range");
    let wide = Shape::new(9, 2).expect(&rt, "a shape in range");
    let mut core = core_of(alloc, shape, 2, 3)?;
    assert!(rt; core.length(FolderId(1)) == Some(3));
    assert!(rt; core.length(FolderId(2)).is_none());
    let latest = answer(alloc, &mut core, 1, Want::Latest);
    assert!(rt; is_at(&latest, 3));
    let absent = answer(alloc, &mut core, 2, Want::Latest);
    assert!(rt; is_refused(&absent, Refusal::NoFolder));
    let wrong = answer(alloc, &mut core, 1, search(alloc, 3, wide)?);
    assert!(rt;
        is_refused(
            &wrong,
            Refusal::ShapeWrong {
                depth: 8,
                probes: 2
            }
        )
    );
    Ok(())
}

// What an answer says: its name, a number and a serial.
fn said(what: &What) -> (&'static str, u32, u64) {
    match what {
        What::At { length } => ("at", *length, 0),
        What::Found { found } => ("found", found.version, 0),
        What::Id { number, id } => ("id", *number, id.serial),
        What::Staged { id } => ("staged", 0, id.serial),
        What::Committed { number, id } => ("committed", *number, id.serial),
        What::Refused { code } => refused(code),
    }
}

fn refused(code: &Refusal) -> (&'static str, u32, u64) {
    match code {
        Refusal::NoFolder => ("nofolder", 0, 0),
        Refusal::BadMember { member } => ("badmember", member.0, 0),
        Refusal::Past { last } => ("past", 0, *last),
        Refusal::Clash { id } => ("clash", 0, id.serial),
        Refusal::Unfinished { id } => ("unfinished", 0, id.serial),
        Refusal::Unstaged { id } => ("unstaged", 0, id.serial),
        Refusal::Taken { number, id } => ("taken", *number, id.serial),
        Refusal::Gap { length } => ("gap", *length, 0),
        Refusal::WrongRole { role } => ("wrongrole", (*role == Side::Follow) as u32, 0),
        Refusal::NoEntry { length } => ("noentry", *length, 0),
        _ => ("another", 0, 0),
    }
}

// A removal of a document by a member.
fn removal(member: u32, serial: u8, doc: u32) -> Want
    requires { 1 ≤ serial }
    ensures { IsWant result }
{
    Want::Stage {
        entry: Entry {
            id: id_of(member, serial),
            doc: DocId(doc),
            change: Change::Remove,
        },
    }
}

fn id_of(member: u32, serial: u8) -> UpdateId
    ensures { result ≡ record { member = record { 0 = member }; serial = serial } }
{
    UpdateId {
        member: MemberId(member),
        serial: serial as u64,
    }
}

fn order(serial: u8) -> Want
    requires { 1 ≤ serial }
    ensures { IsWant result }
{
    Want::Order {
        id: id_of(0, serial),
    }
}

fn follow(number: u8, serial: u8) -> Want
    requires number { 1 ≤ number }
    requires serial { 1 ≤ serial }
    ensures { IsWant result }
{
    Want::Follow {
        number: number as u32,
        id: id_of(0, serial),
    }
}

fn which(number: u8) -> Want
    requires { 1 ≤ number }
    ensures { IsWant result }
{
    Want::Which {
        number: number as u32,
    }
}

#[test]
fn a_lead_commits_an_id_once_with_the_content_that_came_first(
    rt: HostRuntime,
) -> Result<(), NoMemory> {
    let alloc = rt.alloc();
    let shape = Shape::new(8, 2).expect(&rt, "a shape in range");
    let mut lead = empty_core(alloc, Side::Lead, shape, 64)?;
    let what = answer(alloc, &mut lead, 1, removal(0, 1, 7));
    assert_eq!(rt; said(&what), ("staged", 0, 1));
    let what = answer(alloc, &mut lead, 1, removal(0, 1, 8));
    assert_eq!(rt; said(&what), ("clash", 0, 1));
    let what = answer(alloc, &mut lead, 1, removal(0, 2, 8));
    assert_eq!(rt; said(&what), ("unfinished", 0, 1));
    let what = answer(alloc, &mut lead, 1, order(2));
    assert_eq!(rt; said(&what), ("unstaged", 0, 2));
    let what = answer(alloc, &mut lead, 1, order(1));
    assert_eq!(rt; said(&what), ("committed", 1, 1));
    let what = answer(alloc, &mut lead, 1, removal(0, 1, 8));
    assert_eq!(rt; said(&what), ("committed", 1, 1));
    let what = answer(alloc, &mut lead, 1, removal(64, 1, 8));
    assert_eq!(rt; said(&what), ("badmember", 64, 0));
    let what = answer(alloc, &mut lead, 1, follow(1, 1));
    assert_eq!(rt; said(&what), ("wrongrole", 0, 0));
    let what = answer(alloc, &mut lead, 2, order(1));
    assert_eq!(rt; said(&what), ("nofolder", 0, 0));
    assert_eq!(rt; lead.length(FolderId(1)), Some(1));
    Ok(())
}

#[test]
fn a_follower_takes_each_number_in_its_turn(rt: HostRuntime) -> Result<(), NoMemory> {
    let alloc = rt.alloc();
    let shape = Shape::new(8, 2).expect(&rt, "a shape in range");
    let mut follower = empty_core(alloc, Side::Follow, shape, 64)?;
    answer(alloc, &mut follower, 1, removal(0, 3, 7));
    let what = answer(alloc, &mut follower, 1, order(3));
    assert_eq!(rt; said(&what), ("wrongrole", 1, 0));
    let what = answer(alloc, &mut follower, 1, follow(2, 3));
    assert_eq!(rt; said(&what), ("gap", 0, 0));
    let what = answer(alloc, &mut follower, 1, which(1));
    assert_eq!(rt; said(&what), ("noentry", 0, 0));
    let what = answer(alloc, &mut follower, 1, follow(1, 3));
    assert_eq!(rt; said(&what), ("committed", 1, 3));
    let what = answer(alloc, &mut follower, 1, follow(1, 4));
    assert_eq!(rt; said(&what), ("taken", 1, 3));
    let what = answer(alloc, &mut follower, 1, follow(2, 3));
    assert_eq!(rt; said(&what), ("taken", 1, 3));
    let what = answer(alloc, &mut follower, 1, which(1));
    assert_eq!(rt; said(&what), ("id", 1, 3));
    let what = answer(alloc, &mut follower, 1, removal(0, 2, 7));
    assert_eq!(rt; said(&what), ("past", 0, 3));
    assert_eq!(rt; follower.length(FolderId(1)), Some(1));
    Ok(())
}
