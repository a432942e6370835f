//! Members at the seats of two shared domains: a document that is replaced, and two hundred documents of two members.
ghost use Rattle.std.specs.Prelude.{◌≡◌, ◌≤◌, IfOk, IfSome};
ghost use Rattle.dory_dpf.specs.PointKey.{IsKeyOf};
ghost use Rattle.dory_wire.specs.Spelling.{AreKeys};
ghost use Rattle.dory_state.specs.Spelling.{IsKeptState};
ghost use Rattle.dory_shared.specs.Seen.{names_of};

use super::members::{begun, ends, posting, searching};
use super::{MASTER, kept, shape};
use crate::{Seats, turn};
use dory_base::{DocId, FolderId, MemberId, NoMemory, Shape, Side, UpdateId};
use dory_bloom::plain_row;
use dory_domain::{Config, FolderConfig, FolderList};
use dory_dpf::{Key, Keys, gen_short};
use dory_hmac::FolderKeys;
use dory_kernel::{RowKernel, lane_parity, plain_parity};
use dory_member::{Command, Member};
use dory_shared::{Domain, Names, Opened, Seat, open_domain};
use dory_shelf::Places;
use dory_state::KeptState;
use dory_wire::What;
use dory_words::words_of;
use std::alloc::Global;
use std::marker::Brand;
use std::sync::Wait;
use std::test::*;
use std::thread::Threads;

/// A domain of folder 1 in this role and shape, which retains 64 versions, with two seats.
fn config(alloc: Global, role: Side, shape: Shape) -> Result<Config, NoMemory> {
    let mut folders = Vec::new(alloc);
    folders.push(FolderConfig {
        folder: FolderId(1),
        shape,
        retained: 64,
    })?;
    Ok(Config {
        role,
        folders: FolderList::of(folders),
        seats: 2,
    })
}

/// The lead's keys for columns 0 and 7, whose trees begin with zeros.
fn keys(alloc: Global) -> Result<Keys, NoMemory>
    ensures { IfOk result (λ keys. AreKeys (record { depth = 8; probes = 2 }) keys) }
{
    let mut keys = Vec::new(alloc);
    keys.push(key(0))?;
    keys.push(key(7))?;
    Ok(Keys::of(keys))
}

/// The lead's key for a column.
fn key(column: u8) -> Key
    ensures { IsKeyOf 2 8 result }
{
    let (lead, _follow) = gen_short(shape(), column as u16, [0; 16], [0; 16]);
    let _depth = lead.depth();
    lead
}

/// Whether a member ends so by its turns.
fn plays<J: Names, K: Names, R: Threads + Wait + Sync>(
    rt: &R,
    alloc: Global,
    lead: &Domain<'_, J, R>,
    follow: &Domain<'_, K, R>,
    seats: Seats,
    member: Member,
    text: &str,
) -> (bool, Seats)
    requires lead { names_of seats.lead ≡ J.names }
    requires follow { names_of seats.follow ≡ K.names }
    ensures lead { names_of result.1.lead ≡ J.names }
    ensures follow { names_of result.1.follow ≡ K.names }
{
    let mut seats = seats;
    let mut member = member;
    for done in 0..20 {
        if !turn(rt, alloc, lead, follow, &mut seats, &mut member) {
            break;
        }
    }
    (ends(alloc, &member, text), seats)
}

/// What a member's seats saw when a document was posted twice by different words.
#[derive(Debug, Drop, PartialEq, Eq)]
struct Replaced {
    first: bool,
    second: bool,
    found: bool,
    lead: bool,
    follow: bool,
}

/// Whether a seat's version 2 has one line: slot 0, document 7, by the second update of member 0.
fn is_replaced<R: Threads + Sync>(
    rt: &R,
    alloc: Global,
    kernel: &RowKernel,
    seat: &mut Seat,
) -> Option<bool> {
    let held = seat.hold(FolderId(1), 2).ok()?;
    let keys = keys(alloc).ok()?;
    match held.answer(rt, alloc, kernel, shape(), &keys) {
        What::Found { found } => {
            let lines = found.manifest.items();
            if lines.len() != 1 {
                return Some(false);
            }
            let id = UpdateId {
                member: MemberId(0),
                serial: 2,
            };
            Some(lines[0].slot == 0 && lines[0].doc == DocId(7) && lines[0].id == id)
        }
        _ => None,
    }
}

/// Posts document 7 with one word, then with another, and searches the second.
fn replaces<J: Names, K: Names, R: Threads + Wait + Sync>(
    rt: &R,
    alloc: Global,
    lead: Opened<'_, R>,
    follow: Opened<'_, R>,
    seats: Seats,
) -> Option<Replaced>
    requires lead_opened { names_of lead ≡ J.names }
    requires follow_opened { names_of follow ≡ K.names }
    requires lead { names_of seats.lead ≡ J.names }
    requires follow { names_of seats.follow ≡ K.names }
{
    let lead = lead.named::<J>(RowKernel::new(plain_parity));
    let follow = follow.named::<K>(RowKernel::new(plain_parity));
    let alpha = posting(alloc, kept(0, 1), 7, b"alpha")?;
    let (first, seats) = plays(rt, alloc, &lead, &follow, seats, alpha, "posted 7 at 1");
    let beta = posting(alloc, kept(0, 2), 7, b"beta")?;
    let (second, seats) = plays(rt, alloc, &lead, &follow, seats, beta, "posted 7 at 2");
    let search = searching(alloc, kept(3, 5), b"beta")?;
    let (found, seats) = plays(rt, alloc, &lead, &follow, seats, search, "version 2: 7");
    let mut seats = seats;
    let at_lead = is_replaced(rt, alloc, &lead.kernel, &mut seats.lead)?;
    let at_follow = is_replaced(rt, alloc, &follow.kernel, &mut seats.follow)?;
    Some(Replaced {
        first,
        second,
        found,
        lead: at_lead,
        follow: at_follow,
    })
}

#[test]
fn a_document_that_is_posted_again_is_replaced(rt: HostRuntime) {
    let alloc = rt.alloc();
    let mut places = Places::new();
    let (Ok(lead), Ok(follow)) = (
        config(alloc, Side::Lead, shape()),
        config(alloc, Side::Follow, shape()),
    ) else {
        return;
    };
    let Ok((lead, leads)) = open_domain(&rt, alloc, &lead, &mut places) else {
        return;
    };
    let Ok((follow, follows)) = open_domain(&rt, alloc, &follow, &mut places) else {
        return;
    };
    let mut leads = leads;
    let mut follows = follows;
    let (Some(one), Some(other)) = (leads.pop(), follows.pop()) else {
        return;
    };
    let seats = Seats {
        lead: one,
        follow: other,
    };
    let replaced = replaces::<Brand, Brand, _>(&rt, alloc, lead, follow, seats);
    let want = Replaced {
        first: true,
        second: true,
        found: true,
        lead: true,
        follow: true,
    };
    assert_eq!(rt; replaced, Some(want));
}

/// 1,024 columns, and five positions for a word.
fn wide() -> Shape
    ensures { result ≡ record { depth = 10; probes = 5 } }
{
    Shape::of(10, 5)
}

/// A state of a folder of this shape, with nothing seen and nothing pending.
fn wide_kept(member: u32, next_serial: u64) -> KeptState
    requires member { member ≤ 63 }
    requires some { 1 ≤ next_serial }
    ensures state { IsKeptState result }
    ensures shape { result.shape ≡ record { depth = 10; probes = 5 } }
{
    KeptState {
        folder: FolderId(1),
        member: MemberId(member),
        shape: wide(),
        master: MASTER,
        next_serial,
        seen: 0,
        used: 0,
        pending: None,
    }
}

/// A text of a mail, whose last has a word of 70 letters more.
fn text(alloc: Global, doc: u32) -> Option<Vec<u8>> {
    let (user, day) = (doc % 7, doc % 28);
    let text = format!(in alloc;
        "From: user{user}@example.org Subject: invoice{doc} Meeting on day{day} at café"
    ).ok()?;
    let mut bytes = text.as_bytes().to_vec(alloc).ok()?;
    if doc == 200 {
        bytes.push(b' ').ok()?;
        bytes.extend_from_slice(&[b'x'; 70]).ok()?;
    }
    Some(bytes)
}

/// A member that posts a mail.
fn mailing(alloc: Global, member: u32, next_serial: u64, doc: u32) -> Option<Member>
    requires member { member ≤ 63 }
    requires some { 1 ≤ next_serial }
{
    let keys = FolderKeys::derive(&MASTER, 1);
    let words = words_of(alloc, &text(alloc, doc)?).ok()?;
    let row = plain_row(alloc, &keys, wide(), &words).ok()?;
    if row.len() != 1024 {
        return None;
    }
    let doc = DocId(doc);
    begun(
        alloc,
        wide_kept(member, next_serial),
        Command::Post { doc, row },
    )
}

/// What is told of a post of a document by the update of the same number.
fn posted(alloc: Global, doc: u32) -> Option<String> {
    format!(in alloc; "posted {doc} at {doc}").ok()
}

/// What is told of a version that has all documents up to this one.
fn listed(alloc: Global, last: u32) -> Option<String> {
    let mut line = format!(in alloc; "version {last}:").ok()?;
    for doc in 1..=last {
        line.push_str(format!(in alloc; " {doc}").ok()?.as_str())
            .ok()?;
    }
    Some(line)
}

/// What is told of a version of which only document 200 is listed.
const LAST: &str = "version 200: 200";

/// Posts the mails of these pairs, the first of each by member 0 and the second by member 1: whether all are posted.
fn mails<J: Names, K: Names, R: Threads + Wait + Sync>(
    rt: &R,
    alloc: Global,
    lead: &Domain<'_, J, R>,
    follow: &Domain<'_, K, R>,
    seats: (Seats, Seats),
    pairs: (u32, u32),
) -> Option<(bool, (Seats, Seats))>
    requires lead { names_of seats.0.lead ≡ J.names }
    requires follow { names_of seats.0.follow ≡ K.names }
    requires other_lead { names_of seats.1.lead ≡ J.names }
    requires other_follow { names_of seats.1.follow ≡ K.names }
    ensures lead { IfSome result (λ r. names_of r.1.0.lead ≡ J.names) }
    ensures follow { IfSome result (λ r. names_of r.1.0.follow ≡ K.names) }
    ensures other_lead { IfSome result (λ r. names_of r.1.1.lead ≡ J.names) }
    ensures other_follow { IfSome result (λ r. names_of r.1.1.follow ≡ K.names) }
{
    let (mut first, mut second) = seats;
    let mut all = true;
    for pair in pairs.0..pairs.1 {
        let doc = pair.saturating_mul(2).saturating_add(1);
        let serial = pair as u64 + 1;
        let next = doc.saturating_add(1);
        let member = mailing(alloc, 0, serial, doc)?;
        let told = posted(alloc, doc)?;
        let (one, kept) = plays(rt, alloc, lead, follow, first, member, told.as_str());
        first = kept;
        let member = mailing(alloc, 1, serial, next)?;
        let told = posted(alloc, next)?;
        let (other, kept) = plays(rt, alloc, lead, follow, second, member, told.as_str());
        second = kept;
        all = all && one && other;
    }
    Some((all, (first, second)))
}

/// Whether a member's search ends so.
fn finds<J: Names, K: Names, R: Threads + Wait + Sync>(
    rt: &R,
    alloc: Global,
    lead: &Domain<'_, J, R>,
    follow: &Domain<'_, K, R>,
    seats: Seats,
    word: &[u8],
    text: &str,
) -> Option<(bool, Seats)>
    requires lead { names_of seats.lead ≡ J.names }
    requires follow { names_of seats.follow ≡ K.names }
    ensures lead { IfSome result (λ r. names_of r.1.lead ≡ J.names) }
    ensures follow { IfSome result (λ r. names_of r.1.follow ≡ K.names) }
{
    let member = searching(alloc, wide_kept(0, 500), word)?;
    Some(plays(rt, alloc, lead, follow, seats, member, text))
}

/// Two members post two hundred mails, and search at versions 50, 120 and 200: whether all goes as it should.
fn archives<J: Names, K: Names, R: Threads + Wait + Sync>(
    rt: &R,
    alloc: Global,
    lead: Opened<'_, R>,
    follow: Opened<'_, R>,
    seats: (Seats, Seats),
) -> Option<[bool; 8]>
    requires lead_opened { names_of lead ≡ J.names }
    requires follow_opened { names_of follow ≡ K.names }
    requires lead { names_of seats.0.lead ≡ J.names }
    requires follow { names_of seats.0.follow ≡ K.names }
    requires other_lead { names_of seats.1.lead ≡ J.names }
    requires other_follow { names_of seats.1.follow ≡ K.names }
{
    let lead = lead.named::<J>(RowKernel::new(lane_parity));
    let follow = follow.named::<K>(RowKernel::new(lane_parity));
    let cafe = "café".as_bytes();
    let (few, (first, second)) = mails(rt, alloc, &lead, &follow, seats, (0, 25))?;
    let text = listed(alloc, 50)?;
    let (at_50, first) = finds(rt, alloc, &lead, &follow, first, cafe, text.as_str())?;
    let (more, (first, second)) = mails(rt, alloc, &lead, &follow, (first, second), (25, 60))?;
    let text = listed(alloc, 120)?;
    let (at_120, first) = finds(rt, alloc, &lead, &follow, first, cafe, text.as_str())?;
    let (most, (first, second)) = mails(rt, alloc, &lead, &follow, (first, second), (60, 100))?;
    let text = listed(alloc, 200)?;
    let (at_200, _seats) = finds(rt, alloc, &lead, &follow, first, cafe, text.as_str())?;
    let (long, second) = finds(rt, alloc, &lead, &follow, second, &[b'x'; 70], LAST)?;
    let (cut, _seats) = finds(rt, alloc, &lead, &follow, second, &[b'x'; 64], LAST)?;
    Some([few, at_50, more, at_120, most, at_200, long, cut])
}

#[test]
fn each_of_two_hundred_mails_is_found(rt: HostRuntime) {
    let alloc = rt.alloc();
    let mut places = Places::new();
    let (Ok(lead), Ok(follow)) = (
        config(alloc, Side::Lead, wide()),
        config(alloc, Side::Follow, wide()),
    ) else {
        return;
    };
    let Ok((lead, leads)) = open_domain(&rt, alloc, &lead, &mut places) else {
        return;
    };
    let Ok((follow, follows)) = open_domain(&rt, alloc, &follow, &mut places) else {
        return;
    };
    let mut leads = leads;
    let mut follows = follows;
    let (Some(lead_one), Some(lead_two)) = (leads.pop(), leads.pop()) else {
        return;
    };
    let (Some(follow_one), Some(follow_two)) = (follows.pop(), follows.pop()) else {
        return;
    };
    let first = Seats {
        lead: lead_one,
        follow: follow_one,
    };
    let second = Seats {
        lead: lead_two,
        follow: follow_two,
    };
    let all = archives::<Brand, Brand, _>(&rt, alloc, lead, follow, (first, second));
    assert_eq!(rt; all, Some([true; 8]));
}
