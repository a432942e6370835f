//! Commands whose replies are checked in pairs, and a removal, at two honest domains.

use super::kept;
use super::members::{begun, ends, posting, removing, searching};
use super::served::{Domains, FOLLOW, LATEST, ORDER, SAVE, SEARCH, STAGE, config, ends_by};
use dory_base::Side;
use dory_domain::DomainCore;
use dory_kernel::{RowKernel, plain_parity};
use dory_member::{Command, Member};
use std::alloc::Global;
use std::test::*;

/// Whether a member ends so, with this text, when it has done this.
fn ended(
    alloc: Global,
    mut member: Member,
    domains: &mut Domains,
    want: &[u8],
    text: &str,
) -> bool {
    ends_by(alloc, &mut member, domains, want) && ends(alloc, &member, text)
}

const UPDATE: [u8; 6] = [SAVE, STAGE, STAGE, ORDER, FOLLOW, SAVE];

/// Posts of documents 7 and 9 with one word, by members 0 and 1.
fn posted(alloc: Global, domains: &mut Domains) -> Option<bool> {
    let first = posting(alloc, kept(0, 1), 7, b"alpha")?;
    let second = posting(alloc, kept(1, 1), 9, b"alpha")?;
    let first = ended(alloc, first, domains, &UPDATE, "posted 7 at 1");
    let second = ended(alloc, second, domains, &UPDATE, "posted 9 at 2");
    Some(first && second)
}

/// Whether a search of the word ends so, and keeps this version as seen.
fn searched(alloc: Global, domains: &mut Domains, text: &str, seen: u32) -> Option<bool> {
    let mut search = searching(alloc, kept(3, 5), b"alpha")?;
    let asked = [SAVE, LATEST, LATEST, SEARCH, SEARCH, SAVE];
    let ended = ends_by(alloc, &mut search, domains, &asked);
    Some(ended && ends(alloc, &search, text) && search.state().seen == seen)
}

/// Whether document 7 is removed at 3.
fn removed(alloc: Global, domains: &mut Domains) -> Option<bool> {
    let removal = removing(alloc, kept(2, 1), 7)?;
    Some(ended(alloc, removal, domains, &UPDATE, "removed 7 at 3"))
}

/// Whether both lengths are 3.
fn measured(alloc: Global, domains: &mut Domains) -> Option<bool> {
    let latest = begun(alloc, kept(4, 1), Command::Latest)?;
    let text = "lead 3 follow 3 seen 0";
    Some(ended(alloc, latest, domains, &[SAVE, LATEST, LATEST], text))
}

/// Whether a search, two posts, a search, a removal, the lengths and another search end as they should.
fn course(alloc: Global) -> Option<[bool; 6]> {
    let kernel = RowKernel::new(plain_parity);
    let lead = DomainCore::new(alloc, Side::Lead, &[config()], kernel).ok()?;
    let kernel = RowKernel::new(plain_parity);
    let follow = DomainCore::new(alloc, Side::Follow, &[config()], kernel).ok()?;
    let mut domains = Domains { lead, follow };
    Some([
        searched(alloc, &mut domains, "version 0:", 0)?,
        posted(alloc, &mut domains)?,
        searched(alloc, &mut domains, "version 2: 7 9", 2)?,
        removed(alloc, &mut domains)?,
        measured(alloc, &mut domains)?,
        searched(alloc, &mut domains, "version 3: 9", 3)?,
    ])
}

#[test]
fn what_is_posted_is_found_and_what_is_removed_is_not(rt: HostRuntime) {
    assert_eq!(rt; course(rt.alloc()), Some([true; 6]));
}
