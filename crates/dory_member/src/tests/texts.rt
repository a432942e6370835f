//! Every text of an outcome, once.

use crate::{Fault, Mark, Outcome, outcome_text};
use dory_base::{AskId, DocId, Docs, MemberId, Refusal, Side, Tag, UpdateId};
use dory_verify::{Answer, CheckFault};
use std::alloc::Global;
use std::test::*;

/// Whether an outcome has this text.
fn prints(alloc: Global, outcome: &Outcome, text: &str) -> bool {
    match outcome_text(alloc, outcome) {
        Ok(line) => line.as_str() == text,
        Err(_) => false,
    }
}

fn id(member: u32, serial: u64) -> UpdateId {
    let member = MemberId(member);
    UpdateId { member, serial }
}

fn ask(step: u32) -> AskId {
    let member = MemberId(0);
    AskId {
        member,
        serial: 2,
        step,
    }
}

#[test]
fn every_end_has_its_text(rt: HostRuntime) {
    let alloc = rt.alloc();
    let doc = DocId(7);
    for (outcome, text) in [
        (Outcome::Posted { doc, number: 1 }, "posted 7 at 1"),
        (Outcome::Removed { doc, number: 2 }, "removed 7 at 2"),
        (Outcome::NothingPending, "nothing pending"),
        (
            Outcome::Lengths {
                lead: 3,
                follow: 2,
                seen: 1,
            },
            "lead 3 follow 2 seen 1",
        ),
        (Outcome::Rotated { epoch: 255 }, "epoch 255"),
    ] {
        assert!(rt; prints(alloc, &outcome, text), "{text}");
    }
}

/// Whether a search at version 2 that finds no document has this text.
fn lists_none(alloc: Global, text: &str) -> bool {
    let docs = Docs::of(Vec::new(alloc));
    let answer = Answer { version: 2, docs };
    prints(alloc, &Outcome::Accepted { answer }, text)
}

/// Whether a search at version 2 that finds these two documents has this text.
fn lists_two(alloc: Global, first: u32, second: u32, text: &str) -> Option<bool> {
    if first >= second {
        return None;
    }
    let found = Vec::from_slice(alloc, &[DocId(first), DocId(second)]).ok()?;
    let docs = Docs::of(found);
    let answer = Answer { version: 2, docs };
    Some(prints(alloc, &Outcome::Accepted { answer }, text))
}

#[test]
fn an_answer_has_its_version_and_its_documents(rt: HostRuntime) {
    let alloc = rt.alloc();
    assert!(rt; lists_none(alloc, "version 2:"));
    assert_eq!(rt; lists_two(alloc, 7, 9, "version 2: 7 9"), Some(true));
    assert_eq!(rt;
        lists_two(alloc, 0, u32::MAX, "version 2: 0 4294967295"),
        Some(true)
    );
}

/// Whether a failed check has this text.
fn checks(alloc: Global, fault: CheckFault, text: &str) -> bool {
    prints(alloc, &Outcome::Failed(Fault::Check(fault)), text)
}

const LEAD: Side = Side::Lead;

const FOLLOW: Side = Side::Follow;

#[test]
fn every_check_of_one_reply_has_its_text(rt: HostRuntime) {
    let alloc = rt.alloc();
    let side = FOLLOW;
    for (fault, text) in [
        (CheckFault::Form { side, at: 4 }, "form follow 4"),
        (
            CheckFault::Echo {
                side,
                asked: ask(1),
                got: ask(0),
            },
            "echo follow 0.2.1 0.2.0",
        ),
        (
            CheckFault::Version {
                side,
                asked: 1,
                got: 2,
            },
            "version follow 1 2",
        ),
        (
            CheckFault::Stale {
                side,
                latest: 0,
                seen: 1,
            },
            "stale follow 0 1",
        ),
        (
            CheckFault::Count {
                side,
                got: 1,
                want: 2,
            },
            "count follow 1 2",
        ),
        (CheckFault::Manifest { place: 3 }, "manifest 3"),
    ] {
        assert!(rt; checks(alloc, fault, text), "{text}");
    }
}

/// A tag that was not right, of bytes ab, where zeros were wanted.
fn wrong_tag() -> CheckFault {
    CheckFault::TagSum {
        probe: 0,
        got: Tag([0xab; 16]),
        want: Tag::zero(),
    }
}

#[test]
fn a_wrong_sum_is_told_with_both_tags(rt: HostRuntime) {
    let text = "tagsum 0 abababababababababababababababab 00000000000000000000000000000000";
    assert!(rt; checks(rt.alloc(), wrong_tag(), text));
}

/// Whether a refusal of the lead has this text.
fn refuses(alloc: Global, code: Refusal, text: &str) -> bool {
    checks(alloc, CheckFault::Refused { side: LEAD, code }, text)
}

#[test]
fn every_refusal_of_a_search_has_its_text(rt: HostRuntime) {
    let alloc = rt.alloc();
    for (code, text) in [
        (Refusal::NoFolder, "refused lead nofolder"),
        (
            Refusal::ShapeWrong {
                depth: 8,
                probes: 2,
            },
            "refused lead shapewrong 8 2",
        ),
        (
            Refusal::Unretained {
                oldest: 4,
                newest: 5,
            },
            "refused lead unretained 4 5",
        ),
        (Refusal::NoEntry { length: 6 }, "refused lead noentry 6"),
        (Refusal::NoMemory, "refused lead nomemory"),
    ] {
        assert!(rt; refuses(alloc, code, text), "{text}");
    }
}

#[test]
fn every_refusal_of_an_update_has_its_text(rt: HostRuntime) {
    let alloc = rt.alloc();
    let id = id(3, 5);
    for (code, text) in [
        (
            Refusal::BadMember {
                member: MemberId(64),
            },
            "refused lead badmember 64",
        ),
        (Refusal::Past { last: 9 }, "refused lead past 9"),
        (Refusal::Clash { id }, "refused lead clash 3.5"),
        (Refusal::Unfinished { id }, "refused lead unfinished 3.5"),
        (Refusal::Unstaged { id }, "refused lead unstaged 3.5"),
        (Refusal::Taken { number: 1, id }, "refused lead taken 1 3.5"),
        (Refusal::Gap { length: 0 }, "refused lead gap 0"),
        (
            Refusal::WrongRole { role: FOLLOW },
            "refused lead wrongrole follow",
        ),
        (Refusal::HistoryFull, "refused lead historyfull"),
    ] {
        assert!(rt; refuses(alloc, code, text), "{text}");
    }
}

/// A number and an update.
fn mark(number: u32, id: UpdateId) -> Mark {
    Mark { number, id }
}

#[test]
fn every_other_fault_has_its_text(rt: HostRuntime) {
    let alloc = rt.alloc();
    for (fault, text) in [
        (
            Fault::Unconfirmed {
                side: LEAD,
                want: mark(1, id(0, 2)),
                got: mark(3, id(9, 8)),
            },
            "unconfirmed lead 1 0.2 3 9.8",
        ),
        (
            Fault::Diverged {
                number: 4,
                lead_id: id(0, 2),
                follow_id: id(9, 8),
            },
            "diverged 4 0.2 9.8",
        ),
        (
            Fault::Unfinished {
                id: id(63, 18_446_744_073_709_551_615),
            },
            "unfinished 63.18446744073709551615",
        ),
        (Fault::SerialEnd, "serialend"),
        (Fault::EpochEnd, "epochend"),
        (Fault::NoMemory, "nomemory"),
    ] {
        assert!(rt; prints(alloc, &Outcome::Failed(fault), text), "{text}");
    }
}
